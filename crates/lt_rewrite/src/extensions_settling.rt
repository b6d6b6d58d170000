//! The normal form of a list of extensions (RFC 5646, 4.5; RFC 6067; RFC 6497). A clause `Settles` says of an answer
//! that it is an index and the normal form of the extension at that index, or None if there is nothing to change.
ghost use Rattle.std.specs.Prelude.{◌≡◌, ◌<◌, ◌==◌, List, All, IfOk, OnErr, IfSome, length, map, position};
ghost use Rattle.std.specs.List.{AllByRecursion};
ghost use Rattle.lt_tag.specs.Parts.{ExtensionParts, TForm};
ghost use Rattle.lt_tag.specs.Extensions.{unicode, transform, IsTransform};
ghost use Rattle.lt_registry.specs.Parts.{EntryParts};
ghost use Rattle.lt_registry.specs.Validity.{Distinct};
ghost use Rattle.lt_rewrite.specs.Rewriting.{IsNormalForm};
ghost use Rattle.lt_rewrite.specs.Extensions.{ExtensionsStep};
ghost use Rattle.lt_rewrite.specs.Conditions.{HasEndingChain};
ghost use Rattle.lt_rewrite.specs.ExtensionsSettling.{Settles, placed};
ghost use Rattle.lt_rewrite.specs.Shortcuts.{AreShortcuts};

use crate::extension_settling::{recall_forms, settle_transform, settle_u};
use crate::part_ordering::put_in_order;
use crate::rising_keys::keys_rise;
use crate::shortcuts::Shortcuts;
use lt_registry::Lookup;
use lt_tag::{Extension, OutOfMemory, TransformFault, join_t, join_u, split_t, split_u};
use std::alloc::Global;

/// The index of the first extension with this singleton, or None if there is none.
pub(crate) fn place_of(extensions: &[Extension], singleton: u8) -> Option<usize>
    ensures { result ≡ position (λ (e : ExtensionParts). e.singleton == singleton) extensions.now }
{
    extensions
        .iter()
        .position(|extension| extension.singleton() == singleton)
}

/// The index of the `u` extension, and its normal form. None if there is no `u` extension, or if `keys_rise` shows that
/// it is in its normal form as it is; then no memory is taken. Its steps use no record, so the clause speaks of every
/// list `R` of entries. Each singleton must occur once. Refused only where memory runs out.
#[tactic(auto, using(crate::proofs::ExtensionLaws::none_settles))]
fn settled_unicode(
    alloc: Global,
    extensions: &[Extension],
) -> Result<Option<(usize, Extension)>, OutOfMemory>
    requires { Distinct (map (λ (e : ExtensionParts). e.singleton) extensions.now) }
    ensures { IfOk result (λ settled. (R : List EntryParts) → Settles R unicode extensions.now settled) }
{
    let Some(place) = place_of(extensions, b'u') else {
        return Ok(None);
    };
    let extension = &extensions[place];
    if keys_rise(extension.subtags()) {
        return Ok(None);
    }
    let mut parts = split_u(alloc, extension)?;
    settle_u(alloc, &mut parts)?;
    Ok(Some((place, join_u(alloc, &parts)?)))
}

/// The index of the `t` extension, and its normal form, by the shortcuts if some are given, which must be those of the
/// table. None if there is no `t` extension. A `t` extension must have the form of one (RFC 6497, 2.2), and the chains
/// of values in the registry must end. Refused only where memory runs out.
#[tactic(auto, using(crate::proofs::ExtensionLaws::none_settles))]
fn settled_transform<L: Lookup>(
    alloc: Global,
    table: &L,
    shortcuts: Option<&Shortcuts>,
    extensions: &[Extension],
) -> Result<Option<(usize, Extension)>, OutOfMemory>
    requires shortcuts { IfSome shortcuts (λ s. AreShortcuts (L.listed table.now) s.now) }
    requires chains { All (HasEndingChain (L.listed table.now)) (L.listed table.now) }
    requires transforms { AllByRecursion (λ (e : ExtensionParts). e.singleton ≡ transform → (p : TForm) × IsTransform e.subtags p) extensions.now }
    ensures { IfOk result (Settles (L.listed table.now) transform extensions.now) }
{
    let Some(place) = place_of(extensions, b't') else {
        return Ok(None);
    };
    let mut parts = match split_t(alloc, &extensions[place]) {
        Ok(parts) => parts,
        Err(TransformFault::OutOfMemory) => return Err(OutOfMemory),
        Err(TransformFault::BadTransform) => unreachable!(),
    };
    // Tells the proof the forms of the entries.
    recall_forms(table);
    settle_transform(table, shortcuts, &mut parts);
    Ok(Some((place, join_t(alloc, &parts)?)))
}

/// Puts an extension in the place of the one at the index given with it, which must be in the list. Does nothing if
/// `settled` is None.
pub(crate) fn put_back(extensions: &mut Vec<Extension>, settled: Option<(usize, Extension)>)
    requires { IfSome settled (λ settled. settled.0 < length extensions.old.items) }
    ensures { extensions.new.items ≡ placed settled extensions.old.items }
{
    if let Some((place, extension)) = settled {
        extensions[place] = extension;
    }
}

/// Puts a list of extensions into its normal form, by the shortcuts if some are given, which must be those of the
/// table. Each singleton must occur once, a `t` extension must have the form of one (RFC 6497, 2.2), and the chains of
/// values in the registry must end. Refused only where memory runs out; the list is then what it was.
pub(crate) fn settle_all<L: Lookup>(
    alloc: Global,
    table: &L,
    shortcuts: Option<&Shortcuts>,
    extensions: &mut Vec<Extension>,
) -> Result<(), OutOfMemory>
    requires shortcuts { IfSome shortcuts (λ s. AreShortcuts (L.listed table.now) s.now) }
    requires chains { All (HasEndingChain (L.listed table.now)) (L.listed table.now) }
    requires singletons { Distinct (map (λ (e : ExtensionParts). e.singleton) extensions.old.items) }
    requires transforms { AllByRecursion (λ (e : ExtensionParts). e.singleton ≡ transform → (p : TForm) × IsTransform e.subtags p) extensions.old.items }
    ensures ok { IfOk result (λ _. IsNormalForm (ExtensionsStep (L.listed table.now)) extensions.old.items extensions.new.items) }
    ensures err { OnErr result (extensions.new ≡ extensions.old) }
{
    // Both are made before the list changes, so that a refusal leaves it as it was.
    let unicode = settled_unicode(alloc, extensions)?;
    let transform = settled_transform(alloc, table, shortcuts, extensions)?;
    put_back(extensions, unicode);
    put_back(extensions, transform);
    put_in_order(extensions, false);
    Ok(())
}

/// Puts a list of extensions into its normal form (RFC 5646, 4.5, rule 1): the `u` and the `t` extension into
/// their normal forms, and the extensions into the order of their singletons. Each singleton must occur once, a
/// `t` extension must have the form of one (RFC 6497, 2.2), and the chains of values in the registry must end, as
/// they do if `first_cycle` is None. Memory is taken only for a `u` or a `t` extension. The only refusal is
/// running out of memory; the list is then what it was.
pub fn settle_extensions<L: Lookup>(
    alloc: Global,
    table: &L,
    extensions: &mut Vec<Extension>,
) -> Result<(), OutOfMemory>
    requires chains { All (HasEndingChain (L.listed table.now)) (L.listed table.now) }
    requires singletons { Distinct (map (λ (e : ExtensionParts). e.singleton) extensions.old.items) }
    requires transforms { AllByRecursion (λ (e : ExtensionParts). e.singleton ≡ transform → (p : TForm) × IsTransform e.subtags p) extensions.old.items }
    ensures ok { IfOk result (λ _. IsNormalForm (ExtensionsStep (L.listed table.now)) extensions.old.items extensions.new.items) }
    ensures err { OnErr result (extensions.new ≡ extensions.old) }
{
    settle_all(alloc, table, None, extensions)
}
