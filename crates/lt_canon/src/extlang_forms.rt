//! Extlang forms (RFC 5646, 4.5). An extlang has one Prefix, by the check: `zh` is that of `cmn`.
ghost use Rattle.std.specs.Prelude.{◌≡◌, IfOk, IfErr};
ghost use Rattle.std.specs.Option.{option_copied};
ghost use Rattle.lt_registry.specs.Entries.{prefixes};
ghost use Rattle.lt_registry.specs.declared.entries.Kind.TheVariants as kinds;
ghost use Rattle.lt_canon.specs.Refusals.{IsRefusedWith};
ghost use Rattle.lt_canon.specs.ExtlangForm.{prefix_of, IsExtlangFormOf};

use crate::canonical_tags::canonical;
use crate::refusals::Refusal;
use lt_check::Checked;
use lt_registry::{Kind, Lookup};
use lt_subtag::Subtag;
use lt_tag::{Tag, copy_extensions, copy_subtags};
use std::alloc::Global;

/// The extlang form of a tag (RFC 5646, 4.5): the canonical form and, if its language is registered as an extlang too,
/// the Prefix of that extlang in front of it. `cmn-Hans` gives `zh-cmn-Hans`. A Prefix of 4 to 8 letters can't be
/// before an extlang, so a tag whose language has such a Prefix is left in its canonical form. The sources of `t`
/// extensions are left in their canonical forms too. The extlang form is valid, and its canonical form is that of the
/// tag. It is refused as `canonical` refuses.
#[tactic(auto, using(crate::proofs::CanonicalForms::refused, crate::proofs::CanonicalForms::extlang_answer, crate::proofs::CanonicalForms::coreless_extlang, crate::proofs::CanonicalForms::prefixless_extlang))]
pub fn extlang_form<L: Lookup>(
    alloc: Global,
    checked: &Checked<L>,
    tag: &Tag,
) -> Result<Tag, Refusal>
    ensures form { IfOk result (λ form. IsExtlangFormOf (L.listed checked.now) tag.now form) }
    ensures refusal { IfErr result (λ refusal. IsRefusedWith (L.listed checked.now) tag.now refusal) }
{
    let table = checked.table();
    let form = canonical(alloc, checked, tag)?;
    let Some(canonical_core) = form.core() else {
        return Ok(form);
    };
    let Some(prefix) = extlang_prefix(table, canonical_core.language()) else {
        return Ok(form);
    };
    let mut core = canonical_core.copy(alloc)?;
    core.set_language(prefix.copy());
    core.set_extlang(canonical_core.language().copy());
    let extensions = copy_extensions(alloc, form.extensions())?;
    let private = copy_subtags(alloc, form.private())?;
    Ok(Tag::from_parts(core, extensions, private))
}

/// The Prefix of a language as an extlang. None if the language is not registered as an extlang too, or if its Prefix
/// can't be before an extlang, for which it must have 2 or 3 letters.
fn extlang_prefix<'a, L: Lookup>(table: &'a L, language: &Subtag) -> Option<&'a Subtag>
    ensures { option_copied result ≡ prefix_of (prefixes (L.listed table.now) kinds.Extlang language.now) }
{
    match table.entry(Kind::Extlang, language) {
        Some(entry) => match entry.prefixes().first() {
            Some(prefix) => match prefix.subtags() {
                [only] if only.bytes().len() <= 3 => Some(only),
                _ => None,
            },
            None => None,
        },
        None => None,
    }
}
