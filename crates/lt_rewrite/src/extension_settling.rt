//! The normal forms of `u` and `t` extensions (RFC 5646, 4.5; RFC 6067; RFC 6497). The clauses `shaped` and `few` say
//! that parts which may be joined to an extension still may be: they keep their shapes (`shaped`), and have no more
//! subtags than before (`few`).
ghost use Rattle.std.specs.Prelude.{◌≡◌, ◌≤◌, List, All, IfSome, IsOk, map, length};
ghost use Rattle.lt_tag.specs.Extensions.{spell_u, IsU, spell_t, IsT};
ghost use Rattle.lt_rewrite.specs.Rewriting.{IsNormalForm};
ghost use Rattle.lt_registry.specs.Entries.{IsRegistry};
ghost use Rattle.lt_rewrite.specs.Extensions.{UnicodeStep, TransformStep};
ghost use Rattle.lt_rewrite.specs.Conditions.{HasEndingChain};
ghost use Rattle.lt_rewrite.specs.ExtensionSettling.{untrue};
ghost use Rattle.lt_rewrite.specs.Shortcuts.{AreShortcuts};

use crate::core_settling::settle_along;
use crate::part_ordering::put_in_order;
use crate::shortcuts::Shortcuts;
use lt_registry::Lookup;
use lt_tag::{Keyword, OutOfMemory, TParts, UParts};
use std::alloc::Global;

/// Drops the types of a keyword if they are exactly `true`, as in `kn-true`. Other types stay.
fn drop_true(keyword: &mut Keyword)
    ensures { keyword.new ≡ untrue keyword.old }
{
    if let [only] = keyword.types.as_slice()
        && only.bytes() == b"true".as_slice()
    {
        keyword.types.clear();
    }
}

/// Does nothing when it runs. Its clause tells the proof of the caller that the entries of the table have the forms of
/// entries, and numbers that rise.
pub(crate) fn recall_forms<L: Lookup>(table: &L)
    ensures { IsRegistry (L.listed table.now) }
{
    let _entries = table.entries();
}

/// Puts the parts of a `u` extension into their normal form (RFC 6067, 2.1.1). A type `true` is dropped if its keyword
/// has no other. Of equal attributes, and of keywords of one key, only the first stays. The attributes, and the
/// keywords by their keys, are put in order, while the types of a keyword keep their order. Parts that may be given to
/// `join_u` still may be. It takes no memory, and so is never refused; `_alloc` is not used.
pub fn settle_u(_alloc: Global, parts: &mut UParts) -> Result<(), OutOfMemory>
    ensures settled { IsNormalForm UnicodeStep parts.old parts.new }
    ensures shaped { IsU parts.old → IsU parts.new }
    ensures few { length (spell_u parts.new) ≤ length (spell_u parts.old) }
    ensures ok { IsOk result }
{
    put_in_order(&mut parts.attributes, true);
    for keyword in parts.keywords.iter_mut() {
        drop_true(keyword);
    }
    put_in_order(&mut parts.keywords, true);
    Ok(())
}

/// Puts the parts of a `t` extension into their normal form, by the shortcuts if some are given, which must be those of
/// the table. The chains of values in the registry must end.
pub(crate) fn settle_transform<L: Lookup>(
    table: &L,
    shortcuts: Option<&Shortcuts>,
    parts: &mut TParts,
)
    requires chains { All (HasEndingChain (L.listed table.now)) (L.listed table.now) }
    requires shortcuts { IfSome shortcuts (λ s. AreShortcuts (L.listed table.now) s.now) }
    ensures settled { IsNormalForm (TransformStep (L.listed table.now)) parts.old parts.new }
    ensures shaped { IsT parts.old → IsT parts.new }
    ensures few { length (spell_t parts.new) ≤ length (spell_t parts.old) }
{
    // Tells the proof the forms of the entries.
    recall_forms(table);
    put_in_order(&mut parts.fields, false);
    if let Some(source) = &mut parts.source {
        settle_along(table, shortcuts, source);
    }
}

/// Puts the parts of a `t` extension into their normal form (RFC 6497, 2.2 and 2.3): the source into its core normal
/// form, and the fields into the order of their separators. Fields of one separator keep their order, and so do the
/// values of a field. Parts that may be given to `join_t` still may be. The chains of values in the registry must end,
/// as they do if `first_cycle` is None. It takes no memory, and so is never refused; `_alloc` is not used.
pub fn settle_t<L: Lookup>(_alloc: Global, table: &L, parts: &mut TParts) -> Result<(), OutOfMemory>
    requires { All (HasEndingChain (L.listed table.now)) (L.listed table.now) }
    ensures settled { IsNormalForm (TransformStep (L.listed table.now)) parts.old parts.new }
    ensures shaped { IsT parts.old → IsT parts.new }
    ensures few { length (spell_t parts.new) ≤ length (spell_t parts.old) }
    ensures ok { IsOk result }
{
    settle_transform(table, None, parts);
    Ok(())
}
