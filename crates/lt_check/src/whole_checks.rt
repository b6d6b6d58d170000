//! The conditions on whole records, C9 to C11 (RFC 5646, 2.2.8 and 3.1.7). `MeetsBelow 10` says that all records meet
//! C1 to C9: then chains of values end, and a proper core has one core normal form. A core such as that of `zh-guoyu`
//! spells a grandfathered tag, and its text is read as that: so where a core is made a tag, its text must be none. The
//! parts of their check are not inlined, so that their locals don't add up on the stack.
ghost use Rattle.std.specs.Prelude.{◌≡◌, ◌↔◌, Some, IsTrue, IfOk, MatchOption, Contains};
ghost use Rattle.std.specs.Option.{option_copied};
ghost use Rattle.lt_tag.specs.Parts.{CoreParts};
ghost use Rattle.lt_tag.specs.Spelling.{spell_core};
ghost use Rattle.lt_tag.specs.Values.{IsTagValue, core_alone};
ghost use Rattle.lt_tag.specs.WellFormed.{IsNotGrandfathered};
ghost use Rattle.lt_registry.specs.Entries.{tag_of, whole_value, IsRegistry};
ghost use Rattle.lt_registry.specs.Validity.{IsProperCore};
ghost use Rattle.lt_registry.specs.declared.entries.EntryName.TheVariants as names;
ghost use Rattle.lt_rewrite.specs.CoreSteps.{IsCoreNormalForm};
ghost use Rattle.lt_rewrite.specs.Shortcuts.{AreShortcuts};
ghost use Rattle.lt_check.specs.Conditions.{OfWhole, IsValidCoreAlone, Meets};
ghost use Rattle.lt_check.specs.WholeChecks.{MeetsBelow, RestsAlone, Agrees};
ghost use Rattle.lt_check.specs.declared.conditions.Condition.TheVariants as conditions;

use lt_registry::{Entry, Kind, Lookup, are_distinct, validate};
use lt_rewrite::Shortcuts;
use lt_rewrite::values::{tag_and_value, whole_value};
use lt_tag::{Core, OutOfMemory, Tag};
use std::alloc::Global;

/// Whether a tag is a valid langtag without extensions and private use. It takes no memory, since `validate` takes some
/// only for a `t` extension: so no refusal is for memory.
fn is_valid_plain<L: Lookup>(alloc: Global, table: &L, tag: &Tag) -> bool
    ensures { IsTrue result ↔ IsValidCoreAlone (L.listed table.now) tag.now }
{
    match tag.core_alone() {
        Some(_) => validate(alloc, table, tag).is_ok(),
        None => false,
    }
}

/// C9: whether the value of a record that replaces a tag as a whole is a valid langtag without extensions and private
/// use, and so is the tag if the record is a redundant one. True of a record that replaces no whole tag. It takes no
/// memory.
pub(crate) fn has_valid_whole<L: Lookup>(alloc: Global, table: &L, entry: &Entry) -> bool
    ensures { IsTrue result ↔ Meets conditions.ValidWhole (L.listed table.now) entry.now }
{
    match tag_and_value(entry) {
        Some((tag, value)) => {
            is_valid_plain(alloc, table, value)
                && (entry.kind() != Kind::Redundant || is_valid_plain(alloc, table, tag))
        }
        None => true,
    }
}

/// Does nothing when it runs: by its clause a proof knows the forms of the entries and the order of their numbers.
pub(crate) fn know_entries<L: Lookup>(table: &L)
    ensures { IsRegistry (L.listed table.now) }
{
    let _ = table.entries();
}

/// The core normal form of a core, which must be proper. The text of the form is no grandfathered tag (`spelled`), as
/// `value_of` asks. Refused only where memory runs out. All records must meet C1 to C9, and the shortcuts must be the
/// table's.
#[inline(never)]
fn settled<L: Lookup>(
    alloc: Global,
    table: &L,
    shortcuts: &Shortcuts,
    core: &Core,
) -> Result<Core, OutOfMemory>
    requires shortcuts { AreShortcuts (L.listed table.now) shortcuts.now }
    requires lower { MeetsBelow 10 (L.listed table.now) }
    requires proper { IsProperCore (L.listed table.now) core.now }
    ensures normal { IfOk result (λ form. IsCoreNormalForm (L.listed table.now) core.now form) }
    ensures spelled { IfOk result (λ form. IsNotGrandfathered (spell_core form)) }
{
    let mut form = core.copy(alloc)?;
    shortcuts.settle_core(table, &mut form);
    // Does nothing but tell the proof the shape of the form.
    let _ = form.language();
    Ok(form)
}

/// The preferred value of the whole record of this core as a tag. None if there is no such record, or it has no value.
/// The text of the core must be no grandfathered tag.
fn value_of<L: Lookup>(alloc: Global, table: &L, core: Core) -> Option<&Tag>
    requires { IsNotGrandfathered (spell_core core) }
    ensures { option_copied result ≡ whole_value (L.listed table.now) (core_alone core) }
{
    let tag = Tag::from_parts(core, Vec::new(alloc), Vec::new(alloc));
    whole_value(table, &tag)
}

/// The core of the preferred value of the whole record of this core as a tag. None if there is no such value, or if it
/// is not a langtag without extensions and private use. The text of the core must be no grandfathered tag.
fn plain_value_of<L: Lookup>(alloc: Global, table: &L, core: Core) -> Option<&Core>
    requires { IsNotGrandfathered (spell_core core) }
    ensures { MatchOption result
        ((q : CoreParts) → whole_value (L.listed table.now) (core_alone core) ≡ Some (core_alone q) → ⊥)
        (λ q. whole_value (L.listed table.now) (core_alone core) ≡ Some (core_alone q.now)) }
{
    match value_of(alloc, table, core) {
        Some(value) => value.core_alone(),
        None => None,
    }
}

/// C10, asked of the core normal form of a value: whether a core repeats no variant, and no whole record replaces it as
/// a tag. The text of the core must be no grandfathered tag, and all records must meet C1 to C9.
#[inline(never)]
fn rests<L: Lookup>(alloc: Global, table: &L, core: Core) -> bool
    requires lower { MeetsBelow 10 (L.listed table.now) }
    requires spelled { IsNotGrandfathered (spell_core core) }
    ensures { IsTrue result ↔ RestsAlone (L.listed table.now) core }
{
    // So that the forms of the entries are known.
    know_entries(table);
    are_distinct(core.variants()) && value_of(alloc, table, core).is_none()
}

/// C11, asked of a record's tag, where `end` is the core normal form of its value: whether the tag comes to the core
/// `end`. It does if its core normal form is its own core or `end`, or has a value as a whole whose core normal form is
/// `end`. True of a tag that is not a core alone. If the tag is a core alone, the core must be proper. All records must
/// meet C1 to C9, and the shortcuts must be the table's. Refused only where memory runs out.
#[inline(never)]
fn comes_to<L: Lookup>(
    alloc: Global,
    table: &L,
    shortcuts: &Shortcuts,
    tag: &Tag,
    end: &Core,
) -> Result<bool, OutOfMemory>
    requires shortcuts { AreShortcuts (L.listed table.now) shortcuts.now }
    requires lower { MeetsBelow 10 (L.listed table.now) }
    requires proper { (c : CoreParts) → tag.now ≡ core_alone c → IsProperCore (L.listed table.now) c }
    ensures { IfOk result (λ comes. IsTrue comes ↔ Agrees (L.listed table.now) tag.now end.now) }
{
    let Some(core) = tag.core_alone() else {
        return Ok(true);
    };
    let form = settled(alloc, table, shortcuts, core)?;
    if form == *core || form == *end {
        return Ok(true);
    }
    match plain_value_of(alloc, table, form) {
        Some(next) => Ok(settled(alloc, table, shortcuts, next)? == *end),
        None => Ok(false),
    }
}

/// Which of the conditions C10 and C11 a record meets.
#[derive(Clone, Copy)]
pub(crate) struct Judged {
    /// Whether it meets C10: it is no whole record with a value, or no variant occurs twice in the core normal form of
    /// its value, and this form is not the tag of a whole record with a value.
    pub(crate) rests: bool,
    /// Whether it meets C11. It does if it is no whole record with a value, or if its tag has no core normal form other
    /// than itself. Else the core normal form of its value must be that of its tag, or that of the value which the
    /// tag's form has as a whole tag.
    pub(crate) agrees: bool,
}

/// Whether a record meets C10, and whether it meets C11, by the core normal forms of its tag and its value. The record
/// must be one of the table's, all records must meet C1 to C9, and the shortcuts must be the table's. Refused only
/// where memory runs out.
pub(crate) fn judge_whole<L: Lookup>(
    alloc: Global,
    table: &L,
    shortcuts: &Shortcuts,
    entry: &Entry,
) -> Result<Judged, OutOfMemory>
    requires shortcuts { AreShortcuts (L.listed table.now) shortcuts.now }
    requires lower { MeetsBelow 10 (L.listed table.now) }
    requires listed { Contains (L.listed table.now) entry.now }
    ensures rests { IfOk result (λ judged. IsTrue judged.rests ↔ Meets conditions.RestingWhole (L.listed table.now) entry.now) }
    ensures agrees { IfOk result (λ judged. IsTrue judged.agrees ↔ Meets conditions.AgreeingWhole (L.listed table.now) entry.now) }
{
    // So that the forms of the entries are known.
    know_entries(table);
    let both = Judged {
        rests: true,
        agrees: true,
    };
    let Some((tag, value)) = tag_and_value(entry) else {
        return Ok(both);
    };
    let Some(core) = value.core_alone() else {
        return Ok(both);
    };
    let end = settled(alloc, table, shortcuts, core)?;
    let agrees = comes_to(alloc, table, shortcuts, tag, &end)?;
    let rests = rests(alloc, table, end);
    Ok(Judged { rests, agrees })
}
