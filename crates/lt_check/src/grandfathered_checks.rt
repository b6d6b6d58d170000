//! C8, the condition on grandfathered tags (RFC 5646, 2.2.8): a record of that type names one of the 26, and no regular
//! one of them, such as `zh-min`, is valid when it is read as a langtag.
ghost use Rattle.std.specs.Prelude.{◌≡◌, ◌↔◌, ℕ, [], ◌∷◌, Ok, IsTrue, Contains};
ghost use Rattle.std.specs.List.{list_any};
ghost use Rattle.lt_subtag.specs.Reading.{subtag_of};
ghost use Rattle.lt_tag.specs.Parts.{Grandfathered};
ghost use Rattle.lt_registry.specs.Entries as forms;
ghost use Rattle.lt_registry.specs.Same.{same_list};
ghost use Rattle.lt_registry.specs.declared.entries.Kind.TheVariants as kinds;
ghost use Rattle.lt_registry.specs.declared.entries.EntryName.TheVariants as names;
ghost use Rattle.lt_check.specs.Conditions.{Meets};
ghost use Rattle.lt_check.specs.RegularTags.{with_extlang, with_variant, regular_cores, IsValidatedBy, AreValidatedBy, is_number};
ghost use Rattle.lt_check.specs.declared.conditions.Condition.TheVariants as conditions;

use crate::whole_checks::know_entries;
use lt_registry::{Entry, EntryName, Kind, Lookup};
use lt_rewrite::values::is_registered;
use lt_subtag::Subtag;

/// How many regular grandfathered tags have two subtags. The one of three, zh-min-nan, has two
/// extlangs as a langtag, and so is never valid.
const REGULAR: usize = 8;

/// The subtag that a text spells. The text must be a subtag in lower case, so it is never refused.
fn subtag(text: &[u8]) -> Subtag
    requires { subtag_of text.now ≡ Ok text.now }
    ensures { result ≡ text.now }
{
    match Subtag::read(text) {
        Ok(subtag) => subtag,
        Err(_) => unreachable!(),
    }
}

/// The number of the record that registers the extlang, if the language with this extlang is a valid tag; else None. C8
/// holds this record to be at fault. Both texts must be subtags in lower case.
fn by_extlang<L: Lookup>(table: &L, language: &[u8], extlang: &[u8]) -> Option<u32>
    requires language { subtag_of language.now ≡ Ok language.now }
    requires extlang { subtag_of extlang.now ≡ Ok extlang.now }
    ensures { IsValidatedBy (L.listed table.now) (with_extlang language.now extlang.now) result }
{
    let language = subtag(language);
    let entry = table.entry(Kind::Extlang, &subtag(extlang))?;
    if is_registered(table, Kind::Language, &language) && entry.has_prefix(&language) {
        Some(entry.number())
    } else {
        None
    }
}

/// The number of the record that registers the variant, if the language with this variant is a valid tag; else None. C8
/// holds this record to be at fault. Both texts must be subtags in lower case.
fn by_variant<L: Lookup>(table: &L, language: &[u8], variant: &[u8]) -> Option<u32>
    requires language { subtag_of language.now ≡ Ok language.now }
    requires variant { subtag_of variant.now ≡ Ok variant.now }
    ensures { IsValidatedBy (L.listed table.now) (with_variant language.now variant.now) result }
{
    let entry = table.entry(Kind::Variant, &subtag(variant))?;
    if is_registered(table, Kind::Language, &subtag(language)) {
        Some(entry.number())
    } else {
        None
    }
}

/// For each regular grandfathered tag of two subtags, such as `zh-min`, of which there are [`REGULAR`]: the number of
/// the record of its second subtag if the tag is valid as a langtag, and else None.
pub(crate) fn validating_records<L: Lookup>(table: &L) -> [Option<u32>; REGULAR]
    ensures { AreValidatedBy (L.listed table.now) regular_cores result }
{
    [
        by_variant(table, b"art", b"lojban"),
        by_variant(table, b"cel", b"gaulish"),
        by_extlang(table, b"no", b"bok"),
        by_extlang(table, b"no", b"nyn"),
        by_variant(table, b"zh", b"guoyu"),
        by_variant(table, b"zh", b"hakka"),
        by_extlang(table, b"zh", b"min"),
        by_variant(table, b"zh", b"xiang"),
    ]
}

/// Whether one of the numbers is `number`: whether the record with it makes a regular grandfathered tag valid.
fn has_number(numbers: &[Option<u32>], number: u32) -> bool
    ensures { result ≡ list_any (is_number number) numbers.now }
{
    numbers.contains(&Some(number))
}

/// Whether the tag of a record is one of the 26, if the record is of the grandfathered type. True of any other type.
fn has_fitting_tag(entry: &Entry) -> bool
    ensures { IsTrue result
        ↔ (entry.now.kind ≡ kinds.Grandfathered → (number : ℕ) × (entry.now.name ≡ names.Whole (Grandfathered number))) }
{
    match (entry.kind(), entry.name()) {
        (Kind::Grandfathered, EntryName::Whole(whole)) => whole.tag().grandfathered().is_some(),
        _ => true,
    }
}

/// Whether a record meets the condition on grandfathered tags. A record of that type meets it only if its tag is one of
/// the 26. No record of any type meets it if its subtag makes a regular one of the 26, such as zh-min, valid as a
/// langtag. `validating` must have the numbers of these, as [`validating_records`] gives them, and the record must be
/// one of the table's, in which a number tells the record.
pub(crate) fn fits_grandfathered<L: Lookup>(
    table: &L,
    validating: &[Option<u32>],
    entry: &Entry,
) -> bool
    requires validating { AreValidatedBy (L.listed table.now) regular_cores validating.now }
    requires listed { Contains (L.listed table.now) entry.now }
    ensures { IsTrue result ↔ Meets conditions.FittingGrandfathered (L.listed table.now) entry.now }
{
    // Does nothing when it runs: its clauses tell the proof what each entry of a registry is.
    know_entries(table);
    has_fitting_tag(entry) && !has_number(validating, entry.number())
}
