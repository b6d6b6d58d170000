//! The spellings by which tags are matched, and the ranges that match them. The first spelling of a tag is its extlang
//! form (RFC 5646, 4.5).
ghost use Rattle.std.specs.Prelude.{◌≡◌, ◌++◌, ◌∷◌, [], ℕ, List, IfOk, IfErr, IfSome, MatchOption, OnOk, map};
ghost use Rattle.lt_registry.specs.Entries.{is_registered};
ghost use Rattle.lt_registry.specs.declared.entries.Kind.TheVariants as kinds;
ghost use Rattle.lt_canon.specs.Refusals.{IsRefusedWith};
ghost use Rattle.lt_canon.specs.Texts.{IsTextRefusal};
ghost use Rattle.lt_range.specs.Matched.{AreRangesOf, HasNoSubtags, HasSubtags, IsRangeOfText, MatchesAs};
ghost use Rattle.lt_range.specs.OtherSpellings as spec;
ghost use Rattle.lt_range.specs.OtherSpellings.{StaysAs};
ghost use Rattle.lt_range.specs.Ranges.{RangeParts, range_of_tag};
ghost use Rattle.lt_range.specs.Refusals.{IsPlainRefusal, IsRangeRefusal};
ghost use Rattle.lt_range.specs.Spellings.{HasSpellings};

use crate::matching_table::MatchingTable;
use crate::ranges::LanguageRange;
use crate::refusals::RangeRefusal;
use crate::tag_subtags::{SubtagList, TagSubtags};
use lt_canon::{Refusal, TextRefusal, extlang_form};
use lt_registry::{Kind, Lookup};
use lt_subtag::Subtag;
use lt_tag::laws::text_of_tag_has_its_list;
use lt_tag::{OutOfMemory, Tag, read_tag};
use std::alloc::Global;

/// The subtags of the canonical form of a tag, of the subtags of its extlang form: all, or those after the Prefix.
fn canonical_part<'a>(form: &Tag, subtags: &'a [Subtag]) -> &'a [Subtag]
    ensures { result.now ≡ spec.canonical_part form.now subtags.now }
{
    match form.core() {
        Some(core) if !core.extlangs().is_empty() => match subtags.split_first() {
            Some((_prefix, others)) => others,
            None => subtags,
        },
        _ => subtags,
    }
}

/// The spellings by which a tag is matched: its extlang form (RFC 5646, 4.5), for example `zh`, `yue` and `HK` for
/// `yue-HK`, and the whole tags of records that have the same canonical form. Refused if `extlang_form` refuses the
/// tag, with its refusal, or where memory runs out.
pub fn tag_spellings<L: Lookup>(
    alloc: Global,
    table: &MatchingTable<L>,
    tag: &Tag,
) -> Result<TagSubtags, Refusal>
    ensures subtags { IfOk result (λ lists. HasSpellings (L.listed table.now) tag.now lists) }
    ensures refusal { IfErr result (λ refusal. IsRefusedWith (L.listed table.now) tag.now refusal) }
{
    let checked = table.checked();
    // So that the table is known to pass the check.
    let _ = checked.table();
    let form = extlang_form(alloc, checked, tag)?;
    let first = SubtagList::of(alloc, &form)?;
    let others = table.other_spellings(alloc, canonical_part(&form, first.subtags()))?;
    Ok(TagSubtags::of_lists(first, others))
}

/// Whether the first of these subtags is registered as an extlang.
fn begins_with_extlang<L: Lookup>(table: &L, subtags: &SubtagList) -> bool
    ensures { (s : List ℕ) (ss : List (List ℕ)) → subtags.now ≡ s ∷ ss → result ≡ is_registered (L.listed table.now) kinds.Extlang s }
{
    match subtags.subtags().first() {
        Some(language) => table.entry(Kind::Extlang, language).is_some(),
        None => false,
    }
}

/// The subtags of the extlang form of a text's tag, if flags tell that each subtag stays as it is, and the language is
/// not registered as an extlang too: `de-ch` is such a text, and its tag is canonical. None for any other text. Refused
/// only where memory runs out.
fn staying_subtags<L: Lookup>(
    alloc: Global,
    table: &MatchingTable<L>,
    text: &[u8],
) -> Result<Option<SubtagList>, OutOfMemory>
    ensures { IfOk result (λ found. IfSome found (StaysAs (L.listed table.now) text.now)) }
{
    let checked = table.checked();
    let mut shown = Vec::new(alloc);
    if !checked.usual().append_text(text, &mut shown)? {
        return Ok(None);
    }
    // So that each piece of the text is known to be a subtag.
    text_of_tag_has_its_list();
    let subtags = SubtagList::of_text(alloc, &shown)?;
    if begins_with_extlang(checked.table(), &subtags) {
        return Ok(None);
    }
    Ok(Some(subtags))
}

/// Reads a text as a tag, and gives the spellings by which this tag is matched.
///
/// - `NotATag`, with the fault that `read_tag` answers, exactly where the text is read as no tag.
/// - `Invalid` and `ReplacementRepeats` where `extlang_form` refuses the tag so.
/// - `OutOfMemory` where memory runs out.
pub fn subtags_of_text<L: Lookup>(
    alloc: Global,
    table: &MatchingTable<L>,
    text: &[u8],
) -> Result<TagSubtags, TextRefusal>
    ensures subtags { IfOk result (λ lists. HasSubtags (L.listed table.now) text.now lists) }
    ensures refusal { IfErr result (λ refusal. IsTextRefusal (L.listed table.now) text.now refusal) }
{
    // So that the table is known to pass the check.
    let checked = table.checked();
    let _ = checked.table();
    if let Some(subtags) = staying_subtags(alloc, table, text)? {
        let others = table.other_spellings(alloc, subtags.subtags())?;
        return Ok(TagSubtags::of_lists(subtags, others));
    }
    let tag = read_tag(alloc, text)?;
    Ok(tag_spellings(alloc, table, &tag)?)
}

/// Reads a text as a tag, and gives the spellings by which this tag is matched. None if the text is no valid tag, or if
/// steps can repeat a variant of the tag. Refused only where memory runs out.
pub fn known_subtags<L: Lookup>(
    alloc: Global,
    table: &MatchingTable<L>,
    text: &[u8],
) -> Result<Option<TagSubtags>, OutOfMemory>
    ensures { IfOk result (λ found. MatchOption found (HasNoSubtags (L.listed table.now) text.now) (HasSubtags (L.listed table.now) text.now)) }
{
    match subtags_of_text(alloc, table, text) {
        Ok(subtags) => Ok(Some(subtags)),
        Err(TextRefusal::NotATag(_)) => Ok(None),
        Err(TextRefusal::Invalid(_)) => Ok(None),
        Err(TextRefusal::ReplacementRepeats(_)) => Ok(None),
        Err(TextRefusal::OutOfMemory) => Err(OutOfMemory),
    }
}

/// The range that matches in place of `written`, which is no valid tag: if its first subtag by itself is a tag that has
/// an extlang form, the subtags of this form take its place. Refused only where memory runs out.
fn matching_range<L: Lookup>(
    alloc: Global,
    table: &MatchingTable<L>,
    written: LanguageRange,
) -> Result<LanguageRange, OutOfMemory>
    ensures { IfOk result (λ range. MatchesAs (L.listed table.now) written.wild written.named range) }
{
    if written.begins_wild() {
        return Ok(written);
    }
    let Some((first, others)) = written.named().split_first() else {
        return Ok(written);
    };
    match known_subtags(alloc, table, first.bytes())? {
        Some(front) => LanguageRange::of_front(alloc, front, others),
        None => Ok(written),
    }
}

/// The range by which a text that is no valid tag matches. Refused with `NotARange` if the text is no range, and with
/// `OutOfMemory` where memory runs out.
fn range_of_text<L: Lookup>(
    alloc: Global,
    table: &MatchingTable<L>,
    text: &[u8],
) -> Result<LanguageRange, RangeRefusal>
    ensures range { IfOk result (λ range. IsRangeOfText (L.listed table.now) text.now range) }
    ensures refusal { IfErr result (IsPlainRefusal text.now) }
{
    let written = LanguageRange::read(alloc, text)?;
    Ok(matching_range(alloc, table, written)?)
}

/// Adds the range by which a text that is no valid tag matches. Refused with `NotARange` if the text is no range, and
/// with `OutOfMemory` where memory runs out.
fn append_plain<L: Lookup>(
    alloc: Global,
    table: &MatchingTable<L>,
    text: &[u8],
    ranges: &mut Vec<LanguageRange>,
) -> Result<(), RangeRefusal>
    ensures appended { OnOk result ((range : RangeParts) × (ranges.new.items ≡ ranges.old.items ++ range ∷ []) × IsRangeOfText (L.listed table.now) text.now range) }
    ensures refusal { IfErr result (IsPlainRefusal text.now) }
{
    let range = range_of_text(alloc, table, text)?;
    Ok(ranges.push(range)?)
}

/// Adds the ranges of these spellings. The only refusal is running out of memory.
fn append_each(
    mut lists: Vec<SubtagList>,
    ranges: &mut Vec<LanguageRange>,
) -> Result<(), OutOfMemory>
    ensures { OnOk result (ranges.new.items ≡ ranges.old.items ++ map range_of_tag lists.items) }
{
    while !lists.is_empty() {
        let list = lists.remove(0);
        ranges.push(LanguageRange::of_list(list))?;
    }
    Ok(())
}

/// Adds the ranges of the spellings of a tag. The only refusal is running out of memory.
fn append_spellings(tag: TagSubtags, ranges: &mut Vec<LanguageRange>) -> Result<(), OutOfMemory>
    ensures { OnOk result (ranges.new.items ≡ ranges.old.items ++ map range_of_tag tag) }
{
    let (first, others) = tag.into_lists();
    ranges.push(LanguageRange::of_list(first))?;
    append_each(others, ranges)
}

/// Adds the ranges by which a text matches. If the text is a valid tag, they are those of its spellings: first that of
/// its extlang form (RFC 5646, 4.5), and then those of the whole tags of records with the same canonical form. Else it
/// is the range that the text is (RFC 4647, 2.2), with the first subtag in its extlang form, if this subtag by itself is
/// a valid tag. So `yue` gives `zh-yue`, `nb` gives `nb` and `no-bok`, `iw-*` gives `he-*`, and `zh-*` stays.
///
/// - `NotARange` exactly where the text is neither, with the fault that `LanguageRange::read` answers.
/// - `ReplacementRepeats` where the text is a valid tag that `extlang_form` refuses so.
/// - `OutOfMemory` where memory runs out.
pub fn append_ranges<L: Lookup>(
    alloc: Global,
    table: &MatchingTable<L>,
    text: &[u8],
    ranges: &mut Vec<LanguageRange>,
) -> Result<(), RangeRefusal>
    ensures appended { OnOk result ((more : List RangeParts) × (ranges.new.items ≡ ranges.old.items ++ more) × AreRangesOf (L.listed table.now) text.now more) }
    ensures refusal { IfErr result (λ refusal. IsRangeRefusal (L.listed table.now) text.now refusal) }
{
    match subtags_of_text(alloc, table, text) {
        Ok(subtags) => Ok(append_spellings(subtags, ranges)?),
        Err(TextRefusal::NotATag(_)) => append_plain(alloc, table, text, ranges),
        Err(TextRefusal::Invalid(_)) => append_plain(alloc, table, text, ranges),
        Err(TextRefusal::ReplacementRepeats(variant)) => {
            Err(RangeRefusal::ReplacementRepeats(variant))
        }
        Err(TextRefusal::OutOfMemory) => Err(RangeRefusal::OutOfMemory),
    }
}
