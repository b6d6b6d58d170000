//! A registry that passes the check, and what it says of tags.
ghost use Rattle.std.specs.Prelude.{◌≡◌, ◌≢◌, ◌++◌, Ok, OnOk, OnErr, IfOk, IfErr, IfSome, Err, Some, length, map};
ghost use Rattle.std.specs.Option.{option_copied};
ghost use Rattle.lt_registry.specs.Entries as listed;
ghost use Rattle.lt_registry.specs.Faults as validity;
ghost use Rattle.lt_rewrite.specs.TagSteps.{AreEquivalent};
ghost use Rattle.lt_check.specs.Conditions.{IsChecked};
ghost use Rattle.lt_canon.specs.Answers.{IsCanonicalFormOf, RefusesOnlyRepeats};
ghost use Rattle.lt_canon.specs.Refusals.{NamesFault, NamesRepeat, IsRefusedWith};
ghost use Rattle.lt_canon.specs.Equivalence.{IsEquivalenceAnswer, IsFirstRefusal};
ghost use Rattle.lt_canon.specs.Explaining.{IsExplanation};
ghost use Rattle.lt_canon.specs.ExplanationTexts.{IsExplanationTextOf};
ghost use Rattle.lt_canon.specs.ExtlangForm.{IsExtlangFormOf};
ghost use Rattle.lt_canon.specs.Texts.{AppendsCanonicalText, IsCanonicalTextOf, IsTextRefusal, RefusesTextOnlyRepeats};
ghost use Rattle.lt_canon.specs.Traces.{IsTraceFault, IsValidTrace, no_trace_memory};
ghost use Rattle.lt_range.specs.Asked.{Asks, IsHeaderRefusal};
ghost use Rattle.lt_range.specs.Available.{AreAvailable, IsAvailableRefusal};
ghost use Rattle.lt_range.specs.Matched.{AreRangesOf, HasSubtags};
ghost use Rattle.lt_range.specs.Refusals.{IsRangeRefusal};
ghost use Rattle.lt_range.specs.Spellings.{HasSpellings};
ghost use Rattle.lt_show.specs.Json.{rows_value};
ghost use Rattle.lt_show.specs.Rows.{rows_of};
ghost use Rattle.lt_upgrade.specs.Laws.{UpgradeKeepsTags};
ghost use Rattle.lt_upgrade.specs.Upgrade.{Upgrades};
ghost use Rattle.lt_upgrade.specs.UpgradeChecking.{IsUpgradeFault};
ghost use Rattle.bcp47.specs.Errors.{registry_shown};
ghost use Rattle.bcp47.specs.declared.errors.RegistryError.TheVariants as errors;
ghost use Rattle.bcp47.specs.Promise.{IsJudged, ReadsBytes, ReadsDevice, Promise};

use crate::errors::RegistryError;
use crate::readings::read_entries;
use lt_canon::laws::confluence;
use lt_canon::{Refusal, TextRefusal, Trace, TraceFault};
use lt_check::{Checked, RejectedCause};
use lt_jar::{Device, Record};
use lt_range::{
    Available, AvailableRefusal, HeaderRefusal, LanguageRange, MatchingTable, Preference,
    RangeRefusal, TagSubtags,
};
use lt_registry::{Entry, Kind, Lookup, Registry as Entries, SortedTable, ValidRefusal};
use lt_show::Row;
use lt_subtag::Subtag;
use lt_tag::{OutOfMemory, Tag};
use lt_upgrade::UpgradeFault;
use std::alloc::Global;
use std::fmt;
use std::io::Read;
use std::marker::Model;

/// A registry of language subtags in the format of IANA's (RFC 5646, 3.1), which passes the check: each record
/// meets each [`Condition`](crate::Condition). No call changes it. A contract sees the list of its entries.
pub struct Registry {
    table: MatchingTable<SortedTable>,
}

// Written by hand, so that the proof of a function that drops a registry goes through this one call, and not through the drop of
// each of its vectors.
impl Drop for Registry {
    fn drop(self) {
        let Registry { table } = self;
        drop(table);
    }
}

impl Model for Registry {
    ghost use Rattle.std.specs.Prelude.{List};
    ghost use Rattle.lt_registry.specs.Parts.{EntryParts};
    ghost use Rattle.lt_check.specs.Conditions.{IsChecked};

    ghost Value = { List EntryParts };

    ghost view = { λ r. r.table };

    ghost invariant = { λ r. IsChecked r.table };
}

impl fmt::Debug for Registry {
    ghost debug_output = { λ entries. Some (registry_shown entries) };

    /// Only the number of its entries, for example `Registry { entries: 7 }`.
    fn fmt<W: fmt::Write>(&self, f: &mut fmt::Formatter<W>) -> fmt::Result {
        let entries = self.entries().len();
        write!(f, "Registry {{ entries: {entries} }}")
    }
}

/// The table of these entries, or None where memory runs out. It is not inlined, so that what reads a registry needs no
/// stack for it.
#[inline(never)]
fn sorted(alloc: Global, entries: Entries) -> Option<SortedTable>
    ensures { IfSome result (λ table. table ≡ entries) }
{
    SortedTable::new(alloc, entries).ok()
}

/// The table of these entries, if it passes the check, or why the check rejects them, which may be that memory ran out. It is
/// not inlined into its callers, so that what reads a registry needs no stack for what checks it.
#[inline(never)]
fn check_table(alloc: Global, entries: Entries) -> Result<Checked<SortedTable>, RegistryError>
    ensures { IsJudged (Ok entries) result }
{
    let Some(table) = sorted(alloc, entries) else {
        return Err(RegistryError::OutOfMemory);
    };
    match Checked::new(alloc, table) {
        Ok(checked) => Ok(checked),
        Err(rejected) => Err(match rejected.cause {
            RejectedCause::Finding(finding) => RegistryError::Check(finding),
            RejectedCause::OutOfMemory => RegistryError::OutOfMemory,
        }),
    }
}

/// The registry of a table, prepared for matching. It is refused only where memory runs out. It is not inlined either.
#[inline(never)]
fn prepared(alloc: Global, checked: Checked<SortedTable>) -> Result<Registry, RegistryError>
    ensures value { IfOk result (λ registry. registry ≡ checked) }
    ensures refusal { IfErr result (λ error. error ≡ errors.OutOfMemory) }
{
    // Does nothing but tell the proof that the table passes the check.
    let _ = checked.table();
    match MatchingTable::new(alloc, checked) {
        Ok(table) => Ok(Registry { table }),
        Err(_) => Err(RegistryError::OutOfMemory),
    }
}

/// The registry of these entries, or why the check rejects them, which may be that memory ran out.
fn check_entries(alloc: Global, entries: Entries) -> Result<Registry, RegistryError>
    ensures { IsJudged (Ok entries) result }
{
    let checked = check_table(alloc, entries)?;
    prepared(alloc, checked)
}

/// Does nothing when it runs: its clause says what holds of each table that passes the check.
fn know_promise(checked: &Checked<SortedTable>)
    ensures { Promise checked.now }
{
    // By its clause the table passes the check, and by those of `confluence` the rest holds of it.
    let _ = checked.table();
    confluence(checked);
}

impl Registry {
    /// The registry whose text the bytes are, if it passes the check.
    ///
    /// - `Jar`: the lowest line at which anything is wrong, and there the first fault.
    /// - `Record`: else the lowest record that gives no entry, and its first fault.
    /// - `Check`: else the first condition that some record does not meet, and the lowest number of those
    ///   records.
    /// - `OutOfMemory` where memory runs out.
    pub fn from_bytes(alloc: Global, bytes: &[u8]) -> Result<Registry, RegistryError>
        ensures { ReadsBytes bytes.now result }
    {
        match read_entries(alloc, bytes) {
            Ok(entries) => check_entries(alloc, entries),
            Err(fault) => Err(RegistryError::from(fault)),
        }
    }

    /// The registry that a device gives, which is read to its end, record by record. It is refused as by `from_bytes`;
    /// and as `Jar` with `Read` where the device fails, or with `TooManyTurns` where the last of 10,000,000 reads, the
    /// most that are made, gave bytes.
    pub fn read<R: Read>(alloc: Global, device: &mut Device<R>) -> Result<Registry, RegistryError>
        ensures { ReadsDevice R.remaining device.old device.new result }
    {
        match Entries::read(alloc, device) {
            Ok(entries) => check_entries(alloc, entries),
            Err(fault) => Err(RegistryError::from(fault)),
        }
    }

    /// What holds of every registry, for the proof of a caller; nothing is computed.
    pub fn promise(&self)
        ensures { Promise self.now }
    {
        know_promise(self.table.checked());
    }

    /// The entries in the order of the file, one for each record but the header.
    pub fn entries(&self) -> &[Entry]
        ensures value { result.now ≡ self.now }
        ensures checked { IsChecked self.now }
    {
        self.table.checked().table().entries()
    }

    /// The entry of a subtag under a kind (RFC 5646, 3.1.4): the first record of the kind that names this subtag and no
    /// other; or, without such a record, the first whose range holds it: `qaa..qtz` holds `qab`. None if the subtag is not
    /// registered under that kind, and for the kinds of grandfathered and redundant tags, which no subtag is.
    pub fn entry(&self, kind: Kind, subtag: &Subtag) -> Option<&Entry>
        ensures { option_copied result ≡ listed.entry self.now kind subtag.now }
    {
        self.table.checked().table().entry(kind, subtag)
    }

    /// The entry of a whole tag (RFC 5646, 2.2.8): the first grandfathered or redundant record of that tag, or None if it
    /// has none.
    pub fn whole(&self, tag: &Tag) -> Option<&Entry>
        ensures { option_copied result ≡ listed.whole self.now tag.now }
    {
        self.table.checked().table().whole(tag)
    }

    /// Whether a tag is valid (RFC 5646, 2.2.9): Ok if it is, else the fault of the least place and, there, of the first
    /// kind in the order of [`ValidFaultKind`](crate::ValidFaultKind). By a registry without the script `Latn`, `he-Latn`
    /// gives `UnknownScript` at place 2.
    ///
    /// Memory is taken only for the parts of a `t` extension, so `OutOfMemory` comes for no other tag.
    pub fn validate(&self, alloc: Global, tag: &Tag) -> Result<(), ValidRefusal>
        ensures ok { OnOk result (validity.HasNoFault self.now tag.now) }
        ensures err { IfErr result (validity.IsRefusal self.now tag.now) }
    {
        lt_registry::validate(alloc, self.table.checked().table(), tag)
    }

    /// The canonical form of a tag (RFC 5646, 4.5): the one canonical tag that steps reach from it. `zh-yue`
    /// gives `yue`, and `i-klingon` gives `tlh`.
    ///
    /// - `Invalid`, with the fault that `validate` answers, exactly where the tag is not valid.
    /// - `ReplacementRepeats` exactly where steps can repeat a variant of the valid tag.
    /// - `OutOfMemory` where memory runs out.
    pub fn canonical(&self, alloc: Global, tag: &Tag) -> Result<Tag, Refusal>
        ensures ok { IfOk result (λ form. IsCanonicalFormOf self.now tag.now form) }
        // Of a refusal: why there may be one, the fault that it names, and the variant that it names.
        ensures repeats { IfErr result (λ refusal. RefusesOnlyRepeats self.now tag.now refusal) }
        ensures invalid { IfErr result (λ refusal. NamesFault self.now tag.now refusal) }
        ensures named { IfErr result (λ refusal. NamesRepeat self.now tag.now refusal) }
    {
        lt_canon::canonical(alloc, self.table.checked(), tag)
    }

    /// The text, in conventional case (RFC 5646, 2.1.1), of the canonical form of the tag that a text is read
    /// as: `IW-il` gives `he-IL`.
    ///
    /// - `NotATag`, with the fault that `Tag::read` answers, exactly where the text is read as none.
    /// - `Invalid` and `ReplacementRepeats` where `canonical` refuses the tag so.
    /// - `OutOfMemory` where memory runs out.
    pub fn canonical_text(&self, alloc: Global, text: &[u8]) -> Result<Vec<u8>, TextRefusal>
        ensures written { IfOk result (λ canonical. IsCanonicalTextOf self.now text.now canonical.items) }
        ensures repeats { IfErr result (λ refusal. RefusesTextOnlyRepeats self.now text.now refusal) }
        ensures refusal { IfErr result (λ refusal. IsTextRefusal self.now text.now refusal) }
    {
        lt_canon::canonical_text(alloc, self.table.checked(), text)
    }

    /// Appends what `canonical_text` answers to other texts, with nothing between. It is refused as
    /// `canonical_text` refuses, and then leaves what was there.
    pub fn append_canonical_text(
        &self,
        alloc: Global,
        text: &[u8],
        texts: &mut Vec<u8>,
    ) -> Result<(), TextRefusal>
        ensures appended { OnOk result (AppendsCanonicalText self.now text.now texts.old.items texts.new.items) }
        ensures refusal { IfErr result (λ refusal. IsTextRefusal self.now text.now refusal) }
        ensures kept { OnErr result (texts.new.items ≡ texts.old.items) }
    {
        lt_cache::append_canonical_text(alloc, self.table.checked(), text, texts)
    }

    /// The extlang form of a tag (RFC 5646, 4.5): its canonical form; and if the language of the canonical form is
    /// registered as an extlang too, with the Prefix of that extlang in front, unless the Prefix has 4 letters or more.
    /// `cmn-Hans` gives `zh-cmn-Hans`. It is refused as `canonical` refuses.
    pub fn extlang_form(&self, alloc: Global, tag: &Tag) -> Result<Tag, Refusal>
        ensures form { IfOk result (λ form. IsExtlangFormOf self.now tag.now form) }
        ensures refusal { IfErr result (λ refusal. IsRefusedWith self.now tag.now refusal) }
    {
        lt_canon::extlang_form(alloc, self.table.checked(), tag)
    }

    /// Whether two tags are equivalent: whether steps, forth and back, lead from one to the other. They do exactly if their
    /// canonical forms are equal, as those of `zh-cmn-Hans` and `cmn-Hans` are. A refusal is that of `canonical` for the
    /// first tag, else for the second.
    pub fn equivalent(&self, alloc: Global, first: &Tag, second: &Tag) -> Result<bool, Refusal>
        ensures answer { IfOk result (λ answer. IsEquivalenceAnswer self.now first.now second.now answer) }
        ensures refusal { IfErr result (λ refusal. IsFirstRefusal self.now first.now second.now refusal) }
    {
        lt_canon::equivalent(alloc, self.table.checked(), first, second)
    }

    /// The steps that lead from a tag to its canonical form (RFC 5646, 4.5), each the first that leads on, and
    /// that form. For `iw-IL` it is one step, of kind `Language` at place 1, and the tag `he-IL`. It is refused
    /// as `canonical` refuses.
    pub fn explain(&self, alloc: Global, tag: &Tag) -> Result<Trace, Refusal>
        ensures ok { IfOk result (λ trace. IsExplanation self.now tag.now trace.steps.items trace.last) }
        ensures err { IfErr result (λ refusal. IsRefusedWith self.now tag.now refusal) }
    {
        lt_canon::explain(alloc, self.table.checked(), tag)
    }

    /// The text of the explanation of the tag that a text is read as: a line for each step that `explain`
    /// answers, with its kind, its place, the number of its record and the tag to which it leads, and then a
    /// line with the canonical form. A line feed ends each line. `IW-il` gives the lines `Language 1 4 he-IL`
    /// and `= he-IL`, if record 4 has the value `he` for `iw`.
    ///
    /// - `NotATag`, with the fault that `Tag::read` answers, exactly where the text is read as none.
    /// - `Invalid` and `ReplacementRepeats` where `canonical` refuses the tag so.
    /// - `OutOfMemory` where memory runs out.
    pub fn explanation_text(&self, alloc: Global, text: &[u8]) -> Result<Vec<u8>, TextRefusal>
        ensures written { IfOk result (λ lines. IsExplanationTextOf self.now text.now lines.items) }
        ensures refusal { IfErr result (λ refusal. IsTextRefusal self.now text.now refusal) }
    {
        lt_canon::explanation_text(alloc, self.table.checked(), text)
    }

    /// Whether the steps of a trace lead from a valid tag, one after another, to its last tag, which is then
    /// equivalent to the tag.
    ///
    /// - `Invalid`, with the fault that `validate` answers, where the tag is not valid.
    /// - Else `NoSuchStep` with the first step, counted from 1, that does not lead on.
    /// - Else `WrongEnd` where the steps lead to another tag.
    /// - `OutOfMemory` where memory runs out.
    pub fn verify(&self, alloc: Global, tag: &Tag, trace: &Trace) -> Result<(), TraceFault>
        ensures ok { OnOk result (IsValidTrace self.now tag.now trace.now.steps.items trace.now.last) }
        ensures equivalent { OnOk result (AreEquivalent self.now tag.now trace.now.last) }
        ensures err { IfErr result (λ fault. IsTraceFault self.now tag.now trace.now.steps.items trace.now.last fault) }
        // No right trace is refused but for memory.
        ensures exact { IfErr result (λ fault. fault ≢ no_trace_memory
            → IsValidTrace self.now tag.now trace.now.steps.items trace.now.last → ⊥) }
    {
        lt_canon::verify(alloc, self.table.checked(), tag, trace)
    }

    /// The language ranges by which a text matches (RFC 4647, 2). If the text is a valid tag, they are those of its
    /// spellings: its extlang form (RFC 5646, 4.5), and the whole tags of records that have the same canonical form. Any
    /// other text is read as a range, and its first subtag is replaced by its extlang form if it is a valid tag by
    /// itself. So `iw` finds what `he` finds, `nb` gives `nb` and `no-bok`, `yue-*` finds `zh-yue-HK`, and `zh-*` stays.
    /// [`any_matches`](crate::any_matches) asks whether one of them matches a tag, and a list of ranges in order of
    /// priority is what [`filter_basic`](crate::filter_basic), [`filter_extended`](crate::filter_extended) and
    /// [`lookup`](crate::lookup) ask for.
    ///
    /// - `NotARange`, with the fault that `LanguageRange::read` answers, exactly where the text is neither.
    /// - `ReplacementRepeats` where the text is a valid tag that `canonical` refuses so.
    /// - `OutOfMemory` where memory runs out.
    pub fn ranges(&self, alloc: Global, text: &[u8]) -> Result<Vec<LanguageRange>, RangeRefusal>
        ensures ranges { IfOk result (λ ranges. AreRangesOf self.now text.now ranges.items) }
        ensures refusal { IfErr result (λ refusal. IsRangeRefusal self.now text.now refusal) }
    {
        let mut ranges = Vec::new(alloc);
        lt_range::append_ranges(alloc, &self.table, text, &mut ranges)?;
        Ok(ranges)
    }

    /// The subtags by which ranges match a tag, in each of its spellings: those of its extlang form (RFC 5646, 4.5), for
    /// example `zh`, `yue` and `HK` for `yue-HK`, and those of the whole tags of records that have the same canonical form.
    /// So equivalent tags match the same ranges, `zh` finds `yue`, and `no` finds `nb`. It is refused as `canonical` refuses.
    pub fn subtags(&self, alloc: Global, tag: &Tag) -> Result<TagSubtags, Refusal>
        ensures subtags { IfOk result (λ subtags. HasSpellings self.now tag.now subtags) }
        ensures refusal { IfErr result (λ refusal. IsRefusedWith self.now tag.now refusal) }
    {
        lt_range::tag_spellings(alloc, &self.table, tag)
    }

    /// The [`subtags`](Registry::subtags) of the tag that a text is read as. It is refused as `canonical_text` refuses.
    pub fn subtags_of_text(&self, alloc: Global, text: &[u8]) -> Result<TagSubtags, TextRefusal>
        ensures subtags { IfOk result (λ subtags. HasSubtags self.now text.now subtags) }
        ensures refusal { IfErr result (λ refusal. IsTextRefusal self.now text.now refusal) }
    {
        lt_range::subtags_of_text(alloc, &self.table, text)
    }

    /// What an Accept-Language header asks for (RFC 9110, 12.5.4): for each of its ranges those that [`ranges`](Registry::ranges)
    /// gives, with its weight. Those that are acceptable come first, from the greatest weight to the least, and then the
    /// others, in the order of the header. `da, en-gb;q=0.8` gives `da` with 1,000 thousandths and `en-gb` with 800.
    ///
    /// - `NotAHeader`, with the fault that `AcceptLanguage::read` answers, exactly where the text is no header.
    /// - `BadRange`, with the refusal of `ranges`, where that refuses one of the ranges.
    /// - `OutOfMemory` where memory runs out.
    pub fn preferences(
        &self,
        alloc: Global,
        header: &[u8],
    ) -> Result<Vec<Preference>, HeaderRefusal>
        ensures preferences { IfOk result (λ all. Asks self.now header.now all.items) }
        ensures refusal { IfErr result (λ refusal. IsHeaderRefusal self.now header.now refusal) }
    {
        lt_range::header_preferences(alloc, &self.table, header)
    }

    /// The tags that texts are read as, in their order, prepared for [`Available::best`](crate::Available::best): a
    /// service has one such list, and asks it once for each request. It is refused at the first text that
    /// `subtags_of_text` refuses, with that refusal and the number of the text, counted from 1.
    pub fn available(&self, alloc: Global, texts: &[&[u8]]) -> Result<Available, AvailableRefusal>
        ensures available { IfOk result (λ available. AreAvailable self.now (map (λ text. text.now) texts.now) (length texts.now) available) }
        ensures refusal { IfErr result (IsAvailableRefusal self.now (map (λ text. text.now) texts.now)) }
    {
        Available::of_texts(alloc, &self.table, texts)
    }

    /// What the registry has for the parts of a tag, in order: of each its place, what it is, where it is in the text that
    /// [`write_tag`](crate::write_tag) gives, and its record (RFC 5646, 3.1.4). A tag that is registered as redundant has a
    /// row for the whole of it first. What a record says is in the file: [`fields_of`](crate::fields_of) gives the fields of
    /// a number among the records of [`read_jar`](crate::read_jar). The only refusal is running out of memory.
    pub fn rows(&self, alloc: Global, tag: &Tag) -> Result<Vec<Row>, OutOfMemory>
        ensures { IfOk result (λ rows. rows.items ≡ rows_of self.now tag.now) }
    {
        lt_show::rows_of(alloc, self.table.checked().table(), tag)
    }

    /// Appends the [`rows`](Registry::rows) of a tag to other texts, as an array of JSON (RFC 8259). Each row is an object
    /// with the members `place`, `kind`, `text`, `listing` (`Record`, `Unregistered` or `Unlisted`), `record` (its number,
    /// or null) and `fields`, an array of objects with a `name` and a `body`: those fields of its record that
    /// [`is_shown`](crate::is_shown) shows. The records are those of the registry's file. The only refusal is running out of
    /// memory, after which a part of it may have been appended.
    pub fn append_rows(
        &self,
        alloc: Global,
        records: &[Record],
        tag: &Tag,
        texts: &mut Vec<u8>,
    ) -> Result<(), OutOfMemory>
        ensures { OnOk result (texts.new.items ≡ texts.old.items ++ rows_value self.now records.now tag.now) }
    {
        lt_show::append_rows(texts, alloc, self.table.checked().table(), records, tag)
    }

    /// Whether a newer registry upgrades this one: whether it meets each
    /// [`UpgradeCondition`](crate::UpgradeCondition) beside it. Tags that are valid by this registry are then
    /// valid by the newer one, and equivalent tags equivalent. Else the fault is the first condition that does
    /// not hold, with the lowest record at fault; or that memory ran out.
    pub fn upgrade_check(&self, alloc: Global, newer: &Registry) -> Result<(), UpgradeFault>
        ensures upgrades { OnOk result (Upgrades self.now newer.now) }
        ensures keeps { OnOk result (UpgradeKeepsTags self.now newer.now) }
        ensures fault { IfErr result (IsUpgradeFault self.now newer.now) }
    {
        lt_upgrade::upgrade_check(alloc, self.table.checked(), newer.table.checked())
    }
}
