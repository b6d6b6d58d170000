//! The fields of a record that are read: Type, Subtag, Tag, Preferred-Value, File-Date and Prefix. One pass over a
//! record finds where its first Type, Subtag, Tag and Preferred-Value are, whether one of these occurs twice, and
//! whether there is a File-Date (`Found`). A Prefix may occur often, so `read_all_prefixes` looks for Prefixes.
ghost use Rattle.std.specs.Prelude.{◌≡◌, ◌++◌, ◌∷◌, [], ℕ, List, length, Some, None, MatchOption, IfOk, option_map};
ghost use Rattle.std.specs.List.{slice_get};
ghost use Rattle.std.specs.Option.{option_copied};
ghost use Rattle.std.specs.Str.{str_eq_ignore_ascii_case};
ghost use Rattle.lt_tag.specs.Lists.{pieces};
ghost use Rattle.lt_jar.specs.Records.{Field};
ghost use Rattle.lt_registry.specs.Entries as entry_words;
ghost use Rattle.lt_registry.specs.Records as record_words;
ghost use Rattle.lt_registry.specs.RecordSteps as steps;

use crate::entries::{Kind, Prefix};
use lt_jar::JarField;
use lt_subtag::Subtag;
use lt_tag::{OutOfMemory, cut_piece};
use std::alloc::Global;

/// Whether two texts are the same, letter case aside.
fn same_text(left: &str, right: &str) -> bool
    ensures { result ≡ str_eq_ignore_ascii_case left.now right.now }
{
    left.eq_ignore_ascii_case(right)
}

/// Whether a field has this name, letter case aside.
pub(crate) fn is_called(field: &JarField, name: &str) -> bool
    ensures { result ≡ record_words.is_called name.now field.now }
{
    same_text(field.name(), name)
}

/// A name of a field that occurs once at most in a record or in the header; `Other` is any other name.
#[derive(Clone, Copy)]
pub(crate) enum FieldName {
    Type,
    Subtag,
    Tag,
    PreferredValue,
    FileDate,
    Other,
}

/// Which of the fields has this name, letter case aside. Most fields of a record are called Type or Subtag in just
/// these letters. These two are tried first, since comparing bytes is quicker than comparing letters of either case.
fn field_name(text: &str) -> FieldName
    ensures { result ≡ steps.field_told text.now }
{
    match text.as_bytes() {
        b"Type" => FieldName::Type,
        b"Subtag" => FieldName::Subtag,
        _ => field_name_in_any_case(text),
    }
}

/// Which field has this name, letter case aside.
fn field_name_in_any_case(text: &str) -> FieldName
    ensures { result ≡ steps.field_told text.now }
{
    if same_text(text, "Type") {
        FieldName::Type
    } else if same_text(text, "Subtag") {
        FieldName::Subtag
    } else if same_text(text, "Tag") {
        FieldName::Tag
    } else if same_text(text, "Preferred-Value") {
        FieldName::PreferredValue
    } else if same_text(text, "File-Date") {
        FieldName::FileDate
    } else {
        FieldName::Other
    }
}

/// Where the first field of each name is, among the fields that were looked at. A place is an index among these, and
/// None says that no field has the name.
#[derive(Clone, Copy)]
pub(crate) struct Found {
    kind: Option<usize>,
    subtag: Option<usize>,
    tag: Option<usize>,
    value: Option<usize>,
    /// Whether there is a File-Date.
    is_dated: bool,
    /// Whether Type, Subtag, Tag or Preferred-Value occurs twice.
    repeats: bool,
}

impl Found {
    /// What is found before any field is looked at.
    fn none() -> Found
        ensures { steps.HasFound [] result }
    {
        Found {
            kind: None,
            subtag: None,
            tag: None,
            value: None,
            is_dated: false,
            repeats: false,
        }
    }

    /// Notes a further field, which has this place and name, if it is one of those that are looked for. The first of a
    /// name gives its place, and another one is a repeat. The fields before it are no argument, so the clause speaks of
    /// any fields `r` of which `self` was true, as many as `place`, and of any field `f` of this name after them.
    fn put(&mut self, place: usize, name: &str)
        ensures { (r : List Field) (f : Field) → length r ≡ place → f.0 ≡ name.now
            → steps.HasFound r self.old → steps.HasFound (r ++ f ∷ []) self.new }
    {
        let here = Some(place);
        match field_name(name) {
            FieldName::Type => {
                self.repeats |= self.kind.is_some();
                self.kind = self.kind.or(here);
            }
            FieldName::Subtag => {
                self.repeats |= self.subtag.is_some();
                self.subtag = self.subtag.or(here);
            }
            FieldName::Tag => {
                self.repeats |= self.tag.is_some();
                self.tag = self.tag.or(here);
            }
            FieldName::PreferredValue => {
                self.repeats |= self.value.is_some();
                self.value = self.value.or(here);
            }
            FieldName::FileDate => self.is_dated = true,
            FieldName::Other => {}
        }
    }

    /// The places of the fields that are looked for among all fields of a record.
    #[tactic(auto, using(crate::proofs::ListLemmas::take_turn))]
    fn among(fields: &[JarField]) -> Found
        ensures { steps.HasFound fields.now result }
    {
        let mut found = Found::none();
        for (place, field) in fields.iter().enumerate() {
            found.put(place, field.name());
        }
        found
    }
}

/// The body of the field at a place, or None if there is no such field.
#[tactic(auto, using(std::proofs::lemmas::Option::gets))]
fn body_at(fields: &[JarField], place: usize) -> Option<&str>
    ensures { option_copied result ≡ option_map (λ (f : Field). f.1) (slice_get fields.now place) }
{
    Some(fields.get(place)?.body())
}

/// The fields of a record, with the places of those that are asked for, which are looked for in one pass.
#[derive(Clone, Copy)]
pub(crate) struct RecordFields<'a> {
    all: &'a [JarField],
    found: Found,
    /// For proofs only: `found` is true of `all`.
    ghost found_there: { steps.HasFound all.now found },
}

impl<'a> RecordFields<'a> {
    /// The fields of a record, with the places of those that are looked for.
    pub(crate) fn of(fields: &'a [JarField]) -> RecordFields<'a>
        ensures { result.all.now ≡ fields.now }
    {
        RecordFields {
            all: fields,
            found: Found::among(fields),
        }
    }

    /// All fields of the record.
    pub(crate) fn all(&self) -> &'a [JarField]
        ensures { result.now ≡ self.now.all.now }
    {
        self.all
    }

    /// Whether Type, Subtag, Tag or Preferred-Value occurs twice.
    pub(crate) fn repeat(&self) -> bool
        ensures { result ≡ record_words.repeats_field self.now.all.now }
    {
        self.found.repeats
    }

    /// Whether the fields are those of a header: they have a File-Date and no Type.
    #[tactic(auto, using(crate::proofs::FieldLemmas::found_or_none))]
    pub(crate) fn are_header(&self) -> bool
        ensures { result ≡ record_words.is_header self.now.all.now }
    {
        self.found.is_dated & self.found.kind.is_none()
    }

    /// The body of the field at `place`, which is where a field was found; None if none was found. The name of the
    /// field is no argument, so the clause speaks of each name whose first field is at `place`.
    fn body(&self, place: Option<usize>) -> Option<&'a str>
        ensures { (name : List ℕ) → steps.IsPlace name self.now.all.now place
            → option_copied result ≡ record_words.body name self.now.all.now }
    {
        match place {
            Some(place) => body_at(self.all, place),
            None => None,
        }
    }

    /// The body of Type, or None if the record has no such field.
    pub(crate) fn kind(&self) -> Option<&'a str>
        ensures { option_copied result ≡ record_words.body record_words.type_name self.now.all.now }
    {
        self.body(self.found.kind)
    }

    /// The body of the field that says what a record of the kind names: Tag for a kind of whole tags, and Subtag for
    /// any other. None if the record has no such field.
    pub(crate) fn name(&self, kind: Kind) -> Option<&'a str>
        ensures { option_copied result ≡ record_words.body (record_words.name_field kind) self.now.all.now }
    {
        if is_whole_kind(kind) {
            self.body(self.found.tag)
        } else {
            self.body(self.found.subtag)
        }
    }

    /// The body of Preferred-Value, or None if the record has no such field.
    pub(crate) fn value(&self) -> Option<&'a str>
        ensures { option_copied result ≡ record_words.body record_words.value_name self.now.all.now }
    {
        self.body(self.found.value)
    }
}

/// Whether records of the kind name whole tags, in a field Tag: those of grandfathered and of redundant tags do.
pub(crate) fn is_whole_kind(kind: Kind) -> bool
    ensures { result ≡ entry_words.is_whole_kind kind }
{
    match kind {
        Kind::Grandfathered | Kind::Redundant => true,
        Kind::Language | Kind::Extlang | Kind::Script | Kind::Region | Kind::Variant => false,
    }
}

/// The kind that the body of Type names, letter case aside; None if it names none. Most records are of a `language` in
/// just these letters. It is tried first, since comparing bytes is quicker than comparing letters of either case.
pub(crate) fn kind_of(text: &str) -> Option<Kind>
    ensures { result ≡ record_words.kind_of text.now }
{
    match text.as_bytes() {
        b"language" => Some(Kind::Language),
        _ => kind_in_any_case(text),
    }
}

/// The kind that the body of Type names, letter case aside; None if it names none.
fn kind_in_any_case(text: &str) -> Option<Kind>
    ensures { result ≡ record_words.kind_of text.now }
{
    if same_text(text, "language") {
        Some(Kind::Language)
    } else if same_text(text, "extlang") {
        Some(Kind::Extlang)
    } else if same_text(text, "script") {
        Some(Kind::Script)
    } else if same_text(text, "region") {
        Some(Kind::Region)
    } else if same_text(text, "variant") {
        Some(Kind::Variant)
    } else if same_text(text, "grandfathered") {
        Some(Kind::Grandfathered)
    } else if same_text(text, "redundant") {
        Some(Kind::Redundant)
    } else {
        None
    }
}

/// The bytes before and those after the first `..` of a text: the two ends, if the text is a range such as `qaa..qtz`.
/// None if the text has no `..`.
#[tactic(auto, using(crate::proofs::RecordTexts::ends_found, crate::proofs::RecordTexts::ends_stay, crate::proofs::RecordTexts::ends_none, std::proofs::lemmas::List::take_rest))]
pub(crate) fn ends_of(text: &[u8]) -> Option<(&[u8], &[u8])>
    ensures { MatchOption result (record_words.ends_of text.now ≡ None) (λ ends. record_words.ends_of text.now ≡ Some (ends.0.now, ends.1.now)) }
{
    for index in 0..text.len() {
        if begins_dots(&text[index..]) {
            return Some((&text[..index], &text[index + 2..]));
        }
    }
    None
}

/// Whether a text begins with two full stops.
fn begins_dots(text: &[u8]) -> bool
    ensures { result ≡ record_words.begins_dots text.now }
{
    match text {
        [first, second, ..] => *first == b'.' && *second == b'.',
        _ => false,
    }
}

/// The subtags of a Prefix, whose text is cut into pieces at its hyphens; None if a piece is no subtag. The only
/// refusal is running out of memory.
#[tactic(auto, using(crate::proofs::RecordTexts::piece_stays, crate::proofs::RecordTexts::piece_fails, crate::proofs::RecordTexts::piece_last, crate::proofs::RecordTexts::prefix_is))]
pub(crate) fn read_prefix(alloc: Global, text: &[u8]) -> Result<Option<Prefix>, OutOfMemory>
    ensures { IfOk result (λ prefix. prefix ≡ record_words.prefix_of text.now) }
{
    let mut subtags = Vec::new(alloc);
    let mut rest = text;
    'pieces: loop {
        let (piece, after) = cut_piece(rest);
        match Subtag::read(piece) {
            Ok(subtag) => subtags.push(subtag)?,
            Err(_) => return Ok(None),
        }
        match after {
            Some(bytes) => rest = bytes,
            None => return Ok(Some(Prefix::of_subtags(subtags))),
        }
    }
}
