//! The names of a heading, and where a name stands among them.
ghost use Rattle.std.specs.Prelude.{◌≡◌, ◌++◌, ℕ, List, IfOk, OnOk, false, string_bytes, take};
ghost use Rattle.std.specs.Option.{option_map};
ghost use Rattle.lt_jar.specs.Lines.{content_of};
ghost use Rattle.lt_heading.specs.Names as spec;
ghost use Rattle.lt_heading.specs.Names.{AreNames, IsFound, IsNameOf, LooksUp, found_then, shown_name, shown_names};

use lt_rows::{Separator, find_field, text_in};
use lt_words::escaped;
use std::alloc::{AllocError, Global};

/// The most names of a heading that are listed if the name that is looked for is not found, so that the line stays
/// short.
const MOST_LISTED: usize = 64;

/// The most bytes of a name that are shown, so that the line stays short.
const MOST_SHOWN: usize = 64;

/// Where a name stands among others.
#[derive(Clone, Copy)]
pub(crate) enum Found {
    /// It is none of them.
    Missing,
    /// It is only the one with this number, counted from 1.
    Only(usize),
    /// It is more than one of them.
    Repeated,
}

impl Found {
    /// Where the name stands among the names so far and a further one, which has this number, counted from 1. `is_name`
    /// says whether the further name is the one that is looked for.
    fn with(self, number: usize, is_name: bool) -> Found
        ensures { result ≡ found_then self number is_name }
    {
        match self {
            _ if !is_name => self,
            Found::Missing => Found::Only(number),
            Found::Only(_) | Found::Repeated => Found::Repeated,
        }
    }
}

/// What was found of a name in a heading.
#[derive(Drop)]
pub(crate) struct Looked {
    pub(crate) found: Found,
    /// The first names, each after a space and between quotes, and how many more there are.
    pub(crate) listed: String,
}

/// The text between the quotes of a field, with each doubled quote as one (RFC 4180, 2): `a""b` becomes `a"b`. The
/// `false` in the clause says that no quote comes before the text. Refused where memory runs out.
fn undoubled(alloc: Global, text: &[u8]) -> Result<Vec<u8>, AllocError>
    ensures { IfOk result (λ name. name.items ≡ spec.undoubled false text.now) }
{
    let mut name = Vec::new(alloc);
    let mut is_after_quote = false;
    for byte in text {
        if is_after_quote && *byte == b'"' {
            is_after_quote = false;
            continue;
        }
        name.push(*byte)?;
        is_after_quote = *byte == b'"';
    }
    Ok(name)
}

/// The name of a column, by its field in the heading: the text of the field, with each doubled quote as one if the
/// field is quoted. Refused where memory runs out.
fn name_of(alloc: Global, separator: Separator, field: &[u8]) -> Result<Vec<u8>, AllocError>
    ensures { IfOk result (λ name. IsNameOf separator field.now name.items) }
{
    let (quotes, text) = text_in(separator, field);
    if !quotes.is_empty() {
        return undoubled(alloc, text);
    }
    let mut name = Vec::new(alloc);
    name.extend_from_slice(text)?;
    Ok(name)
}

/// The part of a name that is shown: its first 64 bytes, or all if it has fewer.
fn shown_front(name: &[u8]) -> &[u8]
    ensures { result.now ≡ take spec.most_shown name.now }
{
    &name[..name.len().min(MOST_SHOWN)]
}

/// Two dots for a name that is longer than what is shown of it, else no text.
fn dots_after(name: &[u8]) -> &'static str
    ensures { result.now ≡ spec.dots_after name.now }
{
    if name.len() > MOST_SHOWN { ".." } else { "" }
}

/// Appends to `shown` a space and a name between quotes, with escapes for what can't be printed as it is. Of a name of
/// more than 64 bytes only the first 64 are appended, with two dots after the quotes.
pub(crate) fn append_shown(shown: &mut String, alloc: Global, name: &[u8]) -> Result<(), AllocError>
    ensures { OnOk result (string_bytes shown.new ≡ string_bytes shown.old ++ shown_name name.now) }
{
    let front = escaped(alloc, shown_front(name))?;
    shown.push_str(" \"")?;
    shown.push_str(&front)?;
    shown.push('"')?;
    shown.push_str(dots_after(name))?;
    Ok(())
}

/// Appends a name to a list of names, if it is one of the first that are listed: `count` names come before it.
fn append_listed(
    listed: &mut String,
    alloc: Global,
    count: usize,
    name: &[u8],
) -> Result<(), AllocError>
    ensures { OnOk result (string_bytes listed.new ≡ string_bytes listed.old ++ spec.listed_after count name.now) }
{
    if count < MOST_LISTED {
        append_shown(listed, alloc, name)?;
    }
    Ok(())
}

/// What was found of a name among `count` names. `listed` is the list of the first 64 of them. If there are more, their
/// number is added to it, for example ` and 3 more`. Refused where memory runs out.
fn looked_among(
    alloc: Global,
    found: Found,
    mut listed: String,
    count: usize,
) -> Result<Looked, AllocError>
    ensures { IfOk result (λ looked. (looked.found ≡ found) × (string_bytes looked.listed ≡ string_bytes listed ++ spec.rest_said count)) }
{
    if count > MOST_LISTED {
        let more = count - MOST_LISTED;
        listed.push_str(&format!(in alloc; " and {more} more")?)?;
    }
    Ok(Looked { found, listed })
}

/// Looks a name up among the names of the columns in a heading. `row` is the heading without the carriage return that
/// may end it. Refused where memory runs out.
fn look_up_in_row(
    alloc: Global,
    separator: Separator,
    row: &[u8],
    name: &[u8],
) -> Result<Looked, AllocError>
    ensures { IfOk result (λ looked. (names : List (List ℕ)) × AreNames separator row.now names × IsFound name.now names looked.found
        × (string_bytes looked.listed ≡ shown_names names)) }
{
    let mut found = Found::Missing;
    let mut listed = String::new(alloc);
    let mut count = 0;
    let mut rest = row;
    while let Some((_, field, after)) = find_field(separator, rest, 0) {
        let other = name_of(alloc, separator, field)?;
        append_listed(&mut listed, alloc, count, &other)?;
        count += 1;
        found = found.with(count, other.as_slice() == name);
        match after.split_first() {
            Some((_, more)) => rest = more,
            None => return looked_among(alloc, found, listed, count),
        }
    }
    looked_among(alloc, found, listed, count)
}

/// A row without the carriage return that may end it.
fn without_return(row: &[u8]) -> &[u8]
    ensures { result.now ≡ content_of row.now }
{
    match row.last() {
        Some(b'\r') => &row[..row.len() - 1],
        _ => row,
    }
}

/// Looks a name up among the names of the columns in a heading. If there is no heading, the name is missing. Refused
/// where memory runs out. In the clause `heading.entry` is the parameter as it came in.
pub(crate) fn look_up(
    alloc: Global,
    separator: Separator,
    heading: Option<&[u8]>,
    name: &[u8],
) -> Result<Looked, AllocError>
    ensures { IfOk result (LooksUp separator (option_map (λ row. row.now) heading.entry) name.now) }
{
    match heading {
        Some(row) => look_up_in_row(alloc, separator, without_return(row), name),
        None => Ok(Looked {
            found: Found::Missing,
            listed: String::new(alloc),
        }),
    }
}
