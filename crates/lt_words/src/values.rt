//! The values of a subcommand's arguments.
//!
//! `matches` are what the parser found, and `rows_of (found_of matches.now)` a row with the values of each argument.
//! Where a call refuses with `Usage`, its last clause says that no answer would be right; memory may run out in any
//! call.
ghost use Rattle.std.specs.Prelude.{◌≡◌, ◌↔◌, [], ◌∷◌, IfOk, IfErr, IsTrue, Some, map, option_map, string_bytes};
ghost use Rattle.std.specs.Str.Parse.{AllDigits, without_leading_plus};
ghost use Rattle.lt_words.specs.Reading.{AreGiven, FitsHeading, IsColumn, IsDecimal, IsNoColumn, IsNoNumber, IsNumber, AreRangesGiven, HasCompany, IsAlone, LacksDelimiter, LacksMatching, LacksRanges, LacksValue, delimiter_given, matching_given, values_given};
ghost use Rattle.lt_words.specs.Reading as spec;
ghost use Rattle.clap.specs.Words.{first_of, found_of, rows_of};

use crate::commands::{Column, Matching, Ranges};
use crate::faults::WordsFault;
use crate::program::{Argument, DELIMITER, EXTENDED, LOOKUP, RANGE};
use clap::ArgMatches;
use std::alloc::{AllocError, Global};

/// The value of a positional, which is an argument that is given by its place. Refused with `Usage` if it has none.
/// The clauses have lists of one positional and one value, since their definitions are made for several.
pub(crate) fn value_of(
    alloc: Global,
    matches: &ArgMatches<'_>,
    positional: &Argument,
) -> Result<String, WordsFault>
    ensures value { IfOk result (λ value. AreGiven (rows_of (found_of matches.now)) (positional.now.name.now ∷ []) (string_bytes value ∷ [])) }
    ensures lacks { IfErr result (LacksValue (rows_of (found_of matches.now)) (positional.now.name.now ∷ [])) }
{
    let name = positional.name;
    match matches.get_str(name) {
        Some(value) => Ok(String::from_str(alloc, value)?),
        None => Err(WordsFault::Usage(format!(in alloc; "error: {name} has no value\n")?)),
    }
}

/// The values of two positionals. Refused with `Usage` if one has none.
pub(crate) fn two_values(
    alloc: Global,
    matches: &ArgMatches<'_>,
    first: &Argument,
    second: &Argument,
) -> Result<(String, String), WordsFault>
    ensures values { IfOk result (λ values. AreGiven (rows_of (found_of matches.now)) (first.now.name.now ∷ second.now.name.now ∷ [])
        (string_bytes values.0 ∷ string_bytes values.1 ∷ [])) }
    ensures lacks { IfErr result (LacksValue (rows_of (found_of matches.now)) (first.now.name.now ∷ second.now.name.now ∷ [])) }
{
    let value = value_of(alloc, matches, first)?;
    let other = value_of(alloc, matches, second)?;
    Ok((value, other))
}

/// Copies of texts, in their order, which a command then owns.
fn copies_of(alloc: Global, texts: &[&str]) -> Result<Vec<String>, AllocError>
    ensures { IfOk result (λ copies. map string_bytes copies.items ≡ map (λ text. text.now) texts.now) }
{
    let mut copies = Vec::new(alloc);
    for text in texts {
        copies.push(String::from_str(alloc, text)?)?;
    }
    Ok(copies)
}

/// The values of a positional that may be repeated, in their order.
pub(crate) fn values_of(
    alloc: Global,
    matches: &ArgMatches<'_>,
    repeated: &Argument,
) -> Result<Vec<String>, AllocError>
    ensures { IfOk result (λ values. map string_bytes values.items ≡ values_given repeated.now.name.now (rows_of (found_of matches.now))) }
{
    match matches.get_strs(repeated.name) {
        Some(texts) => copies_of(alloc, texts),
        None => Ok(Vec::new(alloc)),
    }
}

/// The value of an option, or None if it is not given.
pub(crate) fn option_of(
    alloc: Global,
    matches: &ArgMatches<'_>,
    option: &Argument,
) -> Result<Option<String>, AllocError>
    ensures { IfOk result (λ value. option_map string_bytes value ≡ first_of option.now.name.now (rows_of (found_of matches.now))) }
{
    match matches.get_str(option.name) {
        Some(text) => Ok(Some(String::from_str(alloc, text)?)),
        None => Ok(None),
    }
}

/// Whether a flag is given: the parser gives it the value `true` then, and else `false`.
pub(crate) fn is_flagged(matches: &ArgMatches<'_>, flag: &Argument) -> bool
    ensures { result ≡ spec.is_flagged flag.now.name.now (rows_of (found_of matches.now)) }
{
    match matches.get_str(flag.name) {
        Some(text) => text == "true",
        None => false,
    }
}

/// A text without the plus sign that may begin it: a number may be written so.
fn without_plus(text: &[u8]) -> &[u8]
    ensures { result.now ≡ without_leading_plus text.now }
{
    match text.first() {
        Some(b'+') => &text[1..],
        _ => text,
    }
}

/// Whether a text has only decimal digits (10 in the clause is the base). It is true of an empty text too.
#[tactic(auto, using(crate::proofs::ValueLemmas::digits_next, crate::proofs::ValueLemmas::no_digit))]
fn are_digits(bytes: &[u8]) -> bool
    ensures { IsTrue result ↔ AllDigits 10 bytes.now }
{
    let mut rest = bytes;
    while let Some((byte, more)) = rest.split_first() {
        if !byte.is_ascii_digit() {
            return false;
        }
        rest = more;
    }
    true
}

/// Whether a text is a decimal number, which a plus may begin.
fn is_decimal(text: &str) -> bool
    ensures { IsTrue result ↔ IsDecimal text.now }
{
    let digits = without_plus(text.as_bytes());
    !digits.is_empty() && are_digits(digits)
}

/// The number of a column, counted from 1. Refused with `Usage` if the text is no decimal number from 1 to 2^64 - 1,
/// the greatest `usize`.
fn number_of(alloc: Global, text: &str) -> Result<usize, WordsFault>
    ensures number { IfOk result (IsNumber text.now) }
    ensures none { IfErr result (IsNoNumber text.now) }
{
    match text.parse::<usize>() {
        Ok(column) if column > 0 => Ok(column),
        Ok(_) => Err(WordsFault::Usage(format!(in alloc;
            "error: COLUMN is a number from 1, and not {text}\n\nFor more information, try '--help'.\n"
        )?)),
        Err(_) => Err(WordsFault::Usage(format!(in alloc;
            "error: COLUMN is at most 18446744073709551615, and not {text}\n\nFor more information, try '--help'.\n"
        )?)),
    }
}

/// The column that a text names (`column`): by its number, or, only if the rows have a heading (`fits`), by its name.
/// Refused with `Usage` if it names none.
#[tactic(auto, using(crate::proofs::ValueLemmas::no_number, crate::proofs::ValueLemmas::no_name))]
pub(crate) fn column_of(alloc: Global, text: &str, heading: bool) -> Result<Column, WordsFault>
    ensures column { IfOk result (IsColumn text.now) }
    ensures fits { IfOk result (FitsHeading heading) }
    ensures none { IfErr result (IsNoColumn text.now heading) }
{
    if is_decimal(text) {
        return Ok(Column::Number(number_of(alloc, text)?));
    }
    if !heading {
        return Err(WordsFault::Usage(format!(in alloc;
            "error: COLUMN {text} is a name: add --heading, or give a number from 1\n\nFor more information, try '--help'.\n"
        )?));
    }
    Ok(Column::Name(String::from_str(alloc, text)?))
}

/// Whether a byte may be part of a field that is added to rows, for example of `UnknownLanguage 1` or of the name
/// `langtag_fault`.
fn is_of_added(byte: u8) -> bool
    ensures { result ≡ spec.is_of_added byte }
{
    byte.is_ascii_alphanumeric() || byte == b' ' || byte == b'-' || byte == b'_'
}

/// Whether a byte may be the delimiter between fields: ASCII, but no quote, line feed or carriage return, and no byte of
/// the fields that are added, which are written without quotes.
fn is_delimiter(byte: u8) -> bool
    ensures { result ≡ spec.is_delimiter byte }
{
    byte.is_ascii() && byte != b'"' && byte != b'\n' && byte != b'\r' && !is_of_added(byte)
}

/// The delimiter that a text names, a byte or the word `tab`. None if it names none.
fn delimiter_named(text: &str) -> Option<u8>
    ensures { result ≡ spec.delimiter_named text.now }
{
    match text.as_bytes() {
        b"tab" => Some(b'\t'),
        [byte] if is_delimiter(*byte) => Some(*byte),
        _ => None,
    }
}

/// The delimiter between fields that the option names, or a comma without the option. Refused with `Usage` if the
/// option names no delimiter.
pub(crate) fn delimiter_of(alloc: Global, matches: &ArgMatches<'_>) -> Result<u8, WordsFault>
    ensures given { IfOk result (λ byte. delimiter_given (rows_of (found_of matches.now)) ≡ Some byte) }
    ensures none { IfErr result (LacksDelimiter (rows_of (found_of matches.now))) }
{
    let Some(text) = matches.get_str(DELIMITER.name) else {
        return Ok(b',');
    };
    match delimiter_named(text) {
        Some(byte) => Ok(byte),
        None => Err(WordsFault::Usage(format!(in alloc;
            "error: the delimiter is the word tab, or one byte of ASCII but no letter,\ndigit, space, hyphen, underscore, quote, carriage return or line feed\n\nFor more information, try '--help'.\n"
        )?)),
    }
}

/// How ranges match, by the flags that are given: basic filtering without any. Refused with `Usage` if both are given.
fn matching_of(alloc: Global, matches: &ArgMatches<'_>) -> Result<Matching, WordsFault>
    ensures given { IfOk result (λ matching. matching_given (rows_of (found_of matches.now)) ≡ Some matching) }
    ensures none { IfErr result (LacksMatching (rows_of (found_of matches.now))) }
{
    match (is_flagged(matches, &EXTENDED), is_flagged(matches, &LOOKUP)) {
        (false, false) => Ok(Matching::Basic),
        (true, false) => Ok(Matching::Extended),
        (false, true) => Ok(Matching::Lookup),
        (true, true) => Err(WordsFault::Usage(format!(in alloc;
            "error: --extended and --lookup are two ways to match, and not to be given\ntogether\n\nFor more information, try '--help'.\n"
        )?)),
    }
}

/// The ranges that are given, and how they match. Refused with `Usage` if there is none, or if both flags are given.
pub(crate) fn ranges_of(alloc: Global, matches: &ArgMatches<'_>) -> Result<Ranges, WordsFault>
    ensures given { IfOk result (AreRangesGiven (rows_of (found_of matches.now))) }
    ensures none { IfErr result (LacksRanges (rows_of (found_of matches.now))) }
{
    let texts = values_of(alloc, matches, &RANGE)?;
    if texts.is_empty() {
        return Err(WordsFault::Usage(format!(in alloc;
            "error: give a RANGE, or a header after --accept\n\nFor more information, try '--help'.\n"
        )?));
    }
    let matching = matching_of(alloc, matches)?;
    Ok(Ranges { texts, matching })
}

/// Checks that nothing stands beside the option `--accept` which only ranges need. Refused with `Usage` if a range is
/// given, or a flag that says how ranges match: a header has ranges of its own.
pub(crate) fn check_alone(alloc: Global, matches: &ArgMatches<'_>) -> Result<(), WordsFault>
    ensures alone { IfOk result (λ _. IsAlone (rows_of (found_of matches.now))) }
    ensures company { IfErr result (HasCompany (rows_of (found_of matches.now))) }
{
    let texts = values_of(alloc, matches, &RANGE)?;
    if texts.is_empty() && !is_flagged(matches, &EXTENDED) && !is_flagged(matches, &LOOKUP) {
        return Ok(());
    }
    Err(WordsFault::Usage(format!(in alloc;
        "error: --accept is given without a RANGE, and without --extended and --lookup\n\nFor more information, try '--help'.\n"
    )?))
}
