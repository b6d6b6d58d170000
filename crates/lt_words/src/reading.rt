//! Reading the words of the command line.
//!
//! `clap` parses them to matches: the name of a subcommand, and a row with the values of each argument. In the
//! clauses `rows_of (found_of values.now)` are these rows. A reader of a command has two clauses. `named`: the
//! command that it gives is what the name and the rows say. `unnamed`: what it refuses with `Usage` is no command at
//! all; memory may run out for any words.
ghost use Rattle.std.specs.Prelude.{◌≡◌, IfOk, IfErr, map, Some, string_bytes};
ghost use Rattle.lt_words.specs.CommandLine.{name_of};
ghost use Rattle.lt_words.specs.Reading.{Reads, IsRefused, IsNamed, NamesNone, IsFaultOf};
ghost use Rattle.clap.specs.Words.{found_of, rows_of, subcommand_rows_of};

use crate::commands::{Command, Rows, Run, Tags};
use crate::faults::WordsFault;
use crate::program::{
    ACCEPT, CODES, COLUMN, HEADING, JSON, KEEP, NEW, OLD, OTHER, REGISTRY, SUMMARY, TABLE, TAG,
    TAGS, new_langtag,
};
use crate::subcommands::{Subcommand, subcommand_named};
use crate::values::{
    check_alone, column_of, delimiter_of, is_flagged, option_of, ranges_of, two_values, value_of,
    values_of,
};
use clap::ArgMatches;
use clap::error::ErrorKind;
use std::alloc::Global;
use std::fmt::Display;

/// The command `canon`, by the values of its arguments. Refused with `Usage` if the positional has none.
fn read_canon(alloc: Global, values: &ArgMatches<'_>) -> Result<Command, WordsFault>
    ensures named { IfOk result (IsNamed (Some (name_of Subcommand.Canon, rows_of (found_of values.now)))) }
    ensures unnamed { IfErr result (NamesNone (Some (name_of Subcommand.Canon, rows_of (found_of values.now)))) }
{
    let registry = value_of(alloc, values, &REGISTRY)?;
    let summary = is_flagged(values, &SUMMARY);
    Ok(Command::Canon(Run { registry, summary }))
}

/// The command `codes`, by the values of its arguments. Refused with `Usage` if a positional has none.
fn read_codes(alloc: Global, values: &ArgMatches<'_>) -> Result<Command, WordsFault>
    ensures named { IfOk result (IsNamed (Some (name_of Subcommand.Codes, rows_of (found_of values.now)))) }
    ensures unnamed { IfErr result (NamesNone (Some (name_of Subcommand.Codes, rows_of (found_of values.now)))) }
{
    let (table, registry) = two_values(alloc, values, &TABLE, &REGISTRY)?;
    let summary = is_flagged(values, &SUMMARY);
    Ok(Command::Codes(Run { registry, summary }, table))
}

/// The command `tsv`, by the values of its arguments. Refused with `Usage` if a positional has none, or they name no
/// column.
fn read_tsv(alloc: Global, values: &ArgMatches<'_>) -> Result<Command, WordsFault>
    ensures named { IfOk result (IsNamed (Some (name_of Subcommand.Tsv, rows_of (found_of values.now)))) }
    ensures unnamed { IfErr result (NamesNone (Some (name_of Subcommand.Tsv, rows_of (found_of values.now)))) }
{
    let (registry, column) = two_values(alloc, values, &REGISTRY, &COLUMN)?;
    let heading = is_flagged(values, &HEADING);
    let rows = Rows {
        column: column_of(alloc, &column, heading)?,
        heading,
        keep: is_flagged(values, &KEEP),
        codes: option_of(alloc, values, &CODES)?,
    };
    let summary = is_flagged(values, &SUMMARY);
    Ok(Command::Tsv(Run { registry, summary }, rows))
}

/// The command `csv`, by the values of its arguments. Refused with `Usage` if a positional has none, or they name no
/// column, or no delimiter.
fn read_csv(alloc: Global, values: &ArgMatches<'_>) -> Result<Command, WordsFault>
    ensures named { IfOk result (IsNamed (Some (name_of Subcommand.Csv, rows_of (found_of values.now)))) }
    ensures unnamed { IfErr result (NamesNone (Some (name_of Subcommand.Csv, rows_of (found_of values.now)))) }
{
    let (registry, column) = two_values(alloc, values, &REGISTRY, &COLUMN)?;
    let rows = Rows {
        column: column_of(alloc, &column, true)?,
        heading: true,
        keep: is_flagged(values, &KEEP),
        codes: option_of(alloc, values, &CODES)?,
    };
    let delimiter = delimiter_of(alloc, values)?;
    let summary = is_flagged(values, &SUMMARY);
    Ok(Command::Csv(Run { registry, summary }, rows, delimiter))
}

/// The command `match`, by the values of its arguments. Refused with `Usage` if the positional has none, or they do not
/// name one way to match: ranges with a scheme, or a header.
fn read_match(alloc: Global, values: &ArgMatches<'_>) -> Result<Command, WordsFault>
    ensures named { IfOk result (IsNamed (Some (name_of Subcommand.Match, rows_of (found_of values.now)))) }
    ensures unnamed { IfErr result (NamesNone (Some (name_of Subcommand.Match, rows_of (found_of values.now)))) }
{
    let registry = value_of(alloc, values, &REGISTRY)?;
    match option_of(alloc, values, &ACCEPT)? {
        Some(header) => {
            check_alone(alloc, values)?;
            Ok(Command::Serve(registry, header))
        }
        None => Ok(Command::Match(registry, ranges_of(alloc, values)?)),
    }
}

/// The command `show`, by the values of its arguments. Refused with `Usage` if the positional has none.
fn read_show(alloc: Global, values: &ArgMatches<'_>) -> Result<Command, WordsFault>
    ensures named { IfOk result (IsNamed (Some (name_of Subcommand.Show, rows_of (found_of values.now)))) }
    ensures unnamed { IfErr result (NamesNone (Some (name_of Subcommand.Show, rows_of (found_of values.now)))) }
{
    let registry = value_of(alloc, values, &REGISTRY)?;
    let tags = Tags {
        texts: values_of(alloc, values, &TAGS)?,
        json: is_flagged(values, &JSON),
    };
    Ok(Command::Show(registry, tags))
}

/// The command `equal`, by the values of its arguments. Refused with `Usage` if a positional has none.
fn read_equal(alloc: Global, values: &ArgMatches<'_>) -> Result<Command, WordsFault>
    ensures named { IfOk result (IsNamed (Some (name_of Subcommand.Equal, rows_of (found_of values.now)))) }
    ensures unnamed { IfErr result (NamesNone (Some (name_of Subcommand.Equal, rows_of (found_of values.now)))) }
{
    let file = value_of(alloc, values, &REGISTRY)?;
    let (tag, other) = two_values(alloc, values, &TAG, &OTHER)?;
    Ok(Command::Equal(file, tag, other))
}

/// The command that a subcommand asks for, by the values of its arguments. Refused with `Usage` if they fit none.
fn read_command(
    alloc: Global,
    subcommand: Subcommand,
    values: &ArgMatches<'_>,
) -> Result<Command, WordsFault>
    ensures named { IfOk result (IsNamed (Some (name_of subcommand, rows_of (found_of values.now)))) }
    ensures unnamed { IfErr result (NamesNone (Some (name_of subcommand, rows_of (found_of values.now)))) }
{
    match subcommand {
        Subcommand::Classify => Ok(Command::Classify(value_of(alloc, values, &TAG)?)),
        Subcommand::Check => Ok(Command::Check(value_of(alloc, values, &REGISTRY)?)),
        Subcommand::Canon => read_canon(alloc, values),
        Subcommand::Codes => read_codes(alloc, values),
        Subcommand::Tsv => read_tsv(alloc, values),
        Subcommand::Csv => read_csv(alloc, values),
        Subcommand::Match => read_match(alloc, values),
        Subcommand::Extlang => {
            let (file, tag) = two_values(alloc, values, &REGISTRY, &TAG)?;
            Ok(Command::Extlang(file, tag))
        }
        Subcommand::Equal => read_equal(alloc, values),
        Subcommand::Explain => {
            let (file, tag) = two_values(alloc, values, &REGISTRY, &TAG)?;
            Ok(Command::Explain(file, tag))
        }
        Subcommand::Verify => {
            let (file, tag) = two_values(alloc, values, &REGISTRY, &TAG)?;
            Ok(Command::Verify(file, tag))
        }
        Subcommand::Upgrade => {
            let (old, new) = two_values(alloc, values, &OLD, &NEW)?;
            Ok(Command::Upgrade(old, new))
        }
        Subcommand::Show => read_show(alloc, values),
        Subcommand::Json => Ok(Command::Json(value_of(alloc, values, &REGISTRY)?)),
    }
}

/// The command that the matches of the words name. Refused with `Usage` if they name none.
fn command_of(alloc: Global, matches: &ArgMatches<'_>) -> Result<Command, WordsFault>
    ensures named { IfOk result (IsNamed (subcommand_rows_of matches.now)) }
    ensures unnamed { IfErr result (NamesNone (subcommand_rows_of matches.now)) }
{
    let Some((name, values)) = matches.subcommand() else {
        return Err(WordsFault::Usage(format!(in alloc; "error: no subcommand\n")?));
    };
    match subcommand_named(name) {
        Some(subcommand) => read_command(alloc, subcommand, values),
        None => Err(WordsFault::Usage(format!(in alloc; "error: no subcommand {name}\n")?)),
    }
}

/// The fault of words that could not be parsed, by the kind of the parser's error and by its text, which `error`
/// displays (`D.output`): `Help` and `Version` where these are asked for, else `Usage`, or `OutOfMemory`.
fn fault_of<D: Display>(alloc: Global, kind: ErrorKind, error: &D) -> WordsFault
    ensures { IsFaultOf kind (D.output error.now) result }
{
    if kind == ErrorKind::OutOfMemory {
        return WordsFault::OutOfMemory;
    }
    let Ok(text) = format!(in alloc; "{error}") else {
        return WordsFault::OutOfMemory;
    };
    match kind {
        ErrorKind::DisplayHelp => WordsFault::Help(text),
        ErrorKind::DisplayVersion => WordsFault::Version(text),
        _ => WordsFault::Usage(text),
    }
}

/// Reads the words of the command line, of which the first is the program's name: `langtag`, `classify` and `zh-Hant` name
/// the command `Classify` of `zh-Hant`.
///
/// A request for help is answered by `Help` with its text, and one for the version by `Version` with its text. Any other
/// words that name no command are answered by `Usage` with a text that says why; `OutOfMemory` comes where memory runs out.
pub fn read_words(alloc: Global, words: &[String]) -> Result<Command, WordsFault>
    ensures read { IfOk result (Reads (map string_bytes words.now)) }
    ensures refused { IfErr result (IsRefused (map string_bytes words.now)) }
{
    let langtag = new_langtag(alloc)?;
    match langtag.try_get_matches_from(words) {
        Ok(matches) => command_of(alloc, &matches),
        Err(error) => Err(fault_of(alloc, error.kind(), &error)),
    }
}
