//! The command line of the program, as `clap` reads it. In the clauses `app_of` and `rule_of` are what `clap`'s
//! contracts see of a command and of an argument, which is all but the texts of help.
ghost use Rattle.std.specs.Prelude.{◌≡◌, false, IfOk, map};
ghost use Rattle.lt_words.specs.CommandLine.{langtag, program, rule_for, subcommand};
ghost use Rattle.clap.specs.declared.builder.command.Command.TheViews.{out-Command as fields_of};
ghost use Rattle.clap.specs.Words.{app_of, rule_of, with_subcommand};

use crate::helps::{self, Help};
use clap::{Arg, ArgAction, Command};
use std::alloc::{AllocError, Global};

/// How an argument is given.
#[derive(Clone, Copy)]
pub(crate) enum Form {
    /// By its place; it has to be there.
    Positional,
    /// By its place, as each of the words that are left; one has to be there.
    Repeated,
    /// By its place, as each of the words that are left, if there are any.
    Leftover,
    /// After two hyphens and this name, if it is there.
    Option(&'static str),
    /// As two hyphens and its name, without a value.
    Flag,
}

/// What a subcommand takes: the name, how it is given, and what it is.
pub(crate) struct Argument {
    pub(crate) name: &'static str,
    form: Form,
    help: &'static str,
}

// The arguments. Two may have the same `name`, as `TABLE` and `CODES` do, but no subcommand takes both.
pub(crate) static TAG: Argument = Argument {
    name: "TAG",
    form: Form::Positional,
    help: "A BCP 47 language tag",
};

pub(crate) static OTHER: Argument = Argument {
    name: "OTHER",
    form: Form::Positional,
    help: "Another BCP 47 language tag",
};

pub(crate) static REGISTRY: Argument = Argument {
    name: "REGISTRY",
    form: Form::Positional,
    help: "A registry in IANA's format, or @ for the installed one",
};

pub(crate) static TABLE: Argument = Argument {
    name: "TABLE",
    form: Form::Positional,
    help: "The table ISO-639-2_utf-8.txt of the Library of Congress",
};

pub(crate) static CODES: Argument = Argument {
    name: "TABLE",
    form: Form::Option("codes"),
    help: "Reads codes of ISO 639-2 too, by this table",
};

pub(crate) static COLUMN: Argument = Argument {
    name: "COLUMN",
    form: Form::Positional,
    help: "The field of the tags: a number from 1, or a heading's name",
};

pub(crate) static RANGE: Argument = Argument {
    name: "RANGE",
    form: Form::Leftover,
    help: "A language range (RFC 4647), for example de-CH or *, or a tag",
};

pub(crate) static OLD: Argument = Argument {
    name: "OLD",
    form: Form::Positional,
    help: "A registry in IANA's format, or @ for the installed one",
};

pub(crate) static NEW: Argument = Argument {
    name: "NEW",
    form: Form::Positional,
    help: "A newer registry in the same format",
};

pub(crate) static DELIMITER: Argument = Argument {
    name: "C",
    form: Form::Option("delimiter"),
    help: "The byte between fields, or tab; else a comma",
};

pub(crate) static HEADING: Argument = Argument {
    name: "heading",
    form: Form::Flag,
    help: "The first row is a heading, and has no tag",
};

pub(crate) static KEEP: Argument = Argument {
    name: "keep",
    form: Form::Flag,
    help: "Leaves each row as it is, and adds two fields",
};

pub(crate) static EXTENDED: Argument = Argument {
    name: "extended",
    form: Form::Flag,
    help: "Matches by extended filtering (RFC 4647, 3.3.2)",
};

pub(crate) static TAGS: Argument = Argument {
    name: "TAG",
    form: Form::Repeated,
    help: "A BCP 47 language tag",
};

pub(crate) static JSON: Argument = Argument {
    name: "json",
    form: Form::Flag,
    help: "Prints a line of JSON for each tag",
};

pub(crate) static LOOKUP: Argument = Argument {
    name: "lookup",
    form: Form::Flag,
    help: "Prints the one line that lookup finds (RFC 4647, 3.4)",
};

pub(crate) static ACCEPT: Argument = Argument {
    name: "HEADER",
    form: Form::Option("accept"),
    help: "Prints the line to serve for this Accept-Language header",
};

pub(crate) static SUMMARY: Argument = Argument {
    name: "summary",
    form: Form::Flag,
    help: "Says on standard error what was refused, and why",
};

/// What `--version` prints: the version, which tools/describe.py writes here, and the kits that prove and build the
/// program, by the number of their logic.
const VERSION: &str = "1.1.0 (rattle-kit-13 logic dac8208d650f15bf)";

/// The argument that is wanted, as the parser takes it: a positional, which is required, may be repeated, or both, an
/// option with a value, or a flag. By `local` it is not global: a global argument is one of each subcommand below too,
/// and `clap` states what a command is only if it has none.
fn new_argument<'a>(alloc: Global, wanted: &Argument) -> Arg<'a>
    ensures rule { rule_of result ≡ rule_for wanted.now.form wanted.now.name.now }
    ensures local { result.global ≡ false }
{
    let argument = Arg::new(alloc, wanted.name).help(wanted.help);
    match wanted.form {
        Form::Positional => argument.required(true).action(ArgAction::Set),
        Form::Repeated => argument.required(true).action(ArgAction::Append),
        Form::Leftover => argument.action(ArgAction::Append),
        Form::Option(name) => argument.long(name).action(ArgAction::Set),
        Form::Flag => argument.long(wanted.name).action(ArgAction::SetTrue),
    }
}

/// A subcommand with this name, help and arguments (`app`). None of them is global (`globals`), as `clap` asks of a
/// subcommand that is added.
fn new_subcommand<'a>(
    alloc: Global,
    name: &'a str,
    help: &'static Help,
    arguments: &[&'static Argument],
) -> Result<Command<'a>, AllocError>
    ensures app { IfOk result (λ r. app_of r ≡ subcommand name.entry.now (map (λ a. rule_for a.now.form a.now.name.now) arguments.now)) }
    ensures globals { IfOk result (λ r. (fields_of r).has_globals ≡ false) }
{
    let mut command = Command::new(alloc, name)
        .about(help.about)
        .after_help(help.after);
    for argument in arguments {
        command = command.arg(new_argument(alloc, argument))?;
    }
    Ok(command)
}

/// The program with its help and version, without its subcommands.
fn new_program<'a>(alloc: Global) -> Command<'a>
    ensures { app_of result ≡ program }
{
    Command::new(alloc, "langtag")
        .about(helps::LANGTAG.about)
        .version(VERSION)
        .after_help(helps::LANGTAG.after)
        .subcommand_required(true)
}

/// The program with one more subcommand, which has this name, help and arguments. In the clause `.top` is the
/// subcommand without subcommands of its own.
fn with_new<'a>(
    alloc: Global,
    program: Command<'a>,
    name: &'a str,
    help: &'static Help,
    arguments: &[&'static Argument],
) -> Result<Command<'a>, AllocError>
    ensures { IfOk result (λ r. app_of r ≡ with_subcommand (app_of program.entry)
        (subcommand name.entry.now (map (λ a. rule_for a.now.form a.now.name.now) arguments.now)).top) }
{
    program.subcommand(new_subcommand(alloc, name, help, arguments)?)
}

/// The program with all its subcommands, their help and their arguments.
pub(crate) fn new_langtag<'a>(alloc: Global) -> Result<Command<'a>, AllocError>
    ensures { IfOk result (λ r. app_of r ≡ langtag) }
{
    let program = new_program(alloc);
    let program = with_new(alloc, program, "classify", &helps::CLASSIFY, &[&TAG])?;
    let program = with_new(alloc, program, "check", &helps::CHECK, &[&REGISTRY])?;
    let arguments = &[&REGISTRY, &SUMMARY];
    let program = with_new(alloc, program, "canon", &helps::CANON, arguments)?;
    let arguments = &[&TABLE, &REGISTRY, &SUMMARY];
    let program = with_new(alloc, program, "codes", &helps::CODES, arguments)?;
    let arguments = &[&REGISTRY, &COLUMN, &HEADING, &KEEP, &CODES, &SUMMARY];
    let program = with_new(alloc, program, "tsv", &helps::TSV, arguments)?;
    let arguments = &[&REGISTRY, &COLUMN, &DELIMITER, &KEEP, &CODES, &SUMMARY];
    let program = with_new(alloc, program, "csv", &helps::CSV, arguments)?;
    let arguments = &[&REGISTRY, &RANGE, &EXTENDED, &LOOKUP, &ACCEPT];
    let program = with_new(alloc, program, "match", &helps::MATCH, arguments)?;
    let arguments = &[&REGISTRY, &TAG];
    let program = with_new(alloc, program, "extlang", &helps::EXTLANG, arguments)?;
    let arguments = &[&REGISTRY, &TAG, &OTHER];
    let program = with_new(alloc, program, "equal", &helps::EQUAL, arguments)?;
    let arguments = &[&REGISTRY, &TAG];
    let program = with_new(alloc, program, "explain", &helps::EXPLAIN, arguments)?;
    let arguments = &[&REGISTRY, &TAG];
    let program = with_new(alloc, program, "verify", &helps::VERIFY, arguments)?;
    let program = with_new(alloc, program, "upgrade", &helps::UPGRADE, &[&OLD, &NEW])?;
    let arguments = &[&REGISTRY, &TAGS, &JSON];
    let program = with_new(alloc, program, "show", &helps::SHOW, arguments)?;
    with_new(alloc, program, "json", &helps::JSON, &[&REGISTRY])
}
