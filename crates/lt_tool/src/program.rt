//! A run of the program, from its command to what it came to. The opener is a function that opens the files that a
//! command names. It must be callable at any time, with any path (`P.IsAlwaysCallable`). In clauses `CalledAt P.FnMut`
//! relates its state before a call, the path, its answer and its state after the call.
ghost use Rattle.std.specs.Prelude.{◌≡◌};
ghost use Rattle.std.specs.Fn.{CalledAt};
ghost use Rattle.std.specs.Option.{option_map};
ghost use Rattle.std.specs.IoError.{error_kind};
ghost use Rattle.lt_words.specs.Reading.{reads_input_of};
ghost use Rattle.lt_tool.specs.Performed.{Answers, Performs, PerformsTo};
ghost use Rattle.lt_tool.specs.Program.{AsksIf, EndsWords, IsFileFault, IsPath, OpensFile, OpensFiles, OpensNamed, Prepares, Reports, RunsProgram};
ghost use Rattle.lt_tool.specs.Streams.{stream};

use crate::answers::Answer;
use crate::faults::Fault;
use crate::outcomes::Outcome;
use crate::plans::make_plan;
use crate::printing::finish;
use crate::running::run;
use crate::streams::{Files, Source, Streams};
use lt_jar::Device;
use lt_lines::Tallies;
use lt_stream::ToolFault;
use lt_words::{Command, WordsFault};
use std::alloc::Global;
use std::io::{self, Read, Write};

/// The path of the standard input.
const INPUT_PATH: &str = "/dev/stdin";

/// The path of the file that a name on the command line means. `@` means the path `registry`. `-` means the standard
/// input, unless `is_taken` says that the command reads that for its lines. Every other name is a path, and so is a `-`
/// that is taken.
pub fn path_of<'a>(name: &'a str, is_taken: bool, registry: &'a str) -> &'a str
    ensures { IsPath is_taken registry.entry.now name.entry.now result.now }
{
    if name == "@" {
        registry
    } else if name == "-" && !is_taken {
        INPUT_PATH
    } else {
        name
    }
}

/// The fault of a file that can't be opened, with a line for people that says which file and why, if there is memory
/// for the line. If opening failed because memory ran out, the fault is `ToolFault::OutOfMemory`.
fn file_fault(alloc: Global, path: &str, error: &io::Error) -> Fault
    ensures { IsFileFault (error_kind error.now) result }
{
    match error.kind() {
        io::ErrorKind::OutOfMemory => Fault::Run(ToolFault::OutOfMemory),
        _ => Fault::File(format!(in alloc; "{path}: {error}\n").ok()),
    }
}

/// Opens the file that a name means. `is_taken` says whether the command reads the standard input for itself, and
/// `registry` is the path that `@` means. Refused if the opener gives an error.
fn open_named<F: Read + Drop, P: FnMut(&str) -> io::Result<F>>(
    alloc: Global,
    opener: &mut P,
    name: &str,
    is_taken: bool,
    registry: &str,
) -> Result<Source<F>, Fault>
    requires { P.IsAlwaysCallable opener.old }
    ensures { OpensNamed (CalledAt P.FnMut) opener.old opener.new is_taken registry.now name.now result }
{
    let path = path_of(name, is_taken, registry);
    match opener(path) {
        Ok(file) => Ok(Source::File(file)),
        Err(error) => Err(file_fault(alloc, path, &error)),
    }
}

/// Opens the file of this name. If there is no name, the opener is not called, and the source is empty. `is_taken` and
/// `registry` are as in `open_named`. Refused if the opener gives an error.
fn open_file<F: Read + Drop, P: FnMut(&str) -> io::Result<F>>(
    alloc: Global,
    opener: &mut P,
    name: Option<&str>,
    is_taken: bool,
    registry: &str,
) -> Result<Source<F>, Fault>
    requires { P.IsAlwaysCallable opener.old }
    ensures { OpensFile (CalledAt P.FnMut) opener.old opener.new is_taken registry.now (option_map (λ text. text.now) name.entry) result }
{
    match name {
        None => Ok(Source::Empty),
        Some(name) => open_named(alloc, opener, name, is_taken, registry),
    }
}

/// Opens the files that a command names, in the order in which they are read. `registry` is the path that `@` means.
/// Refused at the first file for which the opener gives an error.
fn open_files<F: Read + Drop, P: FnMut(&str) -> io::Result<F>>(
    alloc: Global,
    command: &Command,
    opener: &mut P,
    registry: &str,
) -> Result<Files<F>, Fault>
    requires { P.IsAlwaysCallable opener.old }
    ensures { OpensFiles (CalledAt P.FnMut) command.now registry.now opener.old opener.new result }
{
    let is_taken = command.reads_input();
    let first = open_file(alloc, opener, command.first_file(), is_taken, registry)?;
    let second = open_file(alloc, opener, command.second_file(), is_taken, registry)?;
    Ok(Files {
        first: Device::new(first),
        second: Device::new(second),
    })
}

/// If a command reads the input, makes one read of it into an empty buffer, to see whether it can be read. Refused with
/// `Read` if it can't, for example because it is closed.
fn ask<I: Read>(command: &Command, input: &mut Device<I>) -> Result<(), Fault>
    ensures { AsksIf (reads_input_of command.now) (stream I.remaining input.old input.new) result }
{
    if !command.reads_input() {
        return Ok(());
    }
    match input.read(&mut []) {
        Ok(_) => Ok(()),
        Err(_) => Err(Fault::Run(ToolFault::Read)),
    }
}

/// Opens the files that a command names; `registry` is the path that `@` means. If the command reads the input, a read
/// into an empty buffer is made first, to see that the input is not closed: a file that is opened would take the place
/// of a closed input. Refused if the input can't be read or the opener gives an error.
fn prepare<F: Read + Drop, P: FnMut(&str) -> io::Result<F>, I: Read>(
    alloc: Global,
    command: &Command,
    opener: &mut P,
    registry: &str,
    input: &mut Device<I>,
) -> Result<Files<F>, Fault>
    requires { P.IsAlwaysCallable opener.old }
    ensures { Prepares (CalledAt P.FnMut) command.now registry.now opener.old opener.new (stream I.remaining input.old input.new) result }
{
    ask(command, input)?;
    open_files(alloc, command, opener, registry)
}

/// Does what a command asks for, and gives its answer, which is still to be printed, or what was refused or failed. If
/// the command answers tags or rows, `tallies` is set to how many lines were refused for each fault.
fn answer_of<F: Read, I: Read, O: Write>(
    alloc: Global,
    command: &Command,
    files: &mut Files<F>,
    input: &mut Device<I>,
    output: &mut Device<O>,
    tallies: &mut Tallies,
) -> Result<Answer, Fault>
    ensures { Answers F.remaining command.now files.old files.new (stream I.remaining input.old input.new)
        (stream O.contents output.old output.new) tallies.old tallies.new result }
{
    let plan = make_plan(alloc, command, files, input)?;
    run(alloc, plan, input, output, tallies)
}

/// Does what a command asks for, as [`perform`] does, and gives the outcome instead of its exit status.
fn carry_out<F: Read, I: Read, O: Write, E: Write>(
    alloc: Global,
    command: &Command,
    files: &mut Files<F>,
    streams: &mut Streams<I, O, E>,
) -> Outcome
    ensures { Performs F.remaining command.now files.old files.new (stream I.remaining streams.old.input streams.new.input)
        (stream O.contents streams.old.output streams.new.output) (stream E.contents streams.old.errors streams.new.errors) result }
{
    let mut tallies = Tallies::new(alloc);
    let end = answer_of(
        alloc,
        command,
        files,
        &mut streams.input,
        &mut streams.output,
        &mut tallies,
    );
    let end = finish(alloc, end, &mut streams.output, &mut streams.errors);
    Outcome { end, tallies }
}

/// Does what a command asks for, and answers the exit status, 0 to 4.
///
/// `files` are those that the command names. A file that it does not name is left as it is, and so is the second file
/// if the first one is refused. A registry is read record by record, up to its end or the first line at fault. Most
/// answers are printed at once. `explain` prints its lines as they are made; `show` prints tag by tag, and the steps of
/// a tag as they are made. `canon`, `codes`, `tsv`, `csv` and `json` answer the lines or records of the input as they
/// come. `match` prints the lines of the input that a range matches, or the one that lookup finds or that is served for
/// a header. `verify` reads lines up to the first that settles its answer.
///
/// If a read of a file fails or is one too many, that is answered as a fault of the file. If a write to the output, a
/// read of the input or an allocation fails, or the input is at fault (it ends within quotes, for example), that is
/// named on the standard error. A write to the standard error that fails is counted by its device and changes nothing
/// else. A column that is given by its name is found in the heading of the input before a byte is written. If no column
/// has that name, or more than one has it, that is told on the standard error, and the status is 3. The status is 3 too
/// if a range or the header of `match` is refused; then no line is read.
pub fn perform<F: Read, I: Read, O: Write, E: Write>(
    alloc: Global,
    command: &Command,
    files: &mut Files<F>,
    streams: &mut Streams<I, O, E>,
) -> u8
    ensures { PerformsTo F.remaining command.now files.old files.new (stream I.remaining streams.old.input streams.new.input)
        (stream O.contents streams.old.output streams.new.output) (stream E.contents streams.old.errors streams.new.errors) result }
{
    let outcome = carry_out(alloc, command, files, streams);
    outcome.status().code()
}

/// Runs the program by a command, and gives what the run came to.
///
/// `opener` opens the files that the command names, in the order in which they are read: a registry before a table of
/// codes, and an older registry before a newer one. It must be callable at any time, with any path. A file that can't
/// be opened ends the run with `! File` on the standard error and the status 4. The name `@` is the file with the path
/// `registry`. The name `-` is the standard input, if the command doesn't read that. If it does, the input is read into
/// an empty buffer before a file is opened, since a file would take the place of a closed input. A closed input ends
/// the run with `! Read` on the standard error and the status 4. Then all is done as by [`perform`].
pub fn run_program<F: Read + Drop, P: FnMut(&str) -> io::Result<F>, I: Read, O: Write, E: Write>(
    alloc: Global,
    command: &Command,
    opener: &mut P,
    registry: &str,
    streams: &mut Streams<I, O, E>,
) -> Outcome
    requires { P.IsAlwaysCallable opener.old }
    ensures { RunsProgram (CalledAt P.FnMut) F.remaining command.now registry.now opener.old opener.new (stream I.remaining streams.old.input streams.new.input)
        (stream O.contents streams.old.output streams.new.output) (stream E.contents streams.old.errors streams.new.errors) result }
{
    match prepare(alloc, command, opener, registry, &mut streams.input) {
        Ok(mut files) => carry_out(alloc, command, &mut files, streams),
        Err(fault) => Outcome {
            end: finish(alloc, Err(fault), &mut streams.output, &mut streams.errors),
            tallies: Tallies::new(alloc),
        },
    }
}

/// What a run comes to if its words name no command. Help and the version are answers to be printed. Wrong usage and
/// lack of memory are faults.
fn end_of_words(fault: WordsFault) -> Result<Answer, Fault>
    ensures { EndsWords fault result }
{
    match fault {
        WordsFault::Help(text) => Ok(Answer::Text(text.into_bytes())),
        WordsFault::Version(text) => Ok(Answer::Text(text.into_bytes())),
        WordsFault::Usage(text) => Err(Fault::Usage(text)),
        WordsFault::OutOfMemory => Err(Fault::Run(ToolFault::OutOfMemory)),
    }
}

/// Says why the words are no command, and gives what the run came to (`ends`). The input is not read (`unread`). Help
/// and the version are printed; wrong usage and lack of memory are told on the standard error. The status is 0 for help
/// and the version, 3 for wrong usage, and 4 if memory ran out or a write to the standard output failed.
pub fn report<I, O: Write, E: Write>(
    alloc: Global,
    fault: WordsFault,
    streams: &mut Streams<I, O, E>,
) -> Outcome
    ensures ends { Reports fault (stream O.contents streams.old.output streams.new.output) (stream E.contents streams.old.errors streams.new.errors) result }
    ensures unread { streams.new.input ≡ streams.old.input }
{
    let end = end_of_words(fault);
    Outcome {
        end: finish(alloc, end, &mut streams.output, &mut streams.errors),
        tallies: Tallies::new(alloc),
    }
}
