//! The run. In clauses `CalledAt P.FnMut` says what a call of the opener does; `stream` is a device before and after
//! the run, with what gives its bytes.
ghost use Rattle.std.specs.Prelude.{◌≡◌, false};
ghost use Rattle.std.specs.Fn.{CalledAt};
ghost use Rattle.lt_terminal.specs.People as spec;
ghost use Rattle.lt_terminal.specs.People.{RunsWords, is_asked};
ghost use Rattle.lt_tool.specs.Streams.{stream};

use crate::telling::tell;
use lt_jar::Device;
use lt_tool::{Command, Outcome, Streams, WordsFault, report, run_program};
use std::alloc::Global;
use std::cell::Cell;
use std::io::{self, Read, Write};

/// Who is told what a run came to.
#[derive(Drop)]
pub struct People<'a, T, Q> {
    /// Where they are told.
    pub device: Device<T>,
    /// Whether that is a terminal. If not, they are told only if the words ask for a summary.
    pub at_terminal: bool,
    /// Opens a file of the command again, in which a record of a registry is looked for.
    pub again: Q,
    /// Whether the output has no reader any more: then a write that failed needs no advice.
    pub is_unread: &'a Cell<bool>,
}

/// Whether people are told of the run of a command: at a terminal, or if the words ask for a summary.
fn is_told(at_terminal: bool, command: &Command) -> bool
    ensures { result ≡ spec.is_told at_terminal command.now }
{
    at_terminal || command.has_summary()
}

/// Tells people what the run of a command came to, if they are to be told; else their device and all else of `people`
/// stays as it was (the clause). `registry` is the path that `@` means. `people.again` must be callable at any time,
/// with any path.
fn tell_people<F: Read + Drop, Q: FnMut(&str) -> io::Result<F>, T: Write>(
    alloc: Global,
    command: &Command,
    registry: &str,
    outcome: &Outcome,
    people: &mut People<'_, T, Q>,
)
    requires { Q.IsAlwaysCallable people.old.again }
    ensures { spec.is_told people.old.at_terminal command.now ≡ false → people.new ≡ people.old }
{
    if !is_told(people.at_terminal, command) {
        return;
    }
    tell(alloc, command, registry, outcome, people);
}

/// Runs the program by its words as [`run_program`] does, and answers the exit status (`runs`). `registry` is the
/// path of the file that the name `@` means. `opener` and `people.again` must be callable at any time, with any path.
///
/// At a terminal, or where the words ask for a summary, it then tells people what the run came to; where nobody is
/// told, `people` stays as it was (`tells`). If all lines or records of `canon`, `codes`, `tsv` or `csv` were
/// answered, it tells how many there were and how many were refused. For each fault it tells how many it refused,
/// which was the first, and what to do. If something else was refused or failed, it tells what that means and what to
/// do, and which file was refused or can't be opened. If a record of a registry is at fault, it opens the file again,
/// and tells what the record is and where it begins.
pub fn run_for_people<
    F: Read + Drop,
    P: FnMut(&str) -> io::Result<F>,
    Q: FnMut(&str) -> io::Result<F>,
    I: Read,
    O: Write,
    E: Write,
    T: Write,
>(
    alloc: Global,
    words: Result<Command, WordsFault>,
    opener: &mut P,
    registry: &str,
    streams: &mut Streams<I, O, E>,
    people: &mut People<'_, T, Q>,
) -> u8
    requires opens { P.IsAlwaysCallable opener.old }
    requires again { Q.IsAlwaysCallable people.old.again }
    ensures runs { RunsWords (CalledAt P.FnMut) F.remaining words registry.now opener.old opener.new (stream I.remaining streams.old.input streams.new.input)
        (stream O.contents streams.old.output streams.new.output) (stream E.contents streams.old.errors streams.new.errors) result }
    ensures tells { is_asked people.old.at_terminal words ≡ false → people.new ≡ people.old }
{
    let command = match words {
        Ok(command) => command,
        Err(fault) => return report(alloc, fault, streams).status().code(),
    };
    let outcome = run_program(alloc, &command, opener, registry, streams);
    tell_people(alloc, &command, registry, &outcome, people);
    outcome.status().code()
}
