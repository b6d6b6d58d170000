//! What a person is told after a run. `registry` is the path that `@` means. `again` opens a file of the command
//! again, and must be callable at any time, with any path (`Q.IsAlwaysCallable`).

use crate::advice::{append_likely, append_refused};
use crate::hints::append_hint;
use crate::meanings::message_of;
use crate::records::told_place;
use crate::run::People;
use crate::table::{append_counts, append_shown, append_tallies};
use crate::wrapped::append_wrapped;
use lt_jar::Device;
use lt_stream::{ToolFault, write_text};
use lt_tag::read_tag;
use lt_tool::{Answer, Command, Fault, Outcome, Role, Status, Tags, path_of};
use std::alloc::{AllocError, Global};
use std::io::{self, Read, Write};

/// The most bytes of a registry in which a record is looked for: 16 MiB, some twenty times IANA's.
const MOST_READ: u64 = 16_777_216;

/// The name of what a command answers one by one: a line or a record.
fn unit_of(command: &Command) -> &'static str {
    match command {
        Command::Csv(_, _, _) => "record",
        _ => "line",
    }
}

/// Appends the message for the fault or the answer of this name. Appends nothing if there is none.
fn append_meaning(told: &mut Vec<u8>, name: &[u8]) -> Result<(), AllocError> {
    match message_of(name) {
        Some(message) => append_wrapped(told, "", message),
        None => Ok(()),
    }
}

/// The file of the registry that a command has in this role. None if it names no such file.
fn file_of(command: &Command, role: Role) -> Option<&str> {
    match role {
        Role::Only | Role::Older => command.first_file(),
        Role::Newer => command.second_file(),
    }
}

/// The file that a fault refuses: a registry or a table. None if it refuses none.
fn refused_file<'a>(command: &'a Command, fault: &Fault) -> Option<&'a str> {
    match fault {
        Fault::Registry(role, _) => file_of(command, *role),
        Fault::Table(_) => command.second_file(),
        _ => None,
    }
}

/// Appends the line that names a refused file: `The file is ` and its path. `name` is its name on the command line.
fn append_file(
    told: &mut Vec<u8>,
    command: &Command,
    registry: &str,
    name: &str,
) -> Result<(), AllocError> {
    told.extend_from_slice(b"The file is ")?;
    append_shown(
        told,
        path_of(name, command.reads_input(), registry).as_bytes(),
    )?;
    told.extend_from_slice(b".\n")
}

/// The text that a command reads as its only tag, or as the first of two. It is empty for any other command.
fn text_of(command: &Command) -> &str {
    match command {
        Command::Classify(tag) | Command::Extlang(_, tag) => tag.as_str(),
        Command::Explain(_, tag) | Command::Verify(_, tag) => tag.as_str(),
        Command::Equal(_, tag, _) => tag.as_str(),
        _ => "",
    }
}

/// Appends which of the two texts of `equal` is refused. Appends nothing for other commands.
fn append_which(told: &mut Vec<u8>, command: &Command, is_other: bool) -> Result<(), AllocError> {
    let Command::Equal(_, tag, other) = command else {
        return Ok(());
    };
    let (which, text) = if is_other {
        ("second", other)
    } else {
        ("first", tag)
    };
    told.extend_from_slice(b"The ")?;
    told.extend_from_slice(which.as_bytes())?;
    told.extend_from_slice(b" tag is refused: ")?;
    append_shown(told, text.as_bytes())?;
    told.push(b'\n')?;
    Ok(())
}

/// Appends what to do about the text that a fault refuses: which of two texts it is (`is_other` for the second), and
/// what the fault, whose name is `name`, means.
fn append_text(
    told: &mut Vec<u8>,
    command: &Command,
    is_other: bool,
    name: &str,
) -> Result<(), AllocError> {
    append_which(told, command, is_other)?;
    let text = match command {
        Command::Equal(_, _, other) if is_other => other.as_str(),
        _ => text_of(command),
    };
    append_refused(told, name.as_bytes(), text.as_bytes())
}

/// Appends what to do about a text of `show`, if it is no tag, or if its language or region is likely to be refused.
fn append_of_shown(told: &mut Vec<u8>, alloc: Global, text: &[u8]) -> Result<(), AllocError> {
    match read_tag(alloc, text) {
        Ok(_) => append_likely(told, text),
        Err(fault) => append_refused(told, fault.kind.name().as_bytes(), text),
    }
}

/// Appends what to do about the texts of `show`, one of which is refused.
fn append_shown_texts(told: &mut Vec<u8>, alloc: Global, tags: &Tags) -> Result<(), AllocError> {
    for text in &tags.texts {
        append_of_shown(told, alloc, text.as_bytes())?;
    }
    Ok(())
}

/// Appends what to do about language ranges that no line matched, for each whose language or region is likely to be
/// wrong.
fn append_ranges(told: &mut Vec<u8>, texts: &[String]) -> Result<(), AllocError> {
    for text in texts {
        append_likely(told, text.as_bytes())?;
    }
    Ok(())
}

/// The first bytes of the file with this path, 16 MiB at most, in which a record is looked for. None if the file can't
/// be opened or read, or memory runs out.
fn bytes_of<F: Read + Drop, Q: FnMut(&str) -> io::Result<F>>(
    alloc: Global,
    again: &mut Q,
    path: &str,
) -> Option<Vec<u8>>
    requires { Q.IsAlwaysCallable again.old }
{
    let file = again(path).ok()?;
    let mut bytes = Vec::new(alloc);
    let mut front = file.take(MOST_READ);
    front.read_to_end(&mut bytes).ok()?;
    Some(bytes)
}

/// The line that says what the record is that a fault names, and where it begins in its file, which is read again for
/// that. None if the fault names no record, the command has no such file, the file can't be opened and read again, the
/// record is not found in it, or memory runs out.
fn place_of<F: Read + Drop, Q: FnMut(&str) -> io::Result<F>>(
    alloc: Global,
    command: &Command,
    registry: &str,
    fault: &Fault,
    again: &mut Q,
) -> Option<String>
    requires { Q.IsAlwaysCallable again.old }
{
    let (role, number) = fault.record()?;
    let name = file_of(command, role)?;
    let path = path_of(name, command.reads_input(), registry);
    let bytes = bytes_of(alloc, again, path)?;
    told_place(alloc, &bytes, number)
}

/// Appends what a fault means, and what to do: which text or file is refused, or which file can't be opened, and why.
/// Appends nothing for wrong usage, whose text says all.
fn append_cause(
    told: &mut Vec<u8>,
    alloc: Global,
    command: &Command,
    registry: &str,
    fault: &Fault,
) -> Result<(), AllocError> {
    let Some(name) = fault.name() else {
        return Ok(());
    };
    match fault {
        Fault::Text(_) => return append_text(told, command, false, name),
        Fault::OtherText(_) => return append_text(told, command, true, name),
        _ => append_meaning(told, name.as_bytes())?,
    }
    if let Some(file) = refused_file(command, fault) {
        append_file(told, command, registry, file)?;
    }
    if let Fault::File(Some(line)) = fault {
        told.extend_from_slice(line.as_bytes())?;
        append_hint(told, alloc, command, registry, line.as_str())?;
    }
    Ok(())
}

/// Appends what is told of a fault: what it means, and what to do; and, if the fault names a record of a registry,
/// where it begins.
fn append_fault<F: Read + Drop, Q: FnMut(&str) -> io::Result<F>>(
    told: &mut Vec<u8>,
    alloc: Global,
    command: &Command,
    registry: &str,
    fault: &Fault,
    again: &mut Q,
) -> Result<(), AllocError>
    requires { Q.IsAlwaysCallable again.old }
{
    append_cause(told, alloc, command, registry, fault)?;
    if let Some(place) = place_of(alloc, command, registry, fault, again) {
        append_shown(told, place.as_bytes())?;
        told.push(b'\n')?;
    }
    Ok(())
}

/// Appends what is told of an answer: that a registry has no entry, or what to do about tags and ranges that may be refused.
fn append_of_answer(
    told: &mut Vec<u8>,
    alloc: Global,
    command: &Command,
    answer: &Answer,
) -> Result<(), AllocError> {
    match (command, answer) {
        (_, Answer::Entries(0, _)) => append_meaning(told, b"ok 0"),
        (Command::Show(_, tags), Answer::Written(Status::Refused)) => {
            append_shown_texts(told, alloc, tags)
        }
        (Command::Match(_, ranges), Answer::Written(Status::Refused)) => {
            append_ranges(told, &ranges.texts)
        }
        _ => Ok(()),
    }
}

/// The lines that a person is told of what a run of a command came to.
fn told_of<F: Read + Drop, Q: FnMut(&str) -> io::Result<F>>(
    alloc: Global,
    command: &Command,
    registry: &str,
    outcome: &Outcome,
    again: &mut Q,
) -> Result<Vec<u8>, AllocError>
    requires { Q.IsAlwaysCallable again.old }
{
    let unit = unit_of(command);
    let mut told = Vec::new(alloc);
    if let Ok(Answer::Lines(counts)) = &outcome.end {
        append_counts(&mut told, alloc, unit, *counts)?;
    }
    append_tallies(&mut told, alloc, unit, &outcome.tallies)?;
    match &outcome.end {
        Ok(answer) => append_of_answer(&mut told, alloc, command, answer)?,
        Err(fault) => append_fault(&mut told, alloc, command, registry, fault, again)?,
    }
    Ok(told)
}

/// Writes a text, up to the first write that fails, which the device counts.
pub(crate) fn say<T: Write>(text: &[u8], people: &mut Device<T>) {
    // A write that fails is counted by the device.
    let _ = write_text(text, people);
}

/// Whether a run ended because its output has no reader any more, as `is_unread` says.
fn is_left(outcome: &Outcome, is_unread: bool) -> bool {
    matches!(&outcome.end, Err(Fault::Run(ToolFault::Write))) && is_unread
}

/// Tells a person what a run of a command came to, if there is memory for it. Tells nothing if the output has no
/// reader any more.
pub(crate) fn tell<F: Read + Drop, Q: FnMut(&str) -> io::Result<F>, T: Write>(
    alloc: Global,
    command: &Command,
    registry: &str,
    outcome: &Outcome,
    people: &mut People<'_, T, Q>,
)
    requires { Q.IsAlwaysCallable people.old.again }
{
    if is_left(outcome, people.is_unread.get()) {
        return;
    }
    if let Ok(lines) = told_of(alloc, command, registry, outcome, &mut people.again) {
        say(&lines, &mut people.device);
    }
}
