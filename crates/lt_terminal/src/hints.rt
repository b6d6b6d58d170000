//! What to write where a file can't be opened.

use crate::advice::first_subtag;
use lt_tag::read_tag;
use lt_tool::{Command, path_of};
use std::alloc::{AllocError, Global};

/// What is said where the file can't be opened that `@` means.
const OF_REGISTRY: &str =
    "@ is the registry that LANGTAG_REGISTRY names, or else the installed one.\n";

/// Whether a text may be meant as a tag and not as the name of a file: it is a tag, and begins with a language of at
/// most 3 letters, as registered languages do.
fn is_likely_tag(alloc: Global, text: &[u8]) -> bool {
    first_subtag(text).len() <= 3 && read_tag(alloc, text).is_ok()
}

/// The words of a command that reads `text` as a tag, by the registry `@`; it was given in the place of the registry of
/// `command`. None if the text is no likely tag, there is no such form for the command, or memory runs out.
fn right_words(alloc: Global, command: &Command, text: &str) -> Option<String> {
    if !is_likely_tag(alloc, text.as_bytes()) {
        return None;
    }
    match command {
        Command::Canon(_) => format!(in alloc; "echo {text} | langtag canon @").ok(),
        Command::Json(_) => format!(in alloc; "echo {text} | langtag json @").ok(),
        Command::Show(_, _) => format!(in alloc; "langtag show @ {text}").ok(),
        Command::Check(_) => format!(in alloc; "langtag show @ {text}").ok(),
        _ => None,
    }
}

/// Whether a line says that the file with this path can't be opened: the path and a colon begin it.
fn is_of_file(line: &str, path: &str) -> bool {
    match line.strip_prefix(path) {
        Some(rest) => rest.starts_with(": "),
        None => false,
    }
}

/// Appends what to write if the first file of a command can't be opened, as `line` says: what `@` means, if that was
/// given; or the words by which the name is read as a tag, if it may be one. Appends nothing for any other file.
/// `registry` is the path that `@` means.
pub(crate) fn append_hint(
    told: &mut Vec<u8>,
    alloc: Global,
    command: &Command,
    registry: &str,
    line: &str,
) -> Result<(), AllocError> {
    let Some(name) = command.first_file() else {
        return Ok(());
    };
    if !is_of_file(line, path_of(name, command.reads_input(), registry)) {
        return Ok(());
    }
    if name == "@" {
        return told.extend_from_slice(OF_REGISTRY.as_bytes());
    }
    if let Some(words) = right_words(alloc, command, name) {
        told.extend_from_slice(b"If ")?;
        told.extend_from_slice(name.as_bytes())?;
        told.extend_from_slice(b" is meant as a tag, write\n  ")?;
        told.extend_from_slice(words.as_bytes())?;
        told.push(b'\n')?;
    }
    Ok(())
}
