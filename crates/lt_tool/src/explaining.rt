//! The explanation of a tag, printed line by line.
ghost use Rattle.std.specs.Prelude.{◌≡◌, ◌++◌, OnOk};
ghost use Rattle.lt_rewrite.specs.Labels.{IsTrace};
ghost use Rattle.lt_tool.specs.Runs as spec;
ghost use Rattle.lt_tool.specs.Runs.{ExplainsText};
ghost use Rattle.lt_tool.specs.Streams.{stream};
ghost use Rattle.lt_tool.specs.Written.{WritesLines};

use crate::answers::Answer;
use crate::faults::Fault;
use crate::status::Status;
use lt_canon::{Checked, ExplanationLines};
use lt_jar::Device;
use lt_registry::Lookup;
use lt_stream::{ToolFault, write_text};
use lt_tag::OutOfMemory;
use std::alloc::Global;
use std::io::Write;

/// Lines are written once this many bytes of them are there, 64 KiB, so that few writes are made and little memory is
/// held.
const FULL: usize = 65536;

/// Appends bytes. Refused where memory runs out.
fn append_bytes(lines: &mut Vec<u8>, bytes: &[u8]) -> Result<(), OutOfMemory>
    ensures { OnOk result (lines.new.items ≡ lines.old.items ++ bytes.now) }
{
    lines.extend_from_slice(bytes)?;
    Ok(())
}

/// Writes the bytes `head`, the lines of `left`, which is the part of an explanation that is still to be written, and
/// the bytes `tail`. Few of the lines are in memory at a time. The steps of `left` must lead, one after another, from
/// the tag that it has reached (`here`) to its last tag (`end`). Refused if a write fails or memory runs out.
pub(crate) fn write_lines<L: Lookup, O: Write>(
    alloc: Global,
    head: Vec<u8>,
    mut left: ExplanationLines<'_, L>,
    tail: &[u8],
    output: &mut Device<O>,
) -> Result<(), ToolFault>
    requires { IsTrace left.entries left.here left.steps left.end }
    ensures { WritesLines head.items left.entry tail.now (stream O.contents output.old output.new) result }
{
    let mut lines = head;
    while left.append_line(alloc, &mut lines)? {
        if lines.len() >= FULL {
            write_text(&lines, output)?;
            lines.clear();
        }
    }
    append_bytes(&mut lines, tail)?;
    write_text(&lines, output)
}

/// What a run came to that wrote an explanation: it is done, or it ended with the fault that stopped the writing.
fn written(end: Result<(), ToolFault>) -> Result<Answer, Fault>
    ensures { result ≡ spec.written end }
{
    match end {
        Ok(()) => Ok(Answer::Written(Status::Done)),
        Err(fault) => Err(Fault::Run(fault)),
    }
}

/// Writes the explanation of a text by a registry. If the text is no tag, or its tag has no canonical form, nothing is
/// written and the refusal is given. `Err` also if a write fails or memory runs out.
pub(crate) fn explain<L: Lookup, O: Write>(
    alloc: Global,
    checked: &Checked<L>,
    text: &[u8],
    output: &mut Device<O>,
) -> Result<Answer, Fault>
    ensures { ExplainsText (L.listed checked.now) text.now (stream O.contents output.old output.new) result }
{
    let left = ExplanationLines::new(alloc, checked, text)?;
    written(write_lines(alloc, Vec::new(alloc), left, b"", output))
}
