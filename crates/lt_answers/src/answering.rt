//! Answering the lines of a reader by objects.
ghost use Rattle.std.specs.Prelude.{◌≡◌, ◌||◌, IfOk};
ghost use Rattle.lt_answers.specs.Answering.{AnswersByObjects, AppendsLine, AreObjects, longest_line};

use crate::matching::without_return;
use crate::objects::append_object;
use lt_canon::Checked;
use lt_jar::Device;
use lt_registry::Lookup;
use lt_stream::{Lines, ToolFault, run_lines};
use lt_tag::OutOfMemory;
use std::alloc::Global;
use std::io::{Read, Write};

/// The most bytes of a line that are answered: 16 MiB, which bounds the memory for a line.
const LONGEST_LINE: usize = 16_777_216;

/// Appends to `lines` the object that answers `line`, and a line feed, and tells whether the line is refused. The call
/// itself is refused where memory runs out.
#[tactic(auto, using(crate::proofs::AnsweringLemmas::line_appended))]
fn append_line<L: Lookup>(
    lines: &mut Vec<u8>,
    alloc: Global,
    checked: &Checked<L>,
    line: &[u8],
) -> Result<bool, OutOfMemory>
    ensures { IfOk result (AppendsLine (L.listed checked.now) line.now lines.old.items lines.new.items) }
{
    let refused = append_object(lines, alloc, checked, without_return(line))?;
    lines.push(b'\n')?;
    Ok(refused)
}

/// Whether `first` or `second` is true, or both. It is a function so that its caller has one path.
fn either(first: bool, second: bool) -> bool
    ensures { result ≡ first || second }
{
    first || second
}

/// What answers the lines of a run by objects.
#[derive(Drop)]
struct Objects<'a, L: Lookup> {
    /// The table of the registry, which passes the check.
    checked: &'a Checked<L>,
    /// Whether a line was refused so far.
    refused: bool,
}

impl<'a, L: Lookup> Lines for Objects<'a, L> {
    ghost longest = { longest_line };

    /// The table is that of the beginning, the bytes are the objects for the lines, and `refused` tells whether one of
    /// the lines was refused.
    ghost answered = { λ first here lines bytes. (here.checked.now ≡ first.checked.now)
        × AreObjects (L.listed here.checked.now) lines bytes here.refused };

    /// The most bytes of a line that are answered.
    fn longest(&self) -> usize {
        LONGEST_LINE
    }

    /// Appends to `owed`, which the run writes later, the object that answers the line, and notes whether the line is
    /// refused.
    fn take_line(
        &mut self,
        alloc: Global,
        line: &[u8],
        owed: &mut Vec<u8>,
    ) -> Result<(), OutOfMemory> {
        let refused = append_line(owed, alloc, self.checked, line)?;
        self.refused = either(self.refused, refused);
        Ok(())
    }
}

/// Answers each line of a reader, in order, by an object of JSON (RFC 8259) and a line feed. [`append_object`] says what
/// the object has. Tells whether a line was refused, and how the run ended.
///
/// A line feed ends a line, and bytes after the last line feed are a line too. A line of more than 16,777,216 bytes is
/// answered by its first 16,777,216. A carriage return that ends what is answered is no part of the text. The objects for
/// the lines whose line feed was read are written before the next read.
///
/// - `Read`, if a read fails: the object for each line whose line feed was read has been written.
/// - `TooManyTurns`, if all 10,000,000 reads were made and the last gave bytes: the same objects have been written.
/// - `Write`, if a write fails or takes none of some bytes, and `OutOfMemory`, if memory runs out: the first bytes of
///   the objects have been written, perhaps none.
#[tactic(auto, using(crate::proofs::AnsweringLemmas::none_answered))]
pub fn write_objects<L: Lookup, R: Read, W: Write>(
    alloc: Global,
    checked: &Checked<L>,
    input: &mut Device<R>,
    output: &mut Device<W>,
) -> (bool, Result<(), ToolFault>)
    ensures { AnswersByObjects (L.listed checked.now) R.remaining W.contents input.old input.new output.old output.new result.0 result.1 }
{
    let objects = Objects {
        checked,
        refused: false,
    };
    let (objects, end) = run_lines(alloc, objects, input, output);
    (objects.refused, end)
}
