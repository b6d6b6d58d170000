//! Runs over the lines of a text that may begin with a byte order mark. The front of the text, its first bytes, waits
//! while it may be a part of one.
ghost use Rattle.std.specs.Prelude.{◌≡◌, ◌<◌, ◌↔◌, ◌++◌, [], IfErr, IfOk, IsTrue, length};
ghost use Rattle.lt_rows.specs.Marks.{IsWide, MayBeMark};
ghost use Rattle.lt_stream.specs.Pieces.{HasRoom};
ghost use Rattle.lt_stream.specs.Lined.{IsTaken};
ghost use Rattle.lt_stream.specs.Texts.{IsRefusedFront, RunsOverText};
ghost use Rattle.lt_stream.specs.Begun as spec;

use crate::faults::ToolFault;
use crate::lines::{Lined, Lines};
use crate::pieces::{Pieces, run_pieces};
use lt_jar::Device;
use lt_rows::{is_wide, may_be_mark, split_mark};
use std::alloc::Global;
use std::io::{Read, Write};

/// Appends the next bytes of a text to its front (`added`), and tells whether all of them may still be a part of a byte
/// order mark (`waits`). If it doesn't refuse them, they begin with no mark of UTF-16 (`narrow`).
///
/// - `Utf16`, if they begin with a byte order mark of UTF-16.
/// - `OutOfMemory`, if memory runs out.
pub fn take_front(front: &mut Vec<u8>, piece: &[u8]) -> Result<bool, ToolFault>
    ensures added { IfOk result (λ _. front.new.items ≡ front.old.items ++ piece.now) }
    ensures waits { IfOk result (λ waits. IsTrue waits ↔ MayBeMark (front.old.items ++ piece.now)) }
    ensures narrow { IfOk result (λ _. IsWide (front.old.items ++ piece.now) → ⊥) }
    ensures refused { IfErr result (IsRefusedFront (front.old.items ++ piece.now)) }
{
    front.extend_from_slice(piece)?;
    if is_wide(front) {
        return Err(ToolFault::Utf16);
    }
    Ok(may_be_mark(front))
}

/// A text that comes in pieces and may begin with a byte order mark, and the answers to its lines.
#[derive(Drop)]
struct Text<A> {
    /// The first bytes, while they may be a part of a mark.
    front: Vec<u8>,
    /// Whether the front is known: its mark, if it has one, was passed over, and all bytes after it go to the lines.
    is_begun: bool,
    lined: Lined<A>,
}

impl<A: Lines> Text<A> {
    /// Passes over the byte order mark of the front, if there is one, and takes the bytes after it as lines. The run
    /// must have read less than 2^63 bytes, the front counted too, as `Lined::take_piece` requires. It gives None, or
    /// the fault that ends the run: a failed write, or lack of memory.
    fn begin<W: Write>(
        &mut self,
        alloc: Global,
        output: &mut Device<W>,
    ) -> Result<Option<()>, ToolFault>
        requires { HasRoom (λ first. IsTaken (A.answered first.answers) A.longest W.contents) (length self.old.front.items) output.old self.old.lined }
        ensures { spec.Begins A.answered A.longest W.contents self.old self.new output.old output.new result }
    {
        let (_, text) = split_mark(&self.front);
        self.is_begun = true;
        self.lined.take_piece(alloc, text, output)
    }
}

impl<A: Lines, W: Write> Pieces<Device<W>> for Text<A> {
    type Answer = ();

    /// Between two pieces the front waits, or the whole lines after the mark are answered, and all answers written.
    ghost taken = { λ first. spec.IsTakenText (A.answered first.lined.answers) A.longest W.contents };

    /// A piece ends the run only by a fault: a mark of UTF-16, a failed write, or lack of memory. In each case the
    /// first bytes of the answers are written, perhaps none.
    ghost stopped = { λ first start now read _ result. spec.StopsText (A.answered first.lined.answers) W.contents start now read result };

    /// At the end all lines after the mark are answered and all answers written, or a fault ended the run as above.
    ghost finished = { λ first. spec.FinishesText (A.answered first.lined.answers) W.contents };

    /// Answers the lines that the piece ends. The front waits until it is known whether it begins with a byte order
    /// mark. It gives None, or the fault that ends the run: `Utf16` for a mark of UTF-16, a failed write, or lack of
    /// memory.
    fn take_piece(
        &mut self,
        alloc: Global,
        piece: &[u8],
        output: &mut Device<W>,
    ) -> Result<Option<()>, ToolFault> {
        if self.is_begun {
            return self.lined.take_piece(alloc, piece, output);
        }
        if take_front(&mut self.front, piece)? {
            return Ok(None);
        }
        self.begin(alloc, output)
    }

    /// Answers a last line that has no line feed, and writes the answers. Refused if a write fails, or where memory
    /// runs out.
    fn finish(&mut self, alloc: Global, output: &mut Device<W>) -> Result<(), ToolFault> {
        if self.is_begun {
            return self.lined.finish(alloc, output);
        }
        self.begin(alloc, output)?;
        self.lined.finish(alloc, output)
    }
}

/// Answers the lines of a text as [`run_lines`](crate::run_lines) does, which requires the same. A byte order mark of
/// UTF-8 at its beginning is passed over, and one of UTF-16 is refused.
///
/// - `Utf16`, if the text begins with a byte order mark of UTF-16: nothing has been written.
/// - Every fault of [`run_lines`](crate::run_lines).
pub fn run_text<A: Lines + Drop, R: Read, W: Write>(
    alloc: Global,
    answers: A,
    input: &mut Device<R>,
    output: &mut Device<W>,
) -> (A, Result<(), ToolFault>)
    requires first { A.answered answers answers [] [] }
    requires some { 0 < A.longest }
    ensures { RunsOverText (A.answered answers) R.remaining W.contents input.old input.new output.old output.new result.0 result.1 }
{
    let mut text = Text {
        front: Vec::new(alloc),
        is_begun: false,
        lined: Lined::new(alloc, answers),
    };
    let end = run_pieces(alloc, &mut text, input, output);
    let Text {
        front: _,
        is_begun: _,
        lined,
    } = text;
    (lined.into_answers(), end)
}
