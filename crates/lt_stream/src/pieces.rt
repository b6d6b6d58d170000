//! Runs over the bytes of a reader, piece by piece.
ghost use Rattle.std.specs.Prelude.{List, ℕ, [], Result, length};
ghost use Rattle.lt_stream.specs.Pieces.{FinishesPieces, HasRoom, RunsPieces, TakesPiece};
ghost use Rattle.lt_stream.specs.declared.faults.ToolFault.{ToolFault};

use crate::faults::ToolFault;
use lt_jar::Device;
use std::alloc::Global;
use std::io::Read;

/// The most reads of one run, so that a run ends even if its reader never does.
const MOST_READS: u32 = 10_000_000;

/// The most bytes that a read is asked for.
const PIECE: usize = 65536;

/// What takes the bytes of a reader, piece by piece, with an output of its own.
pub trait Pieces<O> {
    /// What is known at the end.
    type Answer;

    /// What is true while a run goes on, of five values: `self` at the beginning of the run, the output at the
    /// beginning and now, the bytes that were read, and `self` now.
    ghost taken: { Self → O → O → List ℕ → Self → Type 0 };

    /// What is true where a piece ends the run, of the values that `taken` relates and the result of the run.
    ghost stopped: { Self → O → O → List ℕ → Self → Result Self.Answer ToolFault → Type 0 };

    /// What is true where the reader has ended, of the values that `taken` relates and the result of the run.
    ghost finished: { Self → O → O → List ℕ → Self → Result Self.Answer ToolFault → Type 0 };

    /// Takes the next bytes. An answer, or a fault, ends the run; with None it goes on. The run must have read less
    /// than 2^63 bytes, these bytes counted too, so that 64 bits count its lines. That is so in each run of
    /// [`run_pieces`], since it makes at most 10,000,000 reads of at most 65,536 bytes.
    fn take_piece(
        &mut self,
        alloc: Global,
        piece: &[u8],
        output: &mut O,
    ) -> Result<Option<Self::Answer>, ToolFault>
        requires { HasRoom taken (length piece.now) output.old self.old }
        ensures { TakesPiece taken stopped piece.now output.old output.new self.old self.new result };

    /// Takes the end of the reader, and gives the answer, or a fault. The run must have read less than 2^63 bytes.
    fn finish(&mut self, alloc: Global, output: &mut O) -> Result<Self::Answer, ToolFault>
        requires { HasRoom taken 0 output.old self.old }
        ensures { FinishesPieces taken finished output.old output.new self.old self.new result };
}

/// Reads a reader, and hands its bytes to `pieces` until `take_piece` gives an answer, or else to the end of the
/// reader, where `finish` gives one. It gives this answer. What `taken` says must be true before the first read, with
/// no bytes read and the output unchanged.
///
/// - `Read`, if a read fails.
/// - `TooManyTurns`, if all 10,000,000 reads were made and the last gave bytes.
/// - `OutOfMemory`, if there is no memory for a piece.
/// - Any fault that `take_piece` or `finish` gives.
pub fn run_pieces<O, P: Pieces<O>, R: Read>(
    alloc: Global,
    pieces: &mut P,
    input: &mut Device<R>,
    output: &mut O,
) -> Result<P::Answer, ToolFault>
    requires { P.taken pieces.old output.old output.old [] pieces.old }
    ensures { RunsPieces (P.taken pieces.old) (P.stopped pieces.old) (P.finished pieces.old) R.remaining input.old input.new output.old output.new pieces.new result }
{
    let mut buffer = vec![in alloc; 0u8; PIECE]?;
    for _read in 0..MOST_READS {
        match input.read(&mut buffer) {
            Ok(0) => return pieces.finish(alloc, output),
            Ok(count) => {
                if let Some(answer) = pieces.take_piece(alloc, &buffer[..count], output)? {
                    return Ok(answer);
                }
            }
            Err(_) => return Err(ToolFault::Read),
        }
    }
    Err(ToolFault::TooManyTurns)
}
