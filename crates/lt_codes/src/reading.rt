//! Reading a table from a reader. `run_pieces` reads it, and hands its bytes piece by piece to a `Whole`, which keeps
//! them.
ghost use Rattle.std.specs.Prelude.{◌≡◌};
ghost use Rattle.lt_codes.specs.Reading as spec;
ghost use Rattle.lt_codes.specs.Reading.{EndsBytes, IsCutOff, IsWhole, ReadsTable};

use crate::codes::CodeTable;
use crate::faults::{TableFault, TableFaultKind};
use crate::tables::{LONGEST_TABLE, line_reached};
use lt_jar::Device;
use lt_stream::{Pieces, ToolFault, run_pieces};
use std::alloc::Global;
use std::io::Read;

/// The bytes that were read, up to the piece that makes them too many for a table, and with it.
#[derive(Drop)]
struct Whole {
    bytes: Vec<u8>,
}

impl Pieces<()> for Whole {
    type Answer = ();

    // Of the five arguments only two matter here: `read`, the bytes that were read, and `here`, this value now.
    ghost taken = { λ first start now read here. IsWhole read here };

    ghost stopped = { λ first start now read here result. IsCutOff read here result };

    ghost finished = { λ first start now read here result. EndsBytes read here result };

    /// Keeps the piece, and ends the run once the bytes are too many for a table.
    fn take_piece(
        &mut self,
        _alloc: Global,
        piece: &[u8],
        _output: &mut (),
    ) -> Result<Option<()>, ToolFault> {
        self.bytes.extend_from_slice(piece)?;
        if self.bytes.len() > LONGEST_TABLE {
            Ok(Some(()))
        } else {
            Ok(None)
        }
    }

    /// Does nothing: all bytes are kept.
    fn finish(&mut self, _alloc: Global, _output: &mut ()) -> Result<(), ToolFault> {
        Ok(())
    }
}

/// The fault of a table whose reading was ended by a fault of the run: `OutOfMemory`, or else `Read`.
fn kind_of(fault: ToolFault) -> TableFaultKind
    ensures { result ≡ spec.kind_of fault }
{
    match fault {
        ToolFault::OutOfMemory => TableFaultKind::OutOfMemory,
        _ => TableFaultKind::Read,
    }
}

impl CodeTable {
    /// The table that a reader gives: what [`CodeTable::from_bytes`] answers of all its bytes. Once they are too many
    /// for a table, no more is read. A read that fails is answered by `Read`, and running out of memory by
    /// `OutOfMemory`.
    pub fn read<R: Read>(alloc: Global, input: &mut Device<R>) -> Result<CodeTable, TableFault>
        ensures { ReadsTable R.remaining input.old input.new result }
    {
        let mut whole = Whole {
            bytes: Vec::new(alloc),
        };
        match run_pieces(alloc, &mut whole, input, &mut ()) {
            Ok(()) => CodeTable::from_bytes(alloc, &whole.bytes),
            Err(fault) => Err(TableFault {
                kind: kind_of(fault),
                line: line_reached(&whole.bytes),
            }),
        }
    }
}
