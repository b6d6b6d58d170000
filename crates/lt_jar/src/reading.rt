//! The records of a whole text.
ghost use Rattle.std.specs.Prelude.{◌≡◌, ◌<◌, ◌≤◌, ◌+◌, ◌∷◌, ◌++◌, [], IfErr, IfOk, OnOk};
ghost use Rattle.lt_jar.specs.Records.{HasRecords, IsWithin};
ghost use Rattle.lt_jar.specs.Pieces.{fields_in};
ghost use Rattle.lt_jar.specs.Views.{IsFaultOf};
ghost use Rattle.lt_jar.specs.declared.faults.JarFaultKind.TheVariants as kinds;

use crate::engine::Engine;
use crate::faults::{JarFault, JarFaultKind};
use crate::jars::{Jar, Record};
use std::alloc::Global;

/// Puts the record that has ended at the end of `records`. The begun line and its number stay as they are. The number
/// must be at least 1, and fewer than 100,000 records, the most that a text may have, must have been counted. Refused
/// only where memory runs out, with the number of the line that ended the record, one less than the engine's.
fn push_record(
    alloc: Global,
    engine: &mut Engine,
    records: &mut Vec<Record>,
) -> Result<(), JarFault>
    requires behind_a_line { 1 ≤ engine.old.line }
    requires few { engine.old.ended < 100000 }
    ensures record { OnOk result (records.new.items ≡ records.old.items ++ fields_in engine.old ∷ []) }
    ensures memory { IfErr result (λ fault. (fault.kind ≡ kinds.OutOfMemory) × (fault.line + 1 ≡ engine.old.line)) }
    ensures begun { (fields_in engine.new ≡ []) × (engine.new.ended ≡ engine.old.ended + 1) }
    ensures same { (engine.new.partial.items ≡ engine.old.partial.items) × (engine.new.line ≡ engine.old.line) }
{
    match records.push(engine.take_record(alloc)) {
        Ok(()) => Ok(()),
        Err(_) => Err(JarFault {
            kind: JarFaultKind::OutOfMemory,
            line: engine.line() - 1,
        }),
    }
}

/// Reads a text in the record-jar format (RFC 5646, 3.1.1): its records in order, the header among them. The texts of
/// two records are parted by a line `%%`.
///
/// A line has at most 65,536 bytes, a text at most 100,000 records. If anything is wrong, the answer is the lowest
/// line at which it is, and of the faults of that line the first in the order of `JarFaultKind`. A line feed ends a
/// line, and lines are counted from 1. `OutOfMemory` comes with the line that was being read.
pub fn read_jar(alloc: Global, text: &[u8]) -> Result<Jar, JarFault>
    ensures records { IfOk result (HasRecords text.now) }
    ensures within { IfOk result (IsWithin text.now) }
    ensures fault { IfErr result (IsFaultOf text.now) }
{
    let mut engine = Engine::new(alloc);
    let mut records = Vec::new(alloc);
    let mut rest = text;
    loop {
        match engine.take(alloc, rest) {
            Ok(Some(after)) => {
                push_record(alloc, &mut engine, &mut records)?;
                rest = after;
            }
            Ok(None) => break,
            Err(kind) => return Err(JarFault {
                kind,
                line: engine.line(),
            }),
        }
    }
    match engine.finish(alloc) {
        Ok(true) => {
            push_record(alloc, &mut engine, &mut records)?;
            Ok(Jar { records })
        }
        Ok(false) => Ok(Jar { records }),
        Err(kind) => Err(JarFault {
            kind,
            line: engine.line(),
        }),
    }
}
