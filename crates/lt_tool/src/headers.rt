//! The Accept-Language header of a command line: it is read as preferences, or it is refused.
ghost use Rattle.std.specs.Prelude.{◌≡◌, IfOk, string_bytes};
ghost use Rattle.lt_tool.specs.Registries.{ByRegistry};
ghost use Rattle.lt_tool.specs.Selected as spec;
ghost use Rattle.lt_tool.specs.Selected.{IsHeaderFault, PlansServing};
ghost use Rattle.lt_tool.specs.Streams.{stream};

use crate::faults::{Fault, Role};
use crate::plans::Plan;
use crate::registries::{prepared, read_registry};
use lt_jar::Device;
use lt_range::{HeaderRefusal, header_preferences};
use lt_stream::ToolFault;
use std::alloc::{AllocError, Global};
use std::io::Read;

/// The line that tells of a refused header: the name of its fault and the number of the list element, for example
/// `! BadWeight element 2`. If each element is a range but one of the ranges is refused, no number is told:
/// `! ReplacementRepeats header`.
fn header_line(alloc: Global, refusal: &HeaderRefusal) -> Result<String, AllocError>
    ensures { IfOk result (λ line. string_bytes line ≡ spec.header_line refusal.now) }
{
    let name = refusal.name();
    match refusal {
        HeaderRefusal::NotAHeader(fault) => {
            let place = fault.place;
            format!(in alloc; "! {name} element {place}\n")
        }
        _ => format!(in alloc; "! {name} header\n"),
    }
}

/// The fault with which a run ends that refuses a header. It is wrong usage, with the line that tells of the refusal.
/// If memory ran out, for the header or for that line, the fault is `ToolFault::OutOfMemory` instead.
fn fault_of(alloc: Global, refusal: &HeaderRefusal) -> Fault
    ensures { IsHeaderFault refusal.now result }
{
    if let HeaderRefusal::OutOfMemory = refusal {
        return Fault::Run(ToolFault::OutOfMemory);
    }
    match header_line(alloc, refusal) {
        Ok(line) => Fault::Usage(line),
        Err(_) => Fault::Run(ToolFault::OutOfMemory),
    }
}

/// The plan to print the line of the input that is served for a header, by the registry of a file. Refused if the
/// registry or the header is, or memory runs out.
pub(crate) fn plan_serve<'a, F: Read>(
    alloc: Global,
    header: &[u8],
    file: &mut Device<F>,
) -> Result<Plan<'a>, Fault>
    ensures { ByRegistry (stream F.remaining file.old file.new) (PlansServing header.now) result }
{
    let checked = read_registry(alloc, Role::Only, file)?;
    let table = prepared(alloc, checked)?;
    match header_preferences(alloc, &table, header) {
        Ok(preferences) => Ok(Plan::Serve(table, preferences)),
        Err(refusal) => Err(fault_of(alloc, &refusal)),
    }
}
