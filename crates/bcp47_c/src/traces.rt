//! Whether steps, given in numbers, are a trace: each leads on from the tag to which the one before it led, and the
//! last one leads to a tag that is given. The front of the numbers is the steps before the first numbers that are no
//! step.
ghost use Rattle.std.specs.Prelude.{◌≡◌, IfErr, OnOk};
ghost use Rattle.bcp47_c.specs.Traces as spec;
ghost use Rattle.bcp47_c.specs.Traces.{IsToldFault, TellsTrace};

use crate::numbers::{INVALID, NO_SUCH_STEP, OUT_OF_MEMORY, WRONG_END, valid_fault};
use crate::outcomes::{Said, ended};
use crate::steps::{StepNumbers, front_steps};
use bcp47::{Registry, Tag, Trace, TraceFault};
use std::alloc::Global;

/// The fault of a trace whose step number `next`, counted from 1, is no step. `fault` is that of the steps before it,
/// and is kept, unless it is WrongEnd: they lead to another tag than the given one. Then the fault is that there is no
/// step `next`.
fn of_front(fault: TraceFault, next: usize) -> TraceFault
    ensures { result ≡ spec.of_front fault next }
{
    match fault {
        TraceFault::WrongEnd => TraceFault::NoSuchStep(next),
        TraceFault::NoSuchStep(number) => TraceFault::NoSuchStep(number),
        TraceFault::Invalid(fault) => TraceFault::Invalid(fault),
        TraceFault::OutOfMemory => TraceFault::OutOfMemory,
    }
}

/// Checks that the steps that `told` stands for lead from a valid tag, one after another, to the tag `last`. Refused
/// with the first fault: the tag is not valid, a step does not lead on or is no step, or the steps lead elsewhere.
pub(crate) fn judge(
    alloc: Global,
    registry: &Registry,
    tag: &Tag,
    told: &[StepNumbers],
    last: Tag,
) -> Result<(), TraceFault>
    ensures trace { OnOk result (TellsTrace registry.now tag.now told.now last) }
    ensures fault { IfErr result (IsToldFault registry.now tag.now told.now last) }
{
    // The steps before the first numbers that are no step are judged first: a fault of theirs comes before it.
    let steps = front_steps(alloc, told)?;
    let count = steps.len();
    let judged = registry.verify(alloc, tag, &Trace { steps, last });
    if count == told.len() {
        return judged;
    }
    let next = count + 1;
    match judged {
        Ok(()) => Err(TraceFault::NoSuchStep(next)),
        Err(fault) => Err(of_front(fault, next)),
    }
}

/// What an outcome says of steps that are no trace: the status, with the number of the fault and its place if the tag
/// is not valid, and with the number of the step as the place if a step does not lead on.
pub(crate) fn trace_said(fault: TraceFault) -> Said
    ensures { result ≡ spec.trace_said fault }
{
    match fault {
        TraceFault::Invalid(fault) => Said {
            status: INVALID,
            detail: valid_fault(fault.kind),
            place: u64::from(fault.place),
        },
        TraceFault::NoSuchStep(number) => Said {
            status: NO_SUCH_STEP,
            detail: 0,
            place: number as u64,
        },
        TraceFault::WrongEnd => ended(WRONG_END),
        TraceFault::OutOfMemory => ended(OUT_OF_MEMORY),
    }
}
