//! Traces: the steps that lead from a tag to another (RFC 5646, 4.5).
ghost use Rattle.std.specs.Prelude.{◌≡◌, ◌≢◌, IfOk, IfErr, OnOk};
ghost use Rattle.lt_registry.specs.Validity.{IsProper};
ghost use Rattle.lt_rewrite.specs.TagSteps.{AreEquivalent};
ghost use Rattle.lt_rewrite.specs.Labels.{IsTrace};
ghost use Rattle.lt_canon.specs.Traces.{IsValidTrace, IsTraceFault, IsFollowFault, trace_fault_name_of, of_invalid, no_trace_memory};

use crate::laws::{traces_have_one_end, traces_reach_their_end};
use lt_check::Checked;
use lt_registry::{Lookup, ValidFault, ValidRefusal, validate};
use lt_rewrite::{ApplyFault, Step, apply};
use lt_tag::{OutOfMemory, Tag};
use std::alloc::Global;
use thiserror::Error;

/// Steps one after another, and the tag to which they lead, as `explain` answers them.
#[derive(Debug, Drop, PartialEq, Eq)]
pub struct Trace {
    /// The steps in their order. There are none where a tag is its own canonical form.
    pub steps: Vec<Step>,
    /// The tag to which the last step leads.
    pub last: Tag,
}

/// Why a trace does not lead from a tag to its last tag.
#[derive(Clone, Copy, Debug, Drop, Error, PartialEq, Eq)]
pub enum TraceFault {
    /// The tag is not valid, for this fault (RFC 5646, 2.2.9).
    #[error("{0}: mend the subtag at this place, or take a registry by which it is valid")]
    Invalid(ValidFault),
    /// This step, counted from 1, is the first that does not lead on to a proper tag.
    #[error("step {0} does not lead on: mend it, or take the registry for which the trace was made")]
    NoSuchStep(usize),
    /// The steps lead to another tag than the last of the trace.
    #[error("the steps lead to another tag than the last: mend that, or the steps")]
    WrongEnd,
    /// Memory ran out.
    #[error("out of memory: free some, and ask again")]
    OutOfMemory,
}

impl TraceFault {
    /// The fault's name, as it is printed: `NoSuchStep`, `WrongEnd`, `OutOfMemory`, or, for a tag that is not valid,
    /// the name of its fault, such as `UnknownLanguage`.
    pub fn name(self) -> &'static str
        ensures { result.now ≡ trace_fault_name_of self }
    {
        match self {
            TraceFault::Invalid(fault) => fault.kind.name(),
            TraceFault::NoSuchStep(_) => "NoSuchStep",
            TraceFault::WrongEnd => "WrongEnd",
            TraceFault::OutOfMemory => "OutOfMemory",
        }
    }
}

/// So `?` makes the refusal of a tag that is not valid a fault of its trace; `from_gives` says which.
impl From<ValidRefusal> for TraceFault {
    ghost from_gives = { λ refused fault. fault ≡ of_invalid refused };

    fn from(refused: ValidRefusal) -> TraceFault {
        match refused {
            ValidRefusal::Fault(fault) => TraceFault::Invalid(fault),
            ValidRefusal::OutOfMemory => TraceFault::OutOfMemory,
        }
    }
}

impl From<OutOfMemory> for TraceFault {
    ghost from_gives = { λ _ fault. fault ≡ no_trace_memory };

    fn from(_error: OutOfMemory) -> TraceFault {
        TraceFault::OutOfMemory
    }
}

/// The tag to which steps lead one after another. Refused with `NoSuchStep` and the number, counted from 1, of the
/// first step that leads nowhere, or where memory runs out. The tag must be proper.
#[tactic(auto, using(crate::proofs::TraceLemmas::misstep_here))]
fn follow<L: Lookup>(alloc: Global, table: &L, tag: &Tag, steps: &[Step]) -> Result<Tag, TraceFault>
    requires { IsProper (L.listed table.now) tag.now }
    ensures ok { IfOk result (λ end. IsTrace (L.listed table.now) tag.now steps.now end) }
    ensures err { IfErr result (λ fault. IsFollowFault (L.listed table.now) tag.now steps.now fault) }
{
    let mut here = tag.copy(alloc)?;
    for (index, step) in steps.iter().enumerate() {
        here = match apply(alloc, table, &here, step) {
            Ok(next) => next,
            Err(ApplyFault::NoSuchStep) => return Err(TraceFault::NoSuchStep(index + 1)),
            Err(ApplyFault::OutOfMemory) => return Err(TraceFault::OutOfMemory),
        };
    }
    Ok(here)
}

/// Whether steps lead from a valid tag, one after another, to the last tag of the trace, which is then
/// equivalent to the tag. Each step is judged by its kind, its place and the number of its record.
///
/// - `Invalid`, with the fault that `validate` answers, if the tag is not valid.
/// - Else `NoSuchStep` with the number, counted from 1, of the first step that does not lead on.
/// - Else `WrongEnd` if the steps lead to another tag.
/// - `OutOfMemory` where memory runs out.
pub fn verify<L: Lookup>(
    alloc: Global,
    checked: &Checked<L>,
    tag: &Tag,
    trace: &Trace,
) -> Result<(), TraceFault>
    // `exact`: a right trace is refused only where memory runs out.
    ensures ok { OnOk result (IsValidTrace (L.listed checked.now) tag.now trace.now.steps.items trace.now.last) }
    ensures equivalent { OnOk result (AreEquivalent (L.listed checked.now) tag.now trace.now.last) }
    ensures err { IfErr result (λ fault. IsTraceFault (L.listed checked.now) tag.now trace.now.steps.items trace.now.last fault) }
    ensures exact { IfErr result (λ fault. fault ≢ no_trace_memory
        → IsValidTrace (L.listed checked.now) tag.now trace.now.steps.items trace.now.last → ⊥) }
{
    // These two do nothing but tell the proof that the steps have one end, which is equivalent to the tag.
    traces_reach_their_end();
    traces_have_one_end();
    let table = checked.table();
    validate(alloc, table, tag)?;
    // Does nothing but tell the proof the tag's shape, by which a tag without a fault is valid.
    let _ = tag.extensions();
    let end = follow(alloc, table, tag, &trace.steps)?;
    if end == trace.last {
        Ok(())
    } else {
        Err(TraceFault::WrongEnd)
    }
}
