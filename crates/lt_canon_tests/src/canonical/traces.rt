//! Steps that lead from a tag to an end, or do not.
use lt_canon::{Trace, TraceFault, verify};
use lt_check::Checked;
use lt_registry::{Lookup, ValidFault, ValidFaultKind};
use lt_rewrite::{Step, StepKind};
use lt_tag::{TagFault, read_tag};
use lt_testing::{again, retried};
use std::alloc::Global;
use std::process::Abort;
use std::test::Fail;

/// The steps from `sgn-DD`, of which the first uses this record, and an end.
fn two_steps(alloc: Global, number: u32, last: &str) -> Result<Trace, TagFault> {
    let mut steps = Vec::new(alloc);
    steps.push(Step {
        kind: StepKind::Region,
        place: 2,
        number,
    })?;
    steps.push(Step {
        kind: StepKind::Whole,
        place: 1,
        number: 44,
    })?;
    Ok(Trace {
        steps,
        last: read_tag(alloc, last.as_bytes())?,
    })
}

/// The fault of an unknown language, the first subtag.
const UNKNOWN: TraceFault = TraceFault::Invalid(ValidFault {
    kind: ValidFaultKind::UnknownLanguage,
    place: 1,
});

/// Tags, the record of the first of two steps, the end, and what is said of the trace.
const TRACES: &[(&str, u32, &str, Result<(), TraceFault>)] = &[
    ("sgn-DD", 27, "gsg", Ok(())),
    ("sgn-DD", 27, "sgn-DE", Err(TraceFault::WrongEnd)),
    ("sgn-DD", 28, "gsg", Err(TraceFault::NoSuchStep(1))),
    ("fr", 27, "gsg", Err(UNKNOWN)),
];

/// Whether that is said of the two steps from a text's tag to the end.
fn is_verified<L: Lookup>(
    alloc: Global,
    checked: &Checked<L>,
    text: &str,
    number: u32,
    last: &str,
    wanted: Result<(), TraceFault>,
) -> Result<bool, Fail> {
    let tag = again!(read_tag(alloc, text.as_bytes()))?;
    let trace = again!(two_steps(alloc, number, last))?;
    let answer = retried!(
        verify(alloc, checked, &tag, &trace),
        TraceFault::OutOfMemory
    );
    Ok(answer == wanted)
}

/// Each trace is verified, or has the fault of its row.
pub(super) fn traces<L: Lookup>(
    rt: &impl Abort,
    alloc: Global,
    checked: &Checked<L>,
) -> Result<(), Fail> {
    for row in TRACES {
        let (text, number, last, wanted) = *row;
        assert!(rt;
            is_verified(alloc, checked, text, number, last, wanted)?,
            "{last}"
        );
    }
    assert!(rt; TraceFault::WrongEnd.name() == "WrongEnd" && UNKNOWN.name() == "UnknownLanguage");
    Ok(())
}
