//! Steps in numbers, as C tells them.
ghost use Rattle.std.specs.Prelude.{IfOk};
ghost use Rattle.bcp47_c.specs.Steps.{IsFront, IsToldBy};

use crate::numbers::step_kind;
use bcp47::{OutOfMemory, Step};
use std::alloc::Global;

/// A step in numbers: that of its kind, its place, and the number of its record.
#[repr(C)]
#[derive(Clone, Copy, Drop)]
pub struct StepNumbers {
    /// The number of the kind, 1 to 14, whose name `bcp47_write_kind_name` writes.
    pub kind: u8,
    /// The place of the step: the subtag that changes, counted from 1.
    pub place: u32,
    /// The number of the record that the step uses; 0 where it uses none.
    pub number: u32,
}

/// The step that numbers tell, or None if the number of the kind is that of no kind of step.
fn step_of(told: StepNumbers) -> Option<Step>
    ensures { IsToldBy told result }
{
    let kind = step_kind(told.kind)?;
    Some(Step {
        kind,
        place: told.place,
        number: told.number,
    })
}

/// The steps that `told` stands for, up to the first numbers that stand for no step. Those are no refusal here, since a
/// fault of a step before them is to be answered first; the caller sees that there are some if the steps are fewer than
/// `told`. Refused only if memory runs out.
pub(crate) fn front_steps(alloc: Global, told: &[StepNumbers]) -> Result<Vec<Step>, OutOfMemory>
    ensures { IfOk result (λ steps. IsFront told.now steps.items) }
{
    let mut steps = Vec::new(alloc);
    for numbers in told {
        let Some(step) = step_of(*numbers) else {
            break;
        };
        steps.push(step)?;
    }
    Ok(steps)
}
