//! Steps beside those that a row names.
use lt_rewrite::{Step, StepKind};

/// A kind, a place and the number of a record.
pub type StepRow = (StepKind, u32, u32);

/// Whether steps have these kinds, places and records.
pub fn are_steps(steps: &[Step], rows: &[StepRow]) -> bool {
    for (index, step) in steps.iter().enumerate() {
        match rows.get(index) {
            Some(row) if (step.kind, step.place, step.number) == *row => {}
            _ => return false,
        }
    }
    steps.len() == rows.len()
}
