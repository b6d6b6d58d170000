//! What a run came to.
ghost use Rattle.std.specs.Prelude.{◌≡◌};
ghost use Rattle.lt_tool.specs.Ends as spec;

use crate::answers::Answer;
use crate::faults::Fault;
use crate::status::Status;
use lt_lines::Tallies;

/// What a run came to, once all was printed.
#[derive(Drop)]
pub struct Outcome {
    /// The answer, or what was refused or failed.
    pub end: Result<Answer, Fault>,
    /// How many lines were refused for each fault. Only lines that are known to be answered are counted.
    pub tallies: Tallies,
}

impl Outcome {
    /// The status with which the run ended.
    pub fn status(&self) -> Status
        ensures { result ≡ spec.status_at self.now.end }
    {
        match &self.end {
            Ok(answer) => answer.status(),
            Err(fault) => fault.status(),
        }
    }
}
