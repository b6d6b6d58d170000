//! The answer of a run that was able to do what its command asks for.
ghost use Rattle.std.specs.Prelude.{◌≡◌};
ghost use Rattle.lt_tool.specs.Answers as spec;

use crate::status::Status;
use lt_lines::Counts;

/// The answer of a run that was able to do what its command asks for. It says what is still to be printed, and with
/// which status the run ends.
#[derive(Drop)]
pub enum Answer {
    /// These lines are printed.
    Text(Vec<u8>),
    /// Whether two tags are equivalent.
    Equal(bool),
    /// An explanation is right, or a registry upgrades another one.
    Passed,
    /// A registry passes the check. It has this many entries, and the line says so.
    Entries(usize, Vec<u8>),
    /// The lines of the input were answered: how many there were, and how many of them were refused.
    Lines(Counts),
    /// All that is to be printed was written already, and the run ends with this status.
    Written(Status),
}

/// The status of a run: `Refused` if it refused something, and `Done` if not.
pub(crate) fn status_if(refused: bool) -> Status
    ensures { result ≡ spec.status_if refused }
{
    if refused {
        Status::Refused
    } else {
        Status::Done
    }
}

impl Answer {
    /// What is printed for the answer at the end of a run: nothing for `Lines` and `Written`, whose output was written
    /// already.
    pub(crate) fn line(&self) -> &[u8]
        ensures { result.now ≡ spec.line_of self.now }
    {
        match self {
            Answer::Text(line) => line.as_slice(),
            Answer::Equal(true) => b"equal\n".as_slice(),
            Answer::Equal(false) => b"different\n".as_slice(),
            Answer::Passed => b"ok\n".as_slice(),
            Answer::Entries(_, line) => line.as_slice(),
            Answer::Lines(_) | Answer::Written(_) => b"".as_slice(),
        }
    }

    /// How the run ends: as done, or as refused if a line or a tag was refused, two tags are different, or no line was
    /// selected.
    pub fn status(&self) -> Status
        ensures { result ≡ spec.status_of self.now }
    {
        match self {
            Answer::Text(_) | Answer::Passed | Answer::Entries(_, _) => Status::Done,
            Answer::Equal(true) => Status::Done,
            Answer::Equal(false) => Status::Refused,
            Answer::Lines(counts) if counts.refused == 0 => Status::Done,
            Answer::Lines(_) => Status::Refused,
            Answer::Written(status) => *status,
        }
    }
}
