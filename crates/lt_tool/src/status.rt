//! The exit statuses of the program.
ghost use Rattle.std.specs.Prelude.{◌≡◌};
ghost use Rattle.lt_tool.specs.Codes.{code_of};

/// How a run of the program ended.
#[derive(Clone, Copy, Debug, PartialEq, Eq)]
pub enum Status {
    /// All that was asked for was done, help and the version included. If lines were to be selected, at least one was.
    Done = 0,
    /// A tag, a row or a record was refused, two tags are different, an explanation is wrong, or no line was selected.
    Refused = 1,
    /// A registry, a table of codes or an upgrade was refused.
    RegistryRefused = 2,
    /// The words are wrong: they name no command, they name a column that the heading of the input does not have
    /// exactly once, or they give a range or a header that is refused.
    Usage = 3,
    /// A file was not opened, a read or a write failed, there were too many reads, the input ends within the quotes of
    /// a CSV record, a row or a record is too long, the input is in UTF-16, or memory ran out.
    Failed = 4,
}

impl Status {
    /// The exit status, 0 to 4.
    pub fn code(self) -> u8
        ensures { result ≡ code_of self }
    {
        self as u8
    }
}
