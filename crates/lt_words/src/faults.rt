//! Why words name no command.
ghost use Rattle.std.specs.Prelude.{◌≡◌};
ghost use Rattle.lt_words.specs.declared.faults.WordsFault.TheVariants.{OutOfMemory};

use std::alloc::AllocError;

/// Why the words name no command of the program.
#[derive(Debug, Drop)]
pub enum WordsFault {
    /// They ask for help, which is this text.
    Help(String),
    /// They ask for the version, which is this text.
    Version(String),
    /// They are wrong, as this text says.
    Usage(String),
    /// Memory ran out.
    OutOfMemory,
}

impl From<AllocError> for WordsFault {
    ghost from_gives = { λ _ fault. fault ≡ OutOfMemory };

    fn from(_error: AllocError) -> WordsFault {
        WordsFault::OutOfMemory
    }
}
