//! What a call does where a growth of memory is refused. `bench/growth.py` runs each test of a module
//! `growths` once for each growth in it, and refuses that one alone; the gate refuses none. So a call that
//! is not itself under test is made twice where it is refused.
use std::alloc::{AllocError, Global};
use std::fmt::Debug;

/// What a call answers, made again where it is refused.
#[macro_export]
macro_rules! again {
    ($call:expr) => {
        match $call {
            Err(_) => $call,
            made => made,
        }
    };
}

/// What a call answers, made again where it tells that a growth was refused. What it is lent it cannot change.
#[macro_export]
macro_rules! retried {
    ($call:expr, $refusal:pat) => {
        match $call {
            Err($refusal) => $call,
            made => made,
        }
    };
    ($call:expr, $refusal:pat if $is_meant:expr) => {
        match $call {
            Err($refusal) if $is_meant => $call,
            made => made,
        }
    };
}

/// A value in words.
pub fn shown<T: Debug>(alloc: Global, value: &T) -> Result<String, AllocError> {
    again!(format!(in alloc; "{value:?}"))
}

/// Whether a value is shown in these words.
pub fn is_shown<T: Debug>(alloc: Global, value: &T, words: &str) -> bool {
    matches!(shown(alloc, value), Ok(found) if found.as_str() == words)
}

/// Marks where calls begin that take no memory: `bench/growth.py` refuses this growth, which is larger
/// than any other, and each one after it.
pub fn mark(alloc: Global) {
    let _ = Vec::<u8>::with_capacity(alloc, 1 << 36);
}
