//! The words of the command line.
use lt_tool::{Command, WordsFault, read_words, word_text};
use std::alloc::{Alloc, AllocError};
use std::env::{Env, FillError};

/// The bytes of the word of this number, counted from 0, or None if there is none. The buffer, at first of 256 bytes,
/// is doubled as long as the word does not fit, so at most as often as a `usize` has bits. Refused with `OutOfMemory`
/// if memory runs out, or the word never fits.
fn word_bytes(rt: &HostRuntime, number: usize) -> Result<Option<Vec<u8>>, WordsFault> {
    let mut buffer = vec![in rt.alloc(); 0u8; 256]?;
    for _ in 0..usize::BITS {
        match rt.arg(number, &mut buffer) {
            Ok(count) => {
                buffer.truncate(count);
                return Ok(Some(buffer));
            }
            Err(FillError::NotPresent) => return Ok(None),
            Err(FillError::TooLong) => {
                let longer = buffer.len().saturating_mul(2);
                buffer.resize(longer, 0)?;
            }
        }
    }
    Err(WordsFault::OutOfMemory)
}

/// The words of the command line, of which the first is the program's name, or why they can't be had: one is not
/// UTF-8, or memory ran out.
fn words_given(rt: &HostRuntime) -> Result<Vec<String>, WordsFault> {
    let mut words = Vec::new(rt.alloc());
    for number in 0..usize::MAX {
        let Some(bytes) = word_bytes(rt, number)? else {
            break;
        };
        words
            .push(word_text(rt.alloc(), number, &bytes)?)
            .map_err(AllocError::from)?;
    }
    Ok(words)
}

/// The command that the words of the command line name, or why they name none.
pub(crate) fn command_given(rt: &HostRuntime) -> Result<Command, WordsFault> {
    let words = words_given(rt)?;
    read_words(rt.alloc(), &words)
}
