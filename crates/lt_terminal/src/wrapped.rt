//! Text for people: lines that fit a terminal, and numbers.
use std::alloc::{AllocError, Global};

/// The most bytes of a line: the program can't ask a terminal for its width, and 80 is the least that is usual; two
/// stay free.
const WIDTH: usize = 78;

/// Appends a text as lines of at most 78 bytes, each of which begins with `indent`. They are broken at spaces, so a
/// longer word has a line of its own.
pub(crate) fn append_wrapped(
    told: &mut Vec<u8>,
    indent: &str,
    text: &str,
) -> Result<(), AllocError> {
    let mut column = 0usize;
    for word in text.split(' ') {
        if column > 0 && column.saturating_add(word.len()) >= WIDTH {
            told.push(b'\n')?;
            column = 0;
        }
        let before = if column == 0 { indent } else { " " };
        told.extend_from_slice(before.as_bytes())?;
        told.extend_from_slice(word.as_bytes())?;
        column = column
            .saturating_add(before.len())
            .saturating_add(word.len());
    }
    told.push(b'\n')?;
    Ok(())
}

/// Appends a number in decimal, with a comma between thousands.
pub(crate) fn append_number(
    told: &mut Vec<u8>,
    alloc: Global,
    number: u64,
) -> Result<(), AllocError> {
    let text = format!(in alloc; "{number}")?;
    let digits = text.as_bytes();
    for (index, digit) in digits.iter().enumerate() {
        if index > 0 && digits.len().saturating_sub(index) % 3 == 0 {
            told.push(b',')?;
        }
        told.push(*digit)?;
    }
    Ok(())
}
