//! Null, numbers, and the commas of arrays.
ghost use Rattle.std.specs.Prelude.{◌≡◌, ◌++◌, OnOk};
ghost use Rattle.std.specs.Fmt.{decimal};
ghost use Rattle.lt_show.specs.Values as spec;

use itoa::Buffer;
use std::alloc::AllocError;

/// Appends `null`.
pub fn append_null(texts: &mut Vec<u8>) -> Result<(), AllocError>
    ensures { OnOk result (texts.new.items ≡ texts.old.items ++ spec.null) }
{
    texts.extend_from_slice(b"null")
}

/// Appends a number in decimal digits (RFC 8259, 6).
pub fn append_number(texts: &mut Vec<u8>, number: u32) -> Result<(), AllocError>
    ensures { OnOk result (texts.new.items ≡ texts.old.items ++ decimal number) }
{
    texts.extend_from_slice(Buffer::new().format(number).as_bytes())
}

/// Appends what is before the value at `index`, counted from 0, of an array: nothing before the first value, and a comma before
/// any other (RFC 8259, 5).
pub fn append_comma(texts: &mut Vec<u8>, index: usize) -> Result<(), AllocError>
    ensures { OnOk result (texts.new.items ≡ texts.old.items ++ spec.comma_at index) }
{
    if index > 0 {
        texts.push(b',')?;
    }
    Ok(())
}
