//! `Subtag::read` looks at the bytes of a piece, at most eight, all at once: with vectors, which have a lane for each
//! byte, and with masks, which have a bit for each lane.
ghost use Rattle.std.specs.Prelude.{◌≡◌, ◌≤◌, ◌<◌, true, false, length, take, IfSome, IfNone};
ghost use Rattle.std.specs.List.{list_all, prefix_len};
ghost use Rattle.std.specs.Char.{is_ascii_alphanumeric};
ghost use Rattle.lt_subtag.specs.Bytes.{folded};
ghost use Rattle.lt_subtag.specs.Lanes.{padded, first_set};

use std::simd::prelude::*;

/// The index, from 0, of the lowest bit set in the mask of a vector of `lanes` lanes, or `lanes` if none is.
#[inline(always)]
fn first_set(mask: u64, lanes: usize) -> usize
    ensures { result ≡ first_set mask lanes }
{
    if mask == 0 {
        lanes
    } else {
        mask.trailing_zeros() as usize
    }
}

/// The bytes, of which there must be at most eight, and then zeros: eight bytes in all.
#[inline(always)]
fn pad(bytes: &[u8]) -> [u8; 8]
    requires { length bytes.now ≤ 8 }
    ensures { result ≡ padded bytes.now }
{
    let mut letters = [0; 8];
    letters[..bytes.len()].copy_from_slice(bytes);
    letters
}

/// How many of the first eight bytes of a text come before the first that is neither a letter nor a digit; 8 if there
/// is none. The text must have at least eight bytes.
#[inline(always)]
fn run_of_8(text: &[u8]) -> usize
    requires { 8 ≤ length text.now }
    ensures { result ≡ prefix_len is_ascii_alphanumeric (take 8 text.now) }
{
    let v = u8x8::from_slice(text);
    // Bit 0x20 makes a capital a small letter. The differences wrap, so only letters are below 26, and only digits
    // below 10.
    let no_letter = ((v | u8x8::splat(0x20)) - u8x8::splat(b'a')).simd_ge(u8x8::splat(26));
    let no_digit = (v - u8x8::splat(b'0')).simd_ge(u8x8::splat(10));
    first_set((no_letter & no_digit).to_bitmask(), 8)
}

/// The first eight bytes of a text, which must have at least eight, with their letters in lower case.
#[inline(always)]
fn fold_8(text: &[u8]) -> [u8; 8]
    requires { 8 ≤ length text.now }
    ensures { result ≡ folded (take 8 text.now) }
{
    let v = u8x8::from_slice(text);
    // The difference wraps, so only a capital is below 26. Bit 0x20 makes a capital a small letter.
    let no_capital = (v - u8x8::splat(b'A')).simd_ge(u8x8::splat(26));
    no_capital.select(v, v | u8x8::splat(0x20)).to_array()
}

/// The bytes with their letters in lower case, and zeros after them up to eight. There must be at most eight bytes.
/// None if one is neither a letter nor a digit.
#[inline(always)]
pub(crate) fn fold(bytes: &[u8]) -> Option<[u8; 8]>
    requires { length bytes.now ≤ 8 }
    ensures good { IfSome result (λ letters. list_all is_ascii_alphanumeric bytes.now ≡ true) }
    ensures folded { IfSome result (λ letters. letters ≡ padded (folded bytes.now)) }
    ensures bad { IfNone result (list_all is_ascii_alphanumeric bytes.now ≡ false) }
{
    let padded = pad(bytes);
    if run_of_8(&padded) < bytes.len() {
        return None;
    }
    Some(fold_8(&padded))
}
