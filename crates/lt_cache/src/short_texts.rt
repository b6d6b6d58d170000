//! Texts of at most 32 bytes, taken and compared all at once.
ghost use Rattle.std.specs.Prelude.{◌≡◌, ◌≤◌, ◌<◌, ◌+◌, ◌↔◌, ◌++◌, length, take, IfSome, IsSome, IsTrue, OnOk, OnErr};
ghost use Rattle.lt_cache.specs.Padded.{padded};

use std::alloc::AllocError;
use std::marker::Model;
use std::simd::prelude::*;

/// The most bytes of a short text.
const MOST: usize = 32;

/// The number of each lane, a place for one of the 32 bytes that are handled at once.
const LANES: [u8; MOST] = [
    0, 1, 2, 3, 4, 5, 6, 7, 8, 9, 10, 11, 12, 13, 14, 15, 16, 17, 18, 19, 20, 21, 22, 23, 24, 25,
    26, 27, 28, 29, 30, 31,
];

/// A text of at most 32 bytes. Zeros follow it, so that two are compared without regard to their lengths.
#[derive(Drop)]
pub struct ShortText {
    bytes: [u8; MOST],
    count: u8,
}

// A contract sees the bytes that count; `padded` says that zeros follow them.
impl Model for ShortText {
    ghost use Rattle.std.specs.Prelude.{◌≡◌, ◌≤◌, ℕ, List, take, length};
    ghost use Rattle.lt_cache.specs.Padded.{padded};

    ghost Value = { List ℕ };

    ghost view = { λ text. take text.count text.bytes };

    ghost invariant = { λ text. (text.count ≤ 32) × (length text.bytes ≡ 32) × (text.bytes ≡ padded (take text.count text.bytes)) };
}

/// The first `count` bytes of a text, and zeros after them up to 32. The text must have at least 32 bytes, and `count` must
/// be at most 32.
#[inline(always)]
fn front_of_32(text: &[u8], count: usize) -> [u8; MOST]
    requires room { 32 ≤ length text.now }
    requires few { count ≤ 32 }
    ensures { result ≡ padded (take count text.now) }
{
    u8x32::from_array(LANES)
        .simd_lt(u8x32::splat(count as u8))
        .select(u8x32::from_slice(text), u8x32::splat(0))
        .to_array()
}

/// The bytes, and zeros after them up to 32. There must be at most 32 bytes.
fn pad(bytes: &[u8]) -> [u8; MOST]
    requires { length bytes.now ≤ 32 }
    ensures { result ≡ padded bytes.now }
{
    let mut padded = [0; MOST];
    padded[..bytes.len()].copy_from_slice(bytes);
    padded
}

impl ShortText {
    /// The first `count` bytes of a text, or None if they are more than 32. `count` must be at most the length of the
    /// text. Of a text with at least 32 bytes they are taken at once.
    #[inline(always)]
    pub fn front(text: &[u8], count: usize) -> Option<ShortText>
        requires { count ≤ length text.now }
        ensures same { IfSome result (λ front. front ≡ take count text.now) }
        ensures few { IsSome result ↔ (count ≤ 32) }
    {
        if count > MOST {
            return None;
        }
        let bytes = if text.len() < MOST {
            pad(&text[..count])
        } else {
            front_of_32(text, count)
        };
        Some(ShortText {
            bytes,
            count: count as u8,
        })
    }

    /// Whether two texts are the same.
    #[inline(always)]
    pub fn is(&self, other: &ShortText) -> bool
        ensures { IsTrue result ↔ (self.now ≡ other.now) }
    {
        let differ = u8x32::from_array(self.bytes).simd_ne(u8x32::from_array(other.bytes));
        self.count == other.count && differ.to_bitmask() == 0
    }

    /// A number of 24 bits by which texts are spread over the places of a table. A text always has the same number.
    #[inline(always)]
    pub(crate) fn hash(&self) -> usize {
        let words = u64x4::from_le_bytes(u8x32::from_array(self.bytes)).to_array();
        // Each word has a factor of its own, odd and of well mixed bits, so that the order of the words counts: 2⁶⁴
        // over the golden ratio, and three primes of the hash XXH64.
        let mixed = words[0].wrapping_mul(0x9e37_79b9_7f4a_7c15)
            ^ words[1].wrapping_mul(0xc2b2_ae3d_27d4_eb4f)
            ^ words[2].wrapping_mul(0x1656_67b1_9e37_79f9)
            ^ words[3].wrapping_mul(0x27d4_eb2f_1656_67c5);
        // A bit of a product depends on no higher bit of its word, so the upper 24 bits depend on the most.
        (mixed >> 40) as usize
    }

    /// Appends the text: all 32 bytes, which are then cut to its own, since a copy whose length is known takes
    /// no loop. The only refusal is running out of memory, which leaves what was there.
    #[inline(always)]
    pub fn append_to(&self, texts: &mut Vec<u8>) -> Result<(), AllocError>
        ensures appended { OnOk result (texts.new.items ≡ texts.old.items ++ self.now) }
        ensures kept { OnErr result (texts.new.items ≡ texts.old.items) }
    {
        let end = texts.len() + usize::from(self.count);
        texts.extend_from_slice(&self.bytes)?;
        texts.truncate(end);
        Ok(())
    }
}
