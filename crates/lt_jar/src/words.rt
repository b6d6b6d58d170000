//! Short texts compared by their first and last bytes, several at once.
ghost use Rattle.std.specs.Prelude.{◌≡◌, ◌↔◌, ◌+◌, ◌≤◌, length, take, drop, IsTrue};
ghost use Rattle.std.specs.Int.{from_le_bytes, w32, w64};

use memchr::arch::all::is_equal;

/// The four bytes from the index `at` on, as one number, which `are_same` compares. The text must have four bytes
/// there.
#[inline(always)]
fn four_at(bytes: &[u8], at: usize) -> u32
    requires { at + 4 ≤ length bytes.now }
    ensures { result ≡ from_le_bytes w32 (take 4 (drop at bytes.now)) }
{
    u32::from_le_bytes([bytes[at], bytes[at + 1], bytes[at + 2], bytes[at + 3]])
}

/// The eight bytes from the index `at` on, as one number, which `are_same` compares. The text must have eight bytes
/// there.
#[inline(always)]
fn eight_at(bytes: &[u8], at: usize) -> u64
    requires { at + 8 ≤ length bytes.now }
    ensures { result ≡ from_le_bytes w64 (take 8 (drop at bytes.now)) }
{
    u64::from_le_bytes([
        bytes[at],
        bytes[at + 1],
        bytes[at + 2],
        bytes[at + 3],
        bytes[at + 4],
        bytes[at + 5],
        bytes[at + 6],
        bytes[at + 7],
    ])
}

/// Whether two texts are the same bytes. Most have four to sixteen. These are compared by their first four or eight
/// bytes and by their last four or eight, each read as one number. The first and the last may overlap.
#[inline(always)]
pub(crate) fn are_same(one: &[u8], other: &[u8]) -> bool
    ensures { IsTrue result ↔ (one.now ≡ other.now) }
{
    let count = one.len();
    if count != other.len() {
        return false;
    }
    if count < 4 || 16 < count {
        return is_equal(one, other);
    }
    if count < 8 {
        four_at(one, 0) == four_at(other, 0) && four_at(one, count - 4) == four_at(other, count - 4)
    } else {
        eight_at(one, 0) == eight_at(other, 0)
            && eight_at(one, count - 8) == eight_at(other, count - 8)
    }
}
