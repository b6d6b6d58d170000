//! What the text of a tag is printed to: a vector of bytes, or the formatter of a `Display`. One code prints to both.
ghost use Rattle.std.specs.Prelude.{◌≡◌, ◌≤◌, ℕ, List, [], ◌++◌, OnOk, take};
ghost use Rattle.std.specs.Fmt.{HasWritten, IsPlainFormatter};
ghost use Rattle.lt_tag.specs.Keeping.{IsKept};

use crate::faults::OutOfMemory;
use std::fmt;

/// What takes a text, some bytes at a time.
pub(crate) trait Sink {
    /// Why bytes were not taken.
    type Refusal: Drop;

    /// Relates the sink before it took bytes, those bytes, and the sink after it.
    ghost took: { Self → List ℕ → Self → Type 0 };

    /// The bytes that it is known to hold; of a formatter none are known.
    ghost held: { Self → List ℕ };

    /// Takes bytes at the end. The sink still holds what it held before, even if it refuses the bytes: so `append_tag`
    /// can cut off what a refused call has added.
    fn add(&mut self, bytes: &[u8]) -> Result<(), Self::Refusal>
        ensures took { OnOk result (took self.old bytes.now self.new) }
        ensures kept { IsKept (held self.old) (held self.new) };

    /// Takes the first `count` of nine bytes, as `add` does. `count` must be at most 9. Nine bytes have room for a
    /// hyphen and a subtag.
    fn add_front(&mut self, bytes: &[u8; 9], count: usize) -> Result<(), Self::Refusal>
        requires { count ≤ 9 }
        ensures took { OnOk result (took self.old (take count bytes.now) self.new) }
        ensures kept { IsKept (held self.old) (held self.new) };
}

impl Sink for Vec<u8> {
    type Refusal = OutOfMemory;

    ghost took = { λ old bytes new. new.items ≡ old.items ++ bytes };

    ghost held = { λ text. text.items };

    /// Takes the bytes at the end.
    #[inline(always)]
    fn add(&mut self, bytes: &[u8]) -> Result<(), OutOfMemory> {
        Ok(self.extend_from_slice(bytes)?)
    }

    /// Takes all nine bytes, and then cuts them to their front, since a copy whose length is known takes no loop.
    #[inline(always)]
    fn add_front(&mut self, bytes: &[u8; 9], count: usize) -> Result<(), OutOfMemory> {
        let end = self.len() + count;
        self.extend_from_slice(bytes)?;
        self.truncate(end);
        Ok(())
    }
}

impl<W: fmt::Write> Sink for fmt::Formatter<W> {
    type Refusal = fmt::Error;

    // Nothing is said of a formatter with a width or another option.
    ghost took = { λ old bytes new. IsPlainFormatter old → HasWritten W.write_str_gives old bytes new };

    ghost held = { λ _. [] };

    /// Refuses bytes that are not UTF-8, and those that its writer refuses.
    fn add(&mut self, bytes: &[u8]) -> fmt::Result {
        let text = str::from_utf8(bytes).map_err(|_| fmt::Error)?;
        self.write_str(text)
    }

    /// Takes only the first `count` bytes.
    fn add_front(&mut self, bytes: &[u8; 9], count: usize) -> fmt::Result {
        self.add(&bytes[..count])
    }
}
