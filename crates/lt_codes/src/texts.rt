//! Texts whose first subtag is replaced: a line that begins with a code of the table becomes the text of a tag.
ghost use Rattle.std.specs.Prelude.{◌≡◌, IfOk, MatchBool, length};
ghost use Rattle.lt_codes.specs.Codes.{first_subtag, registered_text};

use crate::codes::CodeTable;
use lt_rows::split_first;
use std::alloc::AllocError;

/// Where the first subtag of a text ends: at its first hyphen, or at its end.
fn first_end(text: &[u8]) -> usize
    ensures { result ≡ length (first_subtag text.now) }
{
    match split_first(b'-', text) {
        Some((first, _)) => first.len(),
        None => text.len(),
    }
}

impl CodeTable {
    /// Puts a text, with the subtag that is registered for its first subtag in the place of that one, into `buffer`,
    /// whose bytes it replaces: for `eng-US` it puts `en-US`. Tells whether the table has that first subtag as a code,
    /// whatever the case of its letters. If not, the buffer stays as it is: the clause says that the text itself would
    /// be put. Refused only where memory runs out; the buffer may have a part of the text then.
    pub fn replace(&self, text: &[u8], buffer: &mut Vec<u8>) -> Result<bool, AllocError>
        ensures { IfOk result (λ done. MatchBool done (buffer.new.items ≡ registered_text self.now text.now) (registered_text self.now text.now ≡ text.now)) }
    {
        let (first, rest) = text.split_at(first_end(text));
        let Some(registered) = self.registered(first) else {
            return Ok(false);
        };
        buffer.clear();
        buffer.extend_from_slice(registered.bytes())?;
        buffer.extend_from_slice(rest)?;
        Ok(true)
    }
}
