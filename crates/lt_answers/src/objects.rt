//! The object that is answered to a text.
ghost use Rattle.std.specs.Prelude.{◌≡◌, ◌++◌, IfOk, OnOk, true, false};
ghost use Rattle.lt_answers.specs.Objects.{AppendsObject, AppendsOpening, opening};

use crate::answers::append_answer;
use crate::tags::append_tag;
use lt_canon::Checked;
use lt_registry::Lookup;
use lt_show::{
    append_first_name, append_first_string, append_next_null, append_next_string, append_null,
};
use lt_tag::OutOfMemory;
use simdutf8::basic::from_utf8;
use std::alloc::{AllocError, Global};

/// Appends the beginning of the object of a text that is UTF-8, as `true` says in the clause: `input` is the text, and
/// `bytes` is null.
fn append_text(objects: &mut Vec<u8>, text: &[u8]) -> Result<(), AllocError>
    ensures { OnOk result (objects.new.items ≡ objects.old.items ++ opening true text.now) }
{
    append_first_string(objects, b"input", text)?;
    append_next_null(objects, b"bytes")?;
    Ok(())
}

/// Appends the beginning of the object of bytes that are no UTF-8, as `false` says in the clause: `input` is null, and
/// `bytes` is their hexadecimal digits.
fn append_bytes(objects: &mut Vec<u8>, alloc: Global, bytes: &[u8]) -> Result<(), AllocError>
    ensures { OnOk result (objects.new.items ≡ objects.old.items ++ opening false bytes.now) }
{
    let digits = hex::encode(alloc, bytes)?;
    append_first_name(objects, b"input")?;
    append_null(objects)?;
    append_next_string(objects, b"bytes", digits.as_bytes())?;
    Ok(())
}

/// Appends the beginning of the object: the text, or its bytes if it is no UTF-8.
fn append_opening(objects: &mut Vec<u8>, alloc: Global, text: &[u8]) -> Result<(), AllocError>
    ensures { OnOk result (AppendsOpening text.now objects.old.items objects.new.items) }
{
    match from_utf8(text) {
        Ok(_) => append_text(objects, text),
        Err(_) => append_bytes(objects, alloc, text),
    }
}

/// Appends the object that is answered to a text, and tells whether the text is refused.
///
/// Its members are, in this order:
///
/// - `input`: the text, or null if it is no UTF-8.
/// - `bytes`: the hexadecimal digits of its bytes if it is no UTF-8, else null.
/// - `canonical`: its canonical text (RFC 5646, 4.5), or null if it is refused.
/// - `fault`: the name of the refusal, or null.
/// - `place`: the place of the fault, or null if the refusal names none.
/// - `variant`: the variant that steps can repeat, or null if the refusal names none.
/// - `class`, `language`, `extlangs`, `script`, `region`, `variants`, `extensions` and `private`: the parts of the tag that
///   the text is read as, in conventional case (RFC 5646, 2.1 and 2.1.1). A part that is not there is null or an empty array.
///
/// The call is refused only if memory runs out, after which a part of the object may have been appended.
#[tactic(auto, using(crate::proofs::ObjectLemmas::object_whole))]
pub fn append_object<L: Lookup>(
    objects: &mut Vec<u8>,
    alloc: Global,
    checked: &Checked<L>,
    text: &[u8],
) -> Result<bool, OutOfMemory>
    ensures { IfOk result (AppendsObject (L.listed checked.now) text.now objects.old.items objects.new.items) }
{
    append_opening(objects, alloc, text)?;
    let refused = append_answer(objects, alloc, checked, text)?;
    append_tag(objects, alloc, text)?;
    objects.push(b'}')?;
    Ok(refused)
}
