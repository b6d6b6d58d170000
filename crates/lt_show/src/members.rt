//! The members of objects of JSON, appended to the bytes `texts`.
ghost use Rattle.std.specs.Prelude.{◌≡◌, ◌++◌, ◌∷◌, [], OnOk};
ghost use Rattle.lt_show.specs.Strings.{string};
ghost use Rattle.lt_show.specs.Values as spec;

use crate::strings::append_string;
use crate::values::append_null;
use std::alloc::AllocError;

/// Appends the name of a member as a string, and the colon after it.
#[tactic(auto, unfolding(crate::specs::Values::named))]
fn append_named(texts: &mut Vec<u8>, name: &[u8]) -> Result<(), AllocError>
    ensures { OnOk result (texts.new.items ≡ texts.old.items ++ spec.named name.now) }
{
    append_string(texts, name)?;
    texts.push(b':')?;
    Ok(())
}

/// Appends the beginning of an object, from its brace (123) to the colon after the name of its first member (RFC 8259,
/// 4).
pub fn append_first_name(texts: &mut Vec<u8>, name: &[u8]) -> Result<(), AllocError>
    ensures { OnOk result (texts.new.items ≡ texts.old.items ++ 123 ∷ spec.named name.now) }
{
    texts.push(b'{')?;
    append_named(texts, name)?;
    Ok(())
}

/// Appends the name of a member that is not the first of its object, with the comma (44) before it and the colon after
/// it (RFC 8259, 4).
pub fn append_name(texts: &mut Vec<u8>, name: &[u8]) -> Result<(), AllocError>
    ensures { OnOk result (texts.new.items ≡ texts.old.items ++ 44 ∷ spec.named name.now) }
{
    texts.push(b',')?;
    append_named(texts, name)?;
    Ok(())
}

/// Appends the beginning of an object, from its brace (123) to the end of its first member, whose value is the string
/// of `text`.
pub fn append_first_string(texts: &mut Vec<u8>, name: &[u8], text: &[u8]) -> Result<(), AllocError>
    ensures { OnOk result (texts.new.items ≡ texts.old.items ++ 123 ∷ spec.member_text (spec.member name.now (string text.now))) }
{
    append_first_name(texts, name)?;
    append_string(texts, text)?;
    Ok(())
}

/// Appends a member that is not the first of its object, with the comma (44) before it. Its value is the string of
/// `text`.
pub fn append_next_string(texts: &mut Vec<u8>, name: &[u8], text: &[u8]) -> Result<(), AllocError>
    ensures { OnOk result (texts.new.items ≡ texts.old.items ++ 44 ∷ spec.member_text (spec.member name.now (string text.now))) }
{
    append_name(texts, name)?;
    append_string(texts, text)?;
    Ok(())
}

/// Appends a member that is not the first of its object, with the comma (44) before it. Its value is null.
pub fn append_next_null(texts: &mut Vec<u8>, name: &[u8]) -> Result<(), AllocError>
    ensures { OnOk result (texts.new.items ≡ texts.old.items ++ 44 ∷ spec.member_text (spec.member name.now spec.null)) }
{
    append_name(texts, name)?;
    append_null(texts)?;
    Ok(())
}
