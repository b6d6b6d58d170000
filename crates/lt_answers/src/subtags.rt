//! Arrays of subtags.
ghost use Rattle.std.specs.Prelude.{◌≡◌, ◌++◌, ◌∷◌, OnOk};
ghost use Rattle.lt_show.specs.Values.{member, member_text};
ghost use Rattle.lt_answers.specs.Parts.{subtags_value};

use lt_show::{append_comma, append_name, append_string};
use lt_subtag::Subtag;
use std::alloc::AllocError;

/// Appends the array of subtags.
#[tactic(auto, using(lt_show::proofs::ValueLemmas::commaed_more), unfolding(crate::specs::Parts::subtags_value))]
pub(crate) fn append_subtags(objects: &mut Vec<u8>, subtags: &[Subtag]) -> Result<(), AllocError>
    ensures { OnOk result (objects.new.items ≡ objects.old.items ++ subtags_value subtags.now) }
{
    objects.push(b'[')?;
    for (index, subtag) in subtags.iter().enumerate() {
        append_comma(objects, index)?;
        append_string(objects, subtag.bytes())?;
    }
    objects.push(b']')?;
    Ok(())
}

/// Appends a comma (44) and a member with this name, whose value is the array of these subtags.
pub(crate) fn append_next_subtags(
    objects: &mut Vec<u8>,
    name: &[u8],
    subtags: &[Subtag],
) -> Result<(), AllocError>
    ensures { OnOk result (objects.new.items ≡ objects.old.items ++ 44 ∷ member_text (member name.now (subtags_value subtags.now))) }
{
    append_name(objects, name)?;
    append_subtags(objects, subtags)?;
    Ok(())
}
