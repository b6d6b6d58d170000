//! The members of an object that are the answer to a text: `canonical`, `fault`, `place` and `variant`.
ghost use Rattle.std.specs.Prelude.{◌≡◌, ◌++◌, ◌∷◌, Err, IfOk, Ok, OnOk, codes};
ghost use Rattle.std.specs.Fmt.{decimal};
ghost use Rattle.lt_show.specs.Strings.{string};
ghost use Rattle.lt_show.specs.Values.{member, member_text, more_members, or_null};
ghost use Rattle.lt_answers.specs.Objects.{AppendsAnswer, answer_members, place_of, variant_of};

use lt_canon::{Checked, TextRefusal, canonical_text};
use lt_registry::Lookup;
use lt_show::{append_name, append_next_null, append_next_string, append_number};
use lt_tag::OutOfMemory;
use std::alloc::{AllocError, Global};

/// Appends the members of the answer to a text that has a canonical text: `canonical` is that text, and the other members
/// are null.
#[tactic(auto, using(lt_show::proofs::ChainLemmas::four_members))]
fn append_canonical(objects: &mut Vec<u8>, canonical: &[u8]) -> Result<(), AllocError>
    ensures { OnOk result (objects.new.items ≡ objects.old.items ++ more_members (answer_members (Ok canonical.now))) }
{
    append_next_string(objects, b"canonical", canonical)?;
    append_next_null(objects, b"fault")?;
    append_next_null(objects, b"place")?;
    append_next_null(objects, b"variant")?;
    Ok(())
}

/// Appends a comma (44) and the member `place` with this place of a fault.
fn append_next_place(objects: &mut Vec<u8>, place: u32) -> Result<(), AllocError>
    ensures { OnOk result (objects.new.items ≡ objects.old.items ++ 44 ∷ member_text (member (codes "place") (decimal place))) }
{
    append_name(objects, b"place")?;
    append_number(objects, place)?;
    Ok(())
}

/// Appends a comma (44) and the member `place`: the place of the fault that a refusal names, or null if it names none.
fn append_place(objects: &mut Vec<u8>, refusal: &TextRefusal) -> Result<(), AllocError>
    ensures { OnOk result (objects.new.items ≡ objects.old.items ++ 44 ∷ member_text (member (codes "place") (or_null decimal (place_of refusal.now)))) }
{
    match refusal {
        TextRefusal::NotATag(fault) => append_next_place(objects, fault.place),
        TextRefusal::Invalid(fault) => append_next_place(objects, fault.place),
        TextRefusal::ReplacementRepeats(_) => append_next_null(objects, b"place"),
        TextRefusal::OutOfMemory => append_next_null(objects, b"place"),
    }
}

/// Appends a comma (44) and the member `variant`: the variant that steps can repeat, or null if the refusal names none.
fn append_variant(objects: &mut Vec<u8>, refusal: &TextRefusal) -> Result<(), AllocError>
    ensures { OnOk result (objects.new.items ≡ objects.old.items ++ 44 ∷ member_text (member (codes "variant") (or_null string (variant_of refusal.now)))) }
{
    match refusal {
        TextRefusal::ReplacementRepeats(variant) => {
            append_next_string(objects, b"variant", variant.bytes())
        }
        TextRefusal::NotATag(_) => append_next_null(objects, b"variant"),
        TextRefusal::Invalid(_) => append_next_null(objects, b"variant"),
        TextRefusal::OutOfMemory => append_next_null(objects, b"variant"),
    }
}

/// Appends the members of the answer to a text that is refused: `canonical` is null, `fault` is the name of the refusal,
/// and `place` and `variant` are what the refusal names, or null.
#[tactic(auto, using(lt_show::proofs::ChainLemmas::four_members))]
fn append_refusal(objects: &mut Vec<u8>, refusal: &TextRefusal) -> Result<(), AllocError>
    ensures { OnOk result (objects.new.items ≡ objects.old.items ++ more_members (answer_members (Err refusal.now))) }
{
    append_next_null(objects, b"canonical")?;
    append_next_string(objects, b"fault", refusal.name().as_bytes())?;
    append_place(objects, refusal)?;
    append_variant(objects, refusal)?;
    Ok(())
}

/// Appends the members of the answer to a text, which give its canonical text or why it has none. Tells whether the text is
/// refused. The call itself is refused only if memory runs out.
#[tactic(auto, using(crate::proofs::ObjectLemmas::answer_canonical, crate::proofs::ObjectLemmas::answer_refused))]
pub(crate) fn append_answer<L: Lookup>(
    objects: &mut Vec<u8>,
    alloc: Global,
    checked: &Checked<L>,
    text: &[u8],
) -> Result<bool, OutOfMemory>
    ensures { IfOk result (AppendsAnswer (L.listed checked.now) text.now objects.old.items objects.new.items) }
{
    match canonical_text(alloc, checked, text) {
        Ok(canonical) => {
            append_canonical(objects, &canonical)?;
            Ok(false)
        }
        Err(TextRefusal::OutOfMemory) => Err(OutOfMemory),
        Err(refusal) => {
            append_refusal(objects, &refusal)?;
            Ok(true)
        }
    }
}
