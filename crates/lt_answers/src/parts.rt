//! The parts of `u` and `t` extensions.
ghost use Rattle.std.specs.Prelude.{◌≡◌, ◌++◌, ◌∷◌, OnOk, codes};
ghost use Rattle.lt_show.specs.Values.{array, member, member_text};
ghost use Rattle.lt_answers.specs.Parts.{field_value, keyword_value, transform_value, unicode_value};

use crate::sources::append_source;
use crate::subtags::append_next_subtags;
use lt_show::{append_comma, append_first_string, append_name};
use lt_tag::{Field, Keyword, OutOfMemory, TParts, UParts};
use std::alloc::{AllocError, Global};

/// Appends a keyword as an object of its key and its types.
#[tactic(auto, using(lt_show::proofs::ChainLemmas::two_object), unfolding(crate::specs::Parts::keyword_value))]
fn append_keyword(objects: &mut Vec<u8>, keyword: &Keyword) -> Result<(), AllocError>
    ensures { OnOk result (objects.new.items ≡ objects.old.items ++ keyword_value keyword.now) }
{
    append_first_string(objects, b"key", keyword.key.bytes())?;
    append_next_subtags(objects, b"types", &keyword.types)?;
    objects.push(b'}')?;
    Ok(())
}

/// Appends the array of keywords.
#[tactic(auto, using(lt_show::proofs::ValueLemmas::commaed_more))]
fn append_keywords(objects: &mut Vec<u8>, keywords: &[Keyword]) -> Result<(), AllocError>
    ensures { OnOk result (objects.new.items ≡ objects.old.items ++ array keyword_value keywords.now) }
{
    objects.push(b'[')?;
    for (index, keyword) in keywords.iter().enumerate() {
        append_comma(objects, index)?;
        append_keyword(objects, keyword)?;
    }
    objects.push(b']')?;
    Ok(())
}

/// Appends a comma (44) and the member `keywords`, the array of these keywords.
fn append_next_keywords(objects: &mut Vec<u8>, keywords: &[Keyword]) -> Result<(), AllocError>
    ensures { OnOk result (objects.new.items ≡ objects.old.items ++ 44 ∷ member_text (member (codes "keywords") (array keyword_value keywords.now))) }
{
    append_name(objects, b"keywords")?;
    append_keywords(objects, keywords)?;
    Ok(())
}

/// Appends a `u` extension as an object of these parts.
#[tactic(auto, using(lt_show::proofs::ChainLemmas::three_object), unfolding(crate::specs::Parts::unicode_value))]
pub(crate) fn append_unicode(objects: &mut Vec<u8>, parts: &UParts) -> Result<(), AllocError>
    ensures { OnOk result (objects.new.items ≡ objects.old.items ++ unicode_value parts.now) }
{
    append_first_string(objects, b"singleton", b"u")?;
    append_next_subtags(objects, b"attributes", &parts.attributes)?;
    append_next_keywords(objects, &parts.keywords)?;
    objects.push(b'}')?;
    Ok(())
}

/// Appends a field of a `t` extension as an object of its separator and its values.
#[tactic(auto, using(lt_show::proofs::ChainLemmas::two_object), unfolding(crate::specs::Parts::field_value))]
fn append_field(objects: &mut Vec<u8>, field: &Field) -> Result<(), AllocError>
    ensures { OnOk result (objects.new.items ≡ objects.old.items ++ field_value field.now) }
{
    append_first_string(objects, b"separator", field.separator.bytes())?;
    append_next_subtags(objects, b"values", &field.values)?;
    objects.push(b'}')?;
    Ok(())
}

/// Appends the array of fields.
#[tactic(auto, using(lt_show::proofs::ValueLemmas::commaed_more))]
fn append_fields(objects: &mut Vec<u8>, fields: &[Field]) -> Result<(), AllocError>
    ensures { OnOk result (objects.new.items ≡ objects.old.items ++ array field_value fields.now) }
{
    objects.push(b'[')?;
    for (index, field) in fields.iter().enumerate() {
        append_comma(objects, index)?;
        append_field(objects, field)?;
    }
    objects.push(b']')?;
    Ok(())
}

/// Appends a comma (44) and the member `fields`, the array of these fields.
fn append_next_fields(objects: &mut Vec<u8>, fields: &[Field]) -> Result<(), AllocError>
    ensures { OnOk result (objects.new.items ≡ objects.old.items ++ 44 ∷ member_text (member (codes "fields") (array field_value fields.now))) }
{
    append_name(objects, b"fields")?;
    append_fields(objects, fields)?;
    Ok(())
}

/// Appends a `t` extension as an object of these parts.
#[tactic(auto, using(lt_show::proofs::ChainLemmas::three_object), unfolding(crate::specs::Parts::transform_value))]
pub(crate) fn append_transform(
    objects: &mut Vec<u8>,
    alloc: Global,
    parts: &TParts,
) -> Result<(), OutOfMemory>
    ensures { OnOk result (objects.new.items ≡ objects.old.items ++ transform_value parts.now) }
{
    append_first_string(objects, b"singleton", b"t")?;
    append_source(objects, alloc, parts.source.as_ref())?;
    append_next_fields(objects, &parts.fields)?;
    objects.push(b'}')?;
    Ok(())
}
