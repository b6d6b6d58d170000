//! The extensions of a tag as objects of JSON.
ghost use Rattle.std.specs.Prelude.{◌≡◌, ◌++◌, ◌∷◌, OnOk, codes};
ghost use Rattle.lt_tag.specs.Extensions.{transform, unicode};
ghost use Rattle.lt_show.specs.Values.{array, member, member_text};
ghost use Rattle.lt_answers.specs.Parts.{extension_value, plain_value};

use crate::parts::{append_transform, append_unicode};
use crate::subtags::append_next_subtags;
use lt_show::{append_comma, append_first_string, append_name};
use lt_tag::{Extension, OutOfMemory, TransformFault, split_t, split_u};
use std::alloc::{AllocError, Global};

/// Appends an extension as an object of its singleton and its subtags.
#[tactic(auto, using(lt_show::proofs::ChainLemmas::two_object), unfolding(crate::specs::Parts::plain_value))]
fn append_plain(objects: &mut Vec<u8>, extension: &Extension) -> Result<(), AllocError>
    ensures { OnOk result (objects.new.items ≡ objects.old.items ++ plain_value extension.now) }
{
    append_first_string(objects, b"singleton", &[extension.singleton()])?;
    append_next_subtags(objects, b"subtags", extension.subtags())?;
    objects.push(b'}')?;
    Ok(())
}

/// Appends a `t` extension as an object of its parts, or of its subtags if they do not have the form of RFC 6497, 2.2.
/// The singleton must be `t`, since `extension_value` takes these parts only then.
#[tactic(auto, using(crate::proofs::ExtensionLemmas::of_transform, crate::proofs::ExtensionLemmas::of_no_transform))]
fn append_t(objects: &mut Vec<u8>, alloc: Global, extension: &Extension) -> Result<(), OutOfMemory>
    requires { extension.now.singleton ≡ transform }
    ensures { OnOk result (objects.new.items ≡ objects.old.items ++ extension_value extension.now) }
{
    match split_t(alloc, extension) {
        Ok(parts) => append_transform(objects, alloc, &parts)?,
        Err(TransformFault::BadTransform) => append_plain(objects, extension)?,
        Err(TransformFault::OutOfMemory) => return Err(OutOfMemory),
    }
    Ok(())
}

/// Appends a `u` extension as an object of its parts: each `u` extension has them. The singleton must be `u`, since
/// `extension_value` takes these parts only then.
#[tactic(auto, using(crate::proofs::ExtensionLemmas::of_unicode))]
fn append_u(objects: &mut Vec<u8>, alloc: Global, extension: &Extension) -> Result<(), OutOfMemory>
    requires { extension.now.singleton ≡ unicode }
    ensures { OnOk result (objects.new.items ≡ objects.old.items ++ extension_value extension.now) }
{
    append_unicode(objects, &split_u(alloc, extension)?)?;
    Ok(())
}

/// Appends an extension as an object: a `u` or `t` extension of its parts, any other of its singleton and its subtags.
#[tactic(auto, using(crate::proofs::ExtensionLemmas::of_other))]
fn append_extension(
    objects: &mut Vec<u8>,
    alloc: Global,
    extension: &Extension,
) -> Result<(), OutOfMemory>
    ensures { OnOk result (objects.new.items ≡ objects.old.items ++ extension_value extension.now) }
{
    match extension.singleton() {
        b'u' => append_u(objects, alloc, extension),
        b't' => append_t(objects, alloc, extension),
        _ => {
            append_plain(objects, extension)?;
            Ok(())
        }
    }
}

/// Appends the array of extensions.
#[tactic(auto, using(lt_show::proofs::ValueLemmas::commaed_more))]
fn append_extensions(
    objects: &mut Vec<u8>,
    alloc: Global,
    extensions: &[Extension],
) -> Result<(), OutOfMemory>
    ensures { OnOk result (objects.new.items ≡ objects.old.items ++ array extension_value extensions.now) }
{
    objects.push(b'[')?;
    for (index, extension) in extensions.iter().enumerate() {
        append_comma(objects, index)?;
        append_extension(objects, alloc, extension)?;
    }
    objects.push(b']')?;
    Ok(())
}

/// Appends a comma (44) and the member `extensions`, the array of these extensions.
pub(crate) fn append_next_extensions(
    objects: &mut Vec<u8>,
    alloc: Global,
    extensions: &[Extension],
) -> Result<(), OutOfMemory>
    ensures { OnOk result (objects.new.items ≡ objects.old.items ++ 44 ∷ member_text (member (codes "extensions") (array extension_value extensions.now))) }
{
    append_name(objects, b"extensions")?;
    append_extensions(objects, alloc, extensions)?;
    Ok(())
}
