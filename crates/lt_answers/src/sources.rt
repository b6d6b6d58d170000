//! The texts of the sources of `t` extensions.
ghost use Rattle.std.specs.Prelude.{◌≡◌, ◌++◌, ◌∷◌, IfOk, OnOk, codes, option_copied};
ghost use Rattle.std.specs.Option.{option_to_list};
ghost use Rattle.lt_show.specs.Values.{member, member_text, or_null};
ghost use Rattle.lt_answers.specs.Parts.{after_hyphens, source_text, source_value};

use lt_show::{append_next_null, append_next_string};
use lt_subtag::Subtag;
use lt_tag::{Core, OutOfMemory};
use std::alloc::{AllocError, Global};

/// Appends subtags to a text, each after a hyphen.
fn add_subtags(text: &mut Vec<u8>, subtags: &[Subtag]) -> Result<(), AllocError>
    ensures { OnOk result (text.new.items ≡ text.old.items ++ after_hyphens subtags.now) }
{
    for subtag in subtags {
        text.push(b'-')?;
        text.extend_from_slice(subtag.bytes())?;
    }
    Ok(())
}

/// Appends a hyphen and the subtag to a text, if there is a subtag. `subtag.entry` is the parameter as it came in.
fn add_subtag(text: &mut Vec<u8>, subtag: Option<&Subtag>) -> Result<(), AllocError>
    ensures { OnOk result (text.new.items ≡ text.old.items ++ after_hyphens (option_to_list (option_copied subtag.entry))) }
{
    if let Some(subtag) = subtag {
        text.push(b'-')?;
        text.extend_from_slice(subtag.bytes())?;
    }
    Ok(())
}

/// The text of a source: its subtags in lower case, with hyphens between them.
#[tactic(auto, using(crate::proofs::SourceLemmas::source_is), unfolding(crate::specs::Parts::source_text))]
fn text_of(alloc: Global, core: &Core) -> Result<Vec<u8>, OutOfMemory>
    ensures { IfOk result (λ text. text.items ≡ source_text core.now) }
{
    let mut text = Vec::from_slice(alloc, core.language().bytes())?;
    add_subtags(&mut text, core.extlangs())?;
    add_subtag(&mut text, core.script())?;
    add_subtag(&mut text, core.region())?;
    add_subtags(&mut text, core.variants())?;
    Ok(text)
}

/// Appends a comma (44) and the member `source`: the text of the source of a `t` extension, or null if there is none.
/// `source.entry` is the parameter as it came in.
pub(crate) fn append_source(
    objects: &mut Vec<u8>,
    alloc: Global,
    source: Option<&Core>,
) -> Result<(), OutOfMemory>
    ensures { OnOk result (objects.new.items ≡ objects.old.items ++ 44 ∷ member_text (member (codes "source") (or_null source_value (option_copied source.entry)))) }
{
    match source {
        Some(source) => append_next_string(objects, b"source", &text_of(alloc, source)?)?,
        None => append_next_null(objects, b"source")?,
    }
    Ok(())
}
