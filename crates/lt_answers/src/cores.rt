//! The members of the core of a tag, which is its language, extlangs, script, region and variants.
ghost use Rattle.std.specs.Prelude.{◌≡◌, ◌++◌, ◌∷◌, OnOk, codes, option_copied};
ghost use Rattle.lt_show.specs.Values.{member, member_text, more_members, or_null};
ghost use Rattle.lt_answers.specs.Parts.{core_members, core_members_of, no_core_members, region_value, script_value};

use crate::subtags::append_next_subtags;
use lt_show::{append_next_null, append_next_string};
use lt_subtag::{Case, Subtag};
use lt_tag::Core;
use std::alloc::AllocError;

/// Appends a comma (44) and the member `script`, in title case (RFC 5646, 2.1.1), or null if there is none.
/// `script.entry` is the parameter as it came in.
fn append_script(objects: &mut Vec<u8>, script: Option<&Subtag>) -> Result<(), AllocError>
    ensures { OnOk result (objects.new.items ≡ objects.old.items ++ 44 ∷ member_text (member (codes "script") (or_null script_value (option_copied script.entry)))) }
{
    match script {
        Some(script) => append_next_string(objects, b"script", &script.cased(Case::Title)),
        None => append_next_null(objects, b"script"),
    }
}

/// Appends a comma (44) and the member `region`, in upper case (RFC 5646, 2.1.1), or null if there is none.
/// `region.entry` is the parameter as it came in.
fn append_region(objects: &mut Vec<u8>, region: Option<&Subtag>) -> Result<(), AllocError>
    ensures { OnOk result (objects.new.items ≡ objects.old.items ++ 44 ∷ member_text (member (codes "region") (or_null region_value (option_copied region.entry)))) }
{
    match region {
        Some(region) => append_next_string(objects, b"region", &region.cased(Case::Upper)),
        None => append_next_null(objects, b"region"),
    }
}

/// Appends the members of a core: its language, extlangs, script, region and variants.
#[tactic(auto, using(lt_show::proofs::ChainLemmas::five_members))]
fn append_core(objects: &mut Vec<u8>, core: &Core) -> Result<(), AllocError>
    ensures { OnOk result (objects.new.items ≡ objects.old.items ++ more_members (core_members core.now)) }
{
    append_next_string(objects, b"language", core.language().bytes())?;
    append_next_subtags(objects, b"extlangs", core.extlangs())?;
    append_script(objects, core.script())?;
    append_region(objects, core.region())?;
    append_next_subtags(objects, b"variants", core.variants())?;
    Ok(())
}

/// Appends the members of the core for a tag that has none: null and empty arrays.
#[tactic(auto, using(lt_show::proofs::ChainLemmas::five_members))]
pub(crate) fn append_no_core(objects: &mut Vec<u8>) -> Result<(), AllocError>
    ensures { OnOk result (objects.new.items ≡ objects.old.items ++ more_members no_core_members) }
{
    append_next_null(objects, b"language")?;
    append_next_subtags(objects, b"extlangs", &[])?;
    append_next_null(objects, b"script")?;
    append_next_null(objects, b"region")?;
    append_next_subtags(objects, b"variants", &[])?;
    Ok(())
}

/// Appends the members of the core of a tag, which are null and empty arrays if it has none. `core.entry` is the
/// parameter as it came in.
pub(crate) fn append_core_of(objects: &mut Vec<u8>, core: Option<&Core>) -> Result<(), AllocError>
    ensures { OnOk result (objects.new.items ≡ objects.old.items ++ more_members (core_members_of (option_copied core.entry))) }
{
    match core {
        Some(core) => append_core(objects, core),
        None => append_no_core(objects),
    }
}
