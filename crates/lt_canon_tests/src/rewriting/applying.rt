//! One step on a tag, and what it leads to.
ghost use Rattle.std.specs.Prelude.{◌↔◌, IsTrue, IfOk};
ghost use Rattle.lt_registry.specs.Validity.{IsProper};
ghost use Rattle.lt_registry.specs.Faults.{RepeatsAtMost};

use lt_registry::{Lookup, proper};
use lt_rewrite::{ApplyFault, Step, StepKind, apply};
use lt_tag::{OutOfMemory, Tag, read_tag, write_tag};
use lt_testing::{again, sorted_sample};
use std::alloc::Global;
use std::process::Abort;
use std::test::Fail;

/// Whether a tag is printed so.
fn is_printed(alloc: Global, tag: &Tag, text: &str) -> Result<bool, OutOfMemory> {
    Ok(again!(write_tag(alloc, tag))?.as_slice() == text.as_bytes())
}

/// Whether an answer is a tag that is printed so, or a fault of that name.
fn is_answer(
    alloc: Global,
    answer: Result<Tag, ApplyFault>,
    wanted: &str,
) -> Result<bool, OutOfMemory> {
    match answer {
        Ok(changed) => is_printed(alloc, &changed, wanted),
        Err(fault) => Ok(fault.name() == wanted),
    }
}

/// Whether a tag is proper, asked again where memory is refused.
fn is_proper_tag<L: Lookup>(alloc: Global, table: &L, tag: &Tag) -> Result<bool, OutOfMemory>
    ensures { IfOk result (λ proper. IsTrue proper ↔ RepeatsAtMost (L.listed table.now) tag.now) }
{
    match proper(alloc, table, tag) {
        Ok(is_proper) => Ok(is_proper),
        Err(_) => proper(alloc, table, tag),
    }
}

/// The tag to which a step leads, asked again where memory is refused.
fn applied<L: Lookup>(alloc: Global, table: &L, tag: &Tag, step: &Step) -> Result<Tag, ApplyFault>
    requires { IsProper (L.listed table.now) tag.now }
{
    match apply(alloc, table, tag, step) {
        Err(ApplyFault::OutOfMemory) => apply(alloc, table, tag, step),
        answer => answer,
    }
}

/// Whether a step leads from a text's tag to another, or has a fault of that name.
fn leads<L: Lookup>(
    alloc: Global,
    table: &L,
    text: &str,
    step: Step,
    wanted: &str,
) -> Result<bool, Fail> {
    let tag = again!(read_tag(alloc, text.as_bytes()))?;
    let _ = tag.extensions();
    let is_proper = is_proper_tag(alloc, table, &tag)?;
    if !is_proper {
        return Err(Fail::from("not proper"));
    }
    let answer = applied(alloc, table, &tag, &step);
    Ok(is_answer(alloc, answer, wanted)?)
}

/// Steps from tags: the kind, the place and the number, and the tag to which the step leads or the
/// name of the fault.
const STEPS: &[(&str, StepKind, u32, u32, &str)] = &[
    ("zh-yue", StepKind::Extlang, 2, 23, "yue"),
    ("zh-yue", StepKind::Language, 1, 17, "NoSuchStep"),
    (
        "ja-heploc-alalc97",
        StepKind::Variant,
        2,
        37,
        "ja-alalc97-alalc97",
    ),
    ("sgn-DD", StepKind::Region, 2, 27, "sgn-DE"),
    ("sgn-DD", StepKind::Region, 2, 28, "NoSuchStep"),
    (
        "hy-arevela-arevmda",
        StepKind::VariantLanguage,
        3,
        35,
        "NoSuchStep",
    ),
    (
        "en-b-ccc-a-aaa",
        StepKind::SwapExtensions,
        2,
        0,
        "en-a-aaa-b-ccc",
    ),
    ("en-t-iw-t0-aaa", StepKind::Language, 3, 9, "en-t-he-t0-aaa"),
    ("en-t-iw-t0-aaa", StepKind::Language, 1, 9, "NoSuchStep"),
    (
        "en-t-m0-names-a0-xyz",
        StepKind::SwapFields,
        3,
        0,
        "en-t-a0-xyz-m0-names",
    ),
    ("en-u-kn-true", StepKind::DropTrue, 4, 0, "en-u-kn"),
    ("en-u-kn-true-yes", StepKind::DropTrue, 4, 0, "NoSuchStep"),
    ("sgn-DE", StepKind::Whole, 1, 44, "gsg"),
    ("sgn-DE-x-a", StepKind::Whole, 1, 44, "NoSuchStep"),
];

/// Each step leads where its row says.
pub(super) fn steps_lead<L: Lookup>(rt: &impl Abort, alloc: Global, table: &L) -> Result<(), Fail> {
    for row in STEPS {
        let (text, kind, place, number, wanted) = *row;
        let step = Step {
            kind,
            place,
            number,
        };
        assert!(rt; leads(alloc, table, text, step, wanted)?, "{text}");
    }
    Ok(())
}

#[test]
fn steps_by_the_sorted_table(rt: HostRuntime) -> Result<(), Fail> {
    steps_lead(&rt, rt.alloc(), &sorted_sample(rt.alloc())?)
}
