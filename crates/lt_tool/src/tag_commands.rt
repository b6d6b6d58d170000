//! What is answered to one or two tags, or to one or two registries.
ghost use Rattle.std.specs.Prelude.{◌≡◌, IfOk, IfErr, length};
ghost use Rattle.lt_canon.specs.Texts.{IsTextRefusal};
ghost use Rattle.lt_canon.specs.TextAnswers.{IsEqualityOf, IsExtlangTextOf, IsPairRefusal};
ghost use Rattle.lt_tool.specs.Answers as spec;
ghost use Rattle.lt_tool.specs.Answers.{class_line};
ghost use Rattle.lt_tool.specs.Registries.{ByRegistry};
ghost use Rattle.lt_tool.specs.Streams.{stream};
ghost use Rattle.lt_tool.specs.TagCommands as spec_of_tags;
ghost use Rattle.lt_tool.specs.TagCommands.{Checks, Classifies, Compares, FormsExtlang, IsPairFault, PlansExplanation, PlansVerifying, UpgradesFiles};

use crate::answers::Answer;
use crate::faults::{Fault, Role};
use crate::plans::Plan;
use crate::registries::read_registry;
use crate::running::ended;
use crate::streams::Files;
use lt_answers::class_name;
use lt_canon::{Checked, TextRefusal, canonical_text, equivalent, extlang_form};
use lt_jar::Device;
use lt_registry::Lookup;
use lt_tag::{OutOfMemory, Tag, read_tag, write_tag};
use lt_upgrade::{UpgradeFault, upgrade_check};
use std::alloc::Global;
use std::io::Read;

/// The line that `classify` prints for a tag: the name of its class, a space, and the tag in conventional case, for example
/// `grandfathered en-GB-oed`.
fn line_of_tag(alloc: Global, tag: &Tag) -> Result<Vec<u8>, OutOfMemory>
    ensures { IfOk result (λ line. line.items ≡ class_line tag.now) }
{
    let text = write_tag(alloc, tag)?;
    let mut line = Vec::new(alloc);
    line.extend_from_slice(class_name(tag.class()).as_bytes())?;
    line.push(b' ')?;
    line.extend_from_slice(&text)?;
    line.push(b'\n')?;
    Ok(line)
}

/// What `classify` answers to a text: the line of its tag, or why the text is no tag.
pub(crate) fn classify<'a>(alloc: Global, text: &[u8]) -> Result<Plan<'a>, Fault>
    ensures { Classifies text.now result }
{
    let tag = match read_tag(alloc, text) {
        Ok(tag) => tag,
        Err(fault) => return Err(Fault::Text(TextRefusal::from(fault))),
    };
    let line = line_of_tag(alloc, &tag)?;
    Ok(Plan::Print(Answer::Text(line)))
}

/// How many entries a registry has.
fn count_of<L: Lookup>(checked: &Checked<L>) -> usize
    ensures { result ≡ length (L.listed checked.now) }
{
    checked.table().entries().len()
}

/// The line that `check` prints for a registry that passes, with the number of its entries.
fn entries_line(alloc: Global, count: usize) -> Result<Vec<u8>, OutOfMemory>
    ensures { IfOk result (λ line. line.items ≡ spec.entries_line count) }
{
    let line = format!(in alloc; "ok {count}\n")?;
    Ok(line.into_bytes())
}

/// What `check` answers to a file: the number of its entries, or why its registry is refused.
pub(crate) fn check<'a, F: Read>(alloc: Global, file: &mut Device<F>) -> Result<Plan<'a>, Fault>
    ensures { ByRegistry (stream F.remaining file.old file.new) Checks result }
{
    let checked = read_registry(alloc, Role::Only, file)?;
    let count = count_of(&checked);
    let line = entries_line(alloc, count)?;
    Ok(Plan::Print(Answer::Entries(count, line)))
}

/// The text of the extlang form (RFC 5646, 4.5) of the tag that a text is read as, or why there is none.
fn extlang_text<L: Lookup>(
    alloc: Global,
    checked: &Checked<L>,
    text: &[u8],
) -> Result<Vec<u8>, TextRefusal>
    ensures written { IfOk result (λ extlang. IsExtlangTextOf (L.listed checked.now) text.now extlang.items) }
    ensures refusal { IfErr result (λ refusal. IsTextRefusal (L.listed checked.now) text.now refusal) }
{
    let tag = read_tag(alloc, text)?;
    let form = extlang_form(alloc, checked, &tag)?;
    Ok(write_tag(alloc, &form)?)
}

/// Whether the tags that two texts are read as are equivalent, or why one of the texts is no tag, or one of the tags is
/// refused.
fn equality<L: Lookup>(
    alloc: Global,
    checked: &Checked<L>,
    first: &[u8],
    second: &[u8],
) -> Result<bool, TextRefusal>
    ensures answer { IfOk result (IsEqualityOf (L.listed checked.now) first.now second.now) }
    ensures refusal { IfErr result (λ refusal. IsPairRefusal (L.listed checked.now) first.now second.now refusal) }
{
    let tag = read_tag(alloc, first)?;
    let other = read_tag(alloc, second)?;
    Ok(equivalent(alloc, checked, &tag, &other)?)
}

/// Whether the first of two texts passes, so that `refusal` is that of the second. `own` is the canonical text of the
/// first, or why it has none. A tag with a canonical form passes. If `refusal` says that a text is no tag, a tag
/// without a canonical form passes too, since both texts are read before a tag is judged.
fn is_passed(refusal: &TextRefusal, own: &Result<Vec<u8>, TextRefusal>) -> bool
    ensures { result ≡ spec_of_tags.is_passed refusal.now own.now }
{
    match (refusal, own) {
        (_, Ok(_)) => true,
        (TextRefusal::NotATag(_), Err(TextRefusal::Invalid(_))) => true,
        (TextRefusal::NotATag(_), Err(TextRefusal::ReplacementRepeats(_))) => true,
        (_, Err(_)) => false,
    }
}

/// The fault of two texts, one of which is refused: it says whether that is the first or the second. `refusal`
/// doesn't say that, so the canonical text of the first one is looked for again.
fn pair_fault<L: Lookup>(
    alloc: Global,
    checked: &Checked<L>,
    first: &[u8],
    refusal: TextRefusal,
) -> Fault
    ensures { IsPairFault (L.listed checked.now) first.now refusal result }
{
    let own = canonical_text(alloc, checked, first);
    if is_passed(&refusal, &own) {
        Fault::OtherText(refusal)
    } else {
        Fault::Text(refusal)
    }
}

/// What `extlang` answers to a text, by the registry of a file; or why the registry or the text is refused.
pub(crate) fn extlang<'a, F: Read>(
    alloc: Global,
    text: &[u8],
    file: &mut Device<F>,
) -> Result<Plan<'a>, Fault>
    ensures { ByRegistry (stream F.remaining file.old file.new) (FormsExtlang text.now) result }
{
    let checked = read_registry(alloc, Role::Only, file)?;
    let extlang = extlang_text(alloc, &checked, text)?;
    let line = ended(extlang)?;
    Ok(Plan::Print(Answer::Text(line)))
}

/// What `equal` answers to two texts, by the registry of a file; or why the registry or a text is refused.
pub(crate) fn equal<'a, F: Read>(
    alloc: Global,
    first: &[u8],
    second: &[u8],
    file: &mut Device<F>,
) -> Result<Plan<'a>, Fault>
    ensures { ByRegistry (stream F.remaining file.old file.new) (Compares first.now second.now) result }
{
    let checked = read_registry(alloc, Role::Only, file)?;
    match equality(alloc, &checked, first, second) {
        Ok(equal) => Ok(Plan::Print(Answer::Equal(equal))),
        Err(refusal) => Err(pair_fault(alloc, &checked, first, refusal)),
    }
}

/// The plan to explain a text by the registry of a file; or why the registry is refused.
pub(crate) fn plan_explain<'a, F: Read>(
    alloc: Global,
    text: &'a [u8],
    file: &mut Device<F>,
) -> Result<Plan<'a>, Fault>
    ensures { ByRegistry (stream F.remaining file.old file.new) (PlansExplanation text.now) result }
{
    let checked = read_registry(alloc, Role::Only, file)?;
    Ok(Plan::Explain(checked, text))
}

/// The plan to judge lines as an explanation of a text by the registry of a file; or why the registry is refused.
pub(crate) fn plan_verify<'a, F: Read>(
    alloc: Global,
    text: &'a [u8],
    file: &mut Device<F>,
) -> Result<Plan<'a>, Fault>
    ensures { ByRegistry (stream F.remaining file.old file.new) (PlansVerifying text.now) result }
{
    let checked = read_registry(alloc, Role::Only, file)?;
    Ok(Plan::Verify(checked, text))
}

/// What `upgrade` answers to two files: that the newer registry upgrades the older one, or why a registry or the
/// upgrade is refused. The older file is read and judged first; if it is refused, the newer one is not read.
pub(crate) fn upgrade<'a, F: Read>(alloc: Global, files: &mut Files<F>) -> Result<Plan<'a>, Fault>
    ensures { UpgradesFiles F.remaining files.old files.new result }
{
    let older = read_registry(alloc, Role::Older, &mut files.first)?;
    let newer = read_registry(alloc, Role::Newer, &mut files.second)?;
    match upgrade_check(alloc, &older, &newer) {
        Ok(()) => Ok(Plan::Print(Answer::Passed)),
        Err(UpgradeFault::Fails { condition, number }) => Err(Fault::Upgrade(condition, number)),
        Err(UpgradeFault::OutOfMemory) => Err(Fault::from(OutOfMemory)),
    }
}
