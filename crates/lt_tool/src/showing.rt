//! The command `show`: what the records of a registry say of tags, printed tag by tag. What is printed for one text is
//! called its block.
ghost use Rattle.std.specs.Prelude.{◌≡◌, ◌||◌, ◌++◌, ◌∷◌, [], IfOk, Ok, false, map, string_bytes, true};
ghost use Rattle.lt_show.specs.Tables.{shown_byte};
ghost use Rattle.lt_tool.specs.Shown as spec;
ghost use Rattle.lt_tool.specs.Shown.{EndsBlock, EndsRefused, IsKeptRefusal, PlansBy, PlansShown, ShowsAs, ShowsTexts, WritesBlock, WritesBlocks, WritesTold};
ghost use Rattle.lt_tool.specs.Streams.{stream};

use crate::answers::{Answer, status_if};
use crate::explaining::write_lines;
use crate::faults::{Fault, Role};
use crate::plans::Plan;
use crate::registries::{RegistryRefusal, check_entries};
use crate::showing_json::append_object;
use lt_canon::{Checked, ExplanationLines, TextRefusal};
use lt_jar::{Device, Jar, Record};
use lt_lines::append_refusal;
use lt_registry::{Lookup, Registry};
use lt_show::{RecordsFault, append_printable, append_table, read_records};
use lt_stream::{ToolFault, write_text};
use lt_tag::{OutOfMemory, TagFaultKind, read_tag};
use lt_words::Tags;
use std::alloc::Global;
use std::io::{Read, Write};

/// Whether the text of a block is refused (`refused`), if all of the block was written; else the fault of the write.
fn told(refused: bool, end: Result<(), ToolFault>) -> Result<bool, ToolFault>
    ensures { result ≡ spec.told refused end }
{
    match end {
        Ok(()) => Ok(refused),
        Err(fault) => Err(fault),
    }
}

/// Writes a block that was made in memory, and tells whether its text is `refused`. `Err` means that the write failed.
fn write_block<O: Write>(
    block: &[u8],
    refused: bool,
    output: &mut Device<O>,
) -> Result<bool, ToolFault>
    ensures { WritesTold block.now refused (stream O.contents output.old output.new) result }
{
    told(refused, write_text(block, output))
}

/// Writes what `show` prints of a text as a line of JSON, and tells whether the text is refused. `Err` means that a write
/// failed or memory ran out.
fn show_object<L: Lookup, O: Write>(
    alloc: Global,
    checked: &Checked<L>,
    records: &[Record],
    text: &[u8],
    output: &mut Device<O>,
) -> Result<bool, ToolFault>
    ensures { WritesBlock (ShowsAs true (L.listed checked.now) records.now text.now) (stream O.contents output.old output.new) result }
{
    let mut object = Vec::new(alloc);
    let refused = append_object(&mut object, alloc, checked, records, text)?;
    write_block(&object, refused, output)
}

/// A block for people: the bytes `head`, the line of a refusal, and an empty line. The `true` of the clause says that
/// the text is refused. `Err` if memory runs out.
fn refused_block(head: Vec<u8>, refusal: &TextRefusal) -> Result<Vec<u8>, OutOfMemory>
    ensures { IfOk result (λ block. EndsRefused refusal.now head.items block.items true) }
{
    let mut block = head;
    append_refusal(&mut block, refusal)?;
    block.push(b'\n')?;
    Ok(block)
}

/// Writes a block for people, of the bytes `head`, the line of a refusal, and an empty line. Tells that its text is refused.
/// `Err` means that a write failed or memory ran out.
fn show_refused<O: Write>(
    head: Vec<u8>,
    refusal: &TextRefusal,
    output: &mut Device<O>,
) -> Result<bool, ToolFault>
    ensures { WritesBlock (EndsRefused refusal.now head.items) (stream O.contents output.old output.new) result }
{
    let block = refused_block(head, refusal)?;
    write_block(&block, true, output)
}

/// A text that is no tag, as a line that does nothing at a terminal: spaces stand for control characters. A line feed
/// (10) ends it.
fn printable_line(alloc: Global, text: &[u8]) -> Result<Vec<u8>, OutOfMemory>
    ensures { IfOk result (λ line. line.items ≡ map shown_byte text.now ++ 10 ∷ []) }
{
    let mut line = Vec::new(alloc);
    append_printable(&mut line, text)?;
    line.push(b'\n')?;
    Ok(line)
}

/// Writes the block of a text that is a tag: first its `table`, then its explanation or the line of its refusal, and
/// then an empty line. The lines of the explanation are written as they are made. Tells whether the text is refused.
/// `Err` means that a write failed or memory ran out.
fn show_ended<L: Lookup, O: Write>(
    alloc: Global,
    checked: &Checked<L>,
    text: &[u8],
    table: Vec<u8>,
    output: &mut Device<O>,
) -> Result<bool, ToolFault>
    ensures { WritesBlock (EndsBlock (L.listed checked.now) text.now table.items) (stream O.contents output.old output.new) result }
{
    match ExplanationLines::new(alloc, checked, text) {
        Ok(left) => told(false, write_lines(alloc, table, left, b"\n", output)),
        Err(refusal) => show_refused(table, &refusal, output),
    }
}

/// Writes what `show` prints of a text for people: the table of its subtags, then its explanation or the line of its
/// refusal, and then an empty line. If the text is no tag, the text itself stands in place of the table. Tells whether
/// the text is refused. `Err` means that a write failed or memory ran out.
fn show_block<L: Lookup, O: Write>(
    alloc: Global,
    checked: &Checked<L>,
    records: &[Record],
    text: &[u8],
    output: &mut Device<O>,
) -> Result<bool, ToolFault>
    ensures { WritesBlock (ShowsAs false (L.listed checked.now) records.now text.now) (stream O.contents output.old output.new) result }
{
    let tag = match read_tag(alloc, text) {
        Ok(tag) => tag,
        Err(fault) if fault.kind == TagFaultKind::OutOfMemory => {
            return Err(ToolFault::OutOfMemory);
        }
        Err(fault) => {
            let line = printable_line(alloc, text)?;
            return show_refused(line, &TextRefusal::NotATag(fault), output);
        }
    };
    let mut table = Vec::new(alloc);
    append_table(&mut table, alloc, checked.table(), records, &tag)?;
    show_ended(alloc, checked, text, table, output)
}

/// Writes what `show` prints of a text, as a line of JSON if `json`, or else for people, and tells whether the text is
/// refused. `Err` means that a write failed or memory ran out.
fn show_text<L: Lookup, O: Write>(
    alloc: Global,
    checked: &Checked<L>,
    records: &[Record],
    json: bool,
    text: &[u8],
    output: &mut Device<O>,
) -> Result<bool, ToolFault>
    ensures { WritesBlock (ShowsAs json (L.listed checked.now) records.now text.now) (stream O.contents output.old output.new) result }
{
    if json {
        show_object(alloc, checked, records, text, output)
    } else {
        show_block(alloc, checked, records, text, output)
    }
}

/// Whether at least one of two is true. It is a function so that the proof of the loop over the texts can use its
/// clause.
fn either(one: bool, other: bool) -> bool
    ensures { result ≡ (one || other) }
{
    one || other
}

/// Writes what `show` prints of texts, one after another, by a registry and its records: as lines of JSON if `json`, or else
/// for people. It tells whether one of the texts is refused. `Err` means that a write failed or memory ran out.
fn show_each<L: Lookup, O: Write>(
    alloc: Global,
    checked: &Checked<L>,
    records: &[Record],
    json: bool,
    texts: &[String],
    output: &mut Device<O>,
) -> Result<bool, ToolFault>
    ensures { WritesBlocks (ShowsAs json (L.listed checked.now) records.now) (map string_bytes texts.now) (stream O.contents output.old output.new) result }
{
    let mut any = false;
    for text in texts {
        let refused = show_text(alloc, checked, records, json, text.as_bytes(), output)?;
        any = either(any, refused);
    }
    Ok(any)
}

/// What a run that showed texts came to. `any` says whether one of the texts is refused, or why not all were written.
fn shown(any: Result<bool, ToolFault>) -> Result<Answer, Fault>
    ensures { result ≡ spec.shown any }
{
    match any {
        Ok(any) => Ok(Answer::Written(status_if(any))),
        Err(fault) => Err(Fault::Run(fault)),
    }
}

/// Writes what `show` prints of the tags on its command line, by a registry and its records. The run ends as refused if
/// one of them is. `Err` means that a write failed or memory ran out.
pub(crate) fn show_texts<L: Lookup, O: Write>(
    alloc: Global,
    checked: &Checked<L>,
    records: &[Record],
    tags: &Tags,
    output: &mut Device<O>,
) -> Result<Answer, Fault>
    ensures { ShowsTexts (L.listed checked.now) records.now tags.now (stream O.contents output.old output.new) result }
{
    let any = show_each(alloc, checked, records, tags.json, &tags.texts, output);
    shown(any)
}

/// The refusal of a file that was to be read as a registry with its records: the one that reading only the registry
/// gives, or that memory ran out.
fn refusal_of(fault: RecordsFault) -> RegistryRefusal
    ensures { IsKeptRefusal fault result }
{
    match fault {
        RecordsFault::Registry(fault) => RegistryRefusal::from(fault),
        RecordsFault::OutOfMemory => RegistryRefusal::OutOfMemory,
    }
}

/// The plan to show tags by a registry and its records (`both`), which were read from a file; or why the registry is
/// refused: it fails the check, or memory ran out.
fn plan_kept<'a>(alloc: Global, both: (Registry, Jar), tags: &'a Tags) -> Result<Plan<'a>, Fault>
    ensures { PlansBy tags.now (Ok both) result }
{
    let (registry, jar) = both;
    match check_entries(alloc, registry) {
        Ok(checked) => Ok(Plan::Show(checked, jar, tags)),
        Err(refusal) => Err(Fault::Registry(Role::Only, refusal)),
    }
}

/// The plan to show tags by the registry of a file and its records, or why the registry is refused.
pub(crate) fn plan_show<'a, F: Read>(
    alloc: Global,
    tags: &'a Tags,
    file: &mut Device<F>,
) -> Result<Plan<'a>, Fault>
    ensures { PlansShown (stream F.remaining file.old file.new) tags.now result }
{
    match read_records(alloc, file) {
        Ok(both) => plan_kept(alloc, both, tags),
        Err(fault) => Err(Fault::Registry(Role::Only, refusal_of(fault))),
    }
}
