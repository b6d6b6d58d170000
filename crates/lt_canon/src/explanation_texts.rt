//! Explanations as texts: the steps to a canonical tag, each on a line with the tag to which it leads, and that tag.
ghost use Rattle.std.specs.Prelude.{◌≡◌, ◌++◌, IfErr, IfOk, OnErr, OnOk};
ghost use Rattle.lt_canon.specs.ExplanationTexts.{AppendsLine, IsExplanationTextOf, IsWholeLeft, step_line, tag_line};
ghost use Rattle.lt_canon.specs.Texts.{IsTextRefusal};

use crate::explaining::explain;
use crate::refusals::TextRefusal;
use crate::traces::Trace;
use lt_check::Checked;
use lt_registry::Lookup;
use lt_rewrite::{ApplyFault, Step, apply};
use lt_tag::{OutOfMemory, Tag, append_tag, read_tag};
use std::alloc::Global;
use std::marker::Model;

/// Appends the text of a tag in conventional case, and a line feed. The only refusal is running out of memory.
fn append_tag_line(lines: &mut Vec<u8>, tag: &Tag) -> Result<(), OutOfMemory>
    ensures { OnOk result (lines.new.items ≡ lines.old.items ++ tag_line tag.now) }
{
    append_tag(lines, tag)?;
    lines.push(b'\n')?;
    Ok(())
}

/// Appends the line of a step: its kind, its place, the number of its record, and the tag `after`, to which it leads.
/// The only refusal is running out of memory.
fn append_step(
    lines: &mut Vec<u8>,
    alloc: Global,
    step: &Step,
    after: &Tag,
) -> Result<(), OutOfMemory>
    ensures { OnOk result (lines.new.items ≡ lines.old.items ++ step_line step.now (tag_line after.now)) }
{
    let (name, place, number) = (step.kind.name(), step.place, step.number);
    let label = format!(in alloc; "{name} {place} {number} ")?;
    lines.extend_from_slice(label.as_bytes())?;
    append_tag_line(lines, after)
}

/// The lines of an explanation, each of which is made when it is asked for (RFC 5646, 4.5), so that they are not all in
/// memory at once. A contract sees what is *left* of the explanation: the tag `here`, the steps from there, and the
/// last tag. It always holds that these steps lead from `here`, which is proper, to that last tag.
pub struct ExplanationLines<'t, L: Lookup> {
    table: &'t L,
    /// The tag to which the steps led that were taken.
    here: Tag,
    /// The whole explanation.
    trace: Trace,
    /// How many of its steps were given as lines.
    taken: usize,
}

// Written by hand: the proof of a function that drops these lines goes through this one call, and not through the drop
// of each vector.
impl<L: Lookup> Drop for ExplanationLines<'_, L> {
    fn drop(self) {
        let ExplanationLines {
            table: _,
            here,
            trace,
            taken: _,
        } = self;
        drop(here);
        drop(trace);
    }
}

impl<'t, L: Lookup> Model for ExplanationLines<'t, L> {
    ghost use Rattle.std.specs.Prelude.{drop};
    ghost use Rattle.lt_canon.specs.ExplanationTexts.{LeadsToEnd, StepsLeft, steps_left};

    ghost Value = { StepsLeft };

    ghost view = { λ e. steps_left (L.listed e.table.now) e.here (drop e.taken e.trace.steps.items) e.trace.last };

    ghost invariant = { λ e. LeadsToEnd (steps_left (L.listed e.table.now) e.here (drop e.taken e.trace.steps.items) e.trace.last) };
}

impl<'t, L: Lookup> ExplanationLines<'t, L> {
    /// The lines that [`explanation_text`] gives for a text, none of which is given yet. It is refused as that is.
    pub fn new(
        alloc: Global,
        checked: &'t Checked<L>,
        text: &[u8],
    ) -> Result<ExplanationLines<'t, L>, TextRefusal>
        ensures whole { IfOk result (λ left. IsWholeLeft (L.listed checked.now) text.now left) }
        ensures refusal { IfErr result (λ refusal. IsTextRefusal (L.listed checked.now) text.now refusal) }
    {
        let here = read_tag(alloc, text)?;
        let trace = explain(alloc, checked, &here)?;
        Ok(ExplanationLines {
            table: checked.table(),
            here,
            trace,
            taken: 0,
        })
    }

    /// Appends the next line, and tells whether more follow it. The last line has the canonical form; each further call
    /// appends it again. The only refusal is running out of memory: the line is still the next then, and a front of it
    /// may have been appended.
    #[tactic(auto, using(crate::proofs::LinesLeft::step_leads))]
    pub fn append_line(&mut self, alloc: Global, lines: &mut Vec<u8>) -> Result<bool, OutOfMemory>
        // `line`: the line is that of the first step that was left, or the last line. `kept` speaks only of `self`,
        // since `lines` may have a part of the line.
        ensures line { IfOk result (λ more. AppendsLine self.old self.new lines.old.items lines.new.items more) }
        ensures kept { OnErr result (self.new ≡ self.old) }
    {
        if self.taken >= self.trace.steps.len() {
            lines.extend_from_slice(b"= ")?;
            append_tag_line(lines, &self.trace.last)?;
            return Ok(false);
        }
        let step = self.trace.steps[self.taken];
        let next = match apply(alloc, self.table, &self.here, &step) {
            Ok(next) => next,
            Err(ApplyFault::OutOfMemory) => return Err(OutOfMemory),
            Err(ApplyFault::NoSuchStep) => unreachable!(),
        };
        append_step(lines, alloc, &step, &next)?;
        self.here = next;
        self.taken += 1;
        Ok(true)
    }
}

/// The explanation of the tag that a text is read as (RFC 5646, 4.5): a line for each step that `explain`
/// answers, with its kind, its place, the number of its record and the tag to which it leads, and then a line
/// with the canonical form. A line feed ends each line. `IW-il` gives the lines `Language 1 4 he-IL` and `=
/// he-IL`, if record 4 has the value `he` for `iw`.
///
/// - `NotATag`, with the fault that `read_tag` answers, exactly where the text is read as none.
/// - `Invalid` and `ReplacementRepeats` where `canonical` refuses the tag so.
/// - `OutOfMemory` where memory runs out.
pub fn explanation_text<L: Lookup>(
    alloc: Global,
    checked: &Checked<L>,
    text: &[u8],
) -> Result<Vec<u8>, TextRefusal>
    ensures written { IfOk result (λ lines. IsExplanationTextOf (L.listed checked.now) text.now lines.items) }
    ensures refusal { IfErr result (λ refusal. IsTextRefusal (L.listed checked.now) text.now refusal) }
{
    let mut left = ExplanationLines::new(alloc, checked, text)?;
    let mut lines = Vec::new(alloc);
    while left.append_line(alloc, &mut lines)? {}
    Ok(lines)
}
