//! What is left to do of a run once its files are read: lines are answered, matched or judged, and tags are explained or
//! shown.
ghost use Rattle.std.specs.Prelude.{◌≡◌, ◌++◌, ◌∷◌, [], IfErr, IfOk};
ghost use Rattle.lt_tag.specs.Faults.{HasTag};
ghost use Rattle.lt_registry.specs.Validity.{IsValid};
ghost use Rattle.lt_canon.specs.TextAnswers.{IsValidityRefusal};
ghost use Rattle.lt_tool.specs.Runs as spec;
ghost use Rattle.lt_answers.specs.LookedUp.{LooksUp};
ghost use Rattle.lt_answers.specs.Served.{ServesAmong};
ghost use Rattle.lt_tool.specs.Runs.{AnswersInJson, AnswersLines, IsFound, MatchesLines, PrintsLine, Runs, RunsOver, Searches, VerifiesText, tallies_after};
ghost use Rattle.lt_tool.specs.Streams.{stream};

use crate::answers::{Answer, status_if};
use crate::explaining::explain;
use crate::faults::Fault;
use crate::plans::{Ground, LinesPlan, MatchPlan, Plan};
use crate::showing::show_texts;
use crate::status::Status;
use lt_answers::{Verdict, look_up_line, select_lines, serve_line, verify_lines, write_objects};
use lt_canon::{Checked, Refusal, TextRefusal};
use lt_jar::Device;
use lt_lines::{Basis, Counts, LineForm, Tallies, run_tallied};
use lt_range::{MatchingTable, Preference};
use lt_registry::{Lookup, validate};
use lt_stream::ToolFault;
use lt_tag::{OutOfMemory, Tag, read_tag};
use std::alloc::Global;
use std::io::{Read, Write};

/// Empties the tallies if the run ended by a failed write or for lack of memory: it is not known then which answers were
/// written.
fn drop_unknown(alloc: Global, end: Result<Counts, ToolFault>, tallies: &mut Tallies)
    ensures { tallies.new ≡ tallies_after end tallies.old }
{
    if let Err(ToolFault::Write | ToolFault::OutOfMemory) = end {
        *tallies = Tallies::new(alloc);
    }
}

/// What a run over lines came to: how many lines it answered and refused, or why it failed.
fn counted(end: Result<Counts, ToolFault>) -> Result<Answer, Fault>
    ensures { result ≡ spec.counted end }
{
    match end {
        Ok(counts) => Ok(Answer::Lines(counts)),
        Err(fault) => Err(Fault::Run(fault)),
    }
}

/// Answers the lines of the input, which have this form, by a registry and a table of codes (`ground`). `tallies` is
/// set to how many lines were refused for each fault; it is empty if it is not known which answers were written.
/// Refused if a read or a write fails, the input is at fault, or memory runs out.
fn run_over<I: Read, O: Write>(
    alloc: Global,
    ground: &Ground,
    form: LineForm,
    input: &mut Device<I>,
    output: &mut Device<O>,
    tallies: &mut Tallies,
) -> Result<Answer, Fault>
    ensures { RunsOver ground.now form (stream I.remaining input.old input.new) (stream O.contents output.old output.new) tallies.new result }
{
    let basis = Basis {
        checked: &ground.checked,
        codes: ground.codes.as_ref(),
    };
    let end = run_tallied(alloc, &basis, form, input, output, tallies);
    drop_unknown(alloc, end, tallies);
    counted(end)
}

/// Answers the lines of the input. They begin with the bytes that were read already to find a column, if any were.
/// `tallies` and the refusals are as in `run_over`.
fn answer_lines<I: Read, O: Write>(
    alloc: Global,
    plan: &LinesPlan,
    input: &mut Device<I>,
    output: &mut Device<O>,
    tallies: &mut Tallies,
) -> Result<Answer, Fault>
    ensures { AnswersLines plan.now plan.now.front (stream I.remaining input.old input.new) (stream O.contents output.old output.new) tallies.new result }
{
    match &plan.front {
        None => run_over(alloc, &plan.ground, plan.form, input, output, tallies),
        Some(front) => {
            let mut ahead = Device::new(front.as_slice().chain(input));
            run_over(alloc, &plan.ground, plan.form, &mut ahead, output, tallies)
        }
    }
}

/// What a run that writes matching lines came to. `end` is how many lines it wrote, or why it failed. The run ends as
/// refused if it wrote none.
fn selected(end: Result<u64, ToolFault>) -> Result<Answer, Fault>
    ensures { result ≡ spec.selected end }
{
    match end {
        Ok(count) if count == 0 => Ok(Answer::Written(Status::Refused)),
        Ok(_) => Ok(Answer::Written(Status::Done)),
        Err(fault) => Err(Fault::Run(fault)),
    }
}

/// A line with the line feed (10) that ends it. Refused where memory runs out.
pub(crate) fn ended(mut line: Vec<u8>) -> Result<Vec<u8>, OutOfMemory>
    ensures { IfOk result (λ text. text.items ≡ line.items ++ 10 ∷ []) }
{
    line.push(b'\n')?;
    Ok(line)
}

/// The answer that prints a line that was found, with a line feed. Refused if memory runs out.
fn found(line: Vec<u8>) -> Result<Answer, Fault>
    ensures { PrintsLine line.items result }
{
    let text = ended(line)?;
    Ok(Answer::Text(text))
}

/// What a search for a line came to. `end` is the line that was found, None if there is none, or why the search failed.
/// The line is to be printed; if there is none, the run ends as refused. `Err` also if memory runs out.
fn searched(end: Result<Option<Vec<u8>>, ToolFault>) -> Result<Answer, Fault>
    ensures { IsFound end result }
{
    match end {
        Ok(Some(line)) => found(line),
        Ok(None) => Ok(Answer::Written(Status::Refused)),
        Err(fault) => Err(Fault::Run(fault)),
    }
}

/// Searches the input for the line that lookup (RFC 4647, 3.4) by the ranges finds. The answer prints the line, or is a
/// refused run if there is none. `Err` if the search fails or memory runs out.
fn look_up<I: Read>(alloc: Global, plan: &MatchPlan, input: &mut Device<I>) -> Result<Answer, Fault>
    ensures { Searches (LooksUp plan.now.table plan.now.ranges.items) (stream I.remaining input.old input.new) result }
{
    searched(look_up_line(alloc, &plan.table, &plan.ranges, input))
}

/// Searches the input for the line that is served for preferences. The answer prints the line, or is a refused run if
/// there is none. `Err` if the search fails or memory runs out.
fn serve<L: Lookup, I: Read>(
    alloc: Global,
    table: &MatchingTable<L>,
    preferences: &[Preference],
    input: &mut Device<I>,
) -> Result<Answer, Fault>
    ensures { Searches (ServesAmong (L.listed table.now) preferences.now) (stream I.remaining input.old input.new) result }
{
    searched(serve_line(alloc, table, preferences, input))
}

/// Writes the lines of the input that ranges match by a scheme of filtering, or gives the one that they find by lookup.
/// Refused if a read or a write fails, the input is at fault, or memory runs out.
fn match_lines<I: Read, O: Write>(
    alloc: Global,
    plan: &MatchPlan,
    input: &mut Device<I>,
    output: &mut Device<O>,
) -> Result<Answer, Fault>
    ensures { MatchesLines plan.now plan.now.scheme (stream I.remaining input.old input.new) (stream O.contents output.old output.new) result }
{
    match plan.scheme {
        Some(scheme) => {
            let ranges = &plan.ranges;
            selected(select_lines(alloc, &plan.table, scheme, ranges, input, output))
        }
        None => look_up(alloc, plan, input),
    }
}

/// The valid tag that a text is read as, or why it is no tag or not valid. Refused also where memory runs out.
fn valid_tag<L: Lookup>(
    alloc: Global,
    checked: &Checked<L>,
    text: &[u8],
) -> Result<Tag, TextRefusal>
    ensures read { IfOk result (HasTag text.now) }
    ensures valid { IfOk result (IsValid (L.listed checked.now)) }
    ensures refusal { IfErr result (IsValidityRefusal (L.listed checked.now) text.now) }
{
    let tag = read_tag(alloc, text)?;
    // The call serves only the proof of `valid`, which needs the clause `tag` of `extensions`.
    let _ = tag.extensions();
    match validate(alloc, checked.table(), &tag) {
        Ok(()) => Ok(tag),
        Err(refused) => Err(TextRefusal::from(Refusal::from(refused))),
    }
}

/// What a run that judged an explanation came to: it passed if the verdict is `Right`, and any other verdict is its
/// fault. If `end` says that the judging failed, so did the run.
fn judged(end: Result<Verdict, ToolFault>) -> Result<Answer, Fault>
    ensures { result ≡ spec.judged end }
{
    match end {
        Ok(Verdict::Right) => Ok(Answer::Passed),
        Ok(verdict) => Err(Fault::Explanation(verdict)),
        Err(fault) => Err(Fault::Run(fault)),
    }
}

/// Judges the lines of the input as an explanation of a text, by a registry. A wrong explanation is refused with the
/// verdict. If the text is no valid tag, its refusal is given, and no line is read. `Err` also if a read fails or
/// memory runs out.
fn verify<L: Lookup, I: Read>(
    alloc: Global,
    checked: &Checked<L>,
    text: &[u8],
    input: &mut Device<I>,
) -> Result<Answer, Fault>
    ensures { VerifiesText (L.listed checked.now) text.now (stream I.remaining input.old input.new) result }
{
    match valid_tag(alloc, checked, text) {
        Ok(tag) => judged(verify_lines(alloc, checked.table(), &tag, input)),
        Err(refusal) => Err(Fault::Text(refusal)),
    }
}

/// What a run came to that answered lines by objects: `refused` says whether it refused a line, and `end` whether it failed.
fn answered(refused: bool, end: Result<(), ToolFault>) -> Result<Answer, Fault>
    ensures { result ≡ spec.answered refused end }
{
    match end {
        Ok(()) => Ok(Answer::Written(status_if(refused))),
        Err(fault) => Err(Fault::Run(fault)),
    }
}

/// Writes a JSON object for each line of the input. Refused if a read or a write fails, the input is at fault, or memory runs
/// out.
fn answer_in_json<L: Lookup, I: Read, O: Write>(
    alloc: Global,
    checked: &Checked<L>,
    input: &mut Device<I>,
    output: &mut Device<O>,
) -> Result<Answer, Fault>
    ensures { AnswersInJson (L.listed checked.now) (stream I.remaining input.old input.new) (stream O.contents output.old output.new) result }
{
    let ended = write_objects(alloc, checked, input, output);
    answered(ended.0, ended.1)
}

/// Carries out a plan, and gives the answer of the run, which is still to be printed, or what was refused or failed. If
/// the plan is to answer tags or rows, `tallies` is set to how many lines were refused for each fault.
pub(crate) fn run<I: Read, O: Write>(
    alloc: Global,
    plan: Plan<'_>,
    input: &mut Device<I>,
    output: &mut Device<O>,
    tallies: &mut Tallies,
) -> Result<Answer, Fault>
    ensures { Runs plan.entry (stream I.remaining input.old input.new) (stream O.contents output.old output.new) tallies.old tallies.new result }
{
    match plan {
        Plan::Print(answer) => Ok(answer),
        Plan::Lines(plan) => answer_lines(alloc, &plan, input, output, tallies),
        Plan::Match(plan) => match_lines(alloc, &plan, input, output),
        Plan::Serve(table, preferences) => serve(alloc, &table, &preferences, input),
        Plan::Explain(checked, text) => explain(alloc, &checked, text, output),
        Plan::Verify(checked, text) => verify(alloc, &checked, text, input),
        Plan::Show(checked, jar, tags) => {
            show_texts(alloc, &checked, jar.records(), tags, output)
        }
        Plan::Json(checked) => answer_in_json(alloc, &checked, input, output),
    }
}
