//! What is left to do once the files that a command names are read and judged: a plan, which `running` carries out.
ghost use Rattle.std.specs.Prelude.{◌≡◌};
ghost use Rattle.lt_tool.specs.Plans.{Plans, PlansJson};
ghost use Rattle.lt_tool.specs.Streams.{stream};

use crate::answers::Answer;
use crate::faults::{Fault, Role};
use crate::headers::plan_serve;
use crate::ranges::plan_match;
use crate::registries::read_registry;
use crate::rows::{plan_rows, plan_tags};
use crate::showing::plan_show;
use crate::streams::Files;
use crate::tag_commands::{check, classify, equal, extlang, plan_explain, plan_verify, upgrade};
use lt_canon::Checked;
use lt_codes::CodeTable;
use lt_jar::{Device, Jar};
use lt_lines::LineForm;
use lt_range::{LanguageRange, MatchingTable, Preference, Scheme};
use lt_registry::SortedTable;
use lt_rows::Separator;
use lt_words::{Command, Tags};
use std::alloc::Global;
use std::io::Read;

/// What lines are answered by: a registry, and a table of codes if the command names one.
#[derive(Drop)]
pub(crate) struct Ground {
    /// The entries of the registry, which passes the check.
    pub(crate) checked: Checked<SortedTable>,
    /// The codes of the table; None if no table is named.
    pub(crate) codes: Option<CodeTable>,
}

/// Lines of the input that are to be answered.
#[derive(Drop)]
pub(crate) struct LinesPlan {
    /// What they are answered by.
    pub(crate) ground: Ground,
    /// How the lines are read: each as a tag or as a row of TSV, or together as records of CSV.
    pub(crate) form: LineForm,
    /// The bytes of the input that were read already to find a column by its name; None if none was looked for.
    pub(crate) front: Option<Vec<u8>>,
}

/// Lines of the input that are to be matched by language ranges.
#[derive(Drop)]
pub(crate) struct MatchPlan {
    /// The entries of the registry by which they are matched.
    pub(crate) table: MatchingTable<SortedTable>,
    /// The scheme of filtering (RFC 4647, 3.3). None is lookup (3.4), which gives one line at most.
    pub(crate) scheme: Option<Scheme>,
    /// The ranges.
    pub(crate) ranges: Vec<LanguageRange>,
}

/// A plan: what is left to do once the files that a command names are read and judged.
#[derive(Drop)]
pub(crate) enum Plan<'a> {
    /// To print this answer.
    Print(Answer),
    /// To answer lines.
    Lines(LinesPlan),
    /// To match lines.
    Match(MatchPlan),
    /// To print the line of the input that is served for these preferences, by a registry.
    Serve(MatchingTable<SortedTable>, Vec<Preference>),
    /// To explain this text by a registry.
    Explain(Checked<SortedTable>, &'a [u8]),
    /// To judge the lines of the input as an explanation of this text by a registry.
    Verify(Checked<SortedTable>, &'a [u8]),
    /// To show these tags by a registry and its records.
    Show(Checked<SortedTable>, Jar, &'a Tags),
    /// To answer each line of the input with a JSON object.
    Json(Checked<SortedTable>),
}

/// The plan to answer each line of the input with a JSON object, by the registry of a file; or why the registry is
/// refused.
fn plan_json<'a, F: Read>(alloc: Global, file: &mut Device<F>) -> Result<Plan<'a>, Fault>
    ensures { PlansJson (stream F.remaining file.old file.new) result }
{
    let checked = read_registry(alloc, Role::Only, file)?;
    Ok(Plan::Json(checked))
}

/// Reads and judges the files that a command names. If the command gives a column of rows by its name, the column is
/// found in the heading of the input. Gives what is then left to do, or what was refused or failed.
pub(crate) fn make_plan<'a, F: Read, I: Read>(
    alloc: Global,
    command: &'a Command,
    files: &mut Files<F>,
    input: &mut Device<I>,
) -> Result<Plan<'a>, Fault>
    ensures { Plans F.remaining command.now files.old files.new (stream I.remaining input.old input.new) result }
{
    match command {
        Command::Classify(tag) => classify(alloc, tag.as_bytes()),
        Command::Check(_) => check(alloc, &mut files.first),
        Command::Canon(_) => plan_tags(alloc, false, files),
        Command::Codes(_, _) => plan_tags(alloc, true, files),
        Command::Tsv(_, rows) => plan_rows(alloc, Separator::Tab, rows, files, input),
        Command::Csv(_, rows, delimiter) => {
            plan_rows(alloc, Separator::Delimiter(*delimiter), rows, files, input)
        }
        Command::Match(_, ranges) => plan_match(alloc, ranges, &mut files.first),
        Command::Serve(_, header) => plan_serve(alloc, header.as_bytes(), &mut files.first),
        Command::Extlang(_, tag) => extlang(alloc, tag.as_bytes(), &mut files.first),
        Command::Equal(_, tag, other) => equal(
            alloc,
            tag.as_bytes(),
            other.as_bytes(),
            &mut files.first,
        ),
        Command::Explain(_, tag) => plan_explain(alloc, tag.as_bytes(), &mut files.first),
        Command::Verify(_, tag) => plan_verify(alloc, tag.as_bytes(), &mut files.first),
        Command::Upgrade(_, _) => upgrade(alloc, files),
        Command::Show(_, tags) => plan_show(alloc, tags, &mut files.first),
        Command::Json(_) => plan_json(alloc, &mut files.first),
    }
}
