//! Lines that are tags, and rows with a column of tags. The ground is what they are answered by: a registry, and a
//! table of codes if one is named. The front is the bytes of the input that were read already to find a column by its
//! name; their rows are answered too.
ghost use Rattle.std.specs.Prelude.{◌≡◌};
ghost use Rattle.lt_tool.specs.Rows as spec;
ghost use Rattle.lt_tool.specs.Rows.{FindsPlace, PlansRows, PlansTags, ReadsCodes, ReadsGround};
ghost use Rattle.lt_tool.specs.Streams.{stream};
ghost use Rattle.lt_tool.specs.declared.faults.Fault.TheVariants as faults;

use crate::faults::{Fault, Role};
use crate::plans::{Ground, LinesPlan, Plan};
use crate::registries::read_registry;
use crate::streams::Files;
use lt_codes::CodeTable;
use lt_heading::{ColumnFault, FoundColumn, find_column};
use lt_jar::Device;
use lt_lines::{LineForm, RowForm};
use lt_rows::Separator;
use lt_words::{Column, Rows};
use std::alloc::Global;
use std::io::Read;

/// The table of codes of a file. None if `is_named` says that the command names no table; then the file is not read.
/// Refused if the file can't be read as a table.
fn read_codes<F: Read>(
    alloc: Global,
    is_named: bool,
    file: &mut Device<F>,
) -> Result<Option<CodeTable>, Fault>
    ensures { ReadsCodes is_named (stream F.remaining file.old file.new) result }
{
    if !is_named {
        return Ok(None);
    }
    match CodeTable::read(alloc, file) {
        Ok(codes) => Ok(Some(codes)),
        Err(fault) => Err(Fault::Table(fault)),
    }
}

/// What lines are answered by: the registry of the first file, and the table of codes of the second if `is_named`. Refused if
/// the registry or the table is; if the registry is, the second file is not read.
fn read_ground<F: Read>(
    alloc: Global,
    is_named: bool,
    files: &mut Files<F>,
) -> Result<Ground, Fault>
    ensures { ReadsGround F.remaining is_named files.old files.new result }
{
    let checked = read_registry(alloc, Role::Only, &mut files.first)?;
    let codes = read_codes(alloc, is_named, &mut files.second)?;
    Ok(Ground { checked, codes })
}

/// The plan to answer the lines of the input as tags, by a registry, and by a table of codes if `is_named`; or why a file is
/// refused.
pub(crate) fn plan_tags<'a, F: Read>(
    alloc: Global,
    is_named: bool,
    files: &mut Files<F>,
) -> Result<Plan<'a>, Fault>
    ensures { PlansTags F.remaining is_named files.old files.new result }
{
    let ground = read_ground(alloc, is_named, files)?;
    Ok(Plan::Lines(LinesPlan {
        ground,
        form: LineForm::Tag,
        front: None,
    }))
}

/// The form of rows whose column of tags has this number, counted from 1. The form has the number of fields before that
/// column. `rows` says whether the first row is a heading, and whether rows are kept as they are and get fields added.
fn row_form(rows: &Rows, number: usize) -> RowForm
    ensures { result ≡ spec.row_form rows.now number }
{
    RowForm {
        before: number.saturating_sub(1),
        has_heading: rows.heading,
        is_kept: rows.keep,
    }
}

/// The form of each line: a row of TSV if tabs part the fields, and a record of CSV if a delimiter does. `number` is
/// that of the column of tags, counted from 1; `rows` has the options of the command line.
fn line_form(separator: Separator, rows: &Rows, number: usize) -> LineForm
    ensures { result ≡ spec.line_form separator rows.now number }
{
    let form = row_form(rows, number);
    match separator {
        Separator::Tab => LineForm::Row(form),
        Separator::Delimiter(delimiter) => LineForm::Csv(form, delimiter),
    }
}

/// Where the column of tags is.
#[derive(Drop)]
pub(crate) struct ColumnPlace {
    /// Its number, counted from 1.
    number: usize,
    /// What was read of the input to find it by its name; None if its number was given.
    front: Option<Vec<u8>>,
}

impl From<ColumnFault> for Fault {
    ghost from_gives = { λ missing fault. fault ≡ spec.of_column_fault missing };

    /// The fault of a column that is not found. It is wrong usage, with the line that says so, if the heading does not
    /// have the name exactly once; or else the fault with which reading the heading failed.
    fn from(fault: ColumnFault) -> Fault {
        match fault {
            ColumnFault::Name(line) => Fault::Usage(line),
            ColumnFault::Heading(fault) => Fault::Run(fault),
        }
    }
}

/// Where the column of tags is, which the words give by its number, or by its name in the heading of the input. The
/// input is read only for a name. Refused if the heading does not have the name exactly once, or can't be read.
fn place_of<I: Read>(
    alloc: Global,
    separator: Separator,
    column: &Column,
    input: &mut Device<I>,
) -> Result<ColumnPlace, Fault>
    ensures { FindsPlace separator column.now (stream I.remaining input.old input.new) result }
{
    let name = match column {
        Column::Number(number) => {
            return Ok(ColumnPlace {
                number: *number,
                front: None,
            });
        }
        Column::Name(name) => name,
    };
    match find_column(alloc, separator, name, input) {
        Ok(FoundColumn { number, front }) => Ok(ColumnPlace {
            number,
            front: Some(front),
        }),
        Err(fault) => Err(Fault::from(fault)),
    }
}

/// The plan to answer the rows of the input, with `separator` between their fields. Refused if a file is, or if the
/// column of tags is not found; that is looked for once the files have passed.
pub(crate) fn plan_rows<'a, F: Read, I: Read>(
    alloc: Global,
    separator: Separator,
    rows: &Rows,
    files: &mut Files<F>,
    input: &mut Device<I>,
) -> Result<Plan<'a>, Fault>
    ensures { PlansRows F.remaining separator rows.now files.old files.new (stream I.remaining input.old input.new) result }
{
    let ground = read_ground(alloc, rows.codes.is_some(), files)?;
    let place = place_of(alloc, separator, &rows.column, input)?;
    let ColumnPlace { number, front } = place;
    Ok(Plan::Lines(LinesPlan {
        ground,
        form: line_form(separator, rows, number),
        front,
    }))
}
