//! What is printed when a run ends.
ghost use Rattle.std.specs.Prelude.{◌≡◌, IfOk};
ghost use Rattle.lt_stream.specs.Faults.{fault_said};
ghost use Rattle.lt_lines.specs.Refusals.{IsRefusalLine};
ghost use Rattle.lt_tool.specs.Ends as spec;
ghost use Rattle.lt_tool.specs.Ends.{Finishes, PrintsEnd, SaysEnd, SaysFault};
ghost use Rattle.lt_tool.specs.Faults as faults;
ghost use Rattle.lt_tool.specs.Faults.{IsFaultLine, IsRegistryLine};
ghost use Rattle.lt_tool.specs.Streams.{stream};
ghost use Rattle.lt_tool.specs.Written.{Prints, Says};

use crate::answers::Answer;
use crate::faults::{Fault, Role};
use crate::registries::RegistryRefusal;
use lt_answers::Verdict;
use lt_canon::TextRefusal;
use lt_codes::{TableFault, TableFaultKind};
use lt_jar::Device;
use lt_lines::append_refusal;
use lt_stream::{ToolFault, write_fault, write_text};
use lt_tag::OutOfMemory;
use lt_upgrade::UpgradeCondition;
use std::alloc::Global;
use std::io::Write;

/// The line that is printed for a text that is refused, for example `! BadByte 1`. `Err` if memory runs out, and for
/// `TextRefusal::OutOfMemory`, which has no line.
fn refusal_line(alloc: Global, refusal: &TextRefusal) -> Result<Vec<u8>, OutOfMemory>
    ensures { IfOk result (λ line. IsRefusalLine refusal.now line.items) }
{
    let mut line = Vec::new(alloc);
    append_refusal(&mut line, refusal)?;
    Ok(line)
}

/// The line that is printed for a registry that is refused, for example `jar BadLine line 3`. `Err` if memory runs out,
/// and for `RegistryRefusal::OutOfMemory`, which has no line.
fn registry_line(
    alloc: Global,
    role: Role,
    refusal: &RegistryRefusal,
) -> Result<Vec<u8>, OutOfMemory>
    ensures { IfOk result (λ line. IsRegistryLine role refusal.now line.items) }
{
    let mark = role.mark();
    let line = match refusal {
        RegistryRefusal::Jar(fault) => {
            let (name, number) = (fault.kind.name(), fault.line);
            format!(in alloc; "{mark}jar {name} line {number}\n")?
        }
        RegistryRefusal::Record(fault) => {
            let (name, number) = (fault.kind.name(), fault.number);
            format!(in alloc; "{mark}record {number} {name}\n")?
        }
        RegistryRefusal::Check(finding) => {
            let (code, number) = (finding.condition.code(), finding.number);
            format!(in alloc; "{mark}check {code} record {number}\n")?
        }
        RegistryRefusal::OutOfMemory => return Err(OutOfMemory),
    };
    Ok(line.into_bytes())
}

/// The line that is printed for a table of codes that is refused, for example `codes BadRow line 2`. `Err` if memory
/// runs out, and for `TableFaultKind::OutOfMemory`, which has no line.
fn table_line(alloc: Global, fault: &TableFault) -> Result<Vec<u8>, OutOfMemory>
    ensures { IfOk result (λ line. faults.IsTableLine fault.now line.items) }
{
    if fault.kind == TableFaultKind::OutOfMemory {
        return Err(OutOfMemory);
    }
    let (name, number) = (fault.kind.name(), fault.line);
    let line = format!(in alloc; "codes {name} line {number}\n")?;
    Ok(line.into_bytes())
}

/// The line that is printed for a registry that is no upgrade, for example `upgrade U1 record 3`.
fn upgrade_line(
    alloc: Global,
    condition: UpgradeCondition,
    number: u32,
) -> Result<Vec<u8>, OutOfMemory>
    ensures { IfOk result (λ line. line.items ≡ faults.upgrade_line condition number) }
{
    let code = condition.code();
    let line = format!(in alloc; "upgrade {code} record {number}\n")?;
    Ok(line.into_bytes())
}

/// The line that is printed for a verdict on an explanation: `ok`, or what is wrong, for example `! BadStep 2` with the
/// number of the step. Refused if memory runs out.
fn verdict_line(alloc: Global, verdict: Verdict) -> Result<Vec<u8>, OutOfMemory>
    ensures { IfOk result (λ line. line.items ≡ faults.verdict_line verdict) }
{
    let line = match verdict {
        Verdict::Right => format!(in alloc; "ok\n")?,
        Verdict::NoSuchStep(number) => format!(in alloc; "! NoSuchStep {number}\n")?,
        Verdict::WrongEnd => format!(in alloc; "! WrongEnd\n")?,
        Verdict::BadStep(number) => format!(in alloc; "! BadStep {number}\n")?,
    };
    Ok(line.into_bytes())
}

/// The line that is printed for a fault. It is empty for a fault that is told on the standard error instead: wrong
/// usage, a file that can't be opened, or a run that failed. `Err` if memory ran out, for the line or before it.
fn line_of(alloc: Global, fault: &Fault) -> Result<Vec<u8>, OutOfMemory>
    ensures { IfOk result (λ line. IsFaultLine fault.now line.items) }
{
    match fault {
        Fault::Text(refusal) | Fault::OtherText(refusal) => refusal_line(alloc, refusal),
        Fault::Registry(role, refusal) => registry_line(alloc, *role, refusal),
        Fault::Table(fault) => table_line(alloc, fault),
        Fault::Upgrade(condition, number) => upgrade_line(alloc, *condition, *number),
        Fault::Explanation(verdict) => verdict_line(alloc, *verdict),
        Fault::Usage(_) | Fault::File(_) | Fault::Run(_) => Ok(Vec::new(alloc)),
    }
}

/// Prints the line of a fault, if it has one. Refused if the write fails or memory runs out for the line.
fn print_fault<O: Write>(
    alloc: Global,
    fault: &Fault,
    output: &mut Device<O>,
) -> Result<(), ToolFault>
    ensures { Prints (IsFaultLine fault.now) (stream O.contents output.old output.new) result }
{
    let line = line_of(alloc, fault)?;
    write_text(&line, output)
}

/// Prints the answer, or the line of the fault, if it has one. `Err` means that this could not be printed, since the write
/// failed or memory ran out for the line. If the fault was printed, that is `Ok`.
fn print_end<O: Write>(
    alloc: Global,
    end: &Result<Answer, Fault>,
    output: &mut Device<O>,
) -> Result<(), ToolFault>
    ensures { PrintsEnd end.now (stream O.contents output.old output.new) result }
{
    match end {
        Ok(answer) => write_text(answer.line(), output),
        Err(fault) => print_fault(alloc, fault, output),
    }
}

/// What a run came to. `end` is what it came to before that was printed, and `printed` is what came of printing it: the
/// run comes to `end` if it was printed, and else to the fault of printing.
fn end_after(end: Result<Answer, Fault>, printed: Result<(), ToolFault>) -> Result<Answer, Fault>
    ensures { result ≡ spec.end_after end printed }
{
    match printed {
        Ok(()) => end,
        Err(fault) => Err(Fault::Run(fault)),
    }
}

/// Writes a text to the standard error, up to the first write that fails. Its device counts that failure.
fn say<E: Write>(text: &[u8], errors: &mut Device<E>)
    ensures { Says (stream E.contents errors.old errors.new) text.now }
{
    // A write that fails is counted by the device.
    let _ = write_text(text, errors);
}

/// Writes the fault that ended a run to the standard error, for example `! Read`, up to the first write that fails.
fn say_fault<E: Write>(fault: ToolFault, errors: &mut Device<E>)
    ensures { Says (stream E.contents errors.old errors.new) (fault_said fault) }
{
    // A write that fails is counted by the device.
    let _ = write_fault(fault, errors);
}

/// Tells on the standard error what failed, or how the words are wrong. It writes nothing for a fault whose line is
/// printed on the standard output.
fn say_of<E: Write>(fault: &Fault, errors: &mut Device<E>)
    ensures { SaysFault fault.now (stream E.contents errors.old errors.new) }
{
    match fault {
        Fault::Usage(text) => say(text.as_bytes(), errors),
        Fault::File(_) => say(b"! File\n", errors),
        Fault::Run(fault) => say_fault(*fault, errors),
        Fault::Text(_) | Fault::OtherText(_) | Fault::Registry(_, _) => {}
        Fault::Table(_) | Fault::Upgrade(_, _) | Fault::Explanation(_) => {}
    }
}

/// Tells on the standard error what a run came to, if it failed or its words are wrong. It writes nothing for any other
/// end.
fn say_end<E: Write>(end: &Result<Answer, Fault>, errors: &mut Device<E>)
    ensures { SaysEnd end.now (stream E.contents errors.old errors.new) }
{
    match end {
        Ok(_) => {}
        Err(fault) => say_of(fault, errors),
    }
}

/// Ends a run: prints the answer or the line of what was refused on `output`, or tells on `errors`, the standard error,
/// what failed. Gives what the run came to, which is the fault of printing if a write to `output` failed or memory ran
/// out.
pub(crate) fn finish<O: Write, E: Write>(
    alloc: Global,
    end: Result<Answer, Fault>,
    output: &mut Device<O>,
    errors: &mut Device<E>,
) -> Result<Answer, Fault>
    ensures { Finishes end (stream O.contents output.old output.new) (stream E.contents errors.old errors.new) result }
{
    let printed = print_end(alloc, &end, output);
    let end = end_after(end, printed);
    say_end(&end, errors);
    end
}
