//! Writing to a device, which is a writer whose failures are counted.
ghost use Rattle.std.specs.Prelude.{◌++◌, ◌∷◌, []};
ghost use Rattle.std.specs.Fmt.{decimal};
ghost use Rattle.lt_stream.specs.DeviceOutput.{WritesText};
ghost use Rattle.lt_stream.specs.Faults.{fault_said, line_said, place_said};

use crate::faults::ToolFault;
use itoa::Buffer;
use lt_jar::Device;
use std::io::Write;

/// Writes a text, in as many writes as the device needs. If one fails or takes none of some bytes, the answer is
/// `Write`, and the bytes of the text before it were written. `W.contents` in the clause is what the writer has taken,
/// where that is known.
pub fn write_text<W: Write>(text: &[u8], output: &mut Device<W>) -> Result<(), ToolFault>
    ensures { WritesText W.contents text.now output.old output.new result }
{
    let mut at = 0;
    while at < text.len() {
        match output.write(&text[at..]) {
            Ok(0) => return Err(ToolFault::Write),
            Ok(count) => at += count,
            Err(_) => return Err(ToolFault::Write),
        }
    }
    Ok(())
}

/// Writes the number of the line of a fault, for example ` line 3`. Refused as [`write_text`] is.
fn write_line<W: Write>(line: u64, output: &mut Device<W>) -> Result<(), ToolFault>
    ensures { WritesText W.contents (line_said line) output.old output.new result }
{
    write_text(b" line ", output)?;
    write_text(Buffer::new().format(line).as_bytes(), output)
}

/// Writes what is said of a fault after its name: its line, or nothing if it has none. Refused as [`write_text`] is.
fn write_place<W: Write>(fault: ToolFault, output: &mut Device<W>) -> Result<(), ToolFault>
    ensures { WritesText W.contents (place_said fault) output.old output.new result }
{
    match fault {
        ToolFault::BadCsv(line) | ToolFault::BadTsv(line) => write_line(line, output),
        _ => Ok(()),
    }
}

/// Writes the line that says what ended a run, for example `! Read` or `! BadCsv line 3`. Refused as [`write_text`]
/// is.
pub fn write_fault<W: Write>(fault: ToolFault, output: &mut Device<W>) -> Result<(), ToolFault>
    ensures { WritesText W.contents (fault_said fault) output.old output.new result }
{
    write_text(b"! ", output)?;
    write_text(fault.name().as_bytes(), output)?;
    write_place(fault, output)?;
    write_text(b"\n", output)
}
