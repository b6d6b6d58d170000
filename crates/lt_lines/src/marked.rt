//! Answering a text that may begin with a byte order mark.
ghost use Rattle.std.specs.Prelude.{◌≡◌, ◌↔◌, ◌+◌, IsTrue, length};
ghost use Rattle.lt_lines.specs.Marked.{BeginsText, FinishesText, HasRoomFor, IsNew, TakesText};
ghost use Rattle.lt_lines.specs.Owed.{MayHaveMark, Terms, ground_of, terms};

use crate::answering::Answering;
use crate::bases::Basis;
use crate::forms::LineForm;
use crate::runs::Counts;
use lt_jar::Device;
use lt_registry::Lookup;
use lt_rows::{is_wide, may_be_mark, split_mark};
use lt_stream::{ToolFault, write_text};
use std::alloc::Global;
use std::io::Write;

/// A text that comes in pieces and may begin with a byte order mark, and the answers to its lines.
#[derive(Drop)]
pub(crate) struct Marked {
    /// The first bytes, while they may be a part of a mark.
    front: Vec<u8>,
    /// Whether the mark, if there is one, is written, so that all bytes that follow are answered as lines.
    is_begun: bool,
    pub(crate) answering: Answering,
}

/// Whether a byte order mark is looked for before lines of this form. It is before rows and records. It is not before
/// tags, each of which is answered as it is.
fn may_have_mark(form: LineForm) -> bool
    ensures { IsTrue result ↔ MayHaveMark form }
{
    match form {
        LineForm::Tag => false,
        LineForm::Row(_) | LineForm::Csv(_, _) => true,
    }
}

impl Marked {
    /// The state of a text whose lines have this form, before any byte is taken. As nothing is answered yet, the clause
    /// holds for any registry and codes (`terms`) with this form.
    pub(crate) fn new(alloc: Global, form: LineForm) -> Marked
        ensures { (terms : Terms) → terms.form ≡ form → IsNew terms result }
    {
        let front = Vec::new(alloc);
        let answering = Answering::new(alloc);
        Marked {
            front,
            is_begun: !may_have_mark(form),
            answering,
        }
    }

    /// Ends the wait for a byte order mark: writes the mark with which the kept bytes begin, if there is one, and
    /// answers the lines of what follows it. Refused at a row or a record that is too long, and where memory runs out
    /// or a write fails. The counts must have room for one line more than bytes are kept.
    fn begin<L: Lookup, W: Write>(
        &mut self,
        alloc: Global,
        basis: &Basis<'_, L>,
        form: LineForm,
        output: &mut Device<W>,
    ) -> Result<(), ToolFault>
        requires { HasRoomFor self.old 1 }
        ensures { BeginsText (terms (ground_of L.listed basis.now) form) W.contents self.old self.new output.old output.new result }
    {
        let (mark, text) = split_mark(&self.front);
        write_text(mark, output)?;
        self.is_begun = true;
        self.answering.take_piece(alloc, basis, form, text, output)?;
        self.front.clear();
        Ok(())
    }

    /// Takes the next bytes of the input, answers the lines that they end, and writes the answers. The first bytes wait
    /// until it is known whether they are a byte order mark. Refused with `Utf16` at a byte order mark of UTF-16, at a
    /// row or a record that is too long, and where memory runs out or a write fails. The counts must have room for one
    /// line for each byte that is kept or in `piece`, and one more.
    pub(crate) fn take_piece<L: Lookup, W: Write>(
        &mut self,
        alloc: Global,
        basis: &Basis<'_, L>,
        form: LineForm,
        piece: &[u8],
        output: &mut Device<W>,
    ) -> Result<(), ToolFault>
        requires { HasRoomFor self.old (length piece.now + 1) }
        ensures { TakesText (terms (ground_of L.listed basis.now) form) W.contents piece.now self.old self.new output.old output.new result }
    {
        if self.is_begun {
            return self.answering.take_piece(alloc, basis, form, piece, output);
        }
        self.front.extend_from_slice(piece)?;
        if is_wide(&self.front) {
            return Err(ToolFault::Utf16);
        }
        if may_be_mark(&self.front) {
            return Ok(());
        }
        self.begin(alloc, basis, form, output)
    }

    /// Answers a last line without a line feed, if there is one, writes the answers that wait, and gives the counts.
    /// Refused with `BadCsv` if the text ends within quotes, and where memory runs out or a write fails. The counts
    /// must have room for one line for each byte that is kept, and one more.
    pub(crate) fn finish<L: Lookup, W: Write>(
        &mut self,
        alloc: Global,
        basis: &Basis<'_, L>,
        form: LineForm,
        output: &mut Device<W>,
    ) -> Result<Counts, ToolFault>
        requires { HasRoomFor self.old 1 }
        ensures { FinishesText (terms (ground_of L.listed basis.now) form) W.contents self.old self.new output.old output.new result }
    {
        if self.is_begun {
            return self.answering.finish(alloc, basis, form, output);
        }
        self.begin(alloc, basis, form, output)?;
        self.answering.finish(alloc, basis, form, output)
    }
}
