//! Answering lines that come in pieces. Of an unfinished line the first bytes, its front, are kept, and answers that
//! are not yet written are owed. The `terms` of clauses are the registry's entries, the codes and the form of lines. A
//! look at a row is what was found of it before it is answered (`line_looks`). `recent` has the answers that were given
//! lately; they are right (`AreRecent`) if each is the answer that is owed for its text.
ghost use Rattle.std.specs.Prelude.{◌≡◌, ◌≤◌, ◌+◌, ◌++◌, ◌∷◌, ◌↔◌, List, ℕ, [], false, IfOk, IsTrue, OnOk, length, take, vec_len};
ghost use Rattle.lt_jar.specs.Lines.{IsOneLine};
ghost use Rattle.lt_registry.specs.Parts.{EntryParts};
ghost use Rattle.lt_lines.specs.Owed.{ground_of, terms};
ghost use Rattle.lt_rows.specs.Looks.{LacksIn};
ghost use Rattle.lt_rows.specs.Quotes.{is_quoted};
ghost use Rattle.lt_lines.specs.Tallied.{line_at as at_line};
ghost use Rattle.lt_lines.specs.Looks.{IsAhead, IsLook};
ghost use Rattle.lt_stream.specs.Lined.{full};
ghost use Rattle.lt_lines.specs.Answering as spec;
ghost use Rattle.lt_lines.specs.Owed as owed;

use crate::answer_lines::without_return;
use crate::answer_rows::append_among;
use crate::bases::Basis;
use crate::forms::LineForm;
use crate::line_looks::{is_open, lacks_in, look_ahead, place_then};
use crate::recent_answers::{RecentAnswers, append_again};
use crate::runs::Counts;
use crate::tallying::count_if;
use lt_jar::Device;
use lt_registry::Lookup;
use lt_rows::{Lacks, Look, Place, Separator, split_first};
use lt_stream::{Tallies, ToolFault, write_text};
use lt_tag::OutOfMemory;
use std::alloc::{AllocError, Global};
use std::io::Write;

/// The most bytes that are kept of a line that is a tag. The longest tag has 1,024. A code may be a byte longer than
/// the subtag that replaces it, one byte more tells that the line is too long, and a carriage return may end it.
const LONGEST_KEPT: usize = 1027;

/// The most bytes of a row or a record, which is kept whole: 16 MiB.
const LONGEST_ROW: usize = 16_777_216;

/// Answers wait to be written until they are this many bytes, or until the next read.
const FULL: usize = 65536;

/// Lines that come in pieces, and the answers that are owed for them.
#[derive(Drop)]
pub(crate) struct Answering {
    /// The front of the last line, which no line feed ended so far.
    kept: Vec<u8>,
    /// The place at the end of the kept bytes, within quotes or outside: a line feed within quotes ends no record.
    place: Place,
    /// How many line feeds came so far.
    feeds: u64,
    /// Answers that wait to be written.
    owed: Vec<u8>,
    counts: Counts,
    /// The lines that were refused, by their faults.
    pub(crate) tallies: Tallies,
    /// Answers that were given lately.
    recent: RecentAnswers,
}

/// Appends a further part of a line to the bytes that are kept of it. Of a line that is a tag, at most `LONGEST_KEPT`
/// bytes are kept in all, and the rest of `part` is dropped.
fn keep(form: LineForm, kept: &mut Vec<u8>, part: &[u8]) -> Result<(), AllocError>
    ensures { OnOk result (kept.new.items ≡ kept.old.items ++ spec.part_kept form (vec_len kept.old) part.now) }
{
    match form {
        LineForm::Tag => {
            let room = LONGEST_KEPT.saturating_sub(kept.len());
            kept.extend_from_slice(&part[..part.len().min(room)])
        }
        LineForm::Row(_) | LineForm::Csv(_, _) => kept.extend_from_slice(part),
    }
}

/// The fault of a row or a record that is too long, with the number of the line in which it begins.
fn long_fault(form: LineForm, line: u64) -> ToolFault
    ensures { result ≡ owed.long_fault form line }
{
    match form {
        LineForm::Tag | LineForm::Row(_) => ToolFault::BadTsv(line),
        LineForm::Csv(_, _) => ToolFault::BadCsv(line),
    }
}

/// Appends the answer to a line, and tells whether it was refused. The line is the first `count` bytes of `text` (which
/// must have so many); what follows them changes no answer, but lets up to 64 bytes be looked at together. `is_first`
/// is whether it is the first of all, so that it may be a heading, and `look` must be the look at it, if there was one.
/// If the answers in `recent` are right, so is this one, and they stay right.
#[tactic(auto, using(crate::proofs::TextLemmas::csv_recent))]
#[inline(always)]
fn append_reply<L: Lookup>(
    lines: &mut Vec<u8>,
    alloc: Global,
    basis: &Basis<'_, L>,
    form: LineForm,
    is_first: bool,
    recent: &mut RecentAnswers,
    look: &Option<Look>,
    text: &[u8],
    count: usize,
) -> Result<bool, OutOfMemory>
    requires count { count ≤ length text.now }
    requires look { IsLook form (take count text.now) look.now }
    ensures owed { IfOk result (λ refused. spec.AreRecent (L.listed basis.now.checked.now) form recent.old
        → spec.AppendsReply (terms (ground_of L.listed basis.now) form) is_first (take count text.now) lines.old.items lines.new.items refused) }
    ensures recent { OnOk result (spec.AreRecent (L.listed basis.now.checked.now) form recent.old → spec.AreRecent (L.listed basis.now.checked.now) form recent.new) }
{
    match form {
        LineForm::Tag => append_again(
            lines,
            alloc,
            basis,
            recent,
            text,
            without_return(&text[..count]).len(),
        ),
        LineForm::Row(row) => append_among(
            lines,
            alloc,
            basis,
            Separator::Tab,
            row,
            is_first,
            recent,
            look,
            text,
            count,
        ),
        LineForm::Csv(row, delimiter) => append_among(
            lines,
            alloc,
            basis,
            Separator::Delimiter(delimiter),
            row,
            is_first,
            recent,
            look,
            text,
            count,
        ),
    }
}

/// Appends the answer to a line of which a front was kept, and tells whether it was refused. The line is what is in
/// `kept` and then `part`, which is kept too; `is_first` is whether it is the first of all. By `owed` this answers each
/// line of which these bytes are kept, since of a long tag the rest isn't kept. If the answers in `recent` are right,
/// so is this one, and they stay right.
#[inline(never)]
fn append_kept_line<L: Lookup>(
    lines: &mut Vec<u8>,
    alloc: Global,
    basis: &Basis<'_, L>,
    form: LineForm,
    is_first: bool,
    recent: &mut RecentAnswers,
    kept: &mut Vec<u8>,
    part: &[u8],
) -> Result<bool, OutOfMemory>
    ensures owed { IfOk result (λ refused. spec.AreRecent (L.listed basis.now.checked.now) form recent.old
        → spec.AppendsLine (terms (ground_of L.listed basis.now) form) is_first kept.old.items part.now lines.old.items lines.new.items refused) }
    ensures kept { OnOk result (kept.new.items ≡ kept.old.items ++ spec.part_kept form (vec_len kept.old) part.now) }
    ensures recent { OnOk result (spec.AreRecent (L.listed basis.now.checked.now) form recent.old → spec.AreRecent (L.listed basis.now.checked.now) form recent.new) }
{
    keep(form, kept, part)?;
    // This does nothing but tell the proof what form codes have.
    basis.know_codes();
    append_reply(
        lines,
        alloc,
        basis,
        form,
        is_first,
        recent,
        &None,
        kept,
        kept.len(),
    )
}

/// Appends the answer to a line, and tells whether it was refused. The line is what is in `kept` and then the first
/// `count` bytes of `text` (which must have so many), which are kept too if anything was. What follows them changes no
/// answer, but lets up to 64 bytes be looked at together. `is_first` is whether it is the first of all. `look` must be
/// the look at it, and there must be none if anything is kept. If the answers in `recent` are right, so is this one,
/// and they stay right.
#[inline(always)]
fn append_line<L: Lookup>(
    lines: &mut Vec<u8>,
    alloc: Global,
    basis: &Basis<'_, L>,
    form: LineForm,
    is_first: bool,
    recent: &mut RecentAnswers,
    look: &Option<Look>,
    kept: &mut Vec<u8>,
    text: &[u8],
    count: usize,
) -> Result<bool, OutOfMemory>
    requires count { count ≤ length text.now }
    requires look { IsAhead form kept.old.items (take count text.now) look.now }
    ensures owed { IfOk result (λ refused. spec.AreRecent (L.listed basis.now.checked.now) form recent.old
        → spec.AppendsLine (terms (ground_of L.listed basis.now) form) is_first kept.old.items (take count text.now) lines.old.items lines.new.items refused) }
    ensures kept { OnOk result (spec.KeepsPart form kept.old.items (take count text.now) kept.new.items) }
    ensures recent { OnOk result (spec.AreRecent (L.listed basis.now.checked.now) form recent.old → spec.AreRecent (L.listed basis.now.checked.now) form recent.new) }
{
    if kept.is_empty() {
        return append_reply(
            lines, alloc, basis, form, is_first, recent, look, text, count,
        );
    }
    append_kept_line(
        lines,
        alloc,
        basis,
        form,
        is_first,
        recent,
        kept,
        &text[..count],
    )
}

/// The line that was answered: what is kept, or `part` if nothing is kept.
fn line_at<'a>(kept: &'a [u8], part: &'a [u8]) -> &'a [u8]
    ensures { result.now ≡ at_line kept.now part.now }
{
    if kept.is_empty() { part } else { kept }
}

impl Answering {
    /// The state before any byte is taken: no answers wait, and nothing is counted. `recent` is empty, so it is right
    /// by any entries and form.
    pub(crate) fn new(alloc: Global) -> Answering
        ensures items { (result.kept.items ≡ []) × (result.owed.items ≡ []) }
        ensures place { (result.place ≡ Place.Fresh) × (result.feeds ≡ 0) }
        ensures counts { (result.counts.lines ≡ 0) × (result.counts.refused ≡ 0) }
        ensures tallies { result.tallies ≡ [] }
        ensures recent { (R : List EntryParts) (form : LineForm) → spec.AreRecent R form result.recent }
    {
        Answering {
            kept: Vec::new(alloc),
            place: Place::Fresh,
            feeds: 0,
            owed: Vec::new(alloc),
            counts: Counts {
                lines: 0,
                refused: 0,
            },
            tallies: Tallies::new(alloc),
            recent: RecentAnswers::new(alloc),
        }
    }

    /// Answers the line that ends after the first `count` bytes of `text` (which must have so many), counts it, and
    /// keeps nothing of it. What follows these bytes changes no answer, but lets up to 64 bytes be looked at together.
    /// `look` must be the look at the line, and there must be none if a front of the line was kept. The counts must
    /// have room for one more line, below 2^64. By `taken`, if these bytes end a whole line, a state that was right for
    /// what was read and written so far is right after them and a line feed (10) too. By `counted` one line feed was
    /// counted, and at most one line.
    #[inline(always)]
    fn answer_line<L: Lookup>(
        &mut self,
        alloc: Global,
        basis: &Basis<'_, L>,
        form: LineForm,
        look: &Option<Look>,
        text: &[u8],
        count: usize,
    ) -> Result<(), OutOfMemory>
        requires room { spec.HasRoom self.old 1 }
        requires count { count ≤ length text.now }
        requires look { IsAhead form self.old.kept.items (take count text.now) look.now }
        ensures taken { OnOk result ((bytes out : List ℕ) → spec.IsWholeAfter form self.old.kept.items self.old.place (take count text.now)
            → spec.IsTaken (terms (ground_of L.listed basis.now) form) bytes out self.old
            → spec.IsTaken (terms (ground_of L.listed basis.now) form) (bytes ++ (take count text.now ++ 10 ∷ [])) out self.new) }
        ensures kept { OnOk result (self.new.kept.items ≡ []) }
        ensures counted { OnOk result (spec.CountsFeed self.old self.new) }
    {
        let start = self.owed.len();
        let refused = append_line(
            &mut self.owed,
            alloc,
            basis,
            form,
            self.counts.lines == 0,
            &mut self.recent,
            look,
            &mut self.kept,
            text,
            count,
        )?;
        count_if(
            &mut self.tallies,
            alloc,
            &form,
            self.counts.lines + 1,
            line_at(&self.kept, &text[..count]),
            // What is owed only grew; `min` spares the proof of that.
            &self.owed[start.min(self.owed.len())..],
            refused,
        )?;
        self.counts.count(refused);
        self.kept.clear();
        self.place = Place::Fresh;
        self.feeds += 1;
        Ok(())
    }

    /// Keeps `part`, the bytes before a line feed that is within quotes, and the line feed. The counts must have room
    /// for one more line, below 2^64.
    #[inline(never)]
    fn go_on(&mut self, form: LineForm, part: &[u8]) -> Result<(), OutOfMemory>
        requires { spec.HasRoom self.old 1 }
        ensures taken { OnOk result (spec.GoesOn form part.now self.old self.new) }
    {
        keep(form, &mut self.kept, part)?;
        keep(form, &mut self.kept, b"\n")?;
        self.place = Place::Quoted;
        self.feeds += 1;
        Ok(())
    }

    /// Takes the first `count` bytes of `text` (which must have so many) and the line feed after them: answers the row
    /// or the record that they end, or keeps them if the line feed is within quotes. What follows in `text` changes no
    /// answer, but lets up to 64 bytes be looked at together. `lacks` must be true of the `count` bytes: it is what
    /// they are known to lack. The counts must have room for one more line, below 2^64. By `taken`, if these bytes have
    /// no line feed (10) and don't make the row too long, a state that was right for what was read and written so far
    /// is right with them too. By `counted` one line feed was counted, and at most one line as answered.
    #[inline(never)]
    fn end_row<L: Lookup>(
        &mut self,
        alloc: Global,
        basis: &Basis<'_, L>,
        form: LineForm,
        lacks: Lacks,
        text: &[u8],
        count: usize,
    ) -> Result<(), OutOfMemory>
        requires room { spec.HasRoom self.old 1 }
        requires count { count ≤ length text.now }
        requires lacks { LacksIn (take count text.now) lacks }
        ensures taken { OnOk result ((bytes out : List ℕ) → IsOneLine (take count text.now) → (spec.IsLongBy form (length self.old.kept.items) (length (take count text.now)) → ⊥) → spec.IsTaken (terms (ground_of L.listed basis.now) form) bytes out self.old
            → spec.IsTaken (terms (ground_of L.listed basis.now) form) (bytes ++ (take count text.now ++ 10 ∷ [])) out self.new) }
        ensures counted { OnOk result (spec.CountsFeed self.old self.new) }
    {
        let part = &text[..count];
        let look = look_ahead(form, lacks, &self.kept, text, count);
        if is_open(form, &look, self.place, part) {
            return self.go_on(form, part);
        }
        self.answer_line(alloc, basis, form, &look, text, count)
    }

    /// Takes the first `count` bytes of `text` (which must have so many) and the line feed after them: answers the line
    /// that they end, or keeps them if the line feed is within the quotes of a record. What follows in `text` changes
    /// no answer, but lets up to 64 bytes be looked at together. `lacks` must be true of the `count` bytes: it is what
    /// they are known to lack. The counts must have room for one more line, below 2^64. By `taken`, if these bytes have
    /// no line feed (10) and don't make the line too long, a state that was right for what was read and written so far
    /// is right with them too. By `counted` one line feed was counted, and at most one line as answered.
    #[inline(always)]
    fn end_line<L: Lookup>(
        &mut self,
        alloc: Global,
        basis: &Basis<'_, L>,
        form: LineForm,
        lacks: Lacks,
        text: &[u8],
        count: usize,
    ) -> Result<(), OutOfMemory>
        requires room { spec.HasRoom self.old 1 }
        requires count { count ≤ length text.now }
        requires lacks { LacksIn (take count text.now) lacks }
        ensures taken { OnOk result ((bytes out : List ℕ) → IsOneLine (take count text.now) → (spec.IsLongBy form (length self.old.kept.items) (length (take count text.now)) → ⊥) → spec.IsTaken (terms (ground_of L.listed basis.now) form) bytes out self.old
            → spec.IsTaken (terms (ground_of L.listed basis.now) form) (bytes ++ (take count text.now ++ 10 ∷ [])) out self.new) }
        ensures counted { OnOk result (spec.CountsFeed self.old self.new) }
    {
        match form {
            LineForm::Tag => self.answer_line(alloc, basis, LineForm::Tag, &None, text, count),
            LineForm::Row(_) | LineForm::Csv(_, _) => {
                self.end_row(alloc, basis, form, lacks, text, count)
            }
        }
    }

    /// Writes the answers that wait, so that none waits then (`emptied`). Refused if the write fails: then the first
    /// bytes of what waited were written, perhaps none (`writes`).
    fn write<W: Write>(&mut self, output: &mut Device<W>) -> Result<(), ToolFault>
        ensures writes { spec.WritesOwed W.contents self.old self.new output.old output.new result }
        ensures emptied { OnOk result (self.new.owed.items ≡ []) }
    {
        write_text(&self.owed, output)?;
        self.owed.clear();
        Ok(())
    }

    /// Writes the answers that wait if they are `FULL` bytes or more, and else nothing. Refused if the write fails.
    fn write_much<W: Write>(&mut self, output: &mut Device<W>) -> Result<(), ToolFault>
        ensures writes { spec.WritesOwed W.contents self.old self.new output.old output.new result }
        ensures emptied { OnOk result (full ≤ vec_len self.old.owed → self.new.owed.items ≡ []) }
    {
        if self.owed.len() < FULL {
            return Ok(());
        }
        self.write(output)
    }

    /// Whether a row or a record is too long once `count` bytes follow what is kept of it. A tag's line is never too
    /// long.
    fn is_too_long(&self, form: LineForm, count: usize) -> bool
        ensures { IsTrue result ↔ spec.IsLongBy form (length self.now.kept.items) count }
    {
        match form {
            LineForm::Tag => false,
            LineForm::Row(_) | LineForm::Csv(_, _) => {
                self.kept.len().saturating_add(count) > LONGEST_ROW
            }
        }
    }

    /// The number of the line, counted from 1, in which the kept part of a row or a record begins. The counts must have
    /// room for one more line, below 2^64.
    fn kept_from(&self) -> u64
        requires { spec.HasRoom self.now 1 }
        ensures { result ≡ spec.line_of self.now }
    {
        let within = self.kept.iter().filter(|byte| **byte == b'\n').count();
        self.feeds.saturating_sub(within as u64) + 1
    }

    /// Ends the run at a row or a record that is too long: writes the answers that wait, and gives the fault, which
    /// names the line in which the row begins; or `Write`, if the write fails. The counts must have room for one more
    /// line, below 2^64.
    #[inline(never)]
    fn stop_long<W: Write>(&mut self, form: LineForm, output: &mut Device<W>) -> ToolFault
        requires { spec.HasRoom self.old 1 }
        ensures { spec.StopsLong form W.contents self.old self.new output.old output.new result }
    {
        match self.write(output) {
            Ok(()) => long_fault(form, self.kept_from()),
            Err(fault) => fault,
        }
    }

    /// Takes `piece`, the next bytes of the input, answers the lines that they end, and writes the answers. A last line
    /// without a line feed is kept for the next piece. Refused at a row or a record that is too long, and where memory
    /// runs out or a write fails. The counts must have room for one line more than `piece` has bytes, each of which may
    /// be a line feed.
    pub(crate) fn take_piece<L: Lookup, W: Write>(
        &mut self,
        alloc: Global,
        basis: &Basis<'_, L>,
        form: LineForm,
        piece: &[u8],
        output: &mut Device<W>,
    ) -> Result<(), ToolFault>
        requires { spec.HasRoom self.old (length piece.now + 1) }
        ensures { spec.TakesPiece (terms (ground_of L.listed basis.now) form) W.contents piece.now self.old self.new output.old output.new result }
    {
        let lacks = lacks_in(form, piece);
        let mut rest = piece;
        while let Some((line, after)) = split_first(b'\n', rest) {
            if self.is_too_long(form, line.len()) {
                return Err(self.stop_long(form, output));
            }
            self.end_line(alloc, basis, form, lacks, rest, line.len())?;
            self.write_much(output)?;
            rest = after;
        }
        if self.is_too_long(form, rest.len()) {
            return Err(self.stop_long(form, output));
        }
        self.place = place_then(form, self.place, rest);
        keep(form, &mut self.kept, rest)?;
        self.write(output)
    }

    /// Answers a last line that has no line feed, if there is one. What is kept is the whole line: no bytes follow, and
    /// there was no look. The text must not end within quotes, and the counts must have room for one more line, below
    /// 2^64. Then all lines are answered of what was read so far, if the state was right for that.
    fn end_last<L: Lookup>(
        &mut self,
        alloc: Global,
        basis: &Basis<'_, L>,
        form: LineForm,
    ) -> Result<(), OutOfMemory>
        requires room { spec.HasRoom self.old 1 }
        requires closed { is_quoted self.old.place ≡ false }
        ensures { OnOk result ((bytes out : List ℕ) → spec.IsTaken (terms (ground_of L.listed basis.now) form) bytes out self.old
            → spec.IsAnswered (terms (ground_of L.listed basis.now) form) bytes out self.new) }
    {
        if self.kept.is_empty() {
            return Ok(());
        }
        self.answer_line(alloc, basis, form, &None, &[], 0)
    }

    /// Answers a last line without a line feed, if there is one, writes the answers that wait, and gives the counts.
    /// Refused where memory runs out or a write fails. The text must not end within quotes, and the counts must have
    /// room for one more line, below 2^64.
    fn finish_closed<L: Lookup, W: Write>(
        &mut self,
        alloc: Global,
        basis: &Basis<'_, L>,
        form: LineForm,
        output: &mut Device<W>,
    ) -> Result<Counts, ToolFault>
        requires room { spec.HasRoom self.old 1 }
        requires closed { is_quoted self.old.place ≡ false }
        ensures { spec.FinishesLines (terms (ground_of L.listed basis.now) form) W.contents self.old self.new output.old output.new result }
    {
        self.end_last(alloc, basis, form)?;
        self.write(output)?;
        Ok(self.counts)
    }

    /// Answers a last line without a line feed, if there is one, writes the answers that wait, and gives the counts.
    /// Refused with `BadCsv` if the text ends within quotes, and where memory runs out or a write fails. The counts
    /// must have room for one more line, below 2^64.
    pub(crate) fn finish<L: Lookup, W: Write>(
        &mut self,
        alloc: Global,
        basis: &Basis<'_, L>,
        form: LineForm,
        output: &mut Device<W>,
    ) -> Result<Counts, ToolFault>
        requires { spec.HasRoom self.old 1 }
        ensures { spec.FinishesLines (terms (ground_of L.listed basis.now) form) W.contents self.old self.new output.old output.new result }
    {
        if self.place.is_quoted() {
            return Err(ToolFault::BadCsv(self.kept_from()));
        }
        self.finish_closed(alloc, basis, form, output)
    }
}
