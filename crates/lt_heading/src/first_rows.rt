//! Reading the first row of a text that comes in pieces, after its byte order mark, if it has one.
ghost use Rattle.std.specs.Prelude.{◌≡◌, [], IfOk};
ghost use Rattle.lt_heading.specs.Headings as spec;
ghost use Rattle.lt_heading.specs.Headings.{AppendsPart, BeginsText, EndsText, FinishesText, IsGoing, IsRowSoFar, IsUndecided, TakesPiece, TakesText};

use lt_rows::{Place, Separator, after_text, is_wide, may_be_mark, split_first, split_mark};
use lt_stream::{Pieces, ToolFault};
use std::alloc::{AllocError, Global};

/// The most bytes of a row: 16 MiB, as of the rows that are answered after the heading.
const LONGEST_ROW: usize = 16_777_216;

/// The first row of a text that comes in pieces.
#[derive(Drop)]
pub(crate) struct FirstRow {
    /// The first bytes, while they may be a part of a byte order mark, and then the mark.
    pub(crate) mark: Vec<u8>,
    /// Whether the mark is known.
    is_begun: bool,
    /// The text after the mark.
    pub(crate) text: Vec<u8>,
    /// The place at the end of that text, within quotes or outside, while the text is one row.
    place: Place,
}

/// The place in a row after the bytes of `part`, given the place before them. Only CSV has quotes, so in TSV it is
/// always `Fresh`.
fn place_then(separator: Separator, place: Place, part: &[u8]) -> Place
    ensures { result ≡ spec.place_then separator place part.now }
{
    match separator {
        Separator::Tab => Place::Fresh,
        Separator::Delimiter(delimiter) => after_text(delimiter, place, part),
    }
}

/// The fault of a first row that is too long, with the number of its line, 1.
fn long_fault(separator: Separator) -> ToolFault
    ensures { result ≡ spec.long_fault separator }
{
    match separator {
        Separator::Tab => ToolFault::BadTsv(1),
        Separator::Delimiter(_) => ToolFault::BadCsv(1),
    }
}

/// Appends `part` to a row at whose end `place` is the place, within quotes or outside, and gives the place after it.
/// Refused with `BadTsv(1)` or `BadCsv(1)` if the row is longer than 16 MiB then, and with `OutOfMemory`.
fn append_part(
    separator: Separator,
    text: &mut Vec<u8>,
    place: Place,
    part: &[u8],
) -> Result<Place, ToolFault>
    ensures { AppendsPart separator place part.now text.old.items text.new.items result }
{
    if text.len().saturating_add(part.len()) > LONGEST_ROW {
        return Err(long_fault(separator));
    }
    text.extend_from_slice(part)?;
    Ok(place_then(separator, place, part))
}

/// Appends a piece to a text, which must be one row so far and not too long, with `place` as the place at its end. Gives the
/// index at which the row ends, or None if it goes on; `place` moves on to the new end of the text. Refused as `append_part`
/// is.
fn take_text(
    separator: Separator,
    text: &mut Vec<u8>,
    place: &mut Place,
    piece: &[u8],
) -> Result<Option<usize>, ToolFault>
    requires { IsRowSoFar separator text.old.items place.old }
    ensures { TakesText separator piece.now text.old.items text.new.items place.new result }
{
    let mut rest = piece;
    while let Some((part, after)) = split_first(b'\n', rest) {
        *place = append_part(separator, text, *place, part)?;
        if !place.is_quoted() {
            let end = text.len();
            text.extend_from_slice(b"\n")?;
            text.extend_from_slice(after)?;
            return Ok(Some(end));
        }
        *place = append_part(separator, text, *place, b"\n")?;
        rest = after;
    }
    *place = append_part(separator, text, *place, rest)?;
    Ok(None)
}

impl FirstRow {
    /// The state before any byte is taken (`nothing`): a byte order mark may still come (`undecided`).
    pub(crate) fn new(alloc: Global) -> FirstRow
        ensures undecided { IsUndecided result }
        ensures nothing { spec.taken_by result ≡ [] }
    {
        FirstRow {
            mark: Vec::new(alloc),
            is_begun: false,
            text: Vec::new(alloc),
            place: Place::Fresh,
        }
    }

    /// Splits the byte order mark off the bytes that are kept in `mark`, and takes the bytes after it as text. It gives
    /// the index in that text at which the first row ends, or None if the row goes on. Refused as `append_part` is. No
    /// text must have been taken before (`none`), so that the place is still the one where a text begins (`fresh`).
    fn begin(&mut self, separator: Separator) -> Result<Option<usize>, ToolFault>
        requires none { self.old.text.items ≡ [] }
        requires fresh { self.old.place ≡ Place.Fresh }
        ensures { BeginsText separator self.old self.new result }
    {
        let (mark, text) = split_mark(&self.mark);
        let count = mark.len();
        let end = take_text(separator, &mut self.text, &mut self.place, text)?;
        self.mark.truncate(count);
        self.is_begun = true;
        Ok(end)
    }

    /// Takes the next bytes, and gives the index in the text after the mark at which the first row ends, or None if the
    /// row goes on. Refused with `Utf16` if all bytes so far begin with a byte order mark of UTF-16, or as
    /// `append_part` is. The bytes before must not have ended the first row.
    fn take_piece(&mut self, separator: Separator, piece: &[u8]) -> Result<Option<usize>, ToolFault>
        requires { IsGoing separator self.old }
        ensures { TakesPiece separator piece.now self.old self.new result }
    {
        if self.is_begun {
            return take_text(separator, &mut self.text, &mut self.place, piece);
        }
        self.mark.extend_from_slice(piece)?;
        if is_wide(&self.mark) {
            return Err(ToolFault::Utf16);
        }
        if may_be_mark(&self.mark) {
            return Ok(None);
        }
        self.begin(separator)
    }

    /// All bytes that were taken: the mark, and the text after it.
    pub(crate) fn into_bytes(self) -> Result<Vec<u8>, AllocError>
        ensures { IfOk result (λ bytes. bytes.items ≡ spec.taken_by self) }
    {
        let FirstRow {
            mut mark,
            text,
            is_begun: _,
            place: _,
        } = self;
        mark.extend_from_slice(&text)?;
        Ok(mark)
    }

    /// Ends the text, which is one row, and gives its length. Refused with `BadCsv(1)` if the text ends within quotes.
    /// Only `place` tells that, so the clause holds for every separator.
    fn end_text(&self) -> Result<usize, ToolFault>
        ensures { (separator : Separator) → EndsText separator self.now result }
    {
        if self.place.is_quoted() {
            return Err(ToolFault::BadCsv(1));
        }
        Ok(self.text.len())
    }

    /// Ends the bytes, and gives the index in the text after the mark at which the first row ends. Refused with `BadCsv(1)`
    /// if the text ends within quotes, or as `append_part` is. The bytes must not have ended the first row before.
    fn finish(&mut self, separator: Separator) -> Result<usize, ToolFault>
        requires { IsGoing separator self.old }
        ensures { FinishesText separator (spec.taken_by self.old) self.new result }
    {
        if self.is_begun {
            return self.end_text();
        }
        match self.begin(separator)? {
            Some(end) => Ok(end),
            None => self.end_text(),
        }
    }
}

/// The heading of rows that come in pieces: the first row, and what stands between its fields.
#[derive(Drop)]
pub(crate) struct Heading {
    pub(crate) separator: Separator,
    pub(crate) first: FirstRow,
}

impl Pieces<()> for Heading {
    type Answer = usize;

    /// Between two pieces all bytes that were read are kept, and they don't end the first row.
    ghost taken = { λ first start now read here. spec.IsTaken first.separator read here };

    /// A piece ends the run if it ends the first row, or if the row can't be taken.
    ghost stopped = { λ first start now read here result. spec.StopsPieces first.separator read here.first result };

    /// The reader's end ends the first row, or the row can't be taken.
    ghost finished = { λ first start now read here result. FinishesText first.separator read here.first result };

    /// Takes the next bytes, and gives the index in the text after the mark at which the first row ends, or None if the
    /// row goes on. Refused as `FirstRow::take_piece` is.
    fn take_piece(
        &mut self,
        _alloc: Global,
        piece: &[u8],
        _output: &mut (),
    ) -> Result<Option<usize>, ToolFault> {
        self.first.take_piece(self.separator, piece)
    }

    /// Ends the bytes, and gives the index in the text after the mark at which the first row ends. Refused as
    /// `FirstRow::finish` is.
    fn finish(&mut self, _alloc: Global, _output: &mut ()) -> Result<usize, ToolFault> {
        self.first.finish(self.separator)
    }
}
