//! Where quotes begin and end quoted text, and what is outside of it.
ghost use Rattle.std.specs.Prelude.{◌≡◌};
ghost use Rattle.lt_rows.specs.Quotes.{SplitsOutside, is_quoted, place_after, place_at, place_outside};
ghost use Rattle.lt_rows.specs.Splitting.{IsFreeOf};

use crate::splitting::split_first;

/// Where a byte of CSV stands.
#[derive(Clone, Copy, Debug, PartialEq, Eq)]
pub enum Place {
    /// A field begins here, or quoted text has just ended: a quote begins quoted text.
    Fresh,
    /// Further on in a field: a quote is a byte like any other.
    Plain,
    /// Within quotes.
    Quoted,
}

impl Place {
    /// Whether the place is within quotes.
    pub fn is_quoted(self) -> bool
        ensures { result ≡ is_quoted self }
    {
        matches!(self, Place::Quoted)
    }

    /// The place after `byte`, which stands at this place. `delimiter` is what parts fields.
    fn after(self, delimiter: u8, byte: u8) -> Place
        ensures { result ≡ place_after delimiter self byte }
    {
        match self {
            Place::Quoted if byte == b'"' => Place::Fresh,
            Place::Quoted => Place::Quoted,
            Place::Fresh if byte == b'"' => Place::Quoted,
            Place::Fresh | Place::Plain => outside(delimiter, byte),
        }
    }

    /// The place after `front`, a text without quotes (34) that begins at this place. `delimiter` is what parts fields.
    /// Of a text with quotes the clause says nothing.
    #[tactic(auto, using(crate::proofs::RowLemmas::place_of_free, crate::proofs::RowLemmas::quoted_of_free))]
    fn after_front(self, delimiter: u8, front: &[u8]) -> Place
        ensures { IsFreeOf 34 front.now → result ≡ place_at delimiter self front.now }
    {
        match front.last() {
            Some(byte) if !self.is_quoted() => outside(delimiter, *byte),
            _ => self,
        }
    }
}

/// The place after a byte that is outside of quotes and is no quote.
fn outside(delimiter: u8, byte: u8) -> Place
    ensures { result ≡ place_outside delimiter byte }
{
    if byte == b'\n' || byte == delimiter {
        Place::Fresh
    } else {
        Place::Plain
    }
}

/// The place after a text of CSV that begins at `place`. `delimiter` is what parts fields. The text is read from
/// quote to quote.
#[tactic(auto, using(crate::proofs::RowLemmas::place_past_quote))]
pub fn after_text(delimiter: u8, place: Place, text: &[u8]) -> Place
    ensures { result ≡ place_at delimiter place text.now }
{
    let mut now = place;
    let mut rest = text;
    while let Some((front, after)) = split_first(b'"', rest) {
        now = now.after_front(delimiter, front).after(delimiter, b'"');
        rest = after;
    }
    now.after_front(delimiter, rest)
}

/// What is before the first `stop` outside of quotes, and what is after it. None if no `stop` is outside of quotes.
/// `delimiter` is what parts fields. The text is read from one `stop` to the next.
pub(crate) fn split_outside(delimiter: u8, stop: u8, text: &[u8]) -> Option<(&[u8], &[u8])>
    ensures { SplitsOutside delimiter stop text.now result }
{
    let mut place = Place::Fresh;
    let mut passed = 0;
    while let Some((front, after)) = split_first(stop, &text[passed..]) {
        place = after_text(delimiter, place, front);
        passed += front.len();
        if !place.is_quoted() {
            return Some((&text[..passed], after));
        }
        place = place.after(delimiter, stop);
        passed += 1;
    }
    None
}
