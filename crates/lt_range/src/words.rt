//! White space and words, by which an element of a header is cut: a word is a range or a qvalue, and ends before white
//! space or a semicolon.
ghost use Rattle.std.specs.Prelude.{◌≡◌};
ghost use Rattle.lt_range.specs.Words.{front, rest};
ghost use Rattle.lt_range.specs.Words as spec;

/// Whether a byte is a space or a tab.
fn is_blank(byte: u8) -> bool
    ensures { result ≡ spec.is_blank byte }
{
    byte == b' ' || byte == b'\t'
}

/// Whether a byte is neither white space nor a semicolon, which end a range and a qvalue.
fn is_word_byte(byte: u8) -> bool
    ensures { result ≡ spec.is_word_byte byte }
{
    !is_blank(byte) && byte != b';'
}

/// What follows the white space at the front of a text.
pub(crate) fn after_blanks(text: &[u8]) -> &[u8]
    ensures { result.now ≡ rest spec.is_blank text.now }
{
    for (i, byte) in text.iter().enumerate() {
        if !is_blank(*byte) {
            return &text[i..];
        }
    }
    &[]
}

/// The bytes before the first white space or semicolon, and what follows them.
pub(crate) fn cut_word(text: &[u8]) -> (&[u8], &[u8])
    ensures word { result.0.now ≡ front spec.is_word_byte text.now }
    ensures others { result.1.now ≡ rest spec.is_word_byte text.now }
{
    for (i, byte) in text.iter().enumerate() {
        if !is_word_byte(*byte) {
            return text.split_at(i);
        }
    }
    (text, &[])
}
