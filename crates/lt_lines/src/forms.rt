//! What a line is.

/// How rows are answered.
#[derive(Clone, Copy, Debug, PartialEq, Eq)]
pub struct RowForm {
    /// How many fields are before the one that is a tag.
    pub before: usize,
    /// Whether the first row is a heading. No tag is looked for in it: it is answered by itself and the names of the
    /// fields that are added, `langtag_fault`, or `langtag` and `langtag_fault` if rows are kept.
    pub has_heading: bool,
    /// Whether rows are kept. Then each row stays as it is, and two fields are added: the tag's canonical text, which
    /// is empty if the row is refused, and why the row is refused, which is empty if it is not.
    pub is_kept: bool,
}

/// What each line of a run is, and so how it is answered.
#[derive(Clone, Copy, Debug, PartialEq, Eq)]
pub enum LineForm {
    /// A tag; a carriage return that ends the line is no part of it. It is answered by its canonical text, or
    /// by `! ` and why it is refused: `zh-yue` by `yue`, and `en_US` by `! BadByte 1`.
    Tag,
    /// A row of fields with a tab between them, one of them a tag. A carriage return that ends the line is no part of
    /// its last field, and a byte order mark of UTF-8 before the first row is no part of that row. If rows are not
    /// kept, the answer is the row with the canonical text in the place of the tag, and a further field, which is
    /// empty. If the tag is refused, the answer is the row as it is, and the further field says why; if there are too
    /// few fields, it says `NoColumn`.
    Row(RowForm),
    /// A record of CSV (RFC 4180, 2): a line, or several lines if line feeds are within quotes. It is answered as a row
    /// is. This byte, a comma in RFC 4180, parts its fields, except within quotes. A quote begins quoted text where a
    /// field begins, and right after the quote that ended quoted text; elsewhere it is a byte like any other. If a
    /// field has a quote at both ends, its text is what is between them, and the quotes stay. A record (also a heading)
    /// with a carriage return outside of quotes, except at the end of its line, is refused: it stays as it is, and its
    /// last field is `BadReturn`, since some programs end a record there and others don't.
    Csv(RowForm, u8),
}
