//! The registry and the codes by which texts are answered.
ghost use Rattle.std.specs.List.{All};
ghost use Rattle.lt_codes.specs.Index.{IsCode};

use lt_canon::Checked;
use lt_codes::CodeTable;
use lt_registry::Lookup;

/// The registry by which texts are answered, and perhaps a table of codes.
#[derive(Drop)]
pub struct Basis<'a, L: Lookup> {
    /// The entries of a registry that passes the check.
    pub checked: &'a Checked<L>,
    /// Codes of ISO 639-2, for example `ger`: if the first subtag of a text is one of them, the text is read with the
    /// registered subtag in its place. With None each text is read as it is.
    pub codes: Option<&'a CodeTable>,
}

impl<L: Lookup> Basis<'_, L> {
    ghost use Rattle.lt_lines.specs.Owed.{codes_in};

    /// Does nothing when it runs: its clause tells the proof what form the codes have.
    pub(crate) fn know_codes(&self)
        ensures { All IsCode (codes_in self.now.codes) }
    {
        if let Some(codes) = self.codes {
            codes.know_codes();
        }
    }
}
