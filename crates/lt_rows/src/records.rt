//! Records in the words of RFC 4180.
ghost use Rattle.std.specs.Prelude.{◌≢◌, ◌↔◌, ℕ, List};
ghost use Rattle.lt_rows.specs.Records.{IsClosedRecord, IsCsvRecord};

/// A law, which does nothing. A text is a record in the words of RFC 4180 (section 2) exactly if no line feed outside
/// of quotes parts it and it does not end within quotes. Any byte may part fields but a quote (34) and a line feed
/// (10).
pub fn records_are_those_of_the_grammar()
    ensures { (delimiter : ℕ) (text : List ℕ) → delimiter ≢ 34 → delimiter ≢ 10 → IsClosedRecord delimiter text ↔ IsCsvRecord delimiter text }
{}
