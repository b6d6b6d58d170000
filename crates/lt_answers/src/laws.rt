//! The laws of selecting lines, and of verdicts in every table.
ghost use Rattle.std.specs.Prelude.{List};
ghost use Rattle.lt_registry.specs.Parts.{EntryParts};
ghost use Rattle.lt_answers.specs.Laws.{ExplanationsAreRight, HaveOneVerdict, NumbersFit, SelectionIsDetermined};

use lt_canon::laws::traces_have_one_end;
use lt_registry::Lookup;

/// Of the same lines, the same language ranges always select the same ones, by the same scheme and the same entries. So
/// only one text can be right to write for the bytes of a reader. Nothing is computed here: the contract is the law.
pub fn selection_is_determined()
    ensures { (R : List EntryParts) → SelectionIsDetermined R }
{}

/// By any list of entries, the same lines have no two verdicts as an explanation of the same tag. Nothing is computed here:
/// the contract is the law.
#[tactic(auto, using(crate::proofs::JudgingLemmas::one_verdict))]
pub fn lines_have_one_verdict()
    ensures { (R : List EntryParts) → HaveOneVerdict R }
{
    // Lines name the steps of a trace, and by this law a list of steps leads from a tag to at most one end.
    traces_have_one_end();
}

/// Changes nothing. Its contract says that the number of each record of a table fits into 32 bits, which is the type of
/// numbers that entries give.
fn numbers_fit<L: Lookup>(table: &L)
    ensures { NumbersFit (L.listed table.now) }
{
    for entry in table.entries() {
        let _number = entry.number();
    }
}

/// The law that the lines that explain the text of a tag, as `explanation_text` gives them, have the verdict `Right` by
/// the same table.
#[tactic(auto, using(crate::proofs::FollowingLemmas::explanations_right))]
pub fn explanations_are_right<L: Lookup>(table: &L)
    ensures { ExplanationsAreRight (L.listed table.now) }
{
    // This call tells the proof that the number of each record fits into 32 bits.
    numbers_fit(table);
}
