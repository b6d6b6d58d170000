//! What is judged of the lines of an explanation.

/// What is judged of the lines of an explanation: that they are right, or their first fault. A line is named by its
/// number, counted from 1.
#[derive(Clone, Copy, Debug, PartialEq, Eq)]
pub enum Verdict {
    /// Each line is that of a step that leads on, with the text of the tag to which it leads, and after them is
    /// the line of the end: `= ` and the text of the last tag.
    Right,
    /// This line names a step, which leads nowhere from the tag to which the lines before it lead.
    NoSuchStep(u64),
    /// The line of the end has another text than that of the tag to which the lines before it lead.
    WrongEnd,
    /// This line names neither a step nor the end, or names a step with the text of another tag than that to which the
    /// step leads; or it is missing, or it comes after the line of the end.
    BadStep(u64),
}
