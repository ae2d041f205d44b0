//! What the audit answers.

/// What an audit answers of a snapshot.
#[derive(Clone, Copy, Debug, PartialEq, Eq)]
pub enum Verdict {
    /// The bytes are a snapshot's text, and all its points hold.
    Sound,
    /// The bytes are no snapshot's text: the number of the first line that does not fit, is missing, has no line feed or is too
    /// many, counted from 1.
    Line(u32),
    /// The bytes are a snapshot's text: the number of the lowest point that does not hold, from 1 to 8.
    Point(u32),
}
