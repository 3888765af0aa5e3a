//! How a journal file ends behind its verified lines.

/// What lies behind the last line that verifies.
#[derive(Clone, Copy, Debug, PartialEq, Eq)]
pub enum End {
    /// Nothing.
    Whole,
    /// So many bytes with no line feed among them, 1 or more: a line that was not finished.
    Unfinished { bytes: u64 },
    /// A line that does not verify: the number of the first such line, counted from 1.
    Damaged { line: u64 },
}
