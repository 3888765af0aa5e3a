//! What is read back from a journal.
use std::alloc::{AllocError, Global};
use tsn_recorded::Reader;

/// How many lines the text has that verify, and how many of these have this command.
pub fn count_lines(alloc: Global, text: &[u8], command: &[u8]) -> Result<(u64, u64), AllocError> {
    let mut reader = Reader::new(alloc);
    reader.feed(text)?;
    let mut same = 0u64;
    'lines: while reader.advance() {
        if reader.command() == command {
            same = same.saturating_add(1);
        }
    }
    Ok((reader.lines(), same))
}
