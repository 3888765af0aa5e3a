//! The text of a journal file: its writer, and its reader.
//!
//! The file has a line for each recorded command: a digest, a stamp and the command. Each digest goes on from the one
//! before, so that a line which was changed, doubled, moved within the file or lost ahead of another is seen. Not seen
//! are lines lost from the end up to a line feed. Of what commands say this crate knows nothing.
//!
//! `Chain` writes: each write moves its digest on. `Reader` is fed a file piece by piece, whatever its bytes are, and
//! gives the longest front of verified lines, one after the other, and which `End` lies behind them. It holds what was
//! fed and not given, and never more of a line than the longest may have. The laws in `laws` say, of the same
//! definitions, that what was written reads back, cut after any byte too, and what a digest stands for.
#![tactic(auto)]

mod chain;
mod digest;
mod end;
mod held;
mod laws;
mod line;
mod reader;

pub use chain::{AROUND, Chain};
pub use end::End;
pub use line::{
    LONGEST_COMMAND, LONGEST_FIRST_COMMAND, LONGEST_FIRST_LINE, LONGEST_LINE, LONGEST_STAMP,
};
pub use reader::Reader;
pub use tsn_bytes::append;
