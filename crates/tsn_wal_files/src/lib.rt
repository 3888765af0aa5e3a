//! Journal files as a process has them: opened or made, read, and gone on from, with the lines that say what went
//! wrong.
//!
//! What a start does with each end of a file stands here: it goes on from a whole one, moves an unfinished line out of
//! the way, and leaves a damaged file alone. What is read, kept and told is for the crates below; scripts, a server and
//! looks at a journal stand above, beside one another.
#![tactic(auto)]

mod journal;
mod lines;
mod progress;

pub use journal::{
    JournalFault, NO_MEMORY, WallClock, error_of, fail_over, resume_from, say, start,
};
pub use lines::NewText;
