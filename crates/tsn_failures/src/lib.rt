//! Why a run of the program ends with another status than 0, and the lines that say so.
//!
//! A `Failure` has one line. What a run shows and what it tells goes to writers that may fail, and contracts say what
//! they took (`specs/Output.antt`). The text of a setup is read here too, since only this can fail ahead of all else.
#![tactic(auto)]

mod failures;
mod files;
mod starting;
mod telling;

pub use failures::Failure;
pub use files::read_setup;
pub use starting::{Undone, fail_start};
pub use telling::{fail, show, status_of, tell};
