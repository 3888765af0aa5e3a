//! What the program does with what is asked for: over the text of a setup, a reader and two writers, each of which may
//! fail, to a status.
#![tactic(auto)]

mod checking;
mod lines;
mod program;
mod script;
mod states;

pub use lines::check_lines;
pub use program::run;
