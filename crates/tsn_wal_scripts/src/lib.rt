//! Scripts over a journal file, as a process runs them: from the words and the file to the status.
//!
//! It relies on `tsn_wal_files` for the file at a start, and on `tsn_lasting` for the run itself.
#![tactic(auto)]

mod script;

pub use script::script_over;
