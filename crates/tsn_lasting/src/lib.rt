//! A script whose sessions' work lasts: its lines are answered over a bridge with a recorder, what is recorded goes
//! into a journal file, and a reply goes out only once all that was recorded up to it is kept there.
//!
//! `run_lasting` is the call of the layer above. It reads a window, answers its lines, has the journal keep what they
//! left by one sync, and then hands their replies on. A reply that is longer than what may wait has the journal keep
//! what was recorded first. The law is the contract: at each end, good or bad, what the writer took are the first
//! replies of a run all of whose recorded commands are kept. It relies on `tsn_serve` for the lines, on `tsn_replay`
//! for the recorder, on `tsn_spelling` for the text of a command, and on `tsn_keeping` for the file.
#![tactic(auto)]

mod backlog;
mod lasting;
mod running;

pub use backlog::{Backlog, Nowhere};
pub use lasting::{CommandLine, Lasting, LastingFault};
pub use running::run_lasting;
