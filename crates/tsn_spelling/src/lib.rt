//! The line of an ask in the service's compact spelling, as a journal file keeps it: JSON with no spaces, its
//! members in ascending order of their names, and no line feed.
//!
//! `spell` is the call of the layer above. What it puts reads back as the ask, by `laws::reads_back`, and each ask that
//! came from a line has such a line, by `laws::was_asked`. It stands on the reader of `tsn_wire`, whose definitions say
//! what the value of a command is, and on the pieces of `tsn_encoding`, by which a record is told in a reply, too.
#![tactic(auto)]

mod bare;
mod edits;
pub mod laws;
mod line;
mod recorded;
mod spelling;

pub use spelling::spell;
