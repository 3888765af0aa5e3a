//! The journal: which session did what, entry by entry.
//!
//! An entry is an accepted edit (Made), the taking back of one (Undone), the taking back of that (Redone) or an act on
//! a gate list (Acted). A `Journal` is seen as the list of its entries, numbered from 1, and the room that it has for
//! more. Its finders answer what an undo or a redo of a session would take back and what stands in its way; which
//! entries stand, and each finder's answer, is defined in `specs/` over the list alone. No call reads a configuration.
#![tactic(auto)]

mod crossed;
mod finding;
mod groups;
mod index;
pub mod journal;
mod latest;
mod latest_rows;
pub mod laws;
mod touched;

pub use tsn_entries::entries;
