//! What a session asks of the bridge, and what it is answered: one variant for each command, and one for each form of
//! reply.
//!
//! Readers of lines make commands, the bridge answers them, and writers tell its replies; this crate is what they
//! share, and does nothing itself. It relies on the types of what commands and replies hold: records and refusals
//! (`tsn_types`), batches (`tsn_edit`), entries (`tsn_entries`), frames and states (`tsn_chain`), numbers of instances
//! (`tsn_config`) and the text of a setup (`tsn_export`).
#![tactic(auto)]

pub mod command;
pub mod reply;

pub use tsn_entries::sessions;
