//! The bridge as a machine: commands in, replies out, as `tsn_commands` has them.
//!
//! `Bridge::step` answers one command of one session, whole. The machine that it follows is defined in
//! `specs/Machine.antt` over the journal of `tsn_undo`, the configuration of `tsn_config` and what the filter chain of
//! `tsn_chain` keeps.
#![tactic(auto)]

mod acting;
pub mod bridge;
pub mod laws;
mod machine;
mod pair;
pub mod sessions;

pub use tsn_commands::{command, reply};
