//! The initial configuration of a bridge: the bridge that the text of a setup opens.
//!
//! `bridge_of` reads the setup, by `tsn_setup`, and has `tsn_bridge` open it, which tests what the setup alone can't
//! tell: references, repeated keys, and the limits on identifiers and lists.
#![tactic(auto)]

mod opening;

pub use opening::bridge_of;
