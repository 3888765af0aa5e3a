//! A machine that answers requests one at a time, and the histories of its calls.
//!
//! It is what a bridge is to the rest: the desk serves a machine to many threads, a recorder is one over a bridge, and
//! a script steps one alone. What a history is, which histories are legal, and which calls of one are whose, is defined
//! in `specs/History.antt`. It relies on nothing.
#![tactic(auto)]

pub mod history;
pub mod machine;
