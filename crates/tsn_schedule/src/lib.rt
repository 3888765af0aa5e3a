//! Gate control lists over time: which list is in force, which of its entries, and when a pending change comes.
//!
//! A port's and a stream gate's lists run by the same rules (802.1Q-2018, 8.6.9 and 8.6.10). What is in force, and the
//! state at an instant, are defined in `specs/` over all the acts on one object (enable, disable, apply). A `Runner`
//! keeps no list of acts, and yet its contracts promise, for every list of acts that it stands for, the answers of
//! those definitions. The layer above keeps a runner for each port and stream gate. Only `Planned::copy_of` takes
//! memory, which `Runner::apply` calls before it changes anything.
#![tactic(auto)]

pub mod calendar;
pub mod laws;
pub mod planned;
pub mod runner;
pub mod timed;
