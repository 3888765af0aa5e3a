//! The mirror of one port: what the entries of a journal make of the port's record and of its list.
//!
//! A mirror is fed entries in their order, and answers the state of the port's gates at an instant as the bridge does
//! after these entries. It holds no reference to the bridge, so whoever keeps it waits for nobody.
#![tactic(auto)]

pub mod laws;
pub mod mirror;
pub mod worker;
