//! The managed objects of scheduled traffic and of per-stream filtering and policing, as types.
//!
//! Keys, records, limits and refusals of a bridge's configuration (802.1Q-2018, 12.29 and 12.31). A value of one of
//! these types is in its range by its type, and `Record::recall_ranges` says so to the proofs, which see plain numbers.
//! `Record::refs` says what a record refers to, `Limits` how many instances and list entries there may be, and
//! `Refusal` why a command is refused. Only `push`, `try_clone` and `SessionName::new`
//! take memory.
#![tactic(auto)]

pub mod keys;
pub mod limits;
pub mod lists;
pub mod names;
pub mod numbers;
mod ranges;
pub mod records;
pub mod refusals;
