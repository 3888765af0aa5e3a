//! What is allowed in a configuration, but seldom meant, a line for each.
//!
//! A list whose intervals together are not its cycle, and a stream gate or a flow meter to which no filter refers.
#![tactic(auto)]

pub mod laws;
mod lines;
mod lists;
mod telling;

pub use telling::remarks;
