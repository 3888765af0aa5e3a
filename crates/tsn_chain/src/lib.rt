//! The filter chain of per-stream filtering and policing, and what a bridge keeps of each instance while it runs.
//!
//! A frame is passed or dropped by its stream filter, that filter's stream gate and flow meter (802.1Q-2018, 8.6.5).
//! What the chain says of a frame and leaves of the instances is defined in `specs/` as a table, a row for each step. A
//! `Runtime` keeps the bridge time and, by key, that instance data: counters, flags and latches, buckets, and the
//! runners of the gate control lists. It follows the changes of a configuration, which it reads and never changes. The
//! bridge keeps one beside its book. Only `Runtime::new`, `begin`, `reserve` and `apply` take memory.
#![tactic(auto)]

mod begin;
pub mod chain;
pub mod choose;
pub mod data;
pub mod frame;
mod frames;
pub mod laws;
mod rows;
pub mod runtime;
pub mod state;
