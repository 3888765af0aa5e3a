//! The text of a reply: one line of compact JSON, its members in ascending order of their names.
//!
//! A reply is written to a writer of bytes piece by piece, by the pieces of `tsn_encoding`. None of it takes memory.
#![tactic(auto)]

pub mod laws;
mod reply;
mod running;

pub use reply::{write_kept, write_lent, write_refusal, write_reply, write_reply_by};
