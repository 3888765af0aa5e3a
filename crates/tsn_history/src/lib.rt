//! A list of command lines that only grows, which threads share without its lines: a text.
//!
//! Whoever holds a `Front` has seen a beginning of the text, and of any two fronts of one text the shorter begins the
//! longer. The text exists in contracts alone: what threads share is a word, how many lines it has. So a fact about
//! what was recorded or kept can be carried out of a lock, at a word a front. It relies on the kit's `logbook`, and
//! knows neither devices nor files.
#![tactic(auto)]

mod front;

pub use front::{Book, Front, Naming, Opened};
