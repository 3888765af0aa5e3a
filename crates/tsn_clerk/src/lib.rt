//! A server whose sessions' work lasts: a clerk records each turn at the desk, and replies wait until what they tell of
//! is kept.
#![tactic(auto)]

mod clerk;
mod host;
mod line;
mod talk;
mod windows;

pub use clerk::{Clerk, Heard, Manner};
pub use host::LastingHost;
pub use talk::{Talk, TalkFault};
pub use windows::talk_on;
