//! Where a setup is at fault, or a command line, in words for whoever wrote it.
//!
//! `fault_line` looks through the text of a setup that was refused for what the refusal is about, and tells the table,
//! the member, what stands there and what is allowed; of a text that is no TOML, the line. It decides nothing: whether
//! a setup is refused, and why, is decided by `tsn_setup` and `tsn_bridge`. `command_spot` does the same for a line,
//! of which `tsn_wire` decides. No contract says what it tells, but it is safe, and it ends.
#![tactic(auto)]

mod asking;
mod commands;
mod faults;
mod lines;
mod told;

pub use asking::command_spot;
pub use lines::fault_line;
