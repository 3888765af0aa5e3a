//! The present configuration as the text of a setup.
//!
//! A bridge that begins with the setup has the same limits and the same configuration. The text is in the plain
//! spelling: a line for each member, and none for one that is null. A port is left out where it is as one that no setup
//! names. The writing stops behind the table with which the text is longer than any setup that is read.
#![tactic(auto)]

mod entries;
mod exporting;
pub mod laws;
mod lines;
mod tables;
pub mod text;

pub use exporting::{LONGEST_SETUP, export_setup};
pub use text::{PlainText, SetupText};
