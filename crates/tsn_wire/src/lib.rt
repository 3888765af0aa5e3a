//! What goes into the service: the command that a line says.
//!
//! What a line says is defined by what `serde_json` reads of it; nothing of the bridge is looked at. A line whose
//! members stand each once, in any order and with any white space between, is read without building that tree.
#![tactic(auto)]

mod any_edits;
mod any_keys;
mod any_line;
mod any_record;
mod batches;
mod commands;
mod cursor;
mod drafts;
mod gathered;
mod guess;
mod keyed;
pub mod laws;
mod lexemes;
mod lists;
mod members;
mod ranges;
mod reading;
mod spelled;
mod spelled_batch;
mod spelled_records;
mod values;
mod words;

pub use drafts::{BatchDraft, CommandDraft, EditDraft, FrameDraft, LineDraft};
pub use reading::{command_of, value_of};
pub use spelled::spelled_draft;
pub use words::{Bare, Look, Put};
