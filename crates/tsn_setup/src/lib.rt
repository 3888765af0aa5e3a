//! A bridge's setup from a document: its limits, and the records of its first configuration.
//!
//! A document is a TOML table. Its members that are numbers are the limits; the tables `port`, `filter`, `gate` and
//! `meter` are records, each with its identifier and the members that the record has in a command. A member that would
//! be null there is left out here. References, repeated keys and the limits on identifiers and lists are not looked
//! at: who opens a configuration of it tests them.
#![tactic(auto)]

mod drafts;
mod gathered;
mod given;
pub mod laws;
mod members;
mod plain;
mod plain_documents;
mod plain_entries;
mod plain_tables;
mod ranges;
mod setups;
mod tables;

pub use setups::setup_of;
