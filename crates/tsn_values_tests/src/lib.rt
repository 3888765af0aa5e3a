//! Tests of records, tables, edits, schedules and meters, over public calls alone.
//!
//! They stand beside the crates and not in them, so that proving them does not prove the crates again.
#![tactic(auto)]

#[cfg(test)]
mod comparing;
#[cfg(test)]
mod edit;
#[cfg(test)]
mod meter;
#[cfg(test)]
mod schedule;
#[cfg(test)]
mod table;
#[cfg(test)]
mod types;
