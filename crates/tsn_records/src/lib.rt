//! Records as values of a text format hold them: the text of a key, the shape of a record and the ranges of its
//! numbers.
//!
//! A table says the members of each kind of record (`allowed`). A value becomes a draft where its members and their
//! kinds are those of a record, whatever its format (`formats`), and a draft becomes a record where each number is in
//! its range. What a record looks like as a JSON value is defined here too.
#![tactic(auto)]

pub mod allowed;
pub mod drafts;
pub mod formats;
pub mod keys;
pub mod members;
pub mod ranges;
pub mod records;
pub mod unread;
pub mod values;
