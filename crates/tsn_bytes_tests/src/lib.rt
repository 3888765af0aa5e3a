//! Tests of readers and writers, of the text of a journal file and of what keeps it, over public calls alone.
//!
//! They stand beside the crates and not in them, so that proving them does not prove the crates again.
#![tactic(auto)]

#[cfg(test)]
mod bytes;
#[cfg(test)]
mod commit;
#[cfg(test)]
mod comparing;
#[cfg(test)]
mod keeping;
#[cfg(test)]
mod recorded;
