//! Tests of setups, command lines and replies as texts, over public calls alone.
//!
//! They stand beside the crates and not in them, so that proving them does not prove the crates again.
#![tactic(auto)]

#[cfg(test)]
mod comparing;
#[cfg(test)]
mod records;
#[cfg(test)]
mod replies;
#[cfg(test)]
mod setup;
#[cfg(test)]
mod spelling;
#[cfg(test)]
mod wire;
