//! Tests of the configuration, the filter chain, the export of setups, the journal and undo, over public calls alone.
//!
//! They stand beside the crates and not in them, so that proving them does not prove the crates again.
#![tactic(auto)]

#[cfg(test)]
mod chain;
#[cfg(test)]
mod comparing;
#[cfg(test)]
mod config;
#[cfg(test)]
mod export;
#[cfg(test)]
mod journal;
#[cfg(test)]
mod undo;
