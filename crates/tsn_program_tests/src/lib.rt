//! Tests of scripts, connections, servers and the program, over public calls alone.
//!
//! They stand beside the crates and not in them, so that proving them does not prove the crates again.
#![tactic(auto)]

#[cfg(test)]
mod comparing;
#[cfg(test)]
mod program;
#[cfg(test)]
mod resuming;
#[cfg(test)]
mod serve;
#[cfg(test)]
mod server;
