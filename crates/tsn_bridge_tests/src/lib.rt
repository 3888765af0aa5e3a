//! Tests of a desk, of a bridge behind one and of the workers of its ports, over public calls alone.
//!
//! They stand beside the crates and not in them, so that proving them does not prove the crates again.
#![tactic(auto)]

#[cfg(test)]
mod bridge;
#[cfg(test)]
mod comparing;
#[cfg(test)]
mod desk;
#[cfg(test)]
mod port;
