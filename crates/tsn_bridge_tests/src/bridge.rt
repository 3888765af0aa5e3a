//! Tests of `tsn_bridge` over its public calls alone.
mod desks;
mod tests;
