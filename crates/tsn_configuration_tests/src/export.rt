//! Tests of `tsn_export` over its public calls alone: setups that are written, and one that would be too long.
mod tests;
