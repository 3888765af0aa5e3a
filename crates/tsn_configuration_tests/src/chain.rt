//! Tests of `tsn_chain` over its public calls alone.
mod tests;
