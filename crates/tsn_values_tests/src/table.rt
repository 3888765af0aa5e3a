//! Tests of `tsn_table` over its public calls alone.
mod numbers;
mod tests;
