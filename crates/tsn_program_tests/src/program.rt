//! Tests of `tsn_program` over its public calls alone.
mod tests;
