//! Tests of `tsn_types` over its public calls alone.
mod tests;
