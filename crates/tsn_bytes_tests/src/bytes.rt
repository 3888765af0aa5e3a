//! Tests of `tsn_bytes` over its public calls alone.
mod tests;
