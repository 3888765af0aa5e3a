//! Tests of `tsn_serve` over its public calls alone.
mod tests;
