//! Tests of `tsn_meter` over its public calls alone.
mod tests;
