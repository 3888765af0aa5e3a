//! Tests of `tsn_config` over its public calls alone.
mod tests;
