//! Tests of `tsn_port` over its public calls alone.
mod tests;
mod worked;
