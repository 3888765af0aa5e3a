//! Tests of `tsn_server` over its public calls alone.
mod client;
mod tests;
