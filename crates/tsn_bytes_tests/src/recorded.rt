//! Tests of `tsn_recorded` over its public calls alone.
mod long;
mod reading;
mod tests;
