//! Tests of `tsn_schedule` over its public calls alone.
mod histories;
mod tests;
