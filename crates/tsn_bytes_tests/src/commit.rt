//! Tests of `tsn_commit` over its public calls alone, with a device in memory: each of its calls fails in turn, two
//! threads record at once, and more is recorded than may wait.
mod reading;
mod tests;
mod working;
