//! Tests of `tsn_desk` over its public calls alone: threads at one desk.
mod tally;
mod tests;
