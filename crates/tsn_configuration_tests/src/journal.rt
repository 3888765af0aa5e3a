//! Tests of `tsn_journal` over its public calls alone.
mod tests;
