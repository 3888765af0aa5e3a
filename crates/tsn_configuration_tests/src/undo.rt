//! Tests of `tsn_undo` over its public calls alone.
mod tests;
