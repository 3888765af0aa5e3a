//! Tests of `tsn_resuming` over its public calls alone.
mod journals;
mod tests;
