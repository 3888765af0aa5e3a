//! Tests of `tsn_edit` over its public calls alone.
mod tests;
