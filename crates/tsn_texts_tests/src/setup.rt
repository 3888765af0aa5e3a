//! Tests of `tsn_setup` over its public calls alone: which member a refusal names, and documents that are cut. What a
//! document sets up, and why it is refused, is tested through the program, in the tables `setups-*.txt` of
//! `examples/tables`.
mod cuts;
mod members;
mod samples;
