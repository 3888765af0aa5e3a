//! The calls under one number. The type is for proofs alone: no value of it is ever made.
use std::collections::LinkedList;
use tsn_machine::history::Entry;

/// The calls that were made under one number, in their order.
pub struct Calls<Q, A> {
    pub number: u64,
    pub made: LinkedList<Entry<Q, A>>,
}
