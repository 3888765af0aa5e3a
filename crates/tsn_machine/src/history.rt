//! What histories are made of. The type is for proofs alone: no value of it is ever made.

/// One call in a history: the number of the seat that made it, what it asked and what it was answered.
pub struct Entry<Q, A> {
    pub number: u64,
    pub request: Q,
    pub reply: A,
}
