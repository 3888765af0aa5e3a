//! The test of `tsn_replies` that only its public calls can make: how long a short reply may be. What replies say is
//! tested through the program, in the tables `replies-*.txt` of `examples/tables`.
mod spelling;
