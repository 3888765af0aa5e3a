//! The test of `tsn_records` that only its public calls can make: the refusals of what is not read. Keys, kinds,
//! records and their ranges are tested through the program, in the tables `lines-keys.txt` and `records-*.txt` of
//! `examples/tables`.
mod unread;
