//! The test of `tsn_wire` that only its public calls can make: which lines it reads with no tree. What a line says is
//! tested through the program, in the tables `lines-*.txt` and `records-*.txt` of `examples/tables`.
mod spellings;
