//! The test of `tsn_spelling` over its public calls alone: that lines are spelled where memory is there, which no
//! clause says, also the longest ones.
mod lines;
