//! What is exported of a bridge is read back: the text of a configuration is accepted as the setup of its limits and of
//! the records that a setup names.
#![tactic(auto)]

pub mod laws;
