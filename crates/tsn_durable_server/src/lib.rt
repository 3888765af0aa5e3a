//! Connections served on a bridge that goes on from a journal file, which keeps all that they do.
//!
//! `serve_lasting` is the service over any device, and `serve_over` that of a process, from the words and the file to
//! the status. It relies on `tsn_clerk` for connections whose replies wait for the file, on `tsn_server` for the
//! service of a bridge, and on `tsn_wal_files` for the file at a start.
#![tactic(auto)]

mod lasting;
mod serving;

pub use lasting::serve_lasting;
pub use serving::serve_over;
