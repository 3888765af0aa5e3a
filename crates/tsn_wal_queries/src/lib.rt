//! Looks at a journal file, as a process makes them: what is in it, its entries with their times, what one of them
//! changed, the configuration at its end; the mending of one, and a new one that begins where it ends.
//!
//! It relies on `tsn_wal_files` for the file, on `tsn_resuming` for where it leads, and on `tsn_replies` and
//! `tsn_export` for what is told of that.
#![tactic(auto)]

mod anew;
mod beginning;
mod looking;

pub use looking::look_at;
