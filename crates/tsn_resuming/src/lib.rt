//! A bridge goes on from a journal file: the setup in the first line opens it, and each further line is stepped.
//!
//! `first` has the first command of a journal file, which holds the whole text of the setup. `resuming` reads a file
//! piece by piece, tests each line and steps the bridge by its command; what it promises is `GoesOn` and `Fails` in
//! `specs/Resuming.antt`. A file that is cut short or damaged is no fault here: what verifies of it is stepped, and its
//! end is told. The crate knows no files: it reads whatever gives bytes.
#![tactic(auto)]

mod first;
pub mod laws;
mod resuming;
mod watching;

pub use first::{NoSetup, first_command, setup_in};
pub use resuming::{Resumed, StartFault, resume};
pub use watching::{Unwatched, Watcher};
