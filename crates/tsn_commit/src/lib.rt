//! Group commit: threads record command lines, and one of them at a time has the journal keep all that were recorded so
//! far.
//!
//! What is recorded is a text, named `R`; what the journal keeps is a text, named `K`. Who records a line has a front
//! of `R` that ends with it. Who settles it gets a front of `K`, and that begins with all of the front that was
//! recorded. Who ends the commit gets the keeper, and the commands that its journal keeps are just a front of `K`,
//! which covers each front that was given out, as `Front::covers` shows.
//!
//! `Commit` is what threads share: a lock over `State`, in which the lines wait, and one over `Told`, what is kept.
//! Whoever finds the keeper in the first takes it out as a `Job`, has it enter and settle what waits, with no lock
//! held, and brings it back. So digests and stamps are made outside the locks, and whoever comes meanwhile records into
//! the other buffer. Those whose lines are with the device sleep in one `Bed`, and later ones in another: a sync wakes
//! all of the first, and one of the second, who goes on. Who finds no room sleeps in a third. The memory for all of it
//! is taken when a commit is made.
#![tactic(auto)]

mod bed;
mod commit;
mod job;
mod lines;
mod scribe;
mod state;
mod together;
mod told;

pub use commit::Commit;
pub use lines::CAPACITY;
pub use scribe::Ahead;
pub use state::{RecordFault, Stopped};
pub use together::{keep, keep_both};
