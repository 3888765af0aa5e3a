//! What puts recorded commands into a journal: it enters their lines, each going on from the digest of the one before,
//! and settles them.
//!
//! A `Keeper` has a buffer in front of its device, which is given what was entered when the buffer is full, or when it
//! is to be settled: one sync then serves all of it. Behind a call that failed no further one may be made. The laws in
//! `laws` say which recorded commands a crash leaves: at least all that were settled. A `Stamp` tells when a line was
//! entered, as a `Clock` tells it.
#![tactic(auto)]

mod buffered;
mod clock;
mod keeper;
mod laws;

pub use clock::{Clock, Stamp};
pub use keeper::Keeper;
pub use laws::{enters, survives};
