//! The device that keeps a journal: it takes bytes behind those that it has, and on a sync it surely keeps them.
//!
//! `Device` is what the crates above are written over. `MemoryDevice` stands in memory, fails at the call that it is
//! told to fail at, and gives what a crash may leave. `FileDevice` stands over a file of the system: that it is such a
//! device is no proof, since no contract tells what a file does with its bytes (`file`, which is read by hand).
//! `UnsyncedDevice` stands over a file that is never synced, and is a type of its own: what it is seen to keep may be
//! gone behind a loss of power, so what is proved of the other is not read at it. `opening` has what a start does with
//! files: to open and lock a journal, to make a new one, and to move an unfinished end aside.
#![tactic(auto)]

mod device;
mod file;
mod laws;
mod memory;
mod note;
mod opening;
mod writing;

pub use device::{Device, Failed};
pub use file::{DeviceOverFile, FileDevice, UnsyncedDevice};
pub use laws::front_stands;
pub use memory::MemoryDevice;
pub use opening::{OpenFault, make, move_end, open};
