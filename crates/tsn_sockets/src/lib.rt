//! The sockets of a server: where it listens, at an IP address and port or at a path of the file system; who may
//! connect there; and who is told of connections. It relies on `tsn_bytes` for writers. `tsn_server` takes connections
//! from a listener of it.
#![tactic(auto)]

mod listening;
mod logging;
mod path;
mod tally;

pub use listening::{Endpoint, ListenFault, Listener, listen_on};
pub use logging::{Log, LoggedWriter};
pub use tally::Told;
