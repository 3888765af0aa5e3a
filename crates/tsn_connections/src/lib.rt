//! Connections served at an endpoint: where the service listens, who is told of connections, and the status in the end.
//!
//! It relies on `tsn_sockets` for listeners, on `tsn_server` for the service of connections on one bridge, and on
//! `tsn_failures` for what is told where it fails. A service over a journal listens by it too.
#![tactic(auto)]

mod listening;
mod logging;
mod serving;

pub use listening::{Place, serve_at};
pub use logging::ErrorLog;
pub use serving::{last_instant, serve};
