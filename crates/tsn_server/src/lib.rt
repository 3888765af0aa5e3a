//! A bridge served over sockets: connections from a listener at an address or at a path, each by the seat of one of
//! several threads, port workers beside them, and at the end a last round of each port, told in text. It relies on
//! `tsn_serve` for connections and workers and on `tsn_port` for what a round tells.
#![tactic(auto)]

mod connections;
mod faults;
mod reporting;
mod serving;
mod stopping;

pub use connections::SocketSource;
pub use faults::{LastingServerFault, ServerFault};
pub use reporting::report;
pub use serving::{serve_bridge, serve_closing};
pub use stopping::StoppableSource;
