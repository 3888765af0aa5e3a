//! Command lines in, reply lines out, over any reader and writer of bytes: the run of a script over a bridge of its
//! own, and the session of a connection over a bridge that threads share. It relies on `tsn_bytes` for readers and
//! writers, on `tsn_wire` for the reading of a line, on `tsn_replies` for the text of a reply and on `tsn_desk` for the
//! turns of a shared bridge; beside sessions, on `tsn_port` for workers of its ports.
#![tactic(auto)]

mod closing;
mod connection;
mod gate;
mod host;
mod laws;
mod line_buffer;
mod lots;
mod probing;
mod responder;
mod script;
mod serving;

pub use closing::{Closing, Nothing, Stop};
pub use connection::{Connection, session};
pub use gate::{Free, Gate};
pub use host::{Gated, Host, start_with};
pub use laws::{example_cuts, one_cut, served};
pub use line_buffer::{LineBuffer, MAX_LINE};
pub use probing::{Probe, Probed, ServeFault};
pub use responder::{Ended, Responder, answer_lines, feed, finish};
pub use script::{read_line, run_script, run_script_up_to};
pub use serving::{Served, Source, serve_all, serve_beside, serve_seats};
