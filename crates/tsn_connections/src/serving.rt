//! Connections served on a bridge, from a source to the last rounds and the status.
ghost use Rattle.std.specs.Prelude.{◌≡◌};
ghost use Rattle.tsn_bridge.specs.Beginning.{IsOpened};
ghost use Rattle.tsn_connections.specs.Serving.{ServesConnections};
ghost use Rattle.tsn_failures.specs.Output.{written};

use std::alloc::Global;
use std::sync::Wait;
use std::thread::Threads;
use tsn_bridge::bridge::Bridge;
use tsn_bytes::ByteOut;
use tsn_failures::{Failure, fail};
use tsn_serve::{Free, Gated, Source};
use tsn_server::{ServerFault, serve_bridge};
use tsn_types::numbers::Instant;
use tsn_words::Serving;

/// The instant of the last rounds; none where there are none.
pub fn last_instant(serving: &Serving) -> Option<Instant>
    ensures { result ≡ serving.now.probe }
{
    match serving.probe {
        Some(at) => Some(Instant::new(at).unwrap()),
        None => None,
    }
}

/// Serves the source's connections on the bridge, as many at once as there are workers, until none is left; then, where
/// an instant is given, writes a line for each port, which tells its gates at the instant or that it is past, in the
/// order of the ports. Gives the status: 0, or 1 after one line that says what failed.
#[tactic(auto, using(tsn_bridge::proofs::Reaching::opened_is_reached))]
pub fn serve<R: Wait + Threads + Sync, S: Source + Sync, O: ByteOut, E: ByteOut>(
    rt: &R,
    alloc: Global,
    bridge: Bridge,
    serving: Serving,
    source: &S,
    output: &mut O,
    errors: &mut E,
) -> u8
    requires { IsOpened bridge }
    ensures { ServesConnections bridge serving.probe
        (written O.taken O.pending O.has_failed output.old output.new)
        result
        (written E.taken E.pending E.has_failed errors.old errors.new) }
{
    match serve_bridge(
        rt,
        alloc,
        bridge,
        serving.workers as usize,
        source,
        &Gated { gate: &Free },
        last_instant(&serving),
        output,
    ) {
        Ok(()) => 0,
        Err(ServerFault::Fault(fault)) => fail(errors, Failure::Fault(fault)),
        Err(ServerFault::Refused(why)) => fail(errors, Failure::Refused(why)),
    }
}
