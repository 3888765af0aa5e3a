//! A bridge behind a desk, its connections, its port workers, and their last rounds.
ghost use Rattle.std.specs.Prelude.{◌≡◌, ◌≢◌, ◌+◌, ◌<◌, ◌≤◌, ℕ, List, [], true, IfOk, IfErr, OnOk, IsErrOf, map, unwrap_or, vec_len};
ghost use Rattle.std.specs.Io.KnownBytes.{Appends};
ghost use Rattle.tsn_bytes.specs.declared.bytes.Fault.TheVariants.{Memory, Read, Write};
ghost use Rattle.tsn_bridge.specs.Reached.{IsReached};
ghost use Rattle.tsn_server.specs.Serving.{ReportsEnd, followed, ports_to};
ghost use Rattle.tsn_server.specs.declared.faults.LastingServerFault.TheVariants.{Journal, Server};
ghost use Rattle.tsn_server.specs.declared.faults.ServerFault.TheVariants.{Fault as FaultOf, Refused};
ghost use Rattle.tsn_types.specs.declared.refusals.Refusal.{Refusal};

use crate::faults::{LastingServerFault, ServerFault, ended_by, serving_failed};
use crate::reporting::report;
use std::alloc::Global;
use std::sync::Wait;
use std::thread::Threads;
use tsn_bridge::bridge::Bridge;
use tsn_bytes::{ByteOut, Fault};
use tsn_desk::desk::Desk;
use tsn_serve::{Closing, Host, Nothing, Source, serve_beside};
use tsn_types::numbers::{Instant, PortId};

/// The most seats that a desk has.
const MOST_SEATS: usize = 1024;

// How many ports are followed, and at which instant: with no instant none is, and any will do.
fn rounds_of(ports: u64, at: Option<Instant>) -> (u64, Instant)
    ensures ports { ports_to result.0 ≡ followed ports at }
    ensures few { result.0 ≤ ports }
    ensures at { result.1 ≡ unwrap_or at 0 }
{
    match at {
        Some(at) => (ports, at),
        None => (0, Instant::new(0).unwrap()),
    }
}

// Each of so many ports at the instant, from port 1.
fn probes_of(
    alloc: Global,
    ports: u64,
    at: Instant,
) -> Result<Vec<(PortId, Instant)>, LastingServerFault>
    requires { ports ≤ 64 }
    ensures ports { IfOk result (λ v. map (λ p. p.0) v.items ≡ ports_to ports) }
    ensures many { IfOk result (λ v. vec_len v ≡ ports) }
    ensures fault { IfErr result (λ e. e ≡ Server (FaultOf Memory)) }
{
    let mut probes = Vec::new(alloc);
    for before in 0..ports {
        let port = PortId::new(before + 1).unwrap();
        if probes.push((port, at)).is_err() {
            return Err(ended_by(Fault::Memory));
        }
    }
    Ok(probes)
}

// The seats of so many workers and of the ports: 1,024 at most, so that there may be fewer of the workers.
fn seats_for(workers: usize, ports: usize) -> usize
    requires some { 0 < workers }
    requires few { ports ≤ 64 }
    ensures some { ports < result }
    ensures few { result ≤ 1024 }
    ensures whole { workers + ports ≤ 1024 → result ≡ workers + ports }
{
    workers.min(MOST_SEATS - ports) + ports
}

/// Serves connections as `serve_bridge` does, and does what is to be done once none is left ahead of the last rounds.
/// Where that fails, no round is told.
pub fn serve_closing<
    R: Wait + Threads + Sync,
    S: Source + Sync,
    H: Host + Sync,
    E: Closing,
    W: ByteOut,
>(
    rt: &R,
    alloc: Global,
    bridge: Bridge,
    workers: usize,
    source: &S,
    host: &H,
    closing: &E,
    at: Option<Instant>,
    writer: &mut W,
) -> Result<(), LastingServerFault>
    requires opened { IsReached bridge }
    requires some { (0 < workers) × (workers ≤ 1000) }
    ensures lines { OnOk result ((text : List ℕ) × ReportsEnd bridge at text × Appends (W.taken writer.old) (W.taken writer.new) text) }
    ensures handed_on { OnOk result (W.pending writer.new ≡ []) }
    ensures failed { IsErrOf result (Server (FaultOf Write)) → W.has_failed writer.new ≡ true }
    ensures read { IfErr result (λ e. e ≢ Server (FaultOf Read)) }
    ensures refused { (why : Refusal) → IsErrOf result (Server (Refused why)) → writer.new ≡ writer.old }
    ensures journal { IsErrOf result Journal → E.fails }
{
    let rounds = rounds_of(bridge.config().limits().ports(), at);
    let (ports, at) = rounds;
    let probes = probes_of(alloc, ports, at)?;
    let Ok((desk, seats)) = Desk::new(alloc, bridge, seats_for(workers, probes.len())) else {
        return Err(ended_by(Fault::Memory));
    };
    let served = serve_beside(rt, alloc, &desk, seats, source, host, probes.as_slice());
    if !closing.close(rt) {
        return Err(LastingServerFault::Journal);
    }
    let workers = match served {
        Ok((_seats, workers)) => workers,
        Err(fault) => return Err(serving_failed(fault)),
    };
    match report(rt, &desk, workers, at, writer) {
        Ok(()) => Ok(()),
        Err(fault) => Err(ended_by(fault)),
    }
}

/// Serves the source's connections on the bridge, so many at once, 1 to 1,000, until none is left. Each is a session of
/// one seat of a desk. With an instant a worker follows each port meanwhile, and where there would be more than 1,024
/// of these and of connections, fewer connections are served at once. Then each port's worker makes a last round at the
/// instant, and its line is written, in the order of the ports: `port P gates G`, the gates in decimal, or `port P
/// past` where the instant comes before the last act on the port. Each line tells where one legal history of the bridge
/// ends. The lines are handed on. With no instant no port is followed, and nothing is written. A connection's fault
/// ends that connection alone. Serving itself ends where memory was wanting, no ticket was left or the writer failed;
/// or by the refusal of a worker's start, and then nothing was written.
pub fn serve_bridge<R: Wait + Threads + Sync, S: Source + Sync, H: Host + Sync, W: ByteOut>(
    rt: &R,
    alloc: Global,
    bridge: Bridge,
    workers: usize,
    source: &S,
    host: &H,
    at: Option<Instant>,
    writer: &mut W,
) -> Result<(), ServerFault>
    requires opened { IsReached bridge }
    requires some { (0 < workers) × (workers ≤ 1000) }
    ensures lines { OnOk result ((text : List ℕ) × ReportsEnd bridge at text × Appends (W.taken writer.old) (W.taken writer.new) text) }
    ensures handed_on { OnOk result (W.pending writer.new ≡ []) }
    ensures failed { IsErrOf result (FaultOf Write) → W.has_failed writer.new ≡ true }
    ensures read { IfErr result (λ e. e ≢ FaultOf Read) }
    ensures refused { (why : Refusal) → IsErrOf result (Refused why) → writer.new ≡ writer.old }
{
    match serve_closing(
        rt, alloc, bridge, workers, source, host, &Nothing, at, writer,
    ) {
        Ok(()) => Ok(()),
        Err(LastingServerFault::Server(fault)) => Err(fault),
        Err(LastingServerFault::Journal) => unreachable!(),
    }
}
