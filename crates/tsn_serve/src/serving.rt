//! Many connections at once over one bridge, each served by the seat of one of several threads, and port workers beside
//! them. It relies on a host for a connection, on a source for where they come from, and on probes for the workers.
ghost use Rattle.std.specs.Prelude.{◌≡◌, ◌<◌, ◌++◌, ℕ, Some, IfOk, length, map, All, slice_get, vec_len};
ghost use Rattle.tsn_desk.specs.Desks.{IsSeatOf, first_of};
ghost use Rattle.tsn_bridge.specs.Reached.{IsReached};
ghost use Rattle.tsn_port.specs.Workers.{GoesOn};
ghost use Rattle.tsn_serve.specs.Probes.{IsProbed};
ghost use Rattle.tsn_serve.specs.Serving.{Matched, HasProbed, HasServed};

use crate::host::Host;
use crate::probing::{Probe, Probed, ServeFault, probe_seats};
use std::alloc::{AllocError, Global};
use std::sync::Wait;
use std::thread;
use std::thread::{Threads, join};
use tsn_bridge::bridge::Bridge;
use tsn_bytes::{ByteIn, ByteOut};
use tsn_desk::desk::{Desk, Seat};
use tsn_port::worker::PortWorker;
use tsn_types::numbers::{Instant, PortId};

/// Where connections come from. Several threads ask it at once.
pub trait Source {
    type Reader: ByteIn + Drop + Send;

    type Writer: ByteOut + Drop + Send;

    /// The next connection, with its number, counted from 1; or none where none is left.
    fn next(&self) -> Option<(u32, Self::Reader, Self::Writer)>;
}

// Serves connections with one seat until none is left.
#[tactic(auto, using(crate::proofs::Going::sat_still))]
fn serve_seat<R: Wait, S: Source, H: Host>(
    rt: &R,
    alloc: Global,
    desk: &Desk<Bridge>,
    seat: Seat<Bridge>,
    source: &S,
    host: &H,
) -> Seat<Bridge>
    requires { IsSeatOf desk.now seat }
    ensures { GoesOn desk.now seat result }
{
    let mut seat = seat;
    'connections: for _ in rt.forever() {
        let Some(connection) = source.next() else {
            return seat;
        };
        seat = host.serve(rt, alloc, desk, seat, connection);
    }
    unreachable!()
}

/// Serves connections, in a thread for each seat, until none is left. A connection's fault ends that connection alone.
/// Each seat is back in its place.
pub fn serve_seats<R: Wait + Threads + Sync, S: Source + Sync, H: Host + Sync>(
    rt: &R,
    alloc: Global,
    desk: &Desk<Bridge>,
    seats: Vec<Seat<Bridge>>,
    source: &S,
    host: &H,
) -> Result<Vec<Seat<Bridge>>, AllocError>
    requires { All (λ s. IsSeatOf desk.now s) seats.items }
    ensures len { IfOk result (λ v. length v.items ≡ length seats.items) }
    ensures each { IfOk result (λ v. (k : ℕ) (s t : _) → slice_get seats.items k ≡ Some s → slice_get v.items k ≡ Some t
        → GoesOn desk.now s t) }
{
    let serve = |seat: Seat<Bridge>| -> Seat<Bridge>
        requires { IsSeatOf desk.now seat }
        ensures { GoesOn desk.entry.now seat result }
    { serve_seat(rt, alloc, desk, seat, source, host) };
    thread::map_vec(rt, seats, &serve)
}

/// The seats in their first order, and the workers in the order of the probes.
#[derive(Drop)]
pub struct Served {
    pub seats: Vec<Seat<Bridge>>,
    pub workers: Vec<PortWorker>,
}

// A probe for each of the seats.
fn probes_of(
    alloc: Global,
    seats: Vec<Seat<Bridge>>,
    probes: &[(PortId, Instant)],
) -> Result<Vec<Probe>, ServeFault>
    requires { vec_len seats ≡ length probes.now }
    ensures seats { IfOk result (λ v. map (λ p. p.seat) v.items ≡ seats.items) }
    ensures asked { IfOk result (λ v. map (λ p. (p.port, p.at)) v.items ≡ probes.now) }
{
    let mut all = Vec::new(alloc);
    let mut next = 0;
    'seats: for seat in seats {
        let (port, at) = probes[next];
        next += 1;
        if all.push(Probe { seat, port, at }).is_err() {
            return Err(ServeFault::Memory);
        }
    }
    Ok(all)
}

// The first seats, and the probes with the last ones.
fn parted(
    alloc: Global,
    desk: &Desk<Bridge>,
    mut seats: Vec<Seat<Bridge>>,
    probes: &[(PortId, Instant)],
) -> Result<(Vec<Seat<Bridge>>, Vec<Probe>), ServeFault>
    requires own { All (λ s. IsSeatOf desk.now s) seats.items }
    requires more { length probes.now < vec_len seats }
    ensures own { IfOk result (λ r. All (λ s. IsSeatOf desk.now s) r.0.items × All (λ p. IsSeatOf desk.now p.seat) r.1.items) }
    ensures whole { IfOk result (λ r. seats.items ≡ r.0.items ++ map (λ p. p.seat) r.1.items) }
    ensures asked { IfOk result (λ r. map (λ p. (p.port, p.at)) r.1.items ≡ probes.now) }
{
    let first = seats.len() - probes.len();
    let Ok(last) = seats.split_off(first) else {
        return Err(ServeFault::Memory);
    };
    let probes = probes_of(alloc, last, probes)?;
    Ok((seats, probes))
}

// The probes' seats behind the others.
fn all_served(
    alloc: Global,
    seats: Vec<Seat<Bridge>>,
    probed: Vec<Probed>,
) -> Result<Served, ServeFault>
    ensures seats { IfOk result (λ s. s.seats.items ≡ seats.items ++ map (λ p. p.0) probed.items) }
    ensures workers { IfOk result (λ s. s.workers.items ≡ map (λ p. p.1) probed.items) }
{
    let mut seats = seats;
    let mut workers = Vec::new(alloc);
    'probed: for pair in probed {
        let (seat, worker) = pair;
        if seats.push(seat).is_err() {
            return Err(ServeFault::Memory);
        }
        if workers.push(worker).is_err() {
            return Err(ServeFault::Memory);
        }
    }
    Ok(Served { seats, workers })
}

/// Serves connections with the first seats, a thread for each, until none is left; the last seats are those of the
/// probes, in their order: a thread for each starts a worker of its port and makes 100 rounds at its instant. A
/// connection's fault ends that connection alone, and what a round answers is passed over. The first seats are back,
/// and each of the others beside its worker. After a fault the seats are gone, so the desk can only be dropped: memory
/// was wanting, or a worker did not start.
pub fn serve_beside<R: Wait + Threads + Sync, S: Source + Sync, H: Host + Sync>(
    rt: &R,
    alloc: Global,
    desk: &Desk<Bridge>,
    seats: Vec<Seat<Bridge>>,
    source: &S,
    host: &H,
    probes: &[(PortId, Instant)],
) -> Result<(Vec<Seat<Bridge>>, Vec<Probed>), ServeFault>
    requires own { All (λ s. IsSeatOf desk.now s) seats.items }
    requires more { length probes.now < vec_len seats }
    requires opened { IsReached (first_of desk.now) }
    ensures { IfOk result (λ r. HasProbed desk.now seats.items probes.now r.0.items r.1.items) }
{
    let (seats, probes) = parted(alloc, desk, seats, probes)?;
    let (served, probed) = join(
        rt,
        || -> Result<Vec<Seat<Bridge>>, AllocError>
            requires { All (λ s. IsSeatOf desk.now s) seats.items }
            ensures { IfOk result (λ v. Matched (λ old new. GoesOn desk.entry.now old new) seats.items v.items) }
        { serve_seats(rt, alloc, desk, seats, source, host) },
        || -> Result<Vec<Probed>, ServeFault>
            requires { All (λ p. IsSeatOf desk.now p.seat) probes.items × IsReached (first_of desk.now) }
            ensures { IfOk result (λ v. Matched (λ probe pair. IsProbed desk.entry.now probe pair) probes.items v.items) }
        { probe_seats(rt, alloc, desk, probes, host) },
    );
    let Ok(served) = served else {
        return Err(ServeFault::Memory);
    };
    let probed = probed?;
    Ok((served, probed))
}

/// Serves as `serve_beside` does, and gives all seats in their first order and the workers in the order of the probes.
pub fn serve_all<R: Wait + Threads + Sync, S: Source + Sync, H: Host + Sync>(
    rt: &R,
    alloc: Global,
    desk: &Desk<Bridge>,
    seats: Vec<Seat<Bridge>>,
    source: &S,
    host: &H,
    probes: &[(PortId, Instant)],
) -> Result<Served, ServeFault>
    requires own { All (λ s. IsSeatOf desk.now s) seats.items }
    requires more { length probes.now < vec_len seats }
    requires opened { IsReached (first_of desk.now) }
    ensures { IfOk result (λ s. HasServed desk.now seats.items probes.now s.seats.items s.workers.items) }
{
    let (served, probed) = serve_beside(rt, alloc, desk, seats, source, host, probes)?;
    all_served(alloc, served, probed)
}
