//! Port workers beside the connections, each in a thread of its own.
//! It relies on `tsn_port` for what a worker's rounds tell.
ghost use Rattle.std.specs.Prelude.{◌≡◌, ℕ, Some, Ok, IfOk, vec_len, length, slice_get, All};
ghost use Rattle.tsn_desk.specs.Desks.{IsSeatOf, first_of};
ghost use Rattle.tsn_bridge.specs.Reached.{IsReached};
ghost use Rattle.tsn_serve.specs.Probes.{IsProbed, serve_fault};

use crate::host::Host;
use std::alloc::{AllocError, Global};
use std::sync::Wait;
use std::thread;
use std::thread::Threads;
use tsn_bridge::bridge::Bridge;
use tsn_desk::desk::{Desk, Seat};
use tsn_port::worker::{PortWorker, RoundFault};
use tsn_types::numbers::{Instant, PortId};
use tsn_types::refusals::Refusal;

// How often a probe asks.
const ROUNDS: u64 = 100;

/// Why serving ended before its end.
#[derive(Clone, Copy, Debug, PartialEq, Eq)]
pub enum ServeFault {
    /// A growth was refused.
    Memory,
    /// No ticket was left for a worker's start.
    Exhausted,
    /// The bridge refused a worker's start.
    Refused(Refusal),
}

/// A port to be asked at an instant, and the seat for it.
#[derive(Drop)]
pub struct Probe {
    pub seat: Seat<Bridge>,
    pub port: PortId,
    pub at: Instant,
}

// A struct of both is not shown to cross threads; the pair is.
/// A port worker after its rounds, and its seat.
pub type Probed = (Seat<Bridge>, PortWorker);

// Starts the worker, and makes its rounds. What a round answers is passed over.
#[tactic(auto, using(crate::proofs::Rounds::started))]
fn probe_seat<R: Wait, H: Host>(
    rt: &R,
    alloc: Global,
    desk: &Desk<Bridge>,
    probe: Probe,
    host: &H,
) -> Result<Probed, RoundFault>
    requires { IsSeatOf desk.now probe.seat × IsReached (first_of desk.now) }
    ensures { IfOk result (λ p. IsProbed desk.now probe p) }
{
    let Probe { seat, port, at } = probe;
    let (seat, worker) = host.start(rt, alloc, desk, seat, port)?;
    let mut seat = seat;
    let mut worker = worker;
    'rounds: for _ in 0..ROUNDS {
        let (back, _) = worker.round(rt, desk, seat, at);
        seat = back;
    }
    Ok((seat, worker))
}

// Only a round is past.
fn fault_of(fault: RoundFault) -> ServeFault
    ensures { result ≡ serve_fault fault }
{
    match fault {
        RoundFault::Memory | RoundFault::Past => ServeFault::Memory,
        RoundFault::Exhausted => ServeFault::Exhausted,
        RoundFault::Refused(why) => ServeFault::Refused(why),
    }
}

// All of them, or what refused the first.
fn all_probed(
    alloc: Global,
    results: Vec<Result<Probed, RoundFault>>,
) -> Result<Vec<Probed>, ServeFault>
    ensures len { IfOk result (λ v. vec_len v ≡ vec_len results) }
    ensures each { IfOk result (λ v. (k : ℕ) (p : _) → slice_get v.items k ≡ Some p → slice_get results.items k ≡ Some (Ok p)) }
{
    let mut all = Vec::new(alloc);
    'results: for result in results {
        match result {
            Ok(probed) => {
                if all.push(probed).is_err() {
                    return Err(ServeFault::Memory);
                }
            }
            Err(fault) => return Err(fault_of(fault)),
        }
    }
    Ok(all)
}

// What became of each probe, in a thread for each.
fn probe_each<R: Wait + Threads + Sync, H: Host + Sync>(
    rt: &R,
    alloc: Global,
    desk: &Desk<Bridge>,
    probes: Vec<Probe>,
    host: &H,
) -> Result<Vec<Result<Probed, RoundFault>>, AllocError>
    requires own { All (λ p. IsSeatOf desk.now p.seat) probes.items }
    requires opened { IsReached (first_of desk.now) }
    ensures len { IfOk result (λ v. length v.items ≡ length probes.items) }
    ensures each { IfOk result (λ v. (k : ℕ) (p r : _) → slice_get probes.items k ≡ Some p → slice_get v.items k ≡ Some r
        → IfOk r (λ q. IsProbed desk.now p q)) }
{
    let ask = |probe: Probe| -> Result<Probed, RoundFault>
        requires { IsSeatOf desk.now probe.seat × IsReached (first_of desk.now) }
        ensures { IfOk result (λ p. IsProbed desk.entry.now probe p) }
    { probe_seat(rt, alloc, desk, probe, host) };
    thread::map_vec(rt, probes, &ask)
}

// Probes with each of these seats, in a thread for each.
pub(crate) fn probe_seats<R: Wait + Threads + Sync, H: Host + Sync>(
    rt: &R,
    alloc: Global,
    desk: &Desk<Bridge>,
    probes: Vec<Probe>,
    host: &H,
) -> Result<Vec<Probed>, ServeFault>
    requires own { All (λ p. IsSeatOf desk.now p.seat) probes.items }
    requires opened { IsReached (first_of desk.now) }
    ensures len { IfOk result (λ v. length v.items ≡ length probes.items) }
    ensures each { IfOk result (λ v. (k : ℕ) (p q : _) → slice_get probes.items k ≡ Some p → slice_get v.items k ≡ Some q
        → IsProbed desk.now p q) }
{
    let Ok(results) = probe_each(rt, alloc, desk, probes, host) else {
        return Err(ServeFault::Memory);
    };
    all_probed(alloc, results)
}
