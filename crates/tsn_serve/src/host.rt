//! Who serves a connection.
ghost use Rattle.std.specs.Prelude.{◌≡◌, IfOk};
ghost use Rattle.tsn_desk.specs.Desks.{IsSeatOf, first_of};
ghost use Rattle.tsn_bridge.specs.Reached.{IsReached};
ghost use Rattle.tsn_port.specs.Workers.{GoesOn};
ghost use Rattle.tsn_serve.specs.Probes.{HasStarted, worker_name};

use crate::connection::session;
use crate::gate::Gate;
use std::alloc::{AllocError, Global};
use std::sync::Wait;
use tsn_bridge::bridge::Bridge;
use tsn_bytes::{Buffered, ByteIn, ByteOut};
use tsn_desk::desk::{Desk, Seat};
use tsn_desk::machine::{Nobody, Witness};
use tsn_port::worker::{PortWorker, RoundFault};
use tsn_types::names::SessionName;
use tsn_types::numbers::PortId;

/// Who starts port workers and serves connections, each with a seat of a desk, which comes back.
pub trait Host {
    /// Starts a worker of a port. Its hello is attended as the calls of connections are.
    fn start<R: Wait>(
        &self,
        rt: &R,
        alloc: Global,
        desk: &Desk<Bridge>,
        seat: Seat<Bridge>,
        port: PortId,
    ) -> Result<(Seat<Bridge>, PortWorker), RoundFault>
        requires { IsSeatOf desk.now seat × IsReached (first_of desk.now) }
        ensures { IfOk result (λ r. HasStarted desk.now seat port r.0 r.1) };

    /// Serves one connection. Its fault ends it alone.
    fn serve<R: Wait, I: ByteIn + Drop, O: ByteOut + Drop>(
        &self,
        rt: &R,
        alloc: Global,
        desk: &Desk<Bridge>,
        seat: Seat<Bridge>,
        connection: (u32, I, O),
    ) -> Seat<Bridge>
        requires { IsSeatOf desk.now seat }
        ensures { GoesOn desk.now seat result };
}

// The name by which a port's worker says hello.
fn port_name(alloc: Global, port: PortId) -> Result<Option<SessionName>, AllocError>
    ensures { IfOk result (λ name. name ≡ worker_name port) }
{
    let text = format!(in alloc; "port {}", port.get())?;
    SessionName::new(alloc, text.as_str())
}

/// Starts a worker of a port, by three turns of the seat: the witness attends the first, its hello. The hello says the
/// name `port N`, so that a worker goes on as the session of the worker before it.
pub fn start_with<R: Wait, W: Witness<Bridge>>(
    rt: &R,
    alloc: Global,
    desk: &Desk<Bridge>,
    seat: Seat<Bridge>,
    port: PortId,
    witness: &mut W,
) -> Result<(Seat<Bridge>, PortWorker), RoundFault>
    requires { IsSeatOf desk.now seat × IsReached (first_of desk.now) }
    ensures { IfOk result (λ r. HasStarted desk.now seat port r.0 r.1) }
{
    let Ok(name) = port_name(alloc, port) else {
        return Err(RoundFault::Memory);
    };
    match PortWorker::start(rt, desk, seat, port, name, witness) {
        Ok(started) => Ok(started),
        Err((_seat, fault)) => Err(fault),
    }
}

/// Who serves each connection by a session, and tells a gate of it. Nobody attends.
#[derive(Drop)]
pub struct Gated<'a, G: Gate> {
    pub gate: &'a G,
}

impl<G: Gate> Host for Gated<'_, G> {
    fn start<R: Wait>(
        &self,
        rt: &R,
        alloc: Global,
        desk: &Desk<Bridge>,
        seat: Seat<Bridge>,
        port: PortId,
    ) -> Result<(Seat<Bridge>, PortWorker), RoundFault> {
        start_with(rt, alloc, desk, seat, port, &mut Nobody)
    }

    /// Its replies are gathered, in memory of its own; where there is none, it ends at once.
    #[tactic(auto, using(crate::proofs::Going::sat_still, crate::proofs::Going::sat))]
    fn serve<R: Wait, I: ByteIn + Drop, O: ByteOut + Drop>(
        &self,
        rt: &R,
        alloc: Global,
        desk: &Desk<Bridge>,
        seat: Seat<Bridge>,
        connection: (u32, I, O),
    ) -> Seat<Bridge> {
        let (number, mut reader, writer) = connection;
        let Ok(mut writer) = Buffered::new(alloc, writer) else {
            return seat;
        };
        let (seat, _) = session(
            rt,
            alloc,
            desk,
            seat,
            number,
            &mut reader,
            &mut writer,
            self.gate,
        );
        seat
    }
}
