//! Who serves the connections of a desk whose work lasts.
ghost use Rattle.std.specs.Prelude.{⊤};
ghost use Rattle.tsn_desk.specs.Desks.{IsSeatOf};
ghost use Rattle.tsn_port.specs.Workers.{GoesOn};

use crate::clerk::Clerk;
use crate::talk::{Talk, TalkFault};
use crate::windows::talk_on;
use std::alloc::Global;
use std::sync::Wait;
use tsn_bridge::bridge::Bridge;
use tsn_bytes::{ByteIn, ByteOut};
use tsn_commit::{Ahead, Commit};
use tsn_desk::desk::{Desk, Seat};
use tsn_device::Device;
use tsn_history::Naming;
use tsn_keeping::Clock;
use tsn_lasting::Backlog;
use tsn_port::worker::{PortWorker, RoundFault};
use tsn_serve::{Closing, Connection, Free, Host, LineBuffer, Stop, start_with};
use tsn_types::numbers::PortId;

/// Who serves each connection by a talk over one text of records, and ends the service where the journal fails.
#[derive(Drop)]
pub struct LastingHost<'a, W: Wait, C: Clock, D: Device, R: Naming, K: Ahead, S: Stop> {
    pub rt: &'a W,
    pub commit: &'a Commit<C, D, R, K>,
    pub service: &'a S,
}

impl<W: Wait, C: Clock, D: Device, R: Naming, K: Ahead, S: Stop> LastingHost<'_, W, C, D, R, K, S> {
    // Serves one connection by a talk.
    #[tactic(auto, using(tsn_serve::proofs::Going::sat_still, crate::proofs::Going::served, crate::proofs::Going::none_held))]
    fn talk<I: ByteIn, O: ByteOut + Drop>(
        &self,
        alloc: Global,
        desk: &Desk<Bridge>,
        seat: Seat<Bridge>,
        number: u32,
        reader: &mut I,
        writer: O,
    ) -> Seat<Bridge>
        requires { IsSeatOf desk.now seat }
        ensures { GoesOn desk.now seat result }
    {
        let Ok(replies) = Backlog::new(alloc) else {
            return seat;
        };
        let Ok(mut line) = LineBuffer::new(alloc) else {
            return seat;
        };
        let Ok(clerk) = Clerk::new(alloc, self.rt, self.commit) else {
            return seat;
        };
        let end = Connection::new(self.rt, desk, seat, number, &Free, clerk);
        let mut talk = Talk::new(end, self.rt, self.commit, replies, writer);
        let ended = talk_on(alloc, &mut talk, &mut line, reader);
        if let Err(TalkFault::Journal) = ended {
            self.service.stop();
        }
        talk.into_end().into_seat(desk)
    }
}

impl<'a, W: Wait, C: Clock, D: Device, R: Naming, K: Ahead, S: Stop> Host
    for LastingHost<'a, W, C, D, R, K, S> {
    /// Where no session is left for a worker, the service is stopped.
    fn start<Q: Wait>(
        &self,
        rt: &Q,
        alloc: Global,
        desk: &Desk<Bridge>,
        seat: Seat<Bridge>,
        port: PortId,
    ) -> Result<(Seat<Bridge>, PortWorker), RoundFault> {
        let Ok(mut clerk) = Clerk::new(alloc, self.rt, self.commit) else {
            return Err(RoundFault::Memory);
        };
        let started = start_with(rt, alloc, desk, seat, port, &mut clerk);
        if let Err(RoundFault::Refused(_)) = &started {
            self.service.stop();
        }
        started
    }

    /// Its replies wait in memory of its own; where there is none, it ends at once.
    fn serve<Q: Wait, I: ByteIn + Drop, O: ByteOut + Drop>(
        &self,
        _rt: &Q,
        alloc: Global,
        desk: &Desk<Bridge>,
        seat: Seat<Bridge>,
        connection: (u32, I, O),
    ) -> Seat<Bridge> {
        let (number, mut reader, writer) = connection;
        let seat = self.talk(alloc, desk, seat, number, &mut reader, writer);
        self.service.ended(number);
        seat
    }
}

impl<'a, W: Wait, C: Clock, D: Device, R: Naming, K: Ahead, S: Stop> Closing
    for LastingHost<'a, W, C, D, R, K, S> {
    ghost fails = { ⊤ };

    /// All that is recorded is kept.
    fn close<Q: Wait>(&self, rt: &Q) -> bool {
        self.commit.settle(rt, &self.commit.recorded(rt)).is_ok()
    }
}
