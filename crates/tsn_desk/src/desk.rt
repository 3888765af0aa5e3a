//! A desk and its seats: what callers do with them.
ghost use Rattle.std.specs.Prelude.{◌≡◌, ◌+◌, ◌≤◌, ◌<◌, ◌^◌, [], length, ℕ, Some, IfOk, IfErr, OnErr, IsErr, IsOk, ◌⊎◌, All, vec_len, slice_get};
ghost use Rattle.tsn_desk.specs.declared.board.Stage.TheVariants.{Idle};
ghost use Rattle.tsn_machine.specs.History.{Begins, calls_by};

use crate::board::{Opening, SERVING, TICKETS, Turns, View};
use crate::machine::{Machine, Nobody, Witness};
use crate::plays::{Draw, SeeFront, SeeTickets};
use crate::turning::Errand;
use crate::waiting::Waiting;
use atomic_table::{Refused, Table};
use std::alloc::{AllocError, Global};
use std::snapshot::Snapshot;
use std::sync::Wait;

/// A seat as the table sees it.
pub(crate) type TableSeat<M> = atomic_table::Seat<
    Option<M>,
    View<M, <M as Machine>::Request, <M as Machine>::Reply>,
>;

/// From this ticket on a turn is refused.
const LAST_TICKET: u64 = 1 << 63;

/// A machine that threads take turns at. It may be shared by reference.
#[derive(Drop)]
pub struct Desk<M: Machine> {
    pub(crate) table: Table<Option<M>, View<M, M::Request, M::Reply>, Opening<M>, Turns<M>, Global>,
    pub(crate) waiting: Waiting,
    ghost sized: { (table.shared.table_id.words ≡ 2) × (table.shared.table_id.slots ≡ 1) },
    ghost seated: { 0 < table.shared.key.seats },
}

/// The right to take turns at a desk, one at a time. It has no bytes, and goes from thread to thread by value.
pub struct Seat<M: Machine> {
    pub(crate) inner: TableSeat<M>,
    ghost empty: { inner.me.1 ≡ [] },
    ghost at_rest: { inner.me.0.stage ≡ Idle },
    ghost numbered: { length inner.me.0.calls ≡ 1 },
}

impl<M: Machine> Drop for Seat<M> {
    fn drop(self) {
        let Seat { inner } = self;
        drop(inner);
    }
}

impl<M: Machine> Seat<M> {
    pub(crate) fn into_inner(self) -> TableSeat<M>
        ensures same { result ≡ self.inner }
        ensures rests { (result.me.1 ≡ []) × (result.me.0.stage ≡ Idle) × (length result.me.0.calls ≡ 1) }
    {
        let Seat { inner } = self;
        inner
    }
}

/// Where a thread begins its turn.
#[derive(Clone, Copy, Debug, PartialEq, Eq)]
pub enum Standing {
    /// At the door, where it waits until no ticket is out, or at most one where someone has locked it.
    AtTheDoor,
    /// Inside, since it locked the door itself.
    Inside,
}

/// A turn that has ended.
#[derive(Debug, Drop)]
pub struct Turn<A> {
    /// How many calls stand before this one in the history, from 0.
    pub place: u64,
    pub reply: A,
}

/// No ticket is left, so the machine was not asked. The request comes back.
#[derive(Debug, Drop)]
pub struct Exhausted<Q> {
    pub request: Q,
}

impl<M: Machine> Desk<M> {
    ghost use Rattle.tsn_desk.specs.Desks.{seen, tickets, number, made, first_of, seats_of, IsSeatOf, IsSameCaller, HasSeenMore, HasTurned, IsFresh, Closes};

    /// A desk with the machine, and its seats, 1 to 1,024 of them, numbered from 1. Each has seen nothing of the
    /// history, which is empty, and has made no call. For want of memory the machine comes back as it was.
    pub fn new(alloc: Global, machine: M, seats: usize) -> Result<(Desk<M>, Vec<Seat<M>>), M>
        requires { (0 < seats) × (seats ≤ 1024) }
        ensures desk { IfOk result (λ opened. (first_of opened.0 ≡ machine) × (seats_of opened.0 ≡ seats)) }
        ensures seats { IfOk result (λ opened. vec_len opened.1 ≡ seats) }
        ensures fresh { IfOk result (λ opened. (k : ℕ) (seat : _) → slice_get opened.1.items k ≡ Some seat
            → IsFresh opened.0 seat (k + 1)) }
        ensures own { IfOk result (λ opened. All (λ seat. IsSeatOf opened.0 seat) opened.1.items) }
        ensures refused { IfErr result (λ back. back ≡ machine) }
    {
        let Ok(row) = Vec::with_capacity(alloc, seats) else {
            return Err(machine);
        };
        let Ok(mut slots) = Vec::with_capacity(alloc, 1) else {
            return Err(machine);
        };
        let opening = Opening {
            first: Snapshot::of(&machine),
            seats: seats as u64,
        };
        slots.push_reserved(Some(machine));
        match Table::new(alloc, &[0, 0], slots, &opening) {
            Ok((table, seat)) => {
                let desk = Desk {
                    table,
                    waiting: Waiting::new(),
                };
                let row = desk.deal(seat, row, seats);
                Ok((desk, row))
            }
            Err(Refused { mut slots }) => {
                let slot = slots.pop();
                slots.destroy_empty();
                let Some(Some(machine)) = slot else {
                    unreachable!()
                };
                Err(machine)
            }
        }
    }

    /// Steps the machine once, when the turns before it have ended: it waits for them. It takes no memory of its own.
    /// The history then seen ends with this call, at its place. It is refused where 2^63 tickets were drawn; the
    /// request comes back, and the seat has made no call.
    pub fn turn<R: Wait>(
        &self,
        rt: &R,
        seat: Seat<M>,
        request: M::Request,
    ) -> (Seat<M>, Result<Turn<M::Reply>, Exhausted<M::Request>>)
        requires { IsSeatOf self.now seat }
        ensures own { IsSeatOf self.now result.0 × (number result.0 ≡ number seat) }
        ensures turn { IfOk result.1 (λ turn. HasTurned M.steps self.now seat request turn.place turn.reply result.0) }
        ensures request { IfErr result.1 (λ back. back.request ≡ request) }
        ensures exhausted { OnErr result.1 ((2 ^ 63 ≤ tickets result.0) × (seen result.0 ≡ seen seat) × (made result.0 ≡ made seat)) }
        ensures always_then { 2 ^ 63 ≤ tickets seat → IsErr result.1 }
    {
        let (seat, turned) = self.attended_turn(rt, seat, request, &mut Nobody);
        match turned {
            Ok((turn, ())) => (seat, Ok(turn)),
            Err(back) => (seat, Err(back)),
        }
    }

    /// Steps the machine once as `turn` does, and a witness attends.
    pub fn attended_turn<R: Wait, W: Witness<M>>(
        &self,
        rt: &R,
        seat: Seat<M>,
        request: M::Request,
        witness: &mut W,
    ) -> (
        Seat<M>,
        Result<(Turn<M::Reply>, W::Mark), Exhausted<M::Request>>,
    )
        requires { IsSeatOf self.now seat }
        ensures own { IsSeatOf self.now result.0 × (number result.0 ≡ number seat) }
        ensures turn { IfOk result.1 (λ t. HasTurned M.steps self.now seat request t.0.place t.0.reply result.0) }
        ensures mark { IfOk result.1 (λ t. W.marks request t.0.reply t.1) }
        ensures request { IfErr result.1 (λ back. back.request ≡ request) }
        ensures exhausted { OnErr result.1 ((2 ^ 63 ≤ tickets result.0) × (seen result.0 ≡ seen seat) × (made result.0 ≡ made seat)) }
        ensures always_then { 2 ^ 63 ≤ tickets seat → IsErr result.1 }
    {
        self.turn_from(rt, Standing::AtTheDoor, seat, request, witness)
    }

    /// The same of a thread that may be inside already, since it locked the door.
    #[inline(always)]
    pub fn turn_from<R: Wait, W: Witness<M>>(
        &self,
        rt: &R,
        standing: Standing,
        seat: Seat<M>,
        request: M::Request,
        witness: &mut W,
    ) -> (
        Seat<M>,
        Result<(Turn<M::Reply>, W::Mark), Exhausted<M::Request>>,
    )
        requires { IsSeatOf self.now seat }
        ensures own { IsSeatOf self.now result.0 × (number result.0 ≡ number seat) }
        ensures turn { IfOk result.1 (λ t. HasTurned M.steps self.now seat request t.0.place t.0.reply result.0) }
        ensures mark { IfOk result.1 (λ t. W.marks request t.0.reply t.1) }
        ensures request { IfErr result.1 (λ back. back.request ≡ request) }
        ensures exhausted { OnErr result.1 ((2 ^ 63 ≤ tickets result.0) × (seen result.0 ≡ seen seat) × (made result.0 ≡ made seat)) }
        ensures always_then { 2 ^ 63 ≤ tickets seat → IsErr result.1 }
    {
        witness.hear(&request);
        self.come_from(rt, standing);
        let mut seat = seat.into_inner();
        if self.table.shared.load::<SeeTickets>(&mut seat, TICKETS) >= LAST_TICKET {
            // No turn ends here that would wake the next one.
            self.wake_from(standing);
            return (Seat { inner: seat }, Err(Exhausted { request }));
        }
        let place = self.table.shared.fetch_add::<Draw>(&mut seat, TICKETS, 1);
        self.wait(rt, &mut seat, place);
        let asked = Snapshot::of(&request);
        let Some(mut machine) = self.table.shared.exchange(&mut seat, 0, None) else {
            unreachable!()
        };
        let reply = machine.step(request);
        let mark = witness.attend(&reply);
        let nothing = self.table.shared.exchange(&mut seat, 0, Some(machine));
        let None = nothing else { unreachable!() };
        self.finish_said(&mut seat, &asked, &reply);
        self.wake_from(standing);
        (Seat { inner: seat }, Ok((Turn { place, reply }, mark)))
    }

    /// Locks the door once no ticket is out and nobody else has locked it: threads that would lock it too wait there
    /// until it is opened, and of those whose turns begin at the door one at a time slips in. This decides who waits,
    /// and never what a turn finds. Whoever locks the door opens it, and takes turns from inside alone till then.
    pub fn lock_door<R: Wait>(&self, rt: &R) {
        for _ in rt.forever() {
            self.come_in(rt, Errand::Lock);
            if self.waiting.lock() {
                return;
            }
        }
        unreachable!()
    }

    /// Opens the door that was locked, and wakes one who waits there.
    pub fn open_door(&self) {
        self.waiting.unlock();
        self.waiting.call_in();
    }

    /// How many turns have ended. The seat has then seen the history of just these. It neither waits nor takes memory.
    pub fn front(&self, seat: Seat<M>) -> (Seat<M>, u64)
        requires { IsSeatOf self.now seat }
        ensures own { IsSameCaller seat result.0 }
        ensures seen { HasSeenMore M.steps self.now seat result.0 × (length (seen result.0) ≡ result.1) }
        ensures same { result.1 ≡ length (seen seat) → seen result.0 ≡ seen seat }
        ensures own_calls { calls_by (number seat) (seen result.0) ≡ made seat }
    {
        let mut seat = seat.into_inner();
        let front = self.table.shared.load::<SeeFront>(&mut seat, SERVING);
        (Seat { inner: seat }, front)
    }

    /// Two seats tell each other what they have seen: of the two histories one begins the other, and each seat has then
    /// seen both. It neither waits nor takes memory, so it is never refused.
    pub fn meet(&self, one: Seat<M>, other: Seat<M>) -> (Seat<M>, Seat<M>, Result<(), AllocError>)
        requires { IsSeatOf self.now one × IsSeatOf self.now other }
        ensures own { IsSameCaller one result.0 × IsSameCaller other result.1 }
        ensures one_line { Begins (seen one) (seen other) ⊎ Begins (seen other) (seen one) }
        ensures one { HasSeenMore M.steps self.now one result.0 × Begins (seen other) (seen result.0) }
        ensures other { HasSeenMore M.steps self.now other result.1 × Begins (seen one) (seen result.1) }
        ensures never_refused { IsOk result.2 }
    {
        let mut one = one.into_inner();
        let mut other = other.into_inner();
        self.tell(&mut one, &mut other);
        self.tell(&mut other, &mut one);
        (Seat { inner: one }, Seat { inner: other }, Ok(()))
    }

    /// The machine, once all seats are back. It is where the whole history ends, and the calls in that are those of the
    /// seats, each once. It takes no memory.
    pub fn close(self, mut seats: Vec<Seat<M>>) -> M
        requires own { All (λ seat. IsSeatOf self seat) seats.items }
        requires all { vec_len seats ≡ seats_of self }
        ensures { Closes M.steps (first_of self) seats.items result }
    {
        let mut seat = seats.pop().unwrap().into_inner();
        while let Some(other) = seats.pop() {
            let other = other.into_inner();
            self.gather(&mut seat, other);
        }
        seats.destroy_empty();
        let Desk { table, waiting: _ } = self;
        let mut closed = table.close_with(seat);
        let slot = closed.take(0);
        closed.free();
        let Some(machine) = slot else { unreachable!() };
        machine
    }
}
