//! The parts of a turn: the way in, the wait for its ticket, and its end.
//!
//! Who finds a ticket out stays at the door, and draws none. Two that find none out at once both draw one, and the
//! later one waits: it looks some times at the serving word and then parks on it. A park expects the number that the
//! look found, so one that comes late returns at once; and who ends a turn wakes all, if some sleep with a ticket. Who
//! is about to is counted first and then looks once more, so no wake is lost. No park, wake or count needs a seat or
//! tells anything, and who was woken looks again.
//!
//! While the door is locked, who wants one turn slips in between two of those that are taken from inside: it draws a
//! ticket as soon as at most one is out, and never waits for all of them. Who wants to lock the door stays awake for a
//! while and lets others run: so it goes in as soon as the door opens, and not once it has been woken.
ghost use Rattle.std.specs.Prelude.{◌≡◌, ◌<◌, [], ◌∷◌, length, Some};
ghost use Rattle.tsn_desk.specs.declared.board.Stage.TheVariants.{Serving, Waiting};
ghost use Rattle.tsn_desk.specs.Steps.{Ended, HasServed, Took};

use crate::board::{SERVING, TICKETS};
use crate::desk::{Desk, Standing, TableSeat};
use crate::machine::Machine;
use crate::plays::{End, Look, Said};
use std::marker::Brand;
use std::snapshot::Snapshot;
use std::sync::Wait;
use std::{hint, thread};

/// How often a thread looks whether it may go on before it sleeps or lets others run.
const LOOKS: u32 = 100;

/// How often a thread at the door lets others run between its looks before it sleeps.
const YIELDS: u32 = 50;

/// What a thread wants inside.
#[derive(Clone, Copy, Debug, PartialEq, Eq)]
pub(crate) enum Errand {
    /// One turn.
    Turn,
    /// To lock the door, for several turns.
    Lock,
}

impl<M: Machine> Desk<M> {
    /// Waits until the seat's ticket is served, and takes the machine.
    pub(crate) fn wait<R: Wait>(&self, rt: &R, seat: &mut TableSeat<M>, ticket: u64)
        requires { (seat.old.table_id ≡ self.now.table.shared.table_id) × (seat.old.me.0.stage ≡ Waiting ticket) }
        ensures same { (seat.new.table_id ≡ seat.old.table_id) × (seat.new.id ≡ seat.old.id) }
        ensures took { Took M.steps seat.old.me ticket seat.new.me }
    {
        let mut looks = 0;
        let mut is_counted = false;
        for _ in rt.forever() {
            let serving = self.table.shared.load::<Look>(seat, SERVING);
            if serving == ticket {
                break;
            }
            if looks < LOOKS {
                looks += 1;
                hint::spin_loop();
            } else if !is_counted {
                self.waiting.lie_down();
                is_counted = true;
            } else {
                self.table
                    .shared
                    .park(rt, SERVING, (serving % (1 << 32)) as u32);
            }
        }
        if is_counted {
            self.waiting.get_up();
        }
    }

    /// Waits at the door until the way is free.
    pub(crate) fn come_in<R: Wait>(&self, rt: &R, errand: Errand) {
        for _ in rt.forever() {
            if self.look(errand) || self.look_on(errand) {
                return;
            }
            self.waiting.come();
            if self.is_free(errand) {
                return;
            }
            self.waiting.sleep(rt);
            self.waiting.come();
        }
        unreachable!()
    }

    /// Looks a while without a break whether the way is free, and says so.
    fn look(&self, errand: Errand) -> bool {
        for _ in 0..LOOKS {
            if self.is_free(errand) {
                return true;
            }
            hint::spin_loop();
        }
        false
    }

    /// Looks a while longer and lets other threads run in between. For one turn it does so at a locked door alone.
    fn look_on(&self, errand: Errand) -> bool {
        for _ in 0..YIELDS {
            if self.is_free(errand) {
                return true;
            }
            if errand == Errand::Turn && !self.waiting.is_locked() {
                return false;
            }
            thread::yield_now();
        }
        false
    }

    /// Whether the way is free. To lock the door: nobody has locked it, and every turn that was drawn for has ended.
    /// For one turn: all have ended, or all but one while the door is locked. At a locked door who would lock it looks
    /// at the lock alone, and not at the words that each turn writes.
    fn is_free(&self, errand: Errand) -> bool {
        match errand {
            Errand::Turn => {
                let out = self.tickets_out();
                out == 0 || (out == 1 && self.waiting.is_locked())
            }
            Errand::Lock => !self.waiting.is_locked() && self.tickets_out() == 0,
        }
    }

    /// How many tickets are out.
    fn tickets_out(&self) -> u64 {
        let tickets = self.table.shared.peek(TICKETS);
        let ended = self.table.shared.peek(SERVING);
        tickets.saturating_sub(ended)
    }

    /// Comes in, where the thread is not inside.
    pub(crate) fn come_from<R: Wait>(&self, rt: &R, standing: Standing) {
        if standing == Standing::AtTheDoor && !self.is_free(Errand::Turn) {
            self.come_in(rt, Errand::Turn);
        }
    }

    /// Wakes those who sleep with a ticket, and one at the door, unless it is locked: who unlocks it wakes that one.
    pub(crate) fn wake_from(&self, standing: Standing) {
        if self.waiting.has_sleepers() {
            self.table.shared.wake_all(SERVING);
        }
        if standing == Standing::AtTheDoor
            && self.waiting.is_crowded()
            && !self.waiting.is_locked()
        {
            self.waiting.call_in();
        }
    }

    /// Ends the turn, in which `asked` was asked and `reply` was the answer.
    fn finish<W: Said<M::Request, M::Reply>>(
        &self,
        seat: &mut TableSeat<M>,
        asked: &Snapshot<M::Request>,
        reply: &M::Reply,
    )
        requires said { W.said ≡ Some (asked.now.value, reply.now) }
        requires desk { (seat.old.table_id ≡ self.now.table.shared.table_id)
            × (seat.old.me.0.first ≡ Some self.now.table.shared.key.first.value) }
        requires served { HasServed M.steps seat.old.me asked.now.value reply.now }
        ensures same { (seat.new.table_id ≡ seat.old.table_id) × (seat.new.id ≡ seat.old.id) }
        ensures ended { Ended M.steps seat.old.me asked.now.value reply.now seat.new.me }
    {
        self.table.shared.fetch_add::<End<W>>(seat, SERVING, 1);
    }

    /// The same. It picks what was said, for the proof.
    pub(crate) fn finish_said(
        &self,
        seat: &mut TableSeat<M>,
        asked: &Snapshot<M::Request>,
        reply: &M::Reply,
    )
        requires desk { (seat.old.table_id ≡ self.now.table.shared.table_id)
            × (seat.old.me.0.first ≡ Some self.now.table.shared.key.first.value) }
        requires served { HasServed M.steps seat.old.me asked.now.value reply.now }
        ensures same { (seat.new.table_id ≡ seat.old.table_id) × (seat.new.id ≡ seat.old.id) }
        ensures ended { Ended M.steps seat.old.me asked.now.value reply.now seat.new.me }
    {
        self.finish::<Brand>(seat, asked, reply);
    }
}
