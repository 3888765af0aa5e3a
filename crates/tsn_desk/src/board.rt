//! The table behind a desk: its two words, its one slot, what each seat knows of them, and the rule that ties them.
use crate::history::Calls;
use crate::machine::Machine;
use atomic_table::TableRule;
use std::collections::LinkedList;
use std::marker::PhantomData;
use std::snapshot::Snapshot;
use tsn_machine::history::Entry;

/// The word that counts the turns that have ended. It is the ticket that is served.
pub(crate) const SERVING: usize = 0;

/// The word that counts the tickets that were drawn. It is the next ticket.
pub(crate) const TICKETS: usize = 1;

/// How far a seat has come in a turn.
pub enum Stage {
    /// It has no ticket.
    Idle,
    /// It has this ticket, and waits.
    Waiting(u64),
    /// It has this ticket, and the machine.
    Serving(u64),
}

/// What a seat knows. No value of it is made.
pub struct View<M, Q, A> {
    /// The machine that the desk began with; none for a seat that was joined into another.
    pub first: Option<M>,
    /// The beginning of the history that it has seen.
    pub seen: LinkedList<Entry<Q, A>>,
    /// A beginning of the history that another seat had seen, which was joined into this one.
    pub told: LinkedList<Entry<Q, A>>,
    /// How many tickets it has seen drawn.
    pub tickets: u64,
    /// The numbers that it makes calls under, the first one its own, with the calls made under each.
    pub calls: LinkedList<Calls<Q, A>>,
    pub stage: Stage,
}

/// What a table is told once, when it is made.
pub struct Opening<M> {
    /// The machine that the desk begins with, for proofs alone.
    pub first: Snapshot<M>,
    pub seats: u64,
}

impl<M> Drop for Opening<M> {
    fn drop(self) {
        let Opening { first, seats: _ } = self;
        drop(first);
    }
}

/// The rule of a desk.
pub struct Turns<M> {
    machine: PhantomData<M>,
}

impl<M: Machine> TableRule<Option<M>, View<M, M::Request, M::Reply>, Opening<M>> for Turns<M> {
    ghost use Rattle.tsn_desk.specs.Rule.{Kept, opening_view};

    ghost holds = { λ opening. Kept M.steps opening.first.value opening.seats };

    ghost first = { λ opening. opening_view opening.first.value opening.seats };
}
