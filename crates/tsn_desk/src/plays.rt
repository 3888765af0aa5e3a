//! What each atomic step tells the seat that makes it, and how seats are cut in two and joined. These types are for
//! proofs alone.
ghost use Rattle.std.specs.Prelude.{Option, None, []};
ghost use Rattle.tsn_desk.specs.Steps.{saw_tickets, drew, looked, saw_front, ended, first_calls, rest_calls, joined, spent};

use crate::board::View;
use crate::machine::Machine;
use atomic_table::{Join, Play, Split};
use std::marker::{Brand, PhantomData};

/// What a turn asked and was answered. A call at `Brand` picks it, so that the step that ends the turn can name it.
pub(crate) trait Said<Q, A> {
    ghost said: { Option (Q × A) };
}

impl<Q, A> Said<Q, A> for Brand {
    ghost said = { None };
}

/// A look at how many tickets were drawn.
pub(crate) struct SeeTickets;

impl<M, Q, A> Play<Option<M>, View<M, Q, A>> for SeeTickets {
    ghost then = { saw_tickets };
}

/// The drawing of a ticket.
pub(crate) struct Draw;

impl<M, Q, A> Play<Option<M>, View<M, Q, A>> for Draw {
    ghost then = { drew };
}

/// A look whether the seat's ticket is served; if so, the seat takes the machine.
pub(crate) struct Look;

impl<M: Machine> Play<Option<M>, View<M, M::Request, M::Reply>> for Look {
    ghost then = { looked M.steps };
}

/// A look at how many turns have ended.
pub(crate) struct SeeFront;

impl<M: Machine> Play<Option<M>, View<M, M::Request, M::Reply>> for SeeFront {
    ghost then = { saw_front M.steps };
}

/// The end of the turn that asked and was answered so.
pub(crate) struct End<W> {
    said: PhantomData<W>,
}

impl<M: Machine, W: Said<M::Request, M::Reply>> Play<Option<M>, View<M, M::Request, M::Reply>>
    for End<W> {
    ghost then = { ended M.steps W.said };
}

/// The new seat gets the first number.
pub(crate) struct GiveOut;

impl<M, Q, A> Split<View<M, Q, A>> for GiveOut {
    ghost left = { λ view. record view { calls = rest_calls view.calls } };

    ghost right = { λ view. record view { calls = first_calls view.calls } };
}

/// The new seat is a note of what was seen. It has no number, and so makes no calls.
pub(crate) struct Note;

impl<M, Q, A> Split<View<M, Q, A>> for Note {
    ghost left = { λ view. view };

    ghost right = { λ view. record view { calls = [] } };
}

/// The seat is told what the other has seen, and gets its numbers.
pub(crate) struct Gather;

impl<M, Q, A> Join<View<M, Q, A>> for Gather {
    ghost both = { joined };

    ghost spent = { spent };
}
