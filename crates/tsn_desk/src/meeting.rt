//! How seats learn from each other, and how one takes in another.
ghost use Rattle.std.specs.Prelude.{◌≡◌};
ghost use Rattle.tsn_desk.specs.Seats.{IsAtRest, HasGathered, Learned};

use crate::board::SERVING;
use crate::desk::{Desk, TableSeat};
use crate::machine::Machine;
use crate::plays::{Gather, Note, SeeFront};

impl<M: Machine> Desk<M> {
    /// Takes in another seat, with its numbers, and sees the whole history. The look is what shows that the history
    /// begins with what each of the two had seen.
    pub(crate) fn gather(&self, seat: &mut TableSeat<M>, other: TableSeat<M>)
        requires seats { IsAtRest self.now.table seat.old × IsAtRest self.now.table other }
        ensures { HasGathered M.steps self.now.table other seat.old seat.new }
    {
        self.table.shared.join_seat::<Gather>(seat, other);
        self.table.shared.load::<SeeFront>(seat, SERVING);
    }

    /// Tells a seat what another has seen, by a note.
    pub(crate) fn tell(&self, from: &mut TableSeat<M>, to: &mut TableSeat<M>)
        requires seats { IsAtRest self.now.table from.old × IsAtRest self.now.table to.old }
        ensures from { IsAtRest self.now.table from.new × (from.new.me ≡ from.old.me) }
        ensures to { Learned M.steps self.now.table from.old to.old to.new }
    {
        let note = self.table.shared.split_seat::<Note>(from);
        self.gather(to, note);
    }
}
