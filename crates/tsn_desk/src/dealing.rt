//! How the seats of a new desk are dealt.
ghost use Rattle.std.specs.Prelude.{◌≡◌, ◌≤◌, ◌<◌, ◌+◌, [], ℕ, Some, vec_len, vec_capacity, slice_get};
ghost use Rattle.tsn_desk.specs.Desks.{first_of, IsFresh};
ghost use Rattle.tsn_desk.specs.Rule.{opening_view};

use crate::desk::{Desk, Seat, TableSeat};
use crate::machine::Machine;
use crate::plays::GiveOut;

impl<M: Machine> Desk<M> {
    /// The seats, in the order of their numbers: the first seat has all numbers, gives out one after the other, and
    /// keeps the last.
    pub(crate) fn deal(
        &self,
        mut seat: TableSeat<M>,
        mut row: Vec<Seat<M>>,
        seats: usize,
    ) -> Vec<Seat<M>>
        requires count { (0 < seats) × (row.items ≡ []) × (seats ≤ vec_capacity row) }
        requires seat { (seat.table_id ≡ self.now.table.shared.table_id) × (seat.me ≡ (opening_view (first_of self.now) seats, [])) }
        ensures count { vec_len result ≡ seats }
        ensures fresh { (k : ℕ) (s : _) → slice_get result.items k ≡ Some s → IsFresh self.now s (k + 1) }
    {
        for _ in 1..seats {
            let other = self.table.shared.split_seat::<GiveOut>(&mut seat);
            row.push_reserved(Seat { inner: other });
        }
        row.push_reserved(Seat { inner: seat });
        row
    }
}
