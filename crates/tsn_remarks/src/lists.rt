//! How long the intervals of a list are together.
ghost use Rattle.std.specs.Prelude.{◌≡◌, ◌≤◌, length};
ghost use Rattle.std.specs.List.{sum_by};
ghost use Rattle.tsn_types.specs.Bounds.{longest_list};

use tsn_schedule::timed::Timed;

// The intervals together, in nanoseconds: less than 2^44, as no list is longer than 4,096 entries.
pub(crate) fn taken<E: Timed>(entries: &[E]) -> u64
    requires { length entries.now ≤ longest_list }
    ensures { result ≡ sum_by E.interval entries.now }
{
    let mut taken = 0;
    for entry in entries {
        taken += entry.interval().get();
    }
    taken
}
