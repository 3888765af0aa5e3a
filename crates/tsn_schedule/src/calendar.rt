//! The arithmetic of one list: when a change comes, and which entry lies at an offset of a cycle.
//!
//! A list is walked from its first entry, so a call costs no more than the list's length; no cycle is walked.
ghost use Rattle.std.specs.Prelude.{◌≡◌, ◌≤◌, IfSome};
ghost use Rattle.std.specs.Option.{option_copied, option_map, option_map_or};
ghost use Rattle.tsn_schedule.specs.Entries.{entry_at, earlier_at};
ghost use Rattle.tsn_schedule.specs.Times.{change_of, IsChange};

use crate::timed::Timed;
use tsn_types::lists::ControlList;
use tsn_types::numbers::{Cycle, Instant};

/// When, in nanoseconds, a schedule that is set at `now` comes in force: at its base, or the first whole number of
/// cycles after it that isn't before `now` (802.1Q-2018, 8.6.9). It may lie after the greatest instant.
#[tactic(auto, using(crate::proofs::Numbers::round_up))]
pub fn change_time(base: Instant, cycle: Cycle, now: Instant) -> u64
    ensures value { result ≡ change_of base cycle now }
    ensures reached { now ≤ result }
    ensures small { IsChange result }
    ensures some_cycle { 1 ≤ cycle }
{
    let (base, cycle, now) = (base.get(), cycle.get(), now.get());
    if base >= now {
        return base;
    }
    let over = (now - base) % cycle;
    if over == 0 { now } else { now + (cycle - over) }
}

/// An entry of a list, and the sum of the intervals before it, in nanoseconds.
#[derive(Clone, Copy, Debug)]
pub struct Found<'a, E> {
    pub entry: &'a E,
    pub earlier: u64,
}

/// The entry at an offset of a cycle, in nanoseconds, and the intervals before it; past the whole sum the last one, and
/// none of an empty list.
pub fn found_at<E: Timed>(list: &ControlList<E>, offset: u64) -> Option<Found<'_, E>>
    ensures entry { option_map (λ found. found.entry.now) result ≡ entry_at E.interval list.now offset }
    ensures earlier { option_map_or (λ found. found.earlier) result 0 ≡ earlier_at E.interval list.now offset }
    ensures within { IfSome result (λ found. found.earlier ≤ offset) }
{
    let mut rest = list.as_slice();
    let mut left = offset;
    while let Some((first, others)) = rest.split_first() {
        let interval = first.interval().get();
        if others.is_empty() || left < interval {
            return Some(Found {
                entry: first,
                earlier: offset - left,
            });
        }
        left -= interval;
        rest = others;
    }
    None
}

/// The entry at an offset of a cycle, in nanoseconds; past the whole sum the last one, and none of an empty list.
pub fn state_at<E: Timed>(list: &ControlList<E>, offset: u64) -> Option<&E>
    ensures { option_copied result ≡ entry_at E.interval list.now offset }
{
    Some(found_at(list, offset)?.entry)
}
