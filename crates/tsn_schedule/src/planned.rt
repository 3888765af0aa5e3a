//! A schedule as a runner keeps it, and where each entry begins in its cycle.
//!
//! Beside the schedule stand the sums of its intervals, so an entry is found by a binary search and costs the same in a
//! long list as in a short one. Both are made before anything changes, so only the making takes memory.
ghost use Rattle.std.specs.Prelude.{◌≡◌, ℕ, ◌<◌, ◌≤◌, IfOk, IfSome, length, slice_index};
ghost use Rattle.std.specs.List.Sorted.{IsNonDecreasing};
ghost use Rattle.std.specs.Option.{option_map, option_map_or};
ghost use Rattle.tsn_schedule.specs.Begins.{AreBegins};
ghost use Rattle.tsn_schedule.specs.Entries.{entry_at, earlier_at};

use crate::calendar::Found;
use crate::timed::Timed;
use std::alloc::{AllocError, Global};
use std::marker::Model;
use tsn_types::numbers::{Cycle, Extension, Instant};
use tsn_types::records::Schedule;

/// A schedule that is kept to be run, which contracts see as the schedule.
#[derive(Debug, Drop)]
pub struct Planned<E: Timed> {
    schedule: Schedule<E>,
    // where each entry begins, as far as that is below 2^64 nanoseconds
    begins: Vec<u64>,
}

impl<E: Timed> Model for Planned<E> {
    ghost use Rattle.tsn_types.specs.declared.records.Schedule.{Schedule as AnySchedule};
    ghost use Rattle.tsn_schedule.specs.Begins.{AreBegins};
    ghost use Rattle.tsn_schedule.specs.Planned.{schedule_code};

    ghost Value = { AnySchedule E };

    ghost coded = { schedule_code E.code };

    ghost view = { λ a. a.schedule };

    ghost invariant = { λ a. AreBegins E.interval a.schedule.list a.begins.items };
}

// Where each entry begins, as far as that is below 2^64.
fn begins_of<E: Timed>(alloc: Global, entries: &[E]) -> Result<Vec<u64>, AllocError>
    ensures { IfOk result (λ begins. AreBegins E.interval entries.now begins.items) }
{
    let mut begins = Vec::with_capacity(alloc, entries.len())?;
    let mut sum = 0u64;
    for entry in entries {
        begins.push(sum)?;
        match sum.checked_add(entry.interval().get()) {
            Some(more) => sum = more,
            None => return Ok(begins),
        }
    }
    Ok(begins)
}

// How many entries begin by an offset.
fn begun_by(begins: &[u64], offset: u64) -> usize
    requires { IsNonDecreasing begins.now }
    ensures within { result ≤ length begins.now }
    ensures begun { (k : ℕ) → k < result → slice_index begins.now k ≤ offset }
    ensures later { (k : ℕ) → result ≤ k → k < length begins.now → offset < slice_index begins.now k }
{
    let mut low = 0;
    let mut high = begins.len();
    while low < high {
        let middle = low + (high - low) / 2;
        if begins[middle] <= offset {
            low = middle + 1;
        } else {
            high = middle;
        }
    }
    low
}

impl<E: Timed> Planned<E> {
    /// A copy of the schedule, with the sums. Refused only for want of memory.
    pub fn copy_of(schedule: &Schedule<E>) -> Result<Self, AllocError>
    where
        E: Clone,
        requires { (x y : E) → E.is_clone x y → y ≡ x }
        ensures { IfOk result (λ planned. planned ≡ schedule.now) }
    {
        let schedule = schedule.try_clone()?;
        let begins = begins_of(schedule.list.allocator(), schedule.list.as_slice())?;
        Ok(Planned { schedule, begins })
    }

    /// AdminBaseTime.
    pub fn base(&self) -> Instant
        ensures { result ≡ self.now.base }
    {
        self.schedule.base
    }

    /// AdminCycleTime.
    pub fn cycle(&self) -> Cycle
        ensures { result ≡ self.now.cycle }
    {
        self.schedule.cycle
    }

    /// AdminCycleTimeExtension.
    pub fn extension(&self) -> Extension
        ensures { result ≡ self.now.extension }
    {
        self.schedule.extension
    }

    /// The entry at an offset of a cycle, in nanoseconds, and the intervals before it; past the whole sum the last one,
    /// and none of an empty list.
    pub fn at(&self, offset: u64) -> Option<Found<'_, E>>
        ensures entry { option_map (λ found. found.entry.now) result ≡ entry_at E.interval self.now.list offset }
        ensures earlier { option_map_or (λ found. found.earlier) result 0 ≡ earlier_at E.interval self.now.list offset }
        ensures within { IfSome result (λ found. found.earlier ≤ offset) }
    {
        let begun = begun_by(&self.begins, offset);
        if begun == 0 {
            return None;
        }
        let place = begun - 1;
        Some(Found {
            entry: &self.schedule.list.as_slice()[place],
            earlier: self.begins[place],
        })
    }
}
