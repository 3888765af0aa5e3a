//! Counters and octets at their greatest number, which no script reaches.
ghost use Rattle.std.specs.Prelude.{◌≤◌};

use super::bench::{dropped, filter, filter_id, frame, instant, octets, passed, priority};
use crate::comparing::same;
use std::process::Abort;
use tsn_chain::chain::{Passage, pass_through};
use tsn_chain::data::{FilterData, GateData, GateState, Met, MeterData, Metered, Running};
use tsn_chain::frame::{DropCause, Verdict};
use tsn_meter::bucket::Bucket;
use tsn_samples::{gate, meter_of};
use tsn_types::numbers::{MaxSdu, Octets};
use tsn_types::records::{StreamFilter, StreamGate};

/// A frame of so many octets at instant 500, by filter 3.
fn passage<'a>(
    filter: &'a StreamFilter,
    gate: &'a StreamGate,
    state: GateState,
    count: u64,
) -> Passage<'a>
    requires { count ≤ 65535 }
{
    Passage {
        id: filter_id(3),
        filter,
        gate,
        state,
        frame: frame(count),
        time: instant(500),
    }
}

/// The state of a gate where no list is in force.
fn unlisted(is_open: bool) -> GateState {
    GateState {
        is_open,
        ipv: None,
        running: None,
    }
}

/// The state of an open gate in an interval that began at 400, with this bound of octets and priority value 5.
fn listed(bound: Option<Octets>) -> GateState {
    GateState {
        is_open: true,
        ipv: Some(priority(5)),
        running: Some(Running {
            began: 400,
            octets: bound,
        }),
    }
}

/// A gate of which so many octets are used since 400.
fn used(count: u64) -> GateData {
    GateData {
        invalid_rx: false,
        octets_exceeded: false,
        used: count,
        began: Some(400),
    }
}

/// Each of a filter's counters at this number.
fn counted(count: u64) -> FilterData {
    FilterData {
        blocked: false,
        matching: count,
        not_passing: count,
        not_passing_sdu: count,
        passing: count,
        passing_sdu: count,
        red: count,
    }
}

/// The sum of an interval without a bound stays at the greatest number.
fn sum_stays(rt: &impl Abort, gate: &StreamGate) {
    let mut met = Met {
        filter: counted(0),
        gate: used(u64::MAX - 99),
        meter: None,
    };
    let wanted = FilterData {
        matching: 1,
        passing_sdu: 1,
        passing: 1,
        ..counted(0)
    };
    let filter = filter();
    let frame = passage(&filter, gate, listed(None), 100);
    same(
        rt,
        &pass_through(&frame, &mut met),
        &passed(3, 500, 5, false),
    );
    same(rt, &met.filter, &wanted);
    same(rt, &met.gate, &used(u64::MAX));
}

/// The chain says this of a frame, and leaves every counter at the greatest number. The meter is full, and has 100
/// octets.
fn stays(rt: &impl Abort, passage: &Passage<'_>, wanted: Verdict) {
    let by = meter_of(100, 0);
    let bucket = Bucket::full(&by, instant(500));
    let mut met = Met {
        filter: counted(u64::MAX),
        gate: used(0),
        meter: Some(Metered {
            by,
            kept: MeterData { bucket, red: false },
        }),
    };
    same(rt, &pass_through(passage, &mut met), &wanted);
    same(rt, &met.filter, &counted(u64::MAX));
}

#[test]
fn greatest_numbers(rt: HostRuntime) {
    let gate = gate(rt.alloc());
    sum_stays(&rt, &gate);
    let short = StreamFilter {
        max_sdu: Some(MaxSdu::new(100).unwrap()),
        ..filter()
    };
    let filter = filter();
    let oversize = dropped(3, 500, DropCause::Oversize);
    stays(&rt, &passage(&short, &gate, unlisted(true), 101), oversize);
    let closed = dropped(3, 500, DropCause::Closed);
    stays(&rt, &passage(&filter, &gate, unlisted(false), 1), closed);
    let red = dropped(3, 500, DropCause::Red);
    stays(&rt, &passage(&filter, &gate, unlisted(true), 101), red);
    let too_many = dropped(3, 500, DropCause::Octets);
    let bound = listed(Some(octets(150)));
    stays(&rt, &passage(&filter, &gate, bound, 151), too_many);
}
