//! What the filter chain keeps of each stream filter, stream gate and flow meter.
//!
//! Instance data is new where an instance is created, stays where its record is replaced, and goes with it.
ghost use Rattle.std.specs.Prelude.{◌≡◌};
ghost use Rattle.tsn_chain.specs.Following.{clipped_meter, new_filter, new_gate, new_meter};

use tsn_meter::bucket::Bucket;
use tsn_types::numbers::{Instant, Octets, Priority};
use tsn_types::records::FlowMeter;

/// What is kept of a stream filter: its counters (802.1Q-2018, 12.31.2), which stay at 2^64 - 1, and its flag.
#[derive(Clone, Copy, Debug, PartialEq, Eq)]
pub struct FilterData {
    /// StreamBlockedDueToOversizeFrame.
    pub blocked: bool,
    /// MatchingFramesCount.
    pub matching: u64,
    /// NotPassingFramesCount.
    pub not_passing: u64,
    /// NotPassingSDUCount.
    pub not_passing_sdu: u64,
    /// PassingFramesCount.
    pub passing: u64,
    /// PassingSDUCount.
    pub passing_sdu: u64,
    /// REDFramesCount.
    pub red: u64,
}

impl FilterData {
    /// That of a new filter: every counter 0, the flag off.
    pub(crate) fn new() -> Self
        ensures { result ≡ new_filter }
    {
        FilterData {
            blocked: false,
            matching: 0,
            not_passing: 0,
            not_passing_sdu: 0,
            passing: 0,
            passing_sdu: 0,
            red: 0,
        }
    }
}

/// What is kept of a stream gate beside its lists: two latches (802.1Q-2018, 12.31.3), and the octets used in an
/// interval.
#[derive(Clone, Copy, Debug, PartialEq, Eq)]
pub struct GateData {
    /// GateClosedDueToInvalidRx.
    pub invalid_rx: bool,
    /// GateClosedDueToOctetsExceeded.
    pub octets_exceeded: bool,
    /// Octets, in the interval that began at `began`; at most 2^64 - 1.
    pub used: u64,
    /// Nanoseconds; none where no frame passed by a list yet.
    pub began: Option<u64>,
}

impl GateData {
    /// That of a new gate: no latch, and no interval.
    pub(crate) fn new() -> Self
        ensures { result ≡ new_gate }
    {
        GateData {
            invalid_rx: false,
            octets_exceeded: false,
            used: 0,
            began: None,
        }
    }
}

/// What is kept of a flow meter: its bucket, and the flag that marks all frames red (802.1Q-2018, 12.31.4).
#[derive(Clone, Copy, Debug)]
pub struct MeterData {
    pub bucket: Bucket,
    /// MarkAllFramesRed.
    pub red: bool,
}

impl MeterData {
    /// That of a new meter: its bucket full, the flag off.
    pub(crate) fn new(meter: &FlowMeter, now: Instant) -> Self
        ensures { result ≡ new_meter now meter.now }
    {
        MeterData {
            bucket: Bucket::full(meter, now),
            red: false,
        }
    }

    /// The same with its bucket clipped by a record.
    pub(crate) fn clipped(self, meter: &FlowMeter) -> Self
        ensures { result ≡ clipped_meter meter.now self }
    {
        let MeterData { mut bucket, red } = self;
        bucket.clip(meter);
        MeterData { bucket, red }
    }
}

/// A flow meter that a filter names: its record, and what is kept of it.
#[derive(Clone, Copy, Debug)]
pub struct Metered {
    pub by: FlowMeter,
    pub kept: MeterData,
}

/// What is kept of the instances that a frame meets: the chosen filter, its gate and, if it names one, its meter.
#[derive(Clone, Copy, Debug)]
pub struct Met {
    pub filter: FilterData,
    pub gate: GateData,
    pub meter: Option<Metered>,
}

/// The interval of the list in force: the instant at which it began, in nanoseconds, and its IntervalOctetMax.
#[derive(Clone, Copy, Debug, PartialEq, Eq)]
pub struct Running {
    pub began: u64,
    pub octets: Option<Octets>,
}

/// The state of a stream gate at an instant, and its interval where a list is in force.
#[derive(Clone, Copy, Debug, PartialEq, Eq)]
pub struct GateState {
    pub is_open: bool,
    pub ipv: Option<Priority>,
    pub running: Option<Running>,
}
