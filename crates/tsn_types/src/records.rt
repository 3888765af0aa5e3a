//! Records: the managed objects of a port, a stream filter, a stream gate and a flow meter, whole.
//!
//! A record is created, replaced and removed as one. Only `try_clone` takes memory; what it gives equals its source.
ghost use Rattle.std.specs.Prelude.{◌≡◌, ◌↔◌, IfOk, IsTrue};
ghost use Rattle.tsn_types.specs.Keys.{first_ref, has, keys_of_refs, refs, second_ref};
ghost use Rattle.tsn_types.specs.Lent.{lent_record};
ghost use Rattle.tsn_types.specs.declared.records.Record.TheVariants.{Filter as FilterRecord};

use crate::keys::Key;
use crate::lists::ControlList;
use crate::numbers::{
    BitRate, Cycle, Extension, GateId, Handle, Instant, Interval, MaxSdu, MeterId, Octets, Priority,
};
use std::alloc::AllocError;

/// An entry of a port's gate control list, SetGateStates (802.1Q-2018, 8.6.8.4).
#[derive(Clone, Copy, Debug, PartialEq, Eq)]
pub struct PortEntry {
    /// The gate of traffic class i is open where bit i is 1.
    pub gates: u8,
    pub interval: Interval,
}

/// An entry of a stream gate's control list, SetGateAndIPV (802.1Q-2018, 8.6.10).
#[derive(Clone, Copy, Debug, PartialEq, Eq)]
pub struct GateEntry {
    pub is_open: bool,
    /// The internal priority value; none leaves a frame its own priority.
    pub ipv: Option<Priority>,
    pub interval: Interval,
    /// IntervalOctetMax; none is no bound.
    pub octets: Option<Octets>,
}

/// The admin values of a gate control list: the list, how long its cycle is and when it starts.
#[derive(Debug, Drop, PartialEq)]
pub struct Schedule<E> {
    /// AdminControlList.
    pub list: ControlList<E>,
    /// AdminCycleTime.
    pub cycle: Cycle,
    /// AdminCycleTimeExtension.
    pub extension: Extension,
    /// AdminBaseTime.
    pub base: Instant,
}

impl<E: Clone> Schedule<E> {
    /// A copy that equals its source, where the clones of entries do.
    pub fn try_clone(&self) -> Result<Self, AllocError>
        requires { (x y : E) → E.is_clone x y → y ≡ x }
        ensures { IfOk result (λ copy. copy ≡ self.now) }
    {
        Ok(Schedule {
            list: self.list.try_clone()?,
            ..*self
        })
    }
}

/// The gate parameters of a port (802.1Q-2018, 12.29.1).
#[derive(Debug, Drop, PartialEq)]
pub struct PortGates {
    /// AdminGateStates: the gate of traffic class i is open where bit i is 1.
    pub gates: u8,
    pub admin: Schedule<PortEntry>,
}

impl PortGates {
    /// A copy that equals its source.
    pub fn try_clone(&self) -> Result<Self, AllocError>
        ensures { IfOk result (λ copy. copy ≡ self.now) }
    {
        Ok(PortGates {
            gates: self.gates,
            admin: self.admin.try_clone()?,
        })
    }
}

/// A stream gate instance (802.1Q-2018, 12.31.3).
#[derive(Debug, Drop, PartialEq)]
pub struct StreamGate {
    /// The admin gate state.
    pub is_open: bool,
    /// The admin internal priority value.
    pub ipv: Option<Priority>,
    /// GateClosedDueToInvalidRxEnable.
    pub invalid_rx: bool,
    /// GateClosedDueToOctetsExceededEnable.
    pub octets_exceeded: bool,
    pub admin: Schedule<GateEntry>,
}

impl StreamGate {
    /// A copy that equals its source.
    pub fn try_clone(&self) -> Result<Self, AllocError>
        ensures { IfOk result (λ copy. copy ≡ self.now) }
    {
        Ok(StreamGate {
            admin: self.admin.try_clone()?,
            ..*self
        })
    }
}

/// A stream filter instance (802.1Q-2018, 12.31.2).
#[derive(Clone, Copy, Debug, PartialEq, Eq)]
pub struct StreamFilter {
    /// The stream handle specification; none is any handle.
    pub handle: Option<Handle>,
    /// The priority specification; none is any priority.
    pub priority: Option<Priority>,
    /// The stream gate instance that it refers to.
    pub gate: GateId,
    /// The maximum SDU size; none is no bound.
    pub max_sdu: Option<MaxSdu>,
    /// The flow meter instance that it refers to; none is no meter.
    pub meter: Option<MeterId>,
    /// StreamBlockedDueToOversizeFrameEnable.
    pub oversize: bool,
}

impl StreamFilter {
    /// Whether the filter refers to the key: its gate or, if given, its meter.
    pub fn refers_to(&self, key: &Key) -> bool
        ensures { result ≡ has (refs (FilterRecord self.now)) key.now }
    {
        if *key == Key::Gate(self.gate) {
            return true;
        }
        match self.meter {
            Some(meter) => *key == Key::Meter(meter),
            None => false,
        }
    }
}

/// A flow meter instance (802.1Q-2018, 12.31.4).
#[derive(Clone, Copy, Debug, PartialEq, Eq)]
pub struct FlowMeter {
    /// The committed information rate.
    pub cir: BitRate,
    /// The committed burst size.
    pub cbs: Octets,
    /// The excess information rate.
    pub eir: BitRate,
    /// The excess burst size.
    pub ebs: Octets,
    /// The coupling flag.
    pub cf: bool,
    /// The colour mode: true is colour-aware.
    pub aware: bool,
    /// DropOnYellow.
    pub drop_yellow: bool,
    /// MarkAllFramesRedEnable.
    pub all_red: bool,
}

/// One managed object, whole.
#[derive(Debug, Drop, PartialEq)]
pub enum Record {
    Port(PortGates),
    Filter(StreamFilter),
    Gate(StreamGate),
    Meter(FlowMeter),
}

/// What a record refers to: at most two keys.
#[derive(Clone, Copy, Debug, PartialEq, Eq)]
pub struct Refs {
    pub first: Option<Key>,
    pub second: Option<Key>,
}

impl Record {
    /// What the record refers to: a filter first to its gate and second, if given, to its meter; any other record to
    /// nothing.
    pub fn refs(&self) -> Refs
        ensures keys { keys_of_refs result ≡ refs self.now }
        ensures first { result.first ≡ first_ref self.now }
        ensures second { result.second ≡ second_ref self.now }
    {
        match self {
            Record::Filter(filter) => Refs {
                first: Some(Key::Gate(filter.gate)),
                second: filter.meter.map(Key::Meter),
            },
            _ => Refs {
                first: None,
                second: None,
            },
        }
    }

    /// A copy that equals its source.
    pub fn try_clone(&self) -> Result<Self, AllocError>
        ensures { IfOk result (λ copy. copy ≡ self.now) }
    {
        Ok(match self {
            Record::Port(ports) => Record::Port(ports.try_clone()?),
            Record::Filter(filter) => Record::Filter(*filter),
            Record::Gate(gate) => Record::Gate(gate.try_clone()?),
            Record::Meter(meter) => Record::Meter(*meter),
        })
    }

    /// Whether the record refers to the key.
    pub fn refers_to(&self, key: &Key) -> bool
        ensures { result ≡ has (refs self.now) key.now }
    {
        match self {
            Record::Filter(filter) => filter.refers_to(key),
            _ => false,
        }
    }
}

/// A record that is lent from where it is kept.
#[derive(Clone, Copy, Debug)]
pub enum RecordRef<'a> {
    Port(&'a PortGates),
    Filter(&'a StreamFilter),
    Gate(&'a StreamGate),
    Meter(&'a FlowMeter),
}

impl RecordRef<'_> {
    /// A record that equals the one that is lent.
    pub fn try_clone(self) -> Result<Record, AllocError>
        ensures { IfOk result (λ copy. copy ≡ lent_record self.entry) }
    {
        Ok(match self {
            RecordRef::Port(ports) => Record::Port(ports.try_clone()?),
            RecordRef::Filter(filter) => Record::Filter(*filter),
            RecordRef::Gate(gate) => Record::Gate(gate.try_clone()?),
            RecordRef::Meter(meter) => Record::Meter(*meter),
        })
    }

    /// Whether it is the record, every member of it.
    pub fn is(self, other: &Record) -> bool
        ensures { IsTrue result ↔ (lent_record self.entry ≡ other.now) }
    {
        match (self, other) {
            (RecordRef::Port(left), Record::Port(right)) => left == right,
            (RecordRef::Filter(left), Record::Filter(right)) => left == right,
            (RecordRef::Gate(left), Record::Gate(right)) => left == right,
            (RecordRef::Meter(left), Record::Meter(right)) => left == right,
            _ => false,
        }
    }
}
