//! Keys, records and numbers that the tests of several crates begin with. No program links it.
#![tactic(auto)]

ghost use Rattle.std.specs.Prelude.{◌≡◌, ◌<◌, ◌≤◌};

use std::alloc::Global;
use tsn_types::keys::Key;
use tsn_types::lists::ControlList;
use tsn_types::numbers::{
    BitRate, Cycle, Extension, FilterId, GateId, Handle, Instant, MaxSdu, MeterId, Octets, PortId,
};
use tsn_types::records::{FlowMeter, PortGates, Record, Schedule, StreamFilter, StreamGate};

pub fn port_key(number: u64) -> Key
    requires low { 1 ≤ number }
    requires high { number ≤ 64 }
    ensures { result ≡ Key.Port number }
{
    Key::Port(PortId::new(number).unwrap())
}

pub fn filter_key(number: u64) -> Key
    requires { number ≤ 65535 }
    ensures { result ≡ Key.Filter number }
{
    Key::Filter(FilterId::new(number).unwrap())
}

pub fn gate_key(number: u64) -> Key
    requires { number ≤ 65535 }
    ensures { result ≡ Key.Gate number }
{
    Key::Gate(GateId::new(number).unwrap())
}

pub fn meter_key(number: u64) -> Key
    requires { number ≤ 65535 }
    ensures { result ≡ Key.Meter number }
{
    Key::Meter(MeterId::new(number).unwrap())
}

/// A meter with no flag on: a committed rate of 8 Mbit/s, two burst sizes, no excess rate.
pub fn meter_of(cbs: u64, ebs: u64) -> FlowMeter
    requires committed { cbs ≤ 4294967295 }
    requires excess { ebs ≤ 4294967295 }
{
    FlowMeter {
        cir: BitRate::new(8_000_000).unwrap(),
        cbs: Octets::new(cbs).unwrap(),
        eir: BitRate::new(0).unwrap(),
        ebs: Octets::new(ebs).unwrap(),
        cf: false,
        aware: false,
        drop_yellow: false,
        all_red: false,
    }
}

/// The same with bursts of 1500 octets and no excess.
pub fn meter() -> FlowMeter {
    meter_of(1500, 0)
}

/// The same as a record.
pub fn meter_record() -> Record {
    Record::Meter(meter())
}

/// A filter of stream handle 7 and any priority, with at most 1500 octets and its block on.
pub fn filter(gate: u64, meter: Option<MeterId>) -> StreamFilter
    requires { gate ≤ 65535 }
{
    StreamFilter {
        handle: Some(Handle::new(7).unwrap()),
        priority: None,
        gate: GateId::new(gate).unwrap(),
        max_sdu: Some(MaxSdu::new(1500).unwrap()),
        meter,
        oversize: true,
    }
}

/// The empty list with a cycle of a millisecond.
fn schedule<E: Drop>(alloc: Global) -> Schedule<E> {
    Schedule {
        list: ControlList::new(alloc),
        cycle: Cycle::new(1_000_000).unwrap(),
        extension: Extension::new(0).unwrap(),
        base: Instant::new(0).unwrap(),
    }
}

/// A port of these gates with no list.
pub fn port(alloc: Global, gates: u8) -> PortGates {
    PortGates {
        gates,
        admin: schedule(alloc),
    }
}

/// An open gate with no list.
pub fn gate(alloc: Global) -> StreamGate {
    StreamGate {
        is_open: true,
        ipv: None,
        invalid_rx: false,
        octets_exceeded: false,
        admin: schedule(alloc),
    }
}

/// The next state of a generator, and a number below `bound` from it.
pub fn drawn(seed: u64, bound: u64) -> (u64, u64)
    requires { 0 < bound }
    ensures { result.1 < bound }
{
    let seed = seed
        .wrapping_mul(6_364_136_223_846_793_005)
        .wrapping_add(1_442_695_040_888_963_407);
    (seed, (seed >> 33) % bound)
}
