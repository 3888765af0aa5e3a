//! Keys, records and configurations.
ghost use Rattle.std.specs.Prelude.{◌≤◌};

use std::alloc::{AllocError, Global};
use std::process::Abort;
use std::test::Fail;
use tsn_config::Config;
use tsn_config::records::Records;
use tsn_edit::Edit;
use tsn_edit::batches::Batch;
use tsn_samples::{filter, filter_key, gate, gate_key, meter, meter_key, port};
use tsn_types::keys::{Key, Kind};
use tsn_types::limits::Limits;
use tsn_types::numbers::{FilterId, GateId, Interval, MeterId, PortId, Range};
use tsn_types::records::{GateEntry, Record, RecordRef, StreamFilter, StreamGate};
use tsn_types::refusals::Refusal;

// A gate whose list has this many entries.
pub(super) fn gate_with(alloc: Global, length: usize) -> Result<StreamGate, AllocError> {
    let mut gate = gate(alloc);
    for _ in 0..length {
        gate.admin.list.push(GateEntry {
            is_open: true,
            ipv: None,
            interval: Interval::new(1).unwrap(),
            octets: None,
        })?;
    }
    Ok(gate)
}

pub(super) fn on_meter(number: u64) -> Option<MeterId>
    requires { number ≤ 65535 }
{
    Some(MeterId::new(number).unwrap())
}

// Checks the edit, and makes its change.
pub(super) fn make(rt: &impl Abort, config: &mut Config, edit: Edit) -> Result<(), AllocError> {
    let batch = Batch::one(edit);
    assert!(rt; config.check(&batch).is_none());
    let change = config.change_of(batch)?;
    assert!(rt; config.fits(&change));
    config.reserve(1)?;
    config.apply(change);
    Ok(())
}

pub(super) fn create_filter(number: u64, value: StreamFilter) -> Edit
    requires { number ≤ 65535 }
{
    Edit::Create(filter_key(number), Record::Filter(value))
}

pub(super) fn create_gate(number: u64, value: StreamGate) -> Edit
    requires { number ≤ 65535 }
{
    Edit::Create(gate_key(number), Record::Gate(value))
}

/// Plays on a configuration that begins with the records. One function makes the configurations and lends them, so that
/// a proof goes once over a configuration's end.
pub(super) fn on_a_config<F: FnOnce(&mut Config) -> Result<(), Fail>>(
    alloc: Global,
    limits: Limits,
    records: Records,
    play: F,
) -> Result<(), Fail>
    requires { F.IsAlwaysCallable play }
{
    let mut config = Config::open(alloc, limits, records)?;
    play(&mut config)
}

/// Makes gate 0, meter 0, and filter 3 that refers to both.
pub(super) fn make_first_entries(
    rt: &impl Abort,
    alloc: Global,
    config: &mut Config,
) -> Result<(), Fail> {
    make(rt, config, create_gate(0, gate(alloc)))?;
    let metered = Edit::Create(meter_key(0), Record::Meter(meter()));
    make(rt, config, metered)?;
    make(rt, config, create_filter(3, filter(0, on_meter(0))))?;
    Ok(())
}

/// Plays on a copy of the configuration.
pub(super) fn on_a_copy<F: FnOnce(&Config) -> Result<(), Fail>>(
    config: &Config,
    play: F,
) -> Result<(), Fail>
    requires { F.IsAlwaysCallable play }
{
    let copy = config.copy()?;
    play(&copy)
}

/// The configuration has records of these numbers of the kind.
pub(super) fn has_ids(
    rt: &impl Abort,
    alloc: Global,
    config: &Config,
    kind: Kind,
    wanted: &[u64],
) -> Result<(), Fail> {
    assert_eq!(rt; config.ids(alloc, kind)?.as_slice(), wanted, "{kind:?}");
    Ok(())
}

/// A record of a setup, by its number: a port; a filter on this gate and perhaps meter; a gate whose list has this many
/// entries; a meter.
#[derive(Clone, Copy, Drop)]
pub(super) enum Row {
    Port(u64),
    Filter(u64, u64, Option<u64>),
    Gate(u64, usize),
    Meter(u64),
}

fn filter_of(gate: u64, meter: Option<u64>) -> Result<StreamFilter, Range> {
    let gate = GateId::new(gate)?;
    let meter = match meter {
        Some(number) => Some(MeterId::new(number)?),
        None => None,
    };
    Ok(StreamFilter {
        gate,
        ..filter(0, meter)
    })
}

/// The records of a setup.
pub(super) fn records_of(alloc: Global, rows: &[Row]) -> Result<Records, Fail> {
    let mut records = Records::new(alloc);
    for row in rows {
        match *row {
            Row::Port(id) => {
                records.push(Key::Port(PortId::new(id)?), Record::Port(port(alloc, 15)))?;
            }
            Row::Filter(id, gate, meter) => {
                let filter = filter_of(gate, meter)?;
                records.push(Key::Filter(FilterId::new(id)?), Record::Filter(filter))?;
            }
            Row::Gate(id, entries) => {
                let gate = gate_with(alloc, entries)?;
                records.push(Key::Gate(GateId::new(id)?), Record::Gate(gate))?;
            }
            Row::Meter(id) => {
                records.push(Key::Meter(MeterId::new(id)?), Record::Meter(meter()))?;
            }
        }
    }
    Ok(records)
}

// Why the records are refused, on two ports, tables of sixteen instances and lists of up to sixteen entries.
pub(super) fn refused(alloc: Global, records: Records) -> Option<Refusal> {
    let limits = Limits::new(2, 16, 16, 16, 16).unwrap();
    Config::open(alloc, limits, records).err()
}

// Whether the port has the default record.
pub(super) fn is_default(config: &Config, key: Key) -> bool {
    match config.get(key) {
        Some(RecordRef::Port(port)) => {
            port.gates == 255
                && port.admin.list.is_empty()
                && port.admin.cycle.get() == 1_000_000
                && port.admin.extension.get() == 0
                && port.admin.base.get() == 0
        }
        _ => false,
    }
}

// Whether the record stands at the key, every member of it.
pub(super) fn stands(config: &Config, key: Key, value: &Record) -> bool {
    config.get(key).is_some_and(|found| found.is(value))
}
