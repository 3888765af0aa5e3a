//! Setups of small configurations, written out, and of one that is too large for a setup.
use crate::comparing::same;
use std::alloc::{AllocError, Global};
use std::process::Abort;
use std::test::Fail;
use tsn_config::Config;
use tsn_config::records::Records;
use tsn_export::export_setup;
use tsn_types::keys::Key;
use tsn_types::limits::Limits;
use tsn_types::lists::ControlList;
use tsn_types::numbers::{
    Cycle, Extension, FilterId, GateId, Handle, Instant, Interval, Octets, Priority,
};
use tsn_types::records::{GateEntry, Record, Schedule, StreamFilter, StreamGate};
use tsn_types::refusals::Refusal;

// A gate whose list has an entry so many times.
fn gate(alloc: Global, entries: u64) -> Result<StreamGate, AllocError> {
    let mut list = ControlList::new(alloc);
    for _ in 0..entries {
        list.push(GateEntry {
            is_open: true,
            ipv: Some(Priority::new(5).unwrap()),
            interval: Interval::new(1_000).unwrap(),
            octets: Some(Octets::new(150).unwrap()),
        })?;
    }
    Ok(StreamGate {
        is_open: false,
        ipv: None,
        invalid_rx: false,
        octets_exceeded: true,
        admin: Schedule {
            list,
            cycle: Cycle::new(2_000).unwrap(),
            extension: Extension::new(0).unwrap(),
            base: Instant::new(0).unwrap(),
        },
    })
}

// A filter on gate 0 with a handle alone.
fn filter() -> StreamFilter {
    StreamFilter {
        handle: Some(Handle::new(7).unwrap()),
        priority: None,
        gate: GateId::new(0).unwrap(),
        max_sdu: None,
        meter: None,
        oversize: true,
    }
}

// Two ports, sixteen instances of each other kind, and lists of up to 4,096 entries.
fn limits() -> Limits {
    Limits::new(2, 16, 16, 16, 4_096).unwrap()
}

const LIMITS: &str =
    "ports = 2\nmax_filters = 16\nmax_gates = 16\nmax_meters = 16\nlist_max = 4096\n";

const FILTER: &str = "\n[[filter]]\nid = 3\nhandle = 7\ngate = 0\noversize = true\n";

const GATE: &str = "\n[[gate]]\nid = 0\nopen = false\n\
    list = [\n  {open = true, ipv = 5, interval = 1000, octets = 150},\n]\n\
    cycle = 2000\nextension = 0\nbase = 0\ninvalid_rx = false\noctets_exceeded = true\n";

// Whether the setup of the records is these pieces, one behind another.
fn is_written(
    rt: &impl Abort,
    alloc: Global,
    records: Records,
    pieces: &[&str],
) -> Result<(), Fail> {
    let config = Config::open(alloc, limits(), records)?;
    let text = export_setup(alloc, &config)?;
    let mut wanted = Vec::new(alloc);
    for piece in pieces {
        wanted.extend_from_slice(piece.as_bytes())?;
    }
    same(rt, &text.as_bytes(), &wanted.as_slice());
    same(rt, &text.len(), &wanted.len());
    Ok(())
}

/// Records stand kind by kind, whatever their order when they were given.
#[test]
fn records_are_written(rt: HostRuntime) -> Result<(), Fail> {
    let alloc = rt.alloc();
    let mut records = Records::new(alloc);
    records.push(
        Key::Gate(GateId::new(0).unwrap()),
        Record::Gate(gate(alloc, 1)?),
    )?;
    records.push(
        Key::Filter(FilterId::new(3).unwrap()),
        Record::Filter(filter()),
    )?;
    is_written(&rt, alloc, records, &[LIMITS, FILTER, GATE])
}

/// Five lists of 4,096 entries take more than the longest setup has.
#[test]
fn a_setup_that_is_too_long_is_refused(rt: HostRuntime) -> Result<(), Fail> {
    let alloc = rt.alloc();
    let mut records = Records::new(alloc);
    for number in 0..5 {
        records.push(
            Key::Gate(GateId::new(number).unwrap()),
            Record::Gate(gate(alloc, 4_096)?),
        )?;
    }
    let config = Config::open(alloc, limits(), records)?;
    same(
        &rt,
        &export_setup(alloc, &config).err(),
        &Some(Refusal::TooLong),
    );
    Ok(())
}
