//! What no line shows of the types: the order of keys, copies of records, what is told of their ranges, and the names
//! that no reply has. The ranges of numbers, references, limits and the other names are seen through the program
//! (`examples/tables`).

mod lists;
mod literals;

use crate::comparing::same;
use literals::{gate, port};
use std::alloc::{AllocError, AllocFailed};
use std::process::Abort;
use std::test::Fail;
use tsn_samples::{filter, meter};
use tsn_types::numbers::MeterId;
use tsn_types::records::{PortGates, Record, RecordRef, StreamFilter, StreamGate};
use tsn_types::refusals::{Field, Refusal};

fn port_is_copied(rt: &impl Abort, port: &PortGates) -> Result<(), AllocError> {
    assert!(rt; port.admin.try_clone()? == port.admin);
    assert!(rt; port.try_clone()? == *port);
    Ok(())
}

fn gate_is_copied(rt: &impl Abort, gate: &StreamGate) -> Result<(), AllocError> {
    assert!(rt; gate.admin.try_clone()? == gate.admin);
    assert!(rt; gate.try_clone()? == *gate);
    Ok(())
}

/// The record and the same one lent equal their copies, and are not the other one.
fn is_copied(
    rt: &impl Abort,
    record: &Record,
    lent: RecordRef,
    other: &Record,
) -> Result<(), AllocError> {
    record.recall_ranges();
    assert!(rt; record.try_clone()? == *record, "{record:?}");
    assert!(rt; *record != *other, "{record:?}");
    assert!(rt; lent.try_clone()? == *record, "{lent:?}");
    assert!(rt; lent.is(&lent.try_clone()?), "{lent:?}");
    assert!(rt; !lent.is(other), "{lent:?}");
    Ok(())
}

/// A closed gate, otherwise as the other.
fn closed(gate: &StreamGate) -> Result<Record, AllocError> {
    Ok(Record::Gate(StreamGate {
        is_open: false,
        ..gate.try_clone()?
    }))
}

#[test]
fn records_are_copied_and_told_apart(rt: HostRuntime) -> Result<(), Fail> {
    let (one_port, one_gate) = (port(rt.alloc())?, gate(rt.alloc())?);
    let closed = closed(&one_gate)?;
    let unmetered = Record::Filter(StreamFilter {
        meter: None,
        ..filter(9, Some(MeterId::new(5).unwrap()))
    });
    let a_port = Record::Port(port(rt.alloc())?);
    let a_gate = Record::Gate(gate(rt.alloc())?);
    let (a_filter, a_meter) = (
        Record::Filter(filter(9, Some(MeterId::new(5).unwrap()))),
        Record::Meter(meter()),
    );
    port_is_copied(&rt, &one_port)?;
    gate_is_copied(&rt, &one_gate)?;
    is_copied(&rt, &a_port, RecordRef::Port(&one_port), &closed)?;
    is_copied(&rt, &a_gate, RecordRef::Gate(&one_gate), &closed)?;
    is_copied(&rt, &a_meter, RecordRef::Meter(&meter()), &closed)?;
    for other in [&closed, &unmetered, &a_meter] {
        is_copied(
            &rt,
            &a_filter,
            RecordRef::Filter(&filter(9, Some(MeterId::new(5).unwrap()))),
            other,
        )?;
    }
    Ok(())
}

/// A setup's refusal has no member, and want of memory is brought about by no line.
#[test]
fn names_that_no_reply_has(rt: HostRuntime) {
    for (field, name) in [
        (Field::Id, "id"),
        (Field::Ports, "ports"),
        (Field::MaxFilters, "max_filters"),
        (Field::MaxGates, "max_gates"),
        (Field::MaxMeters, "max_meters"),
        (Field::ListMax, "list_max"),
    ] {
        same(&rt, &field.name(), &name);
    }
    same(&rt, &Refusal::Memory.number(), &18);
    same(&rt, &Refusal::Memory.name(), &"memory");
    same(&rt, &Refusal::from(AllocError), &Refusal::Memory);
    same(
        &rt,
        &Refusal::from(AllocFailed { value: 7 }),
        &Refusal::Memory,
    );
}
