//! What the program does not show of a change by itself: a copy of it, its inverse and its conflict with itself. How
//! changes conflict is seen through the program (`examples/tables/edits-conflicts.txt`).

use crate::comparing::same;
use std::alloc::{AllocError, Global};
use std::process::Abort;
use std::test::Fail;
use tsn_edit::{Change, Part};
use tsn_samples::{meter_key, meter_record, port_key};
use tsn_types::keys::Key;
use tsn_types::lists::ControlList;
use tsn_types::numbers::{Cycle, Extension, Instant, Interval};
use tsn_types::records::{PortEntry, PortGates, Record, Schedule};

/// A port whose gates are all open, and whose list has this many entries.
fn port(alloc: Global, gates: u8, length: usize) -> Result<Record, AllocError> {
    let mut list = ControlList::new(alloc);
    for _ in 0..length {
        list.push(PortEntry {
            gates,
            interval: Interval::new(300).unwrap(),
        })?;
    }
    Ok(Record::Port(PortGates {
        gates: 255,
        admin: Schedule {
            list,
            cycle: Cycle::new(1000).unwrap(),
            extension: Extension::new(0).unwrap(),
            base: Instant::new(0).unwrap(),
        },
    }))
}

/// The change is on the key, from the one record to the other.
fn is_change(
    rt: &impl Abort,
    change: &Change,
    key: Key,
    before: Option<&Record>,
    after: Option<&Record>,
) {
    same(rt, &change.parts()[0].key, &key);
    same(rt, &change.parts()[0].before.as_ref(), &before);
    same(rt, &change.parts()[0].after.as_ref(), &after);
}

fn removed_meter() -> Change {
    Change::of(Part {
        key: meter_key(2),
        before: Some(meter_record()),
        after: None,
    })
}

/// The change and a copy of it are on the port, from the one record to the other.
fn is_copied(
    rt: &impl Abort,
    change: &Change,
    key: Key,
    before: &Record,
    after: &Record,
) -> Result<(), AllocError> {
    is_change(rt, &change.try_clone()?, key, Some(before), Some(after));
    is_change(rt, change, key, Some(before), Some(after));
    Ok(())
}

fn listed_change(alloc: Global) -> Result<Change, AllocError> {
    Ok(Change::of(Part {
        key: port_key(2),
        before: Some(port(alloc, 1, 4_096)?),
        after: Some(port(alloc, 128, 1)?),
    }))
}

/// A change of a port with the longest list, and one that has no value after it.
#[test]
fn a_copy_has_the_key_and_both_values(rt: HostRuntime) -> Result<(), Fail> {
    let before = port(rt.alloc(), 1, 4_096)?;
    let after = port(rt.alloc(), 128, 1)?;
    let change = listed_change(rt.alloc())?;
    is_copied(&rt, &change, port_key(2), &before, &after)?;
    let copy = removed_meter().try_clone()?;
    is_change(&rt, &copy, meter_key(2), Some(&meter_record()), None);
    Ok(())
}
