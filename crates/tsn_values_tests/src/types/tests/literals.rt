//! Keys and records of the sessions in `examples/`.

use std::alloc::{AllocError, Global};
use tsn_types::lists::ControlList;
use tsn_types::numbers::{Cycle, Extension, Instant, Interval, Octets, Priority};
use tsn_types::records::{GateEntry, PortEntry, PortGates, Schedule, StreamGate};

fn schedule<E: Drop>(list: ControlList<E>) -> Schedule<E> {
    Schedule {
        list,
        cycle: Cycle::new(1000).unwrap(),
        extension: Extension::new(0).unwrap(),
        base: Instant::new(0).unwrap(),
    }
}

/// A port with gates 1 for 300 and then 128 for 700 nanoseconds.
pub(super) fn port(alloc: Global) -> Result<PortGates, AllocError> {
    let mut list = ControlList::new(alloc);
    list.push(PortEntry {
        gates: 1,
        interval: Interval::new(300).unwrap(),
    })?;
    list.push(PortEntry {
        gates: 128,
        interval: Interval::new(700).unwrap(),
    })?;
    Ok(PortGates {
        gates: 255,
        admin: schedule(list),
    })
}

/// A gate that is open for 1,000 nanoseconds at internal priority 5 and for at most 150 octets.
pub(super) fn gate(alloc: Global) -> Result<StreamGate, AllocError> {
    let mut list = ControlList::new(alloc);
    list.push(GateEntry {
        is_open: true,
        ipv: Some(Priority::new(5).unwrap()),
        interval: Interval::new(1000).unwrap(),
        octets: Some(Octets::new(150).unwrap()),
    })?;
    Ok(StreamGate {
        is_open: true,
        ipv: None,
        invalid_rx: true,
        octets_exceeded: false,
        admin: schedule(list),
    })
}
