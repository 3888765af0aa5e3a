//! What the program does not show of a configuration: which member or key a setup is refused for, whether a change
//! fits, copies, and the largest tables. What it opens with and what an edit is refused for is seen through the program
//! (`examples/tables`).

mod literals;

use crate::comparing::same;
use literals::{
    Row, create_gate, gate_with, has_ids, is_default, make, make_first_entries, on_a_config,
    on_a_copy, on_meter, records_of, refused, stands,
};
use std::alloc::Global;
use std::process::Abort;
use std::test::Fail;
use tsn_config::Config;
use tsn_config::records::Records;
use tsn_samples::{filter, filter_key, gate, meter, meter_key, port, port_key};
use tsn_types::keys::{Key, Kind};
use tsn_types::limits::Limits;
use tsn_types::numbers::{GateId, MeterId};
use tsn_types::records::Record;
use tsn_types::refusals::{Field, Refusal};

/// Of the records the first outside the limits refuses, whatever else is wrong with them; then the first key that is
/// given twice, a port too; then the least filter, by its gate or its meter that is not there.
#[test]
fn an_opening_is_refused_by_its_first_cause(rt: HostRuntime) -> Result<(), Fail> {
    let gate_4 = Key::Gate(GateId::new(4).unwrap());
    let meter_8 = Key::Meter(MeterId::new(8).unwrap());
    let cases: [(&[Row], Refusal); 8] = [
        (
            &[
                Row::Gate(0, 0),
                Row::Gate(0, 0),
                Row::Filter(1, 16, None),
                Row::Gate(16, 0),
            ],
            Refusal::Range(Field::Gate),
        ),
        (&[Row::Gate(16, 17)], Refusal::Range(Field::Id)),
        (&[Row::Port(3)], Refusal::Range(Field::Id)),
        (&[Row::Filter(1, 9, Some(16))], Refusal::Range(Field::Meter)),
        (&[Row::Gate(1, 17)], Refusal::Range(Field::List)),
        (
            &[
                Row::Filter(0, 4, None),
                Row::Gate(2, 0),
                Row::Port(1),
                Row::Port(1),
                Row::Gate(2, 0),
            ],
            Refusal::Exists(port_key(1)),
        ),
        (&[Row::Filter(0, 4, None)], Refusal::Dangling(gate_4)),
        (
            &[
                Row::Filter(4, 9, None),
                Row::Filter(1, 0, Some(8)),
                Row::Gate(0, 0),
            ],
            Refusal::Dangling(meter_8),
        ),
    ];
    for (rows, why) in cases {
        let records = records_of(rt.alloc(), rows)?;
        same(&rt, &refused(rt.alloc(), records), &Some(why));
    }
    Ok(())
}

/// Every port that a bridge may have but the second, each with its own gates, and a record of each other kind.
fn every_port_and_kind(alloc: Global) -> Result<Records, Fail> {
    let mut records = records_of(
        alloc,
        &[
            Row::Filter(5, 7, Some(9)),
            Row::Gate(7, 4_096),
            Row::Meter(9),
        ],
    )?;
    for number in 1..65 {
        if number != 2 {
            records.push(port_key(number), Record::Port(port(alloc, number as u8)))?;
        }
    }
    Ok(records)
}

fn has_every_port(rt: &impl Abort, alloc: Global, config: &Config) -> Result<(), Fail> {
    for number in 1..65 {
        let port = Record::Port(port(alloc, number as u8));
        let wanted = if number == 2 {
            is_default(config, port_key(2))
        } else {
            stands(config, port_key(number), &port)
        };
        assert!(rt; wanted, "port {number}");
    }
    same(rt, &config.limits().ports(), &64);
    same(rt, &config.ids(alloc, Kind::Port)?.as_slice().len(), &64);
    Ok(())
}

/// What the configuration was opened with, and what edits put there.
fn has_every_other_kind(rt: &impl Abort, alloc: Global, config: &Config) -> Result<(), Fail> {
    has_ids(rt, alloc, config, Kind::Gate, &[0, 7])?;
    has_ids(rt, alloc, config, Kind::Filter, &[3, 5])?;
    same(
        rt,
        &config.filters().ids(alloc)?.as_slice(),
        &([3, 5].as_slice()),
    );
    let gate = Record::Gate(gate_with(alloc, 4_096)?);
    let gate_7 = Key::Gate(GateId::new(7).unwrap());
    assert!(rt; stands(config, gate_7, &gate));
    let filter_5 = Record::Filter(filter(7, on_meter(9)));
    assert!(rt; stands(config, filter_key(5), &filter_5));
    let filter_3 = Record::Filter(filter(0, on_meter(0)));
    assert!(rt; stands(config, filter_key(3), &filter_3));
    assert!(rt; stands(config, meter_key(9), &Record::Meter(meter())));
    Ok(())
}

#[test]
fn a_copy_has_every_record(rt: HostRuntime) -> Result<(), Fail> {
    let alloc = rt.alloc();
    let most = Limits::new(64, 16, 16, 16, 4_096).unwrap();
    on_a_config(alloc, most, every_port_and_kind(alloc)?, |config| {
        make_first_entries(&rt, alloc, config)?;
        on_a_copy(config, |copy| {
            has_every_port(&rt, alloc, copy)?;
            has_every_other_kind(&rt, alloc, copy)
        })
    })
}

/// A meter of each number that there may be.
fn every_meter(alloc: Global) -> Result<Records, Fail> {
    let mut records = Records::new(alloc);
    for number in 0..65_536 {
        records.push(meter_key(number), Record::Meter(meter()))?;
    }
    Ok(records)
}

fn make_every_gate(rt: &impl Abort, alloc: Global, config: &mut Config) -> Result<(), Fail> {
    config.reserve(65_536)?;
    for number in 0..65_536 {
        make(rt, config, create_gate(number, gate(alloc)))?;
    }
    Ok(())
}

/// There is a record of the kind at each number that there may be.
fn has_every_number(
    rt: &impl Abort,
    alloc: Global,
    config: &Config,
    kind: Kind,
) -> Result<(), Fail> {
    let ids = config.ids(alloc, kind)?;
    same(rt, &ids.as_slice().len(), &65_536);
    for place in 0..65_536 {
        let number = ids.as_slice().get(place).copied();
        same(rt, &number, &Some(place as u64));
    }
    Ok(())
}

/// The largest table of meters, opened, and the largest of gates, filled in rising order.
#[test]
fn opens_and_creates_the_largest_tables(rt: HostRuntime) -> Result<(), Fail> {
    let alloc = rt.alloc();
    let most = Limits::new(2, 16, 65_536, 65_536, 16).unwrap();
    on_a_config(alloc, most, every_meter(alloc)?, |config| {
        has_every_number(&rt, alloc, config, Kind::Meter)?;
        make_every_gate(&rt, alloc, config)?;
        on_a_copy(config, |copy| {
            same(&rt, &copy.limits().ports(), &2);
            has_every_number(&rt, alloc, copy, Kind::Gate)
        })
    })
}
