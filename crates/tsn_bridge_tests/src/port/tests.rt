//! A mirror of port 1 takes the entries of a journal, and shows the states of the port.
ghost use Rattle.std.specs.Prelude.{◌+◌, ◌≤◌, ◌^◌};

use crate::comparing::same;
use std::alloc::Global;
use std::process::Abort;
use std::test::Fail;
use tsn_edit::{Change, Part};
use tsn_journal::entries::{Act, Entries, What};
use tsn_journal::journal::Journal;
use tsn_port::mirror::Mirror;
use tsn_schedule::runner::Past;
use tsn_types::keys::Key;
use tsn_types::lists::ControlList;
use tsn_types::numbers::{Cycle, Extension, Instant, Interval, PortId};
use tsn_types::records::{PortEntry, PortGates, Record, Schedule};

pub fn port() -> PortId {
    PortId::new(1).unwrap()
}

pub fn instant(at: u64) -> Instant
    requires { at ≤ 2 ^ 62 }
{
    Instant::new(at).unwrap()
}

/// A port with all gates open, whose list has these rows of gates and intervals, in cycles of a microsecond from 0.
pub fn record(alloc: Global, rows: &[(u8, u64)]) -> Result<PortGates, Fail> {
    let mut list = ControlList::new(alloc);
    for (gates, interval) in rows {
        list.push(PortEntry {
            gates: *gates,
            interval: Interval::new(*interval)?,
        })?;
    }
    Ok(PortGates {
        gates: 255,
        admin: Schedule {
            list,
            cycle: Cycle::new(1000).unwrap(),
            extension: Extension::new(0).unwrap(),
            base: instant(0),
        },
    })
}

/// 300 ns of traffic class 0 alone, and 700 ns of class 7 alone.
pub const ONE_TWO: &'static [(u8, u64)] = &[(1, 300), (128, 700)];

/// A list is set, the port is enabled at 0, and the list applied at 2500: it is in force from 3000 on. An act on port 2
/// comes between.
fn change_over(alloc: Global) -> Result<Entries, Fail> {
    let mut journal = Journal::new(alloc);
    journal.reserve(4, 1)?;
    let part = Part {
        key: Key::Port(port()),
        before: Some(Record::Port(record(alloc, &[])?)),
        after: Some(Record::Port(record(alloc, ONE_TWO)?)),
    };
    journal.push(1, What::Made(Change::of(part)));
    act(&mut journal, 1, Act::Enable, 0);
    act(&mut journal, 2, Act::Enable, 100);
    act(&mut journal, 1, Act::Apply, 2500);
    Ok(journal.since(0)?)
}

fn act(journal: &mut Journal, number: u64, act: Act, at: u64)
    requires room { 1 ≤ journal.old.spare }
    requires port { (1 ≤ number) × (number ≤ 64) }
    requires at { at ≤ 2 ^ 62 }
    ensures spare { journal.old.spare ≤ journal.new.spare + 1 }
    ensures parts { journal.old.parts ≤ journal.new.parts }
{
    let key = Key::Port(PortId::new(number).unwrap());
    let now = instant(at);
    journal.push(1, What::Acted { act, key, now });
}

pub fn shows(rt: &impl Abort, mirror: &Mirror, at: u64, wanted: Result<u8, Past>)
    requires { at ≤ 2 ^ 62 }
{
    same(rt, &mirror.states_at(instant(at)), &wanted);
}
