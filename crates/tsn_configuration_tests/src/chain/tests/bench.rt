//! A configuration and the runtime that follows it, as a bridge keeps them, and records of the sessions in `examples/`.
ghost use Rattle.std.specs.Prelude.{◌≡◌, ◌≤◌, ◌^◌};
ghost use Rattle.tsn_chain.specs.Instances.{HasKeys};

use crate::comparing::same;
use std::alloc::{AllocError, Global};
use std::process::Abort;
use std::test::Fail;
use tsn_chain::frame::{DropCause, Frame, Verdict};
use tsn_chain::runtime::{Runtime, police};
use tsn_chain::state::Counters;
use tsn_config::Config;
use tsn_config::records::Records;
use tsn_edit::batches::Batch;
use tsn_edit::{Change, Edit, Part};
use tsn_samples::{gate, port};
use tsn_types::keys::Key;
use tsn_types::limits::Limits;
use tsn_types::lists::ControlList;
use tsn_types::numbers::{
    Cycle, Extension, FilterId, GateId, Handle, Instant, Interval, Octets, PortId, Priority,
};
use tsn_types::records::{GateEntry, Record, RecordRef, Schedule, StreamFilter, StreamGate};

/// One port, sixteen instances of each other kind, lists of up to sixteen entries. The runtime has just the keys of the
/// configuration.
#[derive(Drop)]
pub(super) struct Bench {
    config: Config,
    runtime: Runtime,
    ghost keys: { HasKeys runtime.runners runtime.frames config.map },
}

impl Bench {
    pub(super) fn new(alloc: Global) -> Result<Bench, Fail> {
        let limits = Limits::new(1, 16, 16, 16, 16)?;
        let config = Config::open(alloc, limits, Records::new(alloc))?;
        let mut runtime = Runtime::new(alloc, limits)?;
        runtime.reserve(1)?;
        let change = Change::of(Part {
            key: port_key(),
            before: None,
            after: Some(Record::Port(port(alloc, 255))),
        });
        runtime.follow(&change);
        Ok(Bench { config, runtime })
    }

    /// Makes an edit, or tells that it is refused.
    pub(super) fn edit(&mut self, edit: Edit) -> Result<(), Fail> {
        let batch = Batch::one(edit);
        if self.config.check(&batch).is_some() {
            return Err(Fail::from("refused"));
        }
        let change = self.config.change_of(batch)?;
        self.config.reserve(1)?;
        self.runtime.reserve(1)?;
        self.runtime.follow(&change);
        self.config.apply(change);
        Ok(())
    }

    /// Passes a frame.
    pub(super) fn pass(&mut self, frame: Frame, now: u64) -> Verdict
        requires { now ≤ 2 ^ 62 }
    {
        police(&self.config, &mut self.runtime, frame, instant(now))
    }

    // Of an instance that is not there the following calls tell nothing.
    pub(super) fn counters(&self, key: &Key) -> Option<Counters> {
        if self.config.get(*key).is_none() {
            return None;
        }
        Some(self.runtime.counters(*key))
    }

    pub(super) fn enable_gate(&mut self, id: GateId, now: u64) -> Option<Option<u64>>
        requires { now ≤ 2 ^ 62 }
    {
        if self.config.get(Key::Gate(id)).is_none() {
            return None;
        }
        Some(self.runtime.enable(Key::Gate(id), instant(now)))
    }

    pub(super) fn apply_gate(&mut self, id: GateId, now: u64) -> Option<u64>
        requires { now ≤ 2 ^ 62 }
    {
        let Some(RecordRef::Gate(_)) = self.config.get(Key::Gate(id)) else {
            return None;
        };
        match self
            .runtime
            .apply(&self.config, Key::Gate(id), instant(now))
        {
            Ok(change) => Some(change),
            Err(_) => None,
        }
    }
}

/// The key of the one port.
fn port_key() -> Key
    ensures { result ≡ Key.Port 1 }
{
    Key::Port(PortId::new(1).unwrap())
}

pub(super) fn instant(number: u64) -> Instant
    requires { number ≤ 2 ^ 62 }
    ensures { result ≡ number }
{
    Instant::new(number).unwrap()
}

pub(super) fn octets(number: u64) -> Octets
    requires { number ≤ 4294967295 }
{
    Octets::new(number).unwrap()
}

pub(super) fn filter_id(number: u64) -> FilterId
    requires { number ≤ 65535 }
{
    FilterId::new(number).unwrap()
}

pub(super) fn gate_id(number: u64) -> GateId
    requires { number ≤ 65535 }
{
    GateId::new(number).unwrap()
}

pub(super) fn priority(number: u64) -> Priority
    requires { number ≤ 7 }
{
    Priority::new(number).unwrap()
}

/// A frame of handle 7 and priority 2 that is not drop eligible.
pub(super) fn frame(count: u64) -> Frame
    requires { count ≤ 65535 }
{
    Frame {
        handle: Handle::new(7).unwrap(),
        priority: priority(2),
        octets: octets(count),
        yellow: false,
    }
}

/// A closed gate whose list is open for 1000 ns with priority value 5 and at most 150 octets, and then closed for 1000.
pub(super) fn listed_gate(alloc: Global, octets_exceeded: bool) -> Result<StreamGate, AllocError> {
    let mut list = ControlList::new(alloc);
    list.push(GateEntry {
        is_open: true,
        ipv: Some(priority(5)),
        interval: Interval::new(1000).unwrap(),
        octets: Some(octets(150)),
    })?;
    list.push(GateEntry {
        is_open: false,
        ipv: None,
        interval: Interval::new(1000).unwrap(),
        octets: None,
    })?;
    Ok(StreamGate {
        is_open: false,
        ipv: None,
        invalid_rx: false,
        octets_exceeded,
        admin: Schedule {
            list,
            cycle: Cycle::new(2000).unwrap(),
            extension: Extension::new(0).unwrap(),
            base: instant(0),
        },
    })
}

/// A filter that matches all frames, on gate 0, with no maximum and no meter.
pub(super) fn filter() -> StreamFilter {
    StreamFilter {
        handle: None,
        priority: None,
        gate: gate_id(0),
        max_sdu: None,
        meter: None,
        oversize: false,
    }
}

fn create_gate(number: u64, gate: StreamGate) -> Edit
    requires { number ≤ 65535 }
{
    Edit::Create(Key::Gate(gate_id(number)), Record::Gate(gate))
}

pub(super) fn create_filter(number: u64, filter: StreamFilter) -> Edit
    requires { number ≤ 65535 }
{
    Edit::Create(Key::Filter(filter_id(number)), Record::Filter(filter))
}

/// Passes a frame of so many octets, with this verdict.
pub(super) fn passes(rt: &impl Abort, bench: &mut Bench, count: u64, now: u64, wanted: Verdict)
    requires count { count ≤ 65535 }
    requires now { now ≤ 2 ^ 62 }
{
    same(rt, &bench.pass(frame(count), now), &wanted);
}

/// Asks for the counters of an instance, which are these.
pub(super) fn counts(rt: &impl Abort, bench: &Bench, key: Key, wanted: Counters) {
    same(rt, &bench.counters(&key), &Some(wanted));
}

/// The verdict on a frame that its filter passes.
pub(super) fn passed(filter: u64, now: u64, count: u64, yellow: bool) -> Verdict
    requires filter { filter ≤ 65535 }
    requires now { now ≤ 2 ^ 62 }
    requires count { count ≤ 7 }
{
    Verdict::Passed {
        filter: Some(filter_id(filter)),
        now: instant(now),
        priority: priority(count),
        yellow,
    }
}

/// The verdict on a frame that is dropped.
pub(super) fn dropped(filter: u64, now: u64, cause: DropCause) -> Verdict
    requires filter { filter ≤ 65535 }
    requires now { now ≤ 2 ^ 62 }
{
    Verdict::Dropped {
        filter: filter_id(filter),
        now: instant(now),
        cause,
    }
}

/// Plays on a bench with gate 0. One function makes the benches and lends them, so that a proof goes once over a
/// bench's end.
pub(super) fn on_a_bench<F: FnOnce(&mut Bench) -> Result<(), Fail>>(
    gate: StreamGate,
    alloc: Global,
    play: F,
) -> Result<(), Fail>
    requires { F.IsAlwaysCallable play }
{
    let mut bench = Bench::new(alloc)?;
    bench.edit(create_gate(0, gate))?;
    play(&mut bench)
}

/// Plays on a bench with a gate and filter 0, which names it.
pub(super) fn on_a_gated_bench<F: FnOnce(&mut Bench) -> Result<(), Fail>>(
    gate: StreamGate,
    filter: StreamFilter,
    alloc: Global,
    play: F,
) -> Result<(), Fail>
    requires { F.IsAlwaysCallable play }
{
    on_a_bench(gate, alloc, |bench| {
        bench.edit(create_filter(0, filter))?;
        play(bench)
    })
}
