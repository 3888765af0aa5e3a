//! The runtime of a bridge: the bridge time, and instance data by key.
//!
//! It follows the changes of a configuration, acts on the gate control lists, and passes frames through the chain. It
//! keeps no record and no act: a call that needs records is given the configuration, and contracts speak of whatever
//! acts a runner stands for. An instant that is earlier than the bridge time counts as the bridge time.
ghost use Rattle.std.specs.Prelude.{◌≡◌, ℕ, ◌+◌, ◌≤◌, max, Some, IsOk, IfOk, MatchResult, OnOk, OnErr};
ghost use Rattle.std.specs.FinMap as map;
ghost use Rattle.std.specs.Option.{option_copied};
ghost use Rattle.tsn_config.specs.Kinds.{meter_of};
ghost use Rattle.tsn_schedule.specs.Acts.{Disable, Enable};
ghost use Rattle.tsn_schedule.specs.Counters.{enabled_change};
ghost use Rattle.tsn_chain.specs.Acts.{ChangesAt, HasList, KeyActs, KeyAnswers, KeyApplies, KeyRefuses, KeyStates};
ghost use Rattle.tsn_chain.specs.Counters.{KeyCounts};
ghost use Rattle.tsn_edit.specs.Changes.{room_of};
ghost use Rattle.tsn_chain.specs.Following.{frames_after, frames_at, runners_after, runners_at};
ghost use Rattle.tsn_chain.specs.Frames.{GateActs, StandFor, framed};
ghost use Rattle.tsn_chain.specs.Instances.{HasData, HasKeys, HasRunner};

use crate::data::{FilterData, GateData};
use crate::frame::{Frame, Verdict};
use crate::frames::FrameRows;
use crate::rows::{apply_row, counters_of, disable_row, enable_row, follow_meter, follow_row};
use crate::state::{Counters, State, gate_shows, port_shows};
use std::alloc::{AllocError, Global};
use std::marker::Model;
use tsn_config::Config;
use tsn_edit::{Change, Part};
use tsn_schedule::runner::{Past, Runner};
use tsn_table::Table;
use tsn_types::keys::Key;
use tsn_types::limits::Limits;
use tsn_types::numbers::Instant;
use tsn_types::records::{FlowMeter, GateEntry, PortEntry, Record, RecordRef};
use tsn_types::refusals::Refusal;

/// The bridge time and instance data. `runners` are those of the ports and the gates, `frames` is what the filter chain
/// keeps of filters, gates and meters, `time` is the bridge time, and `spare` is the number of parts of changes that
/// the runtime certainly has room for.
#[derive(Debug, Drop)]
pub struct Runtime {
    ports: Table<Runner<PortEntry>>,
    gates: Table<Runner<GateEntry>>,
    rows: FrameRows,
    time: Instant,
}

impl Model for Runtime {
    ghost use Rattle.std.specs.Prelude.{min};
    ghost use Rattle.tsn_chain.specs.Instances.{AreBy, Instances, instances_code};
    ghost use Rattle.tsn_chain.specs.Rows.{frames_in};

    ghost Value = { Instances };

    ghost coded = { instances_code };

    ghost view = { λ a. record {
      runners = record { ports = a.ports.map; gates = a.gates.map };
      frames = frames_in a.rows;
      time = a.time;
      spare = min a.ports.spare (min a.gates.spare (min a.rows.filters.spare (min a.rows.gates.spare a.rows.meters.spare)));
    } };

    ghost invariant = { λ a. AreBy a.time a.ports.map × AreBy a.time a.gates.map };
}

// The later of two instants.
fn later(left: Instant, right: Instant) -> Instant
    ensures { result ≡ max left right }
{
    if left.get() < right.get() {
        right
    } else {
        left
    }
}

// The instant at which a bridge begins.
fn beginning() -> Instant
    ensures { result ≡ 0 }
{
    match Instant::new(0) {
        Ok(instant) => instant,
        Err(_) => unreachable!(),
    }
}

// The record of a meter, if the value is one.
fn meter_of_value(value: &Option<Record>) -> Option<&FlowMeter>
    ensures { option_copied result ≡ meter_of value.now }
{
    match value {
        Some(Record::Meter(meter)) => Some(meter),
        _ => None,
    }
}

impl Runtime {
    /// A runtime with no key, at instant 0. It makes room for the ports ahead. Refused only for want of memory.
    pub fn new(alloc: Global, limits: Limits) -> Result<Runtime, AllocError>
        ensures runners { IfOk result (λ new. new.runners ≡ record { ports = map.empty; gates = map.empty }) }
        ensures frames { IfOk result (λ new. new.frames ≡ record { filters = map.empty; gates = map.empty; meters = map.empty }) }
        ensures time { IfOk result (λ new. new.time ≡ 0) }
    {
        let mut ports = Table::new(alloc);
        ports.reserve(limits.ports() as usize)?;
        Ok(Runtime {
            ports,
            gates: Table::new(alloc),
            rows: FrameRows {
                filters: Table::new(alloc),
                gates: Table::new(alloc),
                meters: Table::new(alloc),
            },
            time: beginning(),
        })
    }

    /// The bridge time: the greatest instant that an accepted act or a frame handed in, 0 at first.
    pub fn now(&self) -> Instant
        ensures { result ≡ self.now.time }
    {
        let Runtime { time, .. } = self;
        *time
    }

    /// Makes room for at least so many parts of changes. Refused only for want of memory; nothing but the room changes.
    pub fn reserve(&mut self, count: usize) -> Result<(), AllocError>
        ensures runners { self.new.runners ≡ self.old.runners }
        ensures frames { self.new.frames ≡ self.old.frames }
        ensures time { self.new.time ≡ self.old.time }
        ensures ok { OnOk result (count ≤ self.new.spare) }
        ensures spare { self.old.spare ≤ self.new.spare }
        ensures enough { count ≤ self.old.spare → IsOk result }
    {
        self.ports.reserve(count)?;
        self.gates.reserve(count)?;
        self.rows.filters.reserve(count)?;
        self.rows.gates.reserve(count)?;
        self.rows.meters.reserve(count)
    }

    /// Follows a change: where it creates an instance, that instance's data is new; where it removes one, its data is
    /// dropped; else the data is kept, and the bucket of a meter clipped by the new record. It takes at most the room
    /// of the change's parts, and no memory.
    pub fn follow(&mut self, change: &Change)
        requires room { room_of change.now ≤ self.old.spare }
        ensures runners { self.new.runners ≡ runners_after self.old.runners change.now }
        ensures frames { self.new.frames ≡ frames_after self.old.time self.old.frames change.now }
        ensures time { self.new.time ≡ self.old.time }
        ensures spare { self.old.spare ≤ self.new.spare + room_of change.now }
    {
        let parts = change.parts();
        for part in parts {
            self.follow_part(part);
        }
    }

    // Follows one part of a change.
    fn follow_part(&mut self, part: &Part)
        requires room { 1 ≤ self.old.spare }
        ensures runners { self.new.runners ≡ runners_at self.old.runners part.now.key part.now.before part.now.after }
        ensures frames { self.new.frames ≡ frames_at self.old.time self.old.frames part.now.key part.now.before part.now.after }
        ensures time { self.new.time ≡ self.old.time }
        ensures spare { self.old.spare ≤ self.new.spare + 1 }
    {
        let Part { key, before, after } = part;
        match key {
            Key::Port(id) => follow_row(&mut self.ports, id.get(), before, after, Runner::new()),
            Key::Filter(id) => {
                let new = FilterData::new();
                follow_row(&mut self.rows.filters, id.get(), before, after, new);
            }
            Key::Gate(id) => {
                let new = GateData::new();
                follow_row(&mut self.gates, id.get(), before, after, Runner::new());
                follow_row(&mut self.rows.gates, id.get(), before, after, new);
            }
            Key::Meter(id) => {
                let after = meter_of_value(after);
                follow_meter(&mut self.rows.meters, id.get(), before, after, self.time);
            }
        }
    }

    /// Enables the gates of a port or a stream gate, which is there, at `now`, or at the bridge time where that is
    /// later. The change time, in nanoseconds, where this starts a list again.
    pub fn enable(&mut self, key: Key, now: Instant) -> Option<u64>
        requires { HasRunner self.old.runners key }
        ensures time { self.new.time ≡ max self.old.time now }
        ensures frames { self.new.frames ≡ self.old.frames }
        ensures acts { KeyActs self.old.runners key (Enable (max self.old.time now)) (Enable (max self.old.time now)) self.new.runners }
        ensures change { KeyAnswers self.old.runners key (λ acts. result ≡ enabled_change (max self.old.time now) acts)
            (λ acts. result ≡ enabled_change (max self.old.time now) acts) }
    {
        let time = later(self.time, now);
        self.time = time;
        match key {
            Key::Port(id) => enable_row(&mut self.ports, id.get(), time),
            Key::Gate(id) => enable_row(&mut self.gates, id.get(), time),
            _ => unreachable!(),
        }
    }

    /// Disables the gates of a port or a stream gate, which is there, at `now`, or at the bridge time where that is
    /// later.
    pub fn disable(&mut self, key: Key, now: Instant)
        requires { HasRunner self.old.runners key }
        ensures time { self.new.time ≡ max self.old.time now }
        ensures frames { self.new.frames ≡ self.old.frames }
        ensures acts { KeyActs self.old.runners key (Disable (max self.old.time now)) (Disable (max self.old.time now)) self.new.runners }
    {
        let time = later(self.time, now);
        self.time = time;
        match key {
            Key::Port(id) => disable_row(&mut self.ports, id.get(), time),
            Key::Gate(id) => disable_row(&mut self.gates, id.get(), time),
            _ => unreachable!(),
        }
    }

    /// Applies the list of the key's record at `now`, or at the bridge time where that is later, and gives its change
    /// time in nanoseconds. Refused 14 where the object is disabled, then 15 where the list is empty, then 18;
    /// refused, it has changed nothing, bridge time included.
    pub fn apply(&mut self, config: &Config, key: Key, now: Instant) -> Result<u64, Refusal>
        requires runner { HasRunner self.old.runners key }
        requires list { HasList key (map.get config.now.map key) }
        ensures time { OnOk result (self.new.time ≡ max self.old.time now) }
        ensures frames { self.new.frames ≡ self.old.frames }
        ensures acts { OnOk result (KeyApplies self.old.runners key (map.get config.now.map key) (max self.old.time now) self.new.runners) }
        ensures change { IfOk result (λ change. ChangesAt (map.get config.now.map key) (max self.old.time now) change) }
        ensures refused { KeyRefuses self.old.runners key (map.get config.now.map key) result }
        ensures kept { OnErr result (self.new.runners ≡ self.old.runners) }
        ensures still { OnErr result (self.new.time ≡ self.old.time) }
    {
        let time = later(self.time, now);
        let change = match key {
            Key::Port(id) => match config.get(key) {
                Some(RecordRef::Port(r)) => apply_row(&mut self.ports, id.get(), &r.admin, time)?,
                _ => unreachable!(),
            },
            Key::Gate(id) => match config.get(key) {
                Some(RecordRef::Gate(r)) => apply_row(&mut self.gates, id.get(), &r.admin, time)?,
                _ => unreachable!(),
            },
            _ => unreachable!(),
        };
        self.time = time;
        Ok(change)
    }

    /// The state of a port or a stream gate, which is there, at an instant, by its list or its record; latches are not
    /// looked at. Past where the instant comes before the last act on it.
    pub fn states_at(&self, config: &Config, key: Key, t: Instant) -> Result<State, Past>
        requires runner { HasRunner self.now.runners key }
        requires list { HasList key (map.get config.now.map key) }
        ensures { KeyStates self.now.runners key (map.get config.now.map key) t result }
    {
        match key {
            Key::Port(id) => match config.get(key) {
                Some(RecordRef::Port(port)) => {
                    let runner = self.ports.get(id.get()).unwrap();
                    Ok(port_shows(port, runner.states_at(t)?))
                }
                _ => unreachable!(),
            },
            Key::Gate(id) => match config.get(key) {
                Some(RecordRef::Gate(gate)) => {
                    let runner = self.gates.get(id.get()).unwrap();
                    Ok(gate_shows(gate, runner.states_at(t)?))
                }
                _ => unreachable!(),
            },
            _ => unreachable!(),
        }
    }

    /// The counters, flags and latches of an instance, which is there, at the bridge time.
    pub fn counters(&self, key: Key) -> Counters
        requires { HasData self.now.runners self.now.frames key }
        ensures { KeyCounts self.now.runners self.now.frames self.now.time key result }
    {
        match key {
            Key::Port(id) => Counters::Port(counters_of(&self.ports, id.get(), self.time)),
            Key::Filter(id) => Counters::Filter(*self.rows.filters.get(id.get()).unwrap()),
            Key::Gate(id) => {
                let kept = self.rows.gates.get(id.get()).unwrap();
                Counters::Gate {
                    list: counters_of(&self.gates, id.get(), self.time),
                    invalid_rx: kept.invalid_rx,
                    octets_exceeded: kept.octets_exceeded,
                }
            }
            Key::Meter(id) => {
                let kept = self.rows.meters.get(id.get()).unwrap();
                Counters::Meter { all_red: kept.red }
            }
        }
    }
}

/// Passes a frame through the filter chain (802.1Q-2018, 8.6.5) at `now`, or at the bridge time where that is later. It
/// goes along no filters, reads the records that the frame meets, and takes no memory.
pub fn police(config: &Config, runtime: &mut Runtime, frame: Frame, now: Instant) -> Verdict
    requires keys { HasKeys runtime.old.runners runtime.old.frames config.now.map }
    ensures keys { HasKeys runtime.new.runners runtime.new.frames config.now.map }
    ensures time { runtime.new.time ≡ max runtime.old.time now }
    ensures runners { runtime.new.runners ≡ runtime.old.runners }
    ensures framed { (acts : GateActs) → StandFor runtime.old.runners.gates acts →
        framed config.now.map runtime.old.frames acts frame (max runtime.old.time now) ≡ Some (result, runtime.new.frames) }
{
    let time = later(runtime.time, now);
    runtime.time = time;
    runtime.rows.police(config, &runtime.gates, frame, time)
}
