//! A frame at the tables: what it meets is read, passed through the chain and put back.
ghost use Rattle.std.specs.Prelude.{◌≡◌, ◌≤◌, IsSome, List, Some};
ghost use Rattle.std.specs.FinMap as map;
ghost use Rattle.std.specs.Option.{option_copied, option_map};
ghost use Rattle.tsn_types.specs.declared.keys.Key.TheVariants.{Filter, Gate};
ghost use Rattle.tsn_config.specs.Kinds.{filter_of, gate_of};
ghost use Rattle.tsn_chain.specs.Frames.{GateActs, StandFor, framed, framed_at, met_at, metered_at, meter_at, state_at, with_met};
ghost use Rattle.tsn_chain.specs.Instances.{AreBy, HasFrameKeys, SameKeys};
ghost use Rattle.tsn_chain.specs.Rows.{HasMeter, IsReady, frames_in};
ghost use Rattle.tsn_schedule.specs.Acts.{Act};
ghost use Rattle.tsn_schedule.specs.Stands.{StandsFor};
ghost use Rattle.tsn_schedule.specs.States.{began_in, state_in};
ghost use Rattle.tsn_types.specs.declared.records.GateEntry.{GateEntry as AnyGateEntry};

use crate::chain::{Passage, pass_through, pass_unmatched};
use crate::choose::choose_in;
use crate::data::{FilterData, GateData, GateState, Met, MeterData, Metered};
use crate::frame::{Frame, Verdict};
use crate::state::read_gate;
use tsn_config::Config;
use tsn_schedule::runner::{Current, Runner};
use tsn_table::Table;
use tsn_types::keys::Key;
use tsn_types::numbers::{FilterId, GateId, Instant, MeterId};
use tsn_types::records::{FlowMeter, GateEntry, RecordRef, StreamFilter, StreamGate};

/// What is kept of the filters, the gates and the meters, a table for each.
#[derive(Debug, Drop)]
pub(crate) struct FrameRows {
    pub filters: Table<FilterData>,
    pub gates: Table<GateData>,
    pub meters: Table<MeterData>,
}

// The record of a filter.
fn filter_in(config: &Config, id: FilterId) -> Option<&StreamFilter>
    ensures { option_copied result ≡ filter_of (map.get config.now.map (Filter id)) }
{
    match config.get(Key::Filter(id)) {
        Some(RecordRef::Filter(filter)) => Some(filter),
        _ => None,
    }
}

// The record of a gate.
fn gate_in(config: &Config, id: GateId) -> Option<&StreamGate>
    ensures { option_copied result ≡ gate_of (map.get config.now.map (Gate id)) }
{
    match config.get(Key::Gate(id)) {
        Some(RecordRef::Gate(gate)) => Some(gate),
        _ => None,
    }
}

// The record of the meter that a filter names.
fn meter_in(config: &Config, id: Option<MeterId>) -> Option<FlowMeter>
    ensures { result ≡ meter_at config.now.map id }
{
    match id {
        Some(id) => match config.get(Key::Meter(id)) {
            Some(RecordRef::Meter(meter)) => Some(*meter),
            _ => None,
        },
        None => None,
    }
}

// The entry in force at an instant that no act follows, and when its interval began.
fn current_at(runner: &Runner<GateEntry>, time: Instant) -> Option<Current<'_, GateEntry>>
    requires { runner.now.last ≤ time }
    ensures entry { (acts : List (Act AnyGateEntry)) → StandsFor runner.now acts →
        option_map (λ c. c.entry.now) result ≡ state_in (λ (e : AnyGateEntry). e.interval) acts time }
    ensures began { (acts : List (Act AnyGateEntry)) → StandsFor runner.now acts →
        option_map (λ c. c.began) result ≡ began_in (λ (e : AnyGateEntry). e.interval) acts time }
{
    match runner.current_at(time) {
        Ok(current) => current,
        Err(_) => None,
    }
}

// The state of a gate at an instant that no act of it follows.
fn state_of(
    table: &Table<Runner<GateEntry>>,
    id: GateId,
    gate: &StreamGate,
    time: Instant,
) -> GateState
    requires there { IsSome (map.get table.now.map id) }
    requires by { AreBy time table.now.map }
    ensures { (acts : GateActs) → StandFor table.now.map acts → result ≡ state_at acts id gate.now time }
{
    match table.get(id.get()) {
        Some(runner) => read_gate(gate, current_at(runner, time)),
        None => unreachable!(),
    }
}

impl FrameRows {
    // The meter that a filter names, with what is kept of it.
    fn metered(&self, id: Option<MeterId>, by: Option<FlowMeter>) -> Option<Metered>
        ensures { result ≡ metered_at (frames_in self.now) id by }
    {
        match (id, by) {
            (Some(id), Some(by)) => Some(Metered {
                by,
                kept: *self.meters.get(id.get())?,
            }),
            _ => None,
        }
    }

    // What is kept of a filter, its gate and its meter.
    fn met(&self, id: FilterId, filter: &StreamFilter, by: Option<FlowMeter>) -> Option<Met>
        ensures { result ≡ met_at (frames_in self.now) id filter.now by }
    {
        Some(Met {
            filter: *self.filters.get(id.get())?,
            gate: *self.gates.get(filter.gate.get())?,
            meter: self.metered(filter.meter, by),
        })
    }

    // Puts the same back, where it has rows. It takes no memory.
    fn put_back(&mut self, id: FilterId, filter: &StreamFilter, met: &Met)
        requires filter { IsSome (map.get self.old.filters.map id) }
        requires gate { IsSome (map.get self.old.gates.map filter.now.gate) }
        requires meter { HasMeter (frames_in self.old) filter.now }
        ensures { frames_in self.new ≡ with_met (frames_in self.old) id filter.now met.now }
    {
        let _ = self.filters.put(id.get(), met.filter);
        let _ = self.gates.put(filter.gate.get(), met.gate);
        if let (Some(id), Some(metered)) = (filter.meter, met.meter) {
            let _ = self.meters.put(id.get(), metered.kept);
        }
    }

    // Passes a frame through the chain from its chosen filter on.
    fn police_at(
        &mut self,
        config: &Config,
        runners: &Table<Runner<GateEntry>>,
        id: FilterId,
        frame: Frame,
        time: Instant,
    ) -> Verdict
        requires ready { IsReady config.now.map runners.now.map (frames_in self.old) id }
        requires keys { HasFrameKeys (frames_in self.old) config.now.map }
        requires by { AreBy time runners.now.map }
        ensures keys { HasFrameKeys (frames_in self.new) config.now.map }
        ensures framed { (acts : GateActs) → StandFor runners.now.map acts →
            framed_at config.now.map (frames_in self.old) acts frame time (Some id) ≡ Some (result, frames_in self.new) }
    {
        let Some(filter) = filter_in(config, id) else {
            unreachable!()
        };
        let Some(gate) = gate_in(config, filter.gate) else {
            unreachable!()
        };
        let by = meter_in(config, filter.meter);
        let Some(mut met) = self.met(id, filter, by) else {
            unreachable!()
        };
        let passage = Passage {
            id,
            filter,
            gate,
            state: state_of(runners, filter.gate, gate, time),
            frame,
            time,
        };
        let verdict = pass_through(&passage, &mut met);
        self.put_back(id, filter, &met);
        verdict
    }

    /// Passes a frame through the chain, at an instant that no act of a gate follows. It takes no memory.
    pub(crate) fn police(
        &mut self,
        config: &Config,
        runners: &Table<Runner<GateEntry>>,
        frame: Frame,
        time: Instant,
    ) -> Verdict
        requires runners { SameKeys runners.now.map (λ n. Gate n) config.now.map }
        requires keys { HasFrameKeys (frames_in self.old) config.now.map }
        requires by { AreBy time runners.now.map }
        ensures keys { HasFrameKeys (frames_in self.new) config.now.map }
        ensures framed { (acts : GateActs) → StandFor runners.now.map acts →
            framed config.now.map (frames_in self.old) acts frame time ≡ Some (result, frames_in self.new) }
    {
        // the proof needs that the configuration is well kept, and has a table of filters
        let _filters = config.filters();
        match choose_in(config, frame.handle, frame.priority) {
            None => pass_unmatched(frame, time),
            Some(id) => self.police_at(config, runners, id, frame, time),
        }
    }
}
