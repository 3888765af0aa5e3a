//! The row of one instance in a table: what a change makes of it, and what an act makes of a runner.
ghost use Rattle.std.specs.Prelude.{◌≡◌, ℕ, ◌+◌, ◌≤◌, IsSome, IfOk, OnOk, OnErr, List, Some};
ghost use Rattle.std.specs.FinMap as map;
ghost use Rattle.std.specs.Option.{option_copied};
ghost use Rattle.tsn_schedule.specs.Acts.{Act, Apply, Disable, Enable};
ghost use Rattle.tsn_schedule.specs.Counters.{enabled_change};
ghost use Rattle.tsn_schedule.specs.Times.{change_of};
ghost use Rattle.tsn_chain.specs.Acts.{IsApplied, RowActs, RowAnswers};
ghost use Rattle.tsn_chain.specs.Counters.{list_counters};
ghost use Rattle.tsn_chain.specs.Following.{meter_row_after, row_after};
ghost use Rattle.tsn_chain.specs.Instances.{AreBy};

use crate::data::MeterData;
use crate::state::ListCounters;
use tsn_schedule::runner::Runner;
use tsn_schedule::timed::Timed;
use tsn_table::Table;
use tsn_types::numbers::Instant;
use tsn_types::records::{FlowMeter, Record, Schedule};
use tsn_types::refusals::Refusal;

/// Makes the row new where the change has no value before, drops it where it has none after, and else keeps it.
pub(crate) fn follow_row<R: Drop>(
    table: &mut Table<R>,
    id: u64,
    before: &Option<Record>,
    after: &Option<Record>,
    new: R,
)
    requires room { 1 ≤ table.old.spare }
    ensures map { table.new.map ≡ row_after new before.now after.now table.old.map id }
    ensures spare { table.old.spare ≤ table.new.spare + 1 }
{
    match (before, after) {
        (_, None) => {
            let _ = table.take(id);
        }
        (None, Some(_)) => {
            let _ = table.put(id, new);
        }
        (Some(_), Some(_)) => {}
    }
}

/// The same of a meter's row: a new one is full at `now`, and one that is kept is clipped by its new record.
pub(crate) fn follow_meter(
    table: &mut Table<MeterData>,
    id: u64,
    before: &Option<Record>,
    after: Option<&FlowMeter>,
    now: Instant,
)
    requires room { 1 ≤ table.old.spare }
    ensures map { table.new.map ≡ meter_row_after now before.now (option_copied after.entry) table.old.map id }
    ensures spare { table.old.spare ≤ table.new.spare + 1 }
{
    let Some(meter) = after else {
        let _ = table.take(id);
        return;
    };
    if before.is_none() {
        let _ = table.put(id, MeterData::new(meter, now));
    } else if let Some(kept) = table.get(id) {
        let clipped = kept.clipped(meter);
        let _ = table.put(id, clipped);
    }
}

/// Enables the runner of the number. It is out of its row meanwhile, with a fresh one in its place, so no row moves.
pub(crate) fn enable_row<E: Timed + Drop>(
    table: &mut Table<Runner<E>>,
    id: u64,
    now: Instant,
) -> Option<u64>
    requires there { IsSome (map.get table.old.map id) }
    requires by { AreBy now table.old.map }
    ensures acts { RowActs table.old.map id (Enable now) table.new.map }
    ensures change { RowAnswers table.old.map id (λ acts. result ≡ enabled_change now acts) }
    ensures by { AreBy now table.new.map }
{
    match table.put(id, Runner::new()) {
        Some(mut runner) => {
            let change = runner.enable(now);
            let _ = table.put(id, runner);
            change
        }
        None => unreachable!(),
    }
}

/// Disables the runner of the number, likewise.
pub(crate) fn disable_row<E: Timed + Drop>(table: &mut Table<Runner<E>>, id: u64, now: Instant)
    requires there { IsSome (map.get table.old.map id) }
    requires by { AreBy now table.old.map }
    ensures acts { RowActs table.old.map id (Disable now) table.new.map }
    ensures by { AreBy now table.new.map }
{
    match table.put(id, Runner::new()) {
        Some(mut runner) => {
            runner.disable(now);
            let _ = table.put(id, runner);
        }
        None => unreachable!(),
    }
}

/// Applies a schedule at the runner of the number, or leaves the table as it was.
pub(crate) fn apply_row<E: Timed + Clone + Drop>(
    table: &mut Table<Runner<E>>,
    id: u64,
    schedule: &Schedule<E>,
    now: Instant,
) -> Result<u64, Refusal>
    requires clones { (x y : E) → E.is_clone x y → y ≡ x }
    requires there { IsSome (map.get table.old.map id) }
    requires by { AreBy now table.old.map }
    ensures acts { OnOk result (RowActs table.old.map id (Apply schedule.now now) table.new.map) }
    ensures change { IfOk result (λ change. change ≡ change_of schedule.now.base schedule.now.cycle now) }
    ensures cause { RowAnswers table.old.map id (IsApplied schedule.now.list result) }
    ensures err { OnErr result (table.new.map ≡ table.old.map) }
    ensures by { AreBy now table.new.map }
{
    match table.put(id, Runner::new()) {
        Some(mut runner) => {
            let answer = runner.apply(schedule, now);
            let _ = table.put(id, runner);
            answer
        }
        None => unreachable!(),
    }
}

/// What the runner of the number tells at the bridge time.
pub(crate) fn counters_of<E: Timed + Drop>(
    table: &Table<Runner<E>>,
    id: u64,
    now: Instant,
) -> ListCounters
    requires { IsSome (map.get table.now.map id) }
    ensures { RowAnswers table.now.map id (λ acts. result ≡ list_counters now acts) }
{
    match table.get(id) {
        Some(runner) => ListCounters {
            change_error: runner.errors(),
            change_time: runner.change(),
            enabled: runner.is_enabled(),
            pending: runner.is_pending(now),
        },
        None => unreachable!(),
    }
}
