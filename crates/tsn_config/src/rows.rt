//! The rows of the four kinds of managed object, one table for each kind, seen as one map from keys to records.
//!
//! Nothing here knows the limits: a map that is not well kept can stand here while a configuration is opened. It
//! relies on the tables alone, and each call works in the table of its key's kind.
ghost use Rattle.std.specs.Prelude.{◌≡◌, ℕ, ◌+◌, ◌<◌, ◌≤◌, IfOk, IfSome, IsOk, IsSome, IsTrue, MatchOption, None, OnErr, OnOk, Some, is_some, length, option_map};
ghost use Rattle.std.specs.FinMap as map;
ghost use Rattle.std.specs.FinMap.{FinMap};
ghost use Rattle.std.specs.Ordering.{nat_cmp};
ghost use Rattle.tsn_table.specs.Firsts.{first_id, lesser};
ghost use Rattle.tsn_types.specs.declared.records.StreamFilter.{StreamFilter as AnyFilter};
ghost use Rattle.tsn_config.specs.Filters.{AreFilters, specifies};
ghost use Rattle.tsn_types.specs.Lent.{lent_record};
ghost use Rattle.tsn_types.specs.declared.refusals.Refusal.TheVariants.{Referred};
ghost use Rattle.tsn_edit.specs.Changes.{put_all};
ghost use Rattle.tsn_edit.specs.Configuration.{put};
ghost use Rattle.tsn_edit.specs.Edits.{dangling, is_of_kind, referrer};
ghost use Rattle.tsn_config.specs.Opening.{dangling_cause};
ghost use Rattle.tsn_config.specs.Ids.{ids_of};
ghost use Rattle.tsn_config.specs.Kinds.{AreOfKinds, port_of, filter_of, gate_of, meter_of};
ghost use Rattle.tsn_config.specs.Keeping.{refers};
ghost use Rattle.tsn_config.specs.Views.{set_row};

use crate::filters::Filters;
use std::alloc::{AllocError, Global};
use std::marker::Model;
use tsn_edit::Part;
use tsn_table::{Table, sure_after};
use tsn_types::keys::{Key, Kind};
use tsn_types::numbers::{Handle, Priority};
use tsn_types::records::{FlowMeter, PortGates, Record, RecordRef, StreamFilter, StreamGate};
use tsn_types::refusals::Refusal;

/// Four tables. `map` is the map from keys to records, and `spare` the number of rows that each table has room for.
#[derive(Debug, Drop)]
pub(crate) struct Rows {
    ports: Table<PortGates>,
    filters: Filters,
    gates: Table<StreamGate>,
    meters: Table<FlowMeter>,
    /// For how many rows each table surely has room, with nothing left to do there: 0 once a row came in.
    sure: usize,
}

impl Model for Rows {
    ghost use Rattle.std.specs.Prelude.{◌≤◌};
    ghost use Rattle.tsn_config.specs.Views.{RowsView, rows_code, map_of_tables, least_of_four};

    ghost Value = { RowsView };

    ghost coded = { rows_code };

    ghost view = { λ a. record {
      map = map_of_tables a.ports.map a.filters.map a.gates.map a.meters.map;
      spare = least_of_four a.ports.spare a.filters.spare a.gates.spare a.meters.spare;
    } };

    ghost invariant = { λ a. a.sure ≤ least_of_four a.ports.spare a.filters.spare a.gates.spare a.meters.spare };
}

impl Rows {
    /// No row. It takes no memory.
    pub(crate) fn new(alloc: Global) -> Self
        ensures map { result.map ≡ map.empty }
        ensures spare { result.spare ≡ 0 }
    {
        Rows {
            ports: Table::new(alloc),
            filters: Filters::new(alloc),
            gates: Table::new(alloc),
            meters: Table::new(alloc),
            sure: 0,
        }
    }

    /// The numbers of the rows of the kind, ascending. Refused only for want of memory, and never where there is none.
    #[tactic(auto, using(crate::proofs::Numbered::ports_numbered, crate::proofs::Numbered::filters_numbered, crate::proofs::Numbered::gates_numbered, crate::proofs::Numbered::meters_numbered))]
    pub(crate) fn ids(&self, alloc: Global, kind: Kind) -> Result<Vec<u64>, AllocError>
        ensures ids { IfOk result (λ ids. ids.items ≡ ids_of kind self.now.map) }
        ensures memory { OnErr result (0 < length (ids_of kind self.now.map)) }
    {
        match kind {
            Kind::Port => self.ports.ids(alloc),
            Kind::Filter => self.filters.rows().ids(alloc),
            Kind::Gate => self.gates.ids(alloc),
            Kind::Meter => self.meters.ids(alloc),
        }
    }

    /// The record of the key, lent, none where the key is absent.
    #[tactic(auto, using(crate::proofs::Joined::got_in_tables))]
    pub(crate) fn get(&self, key: Key) -> Option<RecordRef<'_>>
        ensures { option_map lent_record result ≡ map.get self.now.map key }
    {
        match key {
            Key::Port(id) => Some(RecordRef::Port(self.ports.get(id.get())?)),
            Key::Filter(id) => Some(RecordRef::Filter(self.filters.get(id.get())?)),
            Key::Gate(id) => Some(RecordRef::Gate(self.gates.get(id.get())?)),
            Key::Meter(id) => Some(RecordRef::Meter(self.meters.get(id.get())?)),
        }
    }

    /// Whether the key is present.
    pub(crate) fn has(&self, key: Key) -> bool
        ensures { result ≡ is_some (map.get self.now.map key) }
    {
        self.get(key).is_some()
    }

    /// A copy of the value at the key.
    pub(crate) fn copy_of(&self, key: Key) -> Result<Option<Record>, AllocError>
        ensures { IfOk result (λ copy. copy ≡ map.get self.now.map key) }
    {
        match self.get(key) {
            Some(found) => Ok(Some(found.try_clone()?)),
            None => Ok(None),
        }
    }

    /// The stream filters by number.
    #[tactic(auto, using(crate::proofs::Joined::got_in_tables))]
    pub(crate) fn filters(&self) -> &Table<StreamFilter>
        ensures { (n : ℕ) → option_map Record.Filter (map.get result.now.map n) ≡ map.get self.now.map (Key.Filter n) }
    {
        self.filters.rows()
    }

    /// Equal rows in tables of their own. Refused only for want of memory.
    pub(crate) fn copy(&self) -> Result<Rows, AllocError>
        ensures { IfOk result (λ copy. copy.map ≡ self.now.map) }
    {
        Ok(Rows {
            ports: self.ports.copy(|row| row.try_clone())?,
            filters: self.filters.copy()?,
            gates: self.gates.copy(|row| row.try_clone())?,
            meters: self.meters.copy(|row| Ok(*row))?,
            sure: 0,
        })
    }

    /// The refusal for a reference of the record that is absent, the gate before the meter.
    pub(crate) fn dangling(&self, value: &Record) -> Option<Refusal>
        ensures { result ≡ dangling self.now.map value.now }
    {
        match value {
            Record::Filter(filter) => self.dangling_filter(filter),
            _ => None,
        }
    }

    fn dangling_filter(&self, filter: &StreamFilter) -> Option<Refusal>
        ensures { result ≡ dangling self.now.map (Record.Filter filter.now) }
    {
        if !self.has(Key::Gate(filter.gate)) {
            return Some(Refusal::Dangling(Key::Gate(filter.gate)));
        }
        match filter.meter {
            Some(id) if !self.has(Key::Meter(id)) => Some(Refusal::Dangling(Key::Meter(id))),
            _ => None,
        }
    }

    /// The refusal for the first absent reference in the order of keys.
    pub(crate) fn first_dangling(&self) -> Option<Refusal>
        ensures { result ≡ dangling_cause self.now.map }
    {
        let dangles = |filter: &StreamFilter| self.dangling_filter(filter).is_some();
        let number = self.filters.rows().first_where(dangles)?;
        let filter = self.filters.get(number)?;
        self.dangling_filter(filter)
    }

    /// The number of the least filter with this stream handle specification that has this priority specification or the
    /// wildcard.
    pub(crate) fn first_with_either(
        &self,
        handle: Option<Handle>,
        priority: Priority,
    ) -> Option<u64>
        ensures small { IfSome result (λ n. n < 65536) }
        ensures least { (fs : FinMap nat_cmp AnyFilter) → AreFilters fs self.now.map →
            result ≡ lesser (first_id (specifies handle (Some priority)) (map.entries fs))
            (first_id (specifies handle None) (map.entries fs)) }
    {
        self.filters.first_with_either(handle, priority)
    }

    /// The number of the least filter that refers to the key.
    pub(crate) fn referrer(&self, key: &Key) -> Option<u64>
        ensures { option_map (λ n. Referred (Key.Filter n)) result ≡ referrer self.now.map key.now }
    {
        self.filters.referrer(key)
    }

    /// The number of the least filter from this one on that refers to the key.
    #[tactic(auto, using(crate::proofs::Joined::got_in_tables))]
    pub(crate) fn next_referrer(&self, key: &Key, from: u64) -> Option<u64>
        requires { from ≤ 65536 }
        ensures small { IfSome result (λ n. n < 65536) }
        ensures there { IfSome result (λ n. (from ≤ n) × IsTrue (refers (map.get self.now.map (Key.Filter n)) key.now)) }
        ensures least { (n : ℕ) → from ≤ n → IsTrue (refers (map.get self.now.map (Key.Filter n)) key.now)
            → MatchOption result ⊥ (λ least. least ≤ n) }
    {
        self.filters.next_referrer(key, from)
    }

    /// Makes room for at least `count` rows in each table.
    pub(crate) fn reserve(&mut self, count: usize) -> Result<(), AllocError>
        ensures map { self.new.map ≡ self.old.map }
        ensures ok { OnOk result (count ≤ self.new.spare) }
        ensures spare { self.old.spare ≤ self.new.spare }
        ensures enough { count ≤ self.old.spare → IsOk result }
    {
        if count <= self.sure {
            return Ok(());
        }
        self.ports.reserve(count)?;
        self.filters.reserve(count)?;
        self.gates.reserve(count)?;
        self.meters.reserve(count)?;
        self.sure = count;
        Ok(())
    }

    /// Sets the value of the key, or takes the key out, and gives the value that stood there.
    #[inline(always)]
    #[tactic(auto, using(crate::proofs::Joined::got_in_tables, crate::proofs::SetRows::set_in_tables))]
    pub(crate) fn set(&mut self, key: Key, value: Option<Record>) -> Option<Record>
        requires kind { IfSome value (λ r. IsTrue (is_of_kind key r)) }
        requires room { 1 ≤ self.old.spare }
        ensures before { result ≡ map.get self.old.map key }
        ensures map { self.new.map ≡ put self.old.map key value }
        ensures spare { self.old.spare ≤ self.new.spare + 1 }
    {
        match key {
            Key::Port(id) => {
                let before = set_row_of(&mut self.ports, id.get(), into_port(value));
                self.sure = sure_after(self.sure, before.is_some());
                before.map(Record::Port)
            }
            Key::Filter(id) => {
                self.sure = 0;
                self.filters.set(id, value).map(Record::Filter)
            }
            Key::Gate(id) => {
                let before = set_row_of(&mut self.gates, id.get(), into_gate(value));
                self.sure = sure_after(self.sure, before.is_some());
                before.map(Record::Gate)
            }
            Key::Meter(id) => {
                let before = set_row_of(&mut self.meters, id.get(), into_meter(value));
                self.sure = sure_after(self.sure, before.is_some());
                before.map(Record::Meter)
            }
        }
    }

    /// Sets the values after of the parts, each at its key.
    #[tactic(auto, using(crate::proofs::Popped::length_next, crate::proofs::Popped::map_next, crate::proofs::Popped::kinds_next))]
    pub(crate) fn set_all(&mut self, mut parts: Vec<Part>)
        requires kinds { AreOfKinds parts.items }
        requires room { length parts.items ≤ self.old.spare }
        ensures map { self.new.map ≡ put_all self.old.map parts.items }
        ensures spare { self.old.spare ≤ self.new.spare + length parts.items }
    {
        while let Some(part) = parts.pop() {
            self.set_part(part);
        }
    }

    // Sets the value after of the part at its key.
    fn set_part(&mut self, part: Part)
        requires kind { IfSome part.after (λ r. IsTrue (is_of_kind part.key r)) }
        requires room { 1 ≤ self.old.spare }
        ensures map { self.new.map ≡ put self.old.map part.key part.after }
        ensures spare { self.old.spare ≤ self.new.spare + 1 }
    {
        drop(self.set(part.key, part.after));
    }
}

/// Sets the row of the number, or takes it out, and gives the one that was there.
#[inline(always)]
pub(crate) fn set_row_of<R: Drop>(table: &mut Table<R>, id: u64, row: Option<R>) -> Option<R>
    requires { 1 ≤ table.old.spare }
    ensures before { result ≡ map.get table.old.map id }
    ensures map { table.new.map ≡ set_row table.old.map id row }
    ensures spare { table.old.spare ≤ table.new.spare + 1 }
    ensures same { IsSome result → table.old.spare ≤ table.new.spare }
{
    match row {
        Some(row) => table.put(id, row),
        None => table.take(id),
    }
}

fn into_port(value: Option<Record>) -> Option<PortGates>
    ensures { result ≡ port_of value }
{
    match value {
        Some(Record::Port(row)) => Some(row),
        _ => None,
    }
}

/// The filter of a value that is one.
pub(crate) fn into_filter(value: Option<Record>) -> Option<StreamFilter>
    ensures { result ≡ filter_of value }
{
    match &value {
        Some(Record::Filter(row)) => Some(*row),
        _ => None,
    }
}

fn into_gate(value: Option<Record>) -> Option<StreamGate>
    ensures { result ≡ gate_of value }
{
    match value {
        Some(Record::Gate(row)) => Some(row),
        _ => None,
    }
}

fn into_meter(value: Option<Record>) -> Option<FlowMeter>
    ensures { result ≡ meter_of value }
{
    match &value {
        Some(Record::Meter(row)) => Some(*row),
        _ => None,
    }
}
