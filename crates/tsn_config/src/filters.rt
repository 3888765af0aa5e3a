//! The stream filters by number, with three indexes: of the filters by the gate that they refer to, by the meter, and
//! by their stream handle and priority specifications.
//!
//! What is sought in an index is its least filter, by one way down a tree: who refers to a gate or a meter, and which
//! filter has two specifications. The type says that each index has just the filters that the table has. Setting a
//! filter takes no memory; room is made ahead.
ghost use Rattle.std.specs.Prelude.{◌≡◌, ◌≢◌, ◌/◌, ◌%◌, ℕ, ◌+◌, ◌*◌, ◌^◌, ◌<◌, ◌≤◌, Bool, Option, None, Some, IfOk, IfSome, IsOk, IsSome, IsTrue, MatchOption, OnOk, option_map};
ghost use Rattle.std.specs.FinMap as map;
ghost use Rattle.std.specs.FinMap.{FinMap};
ghost use Rattle.std.specs.Option.{option_copied};
ghost use Rattle.std.specs.Ordering.{nat_cmp};
ghost use Rattle.tsn_table.specs.Firsts.{first_id, lesser};
ghost use Rattle.tsn_types.specs.Keys.{has, refs};
ghost use Rattle.tsn_types.specs.declared.records.Record.TheVariants.{Filter as FilterRecord};
ghost use Rattle.tsn_types.specs.declared.records.StreamFilter.{StreamFilter as AnyFilter};
ghost use Rattle.tsn_config.specs.Indexes.{about_at, AreSmall, entered, gate_about, Indexes, IsFirst, is_the, left, match_about, meter_about, specification, specified};
ghost use Rattle.tsn_config.specs.Filters.{specifies};
ghost use Rattle.tsn_config.specs.Keeping.{refers};
ghost use Rattle.tsn_config.specs.Kinds.{filter_of};
ghost use Rattle.tsn_config.specs.Views.{set_row};

use crate::rows::{into_filter, set_row_of};
use std::alloc::{AllocError, Global};
use std::marker::Model;
use tsn_table::{Numbers, Table, lesser};
use tsn_types::keys::Key;
use tsn_types::numbers::{FilterId, Handle, Priority};
use tsn_types::records::{Record, StreamFilter};

/// The filters by number. `map` is the map, and `spare` the number of filters of new numbers that there is certainly
/// room for.
#[derive(Debug, Drop)]
pub(crate) struct Filters {
    rows: Table<StreamFilter>,
    // in each a number for what a filter is about and for its own number
    by_gate: Numbers,
    by_meter: Numbers,
    by_match: Numbers,
}

impl Model for Filters {
    ghost use Rattle.tsn_table.specs.View.{TableView, table_code};
    ghost use Rattle.tsn_types.specs.contracts.records.StreamFilter as filter_row;
    ghost use Rattle.tsn_types.specs.declared.records.StreamFilter.{StreamFilter as AnyFilter};
    ghost use Rattle.tsn_config.specs.Indexes.{IsIndexed};
    ghost use Rattle.tsn_config.specs.Views.{least_of_four};

    ghost Value = { TableView AnyFilter };

    ghost coded = { table_code filter_row.the_row.coded };

    ghost view = { λ a. record { map = a.rows.map; spare = least_of_four a.rows.spare a.by_gate.spare a.by_meter.spare a.by_match.spare } };

    ghost invariant = { λ a. IsIndexed a.rows.map a.by_gate.map a.by_meter.map a.by_match.map };
}

// What a filter is about in each index.
#[derive(Clone, Copy)]
struct About {
    gate: Option<u64>,
    meter: Option<u64>,
    specifications: Option<u64>,
}

// Two specifications as one number.
fn specification_of(handle: Option<Handle>, priority: Option<Priority>) -> u64
    ensures value { result ≡ specification handle priority }
    ensures narrow { specified priority < 16 }
    ensures small { result + 16 < 2 ^ 40 }
{
    let handle = match handle {
        Some(handle) => handle.get() + 1,
        None => 0,
    };
    let priority = match priority {
        Some(priority) => priority.get() + 1,
        None => 0,
    };
    handle * 16 + priority
}

// The same with a priority, where this is the number of a stream handle's specification and the wildcard.
fn with_priority(any: u64, priority: Priority) -> u64
    requires { any + 16 < 2 ^ 40 }
    ensures value { result ≡ any + specified (Some priority) }
    ensures narrow { specified (Some priority) < 16 }
    ensures small { result < 2 ^ 40 }
{
    any + priority.get() + 1
}

// What a filter is about.
fn about_of(filter: &StreamFilter) -> About
    ensures gate { result.gate ≡ gate_about filter.now }
    ensures meter { result.meter ≡ meter_about filter.now }
    ensures specifications { result.specifications ≡ match_about filter.now }
    ensures narrow { specified filter.now.priority < 16 }
    ensures small_gate { IfSome result.gate (λ q. q < 2 ^ 40) }
    ensures small_meter { IfSome result.meter (λ q. q < 2 ^ 40) }
    ensures small_specifications { IfSome result.specifications (λ q. q < 2 ^ 40) }
{
    About {
        gate: Some(filter.gate.get()),
        meter: match filter.meter {
            Some(meter) => Some(meter.get()),
            None => None,
        },
        specifications: Some(specification_of(filter.handle, filter.priority)),
    }
}

// What no filter is about.
fn about_none() -> About
    ensures gate { result.gate ≡ None }
    ensures meter { result.meter ≡ None }
    ensures specifications { result.specifications ≡ None }
{
    About {
        gate: None,
        meter: None,
        specifications: None,
    }
}

// What the value of a filter is about.
fn about_value(value: &Option<Record>) -> About
    ensures gate { result.gate ≡ about_at gate_about (filter_of value.now) }
    ensures meter { result.meter ≡ about_at meter_about (filter_of value.now) }
    ensures specifications { result.specifications ≡ about_at match_about (filter_of value.now) }
    ensures narrow { IfSome (filter_of value.now) (λ r. specified r.priority < 16) }
    ensures small_gate { IfSome result.gate (λ q. q < 2 ^ 40) }
    ensures small_meter { IfSome result.meter (λ q. q < 2 ^ 40) }
    ensures small_specifications { IfSome result.specifications (λ q. q < 2 ^ 40) }
{
    match value {
        Some(Record::Filter(row)) => about_of(row),
        _ => about_none(),
    }
}

// Takes a filter out of an index.
fn leave(index: &mut Numbers, id: u64, about: Option<u64>)
    requires id { id < 65536 }
    requires about { IfSome about (λ q. q < 2 ^ 40) }
    ensures map { index.new.map ≡ left index.old.map id about }
    ensures spare { index.old.spare ≤ index.new.spare }
{
    if let Some(about) = about {
        index.take(about * 65_536 + id);
    }
}

// Puts a filter into an index.
fn enter(index: &mut Numbers, id: u64, about: Option<u64>)
    requires id { id < 65536 }
    requires about { IfSome about (λ q. q < 2 ^ 40) }
    requires room { 1 ≤ index.old.spare }
    ensures map { index.new.map ≡ entered index.old.map id about }
    ensures spare { index.old.spare ≤ index.new.spare + 1 }
{
    if let Some(about) = about {
        index.put(about * 65_536 + id);
    }
}

// Moves a filter in an index from what it was about to what it is about.
fn move_in(index: &mut Numbers, id: u64, before: Option<u64>, after: Option<u64>)
    requires id { id < 65536 }
    requires before { IfSome before (λ q. q < 2 ^ 40) }
    requires after { IfSome after (λ q. q < 2 ^ 40) }
    requires room { 1 ≤ index.old.spare }
    ensures indexes { (about : AnyFilter → Option ℕ) (fs : FinMap nat_cmp AnyFilter) (value : Option AnyFilter) →
        before ≡ about_at about (map.get fs id) → after ≡ about_at about value →
        Indexes about fs index.old.map → Indexes about (set_row fs id value) index.new.map }
    ensures spare { index.old.spare ≤ index.new.spare + 1 }
{
    if before == after {
        return;
    }
    leave(index, id, before);
    enter(index, id, after);
}

// The filter of a number of an index, where it is about this.
fn own_filter(number: u64, about: u64) -> Option<u64>
    ensures own { MatchOption result (number / 65536 ≢ about) (λ n. (number / 65536 ≡ about) × (n ≡ number % 65536)) }
    ensures small { IfSome result (λ n. n < 65536) }
{
    if number / 65_536 == about {
        Some(number % 65_536)
    } else {
        None
    }
}

// The least filter that is about the number, where this is the first number of an index that is about it or what is
// greater.
fn filter_about(first: Option<u64>, about: u64) -> Option<u64>
    requires { about < 2 ^ 40 }
    ensures small { IfSome result (λ n. n < 65536) }
    ensures least { (index : FinMap nat_cmp (Unit {0})) (what : AnyFilter → Option ℕ) (fs : FinMap nat_cmp AnyFilter) (p : AnyFilter
        → Bool) →
        IsFirst index (about * 65536) first → Indexes what fs index → AreSmall fs →
        ((n : ℕ) (r : AnyFilter) → map.get fs n ≡ Some r → p r ≡ is_the about (what r)) →
        result ≡ first_id p (map.entries fs) }
{
    let found = first?;
    own_filter(found, about)
}

// The first number of an index from this one on.
fn first_in(index: &Numbers, from: u64) -> Option<u64>
    ensures { IsFirst index.now.map from result }
{
    index.first_from(from)
}

// The first number of an index from a greater one on, where that from this one on is known.
fn first_after(index: &Numbers, first: Option<u64>, from: u64, greater: u64) -> Option<u64>
    requires known { IsFirst index.now.map from first }
    requires greater { from ≤ greater }
    ensures { IsFirst index.now.map greater result }
{
    match first {
        Some(number) if number < greater => first_in(index, greater),
        _ => first,
    }
}

// The least filter that is about the number.
fn least_about(index: &Numbers, about: u64) -> Option<u64>
    requires { about < 2 ^ 40 }
    ensures small { IfSome result (λ n. n < 65536) }
    ensures least { (what : AnyFilter → Option ℕ) (fs : FinMap nat_cmp AnyFilter) (p : AnyFilter → Bool) →
        Indexes what fs index.now.map → AreSmall fs →
        ((n : ℕ) (r : AnyFilter) → map.get fs n ≡ Some r → p r ≡ is_the about (what r)) →
        result ≡ first_id p (map.entries fs) }
{
    filter_about(first_in(index, about * 65_536), about)
}

// The lesser of the least filter that is about the one number and the least that is about the other, which is less. It
// is found by one way down a tree, unless some filter is about the lesser number or one between them.
fn least_of_two(index: &Numbers, about: u64, less: u64) -> Option<u64>
    requires less { less ≤ about }
    requires about { about < 2 ^ 40 }
    ensures small { IfSome result (λ n. n < 65536) }
    ensures least { (what : AnyFilter → Option ℕ) (fs : FinMap nat_cmp AnyFilter) (p q : AnyFilter → Bool) →
        Indexes what fs index.now.map → AreSmall fs →
        ((n : ℕ) (r : AnyFilter) → map.get fs n ≡ Some r → p r ≡ is_the about (what r)) →
        ((n : ℕ) (r : AnyFilter) → map.get fs n ≡ Some r → q r ≡ is_the less (what r)) →
        result ≡ lesser (first_id p (map.entries fs)) (first_id q (map.entries fs)) }
{
    let first = first_in(index, less * 65_536);
    let own = first_after(index, first, less * 65_536, about * 65_536);
    lesser(filter_about(own, about), filter_about(first, less))
}

// The least filter from this one on that is about the number.
fn next_about(index: &Numbers, about: u64, from: u64) -> Option<u64>
    requires about { about < 2 ^ 40 }
    requires from { from ≤ 65536 }
    ensures small { IfSome result (λ n. n < 65536) }
    ensures there { IfSome result (λ n. (from ≤ n) × IsSome (map.get index.now.map (about * 65536 + n))) }
    ensures least { (n : ℕ) → from ≤ n → n < 65536 → IsSome (map.get index.now.map (about * 65536 + n))
        → MatchOption result ⊥ (λ least. least ≤ n) }
{
    let found = index.first_from(about * 65_536 + from)?;
    own_filter(found, about)
}

impl Filters {
    /// No filter. It takes no memory.
    pub(crate) fn new(alloc: Global) -> Self
        ensures map { result.map ≡ map.empty }
        ensures spare { result.spare ≡ 0 }
    {
        Filters {
            rows: Table::new(alloc),
            by_gate: Numbers::new(alloc),
            by_meter: Numbers::new(alloc),
            by_match: Numbers::new(alloc),
        }
    }

    /// The filter of the number, none where there is none.
    pub(crate) fn get(&self, id: u64) -> Option<&StreamFilter>
        ensures { option_copied result ≡ map.get self.now.map id }
    {
        self.rows.get(id)
    }

    /// The filters as a table of their own.
    pub(crate) fn rows(&self) -> &Table<StreamFilter>
        ensures { result.now.map ≡ self.now.map }
    {
        &self.rows
    }

    // What the filter of the number is about.
    fn about(&self, id: u64) -> About
        ensures gate { result.gate ≡ about_at gate_about (map.get self.now.map id) }
        ensures meter { result.meter ≡ about_at meter_about (map.get self.now.map id) }
        ensures specifications { result.specifications ≡ about_at match_about (map.get self.now.map id) }
        ensures small_gate { IfSome result.gate (λ q. q < 2 ^ 40) }
        ensures small_meter { IfSome result.meter (λ q. q < 2 ^ 40) }
        ensures small_specifications { IfSome result.specifications (λ q. q < 2 ^ 40) }
    {
        match self.rows.get(id) {
            Some(row) => about_of(row),
            None => about_none(),
        }
    }

    /// The least filter that refers to the key.
    pub(crate) fn referrer(&self, key: &Key) -> Option<u64>
        ensures { result ≡ first_id (λ r. has (refs (FilterRecord r)) key.now) (map.entries self.now.map) }
    {
        match key {
            Key::Gate(id) => least_about(&self.by_gate, id.get()),
            Key::Meter(id) => least_about(&self.by_meter, id.get()),
            _ => None,
        }
    }

    /// The least filter from this one on that refers to the key.
    pub(crate) fn next_referrer(&self, key: &Key, from: u64) -> Option<u64>
        requires { from ≤ 65536 }
        ensures small { IfSome result (λ n. n < 65536) }
        ensures there { IfSome result (λ n. (from ≤ n) × IsTrue (refers (option_map FilterRecord (map.get self.now.map n)) key.now)) }
        ensures least { (n : ℕ) → from ≤ n → IsTrue (refers (option_map FilterRecord (map.get self.now.map n)) key.now)
            → MatchOption result ⊥ (λ least. least ≤ n) }
    {
        match key {
            Key::Gate(id) => next_about(&self.by_gate, id.get(), from),
            Key::Meter(id) => next_about(&self.by_meter, id.get(), from),
            _ => None,
        }
    }

    /// The least filter with this stream handle specification that has this priority specification or the wildcard.
    pub(crate) fn first_with_either(
        &self,
        handle: Option<Handle>,
        priority: Priority,
    ) -> Option<u64>
        ensures small { IfSome result (λ n. n < 65536) }
        ensures least { result ≡ lesser (first_id (specifies handle (Some priority)) (map.entries self.now.map))
            (first_id (specifies handle None) (map.entries self.now.map)) }
    {
        let any = specification_of(handle, None);
        least_of_two(&self.by_match, with_priority(any, priority), any)
    }

    /// Equal filters in tables of their own. Refused only for want of memory.
    pub(crate) fn copy(&self) -> Result<Filters, AllocError>
        ensures { IfOk result (λ copy. copy.map ≡ self.now.map) }
    {
        Ok(Filters {
            rows: self.rows.copy(|row| Ok(*row))?,
            by_gate: self.by_gate.copy()?,
            by_meter: self.by_meter.copy()?,
            by_match: self.by_match.copy()?,
        })
    }

    /// Makes room for at least `count` filters of new numbers.
    pub(crate) fn reserve(&mut self, count: usize) -> Result<(), AllocError>
        ensures map { self.new.map ≡ self.old.map }
        ensures ok { OnOk result (count ≤ self.new.spare) }
        ensures spare { self.old.spare ≤ self.new.spare }
        ensures enough { count ≤ self.old.spare → IsOk result }
    {
        self.rows.reserve(count)?;
        self.by_gate.reserve(count)?;
        self.by_meter.reserve(count)?;
        self.by_match.reserve(count)
    }

    /// Sets the filter of the number, or takes it out, and gives the one that was there.
    #[tactic(auto, using(crate::proofs::Indexed::still_small, crate::proofs::Indexed::still_narrow))]
    pub(crate) fn set(&mut self, id: FilterId, value: Option<Record>) -> Option<StreamFilter>
        requires { 1 ≤ self.old.spare }
        ensures before { result ≡ map.get self.old.map id }
        ensures map { self.new.map ≡ set_row self.old.map id (filter_of value) }
        ensures spare { self.old.spare ≤ self.new.spare + 1 }
    {
        let id = id.get();
        let before = self.about(id);
        let after = about_value(&value);
        let kept = set_row_of(&mut self.rows, id, into_filter(value));
        move_in(&mut self.by_gate, id, before.gate, after.gate);
        move_in(&mut self.by_meter, id, before.meter, after.meter);
        move_in(
            &mut self.by_match,
            id,
            before.specifications,
            after.specifications,
        );
        kept
    }
}
