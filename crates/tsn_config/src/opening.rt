//! Opening a configuration from its limits, the records given and the default ports.
//!
//! The records are looked at one after another for limits, and then put into empty tables, where a key that stands
//! there already is a repetition. Ports that are left out get the default record, and then references are looked at.
//! What makes the outcome well kept is just that none of these looks found a cause.
ghost use Rattle.std.specs.Prelude.{◌≡◌, ◌+◌, ◌≤◌, ◌⊎◌, ◌++◌, Err, IfErr, IfOk, IsSome, IsTrue, OnOk, List, [], None, Some};
ghost use Rattle.std.specs.FinMap as map;
ghost use Rattle.tsn_types.specs.Bounds.{AreInRange};
ghost use Rattle.tsn_types.specs.Numbers.{most_ports};
ghost use Rattle.tsn_types.specs.declared.refusals.Refusal.{Refusal as AnyRefusal};
ghost use Rattle.tsn_types.specs.declared.refusals.Refusal.TheVariants.{Exists, Memory};
ghost use Rattle.tsn_types.specs.declared.records.Record.TheVariants.{Port as PortRecord};
ghost use Rattle.tsn_config.specs.Opening.{AreOfKind, RecordsInRange, default_port, default_ports, limit_cause, limits_cause, opening, opening_refusal, repeated_key, with_port};
ghost use Rattle.tsn_edit.specs.Edits.{is_of_kind};

use crate::Config;
use crate::records::Records;
use crate::rows::Rows;
use std::alloc::{AllocError, Global};
use tsn_types::keys::Key;
use tsn_types::limits::Limits;
use tsn_types::lists::ControlList;
use tsn_types::numbers::{Cycle, Extension, Instant, PortId};
use tsn_types::records::{PortGates, Record, Schedule};
use tsn_types::refusals::{Field, Refusal};

impl Config {
    /// The configuration of the records given and, for each port that they leave out, the default record: all gates
    /// open, an empty list, a cycle of a millisecond, extension and base 0.
    ///
    /// Refused are, in this order: the first record whose identifier, gate, meter or list is outside the limits (4, by
    /// that field, `id` for the identifier); the first key that stands earlier in the list (7); the first absent
    /// reference of the least filter, its gate before its meter (8). Limits are looked at before any memory is taken,
    /// so that a refusal for them is answered whatever memory there is; want of memory (18) may be answered in place of
    /// any other answer.
    #[tactic(auto, using(crate::proofs::OpeningKept::opening_kept))]
    pub fn open(alloc: Global, limits: Limits, records: Records) -> Result<Config, Refusal>
        ensures admitted { OnOk result (opening_refusal limits records ≡ None) }
        ensures bounds { OnOk result (AreInRange limits) }
        ensures given { OnOk result (AreOfKind records × RecordsInRange records) }
        ensures limits { IfOk result (λ config. config.limits ≡ limits) }
        ensures map { IfOk result (λ config. config.map ≡ opening limits records) }
        ensures err { IfErr result (λ why. (opening_refusal limits records ≡ Some why) ⊎ (why ≡ Memory)) }
        ensures beyond { (why : AnyRefusal) → limits_cause limits records ≡ Some why → result ≡ Err why }
    {
        let items = records.into_items();
        if let Some(why) = refuse_items(limits, &items) {
            return Err(why);
        }
        let mut rows = rows_of(alloc, items)?;
        add_ports(&mut rows, alloc, limits.ports())?;
        if let Some(why) = rows.first_dangling() {
            return Err(why);
        }
        Ok(Config { limits, rows })
    }
}

// The first cause of the limits in the order of the list.
fn refuse_items(limits: Limits, items: &[(Key, Record)]) -> Option<Refusal>
    ensures { result ≡ limits_cause limits items.now }
{
    for item in items {
        if let Some(why) = refuse_item(limits, item) {
            return Some(why);
        }
    }
    None
}

fn refuse_item(limits: Limits, item: &(Key, Record)) -> Option<Refusal>
    ensures { result ≡ limit_cause limits item.now }
{
    if limits.holds(item.0) {
        limits.refuse(&item.1)
    } else {
        Some(Refusal::Range(Field::Id))
    }
}

// Empty tables with the records put into them, refused at the first key that is there already.
#[tactic(auto, using(crate::proofs::Opened::fill_start, crate::proofs::Opened::fill_more))]
fn rows_of(alloc: Global, items: Vec<(Key, Record)>) -> Result<Rows, Refusal>
    requires { AreOfKind items.items }
    ensures distinct { OnOk result (repeated_key [] items.items ≡ None) }
    ensures map { IfOk result (λ rows. rows.map ≡ map.from_entries items.items) }
    ensures err { IfErr result (λ why. (repeated_key [] items.items ≡ Some why) ⊎ (why ≡ Memory)) }
{
    let mut rows = Rows::new(alloc);
    for (key, value) in items {
        add(&mut rows, &key, value)?;
    }
    Ok(rows)
}

// Puts a record at a key, refused where the key is there.
fn add(rows: &mut Rows, key: &Key, value: Record) -> Result<(), Refusal>
    requires { IsTrue (is_of_kind key.now value) }
    ensures ok { OnOk result ((map.get rows.old.map key.now ≡ None) × (rows.new.map ≡ map.insert rows.old.map key.now value)) }
    ensures err { IfErr result (λ why. (IsSome (map.get rows.old.map key.now) × (why ≡ Exists key.now)) ⊎ (why ≡ Memory)) }
{
    rows.reserve(1)?;
    if rows.has(*key) {
        return Err(Refusal::Exists(*key));
    }
    rows.set(*key, Some(value));
    Ok(())
}

// Puts the default record at each port from 1 to the last that is not there.
fn add_ports(rows: &mut Rows, alloc: Global, last: u64) -> Result<(), AllocError>
    requires { last ≤ most_ports }
    ensures { (es : List (Key × Record)) → rows.old.map ≡ map.from_entries es
        → OnOk result (rows.new.map ≡ map.from_entries (es ++ default_ports last)) }
{
    for index in 0..last {
        add_port(rows, alloc, &PortId::new(index + 1).unwrap())?;
    }
    Ok(())
}

// Puts the default record at a port that is not there.
fn add_port(rows: &mut Rows, alloc: Global, id: &PortId) -> Result<(), AllocError>
    ensures { OnOk result (rows.new.map ≡ with_port rows.old.map id.now) }
{
    rows.reserve(1)?;
    if !rows.has(Key::Port(*id)) {
        rows.set(Key::Port(*id), Some(Record::Port(default_port(alloc))));
    }
    Ok(())
}

// The record of a port that no record is given for.
fn default_port(alloc: Global) -> PortGates
    ensures { PortRecord result ≡ default_port }
{
    PortGates {
        gates: 255,
        admin: Schedule {
            list: ControlList::new(alloc),
            cycle: Cycle::new(1_000_000).unwrap(),
            extension: Extension::new(0).unwrap(),
            base: Instant::new(0).unwrap(),
        },
    }
}
