//! The ranges of a document's numbers: those of the limits, then those of each table, its identifier first.
//!
//! A limit that is left out is that of the standard setup. The list of records takes memory, and so do the lists of
//! entries in them; nothing else does.
ghost use Rattle.std.specs.Prelude.{◌≡◌, IfOk, IsTrue};
ghost use Rattle.tsn_types.specs.Numbers.{Within};
ghost use Rattle.tsn_edit.specs.Edits.{is_of_kind};
ghost use Rattle.tsn_records.specs.Answers.{Reads, each};
ghost use Rattle.tsn_records.specs.Values.{kind_of_draft};
ghost use Rattle.tsn_setup.specs.Ranges.{limit, limits, key, keyed_record};

use crate::drafts::{LimitsDraft, TableDraft};
use std::alloc::Global;
use tsn_config::records::Records;
use tsn_records::drafts::{KeyDraft, RecordDraft};
use tsn_records::ranges::{key as key_of_draft, record_of};
use tsn_records::unread::Unread;
use tsn_types::keys::{Key, Kind};
use tsn_types::limits::{LONGEST_LIST, Limits, MOST_INSTANCES};
use tsn_types::numbers::identifiers::MOST_PORTS;
use tsn_types::records::Record;
use tsn_types::refusals::Field;

// The ports of the standard setup.
const STANDARD_PORTS: u64 = 2;

// The instances of each of its tables.
const STANDARD_INSTANCES: u64 = 16;

// The entries that its gate control lists may have.
const STANDARD_LIST: u64 = 16;

fn limit(number: Option<u64>, most: u64, standard: u64, field: Field) -> Result<u64, Unread>
    requires { Within 1 most standard }
    ensures value { result ≡ limit field most standard number }
    ensures in_range { IfOk result (Within 1 most) }
{
    match number {
        None => Ok(standard),
        Some(number) => {
            if number < 1 || most < number {
                return Err(Unread::Range(field));
            }
            Ok(number)
        }
    }
}

/// The limits, or the first that is out of its range.
#[tactic(auto, unfolding(crate::specs::Ranges::limits))]
pub fn limits(draft: &LimitsDraft) -> Result<Limits, Unread>
    ensures { result ≡ limits draft.now }
{
    let ports = limit(draft.ports, MOST_PORTS, STANDARD_PORTS, Field::Ports)?;
    let filters = limit(
        draft.max_filters,
        MOST_INSTANCES,
        STANDARD_INSTANCES,
        Field::MaxFilters,
    )?;
    let gates = limit(
        draft.max_gates,
        MOST_INSTANCES,
        STANDARD_INSTANCES,
        Field::MaxGates,
    )?;
    let meters = limit(
        draft.max_meters,
        MOST_INSTANCES,
        STANDARD_INSTANCES,
        Field::MaxMeters,
    )?;
    let list = limit(draft.list_max, LONGEST_LIST, STANDARD_LIST, Field::ListMax)?;
    Ok(Limits::new(ports, filters, gates, meters, list).unwrap())
}

fn kind_of(draft: &RecordDraft) -> Kind
    ensures { result ≡ kind_of_draft draft.now }
{
    match draft {
        RecordDraft::Port(_) => Kind::Port,
        RecordDraft::Filter(_) => Kind::Filter,
        RecordDraft::Gate(_) => Kind::Gate,
        RecordDraft::Meter(_) => Kind::Meter,
    }
}

fn key(table: &TableDraft) -> Result<Key, Unread>
    ensures { result ≡ key table.now }
{
    let draft = KeyDraft {
        kind: kind_of(&table.value),
        number: table.id,
    };
    match key_of_draft(draft) {
        Ok(key) => Ok(key),
        Err(_) => Err(Unread::Range(Field::Id)),
    }
}

#[tactic(auto, unfolding(crate::specs::Ranges::keyed_record))]
fn keyed_record(alloc: Global, table: &TableDraft) -> Result<(Key, Record), Unread>
    ensures reads { Reads result (keyed_record table.now) }
    ensures kind { IfOk result (λ e. IsTrue (is_of_kind e.0 e.1)) }
{
    let key = key(table)?;
    let value = record_of(alloc, &table.value)?;
    Ok((key, value))
}

/// The records of the tables with their keys, or the first number that is out of its range.
pub fn keyed_records(alloc: Global, tables: &[TableDraft]) -> Result<Records, Unread>
    ensures { Reads result (each keyed_record tables.now) }
{
    let mut records = Records::new(alloc);
    'tables: for table in tables {
        let (key, value) = keyed_record(alloc, table)?;
        records.push(key, value)?;
    }
    Ok(records)
}
