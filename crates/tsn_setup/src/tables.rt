//! The shapes of the tables of a document: each has its identifier, and exactly its record's members, in any order.
//!
//! Lists of entries and of tables take memory; nothing else does.
ghost use Rattle.std.specs.Prelude.{◌≡◌};
ghost use Rattle.toml.specs.View.{view, items_view};
ghost use Rattle.tsn_records.specs.Answers.{Reads, each, seen};
ghost use Rattle.tsn_setup.specs.Toml.{items_list};
ghost use Rattle.tsn_setup.specs.Tables.{table_shape, tables_of_kind, tables_shape, limits_shape, with_front};

use crate::drafts::{LimitsDraft, TableDraft};
use crate::members::{Toml, items_or_none_at, number_at, number_or_none_at};
use std::alloc::Global;
use toml::Value;
use tsn_records::allowed::name_of;
use tsn_records::records::record_shape;
use tsn_records::unread::Unread;
use tsn_types::keys::Kind;

#[tactic(auto, unfolding(crate::specs::Tables::table_shape))]
fn table_shape(alloc: Global, kind: Kind, value: &Value) -> Result<TableDraft, Unread>
    ensures { Reads result (table_shape kind (view value.now)) }
{
    let id = number_at("id", value)?;
    let value = record_shape::<Toml>(alloc, kind, value)?;
    Ok(TableDraft { id, value })
}

fn push_each(
    alloc: Global,
    kind: Kind,
    values: &[Value],
    tables: &mut Vec<TableDraft>,
) -> Result<(), Unread>
    ensures { Reads (seen (λ _. tables.new.items) result)
        (with_front tables.old.items (each (table_shape kind) (items_list (items_view values.now)))) }
{
    'values: for value in values {
        let table = table_shape(alloc, kind, value)?;
        if tables.push(table).is_err() {
            return Err(Unread::Memory);
        }
    }
    Ok(())
}

#[tactic(auto, unfolding(crate::specs::Tables::tables_of_kind))]
fn push_kind(
    alloc: Global,
    kind: Kind,
    document: &Value,
    tables: &mut Vec<TableDraft>,
) -> Result<(), Unread>
    ensures { Reads (seen (λ _. tables.new.items) result)
        (with_front tables.old.items (tables_of_kind kind (view document.now))) }
{
    match items_or_none_at(name_of(kind), document)? {
        Some(items) => push_each(alloc, kind, items.as_slice(), tables),
        None => Ok(()),
    }
}

/// The tables of all kinds, or refusal 3 where one has other members than a record of its kind.
#[tactic(auto, unfolding(crate::specs::Tables::tables_shape))]
pub fn tables_shape(alloc: Global, document: &Value) -> Result<Vec<TableDraft>, Unread>
    ensures { Reads (seen (λ tables. tables.items) result) (tables_shape (view document.now)) }
{
    let mut tables = Vec::new(alloc);
    push_kind(alloc, Kind::Port, document, &mut tables)?;
    push_kind(alloc, Kind::Filter, document, &mut tables)?;
    push_kind(alloc, Kind::Gate, document, &mut tables)?;
    push_kind(alloc, Kind::Meter, document, &mut tables)?;
    Ok(tables)
}

/// The limits that are given, or refusal 3 where one is no whole number.
#[tactic(auto, unfolding(crate::specs::Tables::limits_shape))]
pub fn limits_shape(document: &Value) -> Result<LimitsDraft, Unread>
    ensures { result ≡ limits_shape (view document.now) }
{
    Ok(LimitsDraft {
        ports: number_or_none_at("ports", document)?,
        max_filters: number_or_none_at("max_filters", document)?,
        max_gates: number_or_none_at("max_gates", document)?,
        max_meters: number_or_none_at("max_meters", document)?,
        list_max: number_or_none_at("list_max", document)?,
    })
}
