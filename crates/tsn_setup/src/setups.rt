//! Reading a document: bytes to a setup, or the refusal of least number.
//!
//! The document's length is tested before its syntax, the whole shape before the ranges. A bridge that begins with the
//! setup tests what is left.
ghost use Rattle.toml.specs.View.{view};
ghost use Rattle.tsn_records.specs.Answers.{Reads, IsOrMemory, or_syntax, seen};
ghost use Rattle.tsn_setup.specs.Setups.{document_of, setup_shape, setup_of_draft, reading, setup_of};

use crate::drafts::{LimitsDraft, TableDraft};
use crate::members::has_only;
use crate::plain_documents::plain_draft;
use crate::ranges::{keyed_records, limits};
use crate::tables::{limits_shape, tables_shape};
use std::alloc::Global;
use toml::Value;
use tsn_config::setup::Setup;
use tsn_export::LONGEST_SETUP;
use tsn_records::allowed::DOCUMENT;
use tsn_records::unread::Unread;
use tsn_types::refusals::Refusal;

fn document_of(alloc: Global, text: &[u8]) -> Result<Value, Unread>
    ensures { Reads (seen view result) (or_syntax (document_of text.now)) }
{
    match toml::table_from_slice(alloc, text) {
        Ok(table) => Ok(Value::Table(table)),
        Err(error) if error.is_memory() => Err(Unread::Memory),
        Err(_) => Err(Unread::Syntax),
    }
}

#[tactic(auto, unfolding(crate::specs::Setups::setup_shape))]
fn setup_shape(alloc: Global, document: &Value) -> Result<(LimitsDraft, Vec<TableDraft>), Unread>
    ensures { Reads (seen (λ draft. (draft.0, draft.1.items)) result) (setup_shape (view document.now)) }
{
    has_only(DOCUMENT, document)?;
    let given = limits_shape(document)?;
    let tables = tables_shape(alloc, document)?;
    Ok((given, tables))
}

#[tactic(auto, unfolding(crate::specs::Setups::setup_of_draft))]
fn setup_of_draft(
    alloc: Global,
    given: &LimitsDraft,
    tables: &[TableDraft],
) -> Result<Setup, Unread>
    ensures { Reads result (setup_of_draft (given.now, tables.now)) }
{
    let limits = limits(given)?;
    let records = keyed_records(alloc, tables)?;
    Ok(Setup { limits, records })
}

fn reading(alloc: Global, text: &[u8]) -> Result<Setup, Unread>
    ensures { Reads result (reading text.now) }
{
    if let Some((given, tables)) = plain_draft(alloc, text) {
        return setup_of_draft(alloc, &given, tables.as_slice());
    }
    let document = document_of(alloc, text)?;
    let (given, tables) = setup_shape(alloc, &document)?;
    setup_of_draft(alloc, &given, tables.as_slice())
}

/// The setup of a document: refusal 1 where it is over 1,048,576 bytes, 2 where it is no TOML document, 3 where it has
/// other members than a setup or members of other kinds, 4 where a number is outside its range, 18 in place of any of
/// these where memory is refused. Of ranges, those of the limits are tested before those of the tables, ports before
/// filters before gates before meters, each in file order.
pub fn setup_of(alloc: Global, text: &[u8]) -> Result<Setup, Refusal>
    ensures { IsOrMemory result (setup_of text.now) }
{
    if text.len() > LONGEST_SETUP {
        return Err(Refusal::TooLong);
    }
    reading(alloc, text).map_err(Unread::refusal)
}
