//! Keys of objects, and records beside them.
ghost use Rattle.std.specs.Prelude.{◌≡◌};
ghost use Rattle.serde_json.specs.View.{view};
ghost use Rattle.tsn_records.specs.Answers.{Reads};
ghost use Rattle.tsn_wire.specs.Commands.{key_at, keyed_record, removable, removed_key};

use serde_json::Value;
use std::alloc::Global;
use tsn_records::drafts::{KeyDraft, RecordDraft};
use tsn_records::keys::key_of;
use tsn_records::members::{Json, has_members, text_at, value_at};
use tsn_records::records::record_shape;
use tsn_records::unread::Unread;
use tsn_types::keys::Kind;

/// The key that stands under `key`.
pub fn key_at(value: &Value) -> Result<KeyDraft, Unread>
    ensures { result ≡ key_at (view value.now) }
{
    let text = text_at("key", value)?;
    key_of(text).ok_or(Unread::Shape)
}

fn removable(key: KeyDraft) -> Result<KeyDraft, Unread>
    ensures { result ≡ removable key key.kind }
{
    match key.kind {
        Kind::Port => Err(Unread::Shape),
        Kind::Filter | Kind::Gate | Kind::Meter => Ok(key),
    }
}

/// A key and a record of its kind, in an object of so many members.
#[tactic(auto, unfolding(crate::specs::Commands::keyed_record))]
pub fn keyed_record(
    alloc: Global,
    count: usize,
    value: &Value,
) -> Result<(KeyDraft, RecordDraft), Unread>
    ensures { Reads result (keyed_record count (view value.now)) }
{
    has_members(count, value)?;
    let key = key_at(value)?;
    let record = record_shape::<Json>(alloc, key.kind, value_at("record", value)?)?;
    Ok((key, record))
}

/// A key that can be removed, in an object of so many members.
#[tactic(auto, unfolding(crate::specs::Commands::removed_key))]
pub fn removed_key(count: usize, value: &Value) -> Result<KeyDraft, Unread>
    ensures { result ≡ removed_key count (view value.now) }
{
    has_members(count, value)?;
    removable(key_at(value)?)
}
