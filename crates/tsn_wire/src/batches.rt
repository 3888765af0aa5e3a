//! The shape of a batch: the edits that its line lists.
//!
//! An edit of a batch has the members of the line of one edit, but no session of its own. Every fault is one of shape,
//! also a key that stands twice; numbers are tested later.
ghost use Rattle.std.specs.Prelude.{◌≡◌, ◌≤◌};
ghost use Rattle.serde_json.specs.View.{view, items_view};
ghost use Rattle.tsn_records.specs.Answers.{Reads, each, seen};
ghost use Rattle.tsn_records.specs.Json.{items_list};
ghost use Rattle.tsn_wire.specs.Commands.{batch_shape, edited_shape, edit_shape};

use crate::drafts::{BatchDraft, CommandDraft, EditDraft};
use crate::keyed::{keyed_record, removed_key};
use crate::words::Word;
use serde_json::Value;
use std::alloc::Global;
use tsn_records::members::{has_members, text_at};
use tsn_records::unread::Unread;

/// The edit of the word, in an object of so many members beside its own.
pub fn edited_shape(
    alloc: Global,
    word: Word,
    others: usize,
    value: &Value,
) -> Result<EditDraft, Unread>
    requires { others ≤ 1 }
    ensures { Reads result (edited_shape others word (view value.now)) }
{
    match word {
        Word::Put(put) => {
            let (key, value) = keyed_record(alloc, 3 + others, value)?;
            Ok(EditDraft::Put { put, key, value })
        }
        Word::Remove => {
            let key = removed_key(2 + others, value)?;
            Ok(EditDraft::Remove { key })
        }
        _ => Err(Unread::Shape),
    }
}

#[tactic(auto, unfolding(crate::specs::Commands::edit_shape))]
fn edit_shape(alloc: Global, value: &Value) -> Result<EditDraft, Unread>
    ensures { Reads result (edit_shape (view value.now)) }
{
    let text = text_at("do", value)?;
    let word = Word::of(text).ok_or(Unread::Shape)?;
    edited_shape(alloc, word, 0, value)
}

// The edits that the values are, in their order.
fn edits(alloc: Global, values: &[Value]) -> Result<Vec<EditDraft>, Unread>
    ensures { Reads (seen (λ edits. edits.items) result)
        (each edit_shape (items_list (items_view values.now))) }
{
    let mut edits = Vec::new(alloc);
    'values: for value in values {
        let edit = edit_shape(alloc, value)?;
        let Ok(()) = edits.push(edit) else {
            return Err(Unread::Memory);
        };
    }
    Ok(edits)
}

/// The batch that the value is, beside its session; a fault of shape where it is none.
#[tactic(auto, unfolding(crate::specs::Commands::batch_shape))]
pub fn batch_shape(alloc: Global, value: &Value) -> Result<CommandDraft, Unread>
    ensures { Reads result (batch_shape (view value.now)) }
{
    has_members(3, value)?;
    match value.get("edits").and_then(Value::as_array) {
        Some(items) => {
            let edits = edits(alloc, items.as_slice())?;
            let batch = BatchDraft::new(edits)?;
            Ok(CommandDraft::Batch { batch })
        }
        None => Err(Unread::Shape),
    }
}
