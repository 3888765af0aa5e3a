//! The lines of edits and of batches of edits.
ghost use Rattle.std.specs.Prelude.{◌≡◌, ◌+◌, ◌≤◌, ◌++◌, [], false, length, map, OnOk, codes, decimal};
ghost use Rattle.json.specs.Print.{escape};
ghost use Rattle.serde_json.specs.View.{items_of};
ghost use Rattle.serde_json.specs.Written.{compact_text, items_text};
ghost use Rattle.tsn_records.specs.Keys.{key_text};
ghost use Rattle.tsn_records.specs.Shown.{record_data};
ghost use Rattle.tsn_wire.specs.Values.{batch_data, edit_data, edit_value, put_data, removal_data};
ghost use Rattle.tsn_spelling.specs.Growing.{GoesOn, Grows, edit_front};

use crate::line::{LONGEST_WORD, MOST_HELD, hand_on, make_room, push_session, push_word};
use crate::recorded::{MOST_BEFORE_RECORD, put_record};
use std::alloc::AllocError;
use tsn_edit::Edit;
use tsn_edit::batches::Batch;
use tsn_encoding::{ShortText, push_key_text};
use tsn_types::keys::Key;
use tsn_types::records::Record;

// Puts what stands before the record at the end.
fn push_edit_front(text: &mut ShortText, word: &str, key: Key)
    requires room { length text.old ≤ MOST_HELD + 1 }
    requires short { length word.now ≤ LONGEST_WORD }
    requires plain { escape word.now ≡ word.now }
    ensures text { text.new ≡ text.old ++ edit_front word.now key }
    ensures len { length text.new ≤ MOST_BEFORE_RECORD }
{
    push_word(text, word);
    push_key_text(text, ",\"key\":", key);
    text.push(",\"record\":");
}

/// The line of a creation or a replacement.
pub fn put_edit(
    line: &mut Vec<u8>,
    text: &mut ShortText,
    word: &str,
    key: Key,
    value: &Record,
    session: u32,
) -> Result<(), AllocError>
    requires empty { text.old ≡ [] }
    requires short { length word.now ≤ LONGEST_WORD }
    requires plain { escape word.now ≡ word.now }
    ensures ok { OnOk result (line.new.items
        ≡ line.old.items ++ compact_text (edit_data word.now session (key_text key) (record_data value.now))) }
    ensures empty { OnOk result (text.new ≡ []) }
    ensures front { Grows line.old.items line.new.items }
{
    push_edit_front(text, word, key);
    put_record(line, text, value)?;
    push_session(text, session);
    hand_on(line, text)
}

// ---- batches

// The value of a creation or a replacement in a batch.
fn put_part(
    line: &mut Vec<u8>,
    text: &mut ShortText,
    word: &str,
    key: Key,
    value: &Record,
) -> Result<(), AllocError>
    requires room { length text.old ≤ MOST_HELD + 1 }
    requires short { length word.now ≤ LONGEST_WORD }
    requires plain { escape word.now ≡ word.now }
    ensures ok { OnOk result (GoesOn line.old.items text.old line.new.items text.new
        (compact_text (put_data word.now (key_text key) (record_data value.now)))) }
    ensures front { Grows line.old.items line.new.items }
{
    push_edit_front(text, word, key);
    put_record(line, text, value)?;
    text.push("}");
    Ok(())
}

#[tactic(auto, unfolding(json::specs::Print::escape_byte))]
fn push_removal(text: &mut ShortText, key: Key)
    requires { length text.old ≤ MOST_HELD + 1 }
    ensures { text.new ≡ text.old ++ compact_text (removal_data (key_text key)) }
{
    push_key_text(text, "{\"do\":\"remove\",\"key\":", key);
    text.push("}");
}

// The value of an edit of a batch.
#[tactic(auto, unfolding(json::specs::Print::escape_byte))]
fn put_batched(line: &mut Vec<u8>, text: &mut ShortText, edit: &Edit) -> Result<(), AllocError>
    requires { length text.old ≤ MOST_HELD + 1 }
    ensures ok { OnOk result (GoesOn line.old.items text.old line.new.items text.new (compact_text (edit_value edit.now))) }
    ensures front { Grows line.old.items line.new.items }
{
    match edit {
        Edit::Create(key, value) => put_part(line, text, "create", *key, value),
        Edit::Replace(key, value) => put_part(line, text, "replace", *key, value),
        Edit::Remove(key) => {
            push_removal(text, *key);
            Ok(())
        }
    }
}

// The edits with commas between them and the closing bracket.
fn put_edits(line: &mut Vec<u8>, text: &mut ShortText, edits: &[Edit]) -> Result<(), AllocError>
    ensures ok { OnOk result (GoesOn line.old.items text.old line.new.items text.new
        (items_text false (items_of (map edit_value edits.now)))) }
    ensures room { OnOk result (length text.new ≤ MOST_HELD + 1) }
    ensures front { Grows line.old.items line.new.items }
{
    make_room(line, text)?;
    let Some((first, others)) = edits.split_first() else {
        text.push("]");
        return Ok(());
    };
    put_batched(line, text, first)?;
    'others: for edit in others {
        make_room(line, text)?;
        text.push(",");
        put_batched(line, text, edit)?;
    }
    make_room(line, text)?;
    text.push("]");
    Ok(())
}

/// The line of a batch.
pub fn put_batch(
    line: &mut Vec<u8>,
    text: &mut ShortText,
    batch: &Batch,
    session: u32,
) -> Result<(), AllocError>
    requires { text.old ≡ [] }
    ensures ok { OnOk result (line.new.items ≡ line.old.items ++ compact_text (batch_data session batch.now)) }
    ensures empty { OnOk result (text.new ≡ []) }
    ensures front { Grows line.old.items line.new.items }
{
    text.push("{\"do\":\"batch\",\"edits\":[");
    put_edits(line, text, batch.edits())?;
    push_session(text, session);
    hand_on(line, text)
}
