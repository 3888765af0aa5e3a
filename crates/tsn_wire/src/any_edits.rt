//! Edits of a batch whose members come in any order.
ghost use Rattle.std.specs.List.{AllByRecursion};
ghost use Rattle.std.specs.Prelude.{◌≡◌, IfSome, IsTrue, codes, option_map, true};
ghost use Rattle.tsn_wire.specs.Lexed.{lexed, ReadsValue};
ghost use Rattle.tsn_wire.specs.Lines.{IsEdit, IsSoundEdit, edit_rows};
ghost use Rattle.tsn_wire.specs.Members.{Fills};
ghost use Rattle.tsn_wire.specs.Spelled.{batch_value, edit_value};

use crate::any_keys::{is_of, table_key};
use crate::cursor::Cursor;
use crate::drafts::{BatchDraft, EditDraft};
use crate::gathered::EditMembers;
use crate::lists::scanned_list;
use crate::members::{members, named};
use crate::spelled_batch::EDITS;
use crate::words::Word;
use std::alloc::Global;
use tsn_types::keys::Kind;

// The edit of the word, with no test of its key.
#[tactic(auto, using(crate::proofs::AnyLine::put_edit, crate::proofs::AnyLine::remove_edit))]
fn edit_of(found: EditMembers, count: u32) -> Option<EditDraft>
    ensures { IfSome result (IsEdit (edit_rows found) count) }
{
    let word = found.word?;
    let key = found.key?;
    match (word, count) {
        (Word::Put(put), 3) => Some(EditDraft::Put {
            put,
            key,
            value: found.record?,
        }),
        (Word::Remove, 2) => Some(EditDraft::Remove { key }),
        _ => None,
    }
}

/// An edit, with its braces.
pub fn any_edit(alloc: Global, text: &mut Cursor<'_>) -> Option<EditDraft>
    ensures { IfSome result (λ e. ReadsValue 4 (lexed text.old) (edit_value e) (lexed text.new)) }
{
    let mut found = EditMembers::default();
    let count = members(alloc, text, &mut found)?;
    edit_of(found, count)
}

// The edits of a batch, with their brackets.
fn edits(alloc: Global, text: &mut Cursor<'_>) -> Option<BatchDraft>
    ensures { IfSome result (λ es. ReadsValue 5 (lexed text.old) (batch_value es) (lexed text.new)) }
{
    let edits: Vec<EditDraft> = scanned_list(alloc, text, EDITS)?;
    BatchDraft::new(edits).ok()
}

/// Reads the member `edits`, which must come next and for the first time.
pub fn edits_tray(alloc: Global, text: &mut Cursor<'_>, tray: &mut Option<BatchDraft>) -> Option<()>
    ensures { IfSome result (λ _. Fills 5 (lexed text.old) (codes "edits")
        (option_map batch_value tray.old) (option_map batch_value tray.new) (lexed text.new)) }
{
    named(text, "edits", tray)?;
    let batch = edits(alloc, text)?;
    *tray = Some(batch);
    Some(())
}

// Whether an edit is on a key that some table may have, and its record of the key's kind.
fn is_sound(edit: &EditDraft) -> bool
    ensures { IsTrue result → IsSoundEdit edit.now }
{
    match edit {
        EditDraft::Put { key, value, .. } => {
            table_key(Some(*key)).is_some() && is_of(value, key.kind)
        }
        EditDraft::Remove { key } => table_key(Some(*key)).is_some() && key.kind != Kind::Port,
    }
}

/// Whether all edits are such.
pub fn are_sound(edits: &[EditDraft]) -> bool
    ensures { IsTrue result → AllByRecursion IsSoundEdit edits.now }
{
    let mut rest = edits;
    while let [first, others @ ..] = rest {
        if !is_sound(first) {
            return false;
        }
        rest = others;
    }
    true
}
