//! A batch in the service's compact spelling, read with no tree.
ghost use Rattle.std.specs.Prelude.{◌≡◌, ◌++◌, true, IfSome};
ghost use Rattle.std.specs.List.{AllByRecursion};
ghost use Rattle.serde_json.specs.Written.{compact_text};
ghost use Rattle.tsn_wire.specs.Batches.{is_batch_draft};
ghost use Rattle.tsn_wire.specs.Spelled.{batch_value, edit_value, EditIsSmall, SpellsEdit, SpellsEdited};

use crate::any_edits::any_edit;
use crate::cursor::Cursor;
use crate::drafts::{BatchDraft, EditDraft};
use crate::lists::{Item, spelled_list};
use crate::spelled_records::{key, keyed_record};
use crate::words::Put;
use std::alloc::Global;
use tsn_types::keys::Kind;

/// The most edits that are read so.
pub const EDITS: u32 = 16;

/// What comes behind `{"do":"` in an edit, up to its last member. Which edit it may be is guessed from the second and
/// third letter of its word.
#[inline(always)]
pub fn spelled_edit(alloc: Global, text: &mut Cursor<'_>) -> Option<EditDraft>
    ensures { IfSome result (λ e. SpellsEdited text.old e text.new) }
{
    match text.letters() {
        (b'r', _) => {
            text.expect("create\",\"key\":\"")?;
            let (key, value) = keyed_record(alloc, text)?;
            let put = Put::Create;
            Some(EditDraft::Put { put, key, value })
        }
        (b'e', b'p') => {
            text.expect("replace\",\"key\":\"")?;
            let (key, value) = keyed_record(alloc, text)?;
            let put = Put::Replace;
            Some(EditDraft::Put { put, key, value })
        }
        _ => {
            text.expect("remove\",\"key\":\"")?;
            let key = key(text)?;
            if key.kind == Kind::Port {
                return None;
            }
            text.expect("\"")?;
            Some(EditDraft::Remove { key })
        }
    }
}

// An edit of a batch, with its braces.
fn edit(alloc: Global, text: &mut Cursor<'_>) -> Option<EditDraft>
    ensures { IfSome result (λ e. SpellsEdit text.old e text.new) }
{
    text.expect("{\"do\":\"")?;
    let edit = spelled_edit(alloc, text)?;
    text.expect("}")?;
    Some(edit)
}

impl Item for EditDraft {
    ghost value = { edit_value };

    ghost IsFit = { EditIsSmall };

    ghost nesting = { 4 };

    fn spelled(alloc: Global, text: &mut Cursor<'_>) -> Option<EditDraft> {
        edit(alloc, text)
    }

    fn scanned(alloc: Global, text: &mut Cursor<'_>) -> Option<EditDraft> {
        any_edit(alloc, text)
    }
}

/// The edits of a batch, with their brackets.
pub fn batch(alloc: Global, text: &mut Cursor<'_>) -> Option<BatchDraft>
    ensures batch { IfSome result (λ es. is_batch_draft es ≡ true) }
    ensures small { IfSome result (AllByRecursion EditIsSmall) }
    ensures text { IfSome result (λ es. text.old ≡ compact_text (batch_value es) ++ text.new) }
{
    let edits: Vec<EditDraft> = spelled_list(alloc, text, EDITS)?;
    BatchDraft::new(edits).ok()
}
