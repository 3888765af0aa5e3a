//! Records whose key may stand behind them: of which kind such a one is.
ghost use Rattle.std.specs.Prelude.{◌≡◌, ◌<◌, IfSome, codes, length, option_map};
ghost use Rattle.tsn_wire.specs.Lexed.{lexed};
ghost use Rattle.tsn_wire.specs.Members.{Fills};
ghost use Rattle.tsn_records.specs.Shown.{draft_data};

use crate::any_record::record;
use crate::cursor::Cursor;
use crate::members::named;
use std::alloc::Global;
use tsn_records::allowed::{KINDS, members_of};
use tsn_records::drafts::{KeyDraft, RecordDraft};
use tsn_types::keys::Kind;

// Whether the records of the kind have a member of the name.
fn has_member(kind: Kind, name: &[u8]) -> bool {
    members_of(kind)
        .iter()
        .any(|member| member.0.as_bytes() == name)
}

// The kind whose records alone have a member of the name; none for a name that several kinds share.
fn kind_named(name: &[u8]) -> Option<Kind> {
    let mut named = None;
    for kind in KINDS {
        if has_member(kind, name) {
            if named.is_some() {
                return None;
            }
            named = Some(kind);
        }
    }
    named
}

// The first name in quotes, and what stands behind it.
fn first_name(text: &[u8]) -> Option<(&[u8], &[u8])>
    ensures { IfSome result (λ found. length found.1.now < length text.now) }
{
    let start = text.iter().position(|byte| *byte == b'"')? + 1;
    let name = &text[start..];
    let end = name.iter().position(|byte| *byte == b'"')?;
    Some((&name[..end], &name[end + 1..]))
}

// The kind of the record that the text begins with, guessed from the first of its names that one kind alone has. In a
// record just the names stand in quotes. A wrong guess costs another way to read the line, and nothing else.
fn guessed(text: &[u8]) -> Kind {
    let mut rest = text;
    'names: while let Some((name, behind)) = first_name(rest) {
        if let Some(kind) = kind_named(name) {
            return kind;
        }
        rest = behind;
    }
    Kind::Port
}

// The kind of the record that comes next: that of the key, where one was read before.
fn kind_ahead(key: Option<KeyDraft>, text: &Cursor<'_>) -> Kind {
    match key {
        Some(key) => key.kind,
        None => guessed(text.rest()),
    }
}

/// The record of a key that was read before it, or of a kind that is guessed where none was.
pub fn record_tray(
    alloc: Global,
    text: &mut Cursor<'_>,
    key: Option<KeyDraft>,
    tray: &mut Option<RecordDraft>,
) -> Option<()>
    ensures { IfSome result (λ _. Fills 3 (lexed text.old) (codes "record")
        (option_map draft_data tray.old) (option_map draft_data tray.new) (lexed text.new)) }
{
    named(text, "record", tray)?;
    let kind = kind_ahead(key, text);
    let value = record(alloc, kind, text)?;
    *tray = Some(value);
    Some(())
}
