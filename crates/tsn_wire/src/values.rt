//! Values that members have, read from their lexemes, whatever white space stands between.
ghost use Rattle.std.specs.Prelude.{IfSome};
ghost use Rattle.serde_json.specs.Data.{Data, boolean, string};
ghost use Rattle.tsn_records.specs.Keys.{kind_text, spelled_key};
ghost use Rattle.tsn_records.specs.Shown.{gate_entry_value, list_array, or_null, port_entry_value, whole_data};
ghost use Rattle.tsn_wire.specs.Lexed.{lexed, ReadsValue};

use crate::cursor::Cursor;
use crate::lexemes::{flag, number, number_or_null};
use crate::lists::scanned_list;
use crate::spelled_records::{ENTRIES, key, kind};
use std::alloc::Global;
use tsn_records::drafts::{GateEntryDraft, KeyDraft, PortEntryDraft};
use tsn_types::keys::Kind;
use tsn_types::lists::ControlList;

/// A value as a member has it.
pub trait Scanned: Drop {
    ghost value: { Self → Data };

    fn scanned(alloc: Global, text: &mut Cursor<'_>) -> Option<Self>
        ensures { IfSome result (λ v. ReadsValue 2 (lexed text.old) (value v) (lexed text.new)) };
}

impl Scanned for u64 {
    ghost value = { whole_data };

    fn scanned(_alloc: Global, text: &mut Cursor<'_>) -> Option<u64> {
        number(text)
    }
}

impl Scanned for Option<u64> {
    ghost value = { or_null };

    fn scanned(_alloc: Global, text: &mut Cursor<'_>) -> Option<Option<u64>> {
        number_or_null(text)
    }
}

impl Scanned for bool {
    ghost value = { boolean };

    fn scanned(_alloc: Global, text: &mut Cursor<'_>) -> Option<bool> {
        flag(text)
    }
}

impl Scanned for ControlList<PortEntryDraft> {
    ghost value = { list_array port_entry_value };

    fn scanned(alloc: Global, text: &mut Cursor<'_>) -> Option<ControlList<PortEntryDraft>> {
        scanned_list(alloc, text, ENTRIES)
    }
}

impl Scanned for ControlList<GateEntryDraft> {
    ghost value = { list_array gate_entry_value };

    fn scanned(alloc: Global, text: &mut Cursor<'_>) -> Option<ControlList<GateEntryDraft>> {
        scanned_list(alloc, text, ENTRIES)
    }
}

impl Scanned for KeyDraft {
    ghost value = { λ k. string (spelled_key k.kind k.number) };

    fn scanned(_alloc: Global, text: &mut Cursor<'_>) -> Option<KeyDraft> {
        text.skip();
        text.expect("\"")?;
        let key = key(text)?;
        text.expect("\"")?;
        Some(key)
    }
}

impl Scanned for Kind {
    ghost value = { λ k. string (kind_text k) };

    fn scanned(_alloc: Global, text: &mut Cursor<'_>) -> Option<Kind> {
        text.skip();
        text.expect("\"")?;
        let kind = kind(text)?;
        text.expect("\"")?;
        Some(kind)
    }
}
