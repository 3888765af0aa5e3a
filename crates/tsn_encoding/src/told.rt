//! The line of entries of the journal, spelled piece by piece. None of it takes memory.
ghost use Rattle.std.specs.Prelude.{◌≡◌, ◌+◌, ◌≤◌, ◌++◌, [], length, map, codes};
ghost use Rattle.serde_json.specs.Data.{string};
ghost use Rattle.serde_json.specs.Written.{compact_text};
ghost use Rattle.tsn_edit.specs.Changes.{keys_of};
ghost use Rattle.tsn_encoding.specs.Pieces.{keys_piece, taking_back_front, told_line};
ghost use Rattle.tsn_encoding.specs.Told.{act_name, made_data, acted_data, settled_data, entry_data, entries_data, kept_data};
ghost use Rattle.tsn_encoding.specs.Shown.{key_data};
ghost use Rattle.tsn_encoding.specs.Writing.{Writes};

use crate::shown::{
    LONGEST_ITEM, LONGEST_KEY, ShownItem, Written, push_key_text, push_number, write_listed,
};
use crate::text::{CAPACITY, ShortText};
use tsn_bytes::ByteOut;
use tsn_edit::{Change, MOST_PARTS, Part};
use tsn_entries::entries::{Act, Entry, MarkedEntry, What};
use tsn_types::keys::Key;

/// The most bytes of the keys of a change, with their name.
const LONGEST_KEYS: usize = 249;

// Puts the keys of several parts at the end, in their order.
fn push_several(text: &mut ShortText, parts: &[Part])
    requires several { 2 ≤ length parts.now }
    requires few { length parts.now ≤ MOST_PARTS }
    requires room { length text.old + LONGEST_KEYS + 16 ≤ CAPACITY }
    ensures text { text.new ≡ text.old ++ keys_piece (keys_of parts.now) }
    ensures len { length text.new ≤ length text.old + LONGEST_KEYS }
{
    let [first, others @ ..] = parts else {
        return;
    };
    push_key_text(text, ",\"keys\":[", first.key);
    'others: for part in others {
        push_key_text(text, ",", part.key);
    }
    text.push("]");
}

// Puts the key of a change of one part, or the keys of one of several, at the end.
fn push_keys(text: &mut ShortText, change: &Change)
    requires { length text.old + LONGEST_KEYS + 16 ≤ CAPACITY }
    ensures text { text.new ≡ text.old ++ keys_piece (keys_of change.now) }
    ensures len { length text.new ≤ length text.old + LONGEST_KEYS }
{
    match change.parts() {
        [part] => push_key_text(text, ",\"key\":", part.key),
        parts => push_several(text, parts),
    }
}

#[tactic(auto, unfolding(json::specs::Print::escape_byte))]
fn act_front(act: Act) -> &'static str
    ensures text { result.now ≡ codes "{\"act\":" ++ compact_text (string (act_name act)) }
    ensures len { length result.now ≤ 16 }
{
    match act {
        Act::Enable => "{\"act\":\"enable\"",
        Act::Disable => "{\"act\":\"disable\"",
        Act::Apply => "{\"act\":\"apply\"",
    }
}

fn push_made(text: &mut ShortText, number: u64, session: u32, change: &Change)
    requires { length text.old + LONGEST_ITEM ≤ CAPACITY }
    ensures text { text.new ≡ text.old ++ compact_text (made_data number session (keys_of change.now)) }
    ensures len { length text.new ≤ length text.old + LONGEST_ITEM }
{
    push_number(text, "{\"entry\":", number);
    push_keys(text, change);
    push_number(text, ",\"session\":", u64::from(session));
    text.push(",\"what\":\"made\"}");
}

// Up to what was done.
fn push_taking_back(text: &mut ShortText, number: u64, session: u32, of: u64, change: &Change)
    requires { length text.old + LONGEST_ITEM ≤ CAPACITY }
    ensures text { text.new ≡ text.old ++ taking_back_front number session of (keys_of change.now) }
    ensures len { length text.new + 17 ≤ length text.old + LONGEST_ITEM }
{
    push_number(text, "{\"entry\":", number);
    push_keys(text, change);
    push_number(text, ",\"of\":", of);
    push_number(text, ",\"session\":", u64::from(session));
}

fn push_acted(text: &mut ShortText, number: u64, session: u32, act: Act, key: Key, now: u64)
    requires { length text.old + LONGEST_ITEM ≤ CAPACITY }
    ensures text { text.new ≡ text.old ++ compact_text (acted_data number session act key now) }
    ensures len { length text.new ≤ length text.old + LONGEST_ITEM }
{
    text.push_copied(act_front(act));
    push_number(text, ",\"entry\":", number);
    push_key_text(text, ",\"key\":", key);
    push_number(text, ",\"now\":", now);
    push_number(text, ",\"session\":", u64::from(session));
    text.push(",\"what\":\"acted\"}");
}

fn push_settled(text: &mut ShortText, number: u64, session: u32, upto: u64)
    requires { length text.old + LONGEST_ITEM ≤ CAPACITY }
    ensures text { text.new ≡ text.old ++ compact_text (settled_data number session upto) }
    ensures len { length text.new ≤ length text.old + LONGEST_ITEM }
{
    push_number(text, "{\"entry\":", number);
    push_number(text, ",\"session\":", u64::from(session));
    push_number(text, ",\"settled\":", upto);
    text.push(",\"what\":\"settled\"}");
}

fn push_entry(text: &mut ShortText, entry: &Entry)
    requires { length text.old + LONGEST_ITEM ≤ CAPACITY }
    ensures text { text.new ≡ text.old ++ compact_text (entry_data entry.now) }
    ensures len { length text.new ≤ length text.old + LONGEST_ITEM }
{
    let Entry {
        number,
        session,
        what,
    } = entry;
    match what {
        What::Made(change) => push_made(text, *number, *session, change),
        What::Undone { of, change } => {
            push_taking_back(text, *number, *session, *of, change);
            text.push(",\"what\":\"undone\"}");
        }
        What::Redone { of, change } => {
            push_taking_back(text, *number, *session, *of, change);
            text.push(",\"what\":\"redone\"}");
        }
        What::Acted { act, key, now } => {
            push_acted(text, *number, *session, *act, *key, now.get());
        }
        What::Settled { upto } => push_settled(text, *number, *session, *upto),
    }
}

impl ShownItem for Entry {
    ghost shown = { entry_data };

    fn push(&self, text: &mut ShortText) {
        push_entry(text, self);
    }
}

impl ShownItem for MarkedEntry {
    ghost shown = { kept_data };

    fn push(&self, text: &mut ShortText) {
        push_entry(text, self.entry());
    }
}

/// Writes the line of entries in either form, in their order, by way of an empty text. Its one fault is `Write`; what
/// went out is then a front of the line.
pub fn write_told<W: ByteOut, I: ShownItem>(
    writer: &mut W,
    text: &mut ShortText,
    all: &[I],
) -> Written
    requires { text.old ≡ [] }
    ensures { Writes result (W.taken writer.old) (W.taken writer.new) (W.has_failed writer.old) (W.has_failed writer.new)
        (told_line (map I.shown all.now)) }
{
    text.push("{\"entries\":[");
    write_listed(writer, text, all, b"}\n")
}

/// Writes the line of entries, as `write_told` does.
pub fn write_entries<W: ByteOut>(writer: &mut W, text: &mut ShortText, entries: &[Entry]) -> Written
    requires { text.old ≡ [] }
    ensures { Writes result (W.taken writer.old) (W.taken writer.new) (W.has_failed writer.old) (W.has_failed writer.new)
        (compact_text (entries_data entries.now) ++ codes "\n") }
{
    write_told(writer, text, entries)
}
