//! Replies as lines of text: compact JSON, its members in ascending order of their names.
//!
//! A short reply is spelled in a buffer of fixed size and goes out in one piece; a record and a list go out in
//! as many as they fill. No reply takes memory.
ghost use Rattle.std.specs.Prelude.{◌≡◌, ◌+◌, ◌≤◌, ◌++◌, [], length, true, IfErr, OnOk, OnErr, codes, decimal};
ghost use Rattle.std.specs.Io.KnownBytes.{Appends};
ghost use Rattle.tsn_types.specs.Lent.{lent_record};
ghost use Rattle.tsn_types.specs.Refusals.{name_of, field_name};
ghost use Rattle.tsn_entries.specs.Marks.{entries_of};
ghost use Rattle.tsn_bytes.specs.Bytes.{IsCut};
ghost use Rattle.tsn_replies.specs.Replies.{number_member, text_member, members_of, behind_of, refusal_text, reply_text};
ghost use Rattle.tsn_records.specs.Keys.{key_text};
ghost use Rattle.tsn_bytes.specs.declared.bytes.Fault.TheVariants.{Write};

use crate::running::{push_act, push_counters, push_state, push_verdict};
use tsn_bytes::{ByteOut, Fault, put_all};
use tsn_commands::reply::Reply;
use tsn_encoding::{
    CAPACITY, ShortText, lent, push_key, push_number, write_entries, write_ids, write_lent_record,
    write_sessions, write_setup, write_told,
};
use tsn_entries::entries::MarkedEntry;
use tsn_types::keys::Key;
use tsn_types::records::RecordRef;
use tsn_types::refusals::{Field, Refusal};

#[inline(always)]
fn push_number_member(text: &mut ShortText, name: &str, number: u64)
    requires { length text.old + length name.now + 24 ≤ CAPACITY }
    ensures text { text.new ≡ text.old ++ number_member name.now number }
    ensures len { length text.new ≤ length text.old + length name.now + 24 }
{
    text.push("\"");
    text.push(name);
    text.push("\":");
    text.push_number(number);
    text.push(",");
}

#[inline(always)]
fn push_key_member(text: &mut ShortText, name: &str, key: Key)
    requires { length text.old + length name.now + 33 ≤ CAPACITY }
    ensures text { text.new ≡ text.old ++ text_member name.now (key_text key) }
    ensures len { length text.new ≤ length text.old + length name.now + 33 }
{
    text.push("\"");
    text.push(name);
    text.push("\":\"");
    push_key(text, key);
    text.push("\",");
}

#[tactic(auto, using(tsn_encoding::proofs::Names::field_name_short))]
fn push_field_member(text: &mut ShortText, field: Field)
    requires { length text.old + 22 ≤ CAPACITY }
    ensures text { text.new ≡ text.old ++ text_member (codes "field") (field_name field) }
    ensures len { length text.new ≤ length text.old + 22 }
{
    text.push("\"field\":\"");
    text.push_copied(field.name());
    text.push("\",");
}

fn push_members(text: &mut ShortText, refusal: &Refusal)
    requires { length text.old + 60 ≤ CAPACITY }
    ensures text { text.new ≡ text.old ++ members_of refusal.now }
    ensures len { length text.new ≤ length text.old + 60 }
{
    match *refusal {
        Refusal::Range(field) => push_field_member(text, field),
        Refusal::Missing(key) | Refusal::Exists(key) | Refusal::Dangling(key) => {
            push_key_member(text, "key", key);
        }
        Refusal::Referred(by) => push_key_member(text, "by", by),
        Refusal::Conflict { own, other } => {
            push_number_member(text, "other", other);
            push_number_member(text, "own", own);
        }
        Refusal::RedoConflict { other } => push_number_member(text, "other", other),
        Refusal::TooLong
        | Refusal::Syntax
        | Refusal::Shape
        | Refusal::NoSession
        | Refusal::NothingToUndo
        | Refusal::NothingToRedo
        | Refusal::NotEnabled
        | Refusal::EmptyList
        | Refusal::Past
        | Refusal::JournalFull
        | Refusal::Memory
        | Refusal::Settled { .. } => {}
    }
}

fn push_behind(text: &mut ShortText, refusal: &Refusal)
    requires { length text.old + 28 ≤ CAPACITY }
    ensures text { text.new ≡ text.old ++ behind_of refusal.now }
    ensures len { length text.new ≤ length text.old + 28 }
{
    if let Refusal::Settled { upto } = refusal {
        text.push(",\"upto\":");
        text.push_number(*upto);
    }
}

#[tactic(auto, using(tsn_encoding::proofs::Names::name_short))]
fn push_refusal(text: &mut ShortText, refusal: &Refusal)
    requires { text.old ≡ [] }
    ensures { text.new ≡ refusal_text refusal.now }
{
    text.push("{");
    push_members(text, refusal);
    text.push("\"refused\":");
    text.push_number(refusal.number());
    push_behind(text, refusal);
    text.push(",\"why\":\"");
    text.push_copied(refusal.name());
    text.push("\"}\n");
}

// The line of a number behind its name.
#[inline(always)]
fn push_one(text: &mut ShortText, name: &str, number: u64)
    requires { (text.old ≡ []) × (length name.now ≤ 16) }
    ensures { text.new ≡ name.now ++ decimal number ++ codes "}\n" }
{
    push_number(text, name, number);
    text.push("}\n");
}

fn push_session(text: &mut ShortText, session: u32)
    requires { text.old ≡ [] }
    ensures { text.new ≡ reply_text (Reply.Session session) }
{
    push_one(text, "{\"session\":", u64::from(session));
}

// The line of two of them.
#[inline(always)]
fn push_two(text: &mut ShortText, name: &str, number: u64, other_name: &str, other: u64)
    requires { (text.old ≡ []) × (length name.now ≤ 16) × (length other_name.now ≤ 16) }
    ensures { text.new ≡ name.now ++ decimal number ++ other_name.now ++ decimal other ++ codes "}\n" }
{
    push_number(text, name, number);
    push_number(text, other_name, other);
    text.push("}\n");
}

fn put_text<W: ByteOut>(writer: &mut W, text: &ShortText) -> Result<(), Fault>
    ensures ok { OnOk result (Appends (W.taken writer.old) (W.taken writer.new) text.now) }
    ensures worked { OnOk result (W.has_failed writer.new ≡ W.has_failed writer.old) }
    ensures fault { IfErr result (λ e. e ≡ Write) }
    ensures failed { OnErr result (W.has_failed writer.new ≡ true) }
    ensures cut { OnErr result (IsCut (W.taken writer.old) (W.taken writer.new) text.now) }
{
    put_all(writer, text.as_slice())
}

/// Writes the line of a refusal, its line feed in it. It takes no memory. Its one fault is `Write`; what went out is
/// then a front of the line.
pub fn write_refusal<W: ByteOut>(writer: &mut W, refusal: &Refusal) -> Result<(), Fault>
    ensures ok { OnOk result
        (Appends (W.taken writer.old) (W.taken writer.new) (refusal_text refusal.now)) }
    ensures worked { OnOk result (W.has_failed writer.new ≡ W.has_failed writer.old) }
    ensures fault { IfErr result (λ e. e ≡ Write) }
    ensures failed { OnErr result (W.has_failed writer.new ≡ true) }
    ensures cut { OnErr result
        (IsCut (W.taken writer.old) (W.taken writer.new) (refusal_text refusal.now)) }
{
    let mut line = ShortText::new();
    push_refusal(&mut line, refusal);
    put_text(writer, &line)
}

/// Writes the reply's line, its line feed in it. It takes no memory. Its one fault is `Write`; what went out is then a
/// front of the line.
pub fn write_reply<W: ByteOut>(writer: &mut W, reply: &Reply) -> Result<(), Fault>
    ensures ok { OnOk result
        (Appends (W.taken writer.old) (W.taken writer.new) (reply_text reply.now)) }
    ensures worked { OnOk result (W.has_failed writer.new ≡ W.has_failed writer.old) }
    ensures fault { IfErr result (λ e. e ≡ Write) }
    ensures failed { OnErr result (W.has_failed writer.new ≡ true) }
    ensures cut { OnErr result
        (IsCut (W.taken writer.old) (W.taken writer.new) (reply_text reply.now)) }
{
    write_reply_by(writer, &mut ShortText::new(), reply)
}

/// Writes the reply's line as `write_reply` does, by a text that the caller has: to make a new one clears each of its
/// bytes, which costs who writes many.
pub fn write_reply_by<W: ByteOut>(
    writer: &mut W,
    text: &mut ShortText,
    reply: &Reply,
) -> Result<(), Fault>
    ensures ok { OnOk result
        (Appends (W.taken writer.old) (W.taken writer.new) (reply_text reply.now)) }
    ensures worked { OnOk result (W.has_failed writer.new ≡ W.has_failed writer.old) }
    ensures fault { IfErr result (λ e. e ≡ Write) }
    ensures failed { OnErr result (W.has_failed writer.new ≡ true) }
    ensures cut { OnErr result
        (IsCut (W.taken writer.old) (W.taken writer.new) (reply_text reply.now)) }
{
    text.clear();
    match reply {
        Reply::Session { session } | Reply::Known { session } => {
            push_session(text, *session);
            put_text(writer, text)
        }
        Reply::Entry { entry } => {
            push_one(text, "{\"entry\":", *entry);
            put_text(writer, text)
        }
        Reply::EntryOf { entry, of } => {
            push_two(text, "{\"entry\":", *entry, ",\"of\":", *of);
            put_text(writer, text)
        }
        Reply::TakenBack { count, entry } => {
            push_two(text, "{\"count\":", *count, ",\"entry\":", *entry);
            put_text(writer, text)
        }
        Reply::Settled { entry, settled } => {
            push_two(text, "{\"entry\":", *entry, ",\"settled\":", *settled);
            put_text(writer, text)
        }
        Reply::Acted { change, entry, now } => {
            push_act(text, *change, *entry, *now);
            put_text(writer, text)
        }
        Reply::Framed(verdict) => {
            push_verdict(text, verdict);
            put_text(writer, text)
        }
        Reply::States(state) => {
            push_state(text, state);
            put_text(writer, text)
        }
        Reply::Counters(counters) => {
            push_counters(text, counters);
            put_text(writer, text)
        }
        Reply::Shown { key, value } => write_lent_record(writer, text, *key, lent(value)),
        Reply::Ids { ids } => write_ids(writer, text, ids.as_slice()),
        Reply::Entries { entries } => write_entries(writer, text, entries.as_slice()),
        Reply::Sessions { sessions } => write_sessions(writer, text, sessions.as_slice()),
        Reply::Setup { text: setup } => write_setup(writer, text, setup.as_bytes()),
        Reply::Refused(refusal) => {
            push_refusal(text, refusal);
            put_text(writer, text)
        }
    }
}

/// Writes the line of a reply that shows a record, of one that is lent, as `write_reply` does that of a copy of it.
pub fn write_lent<W: ByteOut>(writer: &mut W, key: Key, lent: RecordRef<'_>) -> Result<(), Fault>
    ensures ok { OnOk result
        (Appends (W.taken writer.old) (W.taken writer.new) (reply_text (Reply.Shown key (lent_record lent.entry)))) }
    ensures worked { OnOk result (W.has_failed writer.new ≡ W.has_failed writer.old) }
    ensures fault { IfErr result (λ e. e ≡ Write) }
    ensures failed { OnErr result (W.has_failed writer.new ≡ true) }
    ensures cut { OnErr result
        (IsCut (W.taken writer.old) (W.taken writer.new) (reply_text (Reply.Shown key (lent_record lent.entry)))) }
{
    write_lent_record(writer, &mut ShortText::new(), key, lent)
}

/// Writes the line of a reply of entries, as the journal keeps them, as `write_reply` does that of copies of them.
pub fn write_kept<W: ByteOut>(writer: &mut W, entries: &[MarkedEntry]) -> Result<(), Fault>
    ensures ok { OnOk result
        (Appends (W.taken writer.old) (W.taken writer.new) (reply_text (Reply.Entries (entries_of entries.now)))) }
    ensures worked { OnOk result (W.has_failed writer.new ≡ W.has_failed writer.old) }
    ensures fault { IfErr result (λ e. e ≡ Write) }
    ensures failed { OnErr result (W.has_failed writer.new ≡ true) }
    ensures cut { OnErr result
        (IsCut (W.taken writer.old) (W.taken writer.new) (reply_text (Reply.Entries (entries_of entries.now)))) }
{
    write_told(writer, &mut ShortText::new(), entries)
}
