//! The lines of shown records and of numbers of instances, spelled piece by piece. None of it takes memory.
//!
//! What stands before a list, each item of it and what stands behind it go into a short text, which is written when
//! it may have no room for the next item, and at the end.
ghost use Rattle.std.specs.Prelude.{◌≡◌, ◌+◌, ◌≤◌, ◌++◌, ℕ, List, [], length, map, true, false, IfErr, OnOk, OnErr, codes, decimal};
ghost use Rattle.std.specs.Io.KnownBytes.{Appends};
ghost use Rattle.serde_json.specs.Data.{Data, boolean};
ghost use Rattle.serde_json.specs.View.{items_of};
ghost use Rattle.serde_json.specs.Written.{compact_text, items_text};
ghost use Rattle.tsn_bytes.specs.Bytes.{IsCut};
ghost use Rattle.tsn_bytes.specs.declared.bytes.Fault.TheVariants.{Write};
ghost use Rattle.tsn_types.specs.declared.records.Record.TheVariants as records;
ghost use Rattle.tsn_types.specs.Keys.{number_of};
ghost use Rattle.tsn_types.specs.Lent.{lent_record};
ghost use Rattle.tsn_types.specs.Numbers.{greatest_instance};
ghost use Rattle.tsn_records.specs.Shown.{whole_data, or_null, port_entry_data, gate_entry_data, filter_data, meter_data};
ghost use Rattle.tsn_encoding.specs.Shown.{key_data, shown_data, ids_data};
ghost use Rattle.tsn_encoding.specs.Writing.{Writes};
ghost use Rattle.tsn_records.specs.Keys.{key_text};
ghost use Rattle.tsn_encoding.specs.Pieces.{TakesFront, key_front, port_front, gate_front, gate_end, gate_rest};

use crate::text::{CAPACITY, MOST_DIGITS, ShortText};
use tsn_bytes::{ByteOut, Fault, put_all};
use tsn_types::keys::Key;
use tsn_types::numbers::{Handle, MaxSdu, MeterId, Octets, Priority};
use tsn_types::records::{
    FlowMeter, GateEntry, PortEntry, PortGates, Record, RecordRef, StreamFilter, StreamGate,
};

// ---- pieces

fn number_in(key: Key) -> u64
    ensures is { result ≡ number_of key }
    ensures small { result ≤ greatest_instance }
{
    match key {
        Key::Port(id) => id.get(),
        Key::Filter(id) => id.get(),
        Key::Gate(id) => id.get(),
        Key::Meter(id) => id.get(),
    }
}

// Puts what comes before the number of a key at the end.
fn push_name(text: &mut ShortText, key: &Key)
    requires { length text.old + 7 ≤ CAPACITY }
    ensures text { text.new ++ decimal (number_of key.now) ≡ text.old ++ key_text key.now }
    ensures len { length text.new ≤ length text.old + 7 }
{
    match key {
        Key::Port(_) => text.push("port "),
        Key::Filter(_) => text.push("filter "),
        Key::Gate(_) => text.push("gate "),
        Key::Meter(_) => text.push("meter "),
    }
}

/// The most bytes of the text of a key: a name, a space and five digits.
pub const LONGEST_KEY: usize = 12;

/// Puts the text of a key at the end.
#[tactic(auto, using(crate::proofs::Names::number_short))]
pub fn push_key(text: &mut ShortText, key: Key)
    requires { length text.old + 27 ≤ CAPACITY }
    ensures text { text.new ≡ text.old ++ key_text key }
    ensures len { length text.new ≤ length text.old + LONGEST_KEY }
{
    push_name(text, &key);
    text.push_number(number_in(key));
}

// Puts a key in quotes at the end.
#[inline(always)]
fn push_quoted(text: &mut ShortText, key: Key)
    requires { length text.old + 29 ≤ CAPACITY }
    ensures text { text.new ≡ text.old ++ compact_text (key_data key) }
    ensures len { length text.new ≤ length text.old + LONGEST_KEY + 2 }
{
    text.push("\"");
    push_key(text, key);
    text.push("\"");
}

/// Puts the name and behind it the key in quotes at the end.
#[inline(always)]
pub fn push_key_text(text: &mut ShortText, name: &str, key: Key)
    requires { length text.old + length name.now + 29 ≤ CAPACITY }
    ensures text { text.new ≡ text.old ++ (name.now ++ compact_text (key_data key)) }
    ensures len { length text.new ≤ length text.old + length name.now + LONGEST_KEY + 2 }
{
    text.push(name);
    push_quoted(text, key);
}

/// Puts the name and behind it the flag at the end.
#[inline(always)]
pub fn push_flag(text: &mut ShortText, name: &str, flag: bool)
    requires { length text.old + length name.now + 5 ≤ CAPACITY }
    ensures text { text.new ≡ text.old ++ (name.now ++ compact_text (boolean flag)) }
    ensures len { length text.new ≤ length text.old + length name.now + 5 }
{
    text.push(name);
    if flag {
        text.push("true");
    } else {
        text.push("false");
    }
}

/// Puts the name and behind it the number at the end.
#[inline(always)]
pub fn push_number(text: &mut ShortText, name: &str, number: u64)
    requires { length text.old + length name.now + MOST_DIGITS ≤ CAPACITY }
    ensures text { text.new ≡ text.old ++ (name.now ++ decimal number) }
    ensures len { length text.new ≤ length text.old + length name.now + MOST_DIGITS }
{
    text.push(name);
    text.push_number(number);
}

/// Puts the name and behind it the number at the end, or null.
#[inline(always)]
pub fn push_or_null(text: &mut ShortText, name: &str, number: Option<u64>)
    requires { length text.old + length name.now + MOST_DIGITS ≤ CAPACITY }
    ensures text { text.new ≡ text.old ++ (name.now ++ compact_text (or_null number)) }
    ensures len { length text.new ≤ length text.old + length name.now + MOST_DIGITS }
{
    text.push(name);
    match number {
        None => text.push("null"),
        Some(number) => text.push_number(number),
    }
}

// ---- numbers as they are spelled

fn plain_handle(number: Option<Handle>) -> Option<u64>
    ensures { result ≡ number }
{
    number.map(Handle::get)
}

/// The number of a priority.
pub fn plain_priority(number: Option<Priority>) -> Option<u64>
    ensures { result ≡ number }
{
    number.map(Priority::get)
}

fn plain_max_sdu(number: Option<MaxSdu>) -> Option<u64>
    ensures { result ≡ number }
{
    number.map(MaxSdu::get)
}

fn plain_meter_id(number: Option<MeterId>) -> Option<u64>
    ensures { result ≡ number }
{
    number.map(MeterId::get)
}

fn plain_octets(number: Option<Octets>) -> Option<u64>
    ensures { result ≡ number }
{
    number.map(Octets::get)
}

// ---- records

/// Puts the value of a filter at the end. There must be room for 170 bytes.
pub fn push_filter(text: &mut ShortText, filter: &StreamFilter)
    requires { length text.old + 170 ≤ CAPACITY }
    ensures text { text.new ≡ text.old ++ compact_text (filter_data filter.now) }
    ensures len { length text.new ≤ length text.old + 170 }
{
    push_number(text, "{\"gate\":", filter.gate.get());
    push_or_null(text, ",\"handle\":", plain_handle(filter.handle));
    push_or_null(text, ",\"max_sdu\":", plain_max_sdu(filter.max_sdu));
    push_or_null(text, ",\"meter\":", plain_meter_id(filter.meter));
    push_flag(text, ",\"oversize\":", filter.oversize);
    push_or_null(text, ",\"priority\":", plain_priority(filter.priority));
    text.push("}");
}

/// Puts the value of a meter at the end. There must be room for 170 bytes.
pub fn push_meter(text: &mut ShortText, meter: &FlowMeter)
    requires { length text.old + 170 ≤ CAPACITY }
    ensures text { text.new ≡ text.old ++ compact_text (meter_data meter.now) }
    ensures len { length text.new ≤ length text.old + 170 }
{
    push_flag(text, "{\"all_red\":", meter.all_red);
    push_flag(text, ",\"aware\":", meter.aware);
    push_number(text, ",\"cbs\":", meter.cbs.get());
    push_flag(text, ",\"cf\":", meter.cf);
    push_number(text, ",\"cir\":", meter.cir.get());
    push_flag(text, ",\"drop_yellow\":", meter.drop_yellow);
    push_number(text, ",\"ebs\":", meter.ebs.get());
    push_number(text, ",\"eir\":", meter.eir.get());
    text.push("}");
}

/// Puts what a port's value has before its list, and the opening bracket, at the end. There must be room for 150 bytes.
pub fn push_port_front(text: &mut ShortText, port: &PortGates)
    requires { length text.old + 150 ≤ CAPACITY }
    ensures text { text.new ≡ text.old ++ port_front port.now }
    ensures len { length text.new ≤ length text.old + 150 }
{
    push_number(text, "{\"base\":", port.admin.base.get());
    push_number(text, ",\"cycle\":", port.admin.cycle.get());
    push_number(text, ",\"extension\":", port.admin.extension.get());
    push_number(text, ",\"gates\":", u64::from(port.gates));
    text.push(",\"list\":[");
}

/// Puts what a gate's value has before its list, and the opening bracket, at the end. There must be room for 150 bytes.
pub fn push_gate_front(text: &mut ShortText, gate: &StreamGate)
    requires { length text.old + 150 ≤ CAPACITY }
    ensures text { text.new ≡ text.old ++ gate_front gate.now }
    ensures len { length text.new ≤ length text.old + 150 }
{
    push_number(text, "{\"base\":", gate.admin.base.get());
    push_number(text, ",\"cycle\":", gate.admin.cycle.get());
    push_number(text, ",\"extension\":", gate.admin.extension.get());
    push_flag(text, ",\"invalid_rx\":", gate.invalid_rx);
    push_or_null(text, ",\"ipv\":", plain_priority(gate.ipv));
    text.push(",\"list\":[");
}

/// Puts what a gate's value has behind its list's bracket at the end. There must be room for 48 bytes.
pub fn push_gate_end(text: &mut ShortText, gate: &StreamGate)
    requires { length text.old + 48 ≤ CAPACITY }
    ensures text { text.new ≡ text.old ++ gate_end gate.now }
    ensures len { length text.new ≤ length text.old + 48 }
{
    push_flag(text, ",\"octets_exceeded\":", gate.octets_exceeded);
    push_flag(text, ",\"open\":", gate.is_open);
    text.push("}");
}

// The same with the end of the line.
fn gate_rest(gate: &StreamGate) -> &'static [u8]
    ensures text { result.now ≡ gate_rest gate.now }
    ensures len { length result.now ≤ 48 }
{
    match (gate.octets_exceeded, gate.is_open) {
        (false, false) => b",\"octets_exceeded\":false,\"open\":false}}\n",
        (false, true) => b",\"octets_exceeded\":false,\"open\":true}}\n",
        (true, false) => b",\"octets_exceeded\":true,\"open\":false}}\n",
        (true, true) => b",\"octets_exceeded\":true,\"open\":true}}\n",
    }
}

#[tactic(auto, using(crate::proofs::Pieces::key_pieces))]
fn push_key_front(text: &mut ShortText, key: Key)
    requires { text.old ≡ [] }
    ensures text { text.new ≡ key_front key }
    ensures len { length text.new ≤ 48 }
{
    text.push("{\"key\":\"");
    push_key(text, key);
    text.push("\",\"record\":");
}

// ---- lists

// The most bytes before a list, and behind its bracket.
const LONGEST_FRONT: usize = 200;

/// The most bytes of one item: of an entry that takes back a change of sixteen parts.
pub const LONGEST_ITEM: usize = 352;

const LONGEST_REST: usize = 50;

/// The most bytes that may be held before a comma and an item, so that the bracket and the rest have room behind them.
pub const MOST_BEFORE_ITEM: usize = CAPACITY - LONGEST_REST - LONGEST_ITEM - 2;

/// What is shown in a list.
pub trait ShownItem {
    ghost shown: { Self → Data };

    fn push(&self, text: &mut ShortText)
        requires { length text.old + LONGEST_ITEM ≤ CAPACITY }
        ensures text { text.new ≡ text.old ++ compact_text (shown self.now) }
        ensures len { length text.new ≤ length text.old + LONGEST_ITEM };
}

impl ShownItem for u64 {
    ghost shown = { whole_data };

    fn push(&self, text: &mut ShortText) {
        text.push_number(*self);
    }
}

impl ShownItem for PortEntry {
    ghost shown = { port_entry_data };

    fn push(&self, text: &mut ShortText) {
        push_number(text, "[", u64::from(self.gates));
        push_number(text, ",", self.interval.get());
        text.push("]");
    }
}

impl ShownItem for GateEntry {
    ghost shown = { gate_entry_data };

    fn push(&self, text: &mut ShortText) {
        push_flag(text, "[", self.is_open);
        push_or_null(text, ",", plain_priority(self.ipv));
        push_number(text, ",", self.interval.get());
        push_or_null(text, ",", plain_octets(self.octets));
        text.push("]");
    }
}

/// What a write comes to.
pub type Written = Result<(), Fault>;

/// Writes what is held, unless there is room behind it for one item more.
pub fn make_room<W: ByteOut>(writer: &mut W, text: &mut ShortText) -> Result<(), Fault>
    ensures ok { OnOk result (
        TakesFront (W.taken writer.old) (W.taken writer.new) text.old text.new) }
    ensures room { OnOk result (length text.new ≤ MOST_BEFORE_ITEM) }
    ensures worked { OnOk result (W.has_failed writer.new ≡ W.has_failed writer.old) }
    ensures fault { IfErr result (λ e. e ≡ Write) }
    ensures failed { OnErr result (W.has_failed writer.new ≡ true) }
    ensures cut { OnErr result (IsCut (W.taken writer.old) (W.taken writer.new) text.old) }
{
    if text.as_slice().len() > MOST_BEFORE_ITEM {
        put_all(writer, text.as_slice())?;
        text.clear();
    }
    Ok(())
}

// Puts a comma and the item at the end.
fn push_next<I: ShownItem>(text: &mut ShortText, item: &I)
    requires { length text.old + 1 + LONGEST_ITEM ≤ CAPACITY }
    ensures text { text.new ≡ text.old ++ (codes "," ++ compact_text (I.shown item.now)) }
    ensures len { length text.new ≤ length text.old + 1 + LONGEST_ITEM }
{
    text.push(",");
    item.push(text);
}

/// Writes the front, which the text holds, the items with commas between them, a bracket and the rest.
pub fn write_listed<W: ByteOut, I: ShownItem>(
    writer: &mut W,
    text: &mut ShortText,
    items: &[I],
    rest: &[u8],
) -> Result<(), Fault>
    requires front { length text.old ≤ LONGEST_FRONT }
    requires rest { length rest.now ≤ LONGEST_REST }
    ensures ok { OnOk result (Appends (W.taken writer.old) (W.taken writer.new)
        (text.old ++ (items_text false (items_of (map I.shown items.now)) ++ rest.now))) }
    ensures worked { OnOk result (W.has_failed writer.new ≡ W.has_failed writer.old) }
    ensures fault { IfErr result (λ e. e ≡ Write) }
    ensures failed { OnErr result (W.has_failed writer.new ≡ true) }
    ensures cut { OnErr result (IsCut (W.taken writer.old) (W.taken writer.new)
        (text.old ++ (items_text false (items_of (map I.shown items.now)) ++ rest.now))) }
{
    let Some((first, others)) = items.split_first() else {
        text.push("]");
        text.push_bytes(rest);
        return put_all(writer, text.as_slice());
    };
    first.push(text);
    'others: for item in others {
        make_room(writer, text)?;
        push_next(text, item);
    }
    text.push("]");
    text.push_bytes(rest);
    put_all(writer, text.as_slice())
}

// ---- lines

fn push_filter_line(text: &mut ShortText, key: Key, filter: &StreamFilter)
    requires { text.old ≡ [] }
    ensures { text.new ≡ compact_text (shown_data key (records.Filter filter.now)) ++ codes "\n" }
{
    push_key_front(text, key);
    push_filter(text, filter);
    text.push("}\n");
}

fn push_meter_line(text: &mut ShortText, key: Key, meter: &FlowMeter)
    requires { text.old ≡ [] }
    ensures { text.new ≡ compact_text (shown_data key (records.Meter meter.now)) ++ codes "\n" }
{
    push_key_front(text, key);
    push_meter(text, meter);
    text.push("}\n");
}

/// The record, lent.
pub fn lent(value: &Record) -> RecordRef<'_>
    ensures { lent_record result ≡ value.now }
{
    match value {
        Record::Port(port) => RecordRef::Port(port),
        Record::Filter(filter) => RecordRef::Filter(filter),
        Record::Gate(gate) => RecordRef::Gate(gate),
        Record::Meter(meter) => RecordRef::Meter(meter),
    }
}

/// Writes the line of a key and a record that is lent, by way of an empty text. Its one fault is `Write`; what went out
/// is then a front of the line.
pub fn write_lent_record<W: ByteOut>(
    writer: &mut W,
    text: &mut ShortText,
    key: Key,
    lent: RecordRef<'_>,
) -> Result<(), Fault>
    requires { text.old ≡ [] }
    ensures ok { OnOk result (Appends (W.taken writer.old) (W.taken writer.new)
        (compact_text (shown_data key (lent_record lent.entry)) ++ codes "\n")) }
    ensures worked { OnOk result (W.has_failed writer.new ≡ W.has_failed writer.old) }
    ensures fault { IfErr result (λ e. e ≡ Write) }
    ensures failed { OnErr result (W.has_failed writer.new ≡ true) }
    ensures cut { OnErr result (IsCut (W.taken writer.old) (W.taken writer.new)
        (compact_text (shown_data key (lent_record lent.entry)) ++ codes "\n")) }
{
    match lent {
        RecordRef::Port(port) => {
            push_key_front(text, key);
            push_port_front(text, port);
            write_listed(writer, text, port.admin.list.as_slice(), b"}}\n")
        }
        RecordRef::Filter(filter) => {
            push_filter_line(text, key, filter);
            put_all(writer, text.as_slice())
        }
        RecordRef::Gate(gate) => {
            push_key_front(text, key);
            push_gate_front(text, gate);
            write_listed(writer, text, gate.admin.list.as_slice(), gate_rest(gate))
        }
        RecordRef::Meter(meter) => {
            push_meter_line(text, key, meter);
            put_all(writer, text.as_slice())
        }
    }
}

/// Writes the line of numbers of instances, in their order, as `write_lent_record` does that of a record.
pub fn write_ids<W: ByteOut>(writer: &mut W, text: &mut ShortText, ids: &[u64]) -> Result<(), Fault>
    requires { text.old ≡ [] }
    ensures { Writes result (W.taken writer.old) (W.taken writer.new) (W.has_failed writer.old) (W.has_failed writer.new)
        (compact_text (ids_data ids.now) ++ codes "\n") }
{
    text.push("{\"ids\":[");
    write_listed(writer, text, ids, b"}\n")
}
