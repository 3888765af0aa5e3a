//! Records and commands as text, in the service's compact spelling.

use crate::numbers::Random;
use crate::text::Text;

/// A command of a session on an instance, as far as the session's number: `{"do":WORD,"key":"KIND N"`.
pub fn open_command(text: &mut Text, word: &str, kind: &str, number: u64) {
    text.put("{\"do\":\"");
    text.put(word);
    text.put("\",\"key\":\"");
    text.put(kind);
    text.with(" ", number);
    text.put("\"");
}

/// Ends a command of this session, and its line.
pub fn close_command(text: &mut Text, session: u64) {
    text.with(",\"s\":", session);
    text.put("}\n");
}

/// A command that names nothing but its word and session.
pub fn plain(text: &mut Text, word: &str, session: u64) {
    text.put("{\"do\":\"");
    text.put(word);
    text.put("\"");
    close_command(text, session);
}

/// A hello.
pub fn hello(text: &mut Text) {
    text.put("{\"do\":\"hello\"}\n");
}

/// A command on an instance that has no other member.
pub fn on_key(text: &mut Text, word: &str, kind: &str, number: u64, session: u64) {
    open_command(text, word, kind, number);
    close_command(text, session);
}

/// An act at an instant.
pub fn act(text: &mut Text, word: &str, kind: &str, number: u64, now: u64, session: u64) {
    open_command(text, word, kind, number);
    text.with(",\"now\":", now);
    close_command(text, session);
}

// What a record with a list begins with.
fn put_times(text: &mut Text, cycle: u64, base: u64) {
    text.with("{\"base\":", base);
    text.with(",\"cycle\":", cycle);
}

// Its list, and what stands behind that.
fn put_list(text: &mut Text, entries: &[u8], rest: &str) {
    text.put(",\"list\":[");
    text.put_bytes(entries);
    text.put(rest);
}

/// The record of a port, with the entries of its list.
pub fn put_port(text: &mut Text, gates: u64, cycle: u64, base: u64, entries: &[u8]) {
    put_times(text, cycle, base);
    text.with(",\"extension\":0,\"gates\":", gates);
    put_list(text, entries, "]}");
}

/// The record of a stream gate, with the entries of its list.
pub fn put_gate(text: &mut Text, ipv: Option<u64>, cycle: u64, base: u64, entries: &[u8]) {
    put_times(text, cycle, base);
    text.with_or_null(",\"extension\":0,\"invalid_rx\":false,\"ipv\":", ipv);
    put_list(text, entries, "],\"octets_exceeded\":false,\"open\":true}");
}

/// The record of a flow meter of this rate and burst.
pub fn put_meter(text: &mut Text, rate: u64, burst: u64, marks: bool) {
    text.with_flag("{\"all_red\":false,\"aware\":", marks);
    text.with(",\"cbs\":", burst);
    text.with_flag(",\"cf\":", marks);
    text.with(",\"cir\":", rate);
    text.with(",\"drop_yellow\":false,\"ebs\":", burst);
    text.with(",\"eir\":", rate / 10);
    text.put("}");
}

/// What a stream filter is made of.
#[derive(Clone, Copy)]
pub struct Filter {
    pub gate: u64,
    pub meter: Option<u64>,
    pub handle: Option<u64>,
    pub priority: Option<u64>,
    pub oversize: bool,
}

/// The record of a stream filter.
pub fn put_filter(text: &mut Text, filter: Filter) {
    text.with("{\"gate\":", filter.gate);
    text.with_or_null(",\"handle\":", filter.handle);
    text.with_or_null(",\"max_sdu\":1500,\"meter\":", filter.meter);
    text.with_flag(",\"oversize\":", filter.oversize);
    text.with_or_null(",\"priority\":", filter.priority);
    text.put("}");
}

/// A number, or none, with equal chance.
pub fn perhaps(random: &mut Random, number: u64) -> Option<u64> {
    if random.below(2) == 0 {
        None
    } else {
        Some(number)
    }
}

/// Sets a record: the command up to the record, which the caller puts, and then `close_command`.
pub fn open_record(text: &mut Text, word: &str, kind: &str, number: u64) {
    open_command(text, word, kind, number);
    text.put(",\"record\":");
}
