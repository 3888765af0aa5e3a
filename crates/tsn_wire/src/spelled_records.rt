//! Keys and records in the service's compact spelling, read with no tree.
ghost use Rattle.std.specs.Prelude.{◌≡◌, ◌++◌, IfSome, decimal};
ghost use Rattle.serde_json.specs.Data.{boolean};
ghost use Rattle.serde_json.specs.Written.{compact_text};
ghost use Rattle.tsn_records.specs.Keys.{kind_text, spelled_key};
ghost use Rattle.tsn_records.specs.Shown.{draft_data, gate_entry_value, or_null, port_entry_value};
ghost use Rattle.tsn_records.specs.declared.drafts.RecordDraft.TheVariants as RecordOf;
ghost use Rattle.tsn_wire.specs.Spelled.{IsSmall, IsKey, PortEntryIsSmall, GateEntryIsSmall, PortIsSmall, GateIsSmall, FilterIsSmall, MeterIsSmall, RecordIsSmall, SpellsRecord};

use crate::cursor::Cursor;
use crate::lexemes::{scanned_gate_entry, scanned_port_entry};
use crate::lists::{Item, spelled_list};
use std::alloc::Global;
use tsn_records::allowed::name_of;
use tsn_records::drafts::{
    FilterDraft, GateDraft, GateEntryDraft, KeyDraft, MeterDraft, PortDraft, PortEntryDraft,
    RecordDraft, ScheduleDraft,
};
use tsn_types::keys::Kind;
use tsn_types::numbers::identifiers::GREATEST_INSTANCE;

#[inline(always)]
pub fn number_member(text: &mut Cursor<'_>, name: &str) -> Option<u64>
    ensures { IfSome result (λ n. IsSmall n × (text.old ≡ name.now ++ (decimal n ++ text.new))) }
{
    text.expect(name)?;
    text.number()
}

#[inline(always)]
fn optional_member(text: &mut Cursor<'_>, name: &str) -> Option<Option<u64>>
    ensures { IfSome result (λ o. IfSome o IsSmall
        × (text.old ≡ name.now ++ (compact_text (or_null o) ++ text.new))) }
{
    text.expect(name)?;
    if text.take("null") {
        return Some(None);
    }
    let number = text.number()?;
    Some(Some(number))
}

#[inline(always)]
pub fn flag_member(text: &mut Cursor<'_>, name: &str) -> Option<bool>
    ensures { IfSome result (λ b. text.old ≡ name.now ++ (compact_text (boolean b) ++ text.new)) }
{
    text.expect(name)?;
    if text.take("true") {
        return Some(true);
    }
    text.expect("false")?;
    Some(false)
}

impl Item for PortEntryDraft {
    ghost value = { port_entry_value };

    ghost IsFit = { PortEntryIsSmall };

    ghost nesting = { 1 };

    fn spelled(_alloc: Global, text: &mut Cursor<'_>) -> Option<PortEntryDraft> {
        let gates = number_member(text, "[")?;
        let interval = number_member(text, ",")?;
        text.expect("]")?;
        Some(PortEntryDraft { gates, interval })
    }

    fn scanned(_alloc: Global, text: &mut Cursor<'_>) -> Option<PortEntryDraft> {
        scanned_port_entry(text)
    }
}

impl Item for GateEntryDraft {
    ghost value = { gate_entry_value };

    ghost IsFit = { GateEntryIsSmall };

    ghost nesting = { 1 };

    fn spelled(_alloc: Global, text: &mut Cursor<'_>) -> Option<GateEntryDraft> {
        let is_open = flag_member(text, "[")?;
        let ipv = optional_member(text, ",")?;
        let interval = number_member(text, ",")?;
        let octets = optional_member(text, ",")?;
        text.expect("]")?;
        Some(GateEntryDraft {
            is_open,
            ipv,
            interval,
            octets,
        })
    }

    fn scanned(_alloc: Global, text: &mut Cursor<'_>) -> Option<GateEntryDraft> {
        scanned_gate_entry(text)
    }
}

// The most entries that are read so.
pub const ENTRIES: u32 = 65_536;

fn filter(text: &mut Cursor<'_>) -> Option<FilterDraft>
    ensures small { IfSome result FilterIsSmall }
    ensures text { IfSome result (λ r. text.old ≡ compact_text (draft_data (RecordOf.Filter r)) ++ text.new) }
{
    let gate = number_member(text, "{\"gate\":")?;
    let handle = optional_member(text, ",\"handle\":")?;
    let max_sdu = optional_member(text, ",\"max_sdu\":")?;
    let meter = optional_member(text, ",\"meter\":")?;
    let oversize = flag_member(text, ",\"oversize\":")?;
    let priority = optional_member(text, ",\"priority\":")?;
    text.expect("}")?;
    Some(FilterDraft {
        handle,
        priority,
        gate,
        max_sdu,
        meter,
        oversize,
    })
}

fn meter(text: &mut Cursor<'_>) -> Option<MeterDraft>
    ensures small { IfSome result MeterIsSmall }
    ensures text { IfSome result (λ r. text.old ≡ compact_text (draft_data (RecordOf.Meter r)) ++ text.new) }
{
    let all_red = flag_member(text, "{\"all_red\":")?;
    let aware = flag_member(text, ",\"aware\":")?;
    let cbs = number_member(text, ",\"cbs\":")?;
    let cf = flag_member(text, ",\"cf\":")?;
    let cir = number_member(text, ",\"cir\":")?;
    let drop_yellow = flag_member(text, ",\"drop_yellow\":")?;
    let ebs = number_member(text, ",\"ebs\":")?;
    let eir = number_member(text, ",\"eir\":")?;
    text.expect("}")?;
    Some(MeterDraft {
        cir,
        cbs,
        eir,
        ebs,
        cf,
        aware,
        drop_yellow,
        all_red,
    })
}

fn gate(alloc: Global, text: &mut Cursor<'_>) -> Option<GateDraft>
    ensures small { IfSome result GateIsSmall }
    ensures text { IfSome result (λ r. text.old ≡ compact_text (draft_data (RecordOf.Gate r)) ++ text.new) }
{
    let base = number_member(text, "{\"base\":")?;
    let cycle = number_member(text, ",\"cycle\":")?;
    let extension = number_member(text, ",\"extension\":")?;
    let invalid_rx = flag_member(text, ",\"invalid_rx\":")?;
    let ipv = optional_member(text, ",\"ipv\":")?;
    text.expect(",\"list\":")?;
    let list = spelled_list(alloc, text, ENTRIES)?;
    let octets_exceeded = flag_member(text, ",\"octets_exceeded\":")?;
    let is_open = flag_member(text, ",\"open\":")?;
    text.expect("}")?;
    Some(GateDraft {
        is_open,
        ipv,
        admin: ScheduleDraft {
            list,
            cycle,
            extension,
            base,
        },
        invalid_rx,
        octets_exceeded,
    })
}

#[tactic(auto, unfolding(json::specs::Print::escape_byte))]
fn port(alloc: Global, text: &mut Cursor<'_>) -> Option<PortDraft>
    ensures small { IfSome result PortIsSmall }
    ensures text { IfSome result (λ r. text.old ≡ compact_text (draft_data (RecordOf.Port r)) ++ text.new) }
{
    let base = number_member(text, "{\"base\":")?;
    let cycle = number_member(text, ",\"cycle\":")?;
    let extension = number_member(text, ",\"extension\":")?;
    let gates = number_member(text, ",\"gates\":")?;
    text.expect(",\"list\":")?;
    let list = spelled_list(alloc, text, ENTRIES)?;
    text.expect("}")?;
    Some(PortDraft {
        gates,
        admin: ScheduleDraft {
            list,
            cycle,
            extension,
            base,
        },
    })
}

fn key_of_kind(text: &mut Cursor<'_>, kind: Kind) -> Option<KeyDraft>
    ensures { IfSome result (λ k. (k.kind ≡ kind) × IsKey k × (text.old ≡ decimal k.number ++ text.new)) }
{
    let number = text.number()?;
    if number > GREATEST_INSTANCE {
        return None;
    }
    Some(KeyDraft { kind, number })
}

pub fn key(text: &mut Cursor<'_>) -> Option<KeyDraft>
    ensures { IfSome result (λ k. IsKey k × (text.old ≡ spelled_key k.kind k.number ++ text.new)) }
{
    if text.take("port ") {
        return key_of_kind(text, Kind::Port);
    }
    if text.take("filter ") {
        return key_of_kind(text, Kind::Filter);
    }
    if text.take("gate ") {
        return key_of_kind(text, Kind::Gate);
    }
    text.expect("meter ")?;
    key_of_kind(text, Kind::Meter)
}

pub fn kind(text: &mut Cursor<'_>) -> Option<Kind>
    ensures { IfSome result (λ k. text.old ≡ kind_text k ++ text.new) }
{
    let kind = match text.letters() {
        (b'o', _) => Kind::Port,
        (b'i', _) => Kind::Filter,
        (b'a', _) => Kind::Gate,
        _ => Kind::Meter,
    };
    text.expect(name_of(kind))?;
    Some(kind)
}

// A record of that kind.
fn record(alloc: Global, kind: Kind, text: &mut Cursor<'_>) -> Option<RecordDraft>
    ensures small { IfSome result (RecordIsSmall kind) }
    ensures text { IfSome result (λ r. text.old ≡ compact_text (draft_data r) ++ text.new) }
{
    match kind {
        Kind::Port => Some(RecordDraft::Port(port(alloc, text)?)),
        Kind::Filter => Some(RecordDraft::Filter(filter(text)?)),
        Kind::Gate => Some(RecordDraft::Gate(gate(alloc, text)?)),
        Kind::Meter => Some(RecordDraft::Meter(meter(text)?)),
    }
}

pub fn keyed_record(alloc: Global, text: &mut Cursor<'_>) -> Option<(KeyDraft, RecordDraft)>
    ensures { IfSome result (λ p. SpellsRecord text.old p.0 p.1 text.new) }
{
    let key = key(text)?;
    text.expect("\",\"record\":")?;
    let value = record(alloc, key.kind, text)?;
    Some((key, value))
}
