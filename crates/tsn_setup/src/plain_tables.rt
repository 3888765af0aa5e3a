//! The tables of a document in the plain spelling: records of each kind, whose members come in any order.
ghost use Rattle.std.specs.Prelude.{◌≤◌, length, IfSome};
ghost use Rattle.tsn_types.specs.declared.keys.Kind.TheVariants as kinds;
ghost use Rattle.tsn_setup.specs.Plain.{ReadsTableOf};

use crate::drafts::{PlainFilter, PlainGate, PlainMeter, PlainPort, TableDraft};
use crate::gathered::table_lines;
use std::alloc::Global;
use tsn_records::drafts::{
    FilterDraft, GateDraft, MeterDraft, PortDraft, RecordDraft, ScheduleDraft,
};
use tsn_types::keys::Kind;

fn port_table(alloc: Global, text: &str) -> Option<(TableDraft, &str)>
    ensures table { IfSome result (λ p. ReadsTableOf kinds.Port text.now p.0 p.1.now) }
    ensures within { IfSome result (λ p. length p.1.now ≤ length text.now) }
{
    let (found, rest) = table_lines::<PlainPort>(alloc, text)?;
    let id = found.id?;
    let gates = found.gates?;
    let admin = ScheduleDraft::of(found.list, found.cycle, found.extension, found.base)?;
    let value = RecordDraft::Port(PortDraft { gates, admin });
    Some((TableDraft { id, value }, rest))
}

fn filter_table(alloc: Global, text: &str) -> Option<(TableDraft, &str)>
    ensures table { IfSome result (λ p. ReadsTableOf kinds.Filter text.now p.0 p.1.now) }
    ensures within { IfSome result (λ p. length p.1.now ≤ length text.now) }
{
    let (found, rest) = table_lines::<PlainFilter>(alloc, text)?;
    let id = found.id?;
    let value = RecordDraft::Filter(FilterDraft {
        handle: found.handle,
        priority: found.priority,
        gate: found.gate?,
        max_sdu: found.max_sdu,
        meter: found.meter,
        oversize: found.oversize?,
    });
    Some((TableDraft { id, value }, rest))
}

fn gate_table(alloc: Global, text: &str) -> Option<(TableDraft, &str)>
    ensures table { IfSome result (λ p. ReadsTableOf kinds.Gate text.now p.0 p.1.now) }
    ensures within { IfSome result (λ p. length p.1.now ≤ length text.now) }
{
    let (found, rest) = table_lines::<PlainGate>(alloc, text)?;
    let id = found.id?;
    let admin = ScheduleDraft::of(found.list, found.cycle, found.extension, found.base)?;
    let value = RecordDraft::Gate(GateDraft {
        is_open: found.open?,
        ipv: found.ipv,
        admin,
        invalid_rx: found.invalid_rx?,
        octets_exceeded: found.octets_exceeded?,
    });
    Some((TableDraft { id, value }, rest))
}

fn meter_table(alloc: Global, text: &str) -> Option<(TableDraft, &str)>
    ensures table { IfSome result (λ p. ReadsTableOf kinds.Meter text.now p.0 p.1.now) }
    ensures within { IfSome result (λ p. length p.1.now ≤ length text.now) }
{
    let (found, rest) = table_lines::<PlainMeter>(alloc, text)?;
    let id = found.id?;
    let value = RecordDraft::Meter(MeterDraft {
        cir: found.cir?,
        cbs: found.cbs?,
        eir: found.eir?,
        ebs: found.ebs?,
        cf: found.cf?,
        aware: found.aware?,
        drop_yellow: found.drop_yellow?,
        all_red: found.all_red?,
    });
    Some((TableDraft { id, value }, rest))
}

/// A table of that kind, behind its header. None where a member is missing, comes twice, is none of its kind or is
/// spelled in another way, and where memory is refused.
pub fn plain_table(alloc: Global, kind: Kind, text: &str) -> Option<(TableDraft, &str)>
    ensures table { IfSome result (λ p. ReadsTableOf kind text.now p.0 p.1.now) }
    ensures within { IfSome result (λ p. length p.1.now ≤ length text.now) }
{
    match kind {
        Kind::Port => port_table(alloc, text),
        Kind::Filter => filter_table(alloc, text),
        Kind::Gate => gate_table(alloc, text),
        Kind::Meter => meter_table(alloc, text),
    }
}
