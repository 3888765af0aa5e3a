//! Records whose members come in any order.
ghost use Rattle.std.specs.Prelude.{◌≡◌, IfSome};
ghost use Rattle.tsn_records.specs.Shown.{draft_data};
ghost use Rattle.tsn_records.specs.declared.drafts.RecordDraft.TheVariants as records;
ghost use Rattle.tsn_wire.specs.Lexed.{lexed, ReadsValue};
ghost use Rattle.tsn_wire.specs.Members.{AreOpen, ReadsMembers};
ghost use Rattle.tsn_wire.specs.Rows.{port_rows, filter_rows, gate_rows, meter_rows, AllTold, members_of};

use crate::cursor::Cursor;
use crate::gathered::{FilterMembers, GateMembers, MeterMembers, PortMembers};
use crate::members::{Gathered, members};
use std::alloc::Global;
use tsn_records::drafts::{
    FilterDraft, GateDraft, MeterDraft, PortDraft, RecordDraft, ScheduleDraft,
};
use tsn_types::keys::Kind;

fn port_of(found: PortMembers) -> Option<PortDraft>
    ensures { IfSome result (λ r. AllTold (port_rows found) (members_of (draft_data (records.Port r)))) }
{
    let gates = found.gates?;
    let admin = ScheduleDraft::of(found.list, found.cycle, found.extension, found.base)?;
    Some(PortDraft { gates, admin })
}

fn filter_of(found: FilterMembers) -> Option<FilterDraft>
    ensures { IfSome result (λ r. AllTold (filter_rows found) (members_of (draft_data (records.Filter r)))) }
{
    Some(FilterDraft {
        handle: found.handle?,
        priority: found.priority?,
        gate: found.gate?,
        max_sdu: found.max_sdu?,
        meter: found.meter?,
        oversize: found.oversize?,
    })
}

fn gate_of(found: GateMembers) -> Option<GateDraft>
    ensures { IfSome result (λ r. AllTold (gate_rows found) (members_of (draft_data (records.Gate r)))) }
{
    let admin = ScheduleDraft::of(found.list, found.cycle, found.extension, found.base)?;
    Some(GateDraft {
        is_open: found.open?,
        ipv: found.ipv?,
        admin,
        invalid_rx: found.invalid_rx?,
        octets_exceeded: found.octets_exceeded?,
    })
}

fn meter_of(found: MeterMembers) -> Option<MeterDraft>
    ensures { IfSome result (λ r. AllTold (meter_rows found) (members_of (draft_data (records.Meter r)))) }
{
    Some(MeterDraft {
        cir: found.cir?,
        cbs: found.cbs?,
        eir: found.eir?,
        ebs: found.ebs?,
        cf: found.cf?,
        aware: found.aware?,
        drop_yellow: found.drop_yellow?,
        all_red: found.all_red?,
    })
}

// An object of so many members.
fn exactly<M: Gathered>(
    alloc: Global,
    text: &mut Cursor<'_>,
    found: &mut M,
    count: u32,
) -> Option<()>
    requires { AreOpen (M.rows found.old) }
    ensures { IfSome result (λ _. ReadsMembers M.nesting (lexed text.old) (M.rows found.new) count (lexed text.new)) }
{
    let read = members(alloc, text, found)?;
    if read == count { Some(()) } else { None }
}

// The members of an object that has just so many of them.
macro_rules! just {
    ($alloc:ident, $text:ident, $members:ident, $count:expr) => {{
        let mut found = $members::default();
        exactly($alloc, $text, &mut found, $count)?;
        found
    }};
}

/// A record of that kind.
pub fn record(alloc: Global, kind: Kind, text: &mut Cursor<'_>) -> Option<RecordDraft>
    ensures { IfSome result (λ r. ReadsValue 3 (lexed text.old) (draft_data r) (lexed text.new)) }
{
    match kind {
        Kind::Port => Some(RecordDraft::Port(port_of(just!(alloc, text, PortMembers, 5))?)),
        Kind::Filter => Some(RecordDraft::Filter(filter_of(just!(alloc, text, FilterMembers, 6))?)),
        Kind::Gate => Some(RecordDraft::Gate(gate_of(just!(alloc, text, GateMembers, 8))?)),
        Kind::Meter => Some(RecordDraft::Meter(meter_of(just!(alloc, text, MeterMembers, 8))?)),
    }
}
