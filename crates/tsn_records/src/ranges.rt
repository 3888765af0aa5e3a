//! The ranges of a draft's numbers, tested in the order in which the members are listed.
//!
//! The first number outside its range is refused, with its member's name; inside a list entry that is `list`. Whether
//! an identifier or a list is within a bridge's limits is not tested here. Lists of entries take memory; nothing else
//! does.
ghost use Rattle.std.specs.Prelude.{◌≡◌, ◌^◌, ℕ, List, Result, Ok, Err, IfOk, OnErr};
ghost use Rattle.tsn_types.specs.declared.refusals.Field.TheVariants as fields;
ghost use Rattle.tsn_records.specs.declared.unread.Unread.{Unread};
ghost use Rattle.tsn_records.specs.Answers.{Reads, each};
ghost use Rattle.tsn_types.specs.Numbers.{greatest_handle, greatest_instant, greatest_priority};
ghost use Rattle.tsn_records.specs.Ranges.{within, port_entry, gate_entry, schedule, port, gate, filter, meter, record_of, key};

use crate::drafts::{
    FilterDraft, GateDraft, GateEntryDraft, KeyDraft, MeterDraft, PortDraft, PortEntryDraft,
    RecordDraft, ScheduleDraft,
};
use crate::unread::Unread;
use std::alloc::Global;
use tsn_types::keys::{Key, Kind};
use tsn_types::lists::ControlList;
use tsn_types::numbers::{
    BitRate, Cycle, Extension, FilterId, GateId, Handle, Instant, Interval, MaxSdu, MeterId,
    Octets, PortId, Priority,
};
use tsn_types::records::{
    FlowMeter, GateEntry, PortEntry, PortGates, Record, Schedule, StreamFilter, StreamGate,
};
use tsn_types::refusals::Field;

// What was read, or refusal 4 of the member.
fn in_range<T: Drop, E: Drop>(read: Result<T, E>, field: Field) -> Result<T, Unread>
    ensures ok { IfOk read (λ value. result ≡ Ok value) }
    ensures err { OnErr read (result ≡ Err (Unread.Range field)) }
{
    read.map_err(|_| Unread::Range(field))
}

/// The priority, or refusal 4 of the member.
pub fn priority(number: u64, field: Field) -> Result<Priority, Unread>
    ensures { result ≡ within field 0 greatest_priority number }
{
    in_range(Priority::new(number), field)
}

/// The stream handle, or refusal 4 of the member `handle`.
pub fn handle(number: u64) -> Result<Handle, Unread>
    ensures { result ≡ within fields.Handle 0 greatest_handle number }
{
    in_range(Handle::new(number), Field::Handle)
}

/// The instant, or refusal 4 of the member.
pub fn instant(number: u64, field: Field) -> Result<Instant, Unread>
    ensures { result ≡ within field 0 greatest_instant number }
{
    in_range(Instant::new(number), field)
}

/// An entry of a gate control list, whose numbers are tested.
trait EntryRange: Drop {
    type Draft;

    ghost in_range: { Self.Draft → Result Self Unread };

    fn of_draft(draft: &Self::Draft) -> Result<Self, Unread>
        ensures { result ≡ in_range draft.now };
}

impl EntryRange for PortEntry {
    type Draft = PortEntryDraft;

    ghost in_range = { port_entry };

    #[tactic(auto, unfolding(crate::specs::Ranges::port_entry))]
    fn of_draft(draft: &PortEntryDraft) -> Result<PortEntry, Unread> {
        let gates = in_range(u8::try_from(draft.gates), Field::List)?;
        let interval = in_range(Interval::new(draft.interval), Field::List)?;
        Ok(PortEntry { gates, interval })
    }
}

impl EntryRange for GateEntry {
    type Draft = GateEntryDraft;

    ghost in_range = { gate_entry };

    #[tactic(auto, unfolding(crate::specs::Ranges::gate_entry))]
    fn of_draft(draft: &GateEntryDraft) -> Result<GateEntry, Unread> {
        Ok(GateEntry {
            is_open: draft.is_open,
            ipv: in_range(draft.ipv.map(Priority::new).transpose(), Field::List)?,
            interval: in_range(Interval::new(draft.interval), Field::List)?,
            octets: in_range(draft.octets.map(Octets::new).transpose(), Field::List)?,
        })
    }
}

fn entries<E: EntryRange>(alloc: Global, drafts: &[E::Draft]) -> Result<ControlList<E>, Unread>
    ensures { Reads result (each E.in_range drafts.now) }
{
    let mut list = ControlList::new(alloc);
    'drafts: for draft in drafts {
        let entry = E::of_draft(draft)?;
        list.push(entry)?;
    }
    Ok(list)
}

#[tactic(auto, unfolding(crate::specs::Ranges::schedule))]
fn schedule<E: EntryRange>(
    alloc: Global,
    draft: &ScheduleDraft<E::Draft>,
) -> Result<Schedule<E>, Unread>
    ensures { Reads result (schedule E.in_range draft.now) }
{
    let list = entries(alloc, draft.list.as_slice())?;
    let cycle = in_range(Cycle::new(draft.cycle), Field::Cycle)?;
    let extension = in_range(Extension::new(draft.extension), Field::Extension)?;
    let base = instant(draft.base, Field::Base)?;
    Ok(Schedule {
        list,
        cycle,
        extension,
        base,
    })
}

#[tactic(auto, unfolding(crate::specs::Ranges::port))]
fn port(alloc: Global, draft: &PortDraft) -> Result<PortGates, Unread>
    ensures { Reads result (port draft.now) }
{
    let gates = in_range(u8::try_from(draft.gates), Field::Gates)?;
    let admin = schedule(alloc, &draft.admin)?;
    Ok(PortGates { gates, admin })
}

#[tactic(auto, unfolding(crate::specs::Ranges::gate))]
fn gate(alloc: Global, draft: &GateDraft) -> Result<StreamGate, Unread>
    ensures { Reads result (gate draft.now) }
{
    let ipv = in_range(draft.ipv.map(Priority::new).transpose(), Field::Ipv)?;
    let admin = schedule(alloc, &draft.admin)?;
    Ok(StreamGate {
        is_open: draft.is_open,
        ipv,
        invalid_rx: draft.invalid_rx,
        octets_exceeded: draft.octets_exceeded,
        admin,
    })
}

#[tactic(auto, unfolding(crate::specs::Ranges::filter))]
fn filter(draft: &FilterDraft) -> Result<StreamFilter, Unread>
    ensures { result ≡ filter draft.now }
{
    Ok(StreamFilter {
        handle: in_range(draft.handle.map(Handle::new).transpose(), Field::Handle)?,
        priority: in_range(
            draft.priority.map(Priority::new).transpose(),
            Field::Priority,
        )?,
        gate: in_range(GateId::new(draft.gate), Field::Gate)?,
        max_sdu: in_range(draft.max_sdu.map(MaxSdu::new).transpose(), Field::MaxSdu)?,
        meter: in_range(draft.meter.map(MeterId::new).transpose(), Field::Meter)?,
        oversize: draft.oversize,
    })
}

#[tactic(auto, unfolding(crate::specs::Ranges::meter))]
fn meter(draft: &MeterDraft) -> Result<FlowMeter, Unread>
    ensures { result ≡ meter draft.now }
{
    Ok(FlowMeter {
        cir: in_range(BitRate::new(draft.cir), Field::Cir)?,
        cbs: in_range(Octets::new(draft.cbs), Field::Cbs)?,
        eir: in_range(BitRate::new(draft.eir), Field::Eir)?,
        ebs: in_range(Octets::new(draft.ebs), Field::Ebs)?,
        cf: draft.cf,
        aware: draft.aware,
        drop_yellow: draft.drop_yellow,
        all_red: draft.all_red,
    })
}

/// The record that the draft is, or the first number that is outside its range.
pub fn record_of(alloc: Global, draft: &RecordDraft) -> Result<Record, Unread>
    ensures { Reads result (record_of draft.now) }
{
    match draft {
        RecordDraft::Port(draft) => Ok(Record::Port(port(alloc, draft)?)),
        RecordDraft::Filter(draft) => Ok(Record::Filter(filter(draft)?)),
        RecordDraft::Gate(draft) => Ok(Record::Gate(gate(alloc, draft)?)),
        RecordDraft::Meter(draft) => Ok(Record::Meter(meter(draft)?)),
    }
}

/// The key that the draft is, or refusal 4 of the member `key`.
pub fn key(draft: KeyDraft) -> Result<Key, Unread>
    ensures { result ≡ key draft }
{
    let read = match draft.kind {
        Kind::Port => PortId::new(draft.number).map(Key::Port),
        Kind::Filter => FilterId::new(draft.number).map(Key::Filter),
        Kind::Gate => GateId::new(draft.number).map(Key::Gate),
        Kind::Meter => MeterId::new(draft.number).map(Key::Meter),
    };
    in_range(read, Field::Key)
}
