//! The members of a record as values, in the order of the table of members, and the draft that they make.
//!
//! Readers that go by the table read a record so; which member is which is said here alone.
ghost use Rattle.std.specs.Prelude.{◌≡◌, ◌++◌, ◌∷◌, ◌<◌, [], length, ℕ};
ghost use Rattle.tsn_records.specs.declared.drafts.MemberDraft.TheVariants.{Unread};
ghost use Rattle.tsn_types.specs.declared.keys.Kind.TheVariants as kinds;
ghost use Rattle.tsn_records.specs.declared.drafts.RecordDraft.TheVariants as RecordOf;
ghost use Rattle.tsn_records.specs.Values.{entries_of_gate, entries_of_port, flag_in, most_members, number_in, number_or_none_in, typed, value_at};

use crate::drafts::{
    FilterDraft, GateDraft, GateEntryDraft, MemberDraft, MeterDraft, PortDraft, PortEntryDraft,
    RecordDraft, ScheduleDraft,
};
use std::alloc::Global;
use std::marker::Model;
use std::mem;
use tsn_types::keys::Kind;
use tsn_types::lists::ControlList;

/// How many members a record has at most.
pub const MOST_MEMBERS: usize = 8;

/// The members of a record, as far as they were read. Contracts see them as a list.
#[derive(Debug, Drop)]
pub struct Values {
    items: [MemberDraft; MOST_MEMBERS],
    len: usize,
}

impl Model for Values {
    ghost use Rattle.std.specs.Prelude.{◌≡◌, ◌≤◌, ℕ, List, take};
    ghost use Rattle.tsn_records.specs.Values.{most_members, value_at};
    ghost use Rattle.tsn_records.specs.declared.drafts.MemberDraft.{MemberDraft};
    ghost use Rattle.tsn_records.specs.declared.drafts.MemberDraft.TheVariants.{Unread};

    ghost Value = { List MemberDraft };

    ghost view = { λ a. take a.len a.items };

    ghost invariant = { λ a. (a.len ≤ most_members) × ((i : ℕ) → a.len ≤ i → value_at i a.items ≡ Unread) };
}

impl Values {
    /// No member.
    pub fn new() -> Values
        ensures { result ≡ [] }
    {
        Values {
            items: [
                MemberDraft::Unread,
                MemberDraft::Unread,
                MemberDraft::Unread,
                MemberDraft::Unread,
                MemberDraft::Unread,
                MemberDraft::Unread,
                MemberDraft::Unread,
                MemberDraft::Unread,
            ],
            len: 0,
        }
    }

    /// Puts a member behind the others.
    pub fn push(&mut self, value: MemberDraft)
        requires { length self.old < most_members }
        ensures { self.new ≡ self.old ++ value ∷ [] }
    {
        self.items[self.len] = value;
        self.len += 1;
    }

    // The number of the member at the place, where it is one.
    fn number(&self, place: usize) -> u64
        requires { place < most_members }
        ensures { result ≡ number_in (value_at place self.now) }
    {
        match &self.items[place] {
            MemberDraft::Number(number) => *number,
            _ => 0,
        }
    }

    // The same, where it may stand for none.
    fn number_or_none(&self, place: usize) -> Option<u64>
        requires { place < most_members }
        ensures { result ≡ number_or_none_in (value_at place self.now) }
    {
        match &self.items[place] {
            MemberDraft::Maybe(number) => *number,
            _ => None,
        }
    }

    fn flag(&self, place: usize) -> bool
        requires { place < most_members }
        ensures { result ≡ flag_in (value_at place self.now) }
    {
        matches!(&self.items[place], MemberDraft::Flag(true))
    }

    // Takes the entries of a port's list at the place out.
    fn take_port_entries(&mut self, alloc: Global, place: usize) -> ControlList<PortEntryDraft>
        requires { place < most_members }
        ensures list { result ≡ entries_of_port (value_at place self.old) }
        ensures others { (i : ℕ) → (i ≡ place → ⊥) → value_at i self.new ≡ value_at i self.old }
    {
        match mem::replace(&mut self.items[place], MemberDraft::Unread) {
            MemberDraft::PortList(list) => list,
            _ => ControlList::new(alloc),
        }
    }

    // Those of a stream gate's.
    fn take_gate_entries(&mut self, alloc: Global, place: usize) -> ControlList<GateEntryDraft>
        requires { place < most_members }
        ensures list { result ≡ entries_of_gate (value_at place self.old) }
        ensures others { (i : ℕ) → (i ≡ place → ⊥) → value_at i self.new ≡ value_at i self.old }
    {
        match mem::replace(&mut self.items[place], MemberDraft::Unread) {
            MemberDraft::GateList(list) => list,
            _ => ControlList::new(alloc),
        }
    }
}

#[tactic(auto, unfolding(crate::specs::Values::typed))]
fn port(alloc: Global, values: &mut Values) -> PortDraft
    ensures { RecordOf.Port result ≡ typed kinds.Port values.old }
{
    let list = values.take_port_entries(alloc, 1);
    PortDraft {
        gates: values.number(0),
        admin: ScheduleDraft {
            list,
            cycle: values.number(2),
            extension: values.number(3),
            base: values.number(4),
        },
    }
}

#[tactic(auto, unfolding(crate::specs::Values::typed))]
fn filter(values: &Values) -> FilterDraft
    ensures { RecordOf.Filter result ≡ typed kinds.Filter values.now }
{
    FilterDraft {
        handle: values.number_or_none(0),
        priority: values.number_or_none(1),
        gate: values.number(2),
        max_sdu: values.number_or_none(3),
        meter: values.number_or_none(4),
        oversize: values.flag(5),
    }
}

#[tactic(auto, unfolding(crate::specs::Values::typed))]
fn gate(alloc: Global, values: &mut Values) -> GateDraft
    ensures { RecordOf.Gate result ≡ typed kinds.Gate values.old }
{
    let list = values.take_gate_entries(alloc, 2);
    GateDraft {
        is_open: values.flag(0),
        ipv: values.number_or_none(1),
        admin: ScheduleDraft {
            list,
            cycle: values.number(3),
            extension: values.number(4),
            base: values.number(5),
        },
        invalid_rx: values.flag(6),
        octets_exceeded: values.flag(7),
    }
}

#[tactic(auto, unfolding(crate::specs::Values::typed))]
fn meter(values: &Values) -> MeterDraft
    ensures { RecordOf.Meter result ≡ typed kinds.Meter values.now }
{
    MeterDraft {
        cir: values.number(0),
        cbs: values.number(1),
        eir: values.number(2),
        ebs: values.number(3),
        cf: values.flag(4),
        aware: values.flag(5),
        drop_yellow: values.flag(6),
        all_red: values.flag(7),
    }
}

/// The record of the kind that has these members. It takes their lists out.
pub fn typed(alloc: Global, kind: Kind, values: &mut Values) -> RecordDraft
    ensures { result ≡ typed kind values.old }
{
    match kind {
        Kind::Port => RecordDraft::Port(port(alloc, values)),
        Kind::Filter => RecordDraft::Filter(filter(values)),
        Kind::Gate => RecordDraft::Gate(gate(alloc, values)),
        Kind::Meter => RecordDraft::Meter(meter(values)),
    }
}
