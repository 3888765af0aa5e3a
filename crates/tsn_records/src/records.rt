//! The shapes of records: of which kinds the members of each are, in any text format.
//!
//! A record has exactly its members, in any order. What stands for none, or for a wildcard, is the format's.
//! Lists of entries take memory; nothing else does.
ghost use Rattle.std.specs.Prelude.{◌≡◌, ◌≤◌, Result, length, map, option_map};
ghost use Rattle.tsn_records.specs.declared.unread.Unread.{Unread};
ghost use Rattle.tsn_records.specs.Answers.{Reads, each};
ghost use Rattle.tsn_records.specs.Looks.{Look};
ghost use Rattle.tsn_records.specs.Values.{most_members};
ghost use Rattle.tsn_records.specs.Records.{port_entry_shape, gate_entry_shape, list_shape, member_shape, members_shape, record_shape};

use crate::allowed::{Allowed, Member, record_members_of};
use crate::drafts::{GateEntryDraft, MemberDraft, PortEntryDraft, RecordDraft};
use crate::formats::Format;
use crate::unread::Unread;
use crate::values::{Values, typed};
use std::alloc::Global;
use tsn_types::keys::Kind;
use tsn_types::lists::ControlList;

/// An entry of a gate control list, as a format shows it.
trait EntryShape: Drop {
    ghost shape: { (D : Type 0) → Look D → D → Result Self Unread };

    /// The entry that the value is, or refusal 3.
    fn of_value<F: Format>(value: &F::Value) -> Result<Self, Unread>
        ensures { result ≡ shape F.View F.look (F.view value.now) };
}

impl EntryShape for PortEntryDraft {
    ghost shape = { λ D. port_entry_shape };

    #[tactic(auto, unfolding(crate::specs::Records::port_entry_shape))]
    fn of_value<F: Format>(value: &F::Value) -> Result<Self, Unread> {
        F::only_entry(Kind::Port, value)?;
        let gates = F::number(F::part(0, "gates", value))?;
        let interval = F::number(F::part(1, "interval", value))?;
        Ok(PortEntryDraft { gates, interval })
    }
}

impl EntryShape for GateEntryDraft {
    ghost shape = { λ D. gate_entry_shape };

    #[tactic(auto, unfolding(crate::specs::Records::gate_entry_shape))]
    fn of_value<F: Format>(value: &F::Value) -> Result<Self, Unread> {
        F::only_entry(Kind::Gate, value)?;
        let is_open = F::flag(F::part(0, "open", value))?;
        let ipv = F::number_or_none(F::part(1, "ipv", value))?;
        let interval = F::number(F::part(2, "interval", value))?;
        let octets = F::number_or_none(F::part(3, "octets", value))?;
        Ok(GateEntryDraft {
            is_open,
            ipv,
            interval,
            octets,
        })
    }
}

fn entries<F: Format, E: EntryShape>(
    alloc: Global,
    values: &[F::Value],
) -> Result<ControlList<E>, Unread>
    ensures { Reads result (each (E.shape F.View F.look) (map F.view values.now)) }
{
    let mut list = ControlList::new(alloc);
    'values: for value in values {
        let entry = E::of_value::<F>(value)?;
        list.push(entry)?;
    }
    Ok(list)
}

// The entries that a list has.
fn list_shape<F: Format, E: EntryShape>(
    alloc: Global,
    found: Option<&F::Value>,
) -> Result<ControlList<E>, Unread>
    ensures { Reads result (list_shape F.look (E.shape F.View F.look) (option_map (λ v. F.view v.now) found.entry)) }
{
    let items = F::items(found)?;
    entries::<F, E>(alloc, items)
}

// A member of a record of the kind, as its row of the table wants it.
#[tactic(auto, unfolding(crate::specs::Records::member_shape))]
fn member_shape<F: Format>(
    alloc: Global,
    kind: Kind,
    allowed: Allowed,
    found: Option<&F::Value>,
) -> Result<MemberDraft, Unread>
    ensures { Reads result (member_shape F.look kind allowed (option_map (λ v. F.view v.now) found.entry)) }
{
    match (allowed, kind) {
        (Allowed::Number(_, _), _) => Ok(MemberDraft::Number(F::number(found)?)),
        (Allowed::NumberOrNone(_, _), _) => Ok(MemberDraft::Maybe(F::number_or_none(found)?)),
        (Allowed::Flag, _) => Ok(MemberDraft::Flag(F::flag(found)?)),
        (Allowed::List(_), Kind::Port) => {
            Ok(MemberDraft::PortList(list_shape::<F, PortEntryDraft>(alloc, found)?))
        }
        (Allowed::List(_), Kind::Gate) => {
            Ok(MemberDraft::GateList(list_shape::<F, GateEntryDraft>(alloc, found)?))
        }
        _ => Err(Unread::Shape),
    }
}

// The members of these rows, one behind the other.
fn members_of_rows<F: Format>(
    alloc: Global,
    kind: Kind,
    rows: &[Member],
    value: &F::Value,
) -> Result<Values, Unread>
    requires { length rows.now ≤ most_members }
    ensures { Reads result (each (λ row. member_shape F.look kind row.1 (F.look.at row.0.now (F.view value.now))) rows.now) }
{
    let mut values = Values::new();
    'rows: for row in rows {
        let read = member_shape::<F>(alloc, kind, row.1, F::at(row.0, value))?;
        values.push(read);
    }
    Ok(values)
}

// The members of a record of the kind, in the order of the table.
fn members_shape<F: Format>(alloc: Global, kind: Kind, value: &F::Value) -> Result<Values, Unread>
    ensures { Reads result (members_shape F.look kind (F.view value.now)) }
{
    members_of_rows::<F>(alloc, kind, record_members_of(kind), value)
}

/// The record that the value is, of that kind; refusal 3 where it has other members.
#[tactic(auto, unfolding(crate::specs::Records::record_shape))]
pub fn record_shape<F: Format>(
    alloc: Global,
    kind: Kind,
    value: &F::Value,
) -> Result<RecordDraft, Unread>
    ensures { Reads result (record_shape F.look kind (F.view value.now)) }
{
    F::only(kind, value)?;
    let mut values = members_shape::<F>(alloc, kind, value)?;
    Ok(typed(alloc, kind, &mut values))
}
