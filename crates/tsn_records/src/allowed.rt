//! The members of a setup, of its tables and of records, and what each may be.
//!
//! A table of a setup has the members of its record, and its identifier ahead of them. An entry of a list that is an
//! array has its members in this order.
ghost use Rattle.std.specs.Prelude.{◌≡◌, ◌≤◌, length, map};
ghost use Rattle.tsn_records.specs.Keys.{kind_text};
ghost use Rattle.tsn_records.specs.Members.{names_of, entry_names_of, rows_of};
ghost use Rattle.tsn_records.specs.Values.{most_members};

use tsn_types::keys::Kind;
use tsn_types::limits::{LONGEST_LIST, MOST_INSTANCES};
use tsn_types::numbers::identifiers::{
    GREATEST_HANDLE, GREATEST_INSTANCE, GREATEST_PRIORITY, MOST_PORTS,
};
use tsn_types::numbers::sizes::{GREATEST_BIT_RATE, GREATEST_MAX_SDU, MOST_OCTETS};
use tsn_types::numbers::times::{
    GREATEST_INSTANT, LONGEST_CYCLE, LONGEST_EXTENSION, LONGEST_INTERVAL,
};

/// What a member may be.
#[derive(Clone, Copy, Debug, PartialEq, Eq)]
pub enum Allowed {
    /// A whole number from the least to the most.
    Number(u64, u64),
    /// Such a number, or left out.
    NumberOrNone(u64, u64),
    /// True or false.
    Flag,
    /// An array of so many entries at most.
    List(u64),
    /// An array of tables, or left out.
    Tables,
}

/// A member's name, and what it may be.
pub type Member = (&'static str, Allowed);

/// The members of a document: its limits, and its tables.
pub const DOCUMENT: &'static [Member] = &[
    ("ports", Allowed::NumberOrNone(1, MOST_PORTS)),
    ("max_filters", Allowed::NumberOrNone(1, MOST_INSTANCES)),
    ("max_gates", Allowed::NumberOrNone(1, MOST_INSTANCES)),
    ("max_meters", Allowed::NumberOrNone(1, MOST_INSTANCES)),
    ("list_max", Allowed::NumberOrNone(1, LONGEST_LIST)),
    ("port", Allowed::Tables),
    ("filter", Allowed::Tables),
    ("gate", Allowed::Tables),
    ("meter", Allowed::Tables),
];

const PORT: &'static [Member] = &[
    ("id", Allowed::Number(1, MOST_PORTS)),
    ("gates", Allowed::Number(0, 255)),
    ("list", Allowed::List(LONGEST_LIST)),
    ("cycle", Allowed::Number(1, LONGEST_CYCLE)),
    ("extension", Allowed::Number(0, LONGEST_EXTENSION)),
    ("base", Allowed::Number(0, GREATEST_INSTANT)),
];

const FILTER: &'static [Member] = &[
    ("id", Allowed::Number(0, GREATEST_INSTANCE)),
    ("handle", Allowed::NumberOrNone(0, GREATEST_HANDLE)),
    ("priority", Allowed::NumberOrNone(0, GREATEST_PRIORITY)),
    ("gate", Allowed::Number(0, GREATEST_INSTANCE)),
    ("max_sdu", Allowed::NumberOrNone(1, GREATEST_MAX_SDU)),
    ("meter", Allowed::NumberOrNone(0, GREATEST_INSTANCE)),
    ("oversize", Allowed::Flag),
];

const GATE: &'static [Member] = &[
    ("id", Allowed::Number(0, GREATEST_INSTANCE)),
    ("open", Allowed::Flag),
    ("ipv", Allowed::NumberOrNone(0, GREATEST_PRIORITY)),
    ("list", Allowed::List(LONGEST_LIST)),
    ("cycle", Allowed::Number(1, LONGEST_CYCLE)),
    ("extension", Allowed::Number(0, LONGEST_EXTENSION)),
    ("base", Allowed::Number(0, GREATEST_INSTANT)),
    ("invalid_rx", Allowed::Flag),
    ("octets_exceeded", Allowed::Flag),
];

const METER: &'static [Member] = &[
    ("id", Allowed::Number(0, GREATEST_INSTANCE)),
    ("cir", Allowed::Number(0, GREATEST_BIT_RATE)),
    ("cbs", Allowed::Number(0, MOST_OCTETS)),
    ("eir", Allowed::Number(0, GREATEST_BIT_RATE)),
    ("ebs", Allowed::Number(0, MOST_OCTETS)),
    ("cf", Allowed::Flag),
    ("aware", Allowed::Flag),
    ("drop_yellow", Allowed::Flag),
    ("all_red", Allowed::Flag),
];

const PORT_ENTRY: &'static [Member] = &[
    ("gates", Allowed::Number(0, 255)),
    ("interval", Allowed::Number(1, LONGEST_INTERVAL)),
];

const GATE_ENTRY: &'static [Member] = &[
    ("open", Allowed::Flag),
    ("ipv", Allowed::NumberOrNone(0, GREATEST_PRIORITY)),
    ("interval", Allowed::Number(1, LONGEST_INTERVAL)),
    ("octets", Allowed::NumberOrNone(0, MOST_OCTETS)),
];

/// The kinds of tables, in the order in which they are read.
pub const KINDS: [Kind; 4] = [Kind::Port, Kind::Filter, Kind::Gate, Kind::Meter];

/// The name of a kind, and of the tables of that kind.
pub fn name_of(kind: Kind) -> &'static str
    ensures { result.now ≡ kind_text kind }
{
    match kind {
        Kind::Port => "port",
        Kind::Filter => "filter",
        Kind::Gate => "gate",
        Kind::Meter => "meter",
    }
}

/// The members of a table of the kind.
pub fn members_of(kind: Kind) -> &'static [Member]
    ensures { map (λ member. member.0.now) result.now ≡ names_of kind }
{
    match kind {
        Kind::Port => PORT,
        Kind::Filter => FILTER,
        Kind::Gate => GATE,
        Kind::Meter => METER,
    }
}

/// The members of a record of the kind: those of a table but for its identifier.
pub fn record_members_of(kind: Kind) -> &'static [Member]
    ensures rows { map (λ member. (member.0.now, member.1)) result.now ≡ rows_of kind }
    ensures few { length result.now ≤ most_members }
{
    match kind {
        Kind::Port => &PORT[1..],
        Kind::Filter => &FILTER[1..],
        Kind::Gate => &GATE[1..],
        Kind::Meter => &METER[1..],
    }
}

/// The members of an entry of its list; none where it has no list.
pub fn entry_members_of(kind: Kind) -> &'static [Member]
    ensures { map (λ member. member.0.now) result.now ≡ entry_names_of kind }
{
    match kind {
        Kind::Port => PORT_ENTRY,
        Kind::Gate => GATE_ENTRY,
        Kind::Filter | Kind::Meter => &[],
    }
}
