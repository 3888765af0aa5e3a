//! Every member of every table with a value that is accepted, values outside its range and values of another kind, and
//! documents that are made of them.
use std::alloc::{AllocError, Global};
use tsn_types::refusals::Field;

/// A member, with a value that is accepted, and values that are out of range and that have another shape, parted by
/// spaces. A flag has no range and so no field.
pub struct Row {
    pub name: &'static str,
    pub value: &'static str,
    pub out: &'static str,
    pub wrong: &'static str,
    pub field: Field,
    pub is_optional: bool,
}

const NUMBER: &'static str =
    "-1 -9223372036854775808 1.0 1e0 inf nan true \"1\" [1] {} 1979-05-27 07:32:00 1979-05-27T07:32:00Z";

const FLAG: &'static str = "0 1 1.0 \"true\" [] {} [true] 1979-05-27";

macro_rules! number_row {
    ($name:expr, $value:expr, $out:expr, $field:expr, $optional:expr) => {
        Row {
            name: $name,
            value: $value,
            out: $out,
            wrong: NUMBER,
            field: $field,
            is_optional: $optional,
        }
    };
}

macro_rules! flag_row {
    ($name:expr) => {
        Row {
            name: $name,
            value: "true",
            out: "",
            wrong: FLAG,
            field: Field::Key,
            is_optional: false,
        }
    };
}

const CYCLE: Row = number_row!(
    "cycle",
    "1",
    "0 1000000000001 9223372036854775807",
    Field::Cycle,
    false
);

const EXTENSION: Row = number_row!(
    "extension",
    "0",
    "1000000000001 9223372036854775807",
    Field::Extension,
    false
);

const BASE: Row = number_row!(
    "base",
    "0",
    "4611686018427387905 9223372036854775807",
    Field::Base,
    false
);

const INSTANCE: Row = number_row!("id", "0", "65536 9223372036854775807", Field::Id, false);

/// The limits, in the order in which their ranges are tested.
pub const LIMITS: [Row; 5] = [
    number_row!("ports", "1", "0 65 9223372036854775807", Field::Ports, true),
    number_row!(
        "max_filters",
        "1",
        "0 65537 9223372036854775807",
        Field::MaxFilters,
        true
    ),
    number_row!(
        "max_gates",
        "1",
        "0 65537 9223372036854775807",
        Field::MaxGates,
        true
    ),
    number_row!(
        "max_meters",
        "1",
        "0 65537 9223372036854775807",
        Field::MaxMeters,
        true
    ),
    number_row!(
        "list_max",
        "1",
        "0 4097 9223372036854775807",
        Field::ListMax,
        true
    ),
];

const PORT: [Row; 6] = [
    number_row!("id", "1", "0 65 9223372036854775807", Field::Id, false),
    number_row!("gates", "0", "256 9223372036854775807", Field::Gates, false),
    Row {
        name: "list",
        value: "[]",
        out: "[{gates=256,interval=1}] [{gates=0,interval=0}] [{gates=0,interval=4294967296}] [{gates=1,interval=300},{gates=128,interval=0}]",
        wrong: "0 {} \"[]\" [1] [[1,300]] [{}] [{gates=1}] [{interval=1}] [{gates=1,interval=1,open=true}] [{gates=-1,interval=1}] [{gates=1,interval=-1}] [{gates=1.0,interval=1}] [{gates=true,interval=1}] [{gates=1,interval=1},{}]",
        field: Field::List,
        is_optional: false,
    },
    CYCLE,
    EXTENSION,
    BASE,
];

const FILTER: [Row; 7] = [
    INSTANCE,
    number_row!(
        "handle",
        "0",
        "4294967296 9223372036854775807",
        Field::Handle,
        true
    ),
    number_row!(
        "priority",
        "0",
        "8 9223372036854775807",
        Field::Priority,
        true
    ),
    number_row!("gate", "0", "65536 9223372036854775807", Field::Gate, false),
    number_row!(
        "max_sdu",
        "1",
        "0 65536 9223372036854775807",
        Field::MaxSdu,
        true
    ),
    number_row!(
        "meter",
        "0",
        "65536 9223372036854775807",
        Field::Meter,
        true
    ),
    flag_row!("oversize"),
];

const GATE: [Row; 9] = [
    INSTANCE,
    flag_row!("open"),
    number_row!("ipv", "0", "8 9223372036854775807", Field::Ipv, true),
    Row {
        name: "list",
        value: "[]",
        out: "[{open=true,ipv=8,interval=1}] [{open=true,interval=0}] [{open=true,interval=4294967296}] [{open=true,interval=1,octets=4294967296}] [{open=true,interval=1},{open=true,interval=0}]",
        wrong: "0 {} \"[]\" [1] [[true,1]] [{}] [{open=true}] [{interval=1}] [{open=1,interval=1}] [{open=true,interval=1,gates=1}] [{open=true,ipv=-1,interval=1}] [{open=true,ipv=\"\",interval=1}] [{open=true,interval=1.0}] [{open=true,interval=1,octets=true}] [{open=true,interval=1},{}]",
        field: Field::List,
        is_optional: false,
    },
    CYCLE,
    EXTENSION,
    BASE,
    flag_row!("invalid_rx"),
    flag_row!("octets_exceeded"),
];

const METER: [Row; 9] = [
    INSTANCE,
    number_row!(
        "cir",
        "0",
        "1000000000001 9223372036854775807",
        Field::Cir,
        false
    ),
    number_row!(
        "cbs",
        "0",
        "4294967296 9223372036854775807",
        Field::Cbs,
        false
    ),
    number_row!(
        "eir",
        "0",
        "1000000000001 9223372036854775807",
        Field::Eir,
        false
    ),
    number_row!(
        "ebs",
        "0",
        "4294967296 9223372036854775807",
        Field::Ebs,
        false
    ),
    flag_row!("cf"),
    flag_row!("aware"),
    flag_row!("drop_yellow"),
    flag_row!("all_red"),
];

/// The header of a kind of table, with its members.
pub type Kind = (&'static str, &'static [Row]);

/// Each kind of table, in the order in which they are tested, with its members in that order.
pub fn kinds() -> &'static [Kind] {
    KINDS
}

const KINDS: &'static [Kind] = &[
    ("", &LIMITS),
    ("[[port]]\n", &PORT),
    ("[[filter]]\n", &FILTER),
    ("[[gate]]\n", &GATE),
    ("[[meter]]\n", &METER),
];

/// A port with two list entries that fill its cycle.
pub const EXAMPLE: &'static str =
    "[[port]]\nid = 1\ngates = 255\ncycle = 1000\nextension = 0\nbase = 0\nlist = [{gates = 1, interval = 300}, {gates = 128, interval = 700}]\n";

/// What some members are given in place of the values that are accepted, each by its place.
pub type Changes<'a> = &'a [(usize, &'a str)];

/// The member's value: the last change of it, else the one that is accepted.
fn text_of<'a>(index: usize, row: &Row, changes: Changes<'a>) -> &'a str {
    let mut text = row.value;
    for (place, changed) in changes {
        if *place == index {
            text = changed;
        }
    }
    text
}

/// Puts a member with what stands behind its name and behind its value, unless it is left out.
fn push_member(
    text: &mut String,
    index: usize,
    row: &Row,
    changes: Changes,
    equals: &str,
    end: &str,
) -> Result<(), AllocError> {
    let value = text_of(index, row, changes);
    if value.is_empty() {
        return Ok(());
    }
    text.push_str(row.name)?;
    text.push_str(equals)?;
    text.push_str(value)?;
    text.push_str(end)
}

/// The members with these changes, one in a line. The empty text leaves a member out.
pub fn members_text(alloc: Global, kind: &Kind, changes: Changes) -> Result<String, AllocError> {
    let (header, rows) = *kind;
    let mut text = String::from_str(alloc, header)?;
    for (index, row) in rows.iter().enumerate() {
        push_member(&mut text, index, row, changes, " = ", "\n")?;
    }
    Ok(text)
}

/// The same members, from the last to the first.
pub fn members_backwards(
    alloc: Global,
    kind: &Kind,
    changes: Changes,
) -> Result<String, AllocError> {
    let (header, rows) = *kind;
    let mut text = String::from_str(alloc, header)?;
    for (index, row) in rows.iter().enumerate().rev() {
        push_member(&mut text, index, row, changes, "=", "\r\n")?;
    }
    Ok(text)
}
