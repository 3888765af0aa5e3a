//! Which member a refusal names: of every table every member outside its range, of another kind, left out, and with
//! another member at fault.
use crate::comparing::same;
use crate::setup::samples::{EXAMPLE, Kind, Row, kinds, members_backwards, members_text};
use std::alloc::Global;
use std::process::Abort;
use std::test::Fail;
use tsn_bridge::bridge::Bridge;
use tsn_setup::setup_of;
use tsn_types::keys::Key;
use tsn_types::numbers::GateId;
use tsn_types::refusals::{Field, Refusal};

/// The refusal of a document, none where it is read; an error where memory is refused.
pub fn refusal_of(alloc: Global, text: &[u8]) -> Result<Option<Refusal>, Fail> {
    match setup_of(alloc, text) {
        Ok(_setup) => Ok(None),
        Err(Refusal::Memory) => Err(Fail::from("out of memory")),
        Err(refusal) => Ok(Some(refusal)),
    }
}

/// The document is refused so, or is read.
pub fn reads(
    rt: &impl Abort,
    alloc: Global,
    text: &[u8],
    want: Option<Refusal>,
) -> Result<(), Fail> {
    assert_eq!(rt; refusal_of(alloc, text)?, want, "at {text:?}");
    Ok(())
}

/// The refusal of the document with these changes: the same in both orders of the members.
fn refusal(alloc: Global, kind: &Kind, changes: &[(usize, &str)]) -> Result<Option<Refusal>, Fail> {
    let text = members_text(alloc, kind, changes)?;
    let found = refusal_of(alloc, text.as_bytes())?;
    let text = members_backwards(alloc, kind, changes)?;
    if refusal_of(alloc, text.as_bytes())? != found {
        return Err(Fail::from("in another order it is read otherwise"));
    }
    Ok(found)
}

/// The document with these changes is refused so, or is read.
fn gives(
    rt: &impl Abort,
    alloc: Global,
    kind: &Kind,
    changes: &[(usize, &str)],
    want: Option<Refusal>,
) -> Result<(), Fail> {
    let found = refusal(alloc, kind, changes)?;
    let (header, _rows) = *kind;
    assert_eq!(rt; found, want, "{header} with {changes:?}");
    Ok(())
}

/// One member with each of these texts, which are parted by spaces.
fn with_each_text(
    rt: &impl Abort,
    alloc: Global,
    kind: &Kind,
    index: usize,
    texts: &str,
    want: &Option<Refusal>,
) -> Result<(), Fail> {
    for text in texts.split(' ') {
        gives(rt, alloc, kind, &[(index, text)], *want)?;
    }
    Ok(())
}

/// A member of a kind's table, with its place there.
#[derive(Clone, Copy)]
struct Member<'a> {
    kind: &'a Kind,
    index: usize,
    row: &'a Row,
}

/// One member with each value that is out of range or of another kind.
fn with_each_value(rt: &impl Abort, alloc: Global, member: &Member<'_>) -> Result<(), Fail> {
    let Member { kind, index, row } = *member;
    if !row.out.is_empty() {
        let want = Some(Refusal::Range(row.field));
        with_each_text(rt, alloc, kind, index, row.out, &want)?;
    }
    with_each_text(rt, alloc, kind, index, row.wrong, &Some(Refusal::Shape))
}

/// One member left out, and of a value that has more bits than a number may.
fn without(rt: &impl Abort, alloc: Global, member: &Member<'_>) -> Result<(), Fail> {
    let Member { kind, index, row } = *member;
    let want = if row.is_optional {
        None
    } else {
        Some(Refusal::Shape)
    };
    gives(rt, alloc, kind, &[(index, "")], want)?;
    let longer = &[(index, "9223372036854775808")];
    gives(rt, alloc, kind, longer, Some(Refusal::Syntax))
}

/// A value out of range, or the empty text.
fn out_of(row: &Row) -> &'static str {
    row.out.split(' ').next().unwrap_or("")
}

/// With one member out of range, another that is out of range too or of another shape.
fn with_each_other(rt: &impl Abort, alloc: Global, member: &Member<'_>) -> Result<(), Fail> {
    let Member {
        kind,
        index: first,
        row,
    } = *member;
    let out = out_of(row);
    let (_header, rows) = *kind;
    for (second, other) in rows.iter().enumerate() {
        let later = out_of(other);
        if first < second && !later.is_empty() {
            let want = Some(Refusal::Range(row.field));
            gives(rt, alloc, kind, &[(first, out), (second, later)], want)?;
        }
        if first != second {
            let wrong = other.wrong.split(' ').next().unwrap_or("");
            let changes = &[(first, out), (second, wrong)];
            gives(rt, alloc, kind, changes, Some(Refusal::Shape))?;
        }
    }
    Ok(())
}

fn tests_members(rt: &impl Abort, alloc: Global, kind: &Kind) -> Result<(), Fail> {
    let (_header, rows) = *kind;
    for (index, row) in rows.iter().enumerate() {
        let member = Member { kind, index, row };
        with_each_value(rt, alloc, &member)?;
        without(rt, alloc, &member)?;
        if !out_of(row).is_empty() {
            with_each_other(rt, alloc, &member)?;
        }
    }
    Ok(())
}

/// Documents with members out of range in two tables, and the one that is told: the limits come first, and then the
/// tables of each kind before those of the later kinds, and of one kind in the order of the file. The last two have one
/// such member.
const IN_ORDER: &'static [(&'static str, Field)] = &[
    (
        "ports = 1\nmax_filters = 9223372036854775807\nmax_gates = 1\nmax_meters = 1\nlist_max = 1\n[[port]]\nid = 9223372036854775807\ngates = 0\nlist = []\ncycle = 1\nextension = 0\nbase = 0\n",
        Field::MaxFilters,
    ),
    (
        "ports = 1\nmax_filters = 9223372036854775807\nmax_gates = 1\nmax_meters = 1\nlist_max = 1\n[[filter]]\nid = 9223372036854775807\nhandle = 0\npriority = 0\ngate = 0\nmax_sdu = 1\nmeter = 0\noversize = true\n",
        Field::MaxFilters,
    ),
    (
        "ports = 1\nmax_filters = 9223372036854775807\nmax_gates = 1\nmax_meters = 1\nlist_max = 1\n[[gate]]\nid = 9223372036854775807\nopen = true\nipv = 0\nlist = []\ncycle = 1\nextension = 0\nbase = 0\ninvalid_rx = true\noctets_exceeded = true\n",
        Field::MaxFilters,
    ),
    (
        "ports = 1\nmax_filters = 9223372036854775807\nmax_gates = 1\nmax_meters = 1\nlist_max = 1\n[[meter]]\nid = 9223372036854775807\ncir = 0\ncbs = 0\neir = 0\nebs = 0\ncf = true\naware = true\ndrop_yellow = true\nall_red = true\n",
        Field::MaxFilters,
    ),
    (
        "[[filter]]\nid = 9223372036854775807\nhandle = 0\npriority = 0\ngate = 0\nmax_sdu = 1\nmeter = 0\noversize = true\n[[port]]\nid = 1\ngates = 9223372036854775807\nlist = []\ncycle = 1\nextension = 0\nbase = 0\n",
        Field::Gates,
    ),
    (
        "[[gate]]\nid = 9223372036854775807\nopen = true\nipv = 0\nlist = []\ncycle = 1\nextension = 0\nbase = 0\ninvalid_rx = true\noctets_exceeded = true\n[[port]]\nid = 1\ngates = 9223372036854775807\nlist = []\ncycle = 1\nextension = 0\nbase = 0\n",
        Field::Gates,
    ),
    (
        "[[meter]]\nid = 9223372036854775807\ncir = 0\ncbs = 0\neir = 0\nebs = 0\ncf = true\naware = true\ndrop_yellow = true\nall_red = true\n[[port]]\nid = 1\ngates = 9223372036854775807\nlist = []\ncycle = 1\nextension = 0\nbase = 0\n",
        Field::Gates,
    ),
    (
        "[[gate]]\nid = 9223372036854775807\nopen = true\nipv = 0\nlist = []\ncycle = 1\nextension = 0\nbase = 0\ninvalid_rx = true\noctets_exceeded = true\n[[filter]]\nid = 0\nhandle = 9223372036854775807\npriority = 0\ngate = 0\nmax_sdu = 1\nmeter = 0\noversize = true\n",
        Field::Handle,
    ),
    (
        "[[meter]]\nid = 9223372036854775807\ncir = 0\ncbs = 0\neir = 0\nebs = 0\ncf = true\naware = true\ndrop_yellow = true\nall_red = true\n[[filter]]\nid = 0\nhandle = 9223372036854775807\npriority = 0\ngate = 0\nmax_sdu = 1\nmeter = 0\noversize = true\n",
        Field::Handle,
    ),
    (
        "[[meter]]\nid = 9223372036854775807\ncir = 0\ncbs = 0\neir = 0\nebs = 0\ncf = true\naware = true\ndrop_yellow = true\nall_red = true\n[[gate]]\nid = 0\nopen = true\nipv = 9223372036854775807\nlist = []\ncycle = 1\nextension = 0\nbase = 0\ninvalid_rx = true\noctets_exceeded = true\n",
        Field::Ipv,
    ),
    (
        "[[filter]]\nid = 0\nhandle = 4294967296\npriority = 0\ngate = 0\nmax_sdu = 1\nmeter = 0\noversize = true\n[[filter]]\nid = 65536\nhandle = 0\npriority = 0\ngate = 0\nmax_sdu = 1\nmeter = 0\noversize = true\n",
        Field::Handle,
    ),
    (
        "[[filter]]\nid = 65536\nhandle = 0\npriority = 0\ngate = 0\nmax_sdu = 1\nmeter = 0\noversize = true\n[[filter]]\nid = 0\nhandle = 4294967296\npriority = 0\ngate = 0\nmax_sdu = 1\nmeter = 0\noversize = true\n",
        Field::Id,
    ),
    ("ports = -0", Field::Ports),
    ("ports = 9223372036854775807", Field::Ports),
];

/// The document is read, and the bridge refuses what it sets up.
fn is_left_to_the_bridge(
    rt: &impl Abort,
    alloc: Global,
    text: &str,
    want: Refusal,
) -> Result<(), Fail> {
    let setup = setup_of(alloc, text.as_bytes())?;
    same(rt, &Bridge::new(alloc, setup).err(), &Some(want));
    Ok(())
}

/// A list of more entries than the setup allows, and a filter whose gate is not there.
fn tests_what_the_bridge_refuses(rt: &impl Abort, alloc: Global) -> Result<(), Fail> {
    let mut text = String::from_str(alloc, "list_max = 1\n")?;
    text.push_str(EXAMPLE)?;
    is_left_to_the_bridge(rt, alloc, text.as_str(), Refusal::Range(Field::List))?;
    let text = "[[filter]]\nid = 0\ngate = 4\noversize = false\n";
    let gate = Key::Gate(GateId::new(4).unwrap());
    is_left_to_the_bridge(rt, alloc, text, Refusal::Dangling(gate))
}

#[test]
fn tells_the_member_at_fault(rt: HostRuntime) -> Result<(), Fail> {
    let alloc = rt.alloc();
    for kind in kinds() {
        tests_members(&rt, alloc, kind)?;
    }
    for (text, field) in IN_ORDER {
        reads(&rt, alloc, text.as_bytes(), Some(Refusal::Range(*field)))?;
    }
    tests_what_the_bridge_refuses(&rt, alloc)
}
