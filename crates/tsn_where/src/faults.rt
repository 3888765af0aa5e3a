//! Looking for a fault in the tables of a setup.
use toml::Value;
use toml::value::Array;
use tsn_records::allowed::{Allowed, KINDS, Member, entry_members_of, members_of, name_of};
use tsn_types::keys::Kind;

/// What is looked for: a member that is not as it should be, whatever its number; or a number of this name that is
/// outside its range.
#[derive(Clone, Copy)]
pub enum Sought<'a> {
    Shape,
    Range(&'a str),
}

/// What is wrong with a table, or with an entry of its list.
#[derive(Clone, Copy)]
pub enum Wrong<'a> {
    /// It is something else.
    NoTable(&'a Value),
    /// It has a member of this name.
    Unknown(&'a str),
    /// This member is left out.
    LeftOut(Member),
    /// This member is what it may not be.
    Misfit(Member, &'a Value),
}

/// The table of a fault: its kind, none for the document; its place among those of its kind, from 1; what it has as its
/// number; and the place of the entry of its list, from 1.
#[derive(Clone, Copy)]
pub struct Spot<'a> {
    pub kind: Option<Kind>,
    pub table: usize,
    pub number: Option<&'a Value>,
    pub entry: Option<usize>,
}

/// A fault and its spot.
pub type Fault<'a> = (Spot<'a>, Wrong<'a>);

/// The whole number from 0 up that a value is, if it is one.
pub fn whole(value: &Value) -> Option<u64> {
    match value.as_integer() {
        Some(number) => u64::try_from(number).ok(),
        None => None,
    }
}

// Whether a number may stand there.
fn is_number(value: &Value, least: u64, most: u64, sought: Sought<'_>) -> bool {
    match whole(value) {
        Some(number) => match sought {
            Sought::Shape => true,
            Sought::Range(_) => least <= number && number <= most,
        },
        None => false,
    }
}

// Whether a list of so many entries may stand there.
fn is_list(value: &Value, most: u64, sought: Sought<'_>) -> bool {
    match value.as_array() {
        Some(items) => match sought {
            Sought::Shape => true,
            Sought::Range(_) => items.len() as u64 <= most,
        },
        None => false,
    }
}

fn fits(value: &Value, allowed: Allowed, sought: Sought<'_>) -> bool {
    match allowed {
        Allowed::Number(least, most) => is_number(value, least, most, sought),
        Allowed::NumberOrNone(least, most) => is_number(value, least, most, sought),
        Allowed::Flag => value.is_bool(),
        Allowed::List(most) => is_list(value, most, sought),
        Allowed::Tables => value.is_array(),
    }
}

fn may_be_left_out(allowed: Allowed) -> bool {
    match allowed {
        Allowed::NumberOrNone(_, _) => true,
        Allowed::Tables => true,
        _ => false,
    }
}

// What is wrong with a member, of those that are looked for.
fn wrong_member<'a>(table: &'a Value, member: Member, sought: Sought<'_>) -> Option<Wrong<'a>> {
    if let Sought::Range(name) = sought {
        if name != member.0 {
            return None;
        }
    }
    match table.get(member.0) {
        Some(value) => {
            if fits(value, member.1, sought) {
                None
            } else {
                Some(Wrong::Misfit(member, value))
            }
        }
        None => {
            if may_be_left_out(member.1) {
                None
            } else {
                Some(Wrong::LeftOut(member))
            }
        }
    }
}

fn is_among(name: &str, members: &[Member]) -> bool {
    for member in members {
        if member.0 == name {
            return true;
        }
    }
    false
}

/// What is wrong with a table that may have these members alone.
pub fn wrong_table<'a>(
    table: &'a Value,
    members: &[Member],
    sought: Sought<'_>,
) -> Option<Wrong<'a>> {
    let Some(rows) = table.as_table() else {
        return Some(Wrong::NoTable(table));
    };
    if let Sought::Shape = sought {
        for (name, _member) in rows.iter() {
            if !is_among(name.as_str(), members) {
                return Some(Wrong::Unknown(name.as_str()));
            }
        }
    }
    for member in members {
        if let Some(wrong) = wrong_member(table, *member, sought) {
            return Some(wrong);
        }
    }
    None
}

// What is wrong with the entries of a table's list: the place of the first such entry, from 1, and what it is.
fn wrong_entry<'a>(
    table: &'a Value,
    members: &[Member],
    sought: Sought<'_>,
) -> Option<(usize, Wrong<'a>)> {
    let inner = match sought {
        Sought::Shape => Sought::Shape,
        Sought::Range("list") => sought,
        Sought::Range(_) => return None,
    };
    let items = table.get("list")?.as_array()?;
    let mut place = 0usize;
    for entry in items.iter() {
        place = place.saturating_add(1);
        if let Some(wrong) = wrong_in_entry(entry, members, inner) {
            return Some((place, wrong));
        }
    }
    None
}

// What is wrong with an entry: where a range is looked for, any of its numbers.
fn wrong_in_entry<'a>(
    entry: &'a Value,
    members: &[Member],
    sought: Sought<'_>,
) -> Option<Wrong<'a>> {
    if let Sought::Shape = sought {
        return wrong_table(entry, members, sought);
    }
    for member in members {
        if let Some(wrong) = wrong_member(entry, *member, Sought::Range(member.0)) {
            return Some(wrong);
        }
    }
    None
}

/// The first fault of the tables of a kind, whose members may be these.
pub fn fault_of_kind<'a>(
    document: &'a Value,
    kind: Kind,
    members: &[Member],
    sought: Sought<'_>,
) -> Option<Fault<'a>> {
    let tables = document.get(name_of(kind))?.as_array()?;
    let mut spot = Spot {
        kind: Some(kind),
        table: 0,
        number: None,
        entry: None,
    };
    for table in tables.iter() {
        spot.table = spot.table.saturating_add(1);
        spot.number = table.get("id");
        if let Some(wrong) = wrong_table(table, members, sought) {
            return Some((spot, wrong));
        }
        if let Some((entry, wrong)) = wrong_entry(table, entry_members_of(kind), sought) {
            spot.entry = Some(entry);
            return Some((spot, wrong));
        }
    }
    None
}

/// The first fault of the tables of all kinds.
pub fn fault_of_tables<'a>(document: &'a Value, sought: Sought<'_>) -> Option<Fault<'a>> {
    for kind in KINDS {
        if let Some(fault) = fault_of_kind(document, kind, members_of(kind), sought) {
            return Some(fault);
        }
    }
    None
}

/// The place of the first table of the kind behind so many that has this number, from 1.
pub fn table_of(document: &Value, kind: Kind, number: u64, behind: usize) -> Option<usize> {
    let tables = document.get(name_of(kind))?.as_array()?;
    let mut place = 0usize;
    for table in tables.iter() {
        place = place.saturating_add(1);
        if behind < place && has_number(table, "id", number) {
            return Some(place);
        }
    }
    None
}

// Whether the member is this number.
fn has_number(table: &Value, name: &str, number: u64) -> bool {
    match table.get(name) {
        Some(value) => whole(value) == Some(number),
        None => false,
    }
}

/// The least number of a filter whose member of this name is this number.
pub fn referring(filters: &Array, name: &str, number: u64) -> Option<u64> {
    let mut least = None;
    for filter in filters.iter() {
        if !has_number(filter, name, number) {
            continue;
        }
        let Some(found) = filter.get("id").and_then(whole) else {
            continue;
        };
        least = match least {
            Some(before) if before < found => Some(before),
            _ => Some(found),
        };
    }
    least
}
