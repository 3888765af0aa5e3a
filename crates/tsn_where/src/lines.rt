//! The line that tells of a fault.
use crate::faults::{
    Fault, Sought, Spot, Wrong, fault_of_kind, fault_of_tables, referring, table_of, whole,
    wrong_table,
};
use crate::told::{allowed_text, is_plain};
use std::alloc::{AllocError, Global};
use toml::Value;
use tsn_records::allowed::{Allowed, DOCUMENT, KINDS, Member, name_of};
use tsn_types::keys::{Key, Kind};
use tsn_types::refusals::Refusal;

// What stands there.
fn found_text(alloc: Global, value: &Value) -> Result<String, AllocError> {
    match value {
        Value::Integer(number) => format!(in alloc; "{number}"),
        Value::Boolean(true) => String::from_str(alloc, "true"),
        Value::Boolean(false) => String::from_str(alloc, "false"),
        Value::String(_) => String::from_str(alloc, "a text"),
        Value::Float(_) => String::from_str(alloc, "a number with a fraction"),
        Value::Datetime(_) => String::from_str(alloc, "a date or a time"),
        Value::Array(items) => format!(in alloc; "an array of {}", items.len()),
        Value::Table(_) => String::from_str(alloc, "a table"),
    }
}

// What is wrong, in words.
fn wrong_text(alloc: Global, wrong: Wrong<'_>) -> Result<String, AllocError> {
    match wrong {
        Wrong::NoTable(value) => {
            let found = found_text(alloc, value)?;
            format!(in alloc; "it is {found}, and a table is wanted")
        }
        Wrong::Unknown(name) => {
            if is_plain(name) {
                format!(in alloc; "no member is called {name}")
            } else {
                String::from_str(alloc, "a member has a name that none has")
            }
        }
        Wrong::LeftOut((name, allowed)) => {
            let allowed = allowed_text(alloc, allowed, "nothing")?;
            format!(in alloc; "{name} is left out, and {allowed} is allowed")
        }
        Wrong::Misfit((name, allowed), value) => {
            let found = found_text(alloc, value)?;
            let allowed = allowed_text(alloc, allowed, "nothing")?;
            format!(in alloc; "{name} is {found}, and {allowed} is allowed")
        }
    }
}

// The table of a fault, with what parts it from what is wrong; empty for the document.
fn spot_text(alloc: Global, spot: Spot<'_>) -> Result<String, AllocError> {
    let Some(kind) = spot.kind else {
        return Ok(String::new(alloc));
    };
    let name = name_of(kind);
    let table = match spot.number.and_then(whole) {
        Some(number) => format!(in alloc; "{name} {number}")?,
        None => format!(in alloc; "[[{name}]] table {}", spot.table)?,
    };
    match spot.entry {
        Some(entry) => format!(in alloc; "{table}, entry {entry} of its list: "),
        None => format!(in alloc; "{table}: "),
    }
}

fn fault_text(alloc: Global, fault: Fault<'_>) -> Result<String, AllocError> {
    let spot = spot_text(alloc, fault.0)?;
    let wrong = wrong_text(alloc, fault.1)?;
    format!(in alloc; "tsnd: {spot}{wrong}\n")
}

// The line of a fault, if there is one.
fn told(alloc: Global, fault: Option<Fault<'_>>) -> Result<Option<String>, AllocError> {
    match fault {
        Some(fault) => Ok(Some(fault_text(alloc, fault)?)),
        None => Ok(None),
    }
}

// A limit of the document, the standard one where it is left out.
fn limit(document: &Value, name: &str, standard: u64) -> u64 {
    match document.get(name) {
        Some(value) => whole(value).unwrap_or(standard),
        None => standard,
    }
}

// What the limits of the document allow a table of the kind.
fn limited(document: &Value, kind: Kind) -> [Member; 3] {
    let gates = limit(document, "max_gates", 16).saturating_sub(1);
    let meters = limit(document, "max_meters", 16).saturating_sub(1);
    let list = ("list", Allowed::List(limit(document, "list_max", 16)));
    match kind {
        Kind::Port => {
            let id = ("id", Allowed::Number(1, limit(document, "ports", 2)));
            [id, list, list]
        }
        Kind::Filter => {
            let filters = limit(document, "max_filters", 16).saturating_sub(1);
            [
                ("id", Allowed::Number(0, filters)),
                ("gate", Allowed::Number(0, gates)),
                ("meter", Allowed::NumberOrNone(0, meters)),
            ]
        }
        Kind::Gate => [("id", Allowed::Number(0, gates)), list, list],
        Kind::Meter => {
            let id = ("id", Allowed::Number(0, meters));
            [id, id, id]
        }
    }
}

// The first fault of a number: outside its range, or else outside the document's limits.
fn range_fault<'a>(document: &'a Value, name: &str) -> Option<Fault<'a>> {
    let sought = Sought::Range(name);
    if let Some(wrong) = wrong_table(document, DOCUMENT, sought) {
        return Some((whole_document(), wrong));
    }
    if let Some(fault) = fault_of_tables(document, sought) {
        return Some(fault);
    }
    for kind in KINDS {
        let members = limited(document, kind);
        if let Some(fault) = fault_of_kind(document, kind, &members, sought) {
            return Some(fault);
        }
    }
    None
}

fn whole_document<'a>() -> Spot<'a> {
    Spot {
        kind: None,
        table: 0,
        number: None,
        entry: None,
    }
}

fn shape_fault(document: &Value) -> Option<Fault<'_>> {
    if let Some(wrong) = wrong_table(document, DOCUMENT, Sought::Shape) {
        return Some((whole_document(), wrong));
    }
    fault_of_tables(document, Sought::Shape)
}

// The kind and the number of a key.
fn kind_and_number(key: Key) -> (Kind, u64) {
    match key {
        Key::Port(id) => (Kind::Port, id.get()),
        Key::Filter(id) => (Kind::Filter, id.get()),
        Key::Gate(id) => (Kind::Gate, id.get()),
        Key::Meter(id) => (Kind::Meter, id.get()),
    }
}

// Where a key is given twice.
fn repeated(alloc: Global, document: &Value, key: Key) -> Result<Option<String>, AllocError> {
    let (kind, number) = kind_and_number(key);
    let name = name_of(kind);
    let Some(first) = table_of(document, kind, number, 0) else {
        return Ok(None);
    };
    let Some(second) = table_of(document, kind, number, first) else {
        return Ok(None);
    };
    Ok(Some(format!(in alloc;
        "tsnd: {name} {number} is given twice, by the [[{name}]] tables {first} and {second}\n"
    )?))
}

// Who refers to a key that is not there.
fn dangling(alloc: Global, document: &Value, key: Key) -> Result<Option<String>, AllocError> {
    let (kind, number) = kind_and_number(key);
    let name = name_of(kind);
    let Some(filters) = document.get("filter").and_then(Value::as_array) else {
        return Ok(None);
    };
    match referring(filters, name, number) {
        Some(filter) => Ok(Some(format!(in alloc;
            "tsnd: filter {filter}: {name} is {number}, and there is no {name} {number}\n"
        )?)),
        None => Ok(None),
    }
}

// The line of the text, from 1, at which so many bytes stand before.
fn line_at(text: &[u8], before: usize) -> usize {
    let mut line = 1usize;
    for byte in &text[..before.min(text.len())] {
        if *byte == b'\n' {
            line = line.saturating_add(1);
        }
    }
    line
}

// Where a text is no TOML.
fn unread(alloc: Global, text: &[u8]) -> Result<Option<String>, AllocError> {
    let Err(error) = toml::table_from_slice(alloc, text) else {
        return Ok(None);
    };
    match error.span() {
        Some(span) => {
            let line = line_at(text, span.start);
            let message = error.message();
            Ok(Some(format!(in alloc; "tsnd: line {line}: {message}\n")?))
        }
        None => Ok(None),
    }
}

// Where a document is at fault.
fn in_document(alloc: Global, text: &[u8], why: Refusal) -> Result<Option<String>, AllocError> {
    let Ok(table) = toml::table_from_slice(alloc, text) else {
        return Ok(None);
    };
    let document = Value::Table(table);
    match why {
        Refusal::Shape => told(alloc, shape_fault(&document)),
        Refusal::Range(field) => told(alloc, range_fault(&document, field.name())),
        Refusal::Exists(key) => repeated(alloc, &document, key),
        Refusal::Dangling(key) => dangling(alloc, &document, key),
        _ => Ok(None),
    }
}

fn line_of(alloc: Global, text: &[u8], why: Refusal) -> Result<Option<String>, AllocError> {
    match why {
        Refusal::TooLong => Ok(Some(String::from_str(
            alloc,
            "tsnd: it has more than 1048576 bytes\n",
        )?)),
        Refusal::Syntax => unread(alloc, text),
        _ => in_document(alloc, text, why),
    }
}

/// A line that tells where the text of a setup is at fault, for the refusal that it met. It is empty where nothing is
/// found, and where memory is wanting.
pub fn fault_line(alloc: Global, text: &[u8], why: Refusal) -> String {
    match line_of(alloc, text, why) {
        Ok(Some(line)) => line,
        _ => String::new(alloc),
    }
}
