//! Where a command line is at fault.
//!
//! It goes through the members of a command by one table, and through those of a record by the table that setups have
//! too.
use crate::told::{allowed_text, as_told, is_plain};
use serde_json::Value;
use std::alloc::{AllocError, Global};
use tsn_records::allowed::{Allowed, Member, entry_members_of, members_of, name_of};
use tsn_records::drafts::KeyDraft;
use tsn_records::keys::{key_of, kind_of};
use tsn_types::keys::Kind;
use tsn_types::names::LONGEST_NAME;
use tsn_types::numbers::identifiers::{
    GREATEST_HANDLE, GREATEST_INSTANCE, GREATEST_PRIORITY, MOST_PORTS,
};
use tsn_types::numbers::times::GREATEST_INSTANT;

/// What a member of a command may be.
#[derive(Clone, Copy)]
enum Wanted {
    Number(u64, u64),
    Flag,
    /// The key of an instance.
    Key,
    /// The key of what has a list, a port or a stream gate.
    Listed,
    /// The key of what may go, any but a port.
    Removable,
    /// The name of a kind.
    Kind,
    /// The record of the key beside it.
    Record,
    /// The edits of a batch.
    Edits,
    /// A name of a session.
    Name,
}

/// A member's name, and what it may be.
type Part = (&'static str, Wanted);

/// What is told, where something is.
type Told = Result<Option<String>, AllocError>;

const S: Part = ("s", Wanted::Number(1, 65_535));

const KEY: Part = ("key", Wanted::Key);

const LISTED: Part = ("key", Wanted::Listed);

const REMOVABLE: Part = ("key", Wanted::Removable);

const RECORD: Part = ("record", Wanted::Record);

const NAME: Part = ("name", Wanted::Name);

const NOW: Part = ("now", Wanted::Number(0, GREATEST_INSTANT));

const GREATEST_ENTRY: u64 = (1 << 32) - 1;

/// The most edits of a batch.
const MOST_EDITS: usize = 16;

const COMMANDS: &str =
    "hello, create, replace, remove, batch, undo, undo_all, redo, settle, enable, disable, apply, frame, \
states, counters, show, list, since, resume, sessions and setup";

// The members of a command beside `do`, where a hello that has more than that has a name; none where there is no such
// command.
fn parts_of(word: &str, has_more: bool) -> Option<&'static [Part]> {
    match word {
        "hello" if has_more => Some(&[NAME]),
        "hello" => Some(&[]),
        "create" | "replace" => Some(&[S, KEY, RECORD]),
        "remove" => Some(&[S, REMOVABLE]),
        "batch" => Some(&[S, ("edits", Wanted::Edits)]),
        "undo" | "undo_all" | "redo" | "resume" | "sessions" | "setup" => Some(&[S]),
        "settle" => Some(&[S, ("upto", Wanted::Number(0, GREATEST_ENTRY))]),
        "enable" | "disable" | "apply" => Some(&[S, LISTED, NOW]),
        "frame" => Some(&[
            S,
            ("handle", Wanted::Number(0, GREATEST_HANDLE)),
            ("priority", Wanted::Number(0, GREATEST_PRIORITY)),
            ("octets", Wanted::Number(0, 65_535)),
            ("yellow", Wanted::Flag),
            NOW,
        ]),
        "states" => Some(&[S, LISTED, ("at", Wanted::Number(0, GREATEST_INSTANT))]),
        "counters" | "show" => Some(&[S, KEY]),
        "list" => Some(&[S, ("kind", Wanted::Kind)]),
        "since" => Some(&[S, ("after", Wanted::Number(0, GREATEST_ENTRY))]),
        _ => None,
    }
}

// The members of an edit of a batch beside `do`.
fn edit_parts_of(word: &str) -> Option<&'static [Part]> {
    match word {
        "create" | "replace" => Some(&[KEY, RECORD]),
        "remove" => Some(&[REMOVABLE]),
        _ => None,
    }
}

// What stands there, in words.
fn found_text(alloc: Global, value: &Value) -> Result<String, AllocError> {
    match value {
        Value::Null => String::from_str(alloc, "null"),
        Value::Bool(true) => String::from_str(alloc, "true"),
        Value::Bool(false) => String::from_str(alloc, "false"),
        Value::Number(_) => match value.as_u64() {
            Some(number) => format!(in alloc; "{number}"),
            None => String::from_str(alloc, "a number that is not whole or is below 0"),
        },
        Value::String(text) => {
            if is_plain(text.as_str()) {
                format!(in alloc; "\"{text}\"")
            } else {
                String::from_str(alloc, "a text")
            }
        }
        Value::Array(items) => format!(in alloc; "an array of {}", items.len()),
        Value::Object(_) => String::from_str(alloc, "an object"),
    }
}

// What is wanted, in words.
fn wanted_text(alloc: Global, wanted: Wanted) -> Result<String, AllocError> {
    match wanted {
        Wanted::Number(least, most) => format!(in alloc; "{least} to {most}"),
        Wanted::Flag => String::from_str(alloc, "true or false"),
        Wanted::Key => String::from_str(
            alloc,
            "a key such as \"port 1\", \"filter 3\", \"gate 0\" or \"meter 2\"",
        ),
        Wanted::Listed => String::from_str(
            alloc,
            "the key of a port or a gate, such as \"port 1\",",
        ),
        Wanted::Removable => String::from_str(
            alloc,
            "the key of a filter, a gate or a meter, such as \"gate 0\",",
        ),
        Wanted::Kind => String::from_str(alloc, "\"port\", \"filter\", \"gate\" or \"meter\""),
        Wanted::Record => String::from_str(alloc, "an object"),
        Wanted::Edits => format!(in alloc; "an array of 1 to {MOST_EDITS}"),
        Wanted::Name => format!(in alloc;
            "a text of 1 to {LONGEST_NAME} bytes with no control character"
        ),
    }
}

// What is wanted where this stands, in words: of a key that is one, but beyond its kind's range, that range.
fn wanted_there(
    alloc: Global,
    wanted: Wanted,
    found: &Value,
    by_range: bool,
) -> Result<String, AllocError> {
    let key = found.as_str().and_then(key_of);
    match (wanted, key) {
        (Wanted::Key | Wanted::Listed | Wanted::Removable, Some(key)) if by_range =>
            match key.kind {
                Kind::Port => format!(in alloc; "\"port 1\" to \"port {MOST_PORTS}\""),
                kind => {
                    let name = name_of(kind);
                    format!(in alloc; "\"{name} 0\" to \"{name} {GREATEST_INSTANCE}\"")
                }
            },
        _ => wanted_text(alloc, wanted),
    }
}

// The key that a member names.
fn key_in(value: &Value) -> Option<KeyDraft> {
    key_of(value.get("key")?.as_str()?)
}

fn is_number(value: &Value, least: u64, most: u64, by_range: bool) -> bool {
    match value.as_u64() {
        Some(number) => !by_range || (least <= number && number <= most),
        None => false,
    }
}

// Whether the number of a key is in the range of its kind.
fn is_in_range(key: &KeyDraft) -> bool {
    match key.kind {
        Kind::Port => 1 <= key.number && key.number <= MOST_PORTS,
        _ => key.number <= GREATEST_INSTANCE,
    }
}

fn is_key(value: &Value, by_range: bool) -> Option<Kind> {
    let key = key_of(value.as_str()?)?;
    if by_range && !is_in_range(&key) {
        return None;
    }
    Some(key.kind)
}

// Whether a value may stand there; where it goes by range, in its range too.
fn fits(value: &Value, wanted: Wanted, by_range: bool) -> bool {
    match wanted {
        Wanted::Number(least, most) => is_number(value, least, most, by_range),
        Wanted::Flag => value.is_boolean(),
        Wanted::Key => is_key(value, by_range).is_some(),
        Wanted::Listed => matches!(is_key(value, by_range), Some(Kind::Port | Kind::Gate)),
        Wanted::Removable => matches!(
            is_key(value, by_range),
            Some(Kind::Filter | Kind::Gate | Kind::Meter)
        ),
        Wanted::Kind => value.as_str().and_then(kind_of).is_some(),
        Wanted::Record => value.is_object(),
        Wanted::Edits => match value.as_array() {
            Some(edits) => 1 <= edits.len() && edits.len() <= MOST_EDITS,
            None => false,
        },
        // A hello has no other member with a range.
        Wanted::Name => value.is_string() && !by_range,
    }
}

// Whether a value may be a member of a record, or of an entry of its list.
fn is_allowed(value: &Value, allowed: Allowed, by_range: bool) -> bool {
    match allowed {
        Allowed::Number(least, most) => is_number(value, least, most, by_range),
        Allowed::NumberOrNone(least, most) => value.is_null()
            || is_number(value, least, most, by_range),
        Allowed::Flag => value.is_boolean(),
        Allowed::List(most) => match value.as_array() {
            Some(items) => !by_range || items.len() as u64 <= most,
            None => false,
        },
        Allowed::Tables => value.is_array(),
    }
}

// Tells a member that stands there and may not.
fn misfit(alloc: Global, spot: &str, name: &str, value: &Value, allowed: &str) -> Told {
    let found = found_text(alloc, value)?;
    Ok(Some(format!(in alloc; "{spot}{name} is {found}, and {allowed} is allowed")?))
}

// Tells of an entry of a list what is wrong with it.
fn entry_fault(
    alloc: Global,
    spot: &str,
    entry: &Value,
    members: &[Member],
    by_range: bool,
) -> Told {
    let Some(items) = entry.as_array() else {
        let found = found_text(alloc, entry)?;
        return Ok(Some(format!(in alloc;
            "{spot}it is {found}, and an array of {} is wanted",
            members.len()
        )?));
    };
    if items.len() != members.len() {
        let (found, wanted) = (items.len(), members.len());
        return Ok(Some(format!(in alloc;
            "{spot}it is an array of {found}, and one of {wanted} is wanted"
        )?));
    }
    for (item, member) in items.iter().zip(members.iter()) {
        if !is_allowed(item, member.1, by_range) {
            let allowed = allowed_text(alloc, member.1, "null")?;
            return misfit(alloc, spot, member.0, item, allowed.as_str());
        }
    }
    Ok(None)
}

// The first fault of the entries of a record's list.
fn list_fault(alloc: Global, spot: &str, record: &Value, kind: Kind, by_range: bool) -> Told {
    let Some(entries) = record.get("list").and_then(Value::as_array) else {
        return Ok(None);
    };
    for (place, entry) in entries.iter().enumerate() {
        let number = place.saturating_add(1);
        let at = format!(in alloc; "{spot}entry {number} of the list: ")?;
        if let Some(told) = entry_fault(
            alloc,
            at.as_str(),
            entry,
            entry_members_of(kind),
            by_range,
        )? {
            return Ok(Some(told));
        }
    }
    Ok(None)
}

fn is_member(name: &str, members: &[Member]) -> bool {
    name != "id" && members.iter().any(|member| member.0 == name)
}

// A member of an object that its kind does not have.
fn unknown(alloc: Global, spot: &str, name: &str) -> Told {
    let name = as_told(alloc, name)?;
    Ok(Some(format!(in alloc; "{spot}there is no member {name}")?))
}

// What is wrong with the members of a record.
fn record_fault(alloc: Global, spot: &str, record: &Value, kind: Kind, by_range: bool) -> Told {
    let members = members_of(kind);
    if let Some(rows) = record.as_object() {
        for (name, _value) in rows.iter() {
            if !is_member(name.as_str(), members) {
                return unknown(alloc, spot, name.as_str());
            }
        }
    }
    for member in members {
        let found = record.get(member.0);
        let allowed = allowed_text(alloc, member.1, "null")?;
        match found {
            _ if member.0 == "id" => {}
            Some(value) if is_allowed(value, member.1, by_range) => {}
            Some(value) => return misfit(alloc, spot, member.0, value, allowed.as_str()),
            None => return Ok(Some(format!(in alloc;
                "{spot}{} is left out, and {allowed} is allowed",
                member.0
            )?)),
        }
    }
    list_fault(alloc, spot, record, kind, by_range)
}

// What is wrong with the members of an object that may have these beside `do`.
fn parts_fault(alloc: Global, spot: &str, value: &Value, parts: &[Part], by_range: bool) -> Told {
    if let Some(rows) = value.as_object() {
        for (name, _value) in rows.iter() {
            if name.as_str() != "do" && !parts.iter().any(|part| part.0 == name.as_str()) {
                return unknown(alloc, spot, name.as_str());
            }
        }
    }
    for part in parts {
        match value.get(part.0) {
            Some(found) if fits(found, part.1, by_range) => {}
            Some(found) => {
                let wanted = wanted_there(alloc, part.1, found, by_range)?;
                return misfit(alloc, spot, part.0, found, wanted.as_str());
            }
            None => {
                let wanted = wanted_text(alloc, part.1)?;
                return Ok(Some(format!(in alloc;
                    "{spot}{} is left out, and {wanted} is allowed",
                    part.0
                )?));
            }
        }
    }
    let (Some(key), Some(record)) = (key_in(value), value.get("record")) else {
        return Ok(None);
    };
    let name = name_of(key.kind);
    let inner = format!(in alloc; "{spot}record of {name} {}: ", key.number)?;
    record_fault(alloc, inner.as_str(), record, key.kind, by_range)
}

// What is wrong with one of the edits of a batch.
fn edit_fault(alloc: Global, spot: &str, edit: &Value, by_range: bool) -> Told {
    let word = edit.get("do").and_then(Value::as_str);
    let Some(parts) = word.and_then(edit_parts_of) else {
        return Ok(Some(format!(in alloc; "{spot}do is none of create, replace and remove")?));
    };
    parts_fault(alloc, spot, edit, parts, by_range)
}

// Whether an earlier edit has the key.
fn is_repeated(edits: &[Value], key: &str) -> bool {
    let mut count = 0usize;
    for edit in edits {
        if edit.get("key").and_then(Value::as_str) == Some(key) {
            count = count.saturating_add(1);
        }
    }
    1 < count
}

// What is wrong with the edits of a batch.
fn edits_fault(alloc: Global, value: &Value, by_range: bool) -> Told {
    let Some(edits) = value.get("edits").and_then(Value::as_array) else {
        return Ok(None);
    };
    for (place, edit) in edits.iter().enumerate() {
        let number = place.saturating_add(1);
        let spot = format!(in alloc; "edit {number}: ")?;
        if let Some(told) = edit_fault(alloc, spot.as_str(), edit, by_range)? {
            return Ok(Some(told));
        }
        let key = edit.get("key").and_then(Value::as_str).unwrap_or("");
        if is_repeated(edits.as_slice(), key) {
            let key = as_told(alloc, key)?;
            return Ok(Some(format!(in alloc; "edit {number}: {key} is there twice")?));
        }
    }
    Ok(None)
}

/// What is wrong with the value of a command line: with its shape, or, by range, with a number of it.
pub fn command_fault(alloc: Global, value: &Value, by_range: bool) -> Told {
    if !value.is_object() {
        let found = found_text(alloc, value)?;
        return Ok(Some(format!(in alloc; "it is {found}, and an object is wanted")?));
    }
    let Some(word) = value.get("do").and_then(Value::as_str) else {
        return Ok(Some(format!(in alloc;
            "do is left out or is no text, and a command is wanted: {COMMANDS}"
        )?));
    };
    let has_more = value.get("name").is_some();
    let Some(parts) = parts_of(word, has_more) else {
        let word = as_told(alloc, word)?;
        return Ok(Some(format!(in alloc;
            "there is no command {word}; the commands are {COMMANDS}"
        )?));
    };
    if let Some(told) = parts_fault(alloc, "", value, parts, by_range)? {
        return Ok(Some(told));
    }
    edits_fault(alloc, value, by_range)
}
