//! The names of sessions, as they stand in replies and lines. None of it takes memory.
ghost use Rattle.std.specs.Prelude.{◌≡◌, ◌+◌, ◌≤◌, ◌++◌, length};
ghost use Rattle.json.specs.Print.{quoted};
ghost use Rattle.serde_json.specs.Written.{compact_text};
ghost use Rattle.tsn_encoding.specs.Shown.{name_data};

use crate::setup::{LONGEST_ESCAPE, push_escaped};
use crate::text::{CAPACITY, ShortText};
use tsn_types::names::SessionName;

/// The most bytes that stand for a name, its quotes among them.
pub const LONGEST_NAME_TEXT: usize = 130;

/// Puts the name at the end, in quotes.
pub fn push_session_name(text: &mut ShortText, name: &SessionName)
    requires { length text.old + LONGEST_NAME_TEXT + LONGEST_ESCAPE ≤ CAPACITY }
    ensures text { text.new ≡ text.old ++ quoted name.now }
    ensures len { length text.new ≤ length text.old + LONGEST_NAME_TEXT }
{
    text.push("\"");
    let bytes = name.as_bytes();
    'bytes: for byte in bytes {
        push_escaped(text, *byte);
    }
    text.push("\"");
}

/// Puts the name at the end, or null.
pub fn push_name_or_null(text: &mut ShortText, name: &Option<SessionName>)
    requires { length text.old + LONGEST_NAME_TEXT + LONGEST_ESCAPE ≤ CAPACITY }
    ensures text { text.new ≡ text.old ++ compact_text (name_data name.now) }
    ensures len { length text.new ≤ length text.old + LONGEST_NAME_TEXT }
{
    match name {
        Some(name) => push_session_name(text, name),
        None => text.push("null"),
    }
}
