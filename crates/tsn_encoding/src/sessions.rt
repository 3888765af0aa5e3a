//! The line of the sessions that were given out, spelled piece by piece. None of it takes memory.
ghost use Rattle.std.specs.Prelude.{◌≡◌, ◌+◌, ◌≤◌, ◌++◌, [], length, codes};
ghost use Rattle.serde_json.specs.Written.{compact_text};
ghost use Rattle.tsn_encoding.specs.Told.{session_data, sessions_data};
ghost use Rattle.tsn_encoding.specs.Writing.{Writes};

use crate::session_names::push_name_or_null;
use crate::shown::{LONGEST_ITEM, ShownItem, push_number, write_listed};
use crate::text::{CAPACITY, ShortText};
use tsn_bytes::{ByteOut, Fault};
use tsn_entries::sessions::GivenSession;

fn push_given(text: &mut ShortText, given: &GivenSession)
    requires { length text.old + LONGEST_ITEM ≤ CAPACITY }
    ensures text { text.new ≡ text.old ++ compact_text (session_data given.now) }
    ensures len { length text.new ≤ length text.old + LONGEST_ITEM }
{
    text.push("{\"name\":");
    push_name_or_null(text, &given.name);
    push_number(text, ",\"session\":", u64::from(given.session));
    push_number(text, ",\"standing\":", given.standing);
    text.push("}");
}

impl ShownItem for GivenSession {
    ghost shown = { session_data };

    fn push(&self, text: &mut ShortText) {
        push_given(text, self);
    }
}

/// Writes the line of the sessions, in their order, by way of an empty text. Its one fault is `Write`; what went out is
/// then a front of the line.
pub fn write_sessions<W: ByteOut>(
    writer: &mut W,
    text: &mut ShortText,
    sessions: &[GivenSession],
) -> Result<(), Fault>
    requires { text.old ≡ [] }
    ensures { Writes result (W.taken writer.old) (W.taken writer.new) (W.has_failed writer.old) (W.has_failed writer.new)
        (compact_text (sessions_data sessions.now) ++ codes "\n") }
{
    text.push("{\"sessions\":[");
    write_listed(writer, text, sessions, b"}\n")
}
