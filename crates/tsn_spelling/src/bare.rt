//! The lines of commands that have no record: each is put together in a short text, which is empty before.
ghost use Rattle.std.specs.Prelude.{◌≡◌, ◌≤◌, [], length};
ghost use Rattle.json.specs.Print.{escape};
ghost use Rattle.serde_json.specs.Written.{compact_text};
ghost use Rattle.tsn_records.specs.Keys.{key_text, kind_text};
ghost use Rattle.tsn_wire.specs.Values.{act_data, asked_data, bare_data, frame_data, hello_data, keyed_data, listed_data, settle_data, states_data};
ghost use Rattle.tsn_spelling.specs.Growing.{list_front};

use crate::line::{LONGEST_WORD, push_session, push_word};
use tsn_chain::frame::Frame;
use tsn_encoding::{ShortText, push_flag, push_key_text, push_number, push_session_name};
use tsn_types::keys::{Key, Kind};
use tsn_types::names::SessionName;
use tsn_types::numbers::Instant;

/// The line of a hello.
#[tactic(auto, unfolding(json::specs::Print::escape_byte))]
pub fn push_hello(text: &mut ShortText, name: &Option<SessionName>)
    requires { text.old ≡ [] }
    ensures { text.new ≡ compact_text (hello_data name.now) }
{
    match name {
        Some(name) => {
            text.push("{\"do\":\"hello\",\"name\":");
            push_session_name(text, name);
            text.push("}");
        }
        None => text.push("{\"do\":\"hello\"}"),
    }
}

/// The line of a command with no member but its session.
#[tactic(auto, unfolding(json::specs::Print::escape_byte))]
pub fn push_bare(text: &mut ShortText, word: &str, session: u32)
    requires empty { text.old ≡ [] }
    requires short { length word.now ≤ LONGEST_WORD }
    requires plain { escape word.now ≡ word.now }
    ensures { text.new ≡ compact_text (bare_data word.now session) }
{
    push_word(text, word);
    push_session(text, session);
}

/// The line of a command on a key.
#[tactic(auto, unfolding(json::specs::Print::escape_byte))]
pub fn push_keyed(text: &mut ShortText, word: &str, key: Key, session: u32)
    requires empty { text.old ≡ [] }
    requires short { length word.now ≤ LONGEST_WORD }
    requires plain { escape word.now ≡ word.now }
    ensures { text.new ≡ compact_text (keyed_data word.now session (key_text key)) }
{
    push_word(text, word);
    push_key_text(text, ",\"key\":", key);
    push_session(text, session);
}

/// The line of an act on a gate list at an instant.
#[tactic(auto, unfolding(json::specs::Print::escape_byte))]
pub fn push_act(text: &mut ShortText, word: &str, key: Key, now: Instant, session: u32)
    requires empty { text.old ≡ [] }
    requires short { length word.now ≤ LONGEST_WORD }
    requires plain { escape word.now ≡ word.now }
    ensures { text.new ≡ compact_text (act_data word.now session (key_text key) now) }
{
    push_word(text, word);
    push_key_text(text, ",\"key\":", key);
    push_number(text, ",\"now\":", now.get());
    push_session(text, session);
}

/// The line that hands in a frame at an instant.
pub fn push_frame(text: &mut ShortText, frame: &Frame, now: Instant, session: u32)
    requires { text.old ≡ [] }
    ensures { text.new ≡ compact_text (frame_data session frame.now now) }
{
    push_number(text, "{\"do\":\"frame\",\"handle\":", frame.handle.get());
    push_number(text, ",\"now\":", now.get());
    push_number(text, ",\"octets\":", frame.octets.get());
    push_number(text, ",\"priority\":", frame.priority.get());
    push_number(text, ",\"s\":", u64::from(session));
    push_flag(text, ",\"yellow\":", frame.yellow);
    text.push("}");
}

/// The line that asks for the states at an instant.
pub fn push_states(text: &mut ShortText, key: Key, at: Instant, session: u32)
    requires { text.old ≡ [] }
    ensures { text.new ≡ compact_text (states_data session (key_text key) at) }
{
    push_number(text, "{\"at\":", at.get());
    push_key_text(text, ",\"do\":\"states\",\"key\":", key);
    push_session(text, session);
}

/// The line that settles the entries up to a number.
#[tactic(auto, unfolding(json::specs::Print::escape_byte))]
pub fn push_settle(text: &mut ShortText, upto: u32, session: u32)
    requires { text.old ≡ [] }
    ensures { text.new ≡ compact_text (settle_data session upto) }
{
    push_number(text, "{\"do\":\"settle\",\"s\":", u64::from(session));
    push_number(text, ",\"upto\":", u64::from(upto));
    text.push("}");
}

/// The line that asks for the entries behind a number.
pub fn push_since(text: &mut ShortText, after: u32, session: u32)
    requires { text.old ≡ [] }
    ensures { text.new ≡ compact_text (asked_data session after) }
{
    push_number(text, "{\"after\":", u64::from(after));
    text.push(",\"do\":\"since\"");
    push_session(text, session);
}

// Up to the session.
fn list_front(kind: Kind) -> &'static [u8]
    ensures text { result.now ≡ list_front kind }
    ensures len { length result.now ≤ 32 }
{
    match kind {
        Kind::Port => b"{\"do\":\"list\",\"kind\":\"port\"",
        Kind::Filter => b"{\"do\":\"list\",\"kind\":\"filter\"",
        Kind::Gate => b"{\"do\":\"list\",\"kind\":\"gate\"",
        Kind::Meter => b"{\"do\":\"list\",\"kind\":\"meter\"",
    }
}

/// The line that asks for the numbers of the instances of a kind.
#[tactic(auto, unfolding(json::specs::Print::escape_byte))]
pub fn push_list(text: &mut ShortText, kind: Kind, session: u32)
    requires { text.old ≡ [] }
    ensures { text.new ≡ compact_text (listed_data session (kind_text kind)) }
{
    text.push_bytes(list_front(kind));
    push_session(text, session);
}
