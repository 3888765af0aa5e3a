//! The line of a setup, whose text is escaped byte by byte. None of it takes memory.
ghost use Rattle.std.specs.Prelude.{◌≡◌, ◌<◌, ◌+◌, ◌≤◌, ◌++◌, [], length, true, IfErr, OnOk, OnErr, codes};
ghost use Rattle.std.specs.Char.{digit_char};
ghost use Rattle.std.specs.Io.KnownBytes.{Appends};
ghost use Rattle.json.specs.Print.{escape_byte};
ghost use Rattle.serde_json.specs.Written.{compact_text};
ghost use Rattle.tsn_bytes.specs.Bytes.{IsCut};
ghost use Rattle.tsn_bytes.specs.declared.bytes.Fault.TheVariants.{Write};
ghost use Rattle.tsn_encoding.specs.Shown.{setup_data};

use crate::shown::{Written, make_room};
use crate::text::{CAPACITY, ShortText};
use tsn_bytes::{ByteOut, put_all};

/// The most bytes that stand for one.
pub const LONGEST_ESCAPE: usize = 6;

fn hex_digit(digit: u8) -> u8
    requires { digit < 16 }
    ensures { result ≡ digit_char digit }
{
    if digit < 10 {
        b'0' + digit
    } else {
        b'a' - 10 + digit
    }
}

// Puts what stands for the byte within a text at the end.
#[tactic(auto, unfolding(json::specs::Print::escape_byte))]
pub(crate) fn push_escaped(text: &mut ShortText, byte: u8)
    requires { length text.old + LONGEST_ESCAPE ≤ CAPACITY }
    ensures text { text.new ≡ text.old ++ escape_byte byte }
    ensures len { length text.new ≤ length text.old + LONGEST_ESCAPE }
{
    match byte {
        b'"' => text.push("\\\""),
        b'\\' => text.push("\\\\"),
        8 => text.push("\\b"),
        9 => text.push("\\t"),
        10 => text.push("\\n"),
        12 => text.push("\\f"),
        13 => text.push("\\r"),
        0..=31 => {
            let escape = [
                b'\\',
                b'u',
                b'0',
                b'0',
                hex_digit(byte / 16),
                hex_digit(byte % 16),
            ];
            text.push_bytes(&escape);
        }
        _ => text.push_bytes(&[byte]),
    }
}

/// Writes the line of a setup by way of an empty text. Its one fault is `Write`; what went out is then a front of the
/// line.
pub fn write_setup<W: ByteOut>(writer: &mut W, text: &mut ShortText, setup: &[u8]) -> Written
    requires { text.old ≡ [] }
    ensures ok { OnOk result (Appends (W.taken writer.old) (W.taken writer.new)
        (compact_text (setup_data setup.now) ++ codes "\n")) }
    ensures worked { OnOk result (W.has_failed writer.new ≡ W.has_failed writer.old) }
    ensures fault { IfErr result (λ e. e ≡ Write) }
    ensures failed { OnErr result (W.has_failed writer.new ≡ true) }
    ensures cut { OnErr result (IsCut (W.taken writer.old) (W.taken writer.new)
        (compact_text (setup_data setup.now) ++ codes "\n")) }
{
    text.push("{\"setup\":\"");
    'bytes: for byte in setup {
        make_room(writer, text)?;
        push_escaped(text, *byte);
    }
    text.push("\"}\n");
    put_all(writer, text.as_slice())
}
