//! A line that grows: it stands in a vector, and its end in a short text, which is put behind the vector when it may
//! have no room for the next piece, and at the end. Only the vector takes memory.
ghost use Rattle.std.specs.Prelude.{◌≡◌, ◌+◌, ◌≤◌, ◌++◌, [], length, OnOk, codes, decimal};
ghost use Rattle.json.specs.Print.{escape, quoted};
ghost use Rattle.tsn_spelling.specs.Growing.{Grows, session_end};

use std::alloc::AllocError;
use tsn_encoding::{CAPACITY, ShortText, push_number};

/// The most bytes that may be held before a piece of a record, so that it has room.
pub const MOST_HELD: usize = 300;

/// The most bytes of a command's word.
pub const LONGEST_WORD: usize = 8;

/// Puts the text behind the line, and empties it.
pub fn hand_on(line: &mut Vec<u8>, text: &mut ShortText) -> Result<(), AllocError>
    ensures ok { OnOk result (line.new.items ≡ line.old.items ++ text.old) }
    ensures empty { OnOk result (text.new ≡ []) }
    ensures front { Grows line.old.items line.new.items }
{
    line.extend_from_slice(text.as_slice())?;
    text.clear();
    Ok(())
}

/// Sees that the text has room for the next piece.
pub fn make_room(line: &mut Vec<u8>, text: &mut ShortText) -> Result<(), AllocError>
    ensures ok { OnOk result (line.new.items ++ text.new ≡ line.old.items ++ text.old) }
    ensures room { OnOk result (length text.new ≤ MOST_HELD) }
    ensures front { Grows line.old.items line.new.items }
{
    if text.as_slice().len() > MOST_HELD {
        return hand_on(line, text);
    }
    Ok(())
}

/// Puts the brace and the member that names the command at the end.
#[inline(always)]
pub fn push_word(text: &mut ShortText, word: &str)
    requires room { length text.old + LONGEST_WORD + 8 ≤ CAPACITY }
    requires short { length word.now ≤ LONGEST_WORD }
    requires plain { escape word.now ≡ word.now }
    ensures text { text.new ≡ text.old ++ (codes "{\"do\":" ++ quoted word.now) }
    ensures len { length text.new ≤ length text.old + LONGEST_WORD + 8 }
{
    text.push("{\"do\":\"");
    text.push_bytes(word.as_bytes());
    text.push("\"");
}

/// Puts the member of the session and the last brace at the end.
#[inline(always)]
pub fn push_session(text: &mut ShortText, session: u32)
    requires { length text.old + 26 ≤ CAPACITY }
    ensures { text.new ≡ text.old ++ session_end (decimal session) }
{
    push_number(text, ",\"s\":", u64::from(session));
    text.push("}");
}
