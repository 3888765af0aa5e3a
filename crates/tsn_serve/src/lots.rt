//! Lines that a connection reads ahead, so that the turns for them follow each other.
//! It relies on the reading of a line.
ghost use Rattle.std.specs.Prelude.{◌≡◌, ◌<◌, ◌≤◌, ◌+◌, ◌++◌, [], ◌∷◌, ℕ, List, IfSome, IfOk, IfErr, length, take, vec_len};
ghost use Rattle.tsn_serve.specs.Lines.{HasNoLineFeed, longest_line};
ghost use Rattle.tsn_serve.specs.Lots.{IsFront, IsLot};

use crate::line_buffer::MAX_LINE;
use crate::script::read_line;
use memchr::memchr;
use std::alloc::Global;
use tsn_bridge::command::{Ask, Command};
use tsn_types::refusals::Refusal;

/// The most lines of a lot.
const MOST_LINES: usize = 64;

/// The most bytes of the replies to them, since a short one has 128 at most, as a test of replies shows.
pub(crate) const MOST_REPLIES: usize = 8_192;

/// A line that was read: what it asks or why it is refused, and how many bytes it has with its line feed.
#[derive(Drop)]
pub(crate) struct ReadLine {
    pub(crate) read: Result<Ask, Refusal>,
    pub(crate) count: usize,
    /// Whether its reply is short.
    pub(crate) is_brief: bool,
}

/// The line that lies whole in front of the bytes, up to their first line feed.
pub(crate) fn front_line(bytes: &[u8]) -> Option<&[u8]>
    ensures short { IfSome result (λ line. length line.now ≤ longest_line) }
    ensures one { IfSome result (λ line. HasNoLineFeed line.now) }
    ensures bytes { IfSome result (λ line. (length line.now < length bytes.now)
        × (take (length line.now + 1) bytes.now ≡ line.now ++ 10 ∷ [])) }
{
    let end = memchr(b'\n', bytes)?;
    if end > MAX_LINE {
        return None;
    }
    Some(&bytes[..end])
}

/// Whether the reply to what was read is short: to an edit, to an act, to a frame or to what can't be asked.
pub(crate) fn is_brief(read: &Result<Ask, Refusal>) -> bool {
    let Ok(ask) = read else { return true };
    matches!(
        ask.command,
        Command::Create { .. }
            | Command::Replace { .. }
            | Command::Remove { .. }
            | Command::Batch { .. }
            | Command::Undo
            | Command::UndoAll
            | Command::Redo
            | Command::Settle { .. }
            | Command::Enable { .. }
            | Command::Disable { .. }
            | Command::Apply { .. }
            | Command::Frame { .. }
    )
}

// Reads the line that lies whole in front of the bytes.
fn read_front(alloc: Global, bytes: &[u8]) -> Option<ReadLine>
    ensures count { IfSome result (λ line. (0 < line.count) × (line.count ≤ length bytes.now)) }
    ensures read { IfSome result (λ line. IsFront bytes.now line.count line.read) }
{
    let line = front_line(bytes)?;
    let read = read_line(alloc, Some(line));
    let is_brief = is_brief(&read);
    Some(ReadLine {
        read,
        count: line.len() + 1,
        is_brief,
    })
}

/// Reads the lines behind the first one too: all that lie whole there, up to one whose reply may be long, and so many
/// at most. For want of memory the first one comes back.
pub(crate) fn read_lot(
    alloc: Global,
    first: ReadLine,
    bytes: &[u8],
) -> Result<Vec<ReadLine>, ReadLine>
    requires { IsFront bytes.now first.count first.read }
    ensures lot { IfOk result (λ lot. (rest : List ℕ) × IsLot bytes.now lot.items rest) }
    ensures some { IfOk result (λ lot. 0 < vec_len lot) }
    ensures back { IfErr result (λ back. back ≡ first) }
{
    let Ok(mut lot) = Vec::with_capacity(alloc, MOST_LINES) else {
        return Err(first);
    };
    let mut done = first.count;
    lot.push_reserved(first);
    'lines: while lot.len() < MOST_LINES {
        let Some(line) = read_front(alloc, &bytes[done..]) else {
            return Ok(lot);
        };
        done += line.count;
        let is_brief = line.is_brief;
        lot.push_reserved(line);
        if !is_brief {
            return Ok(lot);
        }
    }
    Ok(lot)
}
