//! Command lines that wait, in memory that is taken once.
ghost use Rattle.std.specs.Prelude.{◌≡◌, ◌+◌, ◌<◌, ◌≤◌, ◌++◌, [], ◌∷◌, vec_len, vec_capacity, length, IfOk, IfSome, IfNone, IsTrue};
ghost use Rattle.tsn_commit.specs.Lines.{AreLines, IsLine, lines_in, lines_text};

use memchr::memchr;
use std::alloc::{AllocError, Global};
use std::marker::Model;
use tsn_recorded::append;

/// The bytes for which there is room: those of the lines that wait, each with its line feed.
pub const CAPACITY: usize = 1_048_576;

/// Lines, each ended by a line feed. A contract sees the lines.
#[derive(Drop)]
pub(crate) struct Lines {
    text: Vec<u8>,
}

impl Model for Lines {
    ghost use Rattle.std.specs.Prelude.{◌≤◌, List, ℕ, vec_len, vec_capacity};
    ghost use Rattle.tsn_commit.specs.Lines.{AreLines, lines_in};

    ghost Value = { List (List ℕ) };

    ghost view = { λ l. lines_in l.text.items };

    ghost invariant = { λ l. (vec_len l.text ≤ 1048576) × (1048576 ≤ vec_capacity l.text) × AreLines l.text.items };
}

impl Lines {
    /// No line, and the memory for all that may wait.
    #[tactic(auto, using(crate::proofs::Gathering::none_are))]
    pub(crate) fn new(alloc: Global) -> Result<Lines, AllocError>
        ensures { IfOk result (λ l. l ≡ []) }
    {
        let text = Vec::with_capacity(alloc, CAPACITY)?;
        Ok(Lines { text })
    }

    /// The lines as one text.
    pub(crate) fn text(&self) -> &[u8]
        ensures is { lines_in result.now ≡ self.now }
        ensures lines { AreLines result.now }
    {
        self.text.as_slice()
    }

    /// Whether there is room for one more line.
    pub(crate) fn has_room(&self, line: &[u8]) -> bool
        ensures { IsTrue result → length (lines_text self.now) + length line.now < CAPACITY }
    {
        line.len() < CAPACITY - self.text.len()
    }

    /// Puts a line behind the others. It takes no memory.
    pub(crate) fn push(&mut self, line: &[u8])
        requires line { IsLine line.now }
        requires room { length (lines_text self.old) + length line.now < CAPACITY }
        ensures { self.new ≡ self.old ++ line.now ∷ [] }
    {
        append(&mut self.text, line);
        append(&mut self.text, b"\n");
    }

    /// Lets all lines go, and keeps the memory.
    #[tactic(auto, using(crate::proofs::Gathering::none_are))]
    pub(crate) fn clear(&mut self)
        ensures { self.new ≡ [] }
    {
        self.text.clear();
    }
}

/// The first line of a text of lines, and the text behind its line feed; none where there is no line.
pub(crate) fn first_line(text: &[u8]) -> Option<(&[u8], &[u8])>
    requires { AreLines text.now }
    ensures first { IfSome result (λ r. lines_in text.now ≡ r.0.now ∷ lines_in r.1.now) }
    ensures line { IfSome result (λ r. IsLine r.0.now) }
    ensures others { IfSome result (λ r. AreLines r.1.now) }
    ensures fewer { IfSome result (λ r. length r.1.now < length text.now) }
    ensures none { IfNone result (lines_in text.now ≡ []) }
{
    match memchr(b'\n', text) {
        Some(count) => Some((&text[..count], &text[count + 1..])),
        None => None,
    }
}
