//! A short text in a buffer of fixed size, which takes no memory.
ghost use Rattle.std.specs.Prelude.{◌≡◌, ◌+◌, ◌≤◌, [], ◌++◌, length, decimal};

use crate::digits::put_number;
use std::marker::Model;

/// How many bytes a short text holds.
pub const CAPACITY: usize = 704;

/// The most digits of a number of 64 bits.
pub const MOST_DIGITS: usize = 20;

/// A text of at most `CAPACITY` bytes, which contracts see as the list of its bytes.
#[derive(Drop)]
pub struct ShortText {
    bytes: [u8; CAPACITY],
    len: usize,
}

impl Model for ShortText {
    ghost use Rattle.std.specs.Prelude.{ℕ, ◌≤◌, List, take};
    ghost use Rattle.tsn_encoding.specs.declared.text.TheConstants.{CAPACITY};

    ghost Value = { List ℕ };

    ghost view = { λ t. take t.len t.bytes };

    ghost invariant = { λ t. t.len ≤ CAPACITY };
}

impl ShortText {
    /// The empty text.
    pub fn new() -> ShortText
        ensures { result ≡ [] }
    {
        ShortText {
            bytes: [0; CAPACITY],
            len: 0,
        }
    }

    /// Puts the bytes at the end. There must be room for them.
    pub fn push_bytes(&mut self, piece: &[u8])
        requires { length self.old + length piece.now ≤ CAPACITY }
        ensures text { self.new ≡ self.old ++ piece.now }
        ensures len { length self.new ≡ length self.old + length piece.now }
    {
        let end = self.len + piece.len();
        self.bytes[self.len..end].copy_from_slice(piece);
        self.len = end;
    }

    /// Puts the piece at the end. There must be room for it.
    #[inline(always)]
    pub fn push(&mut self, piece: &str)
        requires { length self.old + length piece.now ≤ CAPACITY }
        ensures text { self.new ≡ self.old ++ piece.now }
        ensures len { length self.new ≡ length self.old + length piece.now }
    {
        // Byte by byte, which for a constant piece is a store of whole words.
        let piece = piece.as_bytes();
        let at = self.len;
        for (place, byte) in piece.iter().enumerate() {
            self.bytes[at + place] = *byte;
        }
        self.len = at + piece.len();
    }

    /// As `push`, by a copy, for a piece that is not known before the program runs.
    pub fn push_copied(&mut self, piece: &str)
        requires { length self.old + length piece.now ≤ CAPACITY }
        ensures text { self.new ≡ self.old ++ piece.now }
        ensures len { length self.new ≡ length self.old + length piece.now }
    {
        self.push_bytes(piece.as_bytes());
    }

    /// Puts the number at the end, in decimal digits. There must be room for 20.
    pub fn push_number(&mut self, number: u64)
        requires { length self.old + MOST_DIGITS ≤ CAPACITY }
        ensures text { self.new ≡ self.old ++ decimal number }
        ensures len { length self.new ≤ length self.old + MOST_DIGITS }
    {
        self.len = put_number(&mut self.bytes, self.len, number);
    }

    /// The text is empty again.
    pub fn clear(&mut self)
        ensures { self.new ≡ [] }
    {
        self.len = 0;
    }

    /// The bytes of the text.
    pub fn as_slice(&self) -> &[u8]
        ensures { result.now ≡ self.now }
    {
        &self.bytes[..self.len]
    }
}
