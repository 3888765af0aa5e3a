//! The wall time that a line of a journal file tells. Nothing is decided by it.
ghost use Rattle.std.specs.Prelude.{◌≡◌, ◌≢◌, All};
ghost use Rattle.std.specs.Bool.{OnTrue};
ghost use Rattle.tsn_keeping.specs.Stamps.{IsStamp};

use memchr::memchr2;
use std::marker::Model;

/// How many bytes a stamp has, as in `2026-11-27T12:31:00Z`.
pub const STAMP_LENGTH: usize = 20;

/// The first instant that there is, which stands where the time is not known.
const UNKNOWN: [u8; 20] = *b"0000-01-01T00:00:00Z";

/// A stamp: 20 bytes, none of which is a space or a line feed.
#[derive(Drop)]
pub struct Stamp {
    bytes: [u8; 20],
}

impl Model for Stamp {
    ghost use Rattle.std.specs.Prelude.{ℕ, List};
    ghost use Rattle.tsn_keeping.specs.Stamps.{IsStamp};

    ghost Value = { List ℕ };

    ghost view = { λ s. s.bytes };

    ghost invariant = { λ s. IsStamp s.bytes };
}

impl Stamp {
    /// The stamp of a text; of one that is none, that of an unknown time.
    pub fn of(text: &[u8]) -> Stamp
        ensures { IsStamp result }
    {
        let mut bytes = UNKNOWN;
        if text.len() == STAMP_LENGTH && is_word(text) {
            bytes.copy_from_slice(text);
        }
        Stamp { bytes }
    }

    /// Another of the same moment.
    pub fn again(&self) -> Stamp
        ensures { result ≡ self.now }
    {
        Stamp { bytes: self.bytes }
    }

    /// Its bytes.
    pub fn bytes(&self) -> &[u8]
        ensures bytes { result.now ≡ self.now }
        ensures stamp { IsStamp self.now }
    {
        &self.bytes
    }
}

// Whether no byte is a space or a line feed.
fn is_word(text: &[u8]) -> bool
    ensures { OnTrue result (All (λ b. (b ≢ 32) × (b ≢ 10)) text.now) }
{
    memchr2(b' ', b'\n', text).is_none()
}

/// What tells the time.
pub trait Clock: Drop {
    /// The stamp of this moment.
    fn stamp(&mut self) -> Stamp;
}
