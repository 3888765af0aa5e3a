//! A responder that tells lines apart by their length alone, and a reader that never ends.
ghost use Rattle.std.specs.Prelude.{◌≡◌, None, false};

use std::alloc::Global;
use tsn_bytes::{ByteIn, ByteOut, Failed, put_all};
use tsn_serve::{Ended, Responder};

/// Answers an empty line with `empty`, a line of 131,072 bytes with `longest`, a longer one with `too long`, and any
/// other with `line`.
#[derive(Drop)]
pub struct Lengths {
    pub answered: u32,
}

impl Responder for Lengths {
    ghost answers = { λ _ _ _ _. Unit {0} };

    ghost breaks = { λ _ _ _ _ _. Unit {0} };

    fn answer<W: ByteOut>(&mut self, _: Global, line: Option<&[u8]>, writer: &mut W) -> Ended {
        self.answered = self.answered.saturating_add(1);
        let Some(line) = line else {
            return put_all(writer, b"too long\n");
        };
        match line.len() {
            0 => put_all(writer, b"empty\n"),
            131072 => put_all(writer, b"longest\n"),
            _ => put_all(writer, b"line\n"),
        }
    }
}

/// Gives one line feed a call, for ever.
#[derive(Drop)]
pub struct LineFeeds {
    pub calls: u64,
}

impl ByteIn for LineFeeds {
    ghost remaining = { λ _. None };

    ghost calls = { λ r. r.calls };

    ghost has_failed = { λ _. false };

    fn pull(&mut self, buffer: &mut [u8]) -> Result<usize, Failed> {
        self.calls = self.calls.saturating_add(1);
        if buffer.is_empty() {
            return Ok(0);
        }
        buffer[0] = b'\n';
        Ok(1)
    }
}
