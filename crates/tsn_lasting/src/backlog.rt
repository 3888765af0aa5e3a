//! Replies that wait, in memory that is taken once.
ghost use Rattle.std.specs.Prelude.{◌≡◌, ◌+◌, ◌≤◌, ◌++◌, [], Some, false, true, length, take, IfOk, IsFalse, IsTrue};
ghost use Rattle.tsn_replies.specs.Replies.{reply_text};

use std::alloc::{AllocError, Global};
use std::marker::Model;
use tsn_bridge::reply::Reply;
use tsn_bytes::{ByteOut, Failed};
use tsn_replies::write_reply;

/// The most bytes of replies that wait.
const CAPACITY: usize = 65_536;

/// Bytes in room for so many; a put that finds none left fails. A contract sees the bytes, and whether a put has
/// failed.
#[derive(Drop)]
pub struct Backlog {
    bytes: Vec<u8>,
    has_failed: bool,
}

impl Model for Backlog {
    ghost use Rattle.std.specs.Prelude.{◌≤◌, vec_capacity, vec_len};
    ghost use Rattle.tsn_lasting.specs.Standing.{Replies};

    ghost Value = { Replies };

    ghost view = { λ g. record { bytes = g.bytes.items; has_failed = g.has_failed } };

    ghost invariant = { λ g. (vec_len g.bytes ≤ 65536) × (65536 ≤ vec_capacity g.bytes) };
}

impl Backlog {
    /// No bytes, and the memory for all that may wait.
    pub fn new(alloc: Global) -> Result<Backlog, AllocError>
        ensures { IfOk result (λ g. g ≡ record { bytes = []; has_failed = false }) }
    {
        let bytes = Vec::with_capacity(alloc, CAPACITY)?;
        Ok(Backlog {
            bytes,
            has_failed: false,
        })
    }

    /// How many there are.
    pub fn len(&self) -> usize
        ensures { result ≡ length self.now.bytes }
    {
        self.bytes.len()
    }

    /// All of them.
    pub fn bytes(&self) -> &[u8]
        ensures { result.now ≡ self.now.bytes }
    {
        self.bytes.as_slice()
    }

    /// Leaves the first ones alone, as many as that.
    pub fn cut(&mut self, len: usize)
        ensures { self.new ≡ record { bytes = take len self.old.bytes; has_failed = false } }
    {
        self.bytes.truncate(len);
        self.has_failed = false;
    }

    /// Puts a reply behind them, where there is room for all of it, and says whether there was.
    pub fn hold(&mut self, reply: &Reply) -> bool
        ensures all { IsTrue result → self.new.bytes ≡ self.old.bytes ++ reply_text reply.now }
        ensures none { IsFalse result → self.new.bytes ≡ self.old.bytes }
    {
        let before = self.len();
        if write_reply(self, reply).is_ok() {
            return true;
        }
        self.cut(before);
        false
    }

    // Puts the piece behind the bytes, where there is room.
    fn push(&mut self, piece: &[u8])
        requires { length self.old.bytes + length piece.now ≤ CAPACITY }
        ensures { self.new ≡ record self.old { bytes = self.old.bytes ++ piece.now } }
    {
        let Ok(()) = self.bytes.extend_from_slice(piece) else {
            unreachable!()
        };
    }
}

impl ByteOut for Backlog {
    ghost taken = { λ g. Some g.bytes };

    ghost pending = { λ g. [] };

    ghost has_failed = { λ g. g.has_failed };

    fn put(&mut self, bytes: &[u8]) -> Result<usize, Failed> {
        let count = bytes.len().min(CAPACITY - self.bytes.len());
        if count == 0 && !bytes.is_empty() {
            self.has_failed = true;
            return Err(Failed);
        }
        self.push(&bytes[..count]);
        Ok(count)
    }

    fn flush(&mut self) -> Result<(), Failed> {
        Ok(())
    }
}

/// A writer that takes nothing.
#[derive(Drop)]
pub struct Nowhere;

impl ByteOut for Nowhere {
    ghost taken = { λ n. Some [] };

    ghost pending = { λ n. [] };

    ghost has_failed = { λ n. true };

    fn put(&mut self, _bytes: &[u8]) -> Result<usize, Failed> {
        Err(Failed)
    }

    fn flush(&mut self) -> Result<(), Failed> {
        Ok(())
    }
}
