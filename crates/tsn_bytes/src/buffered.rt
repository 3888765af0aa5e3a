//! A writer that gathers small writes and hands them on together. It relies on the writer behind it, to which it gives
//! all that it holds when it is full or flushed. A failure of that one is the only failure here.
ghost use Rattle.std.specs.Prelude.{◌≡◌, ◌+◌, ◌-◌, ◌<◌, ◌≤◌, ◌++◌, [], vec_len, vec_capacity, length, take, min, true, IfOk, OnOk, OnErr};
ghost use Rattle.std.specs.Io.KnownBytes.{append_known, Keeps};
ghost use Rattle.tsn_bytes.specs.Buffered.{most_held};

use crate::bytes::{ByteOut, Failed};
use std::alloc::{AllocError, Global};
use std::marker::Model;

// The most bytes that are held.
const CAPACITY: usize = 65536;

/// A writer in front of another. A contract sees the other one, the bytes that it has not been given yet, and how many
/// more fit behind them. It has failed where the other one has: it keeps no mark of its own.
#[derive(Drop)]
pub struct Buffered<W> {
    inner: W,
    // Those from `start` on are held; the others are handed on.
    bytes: Vec<u8>,
    start: usize,
}

impl<W> Model for Buffered<W> {
    ghost use Rattle.std.specs.Prelude.{◌≤◌, ◌-◌, drop, vec_len, vec_capacity};
    ghost use Rattle.tsn_bytes.specs.Buffered.{Held, most_held};

    ghost Value = { Held W };

    ghost view = { λ b. record {
      inner = b.inner;
      pending = drop b.start b.bytes.items;
      room = most_held - vec_len b.bytes;
    } };

    ghost invariant = { λ b. (b.start ≤ vec_len b.bytes) × (vec_len b.bytes ≤ most_held)
        × (most_held ≤ vec_capacity b.bytes) };
}

impl<W: ByteOut> Buffered<W> {
    /// A writer in front of this one, which holds nothing yet. It takes memory for all that it will hold.
    pub fn new(alloc: Global, inner: W) -> Result<Buffered<W>, AllocError>
    where
        W: Drop,
        ensures { IfOk result (λ b. b ≡ record {
          inner = inner;
          pending = [];
          room = most_held;
        }) }
    {
        let bytes = Vec::with_capacity(alloc, CAPACITY)?;
        Ok(Buffered {
            inner,
            bytes,
            start: 0,
        })
    }

    /// The writer behind.
    pub fn inner(&self) -> &W
        ensures { result.now ≡ self.now.inner }
    {
        &self.inner
    }

    // Gives all that is held to the writer behind.
    fn hand_on(&mut self) -> Result<(), Failed>
        ensures bytes { Keeps (append_known (W.taken self.old.inner) self.old.pending)
            (append_known (W.taken self.new.inner) self.new.pending) }
        ensures ok { OnOk result ((self.new.pending ≡ []) × (self.new.room ≡ most_held)) }
        ensures worked { OnOk result (W.has_failed self.new.inner ≡ W.has_failed self.old.inner) }
        ensures failed { OnErr result (W.has_failed self.new.inner ≡ true) }
    {
        'puts: while self.start < self.bytes.len() {
            let count = match self.inner.put(&self.bytes[self.start..]) {
                Ok(count) => count,
                Err(failed) => return Err(failed),
            };
            if count == 0 {
                return Err(Failed);
            }
            self.start += count;
        }
        self.bytes.clear();
        self.start = 0;
        Ok(())
    }

    // Sees that there is room for a byte.
    fn make_room(&mut self) -> Result<(), Failed>
        ensures bytes { Keeps (append_known (W.taken self.old.inner) self.old.pending)
            (append_known (W.taken self.new.inner) self.new.pending) }
        ensures ok { OnOk result (0 < self.new.room) }
        ensures worked { OnOk result (W.has_failed self.new.inner ≡ W.has_failed self.old.inner) }
        ensures failed { OnErr result (W.has_failed self.new.inner ≡ true) }
    {
        if self.bytes.len() == CAPACITY {
            self.hand_on()?;
        }
        Ok(())
    }

    // Holds as many of the bytes as there is room for, and says how many.
    fn hold(&mut self, bytes: &[u8]) -> usize
        ensures count { result ≡ min (length bytes.now) self.old.room }
        ensures held { self.new ≡ record {
          inner = self.old.inner;
          pending = self.old.pending ++ take result bytes.now;
          room = self.old.room - result;
        } }
    {
        let count = bytes.len().min(CAPACITY - self.bytes.len());
        append(&mut self.bytes, &bytes[..count]);
        count
    }
}

/// Puts the piece behind the bytes, where there is room.
#[inline(always)]
pub fn append(bytes: &mut Vec<u8>, piece: &[u8])
    requires { vec_len bytes.old + length piece.now ≤ vec_capacity bytes.old }
    ensures items { bytes.new.items ≡ bytes.old.items ++ piece.now }
    ensures len { vec_len bytes.new ≡ vec_len bytes.old + length piece.now }
    ensures capacity { vec_capacity bytes.old ≤ vec_capacity bytes.new }
{
    let Ok(()) = bytes.extend_from_slice(piece) else {
        unreachable!()
    };
}

impl<W: ByteOut> ByteOut for Buffered<W> {
    ghost taken = { λ b. append_known (W.taken b.inner) b.pending };

    ghost pending = { λ b. W.pending b.inner ++ b.pending };

    ghost has_failed = { λ b. W.has_failed b.inner };

    fn put(&mut self, bytes: &[u8]) -> Result<usize, Failed> {
        self.make_room()?;
        Ok(self.hold(bytes))
    }

    fn has_room(&self, bytes: usize) -> bool {
        bytes <= CAPACITY - self.bytes.len()
    }

    fn flush(&mut self) -> Result<(), Failed> {
        self.hand_on()?;
        self.inner.flush()
    }
}
