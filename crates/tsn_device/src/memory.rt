//! A device in memory, for tests. It fails at the call that it is told to fail at, and gives each text that a crash may
//! leave.
ghost use Rattle.std.specs.Prelude.{◌≡◌, ◌≤◌, ◌↔◌, ◌++◌, Some, [], true, false, length, take, IsErr, IsTrue, OnOk, OnErr};
ghost use Rattle.tsn_device.specs.Kept.{IsCutShort, LeavesFront};
ghost use Rattle.tsn_bytes.specs.Memory.{one_call_later};

use crate::device::{Device, Failed};
use std::marker::Model;
use tsn_bytes::is_due;

/// Bytes in memory, of which a front counts as kept.
#[derive(Drop)]
pub struct MemoryDevice {
    bytes: Vec<u8>,
    kept: usize,
    fails_after: Option<u64>,
    takes: usize,
    works: bool,
}

impl Model for MemoryDevice {
    ghost use Rattle.std.specs.Prelude.{◌≤◌, vec_len, take, drop};
    ghost use Rattle.tsn_device.specs.Memory.{Memory};

    ghost Value = { Memory };

    ghost view = { λ m. record {
      kept = take m.kept m.bytes.items;
      loose = drop m.kept m.bytes.items;
      fails_after = m.fails_after;
      takes = m.takes;
      works = m.works;
    } };

    ghost invariant = { λ m. m.kept ≤ vec_len m.bytes };
}

impl MemoryDevice {
    /// A device with this text, which it keeps. The append or sync behind so many others fails, and an append that does
    /// takes at most `takes` bytes; with none, none fails but for want of memory.
    pub fn new(bytes: Vec<u8>, fails_after: Option<u64>, takes: usize) -> MemoryDevice
        ensures { result ≡ record { kept = bytes.items; loose = []; fails_after = fails_after; takes = takes; works = true } }
    {
        let kept = bytes.len();
        MemoryDevice {
            bytes,
            kept,
            fails_after,
            takes,
            works: true,
        }
    }

    /// How many bytes are kept.
    pub fn kept(&self) -> usize
        ensures { result ≡ length self.now.kept }
    {
        self.kept
    }

    /// All that was written.
    pub fn written(&self) -> &[u8]
        ensures { result.now ≡ self.now.kept ++ self.now.loose }
    {
        self.bytes.as_slice()
    }

    /// What a crash may leave: all that is kept, and the next `n` bytes of what was written behind it.
    pub fn left_by_crash(&self, n: usize) -> &[u8]
        requires { n ≤ length self.now.loose }
        ensures front { result.now ≡ self.now.kept ++ take n self.now.loose }
        ensures may { LeavesFront self.now.kept self.now.loose result.now }
    {
        &self.bytes[..self.kept + n]
    }
}

impl Device for MemoryDevice {
    ghost kept = { λ m. m.kept };

    ghost loose = { λ m. m.loose };

    ghost works = { λ m. m.works };

    fn append(&mut self, bytes: &[u8]) -> Result<(), Failed>
        ensures ok { OnOk result (self.new.loose ≡ self.old.loose ++ bytes.now) }
        ensures cut { OnErr result (IsCutShort self.old.loose self.new.loose bytes.now) }
        ensures kept { self.new.kept ≡ self.old.kept }
        ensures worked { OnOk result (self.new.works ≡ self.old.works) }

        // Which call fails. An error also comes where the bytes cannot grow.
        ensures due { self.old.fails_after ≡ Some 0 → IsErr result }
        ensures later { self.new.fails_after ≡ one_call_later self.old.fails_after }
        ensures failed { OnErr result (self.new.works ≡ false) }
    {
        let is_due = is_due(&mut self.fails_after);
        let count = if is_due {
            bytes.len().min(self.takes)
        } else {
            bytes.len()
        };
        if self.bytes.extend_from_slice(&bytes[..count]).is_err() {
            self.works = false;
            return Err(Failed);
        }
        if is_due {
            self.works = false;
            return Err(Failed);
        }
        Ok(())
    }

    fn sync(&mut self) -> Result<(), Failed>
        ensures kept { OnOk result (self.new.kept ≡ self.old.kept ++ self.old.loose) }
        ensures none { OnOk result (self.new.loose ≡ []) }
        ensures as_before { OnErr result ((self.new.kept ≡ self.old.kept) × (self.new.loose ≡ self.old.loose)) }
        ensures worked { OnOk result (self.new.works ≡ self.old.works) }
        ensures due { IsErr result ↔ (self.old.fails_after ≡ Some 0) }
        ensures later { self.new.fails_after ≡ one_call_later self.old.fails_after }
        ensures failed { OnErr result (self.new.works ≡ false) }
    {
        if is_due(&mut self.fails_after) {
            self.works = false;
            return Err(Failed);
        }
        self.kept = self.bytes.len();
        Ok(())
    }
}
