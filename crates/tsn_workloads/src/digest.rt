//! A writer that keeps nothing but a digest of all bytes that it took: their sum, and the sum of all sums so far.
ghost use Rattle.std.specs.Prelude.{[], None, false};

use tsn_bytes::{ByteOut, Failed};

/// A digest of the bytes so far, after Fletcher.
#[derive(Clone, Copy)]
pub struct Digest {
    sum: u64,
    sums: u64,
    taken: u64,
}

impl Digest {
    pub fn new() -> Digest {
        Digest {
            sum: 0,
            sums: 0,
            taken: 0,
        }
    }

    /// How many bytes came.
    pub fn taken(&self) -> u64 {
        self.taken
    }

    /// The digest of all of them.
    pub fn value(&self) -> u64 {
        self.sums ^ self.sum.rotate_left(40)
    }
}

impl ByteOut for Digest {
    ghost taken = { λ _. None };

    ghost pending = { λ _. [] };

    ghost has_failed = { λ _. false };

    fn put(&mut self, bytes: &[u8]) -> Result<usize, Failed> {
        let mut sum = self.sum;
        let mut sums = self.sums;
        for byte in bytes {
            sum = sum.wrapping_add(*byte as u64);
            sums = sums.wrapping_add(sum);
        }
        self.sum = sum;
        self.sums = sums;
        self.taken = self.taken.wrapping_add(bytes.len() as u64);
        Ok(bytes.len())
    }

    fn flush(&mut self) -> Result<(), Failed> {
        Ok(())
    }
}
