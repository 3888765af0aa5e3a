//! The writing of lines, and the digest that goes on from each to the next.
ghost use Rattle.std.specs.Prelude.{◌≡◌, ◌+◌, ◌^◌, ◌<◌, ◌≤◌, ◌++◌, [], vec_len, vec_capacity, length, take, OnOk, OnErr};
ghost use Rattle.tsn_recorded.specs.Text.{Recorded, body_of, digest_after, digest_length, longest_after, text_of};

use crate::digest::digest_of_parts;
use crate::line::{LONGEST_FIRST_LINE, LONGEST_LINE};
use std::alloc::AllocError;
use std::marker::Model;
use tsn_bytes::append;

/// The bytes of a line's text beside its stamp and its command: the digest, two spaces and the line feed.
pub const AROUND: usize = 35;

/// The digest from which the next line goes on: none ahead of the first line. A contract sees its digits, 32 or none.
#[derive(Drop)]
pub struct Chain {
    digest: Option<[u8; 32]>,
}

impl Model for Chain {
    ghost use Rattle.std.specs.Prelude.{ℕ, List, [], unwrap_or};

    ghost Value = { List ℕ };

    ghost view = { λ c. unwrap_or c.digest [] };
}

impl Chain {
    /// The chain of a file with no line.
    pub fn new() -> Chain
        ensures { result ≡ [] }
    {
        Chain { digest: None }
    }

    /// The digits of the last digest.
    pub fn last(&self) -> &[u8]
        ensures { result.now ≡ self.now }
    {
        match &self.digest {
            Some(digest) => digest,
            None => &[],
        }
    }

    // Another at the same place.
    pub(crate) fn copied(&self) -> Chain
        ensures { result ≡ self.now }
    {
        Chain {
            digest: self.digest,
        }
    }

    // The bytes of the longest line that may come next, the line feed not counted.
    pub(crate) fn longest(&self) -> usize
        ensures { result ≡ longest_after self.now }
    {
        if self.last().is_empty() {
            return LONGEST_FIRST_LINE;
        }
        LONGEST_LINE
    }

    // Goes on behind the line that these bytes begin with.
    pub(crate) fn go_behind(&mut self, line: &[u8])
        requires { digest_length ≤ length line.now }
        ensures { self.new ≡ take digest_length line.now }
    {
        let mut digest = [0u8; 32];
        digest.copy_from_slice(&line[..32]);
        self.digest = Some(digest);
    }

    /// Moves on behind a line with this stamp and this command, which the caller writes: `last` gives its digest.
    pub fn move_on(&mut self, stamp: &[u8], command: &[u8])
        ensures { let r : Recorded = record { stamp = stamp.now; command = command.now } in
            self.new ≡ digest_after self.old (body_of r) }
    {
        self.digest = Some(digest_of_parts(self.last(), stamp, command));
    }

    /// Puts a line with this stamp and this command behind what the buffer has, where there is room. It takes no
    /// memory.
    pub fn put(&mut self, buffer: &mut Vec<u8>, stamp: &[u8], command: &[u8])
        requires { vec_len buffer.old + (length stamp.now + length command.now + AROUND) ≤ vec_capacity buffer.old }
        ensures grows { let r : Recorded = record { stamp = stamp.now; command = command.now } in
            buffer.new.items ≡ buffer.old.items ++ text_of self.old r }
        ensures moves { let r : Recorded = record { stamp = stamp.now; command = command.now } in
            self.new ≡ digest_after self.old (body_of r) }
        ensures room { vec_capacity buffer.old ≤ vec_capacity buffer.new }
    {
        let digest = digest_of_parts(self.last(), stamp, command);
        append(buffer, &digest);
        append(buffer, b" ");
        append(buffer, stamp);
        append(buffer, b" ");
        append(buffer, command);
        append(buffer, b"\n");
        self.digest = Some(digest);
    }

    /// The same, where there may be no room yet. Want of memory is the only error, and changes neither bytes nor
    /// digest.
    pub fn append(
        &mut self,
        buffer: &mut Vec<u8>,
        stamp: &[u8],
        command: &[u8],
    ) -> Result<(), AllocError>
        requires { length stamp.now + length command.now + AROUND < 2 ^ 64 }
        ensures grows { let r : Recorded = record { stamp = stamp.now; command = command.now } in
            OnOk result (buffer.new.items ≡ buffer.old.items ++ text_of self.old r) }
        ensures moves { let r : Recorded = record { stamp = stamp.now; command = command.now } in
            OnOk result (self.new ≡ digest_after self.old (body_of r)) }
        ensures refused { OnErr result ((buffer.new.items ≡ buffer.old.items) × (self.new ≡ self.old)) }
    {
        buffer.reserve(stamp.len() + command.len() + AROUND)?;
        self.put(buffer, stamp, command);
        Ok(())
    }
}
