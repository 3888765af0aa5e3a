//! Bytes that were fed and not let go.
ghost use Rattle.std.specs.Prelude.{◌≡◌, ◌≢◌, ◌+◌, ◌-◌, ◌<◌, ◌≤◌, ◌++◌, [], All, length, drop, take, slice_index, slice_range, OnOk, OnErr, IfSome, IfNone};
ghost use Rattle.tsn_recorded.specs.Text.{line_feed};
ghost use Rattle.tsn_recorded.specs.Reading.{BeginsWithLine, IsSought};

use memchr::memchr;
use std::alloc::{AllocError, Global};
use std::marker::Model;

// A contract sees the bytes that are held. A line feed is sought in each of them once.
#[derive(Drop)]
pub(crate) struct Held {
    // Those from `from` on are held, the others were let go.
    bytes: Vec<u8>,
    from: usize,
    // No line feed is among those held ahead of this place.
    sought: usize,
}

impl Model for Held {
    ghost use Rattle.std.specs.Prelude.{ℕ, List, drop};
    ghost use Rattle.tsn_recorded.specs.Reading.{IsSought};

    ghost Value = { List ℕ };

    ghost view = { λ h. drop h.from h.bytes.items };

    ghost invariant = { λ h. IsSought h.bytes.items h.from h.sought };
}

impl Held {
    pub(crate) fn new(alloc: Global) -> Held
        ensures { result ≡ [] }
    {
        Held {
            bytes: Vec::new(alloc),
            from: 0,
            sought: 0,
        }
    }

    pub(crate) fn bytes(&self) -> &[u8]
        ensures { result.now ≡ self.now }
    {
        &self.bytes[self.from..]
    }

    // How many bytes the first line has; none where no line feed ends it.
    pub(crate) fn line_len(&mut self) -> Option<usize>
        ensures line { IfSome result (BeginsWithLine self.new) }
        ensures none { IfNone result (All (λ b. b ≢ line_feed) self.new) }
        ensures stays { self.new ≡ self.old }
    {
        self.sought = line_end(self.bytes.as_slice(), self.from, self.sought);
        if self.sought == self.bytes.len() {
            return None;
        }
        Some(self.sought - self.from)
    }

    // Lets so many bytes go.
    pub(crate) fn pass(&mut self, count: usize)
        requires { count ≤ length self.old }
        ensures { self.new ≡ drop count self.old }
    {
        self.from += count;
        if self.sought < self.from {
            self.sought = self.from;
        }
    }

    // Makes room of what was let go, once it is as much as what is held, so that no byte is moved often.
    fn make_room(&mut self)
        ensures { self.new ≡ self.old }
    {
        let count = self.bytes.len() - self.from;
        if count <= self.from {
            self.bytes.copy_within(self.from.., 0);
            self.bytes.truncate(count);
            self.sought -= self.from;
            self.from = 0;
        }
    }

    // Holds a further piece. Want of memory is the only error.
    pub(crate) fn append(&mut self, piece: &[u8]) -> Result<(), AllocError>
        ensures fed { OnOk result (self.new ≡ self.old ++ piece.now) }
        ensures refused { OnErr result (self.new ≡ self.old) }
    {
        self.make_room();
        self.bytes.extend_from_slice(piece)
    }
}

// The place of the first line feed from `from` on, which is not ahead of `sought`; the end of the bytes where there is
// none.
fn line_end(bytes: &[u8], from: usize, sought: usize) -> usize
    requires { IsSought bytes.now from sought }
    ensures sought { IsSought bytes.now from result }
    ensures ended { result < length bytes.now → slice_index bytes.now result ≡ line_feed }
{
    match memchr(b'\n', &bytes[sought..]) {
        Some(count) => sought + count,
        None => bytes.len(),
    }
}
