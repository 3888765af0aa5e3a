//! A call of std that a signal may interrupt: how often it may be made again, and how it stands. The fields are private
//! to this file, so that a call counts as done only where std's call works, and as failed only where std gave an error.
ghost use Rattle.std.specs.Prelude.{◌≡◌, ◌<◌, ◌↔◌, IsTrue, MatchResult, true, false};
ghost use Rattle.std.specs.Io.{ReadsAtMost, WritesAtMost};
ghost use Rattle.std.specs.Io.KnownBytes.{Keeps, ReadConsumes, WriteAppends};
ghost use Rattle.std.specs.IoError.{error_kind};
ghost use Rattle.tsn_bytes.specs.Standard.{most_tries, IsDone, HasFailedBy};

use std::io;
use std::io::{ErrorKind, Read, Write};
use std::marker::Model;

// How often a call is made at most.
const TRIES: u64 = u64::MAX;

/// A reader or writer of std, and the call that is being made of it. A contract sees it, how often the call may still
/// be tried, and whether it worked.
#[derive(Drop)]
pub struct Attempts<T> {
    inner: T,
    tries_left: u64,
    is_done: bool,
}

impl<T> Model for Attempts<T> {
    ghost use Rattle.tsn_bytes.specs.Standard.{Attempt};

    ghost Value = { Attempt T };

    ghost view = { λ a. record { inner = a.inner; tries_left = a.tries_left; is_done = a.is_done } };
}

impl<T> Attempts<T> {
    /// The reader or writer, before its first call.
    pub fn new(inner: T) -> Attempts<T>
        ensures { result ≡ record { inner = inner; tries_left = most_tries; is_done = false } }
    {
        Attempts {
            inner,
            tries_left: TRIES,
            is_done: false,
        }
    }

    /// Begins a call.
    pub fn begin(&mut self)
        ensures { self.new ≡ record { inner = self.old.inner; tries_left = most_tries; is_done = false } }
    {
        self.tries_left = TRIES;
        self.is_done = false;
    }

    /// Whether the call may be tried.
    pub fn may_try(&self) -> bool
        ensures { IsTrue result ↔ (0 < self.now.tries_left) }
    {
        self.tries_left > 0
    }

    // Takes note of what a try gave, and gives it on: of the tries that are left a signal's interruption takes one, and
    // any other error takes all.
    fn noted<N>(&mut self, given: io::Result<N>) -> io::Result<N>
        requires { 0 < self.old.tries_left }
        ensures same { result ≡ given }
        ensures inner { self.new.inner ≡ self.old.inner }
        ensures stands { MatchResult given (λ _. IsDone self.new) (λ e. HasFailedBy (error_kind e) self.old self.new) }
    {
        match &given {
            Ok(_) => self.is_done = true,
            Err(error) if error.kind() == ErrorKind::Interrupted => self.tries_left -= 1,
            Err(_) => self.tries_left = 0,
        }
        given
    }

    /// A try of a read.
    pub fn read(&mut self, buffer: &mut [u8]) -> io::Result<usize>
    where
        T: Read,
        requires { 0 < self.old.tries_left }
        ensures bound { ReadsAtMost result buffer.new }
        ensures bytes { ReadConsumes (T.remaining self.old.inner) (T.remaining self.new.inner) result buffer.new }
        ensures stands { MatchResult result (λ _. IsDone self.new) (λ e. HasFailedBy (error_kind e) self.old self.new) }
    {
        let given = self.inner.read(buffer);
        self.noted(given)
    }

    /// A try of a write.
    pub fn write(&mut self, bytes: &[u8]) -> io::Result<usize>
    where
        T: Write,
        requires { 0 < self.old.tries_left }
        ensures bound { WritesAtMost result bytes.now }
        ensures bytes { WriteAppends (T.contents self.old.inner) (T.contents self.new.inner) result bytes.now }
        ensures stands { MatchResult result (λ _. IsDone self.new) (λ e. HasFailedBy (error_kind e) self.old self.new) }
    {
        let given = self.inner.write(bytes);
        self.noted(given)
    }

    /// A try of a flush.
    pub fn flush(&mut self) -> io::Result<()>
    where
        T: Write,
        requires { 0 < self.old.tries_left }
        ensures bytes { Keeps (T.contents self.old.inner) (T.contents self.new.inner) }
        ensures stands { MatchResult result (λ _. IsDone self.new) (λ e. HasFailedBy (error_kind e) self.old self.new) }
    {
        let given = self.inner.flush();
        self.noted(given)
    }
}
