//! Who is told of connections, and the writer that tells of a connection's end.
ghost use Rattle.std.specs.Prelude.{◌≡◌};

use crate::tally::{Tally, Told};
use std::net::SocketAddr;
use tsn_bytes::{ByteOut, Failed};

/// Who is told of connections as they begin and end. Several threads tell at once.
pub trait Log {
    /// The connection of this number begins: over TCP from this peer, over a path from none.
    fn begins(&self, number: u32, peer: Option<SocketAddr>);

    /// It has ended, and this is what its replies told.
    fn ends(&self, number: u32, told: Told);
}

/// The writer of a connection. Where there is a log, it looks at the replies that are given to it, and tells of the end
/// as it is let go.
pub struct LoggedWriter<'a, O: ByteOut + Drop, L: Log> {
    inner: O,
    log: Option<&'a L>,
    number: u32,
    tally: Tally,
    // How many bytes at the front of what is given next were looked at: they were given before, and not taken.
    seen: usize,
}

impl<'a, O: ByteOut + Drop, L: Log> LoggedWriter<'a, O, L> {
    /// The writer of this connection.
    pub fn new(inner: O, log: Option<&'a L>, number: u32) -> LoggedWriter<'a, O, L> {
        LoggedWriter {
            inner,
            log,
            number,
            tally: Tally::new(),
            seen: 0,
        }
    }

    // Looks at what was not looked at yet.
    fn look(&mut self, bytes: &[u8])
        ensures { self.new.inner ≡ self.old.inner }
    {
        if self.seen < bytes.len() {
            self.tally.read(&bytes[self.seen..]);
            self.seen = bytes.len();
        }
    }
}

impl<O: ByteOut + Drop, L: Log> Drop for LoggedWriter<'_, O, L> {
    fn drop(self) {
        let LoggedWriter {
            inner: _,
            log,
            number,
            tally,
            seen: _,
        } = self;
        if let Some(log) = log {
            log.ends(number, tally.told());
        }
    }
}

impl<O: ByteOut + Drop, L: Log> ByteOut for LoggedWriter<'_, O, L> {
    ghost taken = { λ w. O.taken w.inner };

    ghost pending = { λ w. O.pending w.inner };

    ghost has_failed = { λ w. O.has_failed w.inner };

    fn put(&mut self, bytes: &[u8]) -> Result<usize, Failed> {
        if self.log.is_some() {
            self.look(bytes);
        }
        let count = self.inner.put(bytes)?;
        self.seen = self.seen.saturating_sub(count);
        Ok(count)
    }

    fn flush(&mut self) -> Result<(), Failed> {
        self.inner.flush()
    }
}
