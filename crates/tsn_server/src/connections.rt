//! Connections that a listener takes.
ghost use Rattle.std.specs.Prelude.{◌≤◌};
ghost use Rattle.std.specs.Option.{ForSome};

use std::io::ErrorKind;
use std::net::TcpStream;
use std::sync::atomic::{AtomicBool, AtomicU64, Ordering};
use std::sync::{Mutex, Wait};
use std::time::{Clock, Duration};
use std::{io, thread};
use tsn_bytes::StdIo;
use tsn_serve::Source;
use tsn_sockets::{Listener, Log, LoggedWriter};

// How often a call that a signal interrupts is made again, and a connection sought.
pub(crate) const TRIES: u64 = u64::MAX;

/// How many numbers of connections there are. Where they are used up, they begin anew.
const NUMBERS: u64 = u32::MAX as u64;

/// How long a thread waits, in milliseconds, ahead of its next try where no connection can be taken.
const PAUSE: u64 = 100;

/// A connection: its number, its reader and its writer.
pub(crate) type Ends<'a, L> = (u32, StdIo<TcpStream>, LoggedWriter<'a, StdIo<TcpStream>, L>);

/// Connections that a listener takes, so many at most or without end, numbered from 1. Where there is a log, it is told
/// of each.
#[derive(Drop)]
pub struct SocketSource<'a, R: Clock, L: Log> {
    rt: &'a R,
    listener: Listener,
    asked: AtomicU64,
    most: Option<u64>,
    idle: Option<Duration>,
    log: Option<&'a L>,
    // A thread that waits for a connection holds a descriptor for it already, so one waits at a time.
    accepting: Mutex<()>,
    is_closed: AtomicBool,
    ghost few: { ForSome most (λ n. n ≤ 65535) },
}

impl<'a, R: Clock, L: Log> SocketSource<'a, R, L> {
    /// So many connections of the listener, 65,535 at most, or all that come. One from which nothing comes for so many
    /// seconds, or that takes nothing for so many, 1 to 86,400, ends as by a fault of its own.
    pub fn new(
        rt: &'a R,
        listener: Listener,
        most: Option<u64>,
        idle: Option<u64>,
        log: Option<&'a L>,
    ) -> SocketSource<'a, R, L>
        requires few { ForSome most (λ n. n ≤ 65535) }
        requires in_a_day { ForSome idle (λ seconds. (1 ≤ seconds) × (seconds ≤ 86400)) }
    {
        SocketSource {
            rt,
            listener,
            asked: AtomicU64::new(0),
            most,
            idle: idle.map(Duration::from_secs),
            log,
            accepting: Mutex::new(()),
            is_closed: AtomicBool::new(false),
        }
    }

    // The number of one more connection, or none where there were enough.
    fn next_number(&self) -> Option<u32> {
        let asked = self.asked.fetch_add(1, Ordering::SeqCst);
        match self.most {
            Some(most) if asked >= most => None,
            _ => Some((asked % NUMBERS) as u32 + 1),
        }
    }

    // The next stream. A wait that a signal interrupts goes on.
    fn accept(&self) -> io::Result<TcpStream> {
        'accepts: for _ in 0..TRIES {
            match self.listener.accept() {
                Ok(stream) => return Ok(stream),
                Err(error) if error.kind() == ErrorKind::Interrupted => {}
                Err(error) => return Err(error),
            }
        }
        Err(io::Error::from(ErrorKind::Interrupted))
    }

    /// Lets some time pass, in which descriptors or memory may come free.
    pub(crate) fn pause(&self) {
        thread::sleep(self.rt, Duration::from_millis(PAUSE));
    }

    /// Takes no further connection, once the thread that waits for one has got it.
    pub(crate) fn close(&self) {
        self.is_closed.store(true, Ordering::SeqCst);
    }

    /// Both ends of a connection, for its reader and its writer; none where no descriptor is left for both, or its
    /// times can't be limited.
    pub(crate) fn ends_of(&self, number: u32, stream: TcpStream) -> Option<Ends<'a, L>> {
        if self.idle.is_some() {
            stream.set_read_timeout(self.idle).ok()?;
            stream.set_write_timeout(self.idle).ok()?;
        }
        let writer = stream.try_clone().ok()?;
        // Without it replies may come later, and are the same.
        let _ = writer.set_nodelay(true);
        if let Some(log) = self.log {
            log.begins(number, stream.peer_addr().ok());
        }
        let writer = LoggedWriter::new(StdIo::new(writer), self.log, number);
        Some((number, StdIo::new(stream), writer))
    }
}

impl<'a, R: Wait + Clock, L: Log> SocketSource<'a, R, L> {
    // The next stream, once no other thread waits for one; none where no further one is taken.
    fn take(&self) -> io::Result<Option<TcpStream>> {
        let _alone = self.accepting.lock(self.rt);
        if self.is_closed.load(Ordering::SeqCst) {
            return Ok(None);
        }
        self.accept().map(Some)
    }

    /// The next connection, with its number. A peer that is gone before its connection is taken costs that connection
    /// alone. Where none can be taken for another reason, no descriptor left say, the thread that asks waits and tries
    /// again with the next number.
    pub(crate) fn next_stream(&self) -> Option<(u32, TcpStream)> {
        'numbers: for _ in 0..TRIES {
            let number = self.next_number()?;
            match self.take() {
                Ok(taken) => return taken.map(|stream| (number, stream)),
                Err(error) if error.kind() == ErrorKind::ConnectionAborted => {}
                Err(_) => self.pause(),
            }
        }
        None
    }
}

impl<'a, R: Wait + Clock, L: Log + Sync> Source for SocketSource<'a, R, L> {
    type Reader = StdIo<TcpStream>;

    type Writer = LoggedWriter<'a, StdIo<TcpStream>, L>;

    /// A connection for whose writer no descriptor is left is given up.
    fn next(&self) -> Option<Ends<'a, L>> {
        'streams: for _ in 0..TRIES {
            let (number, stream) = self.next_stream()?;
            if let Some(ends) = self.ends_of(number, stream) {
                return Some(ends);
            }
        }
        None
    }
}
