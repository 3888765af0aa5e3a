//! The lines that tell of connections on standard error.
use jiff::Timestamp;
use std::alloc::{AllocError, Global};
use std::net::SocketAddr;
use std::rt::Stderr;
use std::time::Clock;
use tsn_bytes::{StdIo, put_all};
use tsn_sockets::{Log, Told};

/// Tells of connections, a line each, with the time in UTC. A line goes out by one call, so no two run into each other.
#[derive(Drop)]
pub struct ErrorLog<'a, R: Clock> {
    rt: &'a R,
    alloc: Global,
    errors: Stderr,
}

impl<'a, R: Clock> ErrorLog<'a, R> {
    /// Tells on this standard error.
    pub fn new(rt: &'a R, alloc: Global, errors: Stderr) -> ErrorLog<'a, R> {
        ErrorLog { rt, alloc, errors }
    }

    // The second of now; the first there is where the time is not known.
    fn now(&self) -> Timestamp {
        let second = match Timestamp::now(self.rt) {
            Ok(now) => now.as_second(),
            Err(_) => 0,
        };
        Timestamp::from_second(second).unwrap_or(Timestamp::UNIX_EPOCH)
    }

    // Says a line, where there is memory for it and standard error takes one; else nothing is left to do.
    fn say(&self, line: Result<String, AllocError>) {
        if let Ok(line) = line {
            let _ = put_all(&mut StdIo::new(self.errors), line.as_bytes());
        }
    }
}

impl<R: Clock> Log for ErrorLog<'_, R> {
    fn begins(&self, number: u32, peer: Option<SocketAddr>) {
        let now = self.now();
        match peer {
            Some(peer) => self.say(format!(in self.alloc;
                "tsnd: {now} connection {number} begins from {peer}\n"
            )),
            None => self.say(format!(in self.alloc; "tsnd: {now} connection {number} begins\n")),
        }
    }

    fn ends(&self, number: u32, told: Told) {
        let now = self.now();
        let Told {
            session,
            lines,
            refused,
        } = told;
        match session {
            Some(session) => self.say(format!(in self.alloc;
                "tsnd: {now} connection {number} ends after {lines} lines: session {session}, {refused} refused\n"
            )),
            None => self.say(format!(in self.alloc;
                "tsnd: {now} connection {number} ends after {lines} lines: no session, {refused} refused\n"
            )),
        }
    }
}
