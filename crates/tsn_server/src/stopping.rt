//! Connections of a service that may be stopped: a handle is kept of each that is open.
use crate::connections::{Ends, SocketSource, TRIES};
use std::alloc::{AllocError, Global};
use std::net::{Net, Shutdown, TcpListener, TcpStream};
use std::os::unix::net::UnixStream;
use std::sync::{Mutex, Wait};
use std::time::{Clock, Duration};
use tsn_bytes::StdIo;
use tsn_serve::{Source, Stop};
use tsn_sockets::{Endpoint, Log, LoggedWriter};

/// How long a connection of the service's own may take, in milliseconds, with which it wakes the thread that waits for
/// one.
const LONGEST_CALL: u64 = 100;

/// How often it is tried, where no descriptor is left for it.
const CALLS: u64 = 100;

/// What became of a handle that was to be kept.
#[derive(Clone, Copy, Debug, PartialEq, Eq)]
enum Entered {
    Kept,
    /// There is no descriptor or no memory for one more.
    NoHandle,
    /// The service is stopped.
    Stopped,
}

/// A handle of each connection that is open, by its number, until the service is stopped.
#[derive(Drop)]
struct Open {
    handles: Vec<(u32, TcpStream)>,
    is_stopped: bool,
}

/// Connections that a listener takes, until the service is stopped.
#[derive(Drop)]
pub struct StoppableSource<
    'a,
    R: Wait + Clock + Net<Listener = TcpListener, Stream = TcpStream>,
    L: Log,
> {
    rt: &'a R,
    source: SocketSource<'a, R, L>,
    endpoint: Endpoint,
    open: Mutex<Open>,
}

impl<'a, R: Wait + Clock + Net<Listener = TcpListener, Stream = TcpStream>, L: Log> StoppableSource<
    'a,
    R,
    L,
> {
    /// The source's connections, which are taken by so many threads at most, from a listener that listens there.
    pub fn new(
        alloc: Global,
        rt: &'a R,
        source: SocketSource<'a, R, L>,
        endpoint: Endpoint,
        threads: u64,
    ) -> Result<StoppableSource<'a, R, L>, AllocError> {
        let handles = Vec::with_capacity(alloc, threads as usize)?;
        Ok(StoppableSource {
            rt,
            source,
            endpoint,
            open: Mutex::new(Open {
                handles,
                is_stopped: false,
            }),
        })
    }

    // Keeps a handle of a connection.
    fn enter(&self, number: u32, stream: &TcpStream) -> Entered {
        let Ok(handle) = stream.try_clone() else {
            return Entered::NoHandle;
        };
        let mut open = self.open.lock(self.rt);
        if open.is_stopped {
            return Entered::Stopped;
        }
        match open.handles.push((number, handle)) {
            Ok(()) => Entered::Kept,
            Err(_) => Entered::NoHandle,
        }
    }

    // Shuts down each connection that is open, and takes no further one; says whether that was so before.
    fn close(&self) -> bool {
        let mut open = self.open.lock(self.rt);
        let was_stopped = open.is_stopped;
        open.is_stopped = true;
        for (_, handle) in open.handles.iter() {
            // One that is down already is no fault.
            let _ = handle.shutdown(Shutdown::Both);
        }
        was_stopped
    }

    // Makes a connection to the service, which is given up at once, and says whether it could.
    fn call(&self) -> bool {
        let longest = Duration::from_millis(LONGEST_CALL);
        match &self.endpoint {
            Endpoint::Address(address) => {
                TcpStream::connect_timeout(self.rt, address, longest).is_ok()
            }
            Endpoint::Path(path) => UnixStream::connect(self.rt, path.as_str()).is_ok(),
        }
    }

    // Wakes the thread that waits for a connection, by one of the service's own. Connections that end leave a
    // descriptor for it.
    fn wake(&self) {
        'calls: for _ in 0..CALLS {
            if self.call() {
                return;
            }
            self.source.pause();
        }
    }
}

impl<R: Wait + Clock + Net<Listener = TcpListener, Stream = TcpStream>, L: Log> Stop
    for StoppableSource<'_, R, L> {
    fn stop(&self) {
        if !self.close() {
            self.source.close();
            self.wake();
        }
    }

    fn ended(&self, connection: u32) {
        let mut open = self.open.lock(self.rt);
        if let Some(place) = open
            .handles
            .iter()
            .position(|(number, _)| *number == connection)
        {
            let _ = open.handles.swap_remove(place);
        }
    }
}

impl<'a, R: Wait + Clock + Net<Listener = TcpListener, Stream = TcpStream>, L: Log + Sync> Source
    for StoppableSource<'a, R, L> {
    type Reader = StdIo<TcpStream>;

    type Writer = LoggedWriter<'a, StdIo<TcpStream>, L>;

    /// A connection for which no descriptor is left is given up.
    fn next(&self) -> Option<Ends<'a, L>> {
        'streams: for _ in 0..TRIES {
            let (number, stream) = self.source.next_stream()?;
            match self.enter(number, &stream) {
                Entered::Kept => {}
                Entered::NoHandle => continue,
                Entered::Stopped => return None,
            }
            if let Some(ends) = self.source.ends_of(number, stream) {
                return Some(ends);
            }
            self.ended(number);
        }
        None
    }
}
