//! Where a server listens: at an IP address and port, or at a path of the file system.
use crate::path::{make_way, open_for_owner};
use std::alloc::Global;
use std::fmt::{Display, Formatter, Write};
use std::net::{Net, SocketAddr, TcpListener, TcpStream};
use std::os::fd::OwnedFd;
use std::os::unix::net::UnixListener;
use std::rt::Files;
use std::{fmt, io};
use tsn_bytes::Fault;

/// Begins an endpoint that is a path.
const PATH_MARK: &str = "unix:";

/// Why nothing listens at an endpoint.
#[derive(Drop)]
pub enum ListenFault {
    /// The text is neither an IP address and port nor a path behind `unix:`.
    NoEndpoint,
    /// What stands at the path is no socket.
    NoSocket,
    /// Another server listens at the path.
    InUse,
    /// Memory is wanting.
    Memory,
    /// The system's reason.
    System(io::Error),
}

impl From<io::Error> for ListenFault {
    fn from(error: io::Error) -> ListenFault {
        ListenFault::System(error)
    }
}

/// As a text it is the reason.
impl Display for ListenFault {
    fn fmt<W: Write>(&self, f: &mut Formatter<W>) -> Result<(), fmt::Error> {
        match self {
            ListenFault::NoEndpoint => f.write_str("neither an IP address and port nor unix:PATH"),
            ListenFault::NoSocket => f.write_str("what is there is no socket"),
            ListenFault::InUse => f.write_str("another server listens there"),
            ListenFault::Memory => write!(f, "{}", Fault::Memory),
            ListenFault::System(error) => write!(f, "{error}"),
        }
    }
}

/// An endpoint where a server listens.
#[derive(Drop)]
pub enum Endpoint {
    Address(SocketAddr),
    Path(String),
}

/// As a text it is what `--listen` takes.
impl Display for Endpoint {
    fn fmt<W: Write>(&self, f: &mut Formatter<W>) -> Result<(), fmt::Error> {
        match self {
            Endpoint::Address(address) => write!(f, "{address}"),
            Endpoint::Path(path) => write!(f, "unix:{path}"),
        }
    }
}

/// A listener at an endpoint.
#[derive(Drop)]
pub enum Listener {
    Tcp(TcpListener),
    Unix(UnixListener),
}

impl Listener {
    /// The next connection. One over a path is read, written, timed and shut down by the same calls of the system as
    /// one over TCP, so it is handed on as such a one.
    pub fn accept(&self) -> io::Result<TcpStream> {
        match self {
            Listener::Tcp(listener) => {
                let (stream, _) = listener.accept()?;
                Ok(stream)
            }
            Listener::Unix(listener) => {
                let (stream, _) = listener.accept()?;
                Ok(TcpStream::from(OwnedFd::from(stream)))
            }
        }
    }
}

// A listener at the path, which its owner alone may connect to. A socket there at which nobody listens makes way.
fn listen_at<R: Files + Net>(
    rt: &R,
    alloc: Global,
    path: &str,
) -> Result<(Listener, Endpoint), ListenFault> {
    if path.is_empty() {
        return Err(ListenFault::NoEndpoint);
    }
    let Ok(name) = String::from_str(alloc, path) else {
        return Err(ListenFault::Memory);
    };
    make_way(rt, path)?;
    let listener = open_for_owner(rt, path)?;
    Ok((Listener::Unix(listener), Endpoint::Path(name)))
}

/// A listener at the endpoint, an IP address and port as in `127.0.0.1:7000` or a path as in `unix:/run/tsnd.socket`,
/// and where it listens: a port of 0 is one that the system chooses.
pub fn listen_on<R: Files + Net<Listener = TcpListener, Stream = TcpStream>>(
    rt: &R,
    alloc: Global,
    endpoint: &str,
) -> Result<(Listener, Endpoint), ListenFault> {
    if let Some(path) = endpoint.strip_prefix(PATH_MARK) {
        return listen_at(rt, alloc, path);
    }
    let Ok(address) = endpoint.parse::<SocketAddr>() else {
        return Err(ListenFault::NoEndpoint);
    };
    let listener = TcpListener::bind(rt, address)?;
    let bound = listener.local_addr()?;
    Ok((Listener::Tcp(listener), Endpoint::Address(bound)))
}
