//! A listener at a path of the file system, to which only who may write the file there can connect: its owner.
use crate::listening::ListenFault;
use std::io::ErrorKind;
use std::net::Net;
use std::os::fd::{AsFd, AsRawFd};
use std::os::unix::fs::FileTypeExt;
use std::os::unix::net::{SocketAddr, UnixListener, UnixStream};
use std::rt::Files;
use std::{fs, io};

/// The owner may read and write, and nobody else may anything.
const OWNER_ALONE: u32 = 0o600;

/// As many connections may wait to be taken as the system allows.
const BACKLOG: i32 = -1;

// What a call of the system answered.
fn checked(status: i32) -> io::Result<()> {
    if status < 0 {
        Err(io::Error::from_raw_os_error(os::errno()))
    } else {
        Ok(())
    }
}

/// A listener at the path. The socket is its owner's alone before it has a name, so the file is never open to others.
pub(crate) fn open_for_owner<R: Files + Net>(rt: &R, path: &str) -> io::Result<UnixListener> {
    let address = SocketAddr::from_pathname(path)?;
    let socket = rt.unix_socket()?;
    checked(libc::fchmod(socket.as_raw_fd(), OWNER_ALONE))?;
    rt.bind_unix(socket.as_fd(), &address)?;
    checked(libc::net::listen(socket.as_raw_fd(), BACKLOG))?;
    Ok(UnixListener::from(socket))
}

/// Removes a socket at the path to which connecting is refused, since nobody listens there any more.
pub(crate) fn make_way<R: Files + Net>(rt: &R, path: &str) -> Result<(), ListenFault> {
    let found = match fs::symlink_metadata(rt, path) {
        Ok(found) => found,
        Err(error) if error.kind() == ErrorKind::NotFound => return Ok(()),
        Err(error) => return Err(ListenFault::System(error)),
    };
    if !found.file_type().is_socket() {
        return Err(ListenFault::NoSocket);
    }
    match UnixStream::connect(rt, path) {
        Ok(_) => Err(ListenFault::InUse),
        Err(error) if error.kind() == ErrorKind::ConnectionRefused => {
            fs::remove_file(rt, path)?;
            Ok(())
        }
        Err(error) => Err(ListenFault::System(error)),
    }
}
