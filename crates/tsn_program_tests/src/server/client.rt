//! A client over TCP, which sends a line after the reply to the one before.
use std::alloc::{AllocError, Global};
use std::io;
use std::io::{Read, Write};
use std::net::{Net, SocketAddr, TcpStream};
use std::time::Duration;

/// No reply that is waited for is longer.
const LONGEST: u32 = 100;

/// The next line, with its line feed.
fn next_line<S: Read>(alloc: Global, stream: &mut S) -> io::Result<Vec<u8>> {
    let mut line = Vec::new(alloc);
    for _ in 0..LONGEST {
        let mut byte = [0u8; 1];
        stream.read_exact(&mut byte)?;
        line.push(byte[0])?;
        if byte[0] == b'\n' {
            break;
        }
    }
    Ok(line)
}

/// The reply to a line.
fn ask<S: Read + Write>(alloc: Global, stream: &mut S, line: &[u8]) -> io::Result<Vec<u8>> {
    stream.write_all(line)?;
    next_line(alloc, stream)
}

/// The number in the reply to a hello, as it is written there.
fn session_in(alloc: Global, reply: &[u8]) -> Result<Vec<u8>, AllocError> {
    let mut digits = Vec::new(alloc);
    for byte in reply {
        if byte.is_ascii_digit() {
            digits.push(*byte)?;
        }
    }
    Ok(digits)
}

/// The reply to a command line that ends with the member of its session.
fn ask_as<S: Read + Write>(
    alloc: Global,
    stream: &mut S,
    begin: &[u8],
    session: &[u8],
) -> io::Result<Vec<u8>> {
    let mut line = Vec::from_slice(alloc, begin)?;
    line.extend_from_slice(session)?;
    line.extend_from_slice(b"}\n")?;
    ask(alloc, stream, line.as_slice())
}

/// Enables port 1 at 0 and applies its list at 2500, as a session of its own, and gives both replies.
pub fn enable_and_apply<R: Net<Stream = TcpStream>>(
    rt: &R,
    alloc: Global,
    address: SocketAddr,
) -> io::Result<(Vec<u8>, Vec<u8>)> {
    let mut stream = TcpStream::connect(rt, address)?;
    stream.set_read_timeout(Some(Duration::from_secs(10)))?;
    let hello = ask(alloc, &mut stream, b"{\"do\":\"hello\"}\n")?;
    let session = session_in(alloc, hello.as_slice())?;
    let enable = b"{\"do\":\"enable\",\"key\":\"port 1\",\"now\":0,\"s\":";
    let apply = b"{\"do\":\"apply\",\"key\":\"port 1\",\"now\":2500,\"s\":";
    Ok((
        ask_as(alloc, &mut stream, enable, session.as_slice())?,
        ask_as(alloc, &mut stream, apply, session.as_slice())?,
    ))
}
