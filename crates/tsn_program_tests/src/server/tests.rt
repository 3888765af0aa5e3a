//! A bridge that is served to a client of the same process: what the client is replied, and what is told of its ports
//! then.
ghost use Rattle.std.specs.Prelude.{◌≤◌, ◌^◌, IfOk};
ghost use Rattle.tsn_bridge.specs.Beginning.{IsOpened};

use crate::comparing::same;
use crate::server::client::enable_and_apply;
use std::alloc::Global;
use std::io;
use std::net::{Net, SocketAddr, TcpListener, TcpStream};
use std::process::Abort;
use std::rt::Files;
use std::sync::Wait;
use std::test::Fail;
use std::thread::{Threads, join};
use std::time::Clock;
use tsn_bridge::bridge::Bridge;
use tsn_bytes::{Fault, MemOut};
use tsn_serve::{Free, Gated};
use tsn_server::{ServerFault, SocketSource, serve_bridge};
use tsn_setup::setup_of;
use tsn_sockets::{Endpoint, Listener, Log, Told, listen_on};
use tsn_types::numbers::Instant;

/// Port 1 has traffic class 0 alone for 300 ns, and class 7 alone for 700 ns.
const SETUP: &'static [u8] =
    b"[[port]]\nid = 1\ngates = 255\ncycle = 1000\nextension = 0\nbase = 0\n\
    list = [{gates = 1, interval = 300}, {gates = 128, interval = 700}]\n";

/// A log that nobody reads.
#[derive(Clone, Copy)]
struct Unheard;

impl Log for Unheard {
    fn begins(&self, _number: u32, _peer: Option<SocketAddr>) {}

    fn ends(&self, _number: u32, _told: Told) {}
}

/// A new bridge with that setup.
fn new_bridge(alloc: Global) -> Result<Bridge, ServerFault>
    ensures { IfOk result (λ bridge. IsOpened bridge) }
{
    let Ok(setup) = setup_of(alloc, SETUP) else {
        return Err(ServerFault::Fault(Fault::Memory));
    };
    let Ok(bridge) = Bridge::new(alloc, setup) else {
        return Err(ServerFault::Fault(Fault::Memory));
    };
    Ok(bridge)
}

/// Serves a new bridge to the source's connections, one after the other, and gives what was written.
fn serve<R: Wait + Threads + Clock + Sync>(
    rt: &R,
    alloc: Global,
    source: &SocketSource<'_, R, Unheard>,
    at: Option<Instant>,
) -> Result<MemOut, ServerFault> {
    let bridge = new_bridge(alloc)?;
    let mut output = MemOut::new(Vec::new(alloc), 100, None);
    serve_bridge(
        rt,
        alloc,
        bridge,
        1,
        source,
        &Gated { gate: &Free },
        at,
        &mut output,
    )?;
    Ok(output)
}

/// Serves a new bridge to one client beside it.
fn serve_client<R: Net<Stream = TcpStream> + Wait + Threads + Clock + Sync>(
    rt: &R,
    alloc: Global,
    listener: Listener,
    address: SocketAddr,
    at: Option<Instant>,
) -> (Result<MemOut, ServerFault>, io::Result<(Vec<u8>, Vec<u8>)>) {
    let source = SocketSource::new(rt, listener, Some(1), Some(10), Some(&Unheard));
    join(
        rt,
        || serve(rt, alloc, &source, at),
        || enable_and_apply(rt, alloc, address),
    )
}

/// Serves a new bridge to a client, and compares what is written at the end.
fn tells<
    R: Files
        + Net<Listener = TcpListener, Stream = TcpStream>
        + Wait
        + Threads
        + Clock
        + Abort
        + Sync,
>(rt: &R, alloc: Global, at: Option<Instant>, wanted: &[u8]) -> Result<(), Fail> {
    let Ok((listener, Endpoint::Address(address))) = listen_on(rt, alloc, "127.0.0.1:0") else {
        return Err(Fail::from("no listener"));
    };
    let (served, replied) = serve_client(rt, alloc, listener, address, at);
    let (enabled, applied) = replied?;
    same(
        rt,
        &enabled.as_slice(),
        &b"{\"change\":null,\"entry\":1,\"now\":0}\n".as_slice(),
    );
    same(
        rt,
        &applied.as_slice(),
        &b"{\"change\":3000,\"entry\":2,\"now\":2500}\n".as_slice(),
    );
    same(rt, &served?.as_slice(), &wanted);
    Ok(())
}

#[test]
fn a_run_over_loopback(rt: HostRuntime) -> Result<(), Fail> {
    let alloc = rt.alloc();
    tells(
        &rt,
        alloc,
        Some(Instant::new(3300)?),
        b"port 1 gates 128\nport 2 gates 255\n",
    )?;
    tells(
        &rt,
        alloc,
        Some(Instant::new(2499)?),
        b"port 1 past\nport 2 gates 255\n",
    )?;
    tells(&rt, alloc, None, b"")
}
