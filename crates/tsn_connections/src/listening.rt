//! The service of connections, with what a process has: the network and threads.
ghost use Rattle.std.specs.Prelude.{◌≡◌, IfErr};

use crate::logging::ErrorLog;
use crate::serving::serve;
use std::alloc::Global;
use std::net::{Net, TcpListener, TcpStream};
use std::rt::Files;
use std::sync::Wait;
use std::thread::Threads;
use std::time::Clock;
use tsn_bytes::{ByteOut, Fault, put_all};
use tsn_failures::{Failure, Undone, fail, fail_start};
use tsn_initial::bridge_of;
use tsn_server::SocketSource;
use tsn_sockets::{Endpoint, ListenFault, listen_on};
use tsn_words::Serving;

// Tells why nothing listens at the endpoint, and gives its status, 1.
fn fail_to_listen<E: ByteOut>(
    alloc: Global,
    errors: &mut E,
    endpoint: &str,
    fault: &ListenFault,
) -> u8
    ensures { result ≡ 1 }
{
    match format!(in alloc; "{fault}") {
        Ok(reason) => fail_start(alloc, errors, Undone::Listening, endpoint, reason.as_str()),
        Err(_) => fail(errors, Failure::Fault(Fault::Memory)),
    }
}

/// Where a server listens, what it is to serve there, and who is told of connections.
#[derive(Drop)]
pub struct Place<'a, R: Clock> {
    pub endpoint: &'a str,
    pub serving: Serving,
    pub log: &'a ErrorLog<'a, R>,
}

impl<'a, R: Files + Clock + Net<Listener = TcpListener, Stream = TcpStream>> Place<'a, R> {
    /// Listens there, says so in one line, and gives where connections come from. Else tells why not, and gives the
    /// status, 1: where nothing listens, or where there is no memory for that line. Where standard error does not take
    /// the line, nothing is left to do.
    pub fn listen<E: ByteOut>(
        &self,
        rt: &'a R,
        alloc: Global,
        errors: &mut E,
    ) -> Result<(SocketSource<'a, R, ErrorLog<'a, R>>, Endpoint), u8>
        ensures { IfErr result (λ status. status ≡ 1) }
    {
        let (listener, bound) = match listen_on(rt, alloc, self.endpoint) {
            Ok(listening) => listening,
            Err(fault) => return Err(fail_to_listen(alloc, errors, self.endpoint, &fault)),
        };
        let Ok(line) = format!(in alloc; "tsnd: listens on {bound}\n") else {
            return Err(fail(errors, Failure::Fault(Fault::Memory)));
        };
        let _ = put_all(errors, line.as_bytes());
        let serving = self.serving;
        let log = serving.is_logged.then_some(self.log);
        let source = SocketSource::new(rt, listener, serving.connections, serving.idle, log);
        Ok((source, bound))
    }
}

/// Serves connections there on the bridge of a setup's text, and gives the status. The setup is read before the
/// endpoint, and both before anything is served.
pub fn serve_at<
    R: Files + Wait + Threads + Clock + Net<Listener = TcpListener, Stream = TcpStream> + Sync,
    O: ByteOut,
    E: ByteOut,
>(rt: &R, alloc: Global, setup: &[u8], place: &Place<'_, R>, output: &mut O, errors: &mut E) -> u8 {
    let bridge = match bridge_of(alloc, setup) {
        Ok(bridge) => bridge,
        Err(why) => return fail(errors, Failure::Refused(why)),
    };
    match place.listen(rt, alloc, errors) {
        Ok((source, _)) => serve(rt, alloc, bridge, place.serving, &source, output, errors),
        Err(status) => status,
    }
}
