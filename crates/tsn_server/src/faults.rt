//! Why serving a bridge ends before its end.
ghost use Rattle.std.specs.Prelude.{◌≡◌, ◌≢◌};
ghost use Rattle.tsn_bytes.specs.declared.bytes.Fault.TheVariants.{Read, Write};
ghost use Rattle.tsn_server.specs.declared.faults.LastingServerFault.TheVariants.{Journal, Server};
ghost use Rattle.tsn_server.specs.declared.faults.ServerFault.TheVariants.{Fault as FaultOf};

use tsn_bytes::Fault;
use tsn_serve::ServeFault;
use tsn_types::refusals::Refusal;

/// Why serving ended before its end.
#[derive(Clone, Copy, Debug, PartialEq, Eq)]
pub enum ServerFault {
    /// The lines of the last rounds could not be written, memory was wanting, or no ticket was left.
    Fault(Fault),
    /// The bridge refused the start of a port's worker: no session was left.
    Refused(Refusal),
}

/// Why serving ended before its end, where the work lasts.
#[derive(Clone, Copy, Debug, PartialEq, Eq)]
pub enum LastingServerFault {
    /// As it does where nothing lasts.
    Server(ServerFault),
    /// The journal could not be written or synced: nothing that it may not keep was told.
    Journal,
}

// Serving ended by this fault.
pub(crate) fn ended_by(fault: Fault) -> LastingServerFault
    ensures { result ≡ Server (FaultOf fault) }
{
    LastingServerFault::Server(ServerFault::Fault(fault))
}

// What ended the serving of connections. Nothing was written then.
pub(crate) fn serving_failed(fault: ServeFault) -> LastingServerFault
    ensures write { result ≢ Server (FaultOf Write) }
    ensures read { result ≢ Server (FaultOf Read) }
    ensures journal { result ≢ Journal }
{
    match fault {
        ServeFault::Memory => ended_by(Fault::Memory),
        ServeFault::Exhausted => ended_by(Fault::Exhausted),
        ServeFault::Refused(why) => LastingServerFault::Server(ServerFault::Refused(why)),
    }
}
