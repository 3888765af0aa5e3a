//! A bridge behind a desk whose work lasts: as `serve_bridge`, with a clerk for each connection, and replies behind the
//! journal.
ghost use Rattle.std.specs.Prelude.{◌≡◌, ◌<◌, ◌≤◌, ℕ, List, [], OnOk};
ghost use Rattle.std.specs.Io.KnownBytes.{Appends};
ghost use Rattle.tsn_bridge.specs.Reached.{IsReached};
ghost use Rattle.tsn_commit.specs.Resting.{Begins};
ghost use Rattle.tsn_server.specs.Serving.{ReportsEnd};

use std::alloc::Global;
use std::sync::Wait;
use std::thread::Threads;
use tsn_bridge::bridge::Bridge;
use tsn_bytes::{ByteOut, Fault};
use tsn_clerk::LastingHost;
use tsn_commit::{Ahead, Commit};
use tsn_device::Device;
use tsn_history::{Naming, Opened};
use tsn_keeping::{Clock, Keeper};
use tsn_serve::{Source, Stop};
use tsn_server::{LastingServerFault, ServerFault, serve_closing};
use tsn_types::numbers::Instant;

/// Serves the source's connections on the bridge as `serve_bridge` does, and has the keeper keep all that is recorded
/// of it: a reply goes out only once all that was recorded up to it is kept, also that of a look. Where the journal
/// fails, the service is stopped. The lines of the last rounds are told once all is kept.
pub fn serve_lasting<
    W: Wait + Threads + Sync,
    S: Source + Stop + Sync,
    C: Clock + Send,
    D: Device + Send,
    R: Naming + Send + Sync,
    K: Ahead + Send + Sync,
    O: ByteOut,
>(
    rt: &W,
    alloc: Global,
    bridge: Bridge,
    keeper: Keeper<D>,
    clock: C,
    records: Opened,
    keeps: Opened,
    workers: usize,
    source: &S,
    at: Option<Instant>,
    writer: &mut O,
) -> Result<(), LastingServerFault>
    requires reached { IsReached bridge }
    requires some { (0 < workers) × (workers ≤ 1000) }
    requires keeper { Begins K.had K.digest keeper }
    requires names { (records.seen.book ≡ R.book) × (keeps.seen.book ≡ K.book) }
    ensures lines { OnOk result ((text : List ℕ) × ReportsEnd bridge at text × Appends (O.taken writer.old) (O.taken writer.new) text) }
    ensures handed_on { OnOk result (O.pending writer.new ≡ []) }
{
    let Ok(commit) = Commit::<C, D, R, K>::new(alloc, keeper, clock, records, keeps) else {
        return Err(LastingServerFault::Server(ServerFault::Fault(Fault::Memory)));
    };
    let host = LastingHost {
        rt,
        commit: &commit,
        service: source,
    };
    serve_closing(rt, alloc, bridge, workers, source, &host, &host, at, writer)
}
