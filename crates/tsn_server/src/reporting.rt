//! The last rounds of port workers, told in text.
ghost use Rattle.std.specs.Prelude.{◌≡◌, ◌⊎◌, ℕ, List, [], true, All, IfOk, IfErr, OnOk, IsErrOf};
ghost use Rattle.std.specs.Io.KnownBytes.{Appends};
ghost use Rattle.tsn_bytes.specs.declared.bytes.Fault.TheVariants.{Write, Memory, Exhausted};
ghost use Rattle.tsn_desk.specs.Desks.{first_of, seen};
ghost use Rattle.tsn_port.specs.Workers.{port_of};
ghost use Rattle.tsn_server.specs.Reporting.{IsRested, Shows, Reports, report_line};

use std::sync::Wait;
use tsn_bridge::bridge::Bridge;
use tsn_bytes::{ByteOut, Fault, put_all};
use tsn_desk::desk::{Desk, Seat};
use tsn_encoding::ShortText;
use tsn_port::worker::{PortWorker, RoundFault};
use tsn_types::numbers::{Instant, PortId};

// The line of a port: its gates, or that the instant is past.
fn port_line(port: PortId, told: Option<u8>) -> ShortText
    ensures { result ≡ report_line port told }
{
    let mut text = ShortText::new();
    text.push("port ");
    text.push_number(port.get());
    match told {
        Some(gates) => {
            text.push(" gates ");
            text.push_number(u64::from(gates));
            text.push("\n");
        }
        None => text.push(" past\n"),
    }
    text
}

// One more round of a worker: the gates, or none where the instant is past.
fn last_round<R: Wait>(
    rt: &R,
    desk: &Desk<Bridge>,
    pair: (Seat<Bridge>, PortWorker),
    at: Instant,
) -> Result<Option<u8>, Fault>
    requires { IsRested desk.now pair }
    ensures told { IfOk result (λ told. Shows (first_of desk.now) (seen pair.0) (port_of pair.1) at told) }
    ensures fault { IfErr result (λ e. (e ≡ Memory) ⊎ (e ≡ Exhausted)) }
{
    let (seat, worker) = pair;
    let mut worker = worker;
    let (_seat, told) = worker.round(rt, desk, seat, at);
    match told {
        Ok(gates) => Ok(Some(gates)),
        Err(RoundFault::Past) => Ok(None),
        Err(RoundFault::Exhausted) => Err(Fault::Exhausted),
        Err(RoundFault::Memory | RoundFault::Refused(_)) => Err(Fault::Memory),
    }
}

/// One last round of each worker at the instant, with the seat beside it, and a line for each, in order: `port P gates
/// G` or `port P past`. The lines are handed on. It ends at the first fault: `Memory` or `Exhausted` of a round, or
/// `Write`; the lines before it were written.
pub fn report<R: Wait, W: ByteOut>(
    rt: &R,
    desk: &Desk<Bridge>,
    workers: Vec<(Seat<Bridge>, PortWorker)>,
    at: Instant,
    writer: &mut W,
) -> Result<(), Fault>
    requires { All (λ p. IsRested desk.now p) workers.items }
    ensures lines { OnOk result ((text : List ℕ) × Reports desk.now at workers.items text
        × Appends (W.taken writer.old) (W.taken writer.new) text) }
    ensures handed_on { OnOk result (W.pending writer.new ≡ []) }
    ensures fault { IfErr result (λ e. (e ≡ Write) ⊎ ((e ≡ Memory) ⊎ (e ≡ Exhausted))) }
    ensures failed { IsErrOf result Write → W.has_failed writer.new ≡ true }
{
    'workers: for pair in workers {
        let port = pair.1.port();
        let told = last_round(rt, desk, pair, at)?;
        put_all(writer, port_line(port, told).as_slice())?;
    }
    writer.flush().map_err(|_| Fault::Write)
}
