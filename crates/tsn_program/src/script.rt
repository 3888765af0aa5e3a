//! A script of command lines over a bridge of its own.
ghost use Rattle.std.specs.Prelude.{◌≡◌, ℕ, IfErr, Ok};
ghost use Rattle.tsn_serve.specs.Outcomes.{moment};
ghost use Rattle.tsn_program.specs.Program.{AnswersFrom, AnswersScript};

use std::alloc::Global;
use tsn_bridge::bridge::Bridge;
use tsn_bytes::{ByteIn, ByteOut};
use tsn_failures::Failure;
use tsn_initial::bridge_of;
use tsn_serve::run_script;

// Answers each line of the reader on the writer, from this bridge.
fn answer_from<R: ByteIn, W: ByteOut>(
    alloc: Global,
    bridge: &mut Bridge,
    reader: &mut R,
    writer: &mut W,
) -> Result<(), Failure>
    ensures { AnswersFrom (Ok bridge.old)
        (λ start. moment R.remaining R.calls R.has_failed W.taken W.pending W.has_failed start reader.old writer.old)
        (λ end. moment R.remaining R.calls R.has_failed W.taken W.pending W.has_failed end reader.new writer.new)
        result }
{
    match run_script(alloc, bridge, reader, writer) {
        Ok(()) => Ok(()),
        Err(fault) => Err(Failure::Fault(fault)),
    }
}

/// Answers each line of the reader on the writer, from a bridge with the setup of the text. On `Ok` all bytes were
/// read, and what was written is the text of the script; a fault leaves what `run_script` says. Where the setup is
/// refused, nothing was read or written.
pub fn answer_script<R: ByteIn, W: ByteOut>(
    alloc: Global,
    setup: &[u8],
    reader: &mut R,
    writer: &mut W,
) -> Result<(), Failure>
    ensures { AnswersScript setup.now
        (λ start. moment R.remaining R.calls R.has_failed W.taken W.pending W.has_failed start reader.old writer.old)
        (λ end. moment R.remaining R.calls R.has_failed W.taken W.pending W.has_failed end reader.new writer.new)
        result }
{
    let mut bridge = match bridge_of(alloc, setup) {
        Ok(bridge) => bridge,
        Err(why) => return Err(Failure::Refused(why)),
    };
    answer_from(alloc, &mut bridge, reader, writer)
}
