//! The run of a script over a bridge: each line is read, taken as a step, and answered.
//! It relies on the loop over lines, on the reading of a line, on the bridge's step and on the text of a reply.
ghost use Rattle.std.specs.Prelude.{◌≡◌, ◌≢◌, true, IfErr, OnErr, OnOk, IsErrOf, Err, option_map};
ghost use Rattle.std.specs.Io.KnownBytes.{Appends};
ghost use Rattle.tsn_bytes.specs.Bytes.{IsCut};
ghost use Rattle.tsn_bytes.specs.declared.bytes.Fault.TheVariants.{Memory, Exhausted, Write};
ghost use Rattle.tsn_commands.specs.declared.command.Command.TheVariants.{Show, Since};
ghost use Rattle.tsn_bridge.specs.Histories as machine;
ghost use Rattle.tsn_serve.specs.Answers.{MayRead, Replies, SaysOf, Answers, BreaksInWriting, asked};
ghost use Rattle.tsn_serve.specs.Outcomes.{Outcome, moment, most_reads};

use crate::responder::{Ended, Responder, answer_lines};
use std::alloc::Global;
use tsn_bridge::bridge::Bridge;
use tsn_bridge::command::{Ask, Command};
use tsn_bridge::reply::Reply;
use tsn_bytes::{ByteIn, ByteOut};
use tsn_replies::{write_kept, write_lent, write_refusal, write_reply};
use tsn_types::keys::Key;
use tsn_types::refusals::Refusal;
use tsn_wire::command_of;

// The most reads of one run over lines.
pub(crate) const READS: u64 = 4_294_967_296;

/// What a line is read as, none being one that is too long. It tests nothing of what the reader answers.
#[inline(always)]
pub fn read_line(alloc: Global, line: Option<&[u8]>) -> Result<Ask, Refusal>
    ensures { MayRead (option_map (λ s. s.now) line.entry) result }
{
    match line {
        Some(line) => command_of(alloc, line),
        None => Err(Refusal::TooLong),
    }
}

// The reply to what a line was read as: that to the command, or the refusal that reading gave. Only the machine's step
// changes the bridge.
fn reply_to(bridge: &mut Bridge, read: Result<Ask, Refusal>) -> Reply
    ensures { Replies machine.Answers bridge.old read result bridge.new }
{
    match read {
        Ok(ask) => bridge.step(ask.session, ask.command),
        Err(refusal) => Reply::Refused(refusal),
    }
}

// Answers a show by the record itself.
fn answer_show<W: ByteOut>(bridge: &Bridge, session: u32, key: Key, writer: &mut W) -> Ended
    ensures ok { OnOk result (SaysOf machine.Answers bridge.now (asked session (Show key))
        (λ text. Appends (W.taken writer.old) (W.taken writer.new) text)) }
    ensures worked { OnOk result (W.has_failed writer.new ≡ W.has_failed writer.old) }
    ensures fault { IfErr result (λ e. e ≡ Write) }
    ensures failed { OnErr result (W.has_failed writer.new ≡ true) }
    ensures cut { OnErr result (SaysOf machine.Answers bridge.now (asked session (Show key))
        (λ text. IsCut (W.taken writer.old) (W.taken writer.new) text)) }
{
    match bridge.lent_record(session, &key) {
        Ok(found) => write_lent(writer, key, found),
        Err(why) => write_refusal(writer, &why),
    }
}

// Answers a since by the entries themselves.
fn answer_since<W: ByteOut>(bridge: &Bridge, session: u32, after: u32, writer: &mut W) -> Ended
    ensures ok { OnOk result (SaysOf machine.Answers bridge.now (asked session (Since after))
        (λ text. Appends (W.taken writer.old) (W.taken writer.new) text)) }
    ensures worked { OnOk result (W.has_failed writer.new ≡ W.has_failed writer.old) }
    ensures fault { IfErr result (λ e. e ≡ Write) }
    ensures failed { OnErr result (W.has_failed writer.new ≡ true) }
    ensures cut { OnErr result (SaysOf machine.Answers bridge.now (asked session (Since after))
        (λ text. IsCut (W.taken writer.old) (W.taken writer.new) text)) }
{
    match bridge.kept_since(session, after) {
        Ok(kept) => write_kept(writer, kept),
        Err(why) => write_refusal(writer, &why),
    }
}

impl Responder for Bridge {
    ghost answers = { Answers };

    ghost breaks = { BreaksInWriting };

    fn answer<W: ByteOut>(&mut self, alloc: Global, line: Option<&[u8]>, writer: &mut W) -> Ended {
        let read = read_line(alloc, line);
        if let Ok(ask) = &read {
            match &ask.command {
                Command::Show { key } => return answer_show(self, ask.session, *key, writer),
                Command::Since { after } => return answer_since(self, ask.session, *after, writer),
                _ => {}
            }
        }
        let reply = reply_to(self, read);
        write_reply(writer, &reply)
    }
}

/// Answers each line of the input, with at most so many reads. On `Ok` all bytes were read, and what was written is
/// the text of the script from the bridge as it was; the bridge is where that run ends. On a fault the bridge is where
/// the run over the lines that were answered ends. A bridge is never exhausted.
pub fn run_script_up_to<R: ByteIn, W: ByteOut>(
    alloc: Global,
    bridge: &mut Bridge,
    reader: &mut R,
    writer: &mut W,
    reads: u64,
) -> Ended
    ensures outcome { Outcome Answers BreaksInWriting reads
        (moment R.remaining R.calls R.has_failed W.taken W.pending W.has_failed bridge.old reader.old writer.old)
        (moment R.remaining R.calls R.has_failed W.taken W.pending W.has_failed bridge.new reader.new writer.new)
        result }
    ensures untouched { IsErrOf result Memory → (reader.new ≡ reader.old) × (writer.new ≡ writer.old) }
    ensures never_exhausted { result ≢ Err Exhausted }
{
    answer_lines(alloc, bridge, reader, writer, reads)
}

/// Answers each line of the input as `run_script_up_to` does, with at most 2^32 reads.
pub fn run_script<R: ByteIn, W: ByteOut>(
    alloc: Global,
    bridge: &mut Bridge,
    reader: &mut R,
    writer: &mut W,
) -> Ended
    ensures outcome { Outcome Answers BreaksInWriting most_reads
        (moment R.remaining R.calls R.has_failed W.taken W.pending W.has_failed bridge.old reader.old writer.old)
        (moment R.remaining R.calls R.has_failed W.taken W.pending W.has_failed bridge.new reader.new writer.new)
        result }
    ensures untouched { IsErrOf result Memory → (reader.new ≡ reader.old) × (writer.new ≡ writer.old) }
    ensures never_exhausted { result ≢ Err Exhausted }
{
    run_script_up_to(alloc, bridge, reader, writer, READS)
}
