//! The loop over windows of a connection: what came with one read is answered, and one settling serves it.
ghost use Rattle.std.specs.Prelude.{OnOk};
ghost use Rattle.tsn_serve.specs.Talk.{Goes};
ghost use Rattle.tsn_clerk.specs.Talking.{IsHeld};

use crate::talk::{Talk, TalkFault};
use std::alloc::Global;
use std::sync::Wait;
use tsn_bytes::{ByteIn, ByteOut};
use tsn_commit::Ahead;
use tsn_device::Device;
use tsn_history::Naming;
use tsn_keeping::Clock;
use tsn_lasting::Nowhere;
use tsn_serve::{LineBuffer, feed, finish};

/// The most bytes of one read.
const CHUNK: usize = 65_536;

/// The most reads of a connection.
const READS: u64 = 4_294_967_296;

/// Answers each line of the input, with at most 2^32 reads. Before each read and at the end all that is due is kept,
/// and then all replies are handed on.
pub fn talk_on<W: Wait, C: Clock, D: Device, R: Naming, K: Ahead, O: ByteOut, I: ByteIn>(
    alloc: Global,
    talk: &mut Talk<'_, W, C, D, R, K, O>,
    line: &mut LineBuffer,
    reader: &mut I,
) -> Result<(), TalkFault>
    requires { IsHeld line.old }
    ensures { Goes talk.old.caller talk.new.caller }
{
    let mut chunk = [0u8; CHUNK];
    'reads: for _ in 0..READS {
        let Ok(count) = reader.pull(&mut chunk) else {
            return Err(TalkFault::Read);
        };
        if count == 0 {
            return end(alloc, talk, line);
        }
        answer_window(alloc, talk, line, &chunk[..count])?;
    }
    Err(TalkFault::Read)
}

// Answers the lines that end in a piece of the input; then all that is due is kept, and their replies are handed on.
fn answer_window<W: Wait, C: Clock, D: Device, R: Naming, K: Ahead, O: ByteOut>(
    alloc: Global,
    talk: &mut Talk<'_, W, C, D, R, K, O>,
    line: &mut LineBuffer,
    piece: &[u8],
) -> Result<(), TalkFault>
    requires { IsHeld line.old }
    ensures goes { Goes talk.old.caller talk.new.caller }
    ensures held { OnOk result (IsHeld line.new) }
{
    if feed(alloc, talk, line, piece, &mut Nowhere).is_err() {
        return Err(talk.fault());
    }
    talk.settle()
}

// Answers what stands behind the last line feed, at the end of the input; then the same.
fn end<W: Wait, C: Clock, D: Device, R: Naming, K: Ahead, O: ByteOut>(
    alloc: Global,
    talk: &mut Talk<'_, W, C, D, R, K, O>,
    line: &LineBuffer,
) -> Result<(), TalkFault>
    requires { IsHeld line.now }
    ensures { Goes talk.old.caller talk.new.caller }
{
    if finish(alloc, talk, line, &mut Nowhere).is_err() {
        return Err(talk.fault());
    }
    talk.settle()
}
