//! The loop over windows of a script: what came with one read is answered, and one sync serves it.
ghost use Rattle.std.specs.Prelude.{◌++◌, ℕ, List, OnOk, OnErr};
ghost use Rattle.tsn_lasting.specs.Parts.{standing};
ghost use Rattle.tsn_lasting.specs.Running.{Breaks, Ends, Goes, IsBroken, IsWhole};
ghost use Rattle.tsn_lasting.specs.Standing.{IsAtRest, Standing};

use crate::backlog::Nowhere;
use crate::lasting::{Lasting, LastingFault};
use std::alloc::Global;
use tsn_bytes::{ByteIn, ByteOut};
use tsn_device::Device;
use tsn_keeping::Clock;
use tsn_serve::{LineBuffer, feed, finish};

/// The most bytes of one read.
const CHUNK: usize = 65_536;

/// The most reads of a script.
const READS: u64 = 4_294_967_296;

/// Answers each line of the input, with at most 2^32 reads. Before each read and at the end all that was entered is
/// kept, and then all replies are handed on. On `Ok` all bytes were read. At each end what the writer took are the
/// first replies to these lines, and all that the commands leave which they tell of is kept.
pub fn run_lasting<C: Clock, D: Device, W: ByteOut, R: ByteIn>(
    alloc: Global,
    lasting: &mut Lasting<C, D, W>,
    reader: &mut R,
) -> Result<(), LastingFault>
    requires rest { IsAtRest (standing W.taken lasting.old) }
    ensures ok { OnOk result (Ends (standing W.taken lasting.old) (R.remaining reader.old) (R.remaining reader.new)
        (standing W.taken lasting.new)) }
    ensures broken { OnErr result (Breaks (standing W.taken lasting.old) (R.remaining reader.old) (R.remaining reader.new)
        (standing W.taken lasting.new)) }
{
    let Ok(mut line) = LineBuffer::new(alloc) else {
        return Err(LastingFault::Memory);
    };
    let mut chunk = [0u8; CHUNK];
    'reads: for _ in 0..READS {
        let Ok(count) = reader.pull(&mut chunk) else {
            return Err(LastingFault::Read);
        };
        if count == 0 {
            return end(alloc, lasting, &line);
        }
        answer_window(alloc, lasting, &mut line, &chunk[..count])?;
    }
    Err(LastingFault::Read)
}

/// Answers the lines that end in a piece of the input; then all that they leave is kept, and their replies are handed
/// on.
fn answer_window<C: Clock, D: Device, W: ByteOut>(
    alloc: Global,
    lasting: &mut Lasting<C, D, W>,
    line: &mut LineBuffer,
    piece: &[u8],
) -> Result<(), LastingFault>
    ensures goes { OnOk result ((s0 : Standing) (input : List ℕ) → Goes s0 input line.old (standing W.taken lasting.old)
        → Goes s0 (input ++ piece.now) line.new (standing W.taken lasting.new)) }
    ensures rests { OnOk result (IsAtRest (standing W.taken lasting.new)) }
    ensures broken { OnErr result ((s0 : Standing) (input : List ℕ) → Goes s0 input line.old (standing W.taken lasting.old)
        → IsBroken s0 (input ++ piece.now) (standing W.taken lasting.new)) }
{
    if feed(alloc, lasting, line, piece, &mut Nowhere).is_err() {
        return Err(lasting.fault());
    }
    lasting.settle()
}

/// Answers what stands behind the last line feed, at the end of the input; then the same.
fn end<C: Clock, D: Device, W: ByteOut>(
    alloc: Global,
    lasting: &mut Lasting<C, D, W>,
    line: &LineBuffer,
) -> Result<(), LastingFault>
    ensures whole { OnOk result ((s0 : Standing) (input : List ℕ) → Goes s0 input line.now (standing W.taken lasting.old)
        → IsWhole s0 input (standing W.taken lasting.new)) }
    ensures rests { OnOk result (IsAtRest (standing W.taken lasting.new)) }
    ensures broken { OnErr result ((s0 : Standing) (input : List ℕ) → Goes s0 input line.now (standing W.taken lasting.old)
        → IsBroken s0 input (standing W.taken lasting.new)) }
{
    if finish(alloc, lasting, line, &mut Nowhere).is_err() {
        return Err(lasting.fault());
    }
    lasting.settle()
}
