//! The loop that answers lines, in whatever pieces their bytes come.
//! It is generic in what answers a line, and relies on that one's contract, on the reader's and on the writer's.
ghost use Rattle.std.specs.Prelude.{◌≡◌, ◌≢◌, ◌⊎◌, ◌<◌, ◌≤◌, ◌+◌, ◌++◌, ℕ, Option, List, [], ◌∷◌, length, take, None, Some, IfSome, true, IfOk, IfErr, OnOk, OnErr, IsErrOf, Ok, Err, option_map, slice_index};
ghost use Rattle.std.specs.Io.KnownBytes.{Appends, Consumes, Keeps, IsAtEnd};
ghost use Rattle.tsn_bytes.specs.Bytes.{Counts};
ghost use Rattle.tsn_bytes.specs.declared.bytes.Fault.{Fault as AnyFault};
ghost use Rattle.tsn_bytes.specs.declared.bytes.Fault.TheVariants.{Write, Memory, Exhausted};
ghost use Rattle.tsn_serve.specs.Lines.{HasNoLineFeed, line_feed, longest_line};
ghost use Rattle.tsn_serve.specs.Pieces.{Feeds, FeedsFront, Ends, Breaks, EndBreaks};
ghost use Rattle.tsn_serve.specs.Outcomes.{Outcome, moment};
ghost use Rattle.tsn_serve.specs.Lots.{AnswersFront};

use crate::line_buffer::LineBuffer;
use crate::lots::front_line;
use memchr::memchr;
use std::alloc::Global;
use tsn_bytes::{ByteIn, ByteOut, Failed, Fault};

// The most bytes of one read.
const CHUNK: usize = 65536;

/// How answers ended: all were given, or a fault broke them off.
pub type Ended = Result<(), Fault>;

/// What answers command lines.
pub trait Responder {
    // From the state old a line may have this text, its line feed in it, with the state new after it. None is a line
    // that is too long.
    ghost answers: { Self → Option (List ℕ) → List ℕ → Self → Type 0 };

    // From the state old the answer to a line may end by this fault, with this part of it written and the state new
    // after it.
    ghost breaks: { Self → Option (List ℕ) → AnyFault → List ℕ → Self → Type 0 };

    /// Answers a line, given without its line feed; none is a line that is too long. The faults are `Write`, where
    /// the writer failed, and `Exhausted`, where the responder can answer no more.
    fn answer<W: ByteOut>(&mut self, alloc: Global, line: Option<&[u8]>, writer: &mut W) -> Ended
        ensures ok { OnOk result ((text : List ℕ)
            × answers self.old (option_map (λ s. s.now) line.entry) text self.new
            × Appends (W.taken writer.old) (W.taken writer.new) text) }
        ensures worked { result ≢ Err Write → W.has_failed writer.new ≡ W.has_failed writer.old }
        ensures fault { IfErr result (λ e. (e ≡ Write) ⊎ (e ≡ Exhausted)) }
        ensures failed { IsErrOf result Write → W.has_failed writer.new ≡ true }
        ensures broken { IfErr result (λ e. (part : List ℕ)
            × breaks self.old (option_map (λ s. s.now) line.entry) e part self.new
            × Appends (W.taken writer.old) (W.taken writer.new) part) };

    /// Answers one line or more of those that lie whole in front of the bytes, where nothing is kept of a line, and
    /// says how many bytes these have; or none of them. The faults are those of an answer.
    fn answer_front<W: ByteOut>(
        &mut self,
        _alloc: Global,
        _bytes: &[u8],
        _writer: &mut W,
    ) -> Result<Option<usize>, Fault>
        ensures none { result ≡ Ok None → (self.new ≡ self.old) × (_writer.new ≡ _writer.old) }
        ensures front { IfOk result (λ count.
            IfSome count (λ n. AnswersFront answers breaks self.old _bytes.now (W.taken _writer.old) (W.taken _writer.new)
            (Ok n) self.new)) }
        ensures broken { IfErr result (λ e. AnswersFront answers breaks self.old _bytes.now (W.taken _writer.old) (W.taken _writer.new)
            (Err e) self.new) }
        ensures worked { result ≢ Err Write → W.has_failed _writer.new ≡ W.has_failed _writer.old }
        ensures failed { IsErrOf result Write → W.has_failed _writer.new ≡ true }
    {
        Ok(None)
    }
}

// The bytes up to the first line feed, all of them where there is none.
fn up_to_line_feed(bytes: &[u8]) -> &[u8]
    ensures one { HasNoLineFeed result.now }
    ensures fits { length result.now ≤ length bytes.now }
    ensures front { take (length result.now) bytes.now ≡ result.now }
    ensures next { length result.now < length bytes.now → slice_index bytes.now (length result.now) ≡ line_feed }
{
    match memchr(b'\n', bytes) {
        Some(end) => &bytes[..end],
        None => bytes,
    }
}

// Goes on by a part of a line, up to its line feed, or by the line feed alone, which ends the line that is kept; and
// says by how many bytes.
fn feed_part<A: Responder, W: ByteOut>(
    alloc: Global,
    responder: &mut A,
    line: &mut LineBuffer,
    bytes: &[u8],
    writer: &mut W,
) -> Result<usize, Fault>
    requires { 0 < length bytes.now }
    ensures front { FeedsFront A.answers A.breaks responder.old line.old bytes.now (W.taken writer.old) (W.taken writer.new) result
        responder.new line.new }
    ensures worked { result ≢ Err Write → W.has_failed writer.new ≡ W.has_failed writer.old }
    ensures failed { IsErrOf result Write → W.has_failed writer.new ≡ true }
{
    if bytes[0] == b'\n' {
        return match responder.answer(alloc, line.get(), writer) {
            Ok(()) => {
                line.clear();
                Ok(1)
            }
            Err(fault) => Err(fault),
        };
    }
    let part = up_to_line_feed(bytes);
    line.push_all(part);
    Ok(part.len())
}

// Goes on by lines that lie whole in front, or else by a part of one, and says by how many bytes.
fn feed_front<A: Responder, W: ByteOut>(
    alloc: Global,
    responder: &mut A,
    line: &mut LineBuffer,
    bytes: &[u8],
    writer: &mut W,
) -> Result<usize, Fault>
    requires { 0 < length bytes.now }
    ensures front { FeedsFront A.answers A.breaks responder.old line.old bytes.now (W.taken writer.old) (W.taken writer.new) result
        responder.new line.new }
    ensures worked { result ≢ Err Write → W.has_failed writer.new ≡ W.has_failed writer.old }
    ensures failed { IsErrOf result Write → W.has_failed writer.new ≡ true }
{
    if !line.is_empty() {
        return feed_part(alloc, responder, line, bytes, writer);
    }
    match responder.answer_front(alloc, bytes, writer) {
        Ok(Some(count)) => Ok(count),
        Ok(None) => match front_line(bytes) {
            Some(whole) => match responder.answer(alloc, Some(whole), writer) {
                Ok(()) => Ok(whole.len() + 1),
                Err(fault) => Err(fault),
            },
            None => feed_part(alloc, responder, line, bytes, writer),
        },
        Err(fault) => Err(fault),
    }
}

/// Goes on by a piece of the input: answers each line that ends in it, and keeps what stands behind the last one. On a
/// fault the lines that ended before the one that broke off were answered.
pub fn feed<A: Responder, W: ByteOut>(
    alloc: Global,
    responder: &mut A,
    line: &mut LineBuffer,
    piece: &[u8],
    writer: &mut W,
) -> Ended
    ensures ok { OnOk result ((text : List ℕ)
        × Feeds A.answers responder.old line.old piece.now text responder.new line.new
        × Appends (W.taken writer.old) (W.taken writer.new) text) }
    ensures worked { result ≢ Err Write → W.has_failed writer.new ≡ W.has_failed writer.old }
    ensures fault { IfErr result (λ e. (e ≡ Write) ⊎ (e ≡ Exhausted)) }
    ensures failed { IsErrOf result Write → W.has_failed writer.new ≡ true }
    ensures broken { IfErr result (λ e. (written : List ℕ)
        × Breaks A.answers A.breaks e responder.old line.old piece.now written responder.new
        × Appends (W.taken writer.old) (W.taken writer.new) written) }
{
    let mut done = 0;
    'bytes: while done < piece.len() {
        match feed_front(alloc, responder, line, &piece[done..], writer) {
            Ok(count) => done += count,
            Err(fault) => return Err(fault),
        }
    }
    Ok(())
}

/// Ends the line that is kept, at the end of the input: it is answered where it has any byte.
pub fn finish<A: Responder, W: ByteOut>(
    alloc: Global,
    responder: &mut A,
    line: &LineBuffer,
    writer: &mut W,
) -> Ended
    ensures ok { OnOk result ((text : List ℕ)
        × Ends A.answers responder.old line.now text responder.new
        × Appends (W.taken writer.old) (W.taken writer.new) text) }
    ensures worked { result ≢ Err Write → W.has_failed writer.new ≡ W.has_failed writer.old }
    ensures fault { IfErr result (λ e. (e ≡ Write) ⊎ (e ≡ Exhausted)) }
    ensures failed { IsErrOf result Write → W.has_failed writer.new ≡ true }
    ensures broken { IfErr result (λ e. (written : List ℕ)
        × EndBreaks A.answers A.breaks e responder.old line.now written responder.new
        × Appends (W.taken writer.old) (W.taken writer.new) written) }
{
    if line.is_empty() {
        return Ok(());
    }
    responder.answer(alloc, line.get(), writer)
}

// Reads the next piece. A read may wait for whoever waits for a reply, so nothing may be held back.
fn pull<R: ByteIn, W: ByteOut>(
    reader: &mut R,
    _writer: &W,
    piece: &mut [u8],
) -> Result<usize, Failed>
    requires { W.pending _writer.now ≡ [] }
    ensures calls { Counts (R.calls reader.old) (R.calls reader.new) 1 }
    ensures count { IfOk result (λ n. n ≤ length piece.new) }
    ensures bytes { IfOk result (λ n.
        Consumes (R.remaining reader.old) (R.remaining reader.new) (take n piece.new)) }
    ensures end { IfOk result (λ n. n ≡ 0 → 0 < length piece.new
        → IsAtEnd (R.remaining reader.new)) }
    ensures worked { OnOk result (R.has_failed reader.new ≡ R.has_failed reader.old) }
    ensures err { OnErr result (Keeps (R.remaining reader.old) (R.remaining reader.new)) }
    ensures failed { OnErr result (R.has_failed reader.new ≡ true) }
{
    reader.pull(piece)
}

/// Answers each line of the input, with at most so many reads. The memory for a line is taken before the first of
/// them. What the writer holds back is handed on before each read and at the end. After a fault the lines that ended
/// were answered; `Write` and `Exhausted` break off the last of these answers, or `Write` leaves some of them held
/// back; `Memory` comes before anything is read, and `Read` where the reader failed or so many reads came to no end.
pub fn answer_lines<A: Responder, R: ByteIn, W: ByteOut>(
    alloc: Global,
    responder: &mut A,
    reader: &mut R,
    writer: &mut W,
    reads: u64,
) -> Ended
    ensures outcome { Outcome A.answers A.breaks reads
        (moment R.remaining R.calls R.has_failed W.taken W.pending W.has_failed responder.old reader.old writer.old)
        (moment R.remaining R.calls R.has_failed W.taken W.pending W.has_failed responder.new reader.new writer.new)
        result }
    ensures untouched { IsErrOf result Memory → (reader.new ≡ reader.old) × (writer.new ≡ writer.old) }
{
    let Ok(mut line) = LineBuffer::new(alloc) else {
        return Err(Fault::Memory);
    };
    let mut chunk = [0u8; CHUNK];
    'reads: for _ in 0..reads {
        let Ok(()) = writer.flush() else {
            return Err(Fault::Write);
        };
        let Ok(count) = pull(reader, writer, &mut chunk) else {
            return Err(Fault::Read);
        };
        if count == 0 {
            if let Err(fault) = finish(alloc, responder, &line, writer) {
                return Err(fault);
            }
            let Ok(()) = writer.flush() else {
                return Err(Fault::Write);
            };
            return Ok(());
        }
        if let Err(fault) = feed(alloc, responder, &mut line, &chunk[..count], writer) {
            return Err(fault);
        }
    }
    let Ok(()) = writer.flush() else {
        return Err(Fault::Write);
    };
    Err(Fault::Read)
}
