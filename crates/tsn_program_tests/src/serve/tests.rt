//! How input is cut into lines, in whatever pieces it comes, and how a run ends where a call fails. How lines are cut
//! and answered is seen through the program too (`examples/tables`). One function makes a run and owns its reader and
//! its writer, and another goes over the cases: so a proof meets the ends of the owned at few places.
ghost use Rattle.std.specs.Prelude.{◌≤◌};

mod fakes;
mod scripts;
mod sessions;
mod worked;

use crate::comparing::same;
use fakes::{Lengths, LineFeeds};
use scripts::end_at_the_bound;
use std::alloc::{AllocError, Global};
use std::process::Abort;
use std::test::Fail;
use tsn_bytes::{Buffered, ByteIn, ByteOut, Failing, Fault, MemIn, MemOut};
use tsn_serve::{answer_lines, example_cuts, one_cut, served};

const READS: u64 = 1000000;

/// So many times x, and then the rest.
fn line_of(alloc: Global, count: usize, rest: &[u8]) -> Result<Vec<u8>, AllocError> {
    let mut line = vec![in alloc; b'x'; count]?;
    line.extend_from_slice(rest)?;
    Ok(line)
}

/// How the run over the lines ends, and how many of them were answered.
fn run<R: ByteIn, W: ByteOut>(
    alloc: Global,
    reader: &mut R,
    writer: &mut W,
    reads: u64,
) -> (Result<(), Fault>, u32) {
    let mut lengths = Lengths { answered: 0 };
    let end = answer_lines(alloc, &mut lengths, reader, writer, reads);
    (end, lengths.answered)
}

/// So many times x and then the rest are read in pieces of so many bytes, and answered so.
fn cut_in_pieces(
    rt: &impl Abort,
    alloc: Global,
    count: usize,
    rest: &[u8],
    want: &[u8],
    most: usize,
) -> Result<(), Fail>
    requires { 1 ≤ most }
{
    let mut reader = MemIn::new(line_of(alloc, count, rest)?, most, None);
    let mut writer = MemOut::new(Vec::new(alloc), most, None);
    let (end, _) = run(alloc, &mut reader, &mut writer, READS);
    same(rt, &end, &Ok(()));
    assert_eq!(rt;
        writer.as_slice(),
        want,
        "{count} bytes, and more, in pieces of {most}"
    );
    Ok(())
}

/// One that is too long is answered once.
#[test]
fn lines_end_at_line_feeds_and_at_the_end(rt: HostRuntime) -> Result<(), Fail> {
    let cases: [(usize, &[u8], &[u8]); 10] = [
        (0, b"", b""),
        (0, b"a", b"line\n"),
        (0, b"a\n", b"line\n"),
        (0, b"\n\nb", b"empty\nempty\nline\n"),
        (0, b"a\n\r\n b\n\n", b"line\nline\nline\nempty\n"),
        (131071, b"\r\n\n", b"longest\nempty\n"),
        (131072, b"", b"longest\n"),
        (131072, b"\r\n\n", b"too long\nempty\n"),
        (131073, b"", b"too long\n"),
        (200000, b"\n\n", b"too long\nempty\n"),
    ];
    for (count, rest, want) in cases {
        for most in [1usize, 7, 1000, 100_000] {
            cut_in_pieces(&rt, rt.alloc(), count, rest, want, most)?;
        }
    }
    Ok(())
}

fn fail_at_write(
    rt: &impl Abort,
    alloc: Global,
    call: u64,
    failing: Failing,
    want: &[u8],
    answered: u32,
) -> Result<(), Fail> {
    let mut reader = MemIn::new(Vec::from_slice(alloc, b"ab\n\nd")?, 100, None);
    let mut writer = MemOut::new(Vec::new(alloc), 3, Some((call, failing)));
    let (end, count) = run(alloc, &mut reader, &mut writer, READS);
    same(rt, &end, &Err(Fault::Write));
    assert_eq!(rt; writer.as_slice(), want, "at write {call}");
    same(rt, &count, &answered);
    Ok(())
}

/// A buffer before a writer in memory that takes so many bytes a call.
fn buffered(
    alloc: Global,
    most: usize,
    fails: Option<(u64, Failing)>,
) -> Result<Buffered<MemOut>, AllocError>
    requires { 1 ≤ most }
{
    Buffered::new(alloc, MemOut::new(Vec::new(alloc), most, fails))
}

/// Each read gives one line. What the buffer holds is handed on by one write, and that of this number fails.
fn fail_at_hand_over(rt: &impl Abort, alloc: Global, call: u64, answered: u32) -> Result<(), Fail> {
    let mut writer = buffered(alloc, 100, Some((call, Failing::Error)))?;
    let mut reader = MemIn::new(Vec::from_slice(alloc, b"a\nb\nc\n")?, 2, None);
    let (end, count) = run(alloc, &mut reader, &mut writer, READS);
    same(rt, &end, &Err(Fault::Write));
    assert_eq!(rt; count, answered, "at write {call}");
    Ok(())
}

/// One reply is cut, and no line after it is answered. What is held back goes out before the next read.
#[test]
fn a_failed_write_ends_the_run(rt: HostRuntime) -> Result<(), Fail> {
    let wants: [(u64, &[u8], u32); 4] = [
        (0, b"", 1),
        (1, b"lin", 1),
        (2, b"line\n", 2),
        (3, b"line\nemp", 2),
    ];
    for (call, want, answered) in wants {
        for failing in [Failing::Error, Failing::Nothing] {
            fail_at_write(&rt, rt.alloc(), call, failing, want, answered)?;
        }
    }
    for (call, answered) in [(0, 1), (1, 2), (2, 3)] {
        fail_at_hand_over(&rt, rt.alloc(), call, answered)?;
    }
    Ok(())
}

#[test]
fn input_without_an_end_ends_at_the_bound(rt: HostRuntime) -> Result<(), Fail> {
    let alloc = rt.alloc();
    let mut writer = MemOut::new(Vec::new(alloc), 100, None);
    let mut line_feeds = LineFeeds { calls: 0 };
    let (end, answered) = run(alloc, &mut line_feeds, &mut writer, 1000);
    same(&rt, &end, &Err(Fault::Read));
    same(&rt, &line_feeds.calls, &1000);
    same(&rt, &answered, &1000);
    same(&rt, &writer.as_slice().len(), &6000);
    end_at_the_bound(&rt, alloc)
}

#[test]
fn laws_are_there() {
    one_cut();
    example_cuts();
    served();
}
