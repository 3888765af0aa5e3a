//! Worked scripts over a bridge: in every spelling and in pieces of every size, and one cut at every read and write.

use super::buffered;
use super::fakes::LineFeeds;
use super::worked::{
    Exchange, FIRST_RUN, OTHERS_KEPT, RECORDS, REDONE, Spelling, input_of, replies_of,
};
use crate::comparing::same;
use std::alloc::{AllocError, Global};
use std::process::Abort;
use std::test::Fail;
use tsn_bridge::bridge::{Bridge, Setup};
use tsn_bytes::{ByteIn, ByteOut, Failing, Fault, MemIn, MemOut};
use tsn_serve::{run_script, run_script_up_to};
use tsn_types::refusals::Refusal;

/// The lines of the first run.
const INPUT: &'static [u8] = b"{\"do\":\"hello\"}\n\
    {\"do\":\"create\",\"key\":\"gate 0\",\"record\":{\"base\":0,\"cycle\":1000000,\"extension\":0,\"invalid_rx\":false,\"ipv\":null,\"list\":[],\"octets_exceeded\":false,\"open\":true},\"s\":1}\n\
    {\"do\":\"create\",\"key\":\"filter 3\",\"record\":{\"gate\":0,\"handle\":7,\"max_sdu\":1500,\"meter\":null,\"oversize\":true,\"priority\":null},\"s\":1}\n\
    {\"do\":\"remove\",\"key\":\"filter 3\",\"s\":1}\n\
    {\"do\":\"undo\",\"s\":1}\n\
    {\"do\":\"undo\",\"s\":1}\n";

/// The replies to them.
const REPLIES: &'static [u8] = b"{\"session\":1}\n\
    {\"entry\":1}\n\
    {\"entry\":2}\n\
    {\"entry\":3}\n\
    {\"entry\":4,\"of\":3}\n\
    {\"entry\":5,\"of\":2}\n";

const SYNTAX: &'static [u8] = b"{\"refused\":2,\"why\":\"syntax\"}\n";

/// How the script of the reader ends over a new bridge.
fn run<R: ByteIn, W: ByteOut>(
    alloc: Global,
    reader: &mut R,
    writer: &mut W,
) -> Result<Result<(), Fault>, Refusal> {
    let mut bridge = Bridge::new(alloc, Setup::standard(alloc))?;
    Ok(run_script(alloc, &mut bridge, reader, writer))
}

// How many line feeds the bytes have.
fn line_feeds(bytes: &[u8]) -> usize {
    bytes.iter().filter(|byte| **byte == b'\n').count()
}

// The text up to so many line feeds.
fn first_lines(text: &[u8], count: usize) -> &[u8] {
    let mut seen = 0usize;
    for (index, byte) in text.iter().enumerate() {
        if seen == count {
            return &text[..index];
        }
        if *byte == b'\n' {
            seen = seen.saturating_add(1);
        }
    }
    text
}

// The text, so many times.
fn repeated(alloc: Global, text: &[u8], count: usize) -> Result<Vec<u8>, AllocError> {
    let mut all = Vec::new(alloc);
    for _ in 0..count {
        all.extend_from_slice(text)?;
    }
    Ok(all)
}

/// The input, read and written in pieces of so many bytes, has these replies.
fn has_replies(
    rt: &impl Abort,
    alloc: Global,
    input: &[u8],
    want: &[u8],
    most: usize,
) -> Result<(), Fail> {
    let mut reader = MemIn::new(Vec::from_slice(alloc, input)?, most.max(1), None);
    let mut writer = MemOut::new(Vec::new(alloc), most.max(1), None);
    same(rt, &run(alloc, &mut reader, &mut writer)?, &Ok(()));
    assert_eq!(rt; writer.as_slice(), want, "in pieces of {most}");
    Ok(())
}

/// The script in that spelling, read in pieces of so many bytes, has its replies.
fn answers_well(
    rt: &impl Abort,
    alloc: Global,
    script: &[Exchange],
    spelling: Spelling,
    most: usize,
) -> Result<(), Fail> {
    let input = input_of(alloc, script, spelling)?;
    let want = replies_of(alloc, script)?;
    has_replies(rt, alloc, input.as_slice(), want.as_slice(), most)
}

#[test]
fn worked_scripts_in_every_spelling(rt: HostRuntime) -> Result<(), Fail> {
    for script in [
        FIRST_RUN.as_slice(),
        RECORDS.as_slice(),
        OTHERS_KEPT.as_slice(),
        REDONE.as_slice(),
    ] {
        for spelling in [
            Spelling::Compact,
            Spelling::Spaced,
            Spelling::Reversed,
            Spelling::Escaped,
        ] {
            for most in [1usize, 7, 100_000] {
                answers_well(&rt, rt.alloc(), script, spelling, most)?;
            }
        }
    }
    Ok(())
}

// A session that was not given out, a hello, an empty line, a line that is too long, and a line without its end.
fn handled_lines(alloc: Global) -> Result<Vec<u8>, AllocError> {
    let mut input = Vec::from_slice(alloc, b"{\"do\":\"undo\",\"s\":1}\n{\"do\":\"hello\"}\n\n")?;
    input.extend_from_slice(repeated(alloc, b"x", 131073)?.as_slice())?;
    input.extend_from_slice(b"\n{\"do\":\"undo\",\"s\":1}\n{\"do\":\"undo\"")?;
    Ok(input)
}

const HANDLED: &'static [u8] =
    b"{\"refused\":5,\"why\":\"no_session\"}\n{\"session\":1}\n{\"refused\":2,\"why\":\"syntax\"}\n\
    {\"refused\":1,\"why\":\"too_long\"}\n{\"refused\":10,\"why\":\"nothing_to_undo\"}\n{\"refused\":2,\"why\":\"syntax\"}\n";

/// A line may come in pieces that end anywhere in it, and a piece may have many lines.
#[test]
fn lines_in_pieces_of_every_size(rt: HostRuntime) -> Result<(), Fail> {
    let alloc = rt.alloc();
    for spelling in [Spelling::Compact, Spelling::Spaced] {
        let input = input_of(alloc, FIRST_RUN.as_slice(), spelling)?;
        for most in 1..input.len() {
            has_replies(&rt, alloc, input.as_slice(), REPLIES, most)?;
        }
    }
    let refusals = repeated(alloc, SYNTAX, 4)?;
    for most in 1..9 {
        has_replies(&rt, alloc, b"a\n\r\n b\n\n", refusals.as_slice(), most)?;
    }
    let handled = handled_lines(alloc)?;
    for most in [1000usize, 100_000] {
        has_replies(&rt, alloc, handled.as_slice(), HANDLED, most)?;
    }
    Ok(())
}

/// Reads in pieces of so many bytes, and the read of this number fails.
fn cut_at_read(
    rt: &impl Abort,
    alloc: Global,
    input: &[u8],
    want: &[u8],
    most: usize,
    call: u64,
) -> Result<(), Fail> {
    let mut reader = MemIn::new(Vec::from_slice(alloc, input)?, most.max(1), Some(call));
    let mut writer = MemOut::new(Vec::new(alloc), 1, None);
    let end = run(alloc, &mut reader, &mut writer)?;
    same(rt, &end, &Err(Fault::Read));
    assert_eq!(rt; writer.as_slice(), want, "at read {call}");
    Ok(())
}

/// Just the lines that ended by then are answered; at the last read, which would tell the end, all that have a line
/// feed.
#[test]
fn a_script_cut_at_each_read(rt: HostRuntime) -> Result<(), Fail> {
    let alloc = rt.alloc();
    let mut call = 0u64;
    let mut ended = 0usize;
    for piece in INPUT.chunks(7) {
        cut_at_read(&rt, alloc, INPUT, first_lines(REPLIES, ended), 7, call)?;
        ended = ended.saturating_add(line_feeds(piece));
        call = call.saturating_add(1);
    }
    cut_at_read(&rt, alloc, INPUT, REPLIES, 7, call)?;
    let refusals = repeated(alloc, SYNTAX, 2)?;
    for (call, count) in [(0u64, 0usize), (1, 0), (2, 1), (3, 2)] {
        let want = first_lines(refusals.as_slice(), count);
        cut_at_read(&rt, alloc, b"ab\nc\nd", want, 2, call)?;
    }
    Ok(())
}

/// Writes at most so many bytes a call, and the write of this number fails.
fn cut_at_write(
    rt: &impl Abort,
    alloc: Global,
    want: &[u8],
    most: usize,
    call: u64,
    failing: Failing,
) -> Result<(), Fail> {
    let mut reader = MemIn::new(Vec::from_slice(alloc, INPUT)?, 7, None);
    let mut writer = MemOut::new(Vec::new(alloc), most.max(1), Some((call, failing)));
    let end = run(alloc, &mut reader, &mut writer)?;
    same(rt, &end, &Err(Fault::Write));
    assert_eq!(rt; writer.as_slice(), want, "at write {call}");
    Ok(())
}

/// A byte a call, and then a reply a call.
#[test]
fn a_script_cut_at_each_write(rt: HostRuntime) -> Result<(), Fail> {
    let alloc = rt.alloc();
    for failing in [Failing::Error, Failing::Nothing] {
        let mut call = 0u64;
        for cut in 0..REPLIES.len() {
            cut_at_write(&rt, alloc, &REPLIES[..cut], 1, call, failing)?;
            call = call.saturating_add(1);
        }
        for (call, count) in [(0u64, 0usize), (1, 1), (2, 2), (3, 3), (4, 4), (5, 5)] {
            cut_at_write(&rt, alloc, first_lines(REPLIES, count), 1000, call, failing)?;
        }
    }
    Ok(())
}

/// What was taken by the end is all, or is a front of it.
fn is_front(rt: &impl Abort, end: Result<(), Fault>, taken: &[u8], call: u64) {
    if end == Ok(()) {
        assert_eq!(rt; taken, REPLIES, "at call {call}");
    } else {
        same(rt, &end, &Err(Fault::Write));
        assert!(rt; taken.len() < REPLIES.len(), "at call {call}");
        assert!(rt; REPLIES.starts_with(taken), "at call {call}");
    }
}

fn cut_behind_buffer(
    rt: &impl Abort,
    alloc: Global,
    call: u64,
    failing: Failing,
) -> Result<(), Fail> {
    let mut writer = buffered(alloc, 5, Some((call, failing)))?;
    let mut reader = MemIn::new(Vec::from_slice(alloc, INPUT)?, 50, None);
    let end = run(alloc, &mut reader, &mut writer)?;
    is_front(rt, end, writer.inner().as_slice(), call);
    Ok(())
}

#[test]
fn a_failed_write_behind_a_buffer_leaves_a_front(rt: HostRuntime) -> Result<(), Fail> {
    for call in 0..40 {
        for failing in [Failing::Error, Failing::Nothing] {
            cut_behind_buffer(&rt, rt.alloc(), call, failing)?;
        }
    }
    Ok(())
}

/// How the script of the reader ends over a new bridge at the bound of 1000 reads.
fn run_to_the_bound<R: ByteIn, W: ByteOut>(
    alloc: Global,
    reader: &mut R,
    writer: &mut W,
) -> Result<Result<(), Fault>, Refusal> {
    let mut bridge = Bridge::new(alloc, Setup::standard(alloc))?;
    Ok(run_script_up_to(alloc, &mut bridge, reader, writer, 1000))
}

/// Empty lines without an end.
pub(super) fn end_at_the_bound(rt: &impl Abort, alloc: Global) -> Result<(), Fail> {
    let mut reader = LineFeeds { calls: 0 };
    let mut writer = MemOut::new(Vec::new(alloc), 1000, None);
    let end = run_to_the_bound(alloc, &mut reader, &mut writer)?;
    same(rt, &end, &Err(Fault::Read));
    same(rt, &reader.calls, &1000);
    let want = repeated(alloc, SYNTAX, 1000)?;
    same(rt, &writer.as_slice(), &want.as_slice());
    Ok(())
}
