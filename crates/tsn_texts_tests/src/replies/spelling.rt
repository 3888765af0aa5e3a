//! How long the longest replies are that may wait while others are written, with numbers up to 2^64 - 1, which no
//! script brings about.
use crate::comparing::same;
use std::alloc::Global;
use std::process::Abort;
use std::test::Fail;
use tsn_bridge::reply::Reply;
use tsn_bytes::MemOut;
use tsn_chain::frame::{DropCause, Verdict};
use tsn_replies::write_reply;
use tsn_types::keys::Key;
use tsn_types::numbers::{FilterId, Instant, Priority};
use tsn_types::refusals::Refusal;

const GREATEST: u64 = 18_446_744_073_709_551_615;

// The line of the reply has 128 bytes at most.
fn is_short(rt: &impl Abort, alloc: Global, reply: &Reply) -> Result<(), Fail> {
    let mut writer = MemOut::new(Vec::with_capacity(alloc, 256)?, 1000, None);
    write_reply(&mut writer, reply)?;
    same(rt, &(writer.as_slice().len() <= 128), &true);
    Ok(())
}

// The longest verdicts.
fn verdicts(now: Instant) -> [Verdict; 2] {
    let filter = FilterId::new(65_535).unwrap();
    [
        Verdict::Passed {
            filter: Some(filter),
            now,
            priority: Priority::new(7).unwrap(),
            yellow: false,
        },
        Verdict::Dropped {
            filter,
            now,
            cause: DropCause::Oversize,
        },
    ]
}

// Replies to edits, acts, frames and what is refused are short: who holds back 64 of them looks for so much room.
fn short_replies_are_short(rt: &impl Abort, alloc: Global) -> Result<(), Fail> {
    let now = Instant::new(4_611_686_018_427_387_904).unwrap();
    for refusal in [
        Refusal::Referred(Key::Filter(FilterId::new(65_535).unwrap())),
        Refusal::Conflict {
            own: GREATEST,
            other: GREATEST,
        },
        Refusal::Settled { upto: GREATEST },
    ] {
        is_short(rt, alloc, &Reply::Refused(refusal))?;
    }
    for verdict in verdicts(now) {
        is_short(rt, alloc, &Reply::Framed(verdict))?;
    }
    let settled = Reply::Settled {
        entry: GREATEST,
        settled: GREATEST,
    };
    is_short(rt, alloc, &settled)?;
    let acted = Reply::Acted {
        change: Some(GREATEST),
        entry: GREATEST,
        now,
    };
    is_short(rt, alloc, &acted)
}

#[test]
fn replies_that_wait_are_short(rt: HostRuntime) -> Result<(), Fail> {
    short_replies_are_short(&rt, rt.alloc())
}
