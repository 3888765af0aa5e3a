//! Commits at work over a device in memory.
ghost use Rattle.std.specs.Prelude.{◌≡◌};
ghost use Rattle.std.specs.Bool.{OnTrue};
ghost use Rattle.tsn_commit.specs.Lines.{IsLine};
ghost use Rattle.tsn_commit.specs.Resting.{Begins};

use memchr::memchr;
use std::alloc::{AllocError, Global};
use std::marker::Brand;
use std::sync::Wait;
use std::thread;
use std::thread::Threads;
use tsn_commit::{Ahead, Commit};
use tsn_device::MemoryDevice;
use tsn_history::{Naming, Opened};
use tsn_keeping::{Clock, Keeper, Stamp};
use tsn_recorded::{Chain, LONGEST_COMMAND};

// Room for all that a device here is given, so that it never fails for want of memory.
const ROOM: usize = 3_000_000;

/// A clock that stands still.
#[derive(Drop)]
pub struct Still;

impl Clock for Still {
    fn stamp(&mut self) -> Stamp {
        Stamp::of(b"2026-11-27T12:31:00Z")
    }
}

// Whether these bytes may be a command line.
fn is_line(line: &[u8]) -> bool
    ensures { OnTrue result (IsLine line.now) }
{
    if line.len() > LONGEST_COMMAND {
        return false;
    }
    memchr(b'\n', line).is_none()
}

// Records the line and settles it, twice, and once more settles the first. Says how often that was told to be kept.
fn settle_thrice<R: Naming, K: Ahead, W: Wait>(
    rt: &W,
    commit: &Commit<Still, MemoryDevice, R, K>,
    line: &[u8],
) -> (bool, bool, bool) {
    if !is_line(line) {
        return (false, false, false);
    }
    let none = commit.recorded(rt);
    let Ok(first) = commit.record(rt, &none, line) else {
        return (false, false, false);
    };
    let one = commit.settle(rt, &first).is_ok();
    let other = match commit.record(rt, &first, line) {
        Ok(second) => commit.settle(rt, &second).is_ok(),
        Err(_) => false,
    };
    (one, other, commit.settle(rt, &first).is_ok())
}

// Records the line so often, one behind the other, and settles the last one. False where that failed.
fn record_many<R: Naming, K: Ahead, W: Wait>(
    rt: &W,
    commit: &Commit<Still, MemoryDevice, R, K>,
    line: &[u8],
    count: u64,
) -> bool
    requires { IsLine line.now }
{
    let mut last = commit.recorded(rt);
    for _ in 0..count {
        let Ok(mine) = commit.record(rt, &last, line) else {
            return false;
        };
        last = mine;
    }
    commit.settle(rt, &last).is_ok()
}

// Records the line and waits until it is kept, so often. False where that failed.
fn keep_often<R: Naming, K: Ahead, W: Wait>(
    rt: &W,
    commit: &Commit<Still, MemoryDevice, R, K>,
    line: &[u8],
    count: u64,
) -> bool {
    if !is_line(line) {
        return false;
    }
    for _ in 0..count {
        let Ok(mine) = commit.add(rt, line) else {
            return false;
        };
        if commit.settle(rt, &mine).is_err() {
            return false;
        }
    }
    true
}

// Two threads do so. False where one of them failed.
fn keep_in_two<R: Naming + Send + Sync, K: Ahead + Send + Sync, W: Threads + Wait + Sync>(
    rt: &W,
    commit: &Commit<Still, MemoryDevice, R, K>,
    line: &[u8],
    count: u64,
) -> bool {
    let (one, other) = thread::join(
        rt,
        || keep_often(rt, commit, line, count),
        || keep_often(rt, commit, line, count),
    );
    one && other
}

// Four threads record a line each, two of them the first and two the other, so often, and each time wait until it is
// kept. False where one of them failed.
fn keep_in_four<R: Naming + Send + Sync, K: Ahead + Send + Sync, W: Threads + Wait + Sync>(
    rt: &W,
    commit: &Commit<Still, MemoryDevice, R, K>,
    lines: (&[u8], &[u8]),
    count: u64,
) -> bool {
    let (one, other) = thread::join(
        rt,
        || keep_in_two(rt, commit, lines.0, count),
        || keep_in_two(rt, commit, lines.1, count),
    );
    one && other
}

// What a commit is asked to do.
#[derive(Clone, Copy)]
enum Task<'a> {
    Thrice(&'a [u8]),
    Many(&'a [u8], u64),
    InFour((&'a [u8], &'a [u8]), u64),
}

// What was told to be kept, and what is kept then.
#[derive(Drop)]
struct Done {
    told: (bool, bool, bool),
    keeper: Option<Keeper<MemoryDevice>>,
}

// What is told of a task to be kept.
fn done_by<R: Naming + Send + Sync, K: Ahead + Send + Sync, W: Threads + Wait + Sync>(
    rt: &W,
    commit: &Commit<Still, MemoryDevice, R, K>,
    task: Task<'_>,
) -> (bool, bool, bool) {
    match task {
        Task::Thrice(line) => settle_thrice(rt, commit, line),
        Task::Many(line, count) => {
            let all = is_line(line) && record_many(rt, commit, line, count);
            (all, all, all)
        }
        Task::InFour(lines, count) => {
            let all = keep_in_four(rt, commit, lines, count);
            (all, all, all)
        }
    }
}

fn work<R: Naming + Send + Sync, K: Ahead + Send + Sync, W: Threads + Wait + Sync>(
    rt: &W,
    alloc: Global,
    keeper: Keeper<MemoryDevice>,
    records: Opened,
    keeps: Opened,
    task: Task<'_>,
) -> Result<Done, AllocError>
    requires keeper { Begins K.had K.digest keeper }
    requires names { (records.seen.book ≡ R.book) × (keeps.seen.book ≡ K.book) }
{
    let commit = Commit::<_, _, R, K>::new(alloc, keeper, Still, records, keeps)?;
    let told = done_by(rt, &commit, task);
    let keeper = commit.into_keeper().map(|(keeper, _)| keeper);
    Ok(Done { told, keeper })
}

// A commit at work over a new journal, whose device fails at the call of the number, if one is given; a crash leaves it
// that many bytes of what was not kept.
fn worked<W: Threads + Wait + Sync>(
    rt: &W,
    alloc: Global,
    failing: Option<u64>,
    torn: usize,
    task: Task<'_>,
) -> Result<Done, AllocError> {
    let device = MemoryDevice::new(Vec::with_capacity(alloc, ROOM)?, failing, torn);
    let keeper = Keeper::new(alloc, device, Chain::new())?;
    work::<Brand, Brand, _>(rt, alloc, keeper, Opened::new(), Opened::new(), task)
}

// What is kept, if all that is told to be.
fn all_kept(done: Done) -> Option<Keeper<MemoryDevice>> {
    let Done { told, keeper } = done;
    if told.0 { keeper } else { None }
}

/// What is told where a line is recorded and settled over a new journal, twice, and the first once more. Its device
/// fails at the call of the number, if one is given, and a crash leaves it that many bytes of what was not kept.
pub fn settled<W: Threads + Wait + Sync>(
    rt: &W,
    alloc: Global,
    failing: Option<u64>,
    torn: usize,
    line: &[u8],
) -> Result<(bool, bool, bool), AllocError> {
    let done = worked(rt, alloc, failing, torn, Task::Thrice(line))?;
    Ok(done.told)
}

/// A new journal in which the line is recorded so often, if all that is told to be kept.
pub fn recorded<W: Threads + Wait + Sync>(
    rt: &W,
    alloc: Global,
    failing: Option<u64>,
    line: &[u8],
    count: u64,
) -> Result<Option<Keeper<MemoryDevice>>, AllocError> {
    let done = worked(rt, alloc, failing, 0, Task::Many(line, count))?;
    Ok(all_kept(done))
}

/// A new journal in which two threads record a line each a thousand times and two another one, if all that is told to
/// be kept.
pub fn kept_by_four<W: Threads + Wait + Sync>(
    rt: &W,
    alloc: Global,
    failing: Option<u64>,
    one: &[u8],
    other: &[u8],
) -> Result<Option<Keeper<MemoryDevice>>, AllocError> {
    let done = worked(rt, alloc, failing, 0, Task::InFour((one, other), 1000))?;
    Ok(all_kept(done))
}
