//! What two threads are told holds of the journal in the end.
ghost use Rattle.std.specs.Prelude.{◌≡◌, [], true, Contains, IfSome};
ghost use Rattle.tsn_commit.specs.Lines.{IsLine};
ghost use Rattle.tsn_commit.specs.Resting.{Begins, KeepsBoth};

use crate::commit::Commit;
use crate::scribe::Ahead;
use std::alloc::Global;
use std::sync::Wait;
use std::thread;
use std::thread::Threads;
use tsn_device::Device;
use tsn_history::{Front, Naming, Opened};
use tsn_keeping::{Clock, Keeper};

/// Records the line behind all that is recorded, and waits until it is kept: what is kept has it.
pub fn keep<C: Clock, D: Device, R: Naming, K: Ahead, W: Wait>(
    rt: &W,
    commit: &Commit<C, D, R, K>,
    line: &[u8],
) -> Option<Front<K>>
    requires { IsLine line.now }
    ensures { IfSome result (λ kept. Contains kept line.now) }
{
    let mine = commit.add(rt, line).ok()?;
    commit.settle(rt, &mine).ok()
}

/// Two threads record and settle a line each. Where both were told that theirs is kept, and the keeper comes back, its
/// journal surely keeps both.
pub fn keep_both<
    C: Clock + Send,
    D: Device + Send,
    R: Naming + Send + Sync,
    K: Ahead + Send + Sync,
    W: Threads + Wait + Sync,
>(
    rt: &W,
    alloc: Global,
    keeper: Keeper<D>,
    clock: C,
    records: Opened,
    keeps: Opened,
    one: &[u8],
    other: &[u8],
) -> Option<Keeper<D>>
    requires keeper { Begins K.had K.digest keeper }
    requires names { (records.seen.book ≡ R.book) × (keeps.seen.book ≡ K.book) }
    requires lines { IsLine one.now × IsLine other.now }
    ensures { IfSome result (λ k. KeepsBoth keeper.kept keeper.last k.kept one.now other.now) }
{
    let Ok(commit) = Commit::<C, D, R, K>::new(alloc, keeper, clock, records, keeps) else {
        return None;
    };
    let shared = &commit;
    let (first, second) = thread::join(
        rt,
        || -> Option<Front<K>>
            requires { IsLine one.now }
            ensures { IfSome result (λ kept. Contains kept one.entry.now) }
        { keep(rt, shared, one) },
        || -> Option<Front<K>>
            requires { IsLine other.now }
            ensures { IfSome result (λ kept. Contains kept other.entry.now) }
        { keep(rt, shared, other) },
    );
    let first = first?;
    let second = second?;
    let (keeper, kept) = commit.into_keeper()?;
    if !kept.covers(&first) {
        return None;
    }
    if !kept.covers(&second) {
        return None;
    }
    Some(keeper)
}
