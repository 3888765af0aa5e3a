//! Where threads sleep until they are woken. No contract speaks of it.
//!
//! Whoever sleeps looks under a lock whether it has to, and reads the word there. Whoever wakes takes that lock behind
//! the change for which they wait, and wakes behind it. So a sleeper has seen the change, or the wake comes behind its
//! look.
use std::sync::Wait;
use std::sync::atomic::{AtomicU64, Ordering};

/// A word that counts how often sleepers were woken, and how many sleep or are about to. Who is about to is counted
/// first, and sleeps only while the word is as it saw it, so no wake is lost.
#[derive(Drop)]
pub(crate) struct Bed {
    woken: AtomicU64,
    sleepers: AtomicU64,
}

impl Bed {
    /// Nobody sleeps.
    pub(crate) fn new() -> Bed {
        Bed {
            woken: AtomicU64::new(0),
            sleepers: AtomicU64::new(0),
        }
    }

    /// How often sleepers were woken so far, wrapping.
    pub(crate) fn woken(&self) -> u64 {
        self.woken.load(Ordering::SeqCst)
    }

    /// Sleeps, unless someone was woken since `seen`. It may end with no wake.
    pub(crate) fn sleep<W: Wait>(&self, rt: &W, seen: u64) {
        self.sleepers.fetch_add(1, Ordering::SeqCst);
        self.woken.park(rt, (seen & 0xffff_ffff) as u32);
        self.sleepers.fetch_sub(1, Ordering::SeqCst);
    }

    /// Wakes one that sleeps, if any does.
    pub(crate) fn wake_one(&self) {
        self.woken.fetch_add(1, Ordering::SeqCst);
        if self.sleepers.load(Ordering::SeqCst) != 0 {
            self.woken.wake_one();
        }
    }

    /// Wakes all that sleep.
    pub(crate) fn wake_all(&self) {
        self.woken.fetch_add(1, Ordering::SeqCst);
        if self.sleepers.load(Ordering::SeqCst) != 0 {
            self.woken.wake_all();
        }
    }
}
