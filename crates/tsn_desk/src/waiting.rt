//! Who waits at a desk, and who wakes them. This decides when a thread sleeps, and never what it finds.
//!
//! A thread that finds its way not free stays at the door. So one that draws a ticket is served soon and seldom sleeps,
//! and who sleeps at the door is not in the way of those who run. The door is a word: 1 while someone may sleep there.
//! Who ends a turn at a door that is not locked sets it to 0 and wakes one, and so does who unlocks it. Who was woken
//! sets it to 1 again, since others may still sleep.
//!
//! A thread that has turns to take one behind the other locks the door. Others that want to lock it stay there, and so
//! does one that wants a single turn while two tickets are out; else it slips in.
//!
//! Nobody sleeps on: whoever sets the word to 1 looks once more after that, at the tickets, at the turns that have
//! ended and at the lock. It goes in; or it finds the door locked, and whoever locked it unlocks it and looks at the
//! word later; or it finds a ticket out, and whoever ends that turn, or unlocks the door behind it, looks at the word
//! later, unless the door is locked again by then. Either way one more is woken.
use std::sync::Wait;
use std::sync::atomic::{AtomicU64, Ordering};

/// Someone may sleep at the door.
const CROWDED: u32 = 1;

/// The door is locked.
const LOCKED: u64 = 1;

#[derive(Drop)]
pub(crate) struct Waiting {
    /// Whether someone may sleep at the door.
    door: AtomicU64,
    /// Whether the door is locked.
    lock: AtomicU64,
    /// How many sleep with a ticket, or are about to.
    sleepers: AtomicU64,
}

impl Waiting {
    /// Nobody waits.
    pub(crate) fn new() -> Waiting {
        Waiting {
            door: AtomicU64::new(0),
            lock: AtomicU64::new(0),
            sleepers: AtomicU64::new(0),
        }
    }

    /// Says that someone is at the door.
    pub(crate) fn come(&self) {
        self.door.store(u64::from(CROWDED), Ordering::SeqCst);
    }

    /// Sleeps at the door, unless someone was woken since `come`.
    pub(crate) fn sleep<R: Wait>(&self, rt: &R) {
        self.door.park(rt, CROWDED);
    }

    /// Whether someone may sleep at the door.
    pub(crate) fn is_crowded(&self) -> bool {
        self.door.load(Ordering::SeqCst) != 0
    }

    /// Wakes one at the door, if someone may sleep there.
    pub(crate) fn call_in(&self) {
        if self.is_crowded() {
            self.door.store(0, Ordering::SeqCst);
            self.door.wake_one();
        }
    }

    /// Whether the door is locked.
    pub(crate) fn is_locked(&self) -> bool {
        self.lock.load(Ordering::SeqCst) != 0
    }

    /// Locks the door, unless it is locked, and says whether it was open.
    pub(crate) fn lock(&self) -> bool {
        self.lock.swap(LOCKED, Ordering::SeqCst) == 0
    }

    /// The door is no longer locked.
    pub(crate) fn unlock(&self) {
        self.lock.store(0, Ordering::SeqCst);
    }

    /// Counts one more that is about to sleep with a ticket.
    pub(crate) fn lie_down(&self) {
        self.sleepers.fetch_add(1, Ordering::SeqCst);
    }

    /// Counts one less.
    pub(crate) fn get_up(&self) {
        self.sleepers.fetch_sub(1, Ordering::SeqCst);
    }

    /// Whether some sleep with a ticket, or are about to.
    pub(crate) fn has_sleepers(&self) -> bool {
        self.sleepers.load(Ordering::SeqCst) != 0
    }
}
