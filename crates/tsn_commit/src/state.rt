//! What lies under the lock of those who record.
ghost use Rattle.std.specs.Prelude.{◌≡◌, ◌++◌, [], ◌∷◌, IfOk, IfSome};
ghost use Rattle.tsn_commit.specs.Lines.{IsLine};
ghost use Rattle.tsn_commit.specs.Resting.{Begins, Rests};

use crate::job::{Done, Free, Job};
use crate::lines::Lines;
use crate::scribe::{Ahead, Scribe};
use std::alloc::{AllocError, Global};
use std::marker::Model;
use std::mem;
use tsn_device::Device;
use tsn_history::{Book, Front, Naming};
use tsn_keeping::{Clock, Keeper};

/// The device has failed: no line that is not kept by now ever will be.
#[derive(Clone, Copy, Debug, PartialEq, Eq)]
pub struct Stopped;

/// Why a line was not recorded.
#[derive(Clone, Copy, Debug, PartialEq, Eq)]
pub enum RecordFault {
    /// The device has failed.
    Stopped,
    /// More was recorded than the front that it was to go on from, or 2^62 lines were.
    Behind,
}

/// What is recorded, which a contract sees: the part that was handed out to be kept, and the rest, which waits. The
/// scribe, while nobody is at it, has kept just what was handed out.
#[derive(Drop)]
pub(crate) struct State<C: Clock, D: Device, R: Naming, K: Ahead> {
    records: Front<R>,
    handed: Front<R>,
    // Changes with each handing out.
    is_odd: bool,
    waiting: Lines,
    free: Option<Free<C, D, K>>,
    stopped: bool,
}

impl<C: Clock, D: Device, R: Naming, K: Ahead> Model for State<C, D, R, K> {
    ghost use Rattle.std.specs.Prelude.{◌≡◌, ◌++◌, ℕ, List, IfSome};

    ghost Value = { List (List ℕ) };

    ghost view = { λ s. s.records };

    ghost invariant = { λ s. (s.records ≡ s.handed ++ s.waiting) × IfSome s.free (λ f. f ≡ s.handed) };
}

impl<C: Clock, D: Device, R: Naming, K: Ahead> State<C, D, R, K> {
    /// Nothing is recorded yet. It takes all memory that it ever needs.
    #[tactic(auto, using(crate::proofs::Entered::begins_rests))]
    pub(crate) fn new(
        alloc: Global,
        keeper: Keeper<D>,
        clock: C,
        records: Front<R>,
        keeps: (Book<K>, Front<K>),
    ) -> Result<State<C, D, R, K>, AllocError>
        requires keeper { Begins K.had K.digest keeper }
        requires fronts { (records ≡ []) × (keeps.1 ≡ []) }
    {
        let (keeps, kept) = keeps;
        let waiting = Lines::new(alloc)?;
        let spare = Lines::new(alloc)?;
        let scribe = Scribe {
            keeper,
            clock,
            keeps,
            kept,
        };
        let handed = records.again();
        Ok(State {
            records,
            handed,
            is_odd: false,
            waiting,
            free: Some(Free { scribe, spare }),
            stopped: false,
        })
    }

    /// Records a line behind this front, and gives the front that ends with it; none where there is no room for the
    /// line yet.
    pub(crate) fn record(
        &mut self,
        book: &Book<R>,
        last: &Front<R>,
        line: &[u8],
    ) -> Option<Result<Front<R>, RecordFault>>
        requires { IsLine line.now }
        ensures { IfSome result (λ r. IfOk r (λ mine. mine ≡ last.now ++ line.now ∷ [])) }
    {
        if self.stopped {
            return Some(Err(RecordFault::Stopped));
        }
        if !self.records.is(last) {
            return Some(Err(RecordFault::Behind));
        }
        if !self.waiting.has_room(line) {
            return None;
        }
        let mut records = self.records.again();
        if !records.add(book, line) {
            return Some(Err(RecordFault::Behind));
        }
        self.waiting.push(line);
        let mine = records.again();
        self.records = records;
        Some(Ok(mine))
    }

    /// All that is recorded.
    pub(crate) fn recorded(&self) -> Front<R>
        ensures { result ≡ self.now }
    {
        self.records.again()
    }

    /// Whether the front is handed out, all of it. Then one that is not is in the other half of what is recorded, which
    /// waits.
    pub(crate) fn has_handed(&self, mine: &Front<R>) -> bool {
        self.handed.covers(mine)
    }

    /// A mark of what was handed out last: it changes each time.
    pub(crate) fn is_odd(&self) -> bool {
        self.is_odd
    }

    /// Ends the commit.
    pub(crate) fn stop(&mut self)
        ensures { self.new ≡ self.old }
    {
        self.stopped = true;
    }

    /// Hands out the scribe with all that waits, unless somebody is at it.
    pub(crate) fn hand_out(&mut self) -> Option<Job<C, D, R, K>>
        ensures { self.new ≡ self.old }
    {
        let Some(free) = self.free.take() else {
            return None;
        };
        let Free { scribe, spare } = free;
        let lines = mem::replace(&mut self.waiting, spare);
        self.handed = self.records.again();
        self.is_odd = !self.is_odd;
        Some(Job {
            scribe,
            lines,
            upto: self.records.again(),
        })
    }

    /// Takes the scribe back, and says whether it has kept all that was handed out. (So it always has, since one has
    /// the scribe at a time; if not, it is let go.)
    pub(crate) fn back(&mut self, done: Done<C, D, R, K>) -> bool
        ensures { self.new ≡ self.old }
    {
        let Done { free, upto } = done;
        if !self.handed.is(&upto) {
            return false;
        }
        self.free = Some(free);
        true
    }

    /// The keeper, and all that its journal keeps of what was recorded, unless the device has failed.
    pub(crate) fn into_keeper(self) -> Option<(Keeper<D>, Front<K>)>
        ensures { IfSome result (λ r. Rests K.had K.digest r.1 r.0) }
    {
        let State { free, .. } = self;
        let Free { scribe, .. } = free?;
        let Scribe { keeper, kept, .. } = scribe;
        Some((keeper, kept))
    }
}
