//! What threads record into, and settle at.
ghost use Rattle.std.specs.Prelude.{◌≡◌, ◌++◌, [], ◌∷◌, ℕ, List, IfOk, IfSome};
ghost use Rattle.tsn_history.specs.Texts.{BeginsWith};
ghost use Rattle.tsn_commit.specs.Lines.{IsLine};
ghost use Rattle.tsn_commit.specs.Resting.{Begins, Rests};

use crate::bed::Bed;
use crate::job::Done;
use crate::scribe::Ahead;
use crate::state::{RecordFault, State, Stopped};
use crate::told::Told;
use std::alloc::{AllocError, Global};
use std::sync::{Mutex, MutexGuard, Wait};
use tsn_device::Device;
use tsn_history::{Book, Front, Naming, Opened};
use tsn_keeping::{Clock, Keeper};

/// A text of records that threads share, and the journal that keeps them.
#[derive(Drop)]
pub struct Commit<C: Clock, D: Device, R: Naming, K: Ahead> {
    records: Book<R>,
    state: Mutex<State<C, D, R, K>>,
    // What is kept has a lock of its own, so that those who were woken are not in the way of who records.
    told: Mutex<Told<R, K>>,
    // Who waits for the lines that are handed out sleeps in one of the two, and who waits for later ones in the other;
    // with each handing out they change their parts.
    even: Bed,
    odd: Bed,
    // Who waits for room sleeps here.
    full: Bed,
}

impl<C: Clock, D: Device, R: Naming, K: Ahead> Commit<C, D, R, K> {
    /// Over a keeper at rest, the clock that stamps its lines, and two texts that were just opened, under their names.
    /// It takes all memory that it ever needs, two mebibytes.
    pub fn new(
        alloc: Global,
        keeper: Keeper<D>,
        clock: C,
        records: Opened,
        keeps: Opened,
    ) -> Result<Commit<C, D, R, K>, AllocError>
        requires keeper { Begins K.had K.digest keeper }
        requires names { (records.seen.book ≡ R.book) × (keeps.seen.book ≡ K.book) }
    {
        let records = records.named::<R>();
        let keeps = keeps.named::<K>();
        let told = Told {
            records: records.1.again(),
            kept: keeps.1.again(),
            stopped: false,
        };
        let state = State::new(alloc, keeper, clock, records.1, keeps)?;
        Ok(Commit {
            records: records.0,
            state: Mutex::new(state),
            told: Mutex::new(told),
            even: Bed::new(),
            odd: Bed::new(),
            full: Bed::new(),
        })
    }

    /// Records a command line behind this front, which is all that was recorded: so who records in turns, and keeps the
    /// front of the last record, knows all that is recorded. It waits for the lock, which nobody holds while the device
    /// works, and, where too much waits for the device, for that.
    pub fn record<W: Wait>(
        &self,
        rt: &W,
        last: &Front<R>,
        line: &[u8],
    ) -> Result<Front<R>, RecordFault>
        requires { IsLine line.now }
        ensures { IfOk result (λ mine. mine ≡ last.now ++ line.now ∷ []) }
    {
        'turns: for _ in rt.forever() {
            let mut state = self.state.lock(rt);
            if let Some(recorded) = state.record(&self.records, last, line) {
                return recorded;
            }
            self.turn(rt, state, &self.full);
        }
        unreachable!()
    }

    /// Records a command line behind all that is recorded. It waits as `record` does.
    pub fn add<W: Wait>(&self, rt: &W, line: &[u8]) -> Result<Front<R>, RecordFault>
        requires { IsLine line.now }
        ensures { IfOk result (λ mine. (before : List (List ℕ)) × (mine ≡ before ++ line.now ∷ [])) }
    {
        'turns: for _ in rt.forever() {
            let mut state = self.state.lock(rt);
            let last = state.recorded();
            if let Some(recorded) = state.record(&self.records, &last, line) {
                return recorded;
            }
            self.turn(rt, state, &self.full);
        }
        unreachable!()
    }

    /// All that is recorded by now: what a look may tell of, where it is called in the look's turn.
    pub fn recorded<W: Wait>(&self, rt: &W) -> Front<R> {
        self.state.lock(rt).recorded()
    }

    /// Waits until all of the front is kept. What is kept then begins with it. Where it is kept already nobody is
    /// waited for who is at the device. Behind a call of the device that failed nothing further is kept.
    pub fn settle<W: Wait>(&self, rt: &W, mine: &Front<R>) -> Result<Front<K>, Stopped>
        ensures { IfOk result (λ kept. BeginsWith kept mine.now) }
    {
        'turns: for _ in rt.forever() {
            if let Some(outcome) = self.told.lock(rt).outcome(mine) {
                return outcome;
            }
            let state = self.state.lock(rt);
            // It may have been told meanwhile. Who tells it from now on, or stops, takes this lock ahead of the wake.
            if let Some(outcome) = self.told.lock(rt).outcome(mine) {
                return outcome;
            }
            let bed = self.bed(state.is_odd() == state.has_handed(mine));
            self.turn(rt, state, bed);
        }
        unreachable!()
    }

    /// Ends the commit, as a failed call of the device does: nothing is recorded or kept any more.
    pub fn stop<W: Wait>(&self, rt: &W) {
        self.told.lock(rt).stop();
        self.state.lock(rt).stop();
        self.even.wake_all();
        self.odd.wake_all();
        self.full.wake_all();
    }

    // Has all that waits be kept, with no lock held meanwhile; or, where somebody is at it, sleeps in the bed until
    // that is done, or until somebody has to go on.
    fn turn<W: Wait>(&self, rt: &W, mut state: MutexGuard<'_, State<C, D, R, K>>, bed: &Bed) {
        let Some(job) = state.hand_out() else {
            let seen = bed.woken();
            MutexGuard::unlock(state);
            return bed.sleep(rt, seen);
        };
        let is_odd = state.is_odd();
        MutexGuard::unlock(state);
        self.full.wake_all();
        match job.run() {
            Some(done) => self.tell(rt, done, is_odd),
            None => self.stop(rt),
        }
    }

    // Tells that what was handed out is kept, and wakes all that wait for it, and one of the others, to go on.
    fn tell<W: Wait>(&self, rt: &W, done: Done<C, D, R, K>, is_odd: bool) {
        let (records, kept) = done.told();
        self.told.lock(rt).tell(records, kept);
        if !self.state.lock(rt).back(done) {
            return self.stop(rt);
        }
        self.bed(!is_odd).wake_one();
        self.bed(is_odd).wake_all();
        self.full.wake_all();
    }

    // The bed of those who wait for what is handed out under this mark.
    fn bed(&self, is_odd: bool) -> &Bed {
        if is_odd { &self.odd } else { &self.even }
    }

    /// The keeper, unless the device has failed, and all that its journal keeps of what was recorded, as a front of the
    /// kept text. What was recorded and never settled may be lacking.
    pub fn into_keeper(self) -> Option<(Keeper<D>, Front<K>)>
        ensures { IfSome result (λ r. Rests K.had K.digest r.1 r.0) }
    {
        let Commit { state, .. } = self;
        state.into_inner().into_keeper()
    }
}
