//! The book and the runtime, changed together. What ties them is the type: each runner stands for the acts that the
//! journal has of its port or gate, and instance data is there for just the keys of the configuration.
//!
//! Memory is taken first, so that a refusal of any kind leaves both.
ghost use Rattle.std.specs.Prelude.{◌≡◌, ◌+◌, ◌≤◌, ◌<◌, ◌++◌, ◌∷◌, [], max, true, IfErr, IfOk, IsSome, MatchResult, None, OnErr, OnOk, Some, length};
ghost use Rattle.std.specs.FinMap as map;
ghost use Rattle.tsn_types.specs.Limits.{first_cause};
ghost use Rattle.tsn_types.specs.Refusals.{IsLeastOrMemory};
ghost use Rattle.tsn_edit.specs.Batches.{change_of};
ghost use Rattle.tsn_edit.specs.Parts.{inverse};
ghost use Rattle.tsn_chain.specs.Begun.{begun_frames};
ghost use Rattle.tsn_chain.specs.Following.{frames_after, runners_after};
ghost use Rattle.tsn_chain.specs.Frames.{framed};
ghost use Rattle.tsn_chain.specs.Instances.{HasFrameKeys};
ghost use Rattle.tsn_entries.specs.Entries.{most_entries, no_room};
ghost use Rattle.tsn_entries.specs.Finding.{change_at, own_standing};
ghost use Rattle.tsn_undo.specs.Ledger.{present};
ghost use Rattle.tsn_undo.specs.Redo.{Redoes, WhyNoRedo};
ghost use Rattle.tsn_undo.specs.Settling.{Settles, settle_refusal};
ghost use Rattle.tsn_undo.specs.Steps.{Edits, TakesBack, edit_refusal, undo_refusal};
ghost use Rattle.tsn_undo.specs.UndoAll.{TakesAllBack, undo_all_refusal};
ghost use Rattle.tsn_bridge.specs.Acts.{act_causes, act_change, apply_causes, has_list};
ghost use Rattle.tsn_bridge.specs.Frames.{acts_of_gates};
ghost use Rattle.tsn_bridge.specs.Looking.{counted_at, last_at, shown_at};
ghost use Rattle.tsn_bridge.specs.Pair.{acted};
ghost use Rattle.tsn_bridge.specs.Together.{Follows, FollowsAll, followed, followed_by, room_at, room_behind};

use crate::acting::{has_entry, is_enabled, run_act};
use std::alloc::{AllocError, Global};
use std::marker::Model;
use tsn_chain::frame::{Frame, Verdict};
use tsn_chain::runtime::{Runtime, police};
use tsn_chain::state::{Counters, State};
use tsn_config::Config;
use tsn_edit::MOST_PARTS;
use tsn_edit::batches::Batch;
use tsn_journal::entries::Act;
use tsn_journal::journal::{Journal, MOST_ENTRIES};
use tsn_schedule::runner::Past;
use tsn_types::keys::Key;
use tsn_types::numbers::Instant;
use tsn_types::refusals::Refusal;
use tsn_undo::book::Book;

/// A book and a runtime that are tied.
#[derive(Drop)]
pub struct Pair {
    book: Book,
    runtime: Runtime,
}

/// What an accepted act answers: its change time, the number of its entry, and the instant that counted.
#[derive(Clone, Copy)]
pub struct Done {
    pub change: Option<u64>,
    pub entry: u64,
    pub now: Instant,
}

impl Model for Pair {
    ghost use Rattle.tsn_bridge.specs.Kept.{IsTied};
    ghost use Rattle.tsn_bridge.specs.Pair.{PairState, pair_code};

    ghost Value = { PairState };

    ghost coded = { pair_code };

    ghost view = { λ a. record { ledger = a.book.ledger; time = a.runtime.time; frames = a.runtime.frames } };

    ghost invariant = { λ a. IsTied a.book.ledger a.runtime.runners a.runtime.frames };
}

impl Pair {
    /// The book of this configuration, with no entry, and new instance data, at the instant 0.
    pub fn begin(alloc: Global, config: Config) -> Result<Pair, AllocError>
        ensures { IfOk result (λ pair. pair
            ≡ record {
              ledger = record { limits = config.limits; opening = config.map; entries = [] };
              time = 0;
              frames = begun_frames config.map;
            }) }
    {
        let runtime = Runtime::begin(alloc, &config)?;
        Ok(Pair {
            book: Book::new(alloc, config),
            runtime,
        })
    }

    /// The book. What the filter chain keeps is there for just the keys of its configuration.
    pub fn book(&self) -> &Book
        ensures ledger { result.now.ledger ≡ self.now.ledger }
        ensures frames { HasFrameKeys self.now.frames (present self.now.ledger) }
    {
        &self.book
    }

    /// Makes the edits of a batch, which instance data follows; the answer is their entry.
    pub fn edit(&mut self, session: u32, batch: Batch) -> Result<u64, Refusal>
        ensures made { IfOk result (λ number. Edits self.old.ledger session batch number self.new.ledger) }
        ensures follows { OnOk result (Follows self.old (change_of (present self.old.ledger) batch) self.new) }
        ensures refused { IfErr result (λ why. IsLeastOrMemory (edit_refusal self.old.ledger batch) why) }
        ensures unchanged { OnErr result (self.new ≡ self.old) }
    {
        if self.runtime.reserve(MOST_PARTS).is_err() {
            return Err(self.book.refuse_edit(&batch).unwrap_or(Refusal::Memory));
        }
        let number = self.book.edit(session, batch)?;
        follow(self.book.journal(), &mut self.runtime, number);
        Ok(number)
    }

    /// Makes an undo, which instance data follows; the answer is its entry and the one that it takes back.
    pub fn undo(&mut self, session: u32) -> Result<(u64, u64), Refusal>
        ensures made { IfOk result (λ numbers. (is : TakesBack self.old.ledger session numbers.0 numbers.1 self.new.ledger)
            × Follows self.old (inverse is.newest.change) self.new) }
        ensures refused { IfErr result (λ why. IsLeastOrMemory (undo_refusal self.old.ledger session) why) }
        ensures unchanged { OnErr result (self.new ≡ self.old) }
    {
        if self.runtime.reserve(MOST_PARTS).is_err() {
            return Err(self.book.refuse_undo(session).unwrap_or(Refusal::Memory));
        }
        let (number, of) = self.book.undo(session)?;
        follow(self.book.journal(), &mut self.runtime, number);
        Ok((number, of))
    }

    /// Makes a redo, which instance data follows; the answer is its entry and the one that it takes back.
    pub fn redo(&mut self, session: u32) -> Result<(u64, u64), Refusal>
        ensures made { IfOk result (λ numbers. (is : Redoes self.old.ledger session numbers.0 numbers.1 self.new.ledger)
            × Follows self.old (inverse is.redoable.undone.change) self.new) }
        ensures refused { IfErr result (λ why. WhyNoRedo self.old.ledger session (λ cause. IsLeastOrMemory cause why)) }
        ensures unchanged { OnErr result (self.new ≡ self.old) }
    {
        if self.runtime.reserve(MOST_PARTS).is_err() {
            return Err(self.book.refuse_redo(session).unwrap_or(Refusal::Memory));
        }
        let (number, of) = self.book.redo(session)?;
        follow(self.book.journal(), &mut self.runtime, number);
        Ok((number, of))
    }

    /// Takes back all that a session has standing, which instance data follows entry by entry; the answer is how many
    /// these are and the last entry.
    pub fn undo_all(&mut self, session: u32) -> Result<(u64, u64), Refusal>
        ensures made { IfOk result (λ numbers. TakesAllBack self.old.ledger session numbers.0 numbers.1 self.new.ledger) }
        ensures follows { OnOk result (FollowsAll self.old (own_standing self.old.ledger.entries session) self.new) }
        ensures refused { IfErr result (λ why. IsLeastOrMemory (undo_all_refusal self.old.ledger session) why) }
        ensures unchanged { OnErr result (self.new ≡ self.old) }
    {
        // what blocks it is sought once, before anything is counted
        if let Some(why) = self.book.refuse_blocked(session) {
            return Err(why);
        }
        let first = self.book.journal().len();
        let own = self.book.journal().count_of(session);
        let parts = self.book.journal().parts_of(session);
        if self.runtime.reserve(parts).is_err() {
            return Err(
                self.book
                    .refuse_undo_all(session)
                    .unwrap_or(Refusal::Memory),
            );
        }
        let (count, last) = self.book.undo_all_free(session, own)?;
        follow_each(self.book.journal(), &mut self.runtime, first, own);
        Ok((count, last))
    }

    /// Makes the entries up to the number final; the answer is the entry of the settle. No record changes, and instance
    /// data stays.
    pub fn settle(&mut self, session: u32, upto: u64) -> Result<u64, Refusal>
        ensures made { IfOk result (λ number. Settles self.old.ledger session upto number self.new.ledger) }
        ensures stays { (self.new.time ≡ self.old.time) × (self.new.frames ≡ self.old.frames) }
        ensures refused { IfErr result (λ why. IsLeastOrMemory (settle_refusal self.old.ledger upto) why) }
        ensures unchanged { OnErr result (self.new ≡ self.old) }
    {
        self.book.settle(session, upto)
    }

    /// Does an act on the list of a port or a stream gate that is there, and enters it. An apply is refused 14 and 15
    /// before the journal's room (17); then comes 18.
    pub fn act(&mut self, session: u32, act: Act, key: &Key, now: Instant) -> Result<Done, Refusal>
        requires list { has_list key.now ≡ true }
        requires there { IsSome (map.get (present self.old.ledger) key.now) }
        ensures done { IfOk result (λ done.
            done ≡ record {
              change = act_change self.old.ledger act key.now (max self.old.time now);
              entry = length self.old.ledger.entries + 1;
              now = max self.old.time now;
            }) }
        ensures free { OnOk result (first_cause (act_causes self.old.ledger act key.now ++ no_room self.old.ledger.entries 1 ∷ []) ≡ None) }
        ensures after { OnOk result (self.new ≡ acted self.old session act key.now now) }
        ensures refused { IfErr result (λ why.
            IsLeastOrMemory (first_cause (act_causes self.old.ledger act key.now ++ no_room self.old.ledger.entries 1 ∷ [])) why) }
        ensures unchanged { OnErr result (self.new ≡ self.old) }
    {
        if let Some(why) = self.refuse_act(act, key) {
            return Err(why);
        }
        self.book.reserve(1)?;
        let change = match run_act(self.book.config(), &mut self.runtime, act, *key, now) {
            Ok(change) => change,
            Err(why) => return Err(why),
        };
        let now = self.runtime.now();
        let entry = self.book.acted(session, act, *key, now)?;
        Ok(Done { change, entry, now })
    }

    /// Why an act on the list of a port or a stream gate that is there is refused, but for want of memory.
    pub fn cause_of_act(&self, act: Act, key: &Key) -> Option<Refusal>
        requires { IsSome (map.get (present self.now.ledger) key.now) }
        ensures { result ≡ first_cause (act_causes self.now.ledger act key.now ++ no_room self.now.ledger.entries 1 ∷ []) }
    {
        match self.refuse_act(act, key) {
            Some(why) => Some(why),
            None => self.refuse_entry(),
        }
    }

    /// The bridge time.
    pub fn time(&self) -> Instant
        ensures { result ≡ self.now.time }
    {
        self.runtime.now()
    }

    /// Hands a frame to the filter chain, which moves the bridge time. It takes no memory.
    pub fn frame(&mut self, frame: Frame, now: Instant) -> Verdict
        ensures ledger { self.new.ledger ≡ self.old.ledger }
        ensures time { self.new.time ≡ max self.old.time now }
        ensures framed { framed (present self.old.ledger) self.old.frames (acts_of_gates self.old.ledger) frame (max self.old.time now)
            ≡ Some (result, self.new.frames) }
    {
        police(self.book.config(), &mut self.runtime, frame, now)
    }

    /// What the list of a port or a stream gate that is there shows at an instant, if no act on it came later.
    pub fn states_at(&self, key: &Key, at: Instant) -> Result<State, Past>
        requires list { has_list key.now ≡ true }
        requires there { IsSome (map.get (present self.now.ledger) key.now) }
        ensures { MatchResult result (λ state. (last_at self.now.ledger key.now ≤ at)
            × (shown_at self.now.ledger key.now (map.get (present self.now.ledger) key.now) at ≡ Some state))
            (λ _. at < last_at self.now.ledger key.now) }
    {
        self.runtime.states_at(self.book.config(), *key, at)
    }

    /// The counters of a key that is there, at the bridge time.
    pub fn counters(&self, key: &Key) -> Counters
        requires { IsSome (map.get (present self.now.ledger) key.now) }
        ensures { counted_at self.now.ledger self.now.frames self.now.time key.now ≡ Some result }
    {
        self.runtime.counters(*key)
    }

    // Why an entry more is refused: the journal is full.
    fn refuse_entry(&self) -> Option<Refusal>
        ensures { result ≡ no_room self.now.ledger.entries 1 }
    {
        if self.book.journal().len() < MOST_ENTRIES {
            return None;
        }
        Some(Refusal::JournalFull)
    }

    // Why an act on a key is refused but for the journal: an enable and a disable never are. It takes no memory.
    fn refuse_act(&self, act: Act, key: &Key) -> Option<Refusal>
        requires { IsSome (map.get (present self.now.ledger) key.now) }
        ensures { result ≡ first_cause (act_causes self.now.ledger act key.now) }
    {
        match act {
            Act::Enable | Act::Disable => None,
            Act::Apply => self.refuse_apply(key),
        }
    }

    // Why an apply is refused but for the journal: the key's acts leave it disabled (14), or its record's list is empty
    // (15).
    #[tactic(auto, using(crate::proofs::Telling::enabled_told))]
    fn refuse_apply(&self, key: &Key) -> Option<Refusal>
        requires { IsSome (map.get (present self.now.ledger) key.now) }
        ensures { result ≡ first_cause (apply_causes self.now.ledger key.now) }
    {
        if !is_enabled(self.counters(key)) {
            return Some(Refusal::NotEnabled);
        }
        if !has_entry(self.book().config().get(*key)) {
            return Some(Refusal::EmptyList);
        }
        None
    }
}

// Lets the runtime follow the change of the entry of the number, if it applied one. By its type that has at most 16
// parts.
fn follow(journal: &Journal, runtime: &mut Runtime, number: u64)
    requires room { room_at journal.now.entries number ≤ MOST_PARTS → room_at journal.now.entries number ≤ runtime.old.spare }
    ensures runners { runtime.new.runners ≡ followed_by runners_after runtime.old.runners (change_at journal.now.entries number) }
    ensures frames { runtime.new.frames ≡ followed_by (frames_after runtime.old.time) runtime.old.frames
        (change_at journal.now.entries number) }
    ensures time { runtime.new.time ≡ runtime.old.time }
    ensures spare { runtime.old.spare ≤ runtime.new.spare + room_at journal.now.entries number }
{
    if let Some(entry) = journal.entry(number) {
        if let Some(change) = entry.what.change() {
            let _few = change.parts();
            runtime.follow(change);
        }
    }
}

// Lets the runtime follow the changes of so many entries behind the first ones.
fn follow_each(journal: &Journal, runtime: &mut Runtime, first: usize, count: usize)
    requires room { room_behind journal.now.entries first count ≤ runtime.old.spare }
    requires there { first + count ≤ most_entries }
    ensures runners { runtime.new.runners ≡ followed runners_after journal.now.entries runtime.old.runners first count }
    ensures frames { runtime.new.frames ≡ followed (frames_after runtime.old.time) journal.now.entries runtime.old.frames first count }
    ensures time { runtime.new.time ≡ runtime.old.time }
{
    for place in 0..count {
        follow(journal, runtime, (first + place + 1) as u64);
    }
}
