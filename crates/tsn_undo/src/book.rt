//! The book: a configuration and the journal of what was done to it, kept in step.
//!
//! Contracts see a book as its ledger (its limits, its opening, which is the configuration with which it began, and its
//! entries) and its room. It stores the present configuration and the journal alone; the opening is where taking back
//! every applied change leads. Each changing call takes its memory first, so a refusal of any kind leaves the ledger as
//! it was.
ghost use Rattle.std.specs.Prelude.{◌≡◌, ◌*◌, ◌+◌, ◌≤◌, [], Some, None, IfOk, IfErr, IfSome, IsOk, IsSome, OnErr, OnOk, length};
ghost use Rattle.tsn_types.specs.declared.refusals.Refusal.TheVariants.{Memory};
ghost use Rattle.tsn_types.specs.Refusals.{IsLeastOrMemory};
ghost use Rattle.std.specs.Option.{option_map_or};
ghost use Rattle.tsn_edit.specs.Batches.{change_of, refusal};
ghost use Rattle.tsn_edit.specs.Changes.{Fits, room_of};
ghost use Rattle.tsn_edit.specs.Configuration.{IsWellKept};
ghost use Rattle.tsn_edit.specs.Parts.{Change as AnyChange, inverse};
ghost use Rattle.tsn_edit.specs.Runs.{run, IsGood};
ghost use Rattle.tsn_entries.specs.declared.entries.What.TheVariants.{Acted, Made, Undone};
ghost use Rattle.tsn_entries.specs.Entries.{Applied, applies, changes, most_entries, no_room, settles_to, standing, with_entry};
ghost use Rattle.tsn_entries.specs.Finding.{change_at};
ghost use Rattle.tsn_undo.specs.Ledger.{Holds, Takes, base_of, enter, present};
ghost use Rattle.tsn_undo.specs.Soundness.{IsSound};
ghost use Rattle.tsn_undo.specs.Steps.{Edits, IsFree, TakesBack, edit_refusal, undo_refusal};

use std::alloc::{AllocError, Global};
use std::marker::Model;
use tsn_config::Config;
use tsn_edit::Change;
use tsn_edit::batches::Batch;
use tsn_journal::entries::{Act, What};
use tsn_journal::journal::{Journal, MOST_ENTRIES};
use tsn_types::keys::Key;
use tsn_types::numbers::Instant;
use tsn_types::refusals::Refusal;

/// A configuration with its journal. `ledger` is what was done to it, and `room` what there certainly is
/// room for: entries in the journal, and parts of changes in both.
#[derive(Drop)]
pub struct Book {
    pub(crate) config: Config,
    pub(crate) journal: Journal,
}

/// What takes back an entry: its number and the inverse of its change, once for the journal and once to be applied.
#[derive(Debug, Drop)]
pub(crate) struct TakingBack {
    pub(crate) of: u64,
    pub(crate) entered: Change,
    pub(crate) applied: Change,
}

impl Model for Book {
    ghost use Rattle.std.specs.Prelude.{min};
    ghost use Rattle.tsn_undo.specs.Ledger.{LedgerWithRoom, ledger_with_room_code, opening_of, IsBook};

    ghost Value = { LedgerWithRoom };

    ghost coded = { ledger_with_room_code };

    ghost view = { λ a. record {
      ledger = record
          { limits = a.config.limits; opening = opening_of a.config.map a.journal.entries; entries = a.journal.entries };
      room = record { entries = a.journal.spare; parts = min a.journal.parts a.config.spare };
    } };

    ghost invariant = { λ a. IsBook a.config.limits a.config.map a.journal.entries };
}

impl Book {
    /// A book that begins with the configuration, with no entry. It takes no memory and has room for no entry; the book
    /// keeps the allocator.
    pub fn new(alloc: Global, config: Config) -> Book
        ensures ledger { result.ledger ≡ record { limits = config.limits; opening = config.map; entries = [] } }
        ensures room { result.room ≡ record { entries = 0; parts = 0 } }
    {
        // The proof needs what the configuration's type keeps, which its limits tell.
        let _kept = config.limits();
        Book {
            config,
            journal: Journal::new(alloc),
        }
    }

    /// The configuration to which the entries have led. It is the run of the standing entries from the opening, which
    /// is good: each change fits the map in which it stands.
    pub fn config(&self) -> &Config
        ensures limits { result.now.limits ≡ self.now.ledger.limits }
        ensures map { result.now.map ≡ present self.now.ledger }
        ensures kept { IsWellKept self.now.ledger.limits (present self.now.ledger) }
        ensures sound { IsSound self.now.ledger.limits self.now.ledger.opening self.now.ledger.entries }
        ensures good { IsGood self.now.ledger.limits (base_of self.now.ledger) (changes (standing self.now.ledger.entries)) }
        ensures stands { result.now.map ≡ run (base_of self.now.ledger) (changes (standing self.now.ledger.entries)) }
    {
        &self.config
    }

    /// The journal of what was done to the configuration.
    pub fn journal(&self) -> &Journal
        ensures entries { result.now.entries ≡ self.now.ledger.entries }
        ensures sound { IsSound self.now.ledger.limits self.now.ledger.opening self.now.ledger.entries }
    {
        &self.journal
    }

    /// Makes room for at least `count` entries more, such as acts make. It is refused 17 where the journal never holds
    /// so many, then 18, and never where there is that room already. The ledger stays, and the room never falls.
    pub fn reserve(&mut self, count: usize) -> Result<(), Refusal>
        ensures ledger { self.new.ledger ≡ self.old.ledger }
        ensures free { OnOk result (no_room self.old.ledger.entries count ≡ None) }
        ensures ok { OnOk result (count ≤ self.new.room.entries) }
        ensures refused { IfErr result (λ why. IsLeastOrMemory (no_room self.old.ledger.entries count) why) }
        ensures room { Takes self.old.room 0 0 self.new.room }
        ensures enough { count ≤ self.old.room.entries → IsOk result }
    {
        self.reserve_parts(count, 0)
    }

    /// Makes room for at least `count` entries more whose changes have so many parts in all, at most 16 each. It is
    /// refused as `reserve` is.
    pub(crate) fn reserve_parts(&mut self, count: usize, parts: usize) -> Result<(), Refusal>
        requires { parts ≤ 16 * count }
        ensures ledger { self.new.ledger ≡ self.old.ledger }
        ensures free { OnOk result (no_room self.old.ledger.entries count ≡ None) }
        ensures ok { OnOk result (Holds self.new.room count parts) }
        ensures refused { IfErr result (λ why. IsLeastOrMemory (no_room self.old.ledger.entries count) why) }
        ensures room { Takes self.old.room 0 0 self.new.room }
        ensures enough { Holds self.old.room count parts → IsOk result }
    {
        if let Err(why) = self.journal.reserve(count, parts) {
            return Err(why);
        }
        self.config.reserve(parts)?;
        Ok(())
    }

    /// Makes the edits of the batch and one entry, whose number is the answer. It is refused 3, 4 or 6 to 9 as the
    /// configuration says, then 17 where the journal is full, then 18; refused, it has changed nothing.
    pub fn edit(&mut self, session: u32, batch: Batch) -> Result<u64, Refusal>
        ensures ok { IfOk result (λ number. Edits self.old.ledger session batch number self.new.ledger) }
        ensures refused { IfErr result (λ why. IsLeastOrMemory (edit_refusal self.old.ledger batch) why) }
        ensures unchanged { OnErr result (self.new.ledger ≡ self.old.ledger) }
        ensures kept { OnErr result (Takes self.old.room 0 0 self.new.room) }
    {
        if let Some(why) = self.refuse_edit(&batch) {
            return Err(why);
        }
        self.try_edit(session, batch)
    }

    /// Takes back the session's newest standing entry. The answer is the number of the entry that this makes and of
    /// the one that it takes back. It is refused 10 where nothing of the session stands, then 11 where a later
    /// standing entry conflicts, then 17 and 18; refused, it has changed nothing.
    pub fn undo(&mut self, session: u32) -> Result<(u64, u64), Refusal>
        ensures ok { IfOk result (λ numbers. TakesBack self.old.ledger session numbers.0 numbers.1 self.new.ledger) }
        ensures refused { IfErr result (λ why. IsLeastOrMemory (undo_refusal self.old.ledger session) why) }
        ensures unchanged { OnErr result (self.new.ledger ≡ self.old.ledger) }
        ensures kept { OnErr result (Takes self.old.room 0 0 self.new.room) }
    {
        let of = match self.newest_free(session) {
            Ok(of) => of,
            Err(why) => return Err(why),
        };
        match self.try_undo(session, of) {
            Ok(number) => Ok((number, of)),
            Err(why) => Err(why),
        }
    }

    /// Enters an act of the session on the key, at the instant that counted, and answers the entry's number; it changes
    /// no record. It is refused 17 where the journal is full, then 18, and never where there is room for an entry, of
    /// which it takes one; refused, it has changed nothing.
    pub fn acted(&mut self, session: u32, act: Act, key: Key, now: Instant) -> Result<u64, Refusal>
        ensures number { IfOk result (λ number. number ≡ length self.old.ledger.entries + 1) }
        ensures after { OnOk result (self.new.ledger ≡ enter self.old.ledger session (Acted act key now)) }
        ensures map { OnOk result (present self.new.ledger ≡ present self.old.ledger) }
        ensures free { OnOk result (no_room self.old.ledger.entries 1 ≡ None) }
        ensures refused { IfErr result (λ why. IsLeastOrMemory (no_room self.old.ledger.entries 1) why) }
        ensures unchanged { OnErr result (self.new.ledger ≡ self.old.ledger) }
        ensures kept { OnErr result (Takes self.old.room 0 0 self.new.room) }
        ensures room { Takes self.old.room 1 0 self.new.room }
        ensures enough { 1 ≤ self.old.room.entries → IsOk result }
    {
        self.journal.reserve(1, 0)?;
        Ok(self.enter_act(session, act, key, now))
    }

    /// Why the batch would be refused, but for want of memory. It takes no memory.
    #[tactic(auto, using(crate::proofs::Free::batch_first))]
    pub fn refuse_edit(&self, batch: &Batch) -> Option<Refusal>
        ensures { result ≡ edit_refusal self.now.ledger batch.now }
    {
        if let Some(why) = self.config().check(batch) {
            return Some(why);
        }
        self.refuse_entries(1)
    }

    /// Why an undo of the session would be refused, but for want of memory. It takes no memory.
    pub fn refuse_undo(&self, session: u32) -> Option<Refusal>
        ensures { result ≡ undo_refusal self.now.ledger session }
    {
        match self.newest_free(session) {
            Ok(_) => None,
            Err(why) => Some(why),
        }
    }

    /// Why so many entries more would be refused: the journal never holds them.
    pub(crate) fn refuse_entries(&self, count: usize) -> Option<Refusal>
        ensures { result ≡ no_room self.now.ledger.entries count }
    {
        if MOST_ENTRIES - self.journal().len() < count {
            return Some(Refusal::JournalFull);
        }
        None
    }

    /// The number of the entry that an undo of the session takes back, or why it is refused, but for want of memory.
    #[tactic(auto, using(crate::proofs::Free::found_stands))]
    fn newest_free(&self, session: u32) -> Result<u64, Refusal>
        ensures ok { IfOk result (λ of. IsFree self.now.ledger session of) }
        ensures err { IfErr result (λ why. undo_refusal self.now.ledger session ≡ Some why) }
    {
        let Some(own) = self.journal().last_of(session) else {
            return Err(Refusal::NothingToUndo);
        };
        if let Some(other) = self.journal().find_conflict(own) {
            return Err(Refusal::Conflict { own, other });
        }
        if let Some(why) = self.refuse_entries(1) {
            return Err(why);
        }
        Ok(own)
    }

    /// Makes edits that nothing but want of memory refuses.
    fn try_edit(&mut self, session: u32, batch: Batch) -> Result<u64, Refusal>
        requires { edit_refusal self.old.ledger batch ≡ None }
        ensures ok { IfOk result (λ number. Edits self.old.ledger session batch number self.new.ledger) }
        ensures memory { IfErr result (λ why. why ≡ Memory) }
        ensures unchanged { OnErr result (self.new.ledger ≡ self.old.ledger) }
        ensures kept { OnErr result (Takes self.old.room 0 0 self.new.room) }
    {
        if let Err(why) = self.reserve_parts(1, batch.edits().len()) {
            return Err(why);
        }
        Ok(self.make(session, batch)?)
    }

    /// Makes edits that the configuration admits and enters them, in room for both.
    #[tactic(auto, using(crate::proofs::Making::made_ledger, tsn_edit::proofs::InOrder::length_change, std::proofs::lemmas::Grind::common_steps))]
    fn make(&mut self, session: u32, batch: Batch) -> Result<u64, AllocError>
        requires room { Holds self.old.room 1 (length batch) }
        requires admitted { refusal self.old.ledger.limits (present self.old.ledger) batch ≡ None }
        ensures number { IfOk result (λ number. number ≡ length self.old.ledger.entries + 1) }
        ensures after { OnOk result (self.new.ledger ≡ enter self.old.ledger session (Made (change_of (present self.old.ledger) batch))) }
        ensures fits { OnOk result (Fits self.old.ledger.limits (present self.old.ledger) (change_of (present self.old.ledger) batch)) }
        ensures unchanged { OnErr result (self.new.ledger ≡ self.old.ledger) }
        ensures kept { OnErr result (Takes self.old.room 0 0 self.new.room) }
    {
        let change = self.config.make(batch)?;
        Ok(self.journal.push(session, What::Made(change)))
    }

    /// Takes back the entry of the number, which nothing but want of memory refuses.
    fn try_undo(&mut self, session: u32, of: u64) -> Result<u64, Refusal>
        requires { IsFree self.old.ledger session of }
        ensures ok { IfOk result (λ number. TakesBack self.old.ledger session number of self.new.ledger) }
        ensures memory { IfErr result (λ why. why ≡ Memory) }
        ensures unchanged { OnErr result (self.new.ledger ≡ self.old.ledger) }
        ensures kept { OnErr result (Takes self.old.room 0 0 self.new.room) }
    {
        // The proof needs that the entries are sound, which the journal tells.
        let _ = self.journal();
        let back = self.taking_back(of)?;
        self.reserve_parts(1, back.applied.parts().len())?;
        Ok(self.enter_undone(session, back))
    }

    /// The change that the entry of the number applied.
    pub(crate) fn change_at(&self, number: u64) -> &Change
        requires { IsSome (change_at self.now.ledger.entries number) }
        ensures { change_at self.now.ledger.entries number ≡ Some result.now }
    {
        self.journal().entry(number).unwrap().what.change().unwrap()
    }

    /// What takes back the entry of the number. Refused only for want of memory.
    pub(crate) fn taking_back(&self, number: u64) -> Result<TakingBack, AllocError>
        requires { IsSome (change_at self.now.ledger.entries number) }
        ensures { IfOk result (λ back. (e : AnyChange) → change_at self.now.ledger.entries number ≡ Some e
            → back ≡ record { of = number; entered = inverse e; applied = inverse e }) }
    {
        let change = self.change_at(number).try_clone()?.inverse();
        Ok(TakingBack {
            of: number,
            entered: change.try_clone()?,
            applied: change,
        })
    }

    /// Applies what takes an entry back and enters it as undone, in room for it.
    pub(crate) fn enter_undone(&mut self, session: u32, back: TakingBack) -> u64
        requires room { Holds self.old.room 1 (room_of back.applied) }
        requires same { back.entered ≡ back.applied }
        requires fits { Fits self.old.ledger.limits (present self.old.ledger) back.applied }
        requires sound { IsSound self.old.ledger.limits self.old.ledger.opening
            (with_entry self.old.ledger.entries session (Undone back.of back.applied)) }
        ensures number { result ≡ length self.old.ledger.entries + 1 }
        ensures after { self.new.ledger ≡ enter self.old.ledger session (Undone back.of back.applied) }
        ensures room { Takes self.old.room 1 (room_of back.applied) self.new.room }
    {
        let TakingBack {
            of,
            entered,
            applied,
        } = back;
        self.append(
            session,
            What::Undone {
                of,
                change: entered,
            },
            Some(applied),
        )
    }

    /// Enters an act, which changes no record, in room for one.
    fn enter_act(&mut self, session: u32, act: Act, key: Key, now: Instant) -> u64
        requires { 1 ≤ self.old.room.entries }
        ensures number { result ≡ length self.old.ledger.entries + 1 }
        ensures after { self.new.ledger ≡ enter self.old.ledger session (Acted act key now) }
        ensures map { present self.new.ledger ≡ present self.old.ledger }
        ensures room { Takes self.old.room 1 0 self.new.room }
    {
        // The proof needs that the entries are sound, which the journal tells.
        let _ = self.journal();
        self.append(session, What::Acted { act, key, now }, None)
    }

    /// Applies what the entry applies, if it applies a change, and enters it, in room for both. The change fits, and
    /// the entries stay sound.
    pub(crate) fn append(&mut self, session: u32, what: What, change: Option<Change>) -> u64
        requires room { Holds self.old.room 1 (option_map_or room_of change 0) }
        requires applies { applies what ≡ change }
        requires settles { settles_to what ≤ length self.old.ledger.entries }
        requires fits { IfSome change (λ e. Fits self.old.ledger.limits (present self.old.ledger) e) }
        requires sound { IsSound self.old.ledger.limits self.old.ledger.opening (with_entry self.old.ledger.entries session what) }
        ensures number { result ≡ length self.old.ledger.entries + 1 }
        ensures after { self.new.ledger ≡ enter self.old.ledger session what }
        ensures room { Takes self.old.room 1 (option_map_or room_of change 0) self.new.room }
    {
        match change {
            Some(change) => {
                self.config.apply(change);
                self.journal.push(session, what)
            }
            None => self.journal.push(session, what),
        }
    }
}
