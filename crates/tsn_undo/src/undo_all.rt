//! Undo of all that a session has standing, in one call: every entry or none.
ghost use Rattle.std.specs.Prelude.{◌≡◌, ◌==◌, ◌*◌, ◌≤◌, ◌∷◌, ◌++◌, [], IfErr, IfOk, IfSome, OnErr, None, Some, length, map};
ghost use Rattle.tsn_edit.specs.Changes.{room_of};
ghost use Rattle.tsn_types.specs.declared.refusals.Refusal.TheVariants.{Memory};
ghost use Rattle.tsn_types.specs.Refusals.{IsLeastOrMemory};
ghost use Rattle.tsn_entries.specs.Entries.{most_entries, standing};
ghost use Rattle.tsn_entries.specs.Finding.{find_own_in_conflict, own_standing};
ghost use Rattle.tsn_undo.specs.Commuting.{IsClosed};
ghost use Rattle.tsn_undo.specs.Ledger.{Holds, Takes};
ghost use Rattle.tsn_undo.specs.UndoAll.{TakesAllBack, all_undone, conflict_with_others, room_left, taking_back, undo_all_refusal};

use crate::book::{Book, TakingBack};
use std::alloc::AllocError;
use tsn_types::refusals::Refusal;

impl Book {
    /// Takes back all standing entries of the session, newest first, an entry each. The answer is how many there were
    /// and the number of the last entry that this makes. It is refused 10 where nothing of the session stands, then 11
    /// where an own standing entry has a later standing entry of another session in conflict, naming the newest such
    /// own entry and the latest such later one, then 17 where the journal never holds so many entries more, then 18;
    /// refused, it has changed nothing. All memory is taken before the first entry is made.
    pub fn undo_all(&mut self, session: u32) -> Result<(u64, u64), Refusal>
        ensures ok { IfOk result (λ numbers. TakesAllBack self.old.ledger session numbers.0 numbers.1 self.new.ledger) }
        ensures refused { IfErr result (λ why. IsLeastOrMemory (undo_all_refusal self.old.ledger session) why) }
        ensures unchanged { OnErr result (self.new.ledger ≡ self.old.ledger) }
        ensures kept { OnErr result (Takes self.old.room 0 0 self.new.room) }
    {
        if let Some(why) = self.refuse_undo_all(session) {
            return Err(why);
        }
        self.try_undo_all(session)
    }

    /// Takes back all standing entries of the session, as `undo_all` does, where it is known that no conflict blocks
    /// it, which `refuse_blocked` tells, and how many entries of the session stand. It is refused 10 where none does,
    /// then 17 where the journal never holds so many entries more, then 18; refused, it has changed nothing.
    pub fn undo_all_free(&mut self, session: u32, count: usize) -> Result<(u64, u64), Refusal>
        requires free { conflict_with_others self.old.ledger.entries (find_own_in_conflict self.old.ledger.entries session) ≡ None }
        requires count { count ≡ length (own_standing self.old.ledger.entries session) }
        ensures ok { IfOk result (λ numbers. TakesAllBack self.old.ledger session numbers.0 numbers.1 self.new.ledger) }
        ensures refused { IfErr result (λ why. IsLeastOrMemory (undo_all_refusal self.old.ledger session) why) }
        ensures unchanged { OnErr result (self.new.ledger ≡ self.old.ledger) }
        ensures kept { OnErr result (Takes self.old.room 0 0 self.new.room) }
    {
        if let Some(why) = self.refuse_count(session, count) {
            return Err(why);
        }
        self.try_undo_all(session)
    }

    /// Why an undo of all of the session would be refused, but for want of memory. It takes no memory.
    pub fn refuse_undo_all(&self, session: u32) -> Option<Refusal>
        ensures { result ≡ undo_all_refusal self.now.ledger session }
    {
        // A conflict is found without the count, and only where there is something to count.
        if let Some(why) = self.refuse_blocked(session) {
            return Some(why);
        }
        self.refuse_count(session, self.journal().count_of(session))
    }

    // The same where no conflict blocks it, and so many entries of the session stand.
    fn refuse_count(&self, session: u32, count: usize) -> Option<Refusal>
        requires free { conflict_with_others self.now.ledger.entries (find_own_in_conflict self.now.ledger.entries session) ≡ None }
        requires count { count ≡ length (own_standing self.now.ledger.entries session) }
        ensures { result ≡ undo_all_refusal self.now.ledger session }
    {
        let _ = session;
        if count == 0 {
            return Some(Refusal::NothingToUndo);
        }
        self.refuse_entries(count)
    }

    /// Why an undo of all of the session is blocked, if it is: the refusal 11 that it would have. It takes no memory,
    /// and counts nothing.
    pub fn refuse_blocked(&self, session: u32) -> Option<Refusal>
        ensures conflict { result ≡ conflict_with_others self.now.ledger.entries (find_own_in_conflict self.now.ledger.entries session) }
        ensures refused { IfSome result (λ why. undo_all_refusal self.now.ledger session ≡ Some why) }
    {
        self.conflict_with_others(session)
    }

    /// The newest own standing entry with a later one of another session in conflict, and the latest such.
    #[tactic(auto, using(crate::proofs::Free::found_stands))]
    fn conflict_with_others(&self, session: u32) -> Option<Refusal>
        ensures { result ≡ conflict_with_others self.now.ledger.entries (find_own_in_conflict self.now.ledger.entries session) }
    {
        let own = self.journal().find_own_in_conflict(session)?;
        let other = self.journal().find_conflict_of_others(own)?;
        Some(Refusal::Conflict { own, other })
    }

    /// Takes back all standing entries of the session, which nothing but want of memory refuses.
    fn try_undo_all(&mut self, session: u32) -> Result<(u64, u64), Refusal>
        requires { undo_all_refusal self.old.ledger session ≡ None }
        ensures ok { IfOk result (λ numbers. TakesAllBack self.old.ledger session numbers.0 numbers.1 self.new.ledger) }
        ensures memory { IfErr result (λ why. why ≡ Memory) }
        ensures unchanged { OnErr result (self.new.ledger ≡ self.old.ledger) }
        ensures kept { OnErr result (Takes self.old.room 0 0 self.new.room) }
    {
        // The proof needs that the entries are sound, which the journal tells.
        let _ = self.journal();
        let backs = self.takings_back(session)?;
        let count = backs.len();
        self.reserve_parts(count, parts_of(&backs))?;
        self.enter_all_undone(session, backs);
        Ok((count as u64, self.journal().len() as u64))
    }

    /// What takes back the session's standing entries, in the order of their numbers.
    fn takings_back(&self, session: u32) -> Result<Vec<TakingBack>, AllocError>
        ensures { IfOk result (λ backs. backs.items ≡ map taking_back (own_standing self.now.ledger.entries session)) }
    {
        let numbers = self.journal().standing_of(session)?;
        let mut backs = Vec::with_capacity(*numbers.allocator(), numbers.len())?;
        for number in &numbers {
            backs.push_reserved(self.taking_back(*number)?);
        }
        Ok(backs)
    }

    /// Applies and enters what takes back the session's standing entries, the last one first, in room for all.
    #[tactic(auto, using(crate::proofs::Room::room_split, std::proofs::lemmas::Grind::common_steps))]
    fn enter_all_undone(&mut self, session: u32, mut backs: Vec<TakingBack>)
        requires backs { backs.items ≡ map taking_back (own_standing self.old.ledger.entries session) }
        requires closed { IsClosed (λ x. x.session == session) (standing self.old.ledger.entries) }
        requires room { Holds self.old.room (length backs.items) (room_left backs.items) }
        ensures { self.new.ledger ≡ all_undone self.old.ledger session }
    {
        'each: while let Some(back) = backs.pop() {
            self.enter_last_undone(session, back, &backs);
        }
    }

    /// Applies and enters what takes back the last of the session's standing entries, in room for it. What takes back
    /// the others is `rest`, at which only the proof looks.
    fn enter_last_undone(&mut self, session: u32, back: TakingBack, rest: &[TakingBack])
        requires last { rest.now ++ back ∷ [] ≡ map taking_back (own_standing self.old.ledger.entries session) }
        requires closed { IsClosed (λ x. x.session == session) (standing self.old.ledger.entries) }
        requires room { Holds self.old.room 1 (room_of back.applied) }
        ensures left { rest.now ≡ map taking_back (own_standing self.new.ledger.entries session) }
        ensures closed { IsClosed (λ x. x.session == session) (standing self.new.ledger.entries) }
        ensures all { all_undone self.new.ledger session ≡ all_undone self.old.ledger session }
        ensures room { Takes self.old.room 1 (room_of back.applied) self.new.room }
    {
        // The proof needs that the entries are sound, which the journal tells.
        let _ = self.journal();
        let _ = rest;
        self.enter_undone(session, back);
    }
}

/// How many parts of changes all of these take back.
fn parts_of(backs: &[TakingBack]) -> usize
    requires { length backs.now ≤ most_entries }
    ensures parts { result ≡ room_left backs.now }
    ensures few { result ≤ 16 * length backs.now }
{
    let mut parts = 0;
    for back in backs {
        parts += back.applied.parts().len();
    }
    parts
}
