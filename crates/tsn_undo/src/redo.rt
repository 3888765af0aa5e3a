//! Redo: a session takes back its newest undo.
ghost use Rattle.std.specs.Prelude.{◌≡◌, ◌↔◌, IfErr, IfOk, IsSome, IsTrue, OnErr, Some, option_map};
ghost use Rattle.tsn_types.specs.declared.refusals.Refusal.TheVariants.{Memory};
ghost use Rattle.tsn_types.specs.Refusals.{IsLeastOrMemory};
ghost use Rattle.tsn_edit.specs.Changes.{Fits};
ghost use Rattle.tsn_edit.specs.Parts.{Change as AnyChange, inverse};
ghost use Rattle.tsn_entries.specs.Finding.{change_at, redo_of};
ghost use Rattle.tsn_undo.specs.Ledger.{Takes, present};
ghost use Rattle.tsn_undo.specs.Redo.{IsRedoCause, IsRedoable, Redoes, WhyNoRedo};

use crate::book::{Book, TakingBack};
use tsn_journal::entries::What;
use tsn_types::refusals::Refusal;

impl Book {
    /// Takes back the session's newest Undone entry that comes after its last edit and that no Redone entry names. The
    /// answer is the number of the entry that this makes and of the one that it takes back. It is refused 12 where
    /// there is none, then 13 where the inverse of its change does not fit the configuration, naming the latest later
    /// entry in conflict, then 17 and 18; refused, it has changed nothing.
    pub fn redo(&mut self, session: u32) -> Result<(u64, u64), Refusal>
        ensures ok { IfOk result (λ numbers. Redoes self.old.ledger session numbers.0 numbers.1 self.new.ledger) }
        ensures refused { IfErr result (λ why. WhyNoRedo self.old.ledger session (λ cause. IsLeastOrMemory cause why)) }
        ensures unchanged { OnErr result (self.new.ledger ≡ self.old.ledger) }
        ensures kept { OnErr result (Takes self.old.room 0 0 self.new.room) }
    {
        let of = match self.redoable(session) {
            Ok(of) => of,
            Err(why) => return Err(why),
        };
        match self.try_redo(session, of) {
            Ok(number) => Ok((number, of)),
            Err(why) => Err(why),
        }
    }

    /// Why a redo of the session would be refused, but for want of memory. It takes no memory.
    pub fn refuse_redo(&self, session: u32) -> Option<Refusal>
        ensures { WhyNoRedo self.now.ledger session (λ cause. result ≡ cause) }
    {
        match self.redoable(session) {
            Ok(_) => None,
            Err(why) => Some(why),
        }
    }

    /// The number of the entry that a redo of the session takes back, or why it is refused, but for want of memory.
    #[tactic(auto, using(crate::proofs::Redone::cause_first, crate::proofs::Redone::may_redo))]
    fn redoable(&self, session: u32) -> Result<u64, Refusal>
        ensures ok { IfOk result (λ of. IsRedoable self.now.ledger session of) }
        ensures err { IfErr result (λ why. WhyNoRedo self.now.ledger session (λ cause. cause ≡ Some why)) }
    {
        let Some(of) = self.journal().redo_of(session) else {
            return Err(Refusal::NothingToRedo);
        };
        if let Some(why) = self.redo_conflict(session, of) {
            return Err(why);
        }
        if let Some(why) = self.refuse_entries(1) {
            return Err(why);
        }
        Ok(of)
    }

    /// Where the inverse of the change that the session may redo does not fit the configuration, the refusal that names
    /// the latest later entry in conflict with it. The number is that of what may be redone; only the proof looks at
    /// the session.
    #[tactic(auto, using(crate::proofs::Redone::undone_there))]
    fn redo_conflict(&self, session: u32, of: u64) -> Option<Refusal>
        requires { option_map (λ x. x.number) (redo_of self.now.ledger.entries session) ≡ Some of }
        ensures { IsRedoCause self.now.ledger session result }
    {
        let _ = session;
        let journal = self.journal();
        if self.fits_back(of) {
            return None;
        }
        // Where it does not fit, a later entry is in conflict.
        let other = journal.find_redo_conflict(of).unwrap();
        Some(Refusal::RedoConflict { other })
    }

    /// Whether the inverse of the change of the entry of the number fits the configuration.
    fn fits_back(&self, number: u64) -> bool
        requires { IsSome (change_at self.now.ledger.entries number) }
        ensures { (e : AnyChange) → change_at self.now.ledger.entries number ≡ Some e
            → IsTrue result ↔ Fits self.now.ledger.limits (present self.now.ledger) (inverse e) }
    {
        self.config().fits_inverse(self.change_at(number))
    }

    /// Takes back the Undone entry of the number, which nothing but want of memory refuses.
    fn try_redo(&mut self, session: u32, of: u64) -> Result<u64, Refusal>
        requires { IsRedoable self.old.ledger session of }
        ensures ok { IfOk result (λ number. Redoes self.old.ledger session number of self.new.ledger) }
        ensures memory { IfErr result (λ why. why ≡ Memory) }
        ensures unchanged { OnErr result (self.new.ledger ≡ self.old.ledger) }
        ensures kept { OnErr result (Takes self.old.room 0 0 self.new.room) }
    {
        // The proof needs that the entries are sound, which the journal tells.
        let _ = self.journal();
        let TakingBack {
            of,
            entered,
            applied,
        } = self.taking_back(of)?;
        self.reserve_parts(1, applied.parts().len())?;
        Ok(self.append(
            session,
            What::Redone {
                of,
                change: entered,
            },
            Some(applied),
        ))
    }
}
