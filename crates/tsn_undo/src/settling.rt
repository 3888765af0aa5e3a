//! Settling: the entries up to a number are made final.
ghost use Rattle.std.specs.Prelude.{◌≡◌, IfErr, IfOk, OnErr};
ghost use Rattle.tsn_types.specs.Refusals.{IsLeastOrMemory};
ghost use Rattle.tsn_undo.specs.Ledger.{Takes};
ghost use Rattle.tsn_undo.specs.Settling.{Settles, settle_refusal};

use crate::book::Book;
use tsn_journal::entries::What;
use tsn_types::refusals::{Field, Refusal};

impl Book {
    /// Makes the entries up to the number final: those that stood are taken back no more, and stand in nobody's way.
    /// The answer is the number of the entry that this makes; no record changes. It is refused 4 (field `upto`) where
    /// there is no entry of the number, then 19 where the entries up to it are settled already, then 17 and 18;
    /// refused, it has changed nothing.
    pub fn settle(&mut self, session: u32, upto: u64) -> Result<u64, Refusal>
        ensures ok { IfOk result (λ number. Settles self.old.ledger session upto number self.new.ledger) }
        ensures refused { IfErr result (λ why. IsLeastOrMemory (settle_refusal self.old.ledger upto) why) }
        ensures unchanged { OnErr result (self.new.ledger ≡ self.old.ledger) }
        ensures kept { OnErr result (Takes self.old.room 0 0 self.new.room) }
    {
        if let Some(why) = self.refuse_settle(upto) {
            return Err(why);
        }
        // The proof needs that the entries are sound, which the journal tells.
        let _ = self.journal();
        self.reserve_parts(1, 0)?;
        Ok(self.append(session, What::Settled { upto }, None))
    }

    /// Why a settle up to the number would be refused, but for want of memory. It takes no memory.
    pub fn refuse_settle(&self, upto: u64) -> Option<Refusal>
        ensures { result ≡ settle_refusal self.now.ledger upto }
    {
        let journal = self.journal();
        if upto > journal.len() as u64 {
            return Some(Refusal::Range(Field::Upto));
        }
        if upto <= journal.settled() {
            return Some(Refusal::Settled {
                upto: journal.settled(),
            });
        }
        self.refuse_entries(1)
    }
}
