//! What is kept, for whoever asks.
ghost use Rattle.std.specs.Prelude.{◌≡◌, IfOk, IfSome};
ghost use Rattle.tsn_history.specs.Texts.{BeginsWith};

use crate::state::Stopped;
use std::marker::Model;
use tsn_history::{Front, Naming};

/// A front of what is recorded, that of the kept text which is the same, and whether no more will be kept. A contract
/// sees the front.
#[derive(Drop)]
pub(crate) struct Told<R: Naming, K: Naming> {
    pub(crate) records: Front<R>,
    pub(crate) kept: Front<K>,
    pub(crate) stopped: bool,
}

impl<R: Naming, K: Naming> Model for Told<R, K> {
    ghost use Rattle.std.specs.Prelude.{◌≡◌, ℕ, List};

    ghost Value = { List (List ℕ) };

    ghost view = { λ t. t.kept };

    ghost invariant = { λ t. t.kept ≡ t.records };
}

impl<R: Naming, K: Naming> Told<R, K> {
    /// What is kept, where that begins with this front; that it never will, where the device has failed; and none while
    /// it is still to be kept.
    pub(crate) fn outcome(&self, mine: &Front<R>) -> Option<Result<Front<K>, Stopped>>
        ensures { IfSome result (λ r. IfOk r (λ kept. BeginsWith kept mine.now)) }
    {
        if self.records.covers(mine) {
            return Some(Ok(self.kept.again()));
        }
        if self.stopped {
            return Some(Err(Stopped));
        }
        None
    }

    /// All of this is kept now.
    pub(crate) fn tell(&mut self, records: Front<R>, kept: Front<K>)
        requires { kept ≡ records }
        ensures { self.new ≡ kept }
    {
        self.records = records;
        self.kept = kept;
    }

    /// No more will be kept.
    pub(crate) fn stop(&mut self)
        ensures { self.new ≡ self.old }
    {
        self.stopped = true;
    }
}
