//! The scribe at rest, and on its way with lines in hand.
ghost use Rattle.std.specs.Prelude.{◌≡◌, IfSome};

use crate::lines::Lines;
use crate::scribe::{Ahead, Scribe};
use std::marker::Model;
use tsn_device::Device;
use tsn_history::{Front, Naming};
use tsn_keeping::Clock;

/// The scribe while nobody is at it, with empty memory for the lines that come next. A contract sees what is kept.
#[derive(Drop)]
pub(crate) struct Free<C: Clock, D: Device, K: Ahead> {
    pub(crate) scribe: Scribe<C, D, K>,
    pub(crate) spare: Lines,
}

impl<C: Clock, D: Device, K: Ahead> Model for Free<C, D, K> {
    ghost use Rattle.std.specs.Prelude.{◌≡◌, [], ℕ, List};

    ghost Value = { List (List ℕ) };

    ghost view = { λ f. f.scribe };

    ghost invariant = { λ f. f.spare ≡ [] };
}

/// The scribe, the lines that it is to keep, and what is recorded up to them, which a contract sees.
#[derive(Drop)]
pub(crate) struct Job<C: Clock, D: Device, R: Naming, K: Ahead> {
    pub(crate) scribe: Scribe<C, D, K>,
    pub(crate) lines: Lines,
    pub(crate) upto: Front<R>,
}

impl<C: Clock, D: Device, R: Naming, K: Ahead> Model for Job<C, D, R, K> {
    ghost use Rattle.std.specs.Prelude.{◌≡◌, ◌++◌, ℕ, List};

    ghost Value = { List (List ℕ) };

    ghost view = { λ j. j.upto };

    ghost invariant = { λ j. j.upto ≡ j.scribe ++ j.lines };
}

/// A scribe that has kept all that is recorded up to here, which a contract sees.
#[derive(Drop)]
pub(crate) struct Done<C: Clock, D: Device, R: Naming, K: Ahead> {
    pub(crate) free: Free<C, D, K>,
    pub(crate) upto: Front<R>,
}

impl<C: Clock, D: Device, R: Naming, K: Ahead> Model for Done<C, D, R, K> {
    ghost use Rattle.std.specs.Prelude.{◌≡◌, ℕ, List};

    ghost Value = { List (List ℕ) };

    ghost view = { λ d. d.upto };

    ghost invariant = { λ d. d.upto ≡ d.free };
}

impl<C: Clock, D: Device, R: Naming, K: Ahead> Job<C, D, R, K> {
    /// Has the scribe keep the lines. Where the device fails nothing comes back.
    pub(crate) fn run(self) -> Option<Done<C, D, R, K>>
        ensures { IfSome result (λ done. done ≡ self) }
    {
        let Job {
            scribe,
            mut lines,
            upto,
        } = self;
        let scribe = scribe.keep(&lines)?;
        lines.clear();
        Some(Done {
            free: Free {
                scribe,
                spare: lines,
            },
            upto,
        })
    }
}

impl<C: Clock, D: Device, R: Naming, K: Ahead> Done<C, D, R, K> {
    /// What is recorded up to here, and what is kept, which is the same.
    pub(crate) fn told(&self) -> (Front<R>, Front<K>)
        ensures { result.1 ≡ result.0 }
    {
        (self.upto.again(), self.free.scribe.kept.again())
    }
}
