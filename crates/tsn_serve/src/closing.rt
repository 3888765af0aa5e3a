//! The end of a service: how it is stopped, and what is done once no connection is left.
ghost use Rattle.std.specs.Prelude.{IsFalse};

use std::sync::Wait;

/// A service that may be stopped.
pub trait Stop {
    /// No further connection is taken, and those that are open are shut down.
    fn stop(&self);

    /// This connection is no longer open.
    fn ended(&self, connection: u32);
}

/// What is done once no connection is left, ahead of the last rounds.
pub trait Closing {
    /// What holds where it fails.
    ghost fails: { Type 0 };

    /// Does it, and says whether it succeeded.
    fn close<R: Wait>(&self, rt: &R) -> bool
        ensures { IsFalse result → fails };
}

/// Nothing is done, which never fails.
#[derive(Clone, Copy)]
pub struct Nothing;

impl Closing for Nothing {
    ghost fails = { ⊥ };

    fn close<R: Wait>(&self, _rt: &R) -> bool {
        true
    }
}
