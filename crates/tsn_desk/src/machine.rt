//! Who attends the turns at a machine that is shared.
pub use tsn_machine::machine::Machine;

/// Who attends a turn at a desk: hears what is asked ahead of it, and the reply in it, with nobody else at the machine.
pub trait Witness<M: Machine> {
    /// What it says of the turn.
    type Mark: Drop;

    /// It has heard what is asked.
    ghost hears: { Self → M.Request → Type 0 };

    /// It may say this of a turn that was asked and answered so.
    ghost marks: { M.Request → M.Reply → Self.Mark → Type 0 };

    /// Ahead of the turn.
    fn hear(&mut self, request: &M::Request)
        ensures { hears self.new request.now };

    /// Behind the step, before the turn ends.
    fn attend(&mut self, reply: &M::Reply) -> Self::Mark
        ensures { (q : M.Request) → hears self.old q → marks q reply.now result };
}

/// Nobody attends.
#[derive(Clone, Copy, Debug)]
pub struct Nobody;

impl<M: Machine> Witness<M> for Nobody {
    type Mark = ();

    ghost hears = { λ nobody q. Unit {0} };

    ghost marks = { λ q a mark. Unit {0} };

    fn hear(&mut self, _request: &M::Request) {}

    fn attend(&mut self, _reply: &M::Reply) {}
}
