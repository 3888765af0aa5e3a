//! A small machine, whose replies tell the order of its calls.
ghost use Rattle.std.specs.Prelude.{◌≡◌, ◌+◌, ◌%◌, ◌^◌};

use tsn_desk::machine::Machine;

/// A count. A call adds to it, and is answered by the count before.
#[derive(Drop)]
pub struct Tally {
    pub count: u64,
}

impl Machine for Tally {
    type Request = u64;

    type Reply = u64;

    ghost steps = { λ old added reply new. (reply ≡ old.count) × (new.count ≡ (old.count + added) % 2 ^ 64) };

    fn step(&mut self, added: u64) -> u64 {
        let before = self.count;
        self.count = before.wrapping_add(added);
        before
    }
}
