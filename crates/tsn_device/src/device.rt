//! What a device is.
ghost use Rattle.std.specs.Prelude.{◌≡◌, ◌++◌, [], List, ℕ, Bool, true, OnOk, OnErr};
ghost use Rattle.tsn_device.specs.Kept.{IsCutShort};

/// A call of a device failed.
#[derive(Clone, Copy, Debug, PartialEq, Eq)]
pub struct Failed;

/// What keeps a journal. Behind a call that failed none may be made: what the device then holds is not known.
pub trait Device: Drop {
    // The bytes that it surely keeps, in order.
    ghost kept: { Self → List ℕ };

    // The bytes that were written behind them, which it may lose.
    ghost loose: { Self → List ℕ };

    // Whether no call of it has failed.
    ghost works: { Self → Bool };

    /// Writes all the bytes behind the others. Where it fails, a front of them stands there.
    fn append(&mut self, bytes: &[u8]) -> Result<(), Failed>
        requires { works self.old ≡ true }
        ensures ok { OnOk result (loose self.new ≡ loose self.old ++ bytes.now) }
        ensures cut { OnErr result (IsCutShort (loose self.old) (loose self.new) bytes.now) }
        ensures kept { kept self.new ≡ kept self.old }
        ensures worked { OnOk result (works self.new ≡ works self.old) };

    /// From then on all that was written is kept. Where it fails, what was kept before still is, and no more is known.
    fn sync(&mut self) -> Result<(), Failed>
        requires { works self.old ≡ true }
        ensures kept { OnOk result (kept self.new ≡ kept self.old ++ loose self.old) }
        ensures none { OnOk result (loose self.new ≡ []) }
        ensures as_before { OnErr result ((kept self.new ≡ kept self.old) × (loose self.new ≡ loose self.old)) }
        ensures worked { OnOk result (works self.new ≡ works self.old) };
}
