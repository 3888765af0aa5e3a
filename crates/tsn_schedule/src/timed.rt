//! Entries that last for an interval.
ghost use Rattle.std.specs.Prelude.{◌≡◌, ℕ};

use tsn_types::numbers::Interval;
use tsn_types::records::{GateEntry, PortEntry};

/// An entry of a gate control list, of a port or of a stream gate.
pub trait Timed {
    ghost interval: { Self → ℕ };

    /// How long the entry lasts.
    fn interval(&self) -> Interval
        ensures { result ≡ interval self.now };
}

impl Timed for PortEntry {
    ghost interval = { λ entry. entry.interval };

    fn interval(&self) -> Interval {
        let PortEntry { interval, .. } = *self;
        interval
    }
}

impl Timed for GateEntry {
    ghost interval = { λ entry. entry.interval };

    fn interval(&self) -> Interval {
        let GateEntry { interval, .. } = *self;
        interval
    }
}
