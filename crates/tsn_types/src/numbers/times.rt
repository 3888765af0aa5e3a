//! Times within their ranges: instants and lengths of time, in nanoseconds.
ghost use Rattle.std.specs.Prelude.{◌≡◌, ◌↔◌, IsOk, IfOk};
ghost use Rattle.tsn_types.specs.Numbers.{IsCycle, IsExtension, IsInstant, IsInterval};

use super::{Range, within};
use std::marker::Model;

/// The last instant, in nanoseconds.
pub const GREATEST_INSTANT: u64 = 1 << 62;

/// The longest cycle of a list, in nanoseconds.
pub const LONGEST_CYCLE: u64 = 1_000_000_000_000;

/// The longest extension of a cycle, in nanoseconds.
pub const LONGEST_EXTENSION: u64 = 1_000_000_000_000;

/// The longest interval of an entry of a list, in nanoseconds.
pub const LONGEST_INTERVAL: u64 = 4_294_967_295;

/// An instant, 0 to 2^62 nanoseconds.
#[derive(Clone, Copy, Debug, PartialEq, Eq)]
pub struct Instant {
    number: u64,
}

impl Model for Instant {
    ghost use Rattle.std.specs.Prelude.{ℕ};
    ghost use Rattle.tsn_types.specs.Numbers.{IsInstant};

    ghost Value = { ℕ };

    ghost view = { λ a. a.number };

    ghost inverse = { λ n. record { number = n } };

    ghost invariant = { λ a. IsInstant a.number };
}

impl Instant {
    /// The instant at so many nanoseconds, refused beyond 2^62.
    pub fn new(number: u64) -> Result<Instant, Range>
        ensures in_range { IsOk result ↔ IsInstant number }
        ensures same { IfOk result (λ n. n ≡ number) }
    {
        let number = within(number, 0, GREATEST_INSTANT)?;
        Ok(Instant { number })
    }

    /// The nanoseconds.
    pub fn get(self) -> u64
        ensures same { result ≡ self }
        ensures in_range { IsInstant self }
    {
        let Instant { number } = self;
        number
    }
}

/// A cycle time of a gate control list (802.1Q-2018, 12.29.1), 1 to 10^12 nanoseconds.
#[derive(Clone, Copy, Debug, PartialEq, Eq)]
pub struct Cycle {
    number: u64,
}

impl Model for Cycle {
    ghost use Rattle.std.specs.Prelude.{ℕ};
    ghost use Rattle.tsn_types.specs.Numbers.{IsCycle};

    ghost Value = { ℕ };

    ghost view = { λ a. a.number };

    ghost inverse = { λ n. record { number = n } };

    ghost invariant = { λ a. IsCycle a.number };
}

impl Cycle {
    /// A cycle of so many nanoseconds, refused outside 1 to 10^12.
    pub fn new(number: u64) -> Result<Cycle, Range>
        ensures in_range { IsOk result ↔ IsCycle number }
        ensures same { IfOk result (λ n. n ≡ number) }
    {
        let number = within(number, 1, LONGEST_CYCLE)?;
        Ok(Cycle { number })
    }

    /// The nanoseconds.
    pub fn get(self) -> u64
        ensures same { result ≡ self }
        ensures in_range { IsCycle self }
    {
        let Cycle { number } = self;
        number
    }
}

/// A cycle time extension (802.1Q-2018, 12.29.1), 0 to 10^12 nanoseconds.
#[derive(Clone, Copy, Debug, PartialEq, Eq)]
pub struct Extension {
    number: u64,
}

impl Model for Extension {
    ghost use Rattle.std.specs.Prelude.{ℕ};
    ghost use Rattle.tsn_types.specs.Numbers.{IsExtension};

    ghost Value = { ℕ };

    ghost view = { λ a. a.number };

    ghost inverse = { λ n. record { number = n } };

    ghost invariant = { λ a. IsExtension a.number };
}

impl Extension {
    /// An extension of so many nanoseconds, refused beyond 10^12.
    pub fn new(number: u64) -> Result<Extension, Range>
        ensures in_range { IsOk result ↔ IsExtension number }
        ensures same { IfOk result (λ n. n ≡ number) }
    {
        let number = within(number, 0, LONGEST_EXTENSION)?;
        Ok(Extension { number })
    }

    /// The nanoseconds.
    pub fn get(self) -> u64
        ensures same { result ≡ self }
        ensures in_range { IsExtension self }
    {
        let Extension { number } = self;
        number
    }
}

/// A time interval of a gate control entry, 1 to 4,294,967,295 nanoseconds.
#[derive(Clone, Copy, Debug, PartialEq, Eq)]
pub struct Interval {
    number: u32,
}

impl Model for Interval {
    ghost use Rattle.std.specs.Prelude.{ℕ};
    ghost use Rattle.tsn_types.specs.Numbers.{IsInterval};

    ghost Value = { ℕ };

    ghost view = { λ a. a.number };

    ghost inverse = { λ n. record { number = n } };

    ghost invariant = { λ a. IsInterval a.number };
}

impl Interval {
    /// An interval of so many nanoseconds, refused outside 1 to 4,294,967,295.
    pub fn new(number: u64) -> Result<Interval, Range>
        ensures in_range { IsOk result ↔ IsInterval number }
        ensures same { IfOk result (λ n. n ≡ number) }
    {
        let number = within(number, 1, LONGEST_INTERVAL)? as u32;
        Ok(Interval { number })
    }

    /// The nanoseconds.
    pub fn get(self) -> u64
        ensures same { result ≡ self }
        ensures in_range { IsInterval self }
    {
        let Interval { number } = self;
        u64::from(number)
    }
}
