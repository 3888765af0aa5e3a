//! Sizes and rates within their ranges: octets, maximum SDU sizes and bits per second.
ghost use Rattle.std.specs.Prelude.{◌≡◌, ◌↔◌, IsOk, IfOk};
ghost use Rattle.tsn_types.specs.Numbers.{IsBitRate, IsMaxSdu, IsOctets};

use super::{Range, within};
use std::marker::Model;

/// The greatest number of octets, of 32 bits.
pub const MOST_OCTETS: u64 = 4_294_967_295;

/// The greatest maximum SDU size, in octets.
pub const GREATEST_MAX_SDU: u64 = 65_535;

/// The greatest information rate, in bits per second.
pub const GREATEST_BIT_RATE: u64 = 1_000_000_000_000;

/// A number of octets in an interval or a burst, 0 to 4,294,967,295.
#[derive(Clone, Copy, Debug, PartialEq, Eq)]
pub struct Octets {
    number: u32,
}

impl Model for Octets {
    ghost use Rattle.std.specs.Prelude.{ℕ};
    ghost use Rattle.tsn_types.specs.Numbers.{IsOctets};

    ghost Value = { ℕ };

    ghost view = { λ a. a.number };

    ghost inverse = { λ n. record { number = n } };

    ghost invariant = { λ a. IsOctets a.number };
}

impl Octets {
    /// So many octets, refused beyond 4,294,967,295.
    pub fn new(number: u64) -> Result<Octets, Range>
        ensures in_range { IsOk result ↔ IsOctets number }
        ensures same { IfOk result (λ n. n ≡ number) }
    {
        let number = within(number, 0, MOST_OCTETS)? as u32;
        Ok(Octets { number })
    }

    /// The octets.
    pub fn get(self) -> u64
        ensures same { result ≡ self }
        ensures in_range { IsOctets self }
    {
        let Octets { number } = self;
        u64::from(number)
    }
}

/// A maximum SDU size (802.1Q-2018, 12.31.2), 1 to 65,535 octets.
#[derive(Clone, Copy, Debug, PartialEq, Eq)]
pub struct MaxSdu {
    number: u16,
}

impl Model for MaxSdu {
    ghost use Rattle.std.specs.Prelude.{ℕ};
    ghost use Rattle.tsn_types.specs.Numbers.{IsMaxSdu};

    ghost Value = { ℕ };

    ghost view = { λ a. a.number };

    ghost inverse = { λ n. record { number = n } };

    ghost invariant = { λ a. IsMaxSdu a.number };
}

impl MaxSdu {
    /// A size of so many octets, refused outside 1 to 65,535.
    pub fn new(number: u64) -> Result<MaxSdu, Range>
        ensures in_range { IsOk result ↔ IsMaxSdu number }
        ensures same { IfOk result (λ n. n ≡ number) }
    {
        let number = within(number, 1, GREATEST_MAX_SDU)? as u16;
        Ok(MaxSdu { number })
    }

    /// The octets.
    pub fn get(self) -> u64
        ensures same { result ≡ self }
        ensures in_range { IsMaxSdu self }
    {
        let MaxSdu { number } = self;
        u64::from(number)
    }
}

/// An information rate of a flow meter, 0 to 10^12 bits per second.
#[derive(Clone, Copy, Debug, PartialEq, Eq)]
pub struct BitRate {
    number: u64,
}

impl Model for BitRate {
    ghost use Rattle.std.specs.Prelude.{ℕ};
    ghost use Rattle.tsn_types.specs.Numbers.{IsBitRate};

    ghost Value = { ℕ };

    ghost view = { λ a. a.number };

    ghost inverse = { λ n. record { number = n } };

    ghost invariant = { λ a. IsBitRate a.number };
}

impl BitRate {
    /// A rate of so many bits per second, refused beyond 10^12.
    pub fn new(number: u64) -> Result<BitRate, Range>
        ensures in_range { IsOk result ↔ IsBitRate number }
        ensures same { IfOk result (λ n. n ≡ number) }
    {
        let number = within(number, 0, GREATEST_BIT_RATE)?;
        Ok(BitRate { number })
    }

    /// The bits per second.
    pub fn get(self) -> u64
        ensures same { result ≡ self }
        ensures in_range { IsBitRate self }
    {
        let BitRate { number } = self;
        number
    }
}
