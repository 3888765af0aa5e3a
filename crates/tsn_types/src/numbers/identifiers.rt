//! Identifiers within their ranges: instances of managed objects, stream handles and priorities.
ghost use Rattle.std.specs.Prelude.{◌≡◌, ◌↔◌, IsOk, IfOk};
ghost use Rattle.tsn_types.specs.Numbers.{IsHandle, IsInstanceId, IsPortId, IsPriority};

use super::{Range, within};
use std::marker::Model;

/// The most ports that a bridge may have, which are numbered from 1.
pub const MOST_PORTS: u64 = 64;

/// The greatest number of a stream filter, a stream gate or a flow meter, which are numbered from 0.
pub const GREATEST_INSTANCE: u64 = 65_535;

/// The greatest priority.
pub const GREATEST_PRIORITY: u64 = 7;

/// The greatest stream handle, of 32 bits.
pub const GREATEST_HANDLE: u64 = 4_294_967_295;

/// A port of the bridge, 1 to 64.
#[derive(Clone, Copy, Debug, PartialEq, Eq, PartialOrd, Ord)]
pub struct PortId {
    number: u8,
}

impl Model for PortId {
    ghost use Rattle.std.specs.Prelude.{ℕ};
    ghost use Rattle.tsn_types.specs.Numbers.{IsPortId};

    ghost Value = { ℕ };

    ghost view = { λ a. a.number };

    ghost inverse = { λ n. record { number = n } };

    ghost invariant = { λ a. IsPortId a.number };
}

impl PortId {
    /// The port of the number, refused outside 1 to 64.
    pub fn new(number: u64) -> Result<PortId, Range>
        ensures in_range { IsOk result ↔ IsPortId number }
        ensures same { IfOk result (λ n. n ≡ number) }
    {
        let number = within(number, 1, MOST_PORTS)? as u8;
        Ok(PortId { number })
    }

    /// The number.
    pub fn get(self) -> u64
        ensures same { result ≡ self }
        ensures in_range { IsPortId self }
    {
        let PortId { number } = self;
        u64::from(number)
    }
}

/// A stream filter instance (802.1Q-2018, 8.6.5.1), 0 to 65,535.
#[derive(Clone, Copy, Debug, PartialEq, Eq, PartialOrd, Ord)]
pub struct FilterId {
    number: u16,
}

impl Model for FilterId {
    ghost use Rattle.std.specs.Prelude.{ℕ};
    ghost use Rattle.tsn_types.specs.Numbers.{IsInstanceId};

    ghost Value = { ℕ };

    ghost view = { λ a. a.number };

    ghost inverse = { λ n. record { number = n } };

    ghost invariant = { λ a. IsInstanceId a.number };
}

impl FilterId {
    /// The stream filter of the number, refused beyond 65,535.
    pub fn new(number: u64) -> Result<FilterId, Range>
        ensures in_range { IsOk result ↔ IsInstanceId number }
        ensures same { IfOk result (λ n. n ≡ number) }
    {
        let number = within(number, 0, GREATEST_INSTANCE)? as u16;
        Ok(FilterId { number })
    }

    /// The number.
    pub fn get(self) -> u64
        ensures same { result ≡ self }
        ensures in_range { IsInstanceId self }
    {
        let FilterId { number } = self;
        u64::from(number)
    }
}

/// A stream gate instance (802.1Q-2018, 8.6.5.2), 0 to 65,535.
#[derive(Clone, Copy, Debug, PartialEq, Eq, PartialOrd, Ord)]
pub struct GateId {
    number: u16,
}

impl Model for GateId {
    ghost use Rattle.std.specs.Prelude.{ℕ};
    ghost use Rattle.tsn_types.specs.Numbers.{IsInstanceId};

    ghost Value = { ℕ };

    ghost view = { λ a. a.number };

    ghost inverse = { λ n. record { number = n } };

    ghost invariant = { λ a. IsInstanceId a.number };
}

impl GateId {
    /// The stream gate of the number, refused beyond 65,535.
    pub fn new(number: u64) -> Result<GateId, Range>
        ensures in_range { IsOk result ↔ IsInstanceId number }
        ensures same { IfOk result (λ n. n ≡ number) }
    {
        let number = within(number, 0, GREATEST_INSTANCE)? as u16;
        Ok(GateId { number })
    }

    /// The number.
    pub fn get(self) -> u64
        ensures same { result ≡ self }
        ensures in_range { IsInstanceId self }
    {
        let GateId { number } = self;
        u64::from(number)
    }
}

/// A flow meter instance (802.1Q-2018, 8.6.5.3), 0 to 65,535.
#[derive(Clone, Copy, Debug, PartialEq, Eq, PartialOrd, Ord)]
pub struct MeterId {
    number: u16,
}

impl Model for MeterId {
    ghost use Rattle.std.specs.Prelude.{ℕ};
    ghost use Rattle.tsn_types.specs.Numbers.{IsInstanceId};

    ghost Value = { ℕ };

    ghost view = { λ a. a.number };

    ghost inverse = { λ n. record { number = n } };

    ghost invariant = { λ a. IsInstanceId a.number };
}

impl MeterId {
    /// The flow meter of the number, refused beyond 65,535.
    pub fn new(number: u64) -> Result<MeterId, Range>
        ensures in_range { IsOk result ↔ IsInstanceId number }
        ensures same { IfOk result (λ n. n ≡ number) }
    {
        let number = within(number, 0, GREATEST_INSTANCE)? as u16;
        Ok(MeterId { number })
    }

    /// The number.
    pub fn get(self) -> u64
        ensures same { result ≡ self }
        ensures in_range { IsInstanceId self }
    {
        let MeterId { number } = self;
        u64::from(number)
    }
}

/// A priority or an internal priority value (802.1Q-2018, 12.31.3), 0 to 7.
#[derive(Clone, Copy, Debug, PartialEq, Eq)]
pub struct Priority {
    number: u8,
}

impl Model for Priority {
    ghost use Rattle.std.specs.Prelude.{ℕ};
    ghost use Rattle.tsn_types.specs.Numbers.{IsPriority};

    ghost Value = { ℕ };

    ghost view = { λ a. a.number };

    ghost inverse = { λ n. record { number = n } };

    ghost invariant = { λ a. IsPriority a.number };
}

impl Priority {
    /// The priority of the number, refused beyond 7.
    pub fn new(number: u64) -> Result<Priority, Range>
        ensures in_range { IsOk result ↔ IsPriority number }
        ensures same { IfOk result (λ n. n ≡ number) }
    {
        let number = within(number, 0, GREATEST_PRIORITY)? as u8;
        Ok(Priority { number })
    }

    /// The number.
    pub fn get(self) -> u64
        ensures same { result ≡ self }
        ensures in_range { IsPriority self }
    {
        let Priority { number } = self;
        u64::from(number)
    }
}

/// A stream handle (802.1Q-2018, 12.31.2), 0 to 4,294,967,295.
#[derive(Clone, Copy, Debug, PartialEq, Eq)]
pub struct Handle {
    number: u32,
}

impl Model for Handle {
    ghost use Rattle.std.specs.Prelude.{ℕ};
    ghost use Rattle.tsn_types.specs.Numbers.{IsHandle};

    ghost Value = { ℕ };

    ghost view = { λ a. a.number };

    ghost inverse = { λ n. record { number = n } };

    ghost invariant = { λ a. IsHandle a.number };
}

impl Handle {
    /// The handle of the number, refused beyond 4,294,967,295.
    pub fn new(number: u64) -> Result<Handle, Range>
        ensures in_range { IsOk result ↔ IsHandle number }
        ensures same { IfOk result (λ n. n ≡ number) }
    {
        let number = within(number, 0, GREATEST_HANDLE)? as u32;
        Ok(Handle { number })
    }

    /// The number.
    pub fn get(self) -> u64
        ensures same { result ≡ self }
        ensures in_range { IsHandle self }
    {
        let Handle { number } = self;
        u64::from(number)
    }
}
