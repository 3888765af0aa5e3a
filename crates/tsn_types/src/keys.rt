//! Keys of the configuration: a kind of managed object and the number of an instance.
ghost use Rattle.std.specs.Prelude.{◌≡◌};
ghost use Rattle.tsn_types.specs.Keys.{key_cmp};

use crate::numbers::{FilterId, GateId, MeterId, PortId};
use std::cmp::Ordering;

/// What a record is kept under. Keys are ordered port, filter, gate, meter, and then by number.
#[derive(Clone, Copy, Debug, PartialEq, Eq, PartialOrd, Ord)]
pub enum Key {
    /// The gate parameters of a port (802.1Q-2018, 12.29).
    Port(PortId),
    /// A stream filter instance (802.1Q-2018, 12.31.2).
    Filter(FilterId),
    /// A stream gate instance (802.1Q-2018, 12.31.3).
    Gate(GateId),
    /// A flow meter instance (802.1Q-2018, 12.31.4).
    Meter(MeterId),
}

/// One of the four kinds of managed object, in the order of keys.
#[derive(Clone, Copy, Debug, PartialEq, Eq, PartialOrd, Ord)]
pub enum Kind {
    Port,
    Filter,
    Gate,
    Meter,
}

impl Key {
    /// How the keys are ordered: by kind, and then by number.
    pub fn order(self, other: Key) -> Ordering
        ensures { result ≡ key_cmp self other }
    {
        self.cmp(&other)
    }
}
