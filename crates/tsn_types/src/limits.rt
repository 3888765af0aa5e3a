//! How many instances of each kind a bridge has, and how long its gate control lists may be.
//!
//! Limits are tested before anything else that depends on the configuration. None of these calls takes memory.
ghost use Rattle.std.specs.Prelude.{◌≡◌, ◌≤◌, ◌↔◌, IsOk, IfOk, IsTrue};
ghost use Rattle.tsn_types.specs.Bounds.{AreInRange};
ghost use Rattle.tsn_types.specs.Limits.{holds_key, lists_within, out_of_limits};

use crate::keys::Key;
use crate::numbers::Range;
use crate::numbers::identifiers::MOST_PORTS;
use crate::records::Record;
use crate::refusals::{Field, Refusal};
use std::marker::Model;

/// The most instances that a table may have.
pub const MOST_INSTANCES: u64 = 65_536;

/// The most entries that a gate control list may have.
pub const LONGEST_LIST: u64 = 4_096;

/// The number of ports (1 to 64), the sizes of the stream filter, stream gate and flow meter tables (1 to 65,536 each,
/// 802.1Q-2018, 12.31.1) and the greatest length of a gate control list (SupportedListMax, 1 to 4,096).
#[derive(Clone, Copy, Debug)]
pub struct Limits {
    ports: u64,
    filters: u64,
    gates: u64,
    meters: u64,
    list: u64,
}

impl Model for Limits {
    ghost use Rattle.tsn_types.specs.Bounds.{AreInRange, Bounds};

    ghost Value = { Bounds };

    ghost view = { λ a. record { ports = a.ports; filters = a.filters; gates = a.gates; meters = a.meters; list = a.list } };

    ghost inverse = { λ b. record { ports = b.ports; filters = b.filters; gates = b.gates; meters = b.meters; list = b.list } };

    ghost invariant = { λ a. AreInRange (record {
      ports = a.ports;
      filters = a.filters;
      gates = a.gates;
      meters = a.meters;
      list = a.list;
    }) };
}

impl Limits {
    /// The limits: 1 to 64 ports; 1 to 65,536 stream filters, stream gates and flow meters; lists of up to 1 to 4,096
    /// entries. Refused where one is outside its range.
    pub fn new(
        ports: u64,
        filters: u64,
        gates: u64,
        meters: u64,
        list: u64,
    ) -> Result<Limits, Range>
        ensures in_range { IsOk result ↔ AreInRange
            (record { ports = ports; filters = filters; gates = gates; meters = meters; list = list }) }
        ensures same { IfOk result (λ l. l ≡ record { ports = ports; filters = filters; gates = gates; meters = meters; list = list }) }
    {
        let is_size = |n: u64| 1 <= n && n <= MOST_INSTANCES;
        if 1 <= ports
            && ports <= MOST_PORTS
            && is_size(filters)
            && is_size(gates)
            && is_size(meters)
            && 1 <= list
            && list <= LONGEST_LIST
        {
            Ok(Limits {
                ports,
                filters,
                gates,
                meters,
                list,
            })
        } else {
            Err(Range)
        }
    }

    /// The number of ports, which are numbered from 1.
    pub fn ports(self) -> u64
        ensures same { result ≡ self.ports }
        ensures in_range { AreInRange self }
    {
        self.ports
    }

    /// How many stream filters there may be, which are numbered from 0.
    pub fn filters(self) -> u64
        ensures { result ≡ self.filters }
    {
        self.filters
    }

    /// How many stream gates there may be, which are numbered from 0.
    pub fn gates(self) -> u64
        ensures { result ≡ self.gates }
    {
        self.gates
    }

    /// How many flow meters there may be, which are numbered from 0.
    pub fn meters(self) -> u64
        ensures { result ≡ self.meters }
    {
        self.meters
    }

    /// How many entries a gate control list may have.
    pub fn list(self) -> u64
        ensures { result ≡ self.list }
    {
        self.list
    }

    /// Whether the key is within the limits: a port from 1 to `ports`, any other number below its table's size.
    pub fn holds(self, key: Key) -> bool
        ensures { result ≡ holds_key self key }
    {
        match key {
            Key::Port(id) => 0 < id.get() && id.get() <= self.ports,
            Key::Filter(id) => id.get() < self.filters,
            Key::Gate(id) => id.get() < self.gates,
            Key::Meter(id) => id.get() < self.meters,
        }
    }

    /// Why the references or the list of the record are outside the limits, if they are: the gate before the meter.
    pub fn refuse(self, value: &Record) -> Option<Refusal>
        ensures { result ≡ out_of_limits self value.now }
    {
        match value {
            Record::Port(ports) => self.refuse_list(ports.admin.list.len()),
            Record::Gate(gate) => self.refuse_list(gate.admin.list.len()),
            Record::Meter(_) => None,
            Record::Filter(filter) => {
                if !self.holds(Key::Gate(filter.gate)) {
                    return Some(Refusal::Range(Field::Gate));
                }
                match filter.meter {
                    Some(meter) if !self.holds(Key::Meter(meter)) => {
                        Some(Refusal::Range(Field::Meter))
                    }
                    _ => None,
                }
            }
        }
    }

    fn refuse_list(self, length: usize) -> Option<Refusal>
        ensures { result ≡ lists_within self length }
    {
        if length as u64 <= self.list {
            None
        } else {
            Some(Refusal::Range(Field::List))
        }
    }
}
