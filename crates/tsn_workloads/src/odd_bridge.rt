//! A bridge of odd records: its limits, its setup, and the handles of its filters.

use crate::numbers::Random;
use crate::odd_records::{Record, odd_filter, odd_gate, odd_meter, odd_port};
use crate::records::perhaps;
use crate::setups::put_limits;
use crate::text::Text;
use std::alloc::Global;

// The most instances of each kind, which keeps the setup below a megabyte.
const MOST_INSTANCES: u64 = 1500;

// How many parties share the instances: a filter refers to a gate and a meter of its own party's.
pub const PARTIES: u64 = 8;

/// How large the bridge is.
#[derive(Clone, Copy)]
pub struct Sizes {
    /// So many filters, gates and meters stand in the setup. This is the first number of each kind too; those below are
    /// free.
    pub instances: u64,
    pub ports: u64,
    /// The limits.
    pub filters: u64,
    pub gates: u64,
    pub meters: u64,
    pub entries: u64,
    first_handle: u64,
}

impl Sizes {
    /// The sizes of a bridge of so many instances of each kind, each limit a little off the others.
    pub fn new(random: &mut Random, instances: u64) -> Sizes {
        let instances = instances.max(PARTIES).min(MOST_INSTANCES);
        let least = 3 * instances + 1;
        Sizes {
            instances,
            ports: 57 + random.below(7),
            filters: least + random.below(8),
            gates: least + random.below(8),
            meters: least + random.below(8),
            entries: 20 + random.below(8),
            first_handle: random.below(4_000_000_000),
        }
    }

    /// A number of the setup that belongs to this party.
    pub fn own(&self, random: &mut Random, party: u64) -> u64 {
        let place = random.below(self.instances / PARTIES) * PARTIES;
        self.instances.wrapping_add(place).wrapping_add(party)
    }

    /// A filter of this number, with two handles of its own, of which it matches one. Some of the last ones of the
    /// setup match any handle, with a priority, and the very last one, it may be, any frame.
    pub fn filter(
        &self,
        random: &mut Random,
        number: u64,
        gate: u64,
        meter: Option<u64>,
    ) -> Record {
        let priority = random.below(8);
        let last = self.instances.wrapping_mul(2).wrapping_sub(1);
        let left = last.wrapping_sub(number);
        if left < self.instances / 8 && random.below(2) == 0 {
            let priority = if left == 0 { None } else { Some(priority) };
            return odd_filter(random, None, priority, gate, meter);
        }
        let handle = self.handle(random, number);
        let priority = perhaps(random, priority);
        odd_filter(random, Some(handle), priority, gate, meter)
    }

    /// One of the two handles of the filter of this number.
    pub fn handle(&self, random: &mut Random, number: u64) -> u64 {
        let first = self.first_handle.wrapping_add(number.wrapping_mul(2));
        first.wrapping_add(random.below(2))
    }

    /// A gate with a short list.
    pub fn gate(&self, random: &mut Random) -> Record {
        let entries = random.below(5);
        odd_gate(random, entries)
    }

    /// A port with a list of any length.
    pub fn port(&self, random: &mut Random) -> Record {
        let entries = random.below(self.entries.wrapping_add(1));
        odd_port(random, entries)
    }
}

// A table of the setup, with its members in some order.
fn put_table(text: &mut Text, random: &mut Random, record: &Record, number: u64) {
    let first = random.below(8);
    record.put_table(text, number, first);
}

/// The setup: a table for each port but the last, and for so many filters, gates and meters.
pub fn odd_setup(alloc: Global, random: &mut Random, sizes: &Sizes) -> Text {
    let mut text = Text::new(alloc);
    let tables = [sizes.filters, sizes.gates, sizes.meters];
    put_limits(&mut text, sizes.ports, tables, sizes.entries);
    for number in 1..sizes.ports {
        let record = sizes.port(random);
        put_table(&mut text, random, &record, number);
    }
    let first = sizes.instances;
    let behind = first.wrapping_mul(2);
    for number in first..behind {
        let party = number.wrapping_sub(first) % PARTIES;
        let gate = sizes.own(random, party);
        let meter = sizes.own(random, party);
        let meter = if random.below(4) == 0 {
            None
        } else {
            Some(meter)
        };
        let record = sizes.filter(random, number, gate, meter);
        put_table(&mut text, random, &record, number);
    }
    for number in first..behind {
        let record = sizes.gate(random);
        put_table(&mut text, random, &record, number);
    }
    for number in first..behind {
        let record = odd_meter(random);
        put_table(&mut text, random, &record, number);
    }
    text
}
