//! A computed plan goes in: one script sets the gate control lists of all ports and of as many stream gates, of 64 to
//! 4,096 entries, puts each in force, and then makes streams, each a gate, a meter and a filter in one batch.

use crate::numbers::Random;
use crate::pool::Pool;
use crate::records::{
    Filter, act, close_command, hello, open_command, open_record, perhaps, put_filter, put_gate,
    put_meter, put_port,
};
use crate::script::Job;
use crate::text::Text;
use std::alloc::Global;

/// How many ports have a list, and how many stream gates.
pub const LISTED: u64 = 64;

// The first number of the streams' instances, above all that the setup has.
const FIRST: u64 = 4000;

/// The lines of a planner's tool.
#[derive(Drop)]
pub struct Plan {
    random: Random,
    ports: Pool,
    gates: Pool,
    now: u64,
    streams: u64,
}

impl Plan {
    /// A plan with so many streams.
    pub fn new(alloc: Global, mut random: Random, streams: u64) -> Plan {
        let ports = Pool::new(alloc, &mut random, true);
        let gates = Pool::new(alloc, &mut random, false);
        Plan {
            random,
            ports,
            gates,
            now: 0,
            streams,
        }
    }

    // How many entries a list has: few more often than many.
    fn length(&mut self) -> u64 {
        let most = 128u64 << self.random.below(6);
        most - self.random.below(most / 2)
    }

    // A list of a port is set, and put in force.
    fn port_list(&mut self, text: &mut Text, number: u64) {
        let count = self.length();
        let cycle = 1_000_000 + self.random.below(1_000_000_000);
        open_record(text, "replace", "port", number);
        let entries = self.ports.entries(&mut self.random, count);
        put_port(text, 255, cycle, self.now, entries);
        close_command(text, 1);
        self.put_in_force(text, "port", number);
    }

    // The same of a stream gate that the setup has.
    fn gate_list(&mut self, text: &mut Text, number: u64) {
        let count = self.length();
        let cycle = 1_000_000 + self.random.below(1_000_000_000);
        open_record(text, "replace", "gate", number);
        let entries = self.gates.entries(&mut self.random, count);
        put_gate(text, None, cycle, self.now, entries);
        close_command(text, 1);
        self.put_in_force(text, "gate", number);
    }

    fn put_in_force(&mut self, text: &mut Text, kind: &str, number: u64) {
        self.now = self.now.wrapping_add(self.random.below(1_000_000));
        act(text, "enable", kind, number, self.now, 1);
        act(text, "apply", kind, number, self.now, 1);
    }

    // A stream of its own gate and meter.
    fn stream(&mut self, text: &mut Text, number: u64) {
        text.put("{\"do\":\"batch\",\"edits\":[");
        open_record(text, "create", "gate", number);
        let count = 1 + self.random.below(4);
        let ipv = self.random.below(8);
        let ipv = perhaps(&mut self.random, ipv);
        let cycle = 250_000 + self.random.below(1_000_000);
        let entries = self.gates.entries(&mut self.random, count);
        put_gate(text, ipv, cycle, self.now, entries);
        text.put("},");
        open_record(text, "create", "meter", number);
        let rate = 1_000_000 + self.random.below(1_000_000_000);
        put_meter(text, rate, 1500 + self.random.below(60_000), false);
        text.put("},");
        open_record(text, "create", "filter", number);
        let wanted = Filter {
            gate: number,
            meter: Some(number),
            handle: Some(number),
            priority: Some(self.random.below(8)),
            oversize: false,
        };
        put_filter(text, wanted);
        text.put("}]");
        close_command(text, 1);
    }
}

impl Job for Plan {
    fn next(&mut self, text: &mut Text, turn: u64) -> bool {
        let stream = turn.saturating_sub(2 * LISTED);
        if stream > self.streams || stream > 60_000 {
            return false;
        }
        if turn == 0 {
            hello(text);
        } else if turn <= LISTED {
            self.port_list(text, turn);
        } else if turn <= 2 * LISTED {
            self.gate_list(text, turn - LISTED);
        } else {
            self.stream(text, FIRST + stream);
        }
        true
    }
}
