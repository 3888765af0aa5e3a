//! Someone looks: a dashboard asks for records, counters, states and lists of thousands of instances, and a mirror for
//! the entries behind the last one that it has. Ahead of every sixteen looks a colleague edits and a frame comes, so no
//! look finds what another of the same words found.

use crate::numbers::Random;
use crate::pool::Pool;
use crate::records::{
    Filter, act, close_command, hello, on_key, open_record, perhaps, put_filter, put_gate,
    put_meter,
};
use crate::script::Job;
use crate::text::Text;
use std::alloc::Global;

// How many looks follow an edit. No two of these have the same words.
const LOOKS: u64 = 16;

/// The lines of a dashboard and a mirror, and of those who edit.
#[derive(Drop)]
pub struct Looks {
    random: Random,
    gates: Pool,
    instances: u64,
    looks: u64,
    now: u64,
    entries: u64,
    edited: u64,
}

impl Looks {
    /// So many looks at so many instances of each kind.
    pub fn new(alloc: Global, mut random: Random, instances: u64, looks: u64) -> Looks {
        let gates = Pool::new(alloc, &mut random, false);
        Looks {
            random,
            gates,
            instances,
            looks,
            now: 0,
            entries: 0,
            edited: 0,
        }
    }

    // A gate with a list, which is put in force if it is one of a part of them.
    fn set_gate(&mut self, text: &mut Text, word: &str, number: u64) {
        open_record(text, word, "gate", number);
        let count = 1 + self.random.below(16);
        let cycle = 1_000_000 + self.random.below(1_000_000);
        let entries = self.gates.entries(&mut self.random, count);
        put_gate(text, Some(number % 8), cycle, 0, entries);
        self.close(text);
        if number % 8 == 0 {
            act(text, "enable", "gate", number, self.now, 1);
            act(text, "apply", "gate", number, self.now.saturating_add(5), 1);
            self.entries = self.entries.wrapping_add(2);
        }
    }

    fn set_meter(&mut self, text: &mut Text, word: &str, number: u64) {
        open_record(text, word, "meter", number);
        let rate = 1_000_000 + self.random.below(1_000_000_000);
        put_meter(text, rate, 1500, false);
        self.close(text);
    }

    fn set_filter(&mut self, text: &mut Text, word: &str, number: u64, priority: Option<u64>) {
        open_record(text, word, "filter", number);
        let wanted = Filter {
            gate: number,
            meter: Some(number),
            handle: Some(number),
            priority,
            oversize: false,
        };
        put_filter(text, wanted);
        self.close(text);
    }

    // Ends an edit, which makes an entry.
    fn close(&mut self, text: &mut Text) {
        close_command(text, 1);
        self.entries = self.entries.wrapping_add(1);
    }

    fn create(&mut self, text: &mut Text, number: u64) {
        self.set_gate(text, "create", number);
        self.set_meter(text, "create", number);
        self.set_filter(text, "create", number, None);
    }

    // A record is replaced, and a frame of its stream comes.
    fn edit(&mut self, text: &mut Text, number: u64) {
        self.now = self.now.wrapping_add(self.random.below(2000));
        match self.random.below(3) {
            0 => self.set_gate(text, "replace", number),
            1 => self.set_meter(text, "replace", number),
            _ => {
                let priority = self.random.below(8);
                let priority = perhaps(&mut self.random, priority);
                self.set_filter(text, "replace", number, priority);
            }
        }
        text.with("{\"do\":\"frame\",\"handle\":", number);
        text.with(",\"now\":", self.now);
        text.with(",\"octets\":", 64 + self.random.below(1440));
        text.with(",\"priority\":", self.random.below(8));
        text.put(",\"s\":1,\"yellow\":false}\n");
    }

    // The look at this place behind an edit, which looks at another instance than the others behind it. The last one
    // may also be one at all instances of a kind, or at the journal.
    fn look(&mut self, text: &mut Text, place: u64) {
        let step = (self.instances / LOOKS).max(1);
        let number = self.edited.wrapping_add(place.wrapping_mul(step)) % self.instances.max(1);
        let kind = match self.random.below(3) {
            0 => "filter",
            1 => "gate",
            _ => "meter",
        };
        let chance = self.random.below(1000);
        if place == LOOKS - 1 && chance < 32 {
            text.put("{\"do\":\"list\",\"kind\":\"");
            text.put(kind);
            text.put("\",\"s\":1}\n");
        } else if place == LOOKS - 1 && chance < 96 {
            self.since(text);
        } else if chance < 352 {
            on_key(text, "show", kind, number, 1);
        } else if chance < 654 {
            on_key(text, "counters", kind, number, 1);
        } else {
            self.states(text, number);
        }
    }

    fn states(&mut self, text: &mut Text, number: u64) {
        let ahead = 10 + self.random.below(1_000_000_000_000);
        text.with("{\"at\":", self.now.wrapping_add(ahead));
        text.put(",");
        text.put("\"do\":\"states\",\"key\":\"gate ");
        text.number(number);
        text.put("\"");
        close_command(text, 1);
    }

    // A mirror asks for the last thousand entries and some hundred more.
    fn since(&mut self, text: &mut Text) {
        let behind = 1000 + self.random.below(800);
        text.with("{\"after\":", self.entries.saturating_sub(behind));
        text.put(",\"do\":\"since\"");
        close_command(text, 1);
    }
}

impl Job for Looks {
    fn next(&mut self, text: &mut Text, turn: u64) -> bool {
        if turn == 0 {
            hello(text);
        } else if turn <= self.instances {
            self.create(text, turn - 1);
        } else if turn - self.instances <= self.looks {
            let place = (turn - self.instances - 1) % LOOKS;
            if place == 0 {
                self.edited = self.random.below(self.instances);
                self.edit(text, self.edited);
            }
            self.look(text, place);
        } else {
            return false;
        }
        true
    }
}
