//! Traffic is tried on a plan: frames in time order through stream filters, gates whose lists run and meters that mark;
//! the counters are read at the end.

use crate::numbers::Random;
use crate::records::{
    Filter, act, close_command, hello, on_key, open_record, put_filter, put_gate, put_meter,
};
use crate::script::Job;
use crate::text::Text;

// How many gates there are.
const GATES: u64 = 8;

// How many filters at the end match any handle.
const ANY_HANDLE: u64 = 8;

/// The lines of a trial.
#[derive(Drop)]
pub struct Traffic {
    random: Random,
    filters: u64,
    frames: u64,
    now: u64,
}

impl Traffic {
    /// So many frames through so many filters.
    pub fn new(random: Random, filters: u64, frames: u64) -> Traffic {
        Traffic {
            random,
            filters,
            frames,
            now: 0,
        }
    }

    fn begin(&mut self, text: &mut Text) {
        hello(text);
        for number in 0..GATES {
            open_record(text, "create", "gate", number);
            let cycle = 1_000_000 + self.random.below(1_000_000);
            let list = b"[true,5,700000,null],[false,null,100000,null],[true,null,200000,90000]";
            put_gate(text, None, cycle, 0, list);
            close_command(text, 1);
            act(text, "enable", "gate", number, 0, 1);
            act(text, "apply", "gate", number, 0, 1);
        }
        for number in 0..self.meters() {
            let rate = 100_000_000 + self.random.below(1_000_000_000);
            open_record(text, "create", "meter", number);
            put_meter(text, rate, 20_000, true);
            close_command(text, 1);
        }
    }

    fn meters(&self) -> u64 {
        self.filters.min(256)
    }

    fn add_filter(&mut self, text: &mut Text, number: u64) {
        let is_any = number.saturating_add(ANY_HANDLE) >= self.filters;
        let wanted = Filter {
            gate: number % GATES,
            meter: Some(number % self.meters().max(1)),
            handle: if is_any { None } else { Some(number) },
            priority: if is_any || number % 2 == 1 {
                Some(number % 8)
            } else {
                None
            },
            oversize: number % 4 == 0,
        };
        open_record(text, "create", "filter", number);
        put_filter(text, wanted);
        close_command(text, 1);
    }

    fn frame(&mut self, text: &mut Text) {
        self.now = self.now.wrapping_add(self.random.below(2000));
        text.with(
            "{\"do\":\"frame\",\"handle\":",
            self.random.below(self.filters),
        );
        text.with(",\"now\":", self.now);
        text.with(",\"octets\":", 64 + self.random.below(1440));
        text.with(",\"priority\":", self.random.below(8));
        text.put(",\"s\":1");
        text.with_flag(",\"yellow\":", self.random.below(8) == 0);
        text.put("}\n");
    }

    // The counters of the instance of each kind of this number.
    fn counters(&mut self, text: &mut Text, number: u64) {
        on_key(text, "counters", "filter", number, 1);
        if number < self.meters() {
            on_key(text, "counters", "meter", number, 1);
        }
        if number < GATES {
            on_key(text, "counters", "gate", number, 1);
        }
    }
}

impl Job for Traffic {
    fn next(&mut self, text: &mut Text, turn: u64) -> bool {
        if turn == 0 {
            self.begin(text);
        } else if turn <= self.filters {
            self.add_filter(text, turn - 1);
        } else if turn - self.filters <= self.frames {
            self.frame(text);
        } else if turn - self.filters - self.frames <= self.filters {
            self.counters(text, turn - self.filters - self.frames - 1);
        } else {
            return false;
        }
        true
    }
}
