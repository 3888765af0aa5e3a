//! An undo of all that the oldest of many standing entries blocks, asked again and again while others edit.

use crate::numbers::Random;
use crate::records::{
    Filter, close_command, hello, open_record, perhaps, plain, put_filter, put_gate, put_port,
};
use crate::script::Job;
use crate::text::Text;

/// The lines of three sessions.
#[derive(Drop)]
pub struct Blocked {
    random: Random,
    standing: u64,
    asks: u64,
}

impl Blocked {
    /// So many questions, behind so many standing entries.
    pub fn new(random: Random, standing: u64, asks: u64) -> Blocked {
        Blocked {
            random,
            standing,
            asks,
        }
    }

    fn set_gate(&mut self, text: &mut Text, word: &str, number: u64, session: u64) {
        let cycle = 250_000 + self.random.below(1_000_000);
        open_record(text, word, "gate", number);
        put_gate(text, None, cycle, 0, b"");
        close_command(text, session);
    }

    fn set_filter(&mut self, text: &mut Text, number: u64, gate: u64, session: u64) {
        let priority = self.random.below(8);
        let wanted = Filter {
            gate,
            meter: None,
            handle: Some(number),
            priority: perhaps(&mut self.random, priority),
            oversize: false,
        };
        open_record(text, "create", "filter", number);
        put_filter(text, wanted);
        close_command(text, session);
    }

    fn set_port(&mut self, text: &mut Text, number: u64, session: u64) {
        let cycle = 1_000_000 + self.random.below(1_000_000);
        open_record(text, "replace", "port", number);
        put_port(text, 255, cycle, 0, b"");
        close_command(text, session);
    }

    // Session 3 has gate 1. Session 1 has gate 0, on which a filter of session 2 stands.
    fn begin(&mut self, text: &mut Text) {
        hello(text);
        hello(text);
        hello(text);
        self.set_gate(text, "create", 1, 3);
        self.set_gate(text, "create", 0, 1);
        self.set_filter(text, 0, 0, 2);
    }

    // An edit of session 1: a filter, or now and then its port.
    fn stand(&mut self, text: &mut Text, number: u64) {
        if self.random.below(8) == 0 {
            self.set_port(text, 1, 1);
        } else {
            self.set_filter(text, number, 1, 1);
        }
    }

    // Others edit, and so does session 1; then it asks.
    fn ask(&mut self, text: &mut Text) {
        self.set_port(text, 2, 3);
        self.set_port(text, 1, 1);
        plain(text, "undo_all", 1);
    }
}

impl Job for Blocked {
    fn next(&mut self, text: &mut Text, turn: u64) -> bool {
        if turn == 0 {
            self.begin(text);
        } else if turn <= self.standing {
            self.stand(text, turn);
        } else if turn - self.standing <= self.asks {
            self.ask(text);
        } else {
            return false;
        }
        true
    }
}
