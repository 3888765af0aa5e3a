//! Colleagues try things and take them back: 64 sessions edit in turn, each instances of its own that refer to its own
//! gates and meters and to shared ones, with undo, redo and undo of all, refused ones too, and a settle now and then.
ghost use Rattle.std.specs.Prelude.{◌≤◌};

use crate::numbers::Random;
use crate::records::{
    Filter, close_command, hello, on_key, open_record, perhaps, plain, put_filter, put_gate,
    put_meter, put_port,
};
use crate::script::Job;
use crate::text::Text;
use std::alloc::Global;

// The sessions that edit; one more has the shared instances.
const SESSIONS: u64 = 64;

// The session of the shared instances, which takes nothing back.
const OWNER: u64 = 65;

// The first number of the shared instances.
const SHARED: u64 = 64_500;

// How many gates and meters each session edits, and how many filters.
const OWN: u64 = 8;

const FILTERS: u64 = 900;

/// What is known of a session: how many edits it has undone in a row, and how many filters it has created and removed.
#[derive(Clone, Copy)]
struct Known {
    undone: u64,
    created: u64,
    removed: u64,
}

/// The lines of all sessions.
#[derive(Drop)]
pub struct Colleagues {
    random: Random,
    known: Vec<Known>,
    turns: u64,
}

impl Colleagues {
    /// So many commands after those that begin.
    pub fn new(alloc: Global, random: Random, turns: u64) -> Colleagues {
        let mut known = Vec::new(alloc);
        for _ in 0..SESSIONS {
            let none = Known {
                undone: 0,
                created: 0,
                removed: 0,
            };
            if known.push(none).is_err() {
                break;
            }
        }
        Colleagues {
            random,
            known,
            turns,
        }
    }

    // A gate, a meter and a filter that all may refer to.
    fn shared(&mut self, text: &mut Text, number: u64) {
        self.set_gate(text, "create", number, OWNER);
        self.set_meter(text, "create", number, OWNER);
        self.set_filter(text, "create", number, number, Some(number), OWNER);
    }

    // The gate and the meter of this number of a session.
    fn own(&mut self, text: &mut Text, place: u64) {
        let number = first_of(place / OWN + 1) + place % OWN;
        self.set_gate(text, "create", number, OWNER);
        self.set_meter(text, "create", number, OWNER);
    }

    fn set_gate(&mut self, text: &mut Text, word: &str, number: u64, session: u64) {
        let ipv = self.random.below(8);
        let ipv = perhaps(&mut self.random, ipv);
        let cycle = 250_000 + self.random.below(1_000_000);
        open_record(text, word, "gate", number);
        put_gate(
            text,
            ipv,
            cycle,
            0,
            b"[true,5,100000,null],[false,null,150000,null]",
        );
        close_command(text, session);
    }

    fn set_meter(&mut self, text: &mut Text, word: &str, number: u64, session: u64) {
        let rate = 1_000_000 + self.random.below(1_000_000_000);
        open_record(text, word, "meter", number);
        put_meter(text, rate, 1500 + self.random.below(60_000), false);
        close_command(text, session);
    }

    fn set_filter(
        &mut self,
        text: &mut Text,
        word: &str,
        number: u64,
        gate: u64,
        meter: Option<u64>,
        session: u64,
    ) {
        let priority = self.random.below(8);
        let wanted = Filter {
            gate,
            meter,
            handle: Some(number),
            priority: perhaps(&mut self.random, priority),
            oversize: self.random.below(2) == 0,
        };
        open_record(text, word, "filter", number);
        put_filter(text, wanted);
        close_command(text, session);
    }

    // A number of the session's own gates and meters, or now and then of the shared ones.
    fn referred(&mut self, session: u64) -> u64 {
        if self.random.below(8) == 0 {
            SHARED + self.random.below(64)
        } else {
            first_of(session) + self.random.below(OWN)
        }
    }

    // An edit of a filter.
    fn edit_filter(&mut self, text: &mut Text, session: u64, known: &mut Known) {
        let gate = self.referred(session);
        let meter = self.referred(session);
        let meter = if self.random.below(10) < 7 {
            Some(meter)
        } else {
            None
        };
        let chance = self.random.below(100);
        if chance < 50 {
            let number = filter_of(session, known.created);
            known.created = known.created.wrapping_add(1);
            self.set_filter(text, "create", number, gate, meter, session);
        } else if chance < 80 {
            let standing = known.created.saturating_sub(known.removed);
            let number = known.removed.wrapping_add(self.random.below(standing));
            let number = filter_of(session, number);
            self.set_filter(text, "replace", number, gate, meter, session);
        } else {
            let number = filter_of(session, known.removed);
            known.removed = known.removed.wrapping_add(1).min(known.created);
            on_key(text, "remove", "filter", number, session);
        }
    }

    // An edit of something else.
    fn edit_other(&mut self, text: &mut Text, session: u64) {
        let chance = self.random.below(100);
        let number = first_of(session) + self.random.below(OWN);
        if chance < 40 {
            self.set_gate(text, "replace", number, session);
        } else if chance < 70 {
            self.set_meter(text, "replace", number, session);
        } else if chance < 71 {
            let shared = SHARED + self.random.below(64);
            self.set_meter(text, "replace", shared, session);
        } else if chance < 80 {
            self.both(text, number, session);
        } else {
            let cycle = 1_000_000 + self.random.below(1_000_000);
            open_record(text, "replace", "port", session);
            put_port(text, 255, cycle, 0, b"[128,200000],[127,300000]");
            close_command(text, session);
        }
    }

    // A gate and a meter in one batch.
    fn both(&mut self, text: &mut Text, number: u64, session: u64) {
        let cycle = 250_000 + self.random.below(1_000_000);
        let rate = 1_000_000 + self.random.below(1_000_000_000);
        text.put("{\"do\":\"batch\",\"edits\":[");
        open_record(text, "replace", "gate", number);
        put_gate(text, None, cycle, 0, b"");
        text.put("},");
        open_record(text, "replace", "meter", number);
        put_meter(text, rate, 3000, true);
        text.put("}]");
        close_command(text, session);
    }

    // A step of a session, with what is known of it after it.
    fn step(&mut self, text: &mut Text, session: u64, known: Known) -> Known {
        let mut known = known;
        let chance = self.random.below(1000);
        if known.undone > 0 && chance < 500 {
            known.undone -= 1;
            plain(text, "redo", session);
        } else if chance < 180 {
            known.undone = known.undone.wrapping_add(1);
            plain(text, "undo", session);
        } else if chance < 182 {
            known.undone = 0;
            plain(text, "undo_all", session);
        } else if chance < 190 {
            let shared = SHARED + self.random.below(64);
            on_key(text, "remove", "gate", shared, session);
        } else if chance < 400 {
            known.undone = 0;
            self.edit_other(text, session);
        } else {
            known.undone = 0;
            self.edit_filter(text, session, &mut known);
        }
        known
    }

    // A step of some session.
    fn any_step(&mut self, text: &mut Text) {
        let place = self.random.below(SESSIONS);
        let none = Known {
            undone: 0,
            created: 0,
            removed: 0,
        };
        let known = self.known.get(place as usize).copied().unwrap_or(none);
        let known = self.step(text, place + 1, known);
        if let Some(slot) = self.known.get_mut(place as usize) {
            *slot = known;
        }
    }

    // What was made some time ago is settled.
    fn settle(&mut self, text: &mut Text, turn: u64) {
        text.put("{\"do\":\"settle\"");
        text.with(",\"s\":", OWNER);
        text.with(",\"upto\":", turn / 2 + self.random.below(100));
        text.put("}\n");
    }
}

// The first number of a session's own gates, meters and filters.
fn first_of(session: u64) -> u64
    ensures { result ≤ 64000 }
{
    session.saturating_sub(1).min(SESSIONS) * 1000
}

// The number of a filter that a session creates as this one in turn; numbers come round.
fn filter_of(session: u64, created: u64) -> u64 {
    first_of(session) + OWN + created % FILTERS
}

impl Job for Colleagues {
    fn next(&mut self, text: &mut Text, turn: u64) -> bool {
        if turn < OWNER {
            hello(text);
        } else if turn < 2 * OWNER {
            self.shared(text, SHARED + (turn - OWNER));
        } else if turn < 2 * OWNER + SESSIONS * OWN {
            self.own(text, turn - 2 * OWNER);
        } else if turn > self.turns {
            return false;
        } else if turn % 4000 == 0 {
            self.settle(text, turn);
        } else {
            self.any_step(text);
        }
        true
    }
}
