//! Lines that no program of the service wrote: Python's `json.dumps`, with spaces, members in any order, the record
//! before its key and escapes; and lines that are refused 1 to 8, 12 and 14.

use crate::numbers::Random;
use crate::script::Job;
use crate::text::Text;

// How many of each kind of instance the standard setup has.
const INSTANCES: u64 = 16;

// The bytes of a line that is too long, in pieces of 100.
const LONG_PIECES: u64 = 1320;

/// The lines of many hands.
#[derive(Drop)]
pub struct Spellings {
    random: Random,
    lines: u64,
    now: u64,
}

// What a line begins with: its word, and what stands between this and the number of its key.
fn put_front(text: &mut Text, word: &str, between: &str, number: u64) {
    text.put("{\"do\": \"");
    text.put(word);
    text.with(between, number);
}

impl Spellings {
    /// So many rounds of lines.
    pub fn new(random: Random, lines: u64) -> Spellings {
        Spellings {
            random,
            lines,
            now: 0,
        }
    }

    // A gate's record as a program of another house writes it: in the order of the form.
    fn gate(&mut self, text: &mut Text) {
        text.put("{\"open\": true, \"ipv\": null, \"list\": [");
        for _ in 0..4 {
            text.with("[true, ", self.random.below(8));
            text.with(", ", 500 + self.random.below(250_000));
            text.put(", null], ");
        }
        text.with("[false, null, ", 500 + self.random.below(250_000));
        text.put(", null]], \"cycle\": ");
        text.number(1_000_000 + self.random.below(1_000_000));
        text.put(
            ", \"extension\": 0, \"base\": 0, \"invalid_rx\": false, \"octets_exceeded\": false}",
        );
    }

    // A meter's record, in the order of the alphabet.
    fn meter(&mut self, text: &mut Text) {
        text.put("{\"all_red\": false, \"aware\": false, \"cbs\": ");
        text.number(1500 + self.random.below(60_000));
        text.with(
            ", \"cf\": false, \"cir\": ",
            self.random.below(1_000_000_000),
        );
        text.put(", \"drop_yellow\": false, \"ebs\": 0, \"eir\": 0}");
    }

    // A filter's record, in the order of the form.
    fn filter(&mut self, text: &mut Text, gate: u64) {
        text.with("{\"handle\": ", self.random.below(100_000));
        text.with(", \"priority\": ", self.random.below(8));
        text.with(", \"gate\": ", gate);
        text.put(", \"max_sdu\": 1500, \"meter\": null, \"oversize\": false}");
    }

    // The word, the session, the key and the record, in this order.
    fn word_first(&mut self, text: &mut Text, word: &str, number: u64) {
        put_front(text, word, "\", \"s\": 1, \"key\": \"gate ", number);
        self.last_gate(text, "\", \"record\": ");
    }

    // A gate's record as the last member of a line.
    fn last_gate(&mut self, text: &mut Text, name: &str) {
        text.put(name);
        self.gate(text);
        text.put("}\n");
    }

    // Sorted by name, with spaces.
    fn sorted(&mut self, text: &mut Text, word: &str, number: u64) {
        put_front(text, word, "\", \"key\": \"meter ", number);
        text.put("\", \"record\": ");
        self.meter(text);
        text.put(", \"s\": 1}\n");
    }

    // The record ahead of its key.
    fn record_first(&mut self, text: &mut Text, word: &str, number: u64) {
        text.put("{\"record\": ");
        self.filter(text, number);
        text.put(", \"s\": 1, \"do\": \"");
        text.put(word);
        text.with("\", \"key\": \"filter ", number);
        text.put("\"}\n");
    }

    // A key with an escape.
    fn escaped(&mut self, text: &mut Text, word: &str, number: u64) {
        put_front(text, word, "\", \"key\": \"\\u0067ate ", number);
        self.last_gate(text, "\", \"s\": 1, \"record\": ");
    }

    fn undo(&mut self, text: &mut Text) {
        text.put("{\"s\": 1, \"do\": \"undo\"}\n");
    }

    fn frame(&mut self, text: &mut Text) {
        self.now = self.now.wrapping_add(self.random.below(400));
        text.with(
            "{\"do\": \"frame\", \"s\": 1, \"handle\": ",
            self.random.below(100_000),
        );
        text.with(", \"priority\": ", self.random.below(8));
        text.with(", \"octets\": ", 64 + self.random.below(1440));
        text.with(", \"yellow\": false, \"now\": ", self.now);
        text.put("}\n");
    }

    // Looks at what is there.
    fn looks(&mut self, text: &mut Text, number: u64) {
        text.with("{\"do\": \"show\", \"key\": \"gate ", number);
        text.put("\", \"s\": 1}\n");
        text.with("{\"s\": 1, \"do\": \"states\", \"key\": \"gate ", number);
        text.with(
            "\", \"at\": ",
            1_000_000_000 + self.random.below(1_000_000_000_000),
        );
        text.put("}\n");
        text.with("{\"key\": \"meter ", number);
        text.put("\", \"do\": \"counters\", \"s\": 1}\n");
    }

    // Refused: no JSON, another shape, out of range.
    fn unread(&mut self, text: &mut Text) {
        let number = self.random.below(100_000);
        match self.random.below(10) {
            0 => text.with("{\"do\": \"undo\", \"s\": 1 ", number),
            1 => text.with("[", number),
            2 => text.with("{\"do\": \"undo\", \"s\": 1.", number),
            3 => text.with("{\"s\": 1, \"do\": \"undone\", \"of\": ", number),
            4 => text.with(
                "{\"do\": \"undo\", \"x\": [1, 2, {\"y\": null}], \"s\": ",
                number,
            ),
            5 => text.with("{\"do\": \"undo\", \"s\": ", 70_000 + number),
            6 => text.with("{\"do\": \"show\", \"s\": 1, \"key\": \"gate 0", number),
            7 => text.with("{\"do\": \"frame\", \"s\": 1, \"handle\": ", number),
            8 => text.with("{\"do\": \"show\", \"s\": 1, \"key\": \"port ", 65 + number),
            _ => text.with("{\"key\": \"door 1\", \"do\": \"show\", \"s\": ", number),
        }
        match self.random.below(2) {
            0 => text.put("}\n"),
            _ => text.put("\"}\n"),
        }
    }

    // Refused by the bridge: no such session, absent, present, dangling, nothing to redo, not enabled.
    fn refused(&mut self, text: &mut Text, number: u64) {
        text.with("{\"do\": \"undo\", \"s\": ", 2 + self.random.below(60_000));
        text.put("}\n");
        text.put("{\"do\": \"remove\", \"s\": 1, \"key\": \"filter 15\"}\n");
        self.word_first(text, "create", 15);
        text.with(
            "{\"do\": \"apply\", \"s\": 1, \"key\": \"port 1\", \"now\": ",
            self.now,
        );
        text.put("}\n");
        self.record_first(text, "replace", number);
        text.put("{\"do\": \"create\", \"s\": 1, \"key\": \"filter 15\", \"record\": ");
        self.filter(text, 14);
        text.put("}\n");
    }

    fn too_long(&mut self, text: &mut Text) {
        for _ in 0..LONG_PIECES {
            text.put("                                                  ");
            text.put("                                                  ");
        }
        text.put("\n");
    }

    fn begin(&mut self, text: &mut Text) {
        text.put("{\"do\": \"hello\"}\n");
        self.word_first(text, "create", 15);
    }

    // A gate, a meter and a filter are made, looked at and taken back, with refusals between.
    fn round(&mut self, text: &mut Text) {
        let number = self.random.below(INSTANCES - 2);
        self.word_first(text, "create", number);
        self.sorted(text, "create", number);
        self.record_first(text, "create", number);
        text.put("{\"s\": 1, \"do\": \"redo\"}\n");
        self.escaped(text, "replace", number);
        self.looks(text, number);
        for _ in 0..4 {
            self.unread(text);
            self.frame(text);
        }
        self.word_first(text, "replace", number);
        self.sorted(text, "replace", number);
        for _ in 0..6 {
            self.undo(text);
        }
        self.refused(text, number);
    }
}

impl Job for Spellings {
    fn next(&mut self, text: &mut Text, turn: u64) -> bool {
        if turn == 0 {
            self.begin(text);
        } else if turn > self.lines {
            return false;
        } else if turn % 500 == 0 {
            self.too_long(text);
        } else {
            self.round(text);
        }
        true
    }
}
