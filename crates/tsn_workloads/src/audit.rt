//! A bridge is audited. Its setup has records of odd values, and eight sessions edit it, by records in all spellings,
//! single and in batches, and take a part back, while lists are put in force and frames come. Behind the setup, behind
//! the edits and at the end all instances are shown, listed, counted and asked for their states, and at last the whole
//! journal is told. So a member of any record that is read, kept or put back wrong is seen in the replies.

use crate::hand::Hand;
use crate::numbers::Random;
use crate::odd_bridge::{PARTIES, Sizes};
use crate::odd_records::{Record, odd_gate, odd_meter};
use crate::records::{hello, plain};
use crate::script::Job;
use crate::text::Text;

// How many steps a stream goes through.
const STEPS: u64 = 9;

// What is done, in this order.
#[derive(Clone, Copy, PartialEq, Eq)]
enum Phase {
    Begin,
    AuditOfSetup,
    Edits,
    AuditOfEdits,
    TakeBack,
    AuditOfAll,
    Journal,
    End,
}

impl Phase {
    // The phase behind it.
    fn next(self) -> Phase {
        match self {
            Phase::Begin => Phase::AuditOfSetup,
            Phase::AuditOfSetup => Phase::Edits,
            Phase::Edits => Phase::AuditOfEdits,
            Phase::AuditOfEdits => Phase::TakeBack,
            Phase::TakeBack => Phase::AuditOfAll,
            Phase::AuditOfAll => Phase::Journal,
            _ => Phase::End,
        }
    }
}

// A stream that a session edits: the number that its instances have in the setup, a free number on which it makes
// others, one on which a colleague makes a filter of his own, and a port.
#[derive(Clone, Copy)]
struct Stream {
    session: u64,
    set_up: u64,
    made: u64,
    colleague: u64,
    guest: u64,
    port: u64,
}

/// The lines of those who edit, and of the one who audits.
#[derive(Drop)]
pub struct Audit {
    random: Random,
    sizes: Sizes,
    phase: Phase,
    turn: u64,
    now: u64,
}

impl Audit {
    /// At a bridge of these sizes.
    pub fn new(random: Random, sizes: Sizes) -> Audit {
        Audit {
            random,
            sizes,
            phase: Phase::Begin,
            turn: 0,
            now: 0,
        }
    }

    fn hand(&mut self) -> Hand {
        match self.random.below(2) {
            0 => Hand::Compact,
            _ => Hand::Spaced,
        }
    }

    // ---- commands

    fn on_key(&mut self, text: &mut Text, word: &str, kind: &str, number: u64, session: u64) {
        let hand = self.hand();
        hand.on_key(text, word, kind, number, session);
    }

    fn show(&mut self, text: &mut Text, kind: &str, number: u64, session: u64) {
        self.on_key(text, "show", kind, number, session);
    }

    fn act(&mut self, text: &mut Text, word: &str, kind: &str, number: u64, session: u64) {
        self.now = self.now.wrapping_add(1 + self.random.below(100_000));
        let hand = self.hand();
        text.put("{");
        hand.word(text, true, "do", word);
        hand.key(text, false, kind, number);
        hand.number(text, false, "now", self.now);
        hand.number(text, false, "s", session);
        text.put("}\n");
    }

    // A frame that the filter of this number may match.
    fn frame(&mut self, text: &mut Text, number: u64, session: u64) {
        self.now = self.now.wrapping_add(1 + self.random.below(100_000));
        let hand = self.hand();
        let handle = self.sizes.handle(&mut self.random, number);
        text.put("{");
        hand.word(text, true, "do", "frame");
        hand.number(text, false, "handle", handle);
        hand.number(text, false, "now", self.now);
        hand.number(text, false, "octets", 64 + self.random.below(1440));
        hand.number(text, false, "priority", self.random.below(8));
        hand.number(text, false, "s", session);
        hand.flag(text, false, "yellow", self.random.below(8) == 0);
        text.put("}\n");
    }

    fn states(&mut self, text: &mut Text, kind: &str, number: u64, session: u64) {
        let hand = self.hand();
        let ahead = self.random.spread(1_000_000_000_000);
        text.put("{");
        hand.number(text, true, "at", self.now.wrapping_add(ahead));
        hand.word(text, false, "do", "states");
        hand.key(text, false, kind, number);
        hand.number(text, false, "s", session);
        text.put("}\n");
    }

    // An edit with a record, which in the service's compact spelling has its members in order. The record may come
    // ahead of its key. In a batch an edit has no session.
    fn put_edit(
        &mut self,
        text: &mut Text,
        hand: Hand,
        word: &str,
        number: u64,
        record: &Record,
        session: Option<u64>,
    ) {
        let first = if hand == Hand::Compact {
            0
        } else {
            self.random.below(8)
        };
        let comes_first = self.random.below(3) == 0;
        text.put("{");
        if comes_first {
            hand.name(text, true, "record");
            text.put("{");
            record.put(text, hand, first);
            text.put("}");
        }
        hand.word(text, !comes_first, "do", word);
        hand.key(text, false, record.kind(), number);
        if !comes_first {
            hand.name(text, false, "record");
            text.put("{");
            record.put(text, hand, first);
            text.put("}");
        }
        if let Some(session) = session {
            hand.number(text, false, "s", session);
        }
        text.put("}");
    }

    // An edit, and a look at what it left.
    fn set(&mut self, text: &mut Text, word: &str, number: u64, record: &Record, session: u64) {
        let hand = self.hand();
        self.put_edit(text, hand, word, number, record, Some(session));
        text.put("\n");
        self.show(text, record.kind(), number, session);
    }

    // Edits in one batch, and a look at each.
    fn set_all(&mut self, text: &mut Text, word: &str, edits: &[(u64, Record)], session: u64) {
        let hand = self.hand();
        text.put("{");
        hand.word(text, true, "do", "batch");
        hand.name(text, false, "edits");
        text.put("[");
        let mut is_first = true;
        for (number, record) in edits {
            if !is_first {
                text.put(hand.comma());
            }
            is_first = false;
            self.put_edit(text, hand, word, *number, record, None);
        }
        text.put("]");
        hand.number(text, false, "s", session);
        text.put("}\n");
        for (number, record) in edits {
            self.show(text, record.kind(), *number, session);
        }
    }

    // The filter, the gate and the meter of this number go in one batch.
    fn remove_three(&mut self, text: &mut Text, number: u64, session: u64) {
        let hand = self.hand();
        text.put("{");
        hand.word(text, true, "do", "batch");
        hand.name(text, false, "edits");
        text.put("[");
        for kind in ["meter", "filter", "gate"] {
            if kind != "meter" {
                text.put(hand.comma());
            }
            text.put("{");
            hand.word(text, true, "do", "remove");
            hand.key(text, false, kind, number);
            text.put("}");
        }
        text.put("]");
        hand.number(text, false, "s", session);
        text.put("}\n");
    }

    // ---- records

    fn gate(&mut self) -> Record {
        self.sizes.gate(&mut self.random)
    }

    fn meter(&mut self) -> Record {
        odd_meter(&mut self.random)
    }

    fn port(&mut self) -> Record {
        self.sizes.port(&mut self.random)
    }

    // A filter on this gate and this meter, or on no meter.
    fn filter(&mut self, number: u64, gate: u64, meter: u64) -> Record {
        let meter = if self.random.below(4) == 0 {
            None
        } else {
            Some(meter)
        };
        self.sizes.filter(&mut self.random, number, gate, meter)
    }

    // A filter on instances of the session's that the setup has.
    fn own_filter(&mut self, stream: &Stream) -> Record {
        let party = stream.session.saturating_sub(1);
        let gate = self.sizes.own(&mut self.random, party);
        let meter = self.sizes.own(&mut self.random, party);
        self.filter(stream.set_up, gate, meter)
    }

    // ---- looks

    fn three(&mut self, text: &mut Text, number: u64, session: u64) {
        self.show(text, "filter", number, session);
        self.show(text, "gate", number, session);
        self.show(text, "meter", number, session);
    }

    fn lists(&mut self, text: &mut Text) {
        for kind in ["port", "filter", "gate", "meter"] {
            let hand = self.hand();
            text.put("{");
            hand.word(text, true, "do", "list");
            hand.word(text, false, "kind", kind);
            hand.number(text, false, "s", 1);
            text.put("}\n");
        }
    }

    fn audit_port(&mut self, text: &mut Text, number: u64) {
        self.show(text, "port", number, 1);
        self.on_key(text, "counters", "port", number, 1);
        self.states(text, "port", number, 1);
    }

    fn audit_instances(&mut self, text: &mut Text, number: u64) {
        for kind in ["filter", "gate", "meter"] {
            self.show(text, kind, number, 1);
            self.on_key(text, "counters", kind, number, 1);
        }
        self.states(text, "gate", number, 1);
    }

    // All ports, and then all instances from this number on.
    fn audit(&mut self, text: &mut Text, turn: u64, first: u64) {
        if turn == 0 {
            self.lists(text);
        }
        if turn < self.sizes.ports {
            self.audit_port(text, turn + 1);
        } else {
            let place = turn - self.sizes.ports;
            self.audit_instances(text, first.wrapping_add(place));
        }
    }

    // ---- edits

    // Hellos, and edits at the limits, and just above them.
    fn begin(&mut self, text: &mut Text) {
        for _ in 0..PARTIES {
            hello(text);
        }
        let sizes = self.sizes;
        let last_gate = sizes.gates.saturating_sub(1);
        let last_meter = sizes.meters.saturating_sub(1);
        let last_filter = sizes.filters.saturating_sub(1);
        for number in [last_gate, sizes.gates] {
            let record = self.gate();
            self.set(text, "create", number, &record, PARTIES);
        }
        for number in [last_meter, sizes.meters] {
            let record = self.meter();
            self.set(text, "create", number, &record, PARTIES);
        }
        for number in [last_filter, sizes.filters] {
            let record = self.filter(number, last_gate, last_meter);
            self.set(text, "create", number, &record, PARTIES);
        }
        for entries in [sizes.entries, sizes.entries.wrapping_add(1)] {
            let record = odd_gate(&mut self.random, entries);
            self.set(text, "replace", last_gate, &record, PARTIES);
        }
        let record = self.port();
        self.set(
            text,
            "replace",
            sizes.ports.wrapping_add(1),
            &record,
            PARTIES,
        );
    }

    // Each record of the setup is replaced.
    fn replace(&mut self, text: &mut Text, stream: &Stream) {
        let record = self.gate();
        self.set(text, "replace", stream.set_up, &record, stream.session);
        let record = self.meter();
        self.set(text, "replace", stream.set_up, &record, stream.session);
        let record = self.own_filter(stream);
        self.set(text, "replace", stream.set_up, &record, stream.session);
    }

    // A port's list is set and put in force.
    fn set_port(&mut self, text: &mut Text, stream: &Stream) {
        let record = self.port();
        self.set(text, "replace", stream.port, &record, stream.session);
        self.act(text, "enable", "port", stream.port, stream.session);
        self.act(text, "apply", "port", stream.port, stream.session);
        self.states(text, "port", stream.port, stream.session);
    }

    // A gate, a meter and a filter on them, in one batch; and the gate's list is put in force.
    fn create(&mut self, text: &mut Text, stream: &Stream) {
        let filter = self.filter(stream.made, stream.made, stream.made);
        let edits = [
            (stream.made, filter),
            (stream.made, self.gate()),
            (stream.made, self.meter()),
        ];
        self.set_all(text, "create", &edits, stream.session);
        self.act(text, "enable", "gate", stream.made, stream.session);
        self.act(text, "apply", "gate", stream.made, stream.session);
    }

    // What the last edit made is taken back, and brought again.
    fn undo_and_redo(&mut self, text: &mut Text, stream: &Stream) {
        plain(text, "undo", stream.session);
        self.three(text, stream.made, stream.session);
        plain(text, "redo", stream.session);
        self.three(text, stream.made, stream.session);
    }

    // A list of the setup's gate is put in force, or now and then taken out of it, and counters are read behind frames.
    fn put_in_force(&mut self, text: &mut Text, stream: &Stream) {
        self.act(text, "enable", "gate", stream.set_up, stream.session);
        self.act(text, "apply", "gate", stream.set_up, stream.session);
        if self.random.below(8) == 0 {
            self.act(text, "disable", "gate", stream.set_up, stream.session);
        }
        for kind in ["filter", "gate", "meter"] {
            self.frame(text, stream.set_up, stream.session);
            self.on_key(text, "counters", kind, stream.set_up, stream.session);
        }
    }

    // A colleague's filter stands in the way of a removal and of an undo, and a gate of his in the way of a redo.
    fn collide(&mut self, text: &mut Text, stream: &Stream) {
        let record = self.filter(stream.guest, stream.made, stream.made);
        self.set(text, "create", stream.guest, &record, stream.colleague);
        self.on_key(text, "remove", "gate", stream.made, stream.session);
        plain(text, "undo", stream.session);
        plain(text, "undo", stream.colleague);
        plain(text, "undo", stream.session);
        let record = self.gate();
        self.set(text, "create", stream.made, &record, stream.colleague);
        plain(text, "redo", stream.session);
        plain(text, "undo", stream.colleague);
        plain(text, "redo", stream.session);
        self.three(text, stream.made, stream.session);
    }

    // All that was replaced is replaced in one batch, and its lists are put in force. Half of the time that is taken
    // back.
    fn replace_all(&mut self, text: &mut Text, stream: &Stream) {
        let edits = [
            (stream.set_up, self.meter()),
            (stream.port, self.port()),
            (stream.set_up, self.own_filter(stream)),
            (stream.set_up, self.gate()),
        ];
        self.set_all(text, "replace", &edits, stream.session);
        self.act(text, "apply", "gate", stream.set_up, stream.session);
        self.act(text, "apply", "port", stream.port, stream.session);
        if self.random.below(2) == 0 {
            plain(text, "undo", stream.session);
            self.three(text, stream.set_up, stream.session);
            self.show(text, "port", stream.port, stream.session);
        }
    }

    // What was made goes, first its filter alone, then all in one batch; most of it is taken back.
    fn remove(&mut self, text: &mut Text, stream: &Stream) {
        self.on_key(text, "remove", "filter", stream.made, stream.session);
        plain(text, "undo", stream.session);
        self.show(text, "filter", stream.made, stream.session);
        self.remove_three(text, stream.made, stream.session);
        self.three(text, stream.made, stream.session);
        if self.random.below(3) != 0 {
            plain(text, "undo", stream.session);
            self.three(text, stream.made, stream.session);
        }
    }

    // A filter of the setup goes, and mostly comes again.
    fn remove_filter(&mut self, text: &mut Text, stream: &Stream) {
        self.on_key(text, "remove", "filter", stream.set_up, stream.session);
        self.show(text, "filter", stream.set_up, stream.session);
        if self.random.below(4) != 0 {
            plain(text, "undo", stream.session);
            self.show(text, "filter", stream.set_up, stream.session);
        }
    }

    // The stream that a session edits at this turn. Each session has every eighth number, and ports of its own.
    fn stream(&self, turn: u64) -> Stream {
        let party = turn % PARTIES;
        let story = turn / (PARTIES * STEPS);
        let made = story * PARTIES + party;
        Stream {
            session: party + 1,
            set_up: self.sizes.instances.wrapping_add(made),
            made,
            colleague: (party + 1) % PARTIES + 1,
            guest: self.sizes.instances.wrapping_mul(2).wrapping_add(made),
            port: story % 7 * PARTIES + party + 1,
        }
    }

    // The sessions go through their streams, step by step, with frames ahead of each.
    fn edit(&mut self, text: &mut Text, turn: u64) {
        let stream = self.stream(turn);
        self.frame(text, stream.set_up, stream.session);
        self.frame(text, stream.made, stream.session);
        match turn / PARTIES % STEPS {
            0 => self.replace(text, &stream),
            1 => self.set_port(text, &stream),
            2 => self.create(text, &stream),
            3 => self.undo_and_redo(text, &stream),
            4 => self.put_in_force(text, &stream),
            5 => self.collide(text, &stream),
            6 => self.replace_all(text, &stream),
            7 => self.remove(text, &stream),
            _ => self.remove_filter(text, &stream),
        }
        if turn == self.turns() / 2 {
            self.settle(text, turn);
        }
    }

    fn settle(&mut self, text: &mut Text, upto: u64) {
        let hand = self.hand();
        text.put("{");
        hand.word(text, true, "do", "settle");
        hand.number(text, false, "s", PARTIES);
        hand.number(text, false, "upto", upto);
        text.put("}\n");
    }

    // A step back, or now and then forth. At last two sessions take back all that they may, and one brings a part
    // again.
    fn take_back(&mut self, text: &mut Text, turn: u64) {
        let session = 1 + self.random.below(PARTIES);
        let number = self.random.below(self.sizes.instances.wrapping_mul(2));
        self.frame(text, number, session);
        match self.random.below(4) {
            0 => plain(text, "redo", session),
            _ => plain(text, "undo", session),
        }
        if turn.wrapping_add(1) == self.turns() {
            plain(text, "undo_all", 1);
            plain(text, "undo_all", 2);
            for number in 0..self.sizes.instances / PARTIES {
                self.frame(text, number, 2);
                plain(text, "redo", 2);
            }
        }
    }

    fn journal(&mut self, text: &mut Text) {
        let hand = self.hand();
        text.put("{");
        hand.number(text, true, "after", 0);
        hand.word(text, false, "do", "since");
        hand.number(text, false, "s", 1);
        text.put("}\n");
    }

    // How many turns the phase has.
    fn turns(&self) -> u64 {
        let instances = self.sizes.instances;
        match self.phase {
            Phase::AuditOfSetup => self.sizes.ports.wrapping_add(instances),
            Phase::Edits => (instances / PARTIES * PARTIES).wrapping_mul(STEPS),
            Phase::AuditOfEdits | Phase::AuditOfAll => {
                self.sizes.ports.wrapping_add(instances.wrapping_mul(2))
            }
            Phase::TakeBack => instances.wrapping_mul(4),
            _ => 1,
        }
    }
}

impl Job for Audit {
    fn next(&mut self, text: &mut Text, _turn: u64) -> bool {
        if self.turn >= self.turns() {
            self.phase = self.phase.next();
            self.turn = 0;
        }
        let turn = self.turn;
        self.turn = self.turn.wrapping_add(1);
        match self.phase {
            Phase::Begin => self.begin(text),
            Phase::AuditOfSetup => self.audit(text, turn, self.sizes.instances),
            Phase::Edits => self.edit(text, turn),
            Phase::TakeBack => self.take_back(text, turn),
            Phase::AuditOfEdits | Phase::AuditOfAll => self.audit(text, turn, 0),
            Phase::Journal => self.journal(text),
            Phase::End => return false,
        }
        true
    }
}
