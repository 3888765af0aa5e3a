//! Records of which each member has a value of its own, of few digits or many, and as often none where it may have
//! none. Half of the values are small enough to tell on frames.
ghost use Rattle.std.specs.Prelude.{◌≤◌};

use crate::hand::Hand;
use crate::numbers::Random;
use crate::records::perhaps;
use crate::text::Text;

// The greatest cycle, extension and rate, and the greatest instant.
const MOST: u64 = 1_000_000_000_000;

const LAST_INSTANT: u64 = 1 << 62;

// Above the greatest interval, burst and bound of octets.
const BEHIND_WORD: u64 = 1 << 32;

// Half of the values lie below these: in the first second, a millisecond, 65 us, 4 kB, and 16 Mbit/s.
const USUAL_BASE: u64 = 1 << 30;

const USUAL_CYCLE: u64 = 1 << 20;

const USUAL_INTERVAL: u64 = 1 << 16;

const USUAL_OCTETS: u64 = 1 << 12;

const USUAL_RATE: u64 = 1 << 24;

/// The entries of a gate control list, which are drawn when they are put.
#[derive(Clone, Copy)]
pub struct List {
    random: Random,
    entries: u64,
}

/// The record of a port.
#[derive(Clone, Copy)]
pub struct Port {
    base: u64,
    cycle: u64,
    extension: u64,
    gates: u64,
    list: List,
}

/// The record of a stream filter.
#[derive(Clone, Copy)]
pub struct Filter {
    gate: u64,
    handle: Option<u64>,
    max_sdu: Option<u64>,
    meter: Option<u64>,
    oversize: bool,
    priority: Option<u64>,
}

/// The record of a stream gate.
#[derive(Clone, Copy)]
pub struct Gate {
    base: u64,
    cycle: u64,
    extension: u64,
    invalid_rx: bool,
    ipv: Option<u64>,
    list: List,
    octets_exceeded: bool,
    open: bool,
}

/// The record of a flow meter.
#[derive(Clone, Copy)]
pub struct Meter {
    all_red: bool,
    aware: bool,
    cbs: u64,
    cf: bool,
    cir: u64,
    drop_yellow: bool,
    ebs: u64,
    eir: u64,
}

/// A record of some kind.
#[derive(Clone, Copy)]
pub enum Record {
    Port(Port),
    Filter(Filter),
    Gate(Gate),
    Meter(Meter),
}

// True three times in four.
fn mostly(random: &mut Random) -> bool {
    random.below(4) != 0
}

// A number below the end, half of the time below the usual one.
fn odd(random: &mut Random, usual: u64, end: u64) -> u64
    requires { usual ≤ end }
    ensures { result ≤ end }
{
    if random.below(2) == 0 {
        random.spread(usual)
    } else {
        random.spread(end)
    }
}

fn odd_list(random: &mut Random, entries: u64) -> List {
    List {
        random: random.other(),
        entries,
    }
}

/// A port whose list has so many entries.
pub fn odd_port(random: &mut Random, entries: u64) -> Record {
    Record::Port(Port {
        base: odd(random, USUAL_BASE, LAST_INSTANT + 1),
        cycle: 1 + odd(random, USUAL_CYCLE, MOST),
        extension: odd(random, USUAL_CYCLE, MOST + 1),
        gates: random.below(256),
        list: odd_list(random, entries),
    })
}

/// A filter for this handle and priority, or any, on this gate and meter.
pub fn odd_filter(
    random: &mut Random,
    handle: Option<u64>,
    priority: Option<u64>,
    gate: u64,
    meter: Option<u64>,
) -> Record {
    let max_sdu = 1 + random.spread(65_535);
    Record::Filter(Filter {
        gate,
        handle,
        max_sdu: perhaps(random, max_sdu),
        meter,
        oversize: random.below(2) == 0,
        priority,
    })
}

/// A gate whose list has so many entries.
pub fn odd_gate(random: &mut Random, entries: u64) -> Record {
    let ipv = random.below(8);
    Record::Gate(Gate {
        base: odd(random, USUAL_BASE, LAST_INSTANT + 1),
        cycle: 1 + odd(random, USUAL_CYCLE, MOST),
        extension: odd(random, USUAL_CYCLE, MOST + 1),
        invalid_rx: random.below(2) == 0,
        ipv: perhaps(random, ipv),
        list: odd_list(random, entries),
        octets_exceeded: random.below(2) == 0,
        open: mostly(random),
    })
}

/// A meter.
pub fn odd_meter(random: &mut Random) -> Record {
    Record::Meter(Meter {
        all_red: random.below(2) == 0,
        aware: random.below(2) == 0,
        cbs: odd(random, USUAL_OCTETS, BEHIND_WORD),
        cf: random.below(2) == 0,
        cir: odd(random, USUAL_RATE, MOST + 1),
        drop_yellow: random.below(2) == 0,
        ebs: odd(random, USUAL_OCTETS, BEHIND_WORD),
        eir: odd(random, USUAL_RATE, MOST + 1),
    })
}

fn put_port_entry(text: &mut Text, hand: Hand, random: &mut Random) {
    let gates = random.below(256);
    let interval = 1 + odd(random, USUAL_INTERVAL, BEHIND_WORD - 1);
    if hand == Hand::Setup {
        text.with("{gates = ", gates);
        text.with(", interval = ", interval);
        text.put("}");
    } else {
        text.with("[", gates);
        text.with(hand.comma(), interval);
        text.put("]");
    }
}

// A member of an entry of a setup, which is left out where it is none.
fn put_given(text: &mut Text, name: &str, number: Option<u64>) {
    if let Some(number) = number {
        text.with(name, number);
    }
}

fn put_gate_entry(text: &mut Text, hand: Hand, random: &mut Random) {
    let open = mostly(random);
    let ipv = random.below(8);
    let ipv = perhaps(random, ipv);
    let interval = 1 + odd(random, USUAL_INTERVAL, BEHIND_WORD - 1);
    let octets = odd(random, USUAL_OCTETS, BEHIND_WORD);
    let octets = perhaps(random, octets);
    if hand == Hand::Setup {
        text.with_flag("{open = ", open);
        put_given(text, ", ipv = ", ipv);
        text.with(", interval = ", interval);
        put_given(text, ", octets = ", octets);
        text.put("}");
    } else {
        text.with_flag("[", open);
        text.with_or_null(hand.comma(), ipv);
        text.with(hand.comma(), interval);
        text.with_or_null(hand.comma(), octets);
        text.put("]");
    }
}

fn put_list(text: &mut Text, hand: Hand, is_first: bool, list: &List, is_of_port: bool) {
    let mut random = list.random;
    hand.name(text, is_first, "list");
    text.put("[");
    for place in 0..list.entries {
        if place > 0 {
            text.put(hand.comma());
        }
        if is_of_port {
            put_port_entry(text, hand, &mut random);
        } else {
            put_gate_entry(text, hand, &mut random);
        }
    }
    text.put("]");
}

fn put_port(text: &mut Text, hand: Hand, first: u64, port: &Port) {
    for step in 0..5u64 {
        let is_first = step == 0;
        match first.wrapping_add(step) % 5 {
            0 => hand.number(text, is_first, "base", port.base),
            1 => hand.number(text, is_first, "cycle", port.cycle),
            2 => hand.number(text, is_first, "extension", port.extension),
            3 => hand.number(text, is_first, "gates", port.gates),
            _ => put_list(text, hand, is_first, &port.list, true),
        }
    }
}

fn put_filter(text: &mut Text, hand: Hand, first: u64, filter: &Filter) {
    for step in 0..6u64 {
        let is_first = step == 0;
        match first.wrapping_add(step) % 6 {
            0 => hand.number(text, is_first, "gate", filter.gate),
            1 => hand.number_or_null(text, is_first, "handle", filter.handle),
            2 => hand.number_or_null(text, is_first, "max_sdu", filter.max_sdu),
            3 => hand.number_or_null(text, is_first, "meter", filter.meter),
            4 => hand.flag(text, is_first, "oversize", filter.oversize),
            _ => hand.number_or_null(text, is_first, "priority", filter.priority),
        }
    }
}

fn put_gate(text: &mut Text, hand: Hand, first: u64, gate: &Gate) {
    for step in 0..8u64 {
        let is_first = step == 0;
        match first.wrapping_add(step) % 8 {
            0 => hand.number(text, is_first, "base", gate.base),
            1 => hand.number(text, is_first, "cycle", gate.cycle),
            2 => hand.number(text, is_first, "extension", gate.extension),
            3 => hand.flag(text, is_first, "invalid_rx", gate.invalid_rx),
            4 => hand.number_or_null(text, is_first, "ipv", gate.ipv),
            5 => put_list(text, hand, is_first, &gate.list, false),
            6 => hand.flag(text, is_first, "octets_exceeded", gate.octets_exceeded),
            _ => hand.flag(text, is_first, "open", gate.open),
        }
    }
}

fn put_meter(text: &mut Text, hand: Hand, first: u64, meter: &Meter) {
    for step in 0..8u64 {
        let is_first = step == 0;
        match first.wrapping_add(step) % 8 {
            0 => hand.flag(text, is_first, "all_red", meter.all_red),
            1 => hand.flag(text, is_first, "aware", meter.aware),
            2 => hand.number(text, is_first, "cbs", meter.cbs),
            3 => hand.flag(text, is_first, "cf", meter.cf),
            4 => hand.number(text, is_first, "cir", meter.cir),
            5 => hand.flag(text, is_first, "drop_yellow", meter.drop_yellow),
            6 => hand.number(text, is_first, "ebs", meter.ebs),
            _ => hand.number(text, is_first, "eir", meter.eir),
        }
    }
}

impl Record {
    /// The word of its kind.
    pub fn kind(&self) -> &'static str {
        match self {
            Record::Port(_) => "port",
            Record::Filter(_) => "filter",
            Record::Gate(_) => "gate",
            Record::Meter(_) => "meter",
        }
    }

    /// Puts its members, from the member of this place on in the order of the alphabet, and then those before it.
    pub fn put(&self, text: &mut Text, hand: Hand, first: u64) {
        match self {
            Record::Port(port) => put_port(text, hand, first, port),
            Record::Filter(filter) => put_filter(text, hand, first, filter),
            Record::Gate(gate) => put_gate(text, hand, first, gate),
            Record::Meter(meter) => put_meter(text, hand, first, meter),
        }
    }

    /// Puts it as a table of a setup.
    pub fn put_table(&self, text: &mut Text, number: u64, first: u64) {
        text.put("\n[[");
        text.put(self.kind());
        text.with("]]\nid = ", number);
        self.put(text, Hand::Setup, first);
        text.put("\n");
    }
}
