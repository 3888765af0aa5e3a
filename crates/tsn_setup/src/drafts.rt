//! Drafts: what a document gives, in the right shape, with numbers that may still be outside their ranges; and the
//! members of its tables in the plain spelling, as far as they were read, and which comes next by its name's letters.
ghost use Rattle.std.proofs.Common.{rules};
ghost use Rattle.tsn_setup.specs.PlainTrays.{port_trays, filter_trays, gate_trays, meter_trays, limits_trays, port_entry_trays, gate_entry_trays};

use crate::gathered::{PlainTable, tray};
use std::alloc::Global;
use toml_parser::text::{byte_at, first};
use tsn_records::drafts::{GateEntryDraft, PortEntryDraft, RecordDraft};
use tsn_types::lists::ControlList;

// The tray of the member whose name begins so, which is read into it; none begins with other letters.
macro_rules! by_letters {
    ($found:ident, $alloc:ident, $text:ident, $letters:expr; $($at:pat => $name:ident),*) => {
        match $letters {
            $($at => tray($alloc, $text, stringify!($name), &mut $found.$name),)*
            _ => None,
        }
    };
}

/// A record, whose kind is that of its table, and its identifier.
#[derive(Debug, Drop)]
pub struct TableDraft {
    pub id: u64,
    pub value: RecordDraft,
}

/// The limits that are given.
#[derive(Clone, Copy, Debug, Default, PartialEq, Eq)]
pub struct LimitsDraft {
    pub ports: Option<u64>,
    pub max_filters: Option<u64>,
    pub max_gates: Option<u64>,
    pub max_meters: Option<u64>,
    pub list_max: Option<u64>,
}

impl PlainTable for LimitsDraft {
    ghost trays = { limits_trays };

    ghost nesting = { 0 };

    #[tactic(auto, using(crate::proofs::Values::tray_filled))]
    fn member<'a>(&mut self, alloc: Global, text: &'a str) -> Option<&'a str> {
        by_letters!(self, alloc, text, (first(text), byte_at(text, 4));
            (b'p', _) => ports, (b'm', b'f') => max_filters, (b'm', b'g') => max_gates,
            (b'm', _) => max_meters, (b'l', _) => list_max)
    }

    ghost opens = { λ found h. Prim.search rules };
}

/// The members of a port's table, as far as they were read.
#[derive(Default, Drop)]
pub struct PlainPort {
    pub id: Option<u64>,
    pub gates: Option<u64>,
    pub list: Option<ControlList<PortEntryDraft>>,
    pub cycle: Option<u64>,
    pub extension: Option<u64>,
    pub base: Option<u64>,
}

impl PlainTable for PlainPort {
    ghost trays = { port_trays };

    ghost nesting = { 2 };

    #[tactic(auto, using(crate::proofs::Values::tray_filled))]
    fn member<'a>(&mut self, alloc: Global, text: &'a str) -> Option<&'a str> {
        by_letters!(self, alloc, text, first(text);
            b'i' => id, b'g' => gates, b'l' => list, b'c' => cycle, b'e' => extension,
            b'b' => base)
    }

    ghost opens = { λ found h. Prim.search rules };
}

/// The members of a filter's table, as far as they were read.
#[derive(Default, Drop)]
pub struct PlainFilter {
    pub id: Option<u64>,
    pub handle: Option<u64>,
    pub priority: Option<u64>,
    pub gate: Option<u64>,
    pub max_sdu: Option<u64>,
    pub meter: Option<u64>,
    pub oversize: Option<bool>,
}

impl PlainTable for PlainFilter {
    ghost trays = { filter_trays };

    ghost nesting = { 0 };

    #[tactic(auto, using(crate::proofs::Values::tray_filled))]
    fn member<'a>(&mut self, alloc: Global, text: &'a str) -> Option<&'a str> {
        by_letters!(self, alloc, text, (first(text), byte_at(text, 1));
            (b'i', _) => id, (b'h', _) => handle, (b'p', _) => priority, (b'g', _) => gate,
            (b'm', b'a') => max_sdu, (b'm', _) => meter, (b'o', _) => oversize)
    }

    ghost opens = { λ found h. Prim.search rules };
}

/// The members of a stream gate's table, as far as they were read.
#[derive(Default, Drop)]
pub struct PlainGate {
    pub id: Option<u64>,
    pub open: Option<bool>,
    pub ipv: Option<u64>,
    pub list: Option<ControlList<GateEntryDraft>>,
    pub cycle: Option<u64>,
    pub extension: Option<u64>,
    pub base: Option<u64>,
    pub invalid_rx: Option<bool>,
    pub octets_exceeded: Option<bool>,
}

impl PlainTable for PlainGate {
    ghost trays = { gate_trays };

    ghost nesting = { 2 };

    #[tactic(auto, using(crate::proofs::Values::tray_filled))]
    fn member<'a>(&mut self, alloc: Global, text: &'a str) -> Option<&'a str> {
        by_letters!(self, alloc, text, (first(text), byte_at(text, 1));
            (b'i', b'd') => id, (b'i', b'p') => ipv, (b'i', _) => invalid_rx, (b'o', b'p') => open,
            (b'o', _) => octets_exceeded, (b'l', _) => list, (b'c', _) => cycle,
            (b'e', _) => extension, (b'b', _) => base)
    }

    ghost opens = { λ found h. Prim.search rules };
}

/// The members of a meter's table, as far as they were read.
#[derive(Default, Drop)]
pub struct PlainMeter {
    pub id: Option<u64>,
    pub cir: Option<u64>,
    pub cbs: Option<u64>,
    pub eir: Option<u64>,
    pub ebs: Option<u64>,
    pub cf: Option<bool>,
    pub aware: Option<bool>,
    pub drop_yellow: Option<bool>,
    pub all_red: Option<bool>,
}

impl PlainTable for PlainMeter {
    ghost trays = { meter_trays };

    ghost nesting = { 0 };

    #[tactic(auto, using(crate::proofs::Values::tray_filled))]
    fn member<'a>(&mut self, alloc: Global, text: &'a str) -> Option<&'a str> {
        by_letters!(self, alloc, text, (first(text), byte_at(text, 1));
            (b'i', _) => id, (b'c', b'i') => cir, (b'c', b'b') => cbs, (b'c', _) => cf,
            (b'e', b'i') => eir, (b'e', _) => ebs, (b'a', b'w') => aware, (b'a', _) => all_red,
            (b'd', _) => drop_yellow)
    }

    ghost opens = { λ found h. Prim.search rules };
}

/// The members of a port's entry, as far as they were read.
#[derive(Default, Drop)]
pub struct PlainPortEntry {
    pub gates: Option<u64>,
    pub interval: Option<u64>,
}

impl PlainTable for PlainPortEntry {
    ghost trays = { port_entry_trays };

    ghost nesting = { 0 };

    #[tactic(auto, using(crate::proofs::Values::tray_filled))]
    fn member<'a>(&mut self, alloc: Global, text: &'a str) -> Option<&'a str> {
        by_letters!(self, alloc, text, first(text);
            b'g' => gates, b'i' => interval)
    }

    ghost opens = { λ found h. Prim.search rules };
}

/// The members of a stream gate's entry, as far as they were read.
#[derive(Default, Drop)]
pub struct PlainGateEntry {
    pub open: Option<bool>,
    pub ipv: Option<u64>,
    pub interval: Option<u64>,
    pub octets: Option<u64>,
}

impl PlainTable for PlainGateEntry {
    ghost trays = { gate_entry_trays };

    ghost nesting = { 0 };

    #[tactic(auto, using(crate::proofs::Values::tray_filled))]
    fn member<'a>(&mut self, alloc: Global, text: &'a str) -> Option<&'a str> {
        by_letters!(self, alloc, text, (first(text), byte_at(text, 1));
            (b'i', b'n') => interval, (b'i', _) => ipv, (b'o', b'c') => octets, (b'o', _) => open)
    }

    ghost opens = { λ found h. Prim.search rules };
}
