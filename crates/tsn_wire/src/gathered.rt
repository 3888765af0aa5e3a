//! The members of each object, as far as they were read, and which comes next by the letters of its name.
ghost use Rattle.tsn_wire.specs.Lines.{edit_rows, line_rows};
ghost use Rattle.tsn_wire.specs.Rows.{port_rows, filter_rows, gate_rows, meter_rows};

use crate::any_edits::edits_tray;
use crate::cursor::Cursor;
use crate::drafts::BatchDraft;
use crate::guess::record_tray;
use crate::members::{Gathered, tray};
use crate::words::Word;
use std::alloc::Global;
use tsn_records::drafts::{GateEntryDraft, KeyDraft, PortEntryDraft, RecordDraft};
use tsn_types::keys::Kind;
use tsn_types::lists::ControlList;

// The tray of the member whose name begins so, which is read into it; none begins with other letters.
macro_rules! by_letters {
    ($found:ident, $alloc:ident, $text:ident; $($at:pat => $name:ident),*) => {
        match $text.letters() {
            $($at => tray($alloc, $text, stringify!($name), &mut $found.$name),)*
            _ => None,
        }
    };
}

/// The members of a port's record, as far as they were read.
#[derive(Default, Drop)]
pub struct PortMembers {
    pub base: Option<u64>,
    pub cycle: Option<u64>,
    pub extension: Option<u64>,
    pub gates: Option<u64>,
    pub list: Option<ControlList<PortEntryDraft>>,
}

impl Gathered for PortMembers {
    ghost rows = { port_rows };

    ghost nesting = { 2 };

    #[tactic(auto, using(crate::proofs::Gathering::row_filled))]
    fn member(&mut self, alloc: Global, text: &mut Cursor<'_>) -> Option<()> {
        by_letters!(self, alloc, text;
            (b'b', _) => base, (b'c', _) => cycle, (b'e', _) => extension, (b'g', _) => gates,
            (b'l', _) => list)
    }
}

/// The members of a filter's record, as far as they were read.
#[derive(Default, Drop)]
pub struct FilterMembers {
    pub gate: Option<u64>,
    pub handle: Option<Option<u64>>,
    pub max_sdu: Option<Option<u64>>,
    pub meter: Option<Option<u64>>,
    pub oversize: Option<bool>,
    pub priority: Option<Option<u64>>,
}

impl Gathered for FilterMembers {
    ghost rows = { filter_rows };

    ghost nesting = { 2 };

    #[tactic(auto, using(crate::proofs::Gathering::row_filled))]
    fn member(&mut self, alloc: Global, text: &mut Cursor<'_>) -> Option<()> {
        by_letters!(self, alloc, text;
            (b'g', _) => gate, (b'h', _) => handle, (b'm', b'a') => max_sdu, (b'm', _) => meter,
            (b'o', _) => oversize, (b'p', _) => priority)
    }
}

/// The members of a gate's record, as far as they were read.
#[derive(Default, Drop)]
pub struct GateMembers {
    pub base: Option<u64>,
    pub cycle: Option<u64>,
    pub extension: Option<u64>,
    pub invalid_rx: Option<bool>,
    pub ipv: Option<Option<u64>>,
    pub list: Option<ControlList<GateEntryDraft>>,
    pub octets_exceeded: Option<bool>,
    pub open: Option<bool>,
}

impl Gathered for GateMembers {
    ghost rows = { gate_rows };

    ghost nesting = { 2 };

    #[tactic(auto, using(crate::proofs::Gathering::row_filled))]
    fn member(&mut self, alloc: Global, text: &mut Cursor<'_>) -> Option<()> {
        by_letters!(self, alloc, text;
            (b'b', _) => base, (b'c', _) => cycle, (b'e', _) => extension,
            (b'i', b'n') => invalid_rx, (b'i', _) => ipv, (b'l', _) => list,
            (b'o', b'c') => octets_exceeded, (b'o', _) => open)
    }
}

/// The members of a meter's record, as far as they were read.
#[derive(Default, Drop)]
pub struct MeterMembers {
    pub all_red: Option<bool>,
    pub aware: Option<bool>,
    pub cbs: Option<u64>,
    pub cf: Option<bool>,
    pub cir: Option<u64>,
    pub drop_yellow: Option<bool>,
    pub ebs: Option<u64>,
    pub eir: Option<u64>,
}

impl Gathered for MeterMembers {
    ghost rows = { meter_rows };

    ghost nesting = { 2 };

    #[tactic(auto, using(crate::proofs::Gathering::row_filled))]
    fn member(&mut self, alloc: Global, text: &mut Cursor<'_>) -> Option<()> {
        by_letters!(self, alloc, text;
            (b'a', b'l') => all_red, (b'a', _) => aware, (b'c', b'b') => cbs, (b'c', b'f') => cf,
            (b'c', _) => cir, (b'd', _) => drop_yellow, (b'e', b'b') => ebs, (b'e', _) => eir)
    }
}

/// The members of an edit, as far as they were read.
#[derive(Default, Drop)]
pub struct EditMembers {
    pub word: Option<Word>,
    pub key: Option<KeyDraft>,
    pub record: Option<RecordDraft>,
}

impl Gathered for EditMembers {
    ghost rows = { edit_rows };

    ghost nesting = { 3 };

    #[tactic(auto, using(crate::proofs::Gathering::row_filled))]
    fn member(&mut self, alloc: Global, text: &mut Cursor<'_>) -> Option<()> {
        match text.letters() {
            (b'd', _) => tray(alloc, text, "do", &mut self.word),
            (b'k', _) => tray(alloc, text, "key", &mut self.key),
            (b'r', _) => record_tray(alloc, text, self.key, &mut self.record),
            _ => None,
        }
    }
}

/// The members of a line, as far as they were read.
#[derive(Default, Drop)]
pub struct LineMembers {
    pub after: Option<u64>,
    pub at: Option<u64>,
    pub word: Option<Word>,
    pub handle: Option<u64>,
    pub key: Option<KeyDraft>,
    pub kind: Option<Kind>,
    pub instant: Option<u64>,
    pub octets: Option<u64>,
    pub priority: Option<u64>,
    pub record: Option<RecordDraft>,
    pub edits: Option<BatchDraft>,
    pub session: Option<u64>,
    pub upto: Option<u64>,
    pub yellow: Option<bool>,
}

impl Gathered for LineMembers {
    ghost rows = { line_rows };

    ghost nesting = { 5 };

    #[tactic(auto, using(crate::proofs::Gathering::row_filled))]
    fn member(&mut self, alloc: Global, text: &mut Cursor<'_>) -> Option<()> {
        match text.letters() {
            (b'd', _) => tray(alloc, text, "do", &mut self.word),
            (b's', _) => tray(alloc, text, "s", &mut self.session),
            (b'k', b'e') => tray(alloc, text, "key", &mut self.key),
            (b'r', _) => record_tray(alloc, text, self.key, &mut self.record),
            (b'n', _) => tray(alloc, text, "now", &mut self.instant),
            (b'h', _) => tray(alloc, text, "handle", &mut self.handle),
            (b'p', _) => tray(alloc, text, "priority", &mut self.priority),
            (b'o', _) => tray(alloc, text, "octets", &mut self.octets),
            (b'y', _) => tray(alloc, text, "yellow", &mut self.yellow),
            (b'a', b't') => tray(alloc, text, "at", &mut self.at),
            (b'a', _) => tray(alloc, text, "after", &mut self.after),
            (b'k', _) => tray(alloc, text, "kind", &mut self.kind),
            (b'u', _) => tray(alloc, text, "upto", &mut self.upto),
            (b'e', _) => edits_tray(alloc, text, &mut self.edits),
            _ => None,
        }
    }
}
