//! Gate control lists in the plain spelling: arrays of inline tables.
ghost use Rattle.std.specs.Prelude.{◌≡◌, ◌<◌, Result, length, IfSome};
ghost use Rattle.toml.specs.Data.{Data};
ghost use Rattle.tsn_records.specs.declared.unread.Unread.{Unread};
ghost use Rattle.tsn_setup.specs.Plain.{port_list, gate_list, ReadsEntries, ReadsEntry};
ghost use Rattle.tsn_records.specs.Records.{port_entry_shape, gate_entry_shape};
ghost use Rattle.tsn_setup.specs.Toml.{as_toml};

use crate::drafts::{PlainGateEntry, PlainPortEntry};
use crate::gathered::inline_table;
use crate::given::Given;
use crate::plain::behind_element;
use std::alloc::Global;
use toml_parser::text::{first, skip, skip_blank};
use tsn_records::drafts::{GateEntryDraft, PortEntryDraft};
use tsn_types::lists::ControlList;

/// An entry of a gate control list, as a list shows it.
pub trait PlainEntry: Drop {
    ghost shape: { Data → Result Self Unread };

    /// The entry that the text begins with, behind its opening brace. None where it is no such entry or is spelled in
    /// another way, and where memory is refused.
    fn entry(alloc: Global, text: &str) -> Option<(Self, &str)>
        ensures value { IfSome result (λ p. ReadsEntry shape text.now p.0 p.1.now) }
        ensures shorter { IfSome result (λ p. length p.1.now < length text.now) };
}

impl PlainEntry for PortEntryDraft {
    ghost shape = { port_entry_shape as_toml };

    #[tactic(auto, using(crate::proofs::Told::port_entry_told))]
    fn entry(alloc: Global, text: &str) -> Option<(PortEntryDraft, &str)> {
        let (found, rest) = inline_table::<PlainPortEntry>(alloc, text)?;
        let gates = found.gates?;
        let interval = found.interval?;
        Some((PortEntryDraft { gates, interval }, rest))
    }
}

impl PlainEntry for GateEntryDraft {
    ghost shape = { gate_entry_shape as_toml };

    #[tactic(auto, using(crate::proofs::Told::gate_entry_told))]
    fn entry(alloc: Global, text: &str) -> Option<(GateEntryDraft, &str)> {
        let (found, rest) = inline_table::<PlainGateEntry>(alloc, text)?;
        let is_open = found.open?;
        let interval = found.interval?;
        let entry = GateEntryDraft {
            is_open,
            ipv: found.ipv,
            interval,
            octets: found.octets,
        };
        Some((entry, rest))
    }
}

// The entries of a list, behind its opening bracket. Each takes three bytes at least, so there are enough turns.
fn entries<E: PlainEntry>(alloc: Global, text: &str) -> Option<(ControlList<E>, &str)>
    ensures value { IfSome result (λ p. ReadsEntries E.shape text.now p.0 p.1.now) }
    ensures shorter { IfSome result (λ p. length p.1.now < length text.now) }
{
    let mut list = ControlList::new(alloc);
    let mut rest = text;
    'entries: for _ in 0..text.len() {
        let start = skip_blank(rest, true);
        if first(start) == b']' {
            return Some((list, skip(start, 1)));
        }
        if first(start) != b'{' {
            return None;
        }
        let (entry, after) = E::entry(alloc, skip(start, 1))?;
        let Ok(()) = list.push(entry) else {
            return None;
        };
        rest = behind_element(after, b']')?;
    }
    None
}

impl Given for ControlList<PortEntryDraft> {
    ghost tray = { port_list };

    ghost nesting = { 2 };

    #[tactic(auto, using(crate::proofs::Values::port_list_read))]
    fn given(alloc: Global, text: &str) -> Option<(ControlList<PortEntryDraft>, &str)> {
        if first(text) != b'[' {
            return None;
        }
        entries::<PortEntryDraft>(alloc, skip(text, 1))
    }
}

impl Given for ControlList<GateEntryDraft> {
    ghost tray = { gate_list };

    ghost nesting = { 2 };

    #[tactic(auto, using(crate::proofs::Values::gate_list_read))]
    fn given(alloc: Global, text: &str) -> Option<(ControlList<GateEntryDraft>, &str)> {
        if first(text) != b'[' {
            return None;
        }
        entries::<GateEntryDraft>(alloc, skip(text, 1))
    }
}
