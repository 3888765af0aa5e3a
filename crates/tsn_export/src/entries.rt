//! The lines of the entries of lists.
ghost use Rattle.std.specs.Prelude.{◌≡◌, ◌++◌, ℕ, List, OnOk};
ghost use Rattle.tsn_export.specs.Text.{gate_entry_line, inner_number, inner_number_or_none, port_entry_line};

use crate::text::PlainText;
use std::alloc::AllocError;
use tsn_types::numbers::{Octets, Priority};
use tsn_types::records::{GateEntry, PortEntry};

impl PlainText {
    // Puts a number of an entry at the end, behind another member.
    fn inner_number(&mut self, name: &str, number: u64) -> Result<(), AllocError>
        ensures { OnOk result (self.new ≡ self.old ++ inner_number name.now number) }
    {
        self.push(", ")?;
        self.push(name)?;
        self.push(" = ")?;
        self.push_number(number)
    }

    // The same, if there is a number.
    fn inner_number_or_none(&mut self, name: &str, number: Option<u64>) -> Result<(), AllocError>
        ensures { OnOk result (self.new ≡ self.old ++ inner_number_or_none name.now number) }
    {
        match number {
            Some(number) => self.inner_number(name, number),
            None => Ok(()),
        }
    }
}

// An entry of a list, which has a line of its own.
pub(crate) trait EntryLine {
    ghost line: { Self → List ℕ };

    fn put_line(&self, text: &mut PlainText) -> Result<(), AllocError>
        ensures { OnOk result (text.new ≡ text.old ++ line self.now) };
}

impl EntryLine for PortEntry {
    ghost line = { port_entry_line };

    fn put_line(&self, text: &mut PlainText) -> Result<(), AllocError> {
        text.push("  {gates = ")?;
        text.push_number(u64::from(self.gates))?;
        text.inner_number("interval", self.interval.get())?;
        text.push("},\n")
    }
}

impl EntryLine for GateEntry {
    ghost line = { gate_entry_line };

    fn put_line(&self, text: &mut PlainText) -> Result<(), AllocError> {
        text.push("  {open = ")?;
        text.push_flag(self.is_open)?;
        text.inner_number_or_none("ipv", self.ipv.map(Priority::get))?;
        text.inner_number("interval", self.interval.get())?;
        text.inner_number_or_none("octets", self.octets.map(Octets::get))?;
        text.push("},\n")
    }
}
