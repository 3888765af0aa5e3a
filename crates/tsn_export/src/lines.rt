//! The lines of members, each of which has one of its own.
ghost use Rattle.std.specs.Prelude.{◌≡◌, ◌++◌, OnOk, codes};
ghost use Rattle.tsn_export.specs.Text.{flag_line, list_lines, number_line, number_or_none_line};

use crate::entries::EntryLine;
use crate::text::PlainText;
use std::alloc::AllocError;

impl PlainText {
    // Puts the line of a number at the end.
    pub(crate) fn number_line(&mut self, name: &str, number: u64) -> Result<(), AllocError>
        ensures { OnOk result (self.new ≡ self.old ++ number_line name.now number) }
    {
        self.begin_line(name)?;
        self.push_number(number)?;
        self.push("\n")
    }

    // Puts the line of a number at the end, if there is one.
    pub(crate) fn number_or_none_line(
        &mut self,
        name: &str,
        number: Option<u64>,
    ) -> Result<(), AllocError>
        ensures { OnOk result (self.new ≡ self.old ++ number_or_none_line name.now number) }
    {
        match number {
            Some(number) => self.number_line(name, number),
            None => Ok(()),
        }
    }

    // Puts the line of a flag at the end.
    pub(crate) fn flag_line(&mut self, name: &str, flag: bool) -> Result<(), AllocError>
        ensures { OnOk result (self.new ≡ self.old ++ flag_line name.now flag) }
    {
        self.begin_line(name)?;
        self.push_flag(flag)?;
        self.push("\n")
    }

    // Puts what stands before the value of a member at the end.
    fn begin_line(&mut self, name: &str) -> Result<(), AllocError>
        ensures { OnOk result (self.new ≡ self.old ++ name.now ++ codes " = ") }
    {
        self.push(name)?;
        self.push(" = ")
    }

    // Puts the lines of a list at the end.
    pub(crate) fn list_lines<E: EntryLine>(&mut self, entries: &[E]) -> Result<(), AllocError>
        ensures { OnOk result (self.new ≡ self.old ++ list_lines E.line entries.now) }
    {
        if entries.is_empty() {
            return self.push("list = []\n");
        }
        self.push("list = [\n")?;
        for entry in entries {
            entry.put_line(self)?;
        }
        self.push("]\n")
    }
}
