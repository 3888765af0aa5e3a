//! Text that grows at its end.
ghost use Rattle.std.specs.Prelude.{◌≡◌, ◌++◌, [], length, decimal, OnOk};
ghost use Rattle.tsn_export.specs.Text.{flag_text};

use itoa::Buffer;
use std::alloc::{AllocError, Global};
use std::marker::Model;

/// Text, which contracts see as the list of its bytes.
#[derive(Debug, Drop)]
pub struct PlainText {
    bytes: Vec<u8>,
}

/// The text of a setup.
pub type SetupText = PlainText;

impl Model for PlainText {
    ghost use Rattle.std.specs.Prelude.{ℕ, List};

    ghost Value = { List ℕ };

    ghost view = { λ t. t.bytes.items };
}

impl PlainText {
    /// The empty text.
    pub fn new(alloc: Global) -> PlainText
        ensures { result ≡ [] }
    {
        PlainText {
            bytes: Vec::new(alloc),
        }
    }

    /// The bytes of the text.
    pub fn as_bytes(&self) -> &[u8]
        ensures { result.now ≡ self.now }
    {
        self.bytes.as_slice()
    }

    /// How many bytes the text has.
    pub fn len(&self) -> usize
        ensures { result ≡ length self.now }
    {
        self.bytes.len()
    }

    /// Puts the piece at the end.
    pub fn push(&mut self, piece: &str) -> Result<(), AllocError>
        ensures { OnOk result (self.new ≡ self.old ++ piece.now) }
    {
        self.bytes.extend_from_slice(piece.as_bytes())?;
        Ok(())
    }

    /// Puts the number at the end, in decimal digits.
    pub fn push_number(&mut self, number: u64) -> Result<(), AllocError>
        ensures { OnOk result (self.new ≡ self.old ++ decimal number) }
    {
        let mut digits = Buffer::new();
        self.push(digits.format(number))
    }

    // Puts the flag at the end.
    pub(crate) fn push_flag(&mut self, flag: bool) -> Result<(), AllocError>
        ensures { OnOk result (self.new ≡ self.old ++ flag_text flag) }
    {
        self.push(if flag { "true" } else { "false" })
    }
}
