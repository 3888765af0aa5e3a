//! The text of a command line, in memory that is taken once.
ghost use Rattle.std.specs.Prelude.{◌≡◌, IsTrue, IfOk, []};
ghost use Rattle.tsn_commit.specs.Lines.{IsLine};
ghost use Rattle.tsn_spelling.specs.Line.{line_text};

use std::alloc::{AllocError, Global};
use std::marker::Model;
use tsn_bridge::command::Ask;
use tsn_serve::MAX_LINE;
use tsn_spelling::spell;

/// A command line, at first the empty one, in room for the longest. A contract sees its bytes.
#[derive(Drop)]
pub struct Line {
    bytes: Vec<u8>,
}

impl Model for Line {
    ghost use Rattle.std.specs.Prelude.{ℕ, List};
    ghost use Rattle.tsn_commit.specs.Lines.{IsLine};

    ghost Value = { List ℕ };

    ghost view = { λ l. l.bytes.items };

    ghost invariant = { λ l. IsLine l.bytes.items };
}

impl Line {
    /// The empty one, and the memory for the longest.
    #[tactic(auto, using(crate::proofs::Noting::empty_line))]
    pub fn new(alloc: Global) -> Result<Line, AllocError>
        ensures { IfOk result (λ l. l ≡ []) }
    {
        let bytes = Vec::with_capacity(alloc, MAX_LINE)?;
        Ok(Line { bytes })
    }

    /// Its bytes, which are a line.
    pub fn bytes(&self) -> &[u8]
        ensures { (result.now ≡ self.now) × IsLine result.now }
    {
        self.bytes.as_slice()
    }

    /// Becomes the line of a command, and says whether it did; else it is empty.
    #[tactic(auto, using(tsn_spelling::proofs::Holding::has_no_line_feed, crate::proofs::Noting::empty_line))]
    pub fn spell(&mut self, ask: &Ask) -> bool
        ensures { IsTrue result → self.new ≡ line_text ask.now }
    {
        self.bytes.clear();
        if spell(ask, &mut self.bytes).is_ok() && self.bytes.len() <= MAX_LINE {
            return true;
        }
        self.bytes.clear();
        false
    }
}
