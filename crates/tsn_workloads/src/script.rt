//! A reader that makes the lines of a job when they are read.
ghost use Rattle.std.specs.Prelude.{None};

use crate::text::Text;
use std::alloc::Global;
use tsn_bytes::{ByteIn, Failed};

// How much text is made ahead.
const AHEAD: usize = 65536;

/// What makes the lines of a job.
pub trait Job {
    /// Puts the line or lines of this turn, from 0, each with its line feed, and says whether there were any.
    fn next(&mut self, text: &mut Text, turn: u64) -> bool;
}

/// The lines of a job as a script that is read.
#[derive(Drop)]
pub struct Script<J> {
    job: J,
    turn: u64,
    text: Text,
    calls: u64,
    has_failed: bool,
}

impl<J: Job> Script<J> {
    pub fn new(alloc: Global, job: J) -> Script<J> {
        Script {
            job,
            turn: 0,
            text: Text::new(alloc),
            calls: 0,
            has_failed: false,
        }
    }
}

// Makes lines in place of those that were read, as far as there are any.
fn refill<J: Job>(job: &mut J, turn: &mut u64, text: &mut Text) {
    text.clear();
    for _ in 0..AHEAD {
        if text.len() >= AHEAD {
            break;
        }
        let this = *turn;
        *turn = this.wrapping_add(1);
        if !job.next(text, this) {
            break;
        }
    }
}

impl<J: Job> ByteIn for Script<J> {
    ghost remaining = { λ _. None };

    ghost calls = { λ s. s.calls };

    ghost has_failed = { λ s. s.has_failed };

    fn pull(&mut self, buffer: &mut [u8]) -> Result<usize, Failed> {
        self.calls = self.calls.saturating_add(1);
        let first = self.text.give(buffer);
        if first == buffer.len() {
            return Ok(first);
        }
        refill(&mut self.job, &mut self.turn, &mut self.text);
        if self.text.lacks_memory() {
            self.has_failed = true;
            return Err(Failed);
        }
        let second = self.text.give(&mut buffer[first..]);
        Ok(first + second)
    }
}
