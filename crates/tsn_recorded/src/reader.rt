//! The reader of a journal file.
ghost use Rattle.std.specs.Prelude.{◌≡◌, ◌≢◌, ◌↔◌, ℕ, ◌+◌, ◌^◌, ◌<◌, ◌≤◌, ◌++◌, [], ◌∷◌, List, All, Contains, ◌⊎◌, false, true, length, drop, IsTrue, OnOk, OnErr};
ghost use Rattle.std.specs.Bool.{OnTrue, OnFalse};
ghost use Rattle.tsn_recorded.specs.Text.{Recorded, line_feed, longest_after};
ghost use Rattle.tsn_recorded.specs.Reading.{IsEnd, Reads};
ghost use Rattle.tsn_recorded.specs.Reader.{HasGiven};

use crate::chain::Chain;
use crate::end::End;
use crate::held::Held;
use crate::line::{DIGITS, stamp_of_line};
use memchr::memchr;
use std::alloc::{AllocError, Global};
use std::marker::Model;

/// A reader that is fed the bytes of a file piece by piece, and gives its recorded commands one after the other. It
/// holds what was fed and not given; once it is settled that no further line verifies, it only counts what it is fed.
/// So where it is fed behind an `advance` that gave none, it holds a longest line and a piece at most.
#[derive(Drop)]
pub struct Reader {
    // The latest line, if it is still at hand, and the bytes behind it.
    held: Held,
    // The bytes of the latest line, with its line feed, and of its stamp.
    given: usize,
    stamp: usize,
    chain: Chain,
    lines: u64,
    good: u64,
    is_settled: bool,
    // Behind the bytes held: how many were only counted, and whether a line feed is among these.
    counted: u64,
    has_line_feed: bool,
}

impl Model for Reader {
    ghost use Rattle.std.specs.Prelude.{drop};
    ghost use Rattle.tsn_recorded.specs.Reader.{IsSound, Standing, latest_in};

    ghost Value = { Standing };

    ghost view = { λ r. record {
      lines = r.lines;
      good = r.good;
      last = r.chain;
      latest = latest_in r.held r.given r.stamp;
      held = drop r.given r.held;
      is_settled = r.is_settled;
      counted = r.counted;
      has_line_feed = r.has_line_feed;
    } };

    ghost invariant = { λ r. IsSound r.held r.given r.stamp r.chain r.lines r.good r.counted r.is_settled };
}

impl Reader {
    /// A reader that was fed nothing.
    pub fn new(alloc: Global) -> Reader
        ensures { HasGiven [] [] result }
    {
        Reader {
            held: Held::new(alloc),
            given: 0,
            stamp: 0,
            chain: Chain::new(),
            lines: 0,
            good: 0,
            is_settled: false,
            counted: 0,
            has_line_feed: false,
        }
    }

    /// How many recorded commands were given.
    pub fn lines(&self) -> u64
        ensures { result ≡ self.now.lines }
    {
        self.lines
    }

    /// How many bytes of the file these are, from its front on, each line with its line feed.
    pub fn good(&self) -> u64
        ensures { result ≡ self.now.good }
    {
        self.good
    }

    /// The last digest: that of the latest line, of 32 digits, or of no byte ahead of the first.
    pub fn last(&self) -> &[u8]
        ensures { result.now ≡ self.now.last }
    {
        self.chain.last()
    }

    /// The chain with which a writer goes on behind what was given.
    pub fn chain(&self) -> Chain
        ensures { result ≡ self.now.last }
    {
        self.chain.copied()
    }

    /// The stamp of the latest line, as long as the line is at hand.
    pub fn stamp(&self) -> &[u8]
        ensures { result.now ≡ self.now.latest.stamp }
    {
        if self.given == 0 {
            return &[];
        }
        let line = &self.held.bytes()[..self.given - 1];
        &line[DIGITS + 1..DIGITS + 1 + self.stamp]
    }

    /// The command of the latest line, as long as the line is at hand.
    pub fn command(&self) -> &[u8]
        ensures { result.now ≡ self.now.latest.command }
    {
        if self.given == 0 {
            return &[];
        }
        let line = &self.held.bytes()[..self.given - 1];
        &line[DIGITS + 2 + self.stamp..]
    }

    // Whether so many further bytes can be counted.
    fn can_count(&self, count: usize) -> bool
        ensures { IsTrue result ↔ (self.now.good + length self.now.held + self.now.counted + count < 2 ^ 64) }
    {
        let held = self.held.bytes().len() - self.given;
        let fed = self.good + held as u64 + self.counted;
        count as u64 <= u64::MAX - fed
    }

    /// Takes a further piece of the file; the latest line stays at hand. Want of memory is the only error (a file of
    /// 2^64 bytes counts as such), and then the piece was not taken.
    pub fn feed(&mut self, piece: &[u8]) -> Result<(), AllocError>
        ensures fed { (fed : List ℕ) (rs : List Recorded) → HasGiven fed rs self.old →
            OnOk result (HasGiven (fed ++ piece.now) rs self.new) }
        ensures refused { OnErr result (self.new ≡ self.old) }

        // What was given stays as it is, and what is only counted takes no memory.
        ensures stays { self.new ≡ record self.old {
          held = self.new.held;
          counted = self.new.counted;
          has_line_feed = self.new.has_line_feed;
        } }
        ensures settled { OnTrue self.old.is_settled (self.new.held ≡ self.old.held) }
    {
        if !self.can_count(piece.len()) {
            return Err(AllocError);
        }
        if self.is_settled {
            self.counted += piece.len() as u64;
            self.has_line_feed = has_line_feed(self.has_line_feed, piece);
            return Ok(());
        }
        self.held.append(piece)?;
        Ok(())
    }

    /// Goes on to the next line, where all of it was fed and it verifies; false where there is none. Either way the
    /// line before is no longer at hand.
    pub fn advance(&mut self) -> bool
        ensures given { (fed : List ℕ) (rs : List Recorded) → HasGiven fed rs self.old →
            OnTrue result (HasGiven fed (rs ++ self.new.latest ∷ []) self.new) }
        ensures stays { (fed : List ℕ) (rs : List Recorded) → HasGiven fed rs self.old →
            OnFalse result (HasGiven fed rs self.new) }
        ensures reads { (fed : List ℕ) (rs : List Recorded) → HasGiven fed rs self.old →
            OnFalse result (Reads [] fed rs (drop self.new.good fed)) }

        // Each line given leaves fewer bytes held, so that a loop over the lines ends.
        ensures fewer { OnTrue result (length self.new.held < length self.old.held) }

        // Where there is none, more than a longest line is held only where nothing more will be.
        ensures bound { OnFalse result (self.new.is_settled ≡ false → length self.new.held ≤ longest_after self.new.last) }
    {
        self.held.pass(self.given);
        self.given = 0;
        self.stamp = 0;
        if self.is_settled {
            return false;
        }
        let count = match self.held.line_len() {
            Some(count) => count,
            None => {
                self.is_settled = self.held.bytes().len() > self.chain.longest();
                return false;
            }
        };
        let line = &self.held.bytes()[..count];
        let stamp = match stamp_of_line(&self.chain, line) {
            Some(stamp) => stamp,
            None => {
                self.is_settled = true;
                return false;
            }
        };
        self.chain.go_behind(line);
        self.given = count + 1;
        self.stamp = stamp;
        self.good += count as u64 + 1;
        self.lines += 1;
        true
    }

    /// Which end the file has behind what was given, if nothing more is fed.
    pub fn end(&self) -> End
        ensures { (fed : List ℕ) (rs : List Recorded) → HasGiven fed rs self.now →
            IsEnd self.now.lines (drop self.now.good fed) result }
    {
        let held = &self.held.bytes()[self.given..];
        let bytes = held.len() as u64 + self.counted;
        if bytes == 0 {
            return End::Whole;
        }
        if has_line_feed(self.has_line_feed, held) {
            return End::Damaged {
                line: self.lines + 1,
            };
        }
        End::Unfinished { bytes }
    }
}

// Whether a line feed is among these bytes, or was already found.
fn has_line_feed(found: bool, bytes: &[u8]) -> bool
    ensures some { OnTrue result ((found ≡ true) ⊎ Contains bytes.now line_feed) }
    ensures none { OnFalse result ((found ≡ false) × All (λ b. b ≢ line_feed) bytes.now) }
{
    if found {
        return true;
    }
    memchr(b'\n', bytes).is_some()
}
