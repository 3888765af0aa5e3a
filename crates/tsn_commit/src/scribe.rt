//! Who puts lines into the journal.
ghost use Rattle.std.specs.Prelude.{◌≡◌, ◌++◌, true, IfSome, OnOk};
ghost use Rattle.std.specs.Bool.{OnTrue};
ghost use Rattle.tsn_keeping.specs.Keeping.{with_settled};
ghost use Rattle.tsn_keeping.specs.Stamps.{IsStamp};
ghost use Rattle.tsn_commit.specs.Lines.{AreLines, lines_in};
ghost use Rattle.tsn_commit.specs.Resting.{stamped, with_all};

use crate::lines::{Lines, first_line};
use std::marker::{Brand, Model};
use tsn_device::{Device, Failed};
use tsn_history::{Book, Front, Naming};
use tsn_keeping::{Clock, Keeper};

/// What stands ahead of the kept text: the bytes that the device had, and the digest with which they end. Each call of
/// a program picks it.
pub trait Ahead: Naming {
    ghost use Rattle.std.specs.Prelude.{ℕ, List};

    ghost had: { List ℕ };

    ghost digest: { List ℕ };
}

impl Ahead for Brand {
    ghost use Rattle.std.specs.Prelude.{[]};

    ghost had = { [] };

    ghost digest = { [] };
}

/// A keeper at rest, with the clock for its lines, and the kept text with the front of it that has just these. A
/// contract sees the front. Nobody else adds to that text.
#[derive(Drop)]
pub(crate) struct Scribe<C: Clock, D: Device, K: Ahead> {
    pub(crate) keeper: Keeper<D>,
    pub(crate) clock: C,
    pub(crate) keeps: Book<K>,
    pub(crate) kept: Front<K>,
}

impl<C: Clock, D: Device, K: Ahead> Model for Scribe<C, D, K> {
    ghost use Rattle.std.specs.Prelude.{ℕ, List};
    ghost use Rattle.tsn_commit.specs.Resting.{Rests};

    ghost Value = { List (List ℕ) };

    ghost view = { λ s. s.kept };

    ghost invariant = { λ s. Rests K.had K.digest s.kept s.keeper };
}

impl<C: Clock, D: Device, K: Ahead> Scribe<C, D, K> {
    /// Enters the lines, has them kept, and adds them to the kept text. Where the device fails nothing comes back.
    #[tactic(auto, using(crate::proofs::Entered::rests_more))]
    pub(crate) fn keep(self, lines: &Lines) -> Option<Scribe<C, D, K>>
        ensures { IfSome result (λ scribe. scribe ≡ self ++ lines.now) }
    {
        let Scribe {
            mut keeper,
            mut clock,
            keeps,
            mut kept,
        } = self;
        let stamp = clock.stamp();
        if enter_and_settle(&mut keeper, stamp.bytes(), lines.text()).is_err() {
            return None;
        }
        if !add_all(&mut kept, &keeps, lines.text()) {
            return None;
        }
        Some(Scribe {
            keeper,
            clock,
            keeps,
            kept,
        })
    }
}

// Enters each line of the text with this stamp, and has the device keep them.
fn enter_and_settle<D: Device>(
    keeper: &mut Keeper<D>,
    stamp: &[u8],
    text: &[u8],
) -> Result<(), Failed>
    requires works { keeper.old.works ≡ true }
    requires stamp { IsStamp stamp.now }
    requires lines { AreLines text.now }
    ensures { OnOk result (keeper.new ≡ with_settled (with_all (stamped stamp.now (lines_in text.now)) keeper.old)) }
{
    enter_all(keeper, stamp, text)?;
    keeper.settle()
}

// Enters each line of the text with this stamp.
fn enter_all<D: Device>(keeper: &mut Keeper<D>, stamp: &[u8], text: &[u8]) -> Result<(), Failed>
    requires works { keeper.old.works ≡ true }
    requires stamp { IsStamp stamp.now }
    requires lines { AreLines text.now }
    ensures ok { OnOk result (keeper.new ≡ with_all (stamped stamp.now (lines_in text.now)) keeper.old) }
    ensures worked { OnOk result (keeper.new.works ≡ true) }
{
    let mut rest = text;
    'lines: while let Some((line, others)) = first_line(rest) {
        keeper.enter(stamp, line)?;
        rest = others;
    }
    Ok(())
}

// Adds each line of the text to the front, and says whether it did.
fn add_all<K: Naming>(kept: &mut Front<K>, keeps: &Book<K>, text: &[u8]) -> bool
    requires { AreLines text.now }
    ensures { OnTrue result (kept.new ≡ kept.old ++ lines_in text.now) }
{
    let mut rest = text;
    'lines: while let Some((line, others)) = first_line(rest) {
        if !kept.add(keeps, line) {
            return false;
        }
        rest = others;
    }
    true
}
