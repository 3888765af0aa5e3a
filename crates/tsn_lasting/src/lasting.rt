//! Who answers the lines of a script whose work lasts.
ghost use Rattle.std.specs.Prelude.{◌≡◌, List, [], ◌++◌, Option, OnOk, OnErr, IfOk, false, option_map};
ghost use Rattle.tsn_bridge.specs.Histories.{Answered};
ghost use Rattle.tsn_replies.specs.Replies.{reply_text};
ghost use Rattle.tsn_replay.specs.Recorder.{HasLine, text_of};
ghost use Rattle.tsn_recorded.specs.Text.{Recorded};
ghost use Rattle.tsn_serve.specs.Lines.{longest_line};
ghost use Rattle.tsn_spelling.specs.Line.{line_text};
ghost use Rattle.tsn_lasting.specs.Parts.{Answers, AnswersBreak, AnswersLine, BreaksLine, BreaksOff, HandsOn, IsCutOff, Puts, StepsRead, StepsRecorder, Tells, standing};

use crate::backlog::Backlog;
use std::alloc::{AllocError, Global};
use std::marker::Model;
use tsn_bridge::bridge::Bridge;
use tsn_bridge::command::Ask;
use tsn_bridge::reply::Reply;
use tsn_bytes::{ByteOut, Fault, put_all};
use tsn_device::{Device, Failed};
use tsn_keeping::{Clock, Keeper, Stamp};
use tsn_machine::machine::Machine;
use tsn_replay::recorder::{Recorder, Spell};
use tsn_replies::write_reply;
use tsn_serve::{Ended, MAX_LINE, Responder, read_line};
use tsn_spelling::spell;
use tsn_types::refusals::Refusal;

/// What is recorded is spelled as a command line in the service's compact spelling.
#[derive(Drop)]
pub struct CommandLine;

impl Spell for CommandLine {
    const MOST: usize = MAX_LINE;

    ghost MOST = { longest_line };

    ghost line = { line_text };

    #[tactic(auto, using(tsn_spelling::proofs::Holding::has_no_line_feed))]
    fn spell(ask: &Ask, text: &mut Vec<u8>) -> Result<(), AllocError> {
        spell(ask, text)
    }
}

/// Why a script ended before its input did.
#[derive(Clone, Copy, Debug, PartialEq, Eq)]
pub enum LastingFault {
    /// The reader failed, or gave no end within the reads that were allowed.
    Read,
    /// The writer failed.
    Write,
    /// Memory was wanted and not there.
    Memory,
    /// The journal could not be written or synced: nothing that it may not keep was told.
    Journal,
}

/// A bridge with a recorder, the journal file behind it, and the writer of its replies, ahead of which they wait for
/// the journal.
#[derive(Drop)]
pub struct Lasting<C: Clock, D: Device, W: ByteOut> {
    recorder: Recorder<CommandLine>,
    keeper: Keeper<D>,
    clock: C,
    replies: Backlog,
    writer: W,
    fault: Option<LastingFault>,
}

impl<C: Clock, D: Device, W: ByteOut> Model for Lasting<C, D, W> {
    ghost use Rattle.std.specs.Coded.{codes};
    ghost use Rattle.tsn_bridge.specs.State.{state_code};
    ghost use Rattle.tsn_lasting.specs.Parts.{Parts};

    ghost Value = { Parts W };

    ghost coded = { Prim.hlevel (codes, state_code) };

    ghost view = { λ a. record { bridge = a.recorder.bridge; keeper = a.keeper; replies = a.replies; writer = a.writer } };
}

impl<C: Clock, D: Device, W: ByteOut> Lasting<C, D, W> {
    /// The bridge goes on, with what it records behind what the keeper's file has. It takes the memory for all replies
    /// that may wait.
    pub fn new(
        alloc: Global,
        bridge: Bridge,
        keeper: Keeper<D>,
        clock: C,
        writer: W,
    ) -> Result<Lasting<C, D, W>, AllocError>
    where
        W: Drop,
        ensures { IfOk result (λ l. l ≡ record {
          bridge = bridge;
          keeper = keeper;
          replies = record { bytes = []; has_failed = false };
          writer = writer;
        }) }
    {
        let replies = Backlog::new(alloc)?;
        Ok(Lasting {
            recorder: Recorder::new(alloc, bridge),
            keeper,
            clock,
            replies,
            writer,
            fault: None,
        })
    }

    /// The journal.
    pub fn keeper(&self) -> &Keeper<D>
        ensures { result.now ≡ self.now.keeper }
    {
        &self.keeper
    }

    /// Why the last answer broke off.
    pub(crate) fn fault(&self) -> LastingFault {
        self.fault.unwrap_or(LastingFault::Journal)
    }

    /// Answers what a line was read as, and enters what that leaves into the journal. The reply is not told yet.
    fn exchange(&mut self, read: Result<Ask, Refusal>) -> Result<Reply, Failed>
        ensures ok { IfOk result (λ reply. (rs : List Recorded)
            × StepsRead (standing W.taken self.old) read reply rs (standing W.taken self.new)) }
        ensures err { OnErr result (IsCutOff (standing W.taken self.old) (standing W.taken self.new)) }
    {
        self.recorder.clear();
        let reply = step(&mut self.recorder, read);
        enter(&mut self.keeper, self.clock.stamp(), self.recorder.text())?;
        Ok(reply)
    }

    /// Has the journal keep all that was entered, and hands on what waits. Where the journal fails nothing is handed
    /// on.
    pub fn settle(&mut self) -> Result<(), LastingFault>
        ensures ok { OnOk result (HandsOn (standing W.taken self.old) (standing W.taken self.new) []) }
        ensures err { OnErr result (BreaksOff (standing W.taken self.old) (standing W.taken self.new) []) }
    {
        if !self.keeper.works() || self.keeper.settle().is_err() {
            return Err(LastingFault::Journal);
        }
        if put_all(&mut self.writer, self.replies.bytes()).is_err() {
            return Err(LastingFault::Write);
        }
        self.replies.cut(0);
        if self.writer.flush().is_err() {
            return Err(LastingFault::Write);
        }
        Ok(())
    }

    /// Tells a reply: it waits where there is room; else all that was entered is kept first, and it goes out at once
    /// behind what waits.
    fn tell(&mut self, reply: &Reply) -> Result<(), LastingFault>
        ensures ok { OnOk result (Tells (standing W.taken self.old) (standing W.taken self.new) (reply_text reply.now)) }
        ensures err { OnErr result (BreaksOff (standing W.taken self.old) (standing W.taken self.new) (reply_text reply.now)) }
    {
        if self.replies.hold(reply) {
            return Ok(());
        }
        self.settle()?;
        if write_reply(&mut self.writer, reply).is_err() {
            return Err(LastingFault::Write);
        }
        Ok(())
    }

    /// Answers a line, and tells the reply.
    #[tactic(auto, using(crate::proofs::Answering::answered, crate::proofs::Answering::broken, crate::proofs::Answering::cut_off))]
    fn answer_line(&mut self, alloc: Global, line: Option<&[u8]>) -> Result<(), LastingFault>
        ensures ok { OnOk result (AnswersLine W.taken self.old (option_map (λ s. s.now) line.entry) self.new) }
        ensures err { OnErr result (BreaksLine W.taken self.old (option_map (λ s. s.now) line.entry) self.new) }
    {
        let read = read_line(alloc, line);
        match self.exchange(read) {
            Ok(reply) => self.tell(&reply),
            Err(_) => Err(LastingFault::Journal),
        }
    }
}

/// A turn of the recorder at what a line was read as, or the refusal of reading, which changes nothing.
fn step(recorder: &mut Recorder<CommandLine>, read: Result<Ask, Refusal>) -> Reply
    ensures { StepsRecorder recorder.old read result recorder.new }
{
    match read {
        Ok(ask) => recorder.step(ask),
        Err(refusal) => Reply::Refused(refusal),
    }
}

/// Enters what was recorded of one command, if anything was: a line with a line feed.
#[tactic(auto, using(crate::proofs::Entering::enter_well, crate::proofs::Entering::enter_none, crate::proofs::Entering::enter_one))]
fn enter<D: Device>(keeper: &mut Keeper<D>, stamp: Stamp, text: &[u8]) -> Result<(), Failed>
    requires { (t : Option Answered) × (text.now ≡ text_of line_text t) × HasLine line_text longest_line t }
    ensures ok { OnOk result ((t : Option Answered) → text.now ≡ text_of line_text t → HasLine line_text longest_line t
        → (rs : List Recorded) × Puts keeper.old t rs keeper.new) }
    ensures err { OnErr result (keeper.new.kept ≡ keeper.old.kept) }
{
    if text.is_empty() {
        return Ok(());
    }
    if !keeper.works() {
        return Err(Failed);
    }
    keeper.enter(stamp.bytes(), &text[..text.len() - 1])
}

impl<C: Clock, D: Device, W: ByteOut> Responder for Lasting<C, D, W> {
    ghost answers = { Answers W.taken };

    ghost breaks = { AnswersBreak W.taken };

    fn answer<V: ByteOut>(&mut self, alloc: Global, line: Option<&[u8]>, _writer: &mut V) -> Ended {
        match self.answer_line(alloc, line) {
            Ok(()) => Ok(()),
            Err(fault) => {
                self.fault = Some(fault);
                Err(Fault::Exhausted)
            }
        }
    }
}
