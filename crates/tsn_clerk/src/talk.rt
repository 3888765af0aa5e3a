//! A connection whose replies wait until what they tell of is kept.
ghost use Rattle.std.specs.Prelude.{◌≡◌, ◌++◌, [], Some, None, IfOk, OnOk, OnErr, option_map};
ghost use Rattle.tsn_replies.specs.Replies.{reply_text};
ghost use Rattle.tsn_serve.specs.Talk.{Goes};
ghost use Rattle.tsn_clerk.specs.Talking.{Answers, AnswersBreak, AnswersLine, BreaksLine, BreaksOff, Covers, HandsOn, IsCovered, IsDue, Replied, Tells};

use crate::clerk::Clerk;
use std::alloc::Global;
use std::marker::Model;
use std::sync::Wait;
use tsn_bridge::reply::Reply;
use tsn_bytes::{ByteOut, Fault, put_all};
use tsn_commit::{Ahead, Commit};
use tsn_device::Device;
use tsn_history::{Front, Naming};
use tsn_keeping::Clock;
use tsn_lasting::Backlog;
use tsn_replies::write_reply;
use tsn_serve::{Connection, Ended, Free, Responder};

/// Why a connection ended before its input did.
#[derive(Clone, Copy, Debug, PartialEq, Eq)]
pub enum TalkFault {
    /// The reader failed, or gave no end within the reads that were allowed.
    Read,
    /// The writer failed.
    Write,
    /// No ticket was left at the desk.
    Exhausted,
    /// The journal could not be written or synced: nothing that it may not keep was told.
    Journal,
}

/// One end of a connection, the text of records that all share, and the writer of its replies, ahead of which they
/// wait.
pub struct Talk<'a, W: Wait, C: Clock, D: Device, R: Naming, K: Ahead, O: ByteOut> {
    end: Connection<'a, W, Free, Clerk<'a, W, C, D, R, K>>,
    rt: &'a W,
    commit: &'a Commit<C, D, R, K>,
    due: Option<Front<R>>,
    kept: Option<Front<K>>,
    replies: Backlog,
    writer: O,
    fault: TalkFault,
}

impl<'a, W: Wait, C: Clock, D: Device, R: Naming, K: Ahead, O: ByteOut> Model
    for Talk<'a, W, C, D, R, K, O> {
    ghost use Rattle.std.specs.Coded.{codes};
    ghost use Rattle.tsn_serve.specs.Held.{caller_code};
    ghost use Rattle.tsn_clerk.specs.Talking.{Parts};

    ghost Value = { Parts O };

    ghost coded = { Prim.hlevel (codes, caller_code) };

    ghost view = { λ t. record { caller = t.end; due = t.due; kept = t.kept; replies = t.replies; writer = t.writer } };
}

impl<'a, W: Wait, C: Clock, D: Device, R: Naming, K: Ahead, O: ByteOut> Talk<'a, W, C, D, R, K, O> {
    /// Nothing is due yet, and nothing waits.
    pub fn new(
        end: Connection<'a, W, Free, Clerk<'a, W, C, D, R, K>>,
        rt: &'a W,
        commit: &'a Commit<C, D, R, K>,
        replies: Backlog,
        writer: O,
    ) -> Talk<'a, W, C, D, R, K, O>
        ensures { result ≡ record { caller = end.entry; due = None; kept = None; replies = replies; writer = writer } }
    {
        Talk {
            end,
            rt,
            commit,
            due: None,
            kept: None,
            replies,
            writer,
            fault: TalkFault::Journal,
        }
    }

    /// The connection, at the end.
    pub fn into_end(self) -> Connection<'a, W, Free, Clerk<'a, W, C, D, R, K>>
    where
        O: Drop,
        ensures { result ≡ self.entry.caller }
    {
        let Talk {
            end,
            rt: _,
            commit: _,
            due: _,
            kept: _,
            replies: _,
            writer: _,
            fault: _,
        } = self;
        end
    }

    /// Why the last answer broke off.
    pub fn fault(&self) -> TalkFault {
        self.fault
    }

    // Has all that is due kept.
    fn keep_due(&mut self) -> Result<(), TalkFault>
        ensures ok { OnOk result (IsCovered self.new.due self.new.kept) }
        ensures same { self.new ≡ record self.old { kept = self.new.kept } }
    {
        if let Some(due) = &self.due {
            match self.commit.settle(self.rt, due) {
                Ok(kept) => self.kept = Some(kept),
                Err(_) => return Err(TalkFault::Journal),
            }
        }
        Ok(())
    }

    // Hands on what waits: all that is due is kept.
    fn hand_on(&mut self) -> Result<(), TalkFault>
        requires { IsCovered self.old.due self.old.kept }
        ensures ok { OnOk result (HandsOn O.taken self.old [] self.new) }
        ensures err { OnErr result (BreaksOff O.taken self.old [] self.new) }
    {
        if put_all(&mut self.writer, self.replies.bytes()).is_err() {
            return Err(TalkFault::Write);
        }
        self.replies.cut(0);
        if self.writer.flush().is_err() {
            return Err(TalkFault::Write);
        }
        Ok(())
    }

    /// Has all that is due kept, and hands on what waits. Where the journal fails nothing is handed on.
    pub fn settle(&mut self) -> Result<(), TalkFault>
        ensures ok { OnOk result (HandsOn O.taken self.old [] self.new) }
        ensures err { OnErr result (BreaksOff O.taken self.old [] self.new) }
    {
        self.keep_due()?;
        self.hand_on()
    }

    // Tells a reply: it waits where there is room; else all that is due is kept first, and it goes out at once behind
    // what waits.
    fn tell(&mut self, reply: &Reply) -> Result<(), TalkFault>
        ensures ok { OnOk result (Tells O.taken self.old (reply_text reply.now) self.new) }
        ensures err { OnErr result (BreaksOff O.taken self.old (reply_text reply.now) self.new) }
    {
        if self.replies.hold(reply) {
            return Ok(());
        }
        self.settle()?;
        if write_reply(&mut self.writer, reply).is_err() {
            return Err(TalkFault::Write);
        }
        Ok(())
    }

    // Takes note of what is recorded up to a call, which begins with all that was due before.
    fn owe(&mut self, lines: Front<R>) -> Result<(), TalkFault>
        ensures ok { OnOk result ((self.new ≡ record self.old { due = Some lines }) × Covers lines self.old.due) }
        ensures err { OnErr result (self.new ≡ self.old) }
    {
        if let Some(due) = &self.due {
            if !lines.covers(due) {
                return Err(TalkFault::Journal);
            }
        }
        self.due = Some(lines);
        Ok(())
    }

    // Takes note of what the clerk says of a call, if there was one.
    fn take_note(&mut self, mark: Option<Option<Front<R>>>) -> Result<(), TalkFault>
        ensures ok { OnOk result (IsDue self.old.due mark self.new.due × (self.new ≡ record self.old { due = self.new.due })) }
        ensures err { OnErr result (self.new ≡ self.old) }
    {
        match mark {
            None => Ok(()),
            Some(None) => Err(TalkFault::Journal),
            Some(Some(lines)) => self.owe(lines),
        }
    }

    // The reply to a line, and what is due by it. Where the call could not be recorded there is none.
    fn exchange(&mut self, alloc: Global, line: Option<&[u8]>) -> Result<Reply, TalkFault>
        ensures ok { IfOk result (λ reply. Replied self.old (option_map (λ s. s.now) line.entry) reply self.new) }
        ensures err { OnErr result (Goes self.old.caller self.new.caller × (self.new.writer ≡ self.old.writer)) }
    {
        let (reply, mark) = match self.end.reply(alloc, line) {
            Ok(replied) => replied,
            Err(_) => return Err(TalkFault::Exhausted),
        };
        self.take_note(mark)?;
        Ok(reply)
    }

    // Answers a line, and tells the reply. Where the call could not be recorded nothing is told.
    fn answer_line(&mut self, alloc: Global, line: Option<&[u8]>) -> Result<(), TalkFault>
        ensures ok { OnOk result (AnswersLine O.taken self.old (option_map (λ s. s.now) line.entry) self.new) }
        ensures err { OnErr result (BreaksLine O.taken self.old (option_map (λ s. s.now) line.entry) self.new) }
    {
        let reply = self.exchange(alloc, line)?;
        self.tell(&reply)
    }
}

impl<'a, W: Wait, C: Clock, D: Device, R: Naming, K: Ahead, O: ByteOut> Responder
    for Talk<'a, W, C, D, R, K, O> {
    ghost answers = { Answers O.taken };

    ghost breaks = { AnswersBreak O.taken };

    fn answer<V: ByteOut>(&mut self, alloc: Global, line: Option<&[u8]>, _writer: &mut V) -> Ended {
        match self.answer_line(alloc, line) {
            Ok(()) => Ok(()),
            Err(fault) => {
                self.fault = fault;
                Err(Fault::Exhausted)
            }
        }
    }
}
