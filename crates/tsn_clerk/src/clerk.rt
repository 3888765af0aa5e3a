//! Who attends the turns of a desk whose work lasts: it records each command in its turn, if that lasts and was
//! accepted, and no hello that goes on as a session.
ghost use Rattle.std.specs.Prelude.{◌≡◌, ◌⊎◌, IfSome, true};
ghost use Rattle.tsn_commands.specs.declared.command.Ask.{Ask as AnyAsk};
ghost use Rattle.tsn_commands.specs.Commands.{act_command};
ghost use Rattle.tsn_bridge.specs.Rule.{may_change};
ghost use Rattle.tsn_replay.specs.Recording.{instant_told};
ghost use Rattle.tsn_spelling.specs.Line.{line_text};
ghost use Rattle.tsn_clerk.specs.Noting.{EndsWith, IsHeard, IsRecorded, manner_of};

use crate::line::Line;
use std::alloc::{AllocError, Global};
use std::sync::Wait;
use tsn_bridge::bridge::Bridge;
use tsn_bridge::command::{Ask, Command};
use tsn_bridge::reply::Reply;
use tsn_commit::{Ahead, Commit};
use tsn_desk::machine::Witness;
use tsn_device::Device;
use tsn_history::{Front, Naming};
use tsn_journal::entries::Act;
use tsn_keeping::Clock;
use tsn_types::keys::Key;
use tsn_types::numbers::Instant;

/// How a command is kept, if it is accepted.
#[derive(Clone, Copy, Debug, PartialEq, Eq)]
pub enum Manner {
    /// As it is.
    Itself,
    /// As a hello, which is of no session.
    Hello,
    /// As an act on this key at the instant that counts.
    Act(Act, Key),
    /// Not at all.
    Passing,
}

/// What was heard of a turn, ahead of it.
#[derive(Clone, Copy, Debug, PartialEq, Eq)]
pub enum Heard {
    /// Nothing that is ever recorded.
    Passing,
    /// A command whose line was spelled.
    Line,
    /// An act of this session, whose line waits for the instant that counts.
    Act(Act, Key, u32),
    /// A command whose line could not be spelled. The room for it is taken once, so there is none such.
    Lost,
}

/// Who records commands in a text that threads share. It takes all memory that it ever needs when it is made, that of
/// the longest line.
#[derive(Drop)]
pub struct Clerk<'a, W: Wait, C: Clock, D: Device, R: Naming, K: Ahead> {
    rt: &'a W,
    commit: &'a Commit<C, D, R, K>,
    heard: Heard,
    line: Line,
}

fn manner_of(command: &Command) -> Manner
    ensures { result ≡ manner_of command.now }
{
    match command {
        Command::Hello { .. } => Manner::Hello,
        Command::Enable { key, .. } => Manner::Act(Act::Enable, *key),
        Command::Disable { key, .. } => Manner::Act(Act::Disable, *key),
        Command::Apply { key, .. } => Manner::Act(Act::Apply, *key),
        Command::Create { .. }
        | Command::Replace { .. }
        | Command::Remove { .. }
        | Command::Batch { .. }
        | Command::Undo
        | Command::UndoAll
        | Command::Redo
        | Command::Settle { .. } => Manner::Itself,
        _ => Manner::Passing,
    }
}

// The instant that counted for an act, where it was accepted.
fn instant_in(reply: &Reply) -> Option<Instant>
    ensures { IfSome result (λ now. now ≡ instant_told reply.now) }
{
    match reply {
        Reply::Acted { now, .. } => Some(*now),
        _ => None,
    }
}

impl<'a, W: Wait, C: Clock, D: Device, R: Naming, K: Ahead> Clerk<'a, W, C, D, R, K> {
    pub fn new(
        alloc: Global,
        rt: &'a W,
        commit: &'a Commit<C, D, R, K>,
    ) -> Result<Clerk<'a, W, C, D, R, K>, AllocError> {
        let line = Line::new(alloc)?;
        Ok(Clerk {
            rt,
            commit,
            heard: Heard::Lost,
            line,
        })
    }

    // What is heard of a command whose line is kept.
    fn heard_as(&mut self, ask: &Ask) -> Heard
        ensures line { result ≡ Heard.Line → self.new.line ≡ line_text ask.now }
        ensures either { (result ≡ Heard.Line) ⊎ (result ≡ Heard.Lost) }
    {
        if self.line.spell(ask) {
            Heard::Line
        } else {
            Heard::Lost
        }
    }

    // Records the line that was spelled behind all others, of a command that may have changed the bridge. In a turn
    // nobody else records.
    fn record(&self, _reply: &Reply) -> Option<Front<R>>
        requires { may_change _reply.now ≡ true }
        ensures { IfSome result (λ lines. EndsWith lines self.now.line) }
    {
        self.commit.add(self.rt, self.line.bytes()).ok()
    }

    // Records an act at the instant that the reply tells.
    fn record_act(&mut self, act: Act, key: Key, session: u32, reply: &Reply) -> Option<Front<R>>
        requires { may_change reply.now ≡ true }
        ensures { IfSome result (λ lines.
            EndsWith lines (line_text (record { session = session; command = act_command act key (instant_told reply.now) }))) }
    {
        let now = instant_in(reply)?;
        let ask = Ask {
            session,
            command: Command::of_act(act, key, now),
        };
        if !self.line.spell(&ask) {
            return None;
        }
        self.record(reply)
    }

    // Records what was heard, and may have changed the bridge by this reply.
    #[tactic(auto, using(crate::proofs::Noting::noted_line, crate::proofs::Noting::noted_act, crate::proofs::Noting::noted_none))]
    fn note(&mut self, reply: &Reply) -> Option<Front<R>>
        requires { may_change reply.now ≡ true }
        ensures { (ask : AnyAsk) → IsHeard self.old.heard self.old.line ask → IsRecorded ask reply.now result }
    {
        match self.heard {
            Heard::Passing => Some(self.commit.recorded(self.rt)),
            Heard::Line => self.record(reply),
            Heard::Act(deed, key, session) => self.record_act(deed, key, session, reply),
            Heard::Lost => None,
        }
    }
}

impl<'a, W: Wait, C: Clock, D: Device, R: Naming, K: Ahead> Witness<Bridge>
    for Clerk<'a, W, C, D, R, K> {
    ghost use Rattle.tsn_clerk.specs.Noting.{IsHeard, IsRecorded};

    /// All that is recorded by the end of the turn, none where this turn's command could not be: then nothing is
    /// recorded any more.
    type Mark = Option<Front<R>>;

    ghost hears = { λ c ask. IsHeard c.heard c.line ask };

    ghost marks = { λ ask reply mark. IsRecorded ask reply mark };

    #[tactic(auto, using(crate::proofs::Noting::hears_passing, crate::proofs::Noting::hears_act, crate::proofs::Noting::hears_itself, crate::proofs::Noting::hears_hello))]
    fn hear(&mut self, ask: &Ask) {
        self.heard = match manner_of(&ask.command) {
            Manner::Passing => Heard::Passing,
            Manner::Act(deed, key) => Heard::Act(deed, key, ask.session),
            Manner::Hello | Manner::Itself => self.heard_as(ask),
        };
    }

    #[tactic(auto, using(tsn_replay::proofs::Forms::no_rest))]
    fn attend(&mut self, reply: &Reply) -> Option<Front<R>> {
        if let Reply::Refused(_) | Reply::Known { .. } = reply {
            return Some(self.commit.recorded(self.rt));
        }
        let mark = self.note(reply);
        if mark.is_none() {
            self.commit.stop(self.rt);
        }
        mark
    }
}
