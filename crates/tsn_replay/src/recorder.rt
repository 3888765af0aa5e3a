//! The recorder: a bridge, and the text of what was recorded of what was asked of it.
//!
//! It is a machine, which a desk can serve: a turn is a step of the bridge, and puts the line of the recorded command
//! behind the text, where the command was accepted and is of a kind that lasts. Memory for the line is taken before the
//! bridge steps, so that nothing is refused behind the step. Whoever writes the text into a file reads it and takes it
//! away.
ghost use Rattle.std.specs.Prelude.{[], ◌≡◌, ◌∷◌, ◌++◌, ◌⊎◌, ◌<◌, ◌≤◌, IfErr, IsSome, List, OnErr, OnOk, length, ℕ};
ghost use Rattle.tsn_types.specs.declared.refusals.Refusal.TheVariants.{Memory, TooLong};
ghost use Rattle.tsn_bridge.specs.Acts.{instant};
ghost use Rattle.tsn_replay.specs.Forms.{FormOf, IsUnwritten, Keeps};
ghost use Rattle.tsn_replay.specs.Recorder.{IsOneLine, Records, line_feed};
ghost use Rattle.tsn_replay.specs.Recording.{kept};

use std::alloc::{AllocError, Global};
use std::marker::{Model, PhantomData};
use tsn_bridge::bridge::Bridge;
use tsn_bridge::command::{Ask, Command};
use tsn_bridge::reply::Reply;
use tsn_machine::machine::Machine;
use tsn_types::numbers::Instant;
use tsn_types::refusals::Refusal;

/// How what is kept of a command is spelled, as a line.
pub trait Spell {
    ghost use Rattle.tsn_commands.specs.declared.command.Ask.{Ask as AnyAsk};

    /// How many bytes a line has at most, its line feed left out.
    const MOST: usize;

    ghost MOST: { ℕ };

    /// The line of an ask, with no line feed.
    ghost line: { AnyAsk → List ℕ };

    /// Puts the line of the ask behind the text. Refused only for want of memory, with the text as it was.
    fn spell(ask: &Ask, text: &mut Vec<u8>) -> Result<(), AllocError>
        ensures ok { OnOk result (text.new.items ≡ text.old.items ++ line ask.now) }
        ensures one_line { OnOk result (IsOneLine (line ask.now)) }
        ensures err { OnErr result (text.new.items ≡ text.old.items) };
}

/// What is asked of a bridge, as it is kept where it is of a kind that is recorded: a hello of no session, an act at
/// the instant that counts.
#[derive(Drop)]
pub enum Form {
    Kept(Ask),
    Passing(Ask),
}

/// A bridge and the text of what was recorded of it, in lines as they are spelled so.
#[derive(Drop)]
pub struct Recorder<S: Spell> {
    bridge: Bridge,
    text: Vec<u8>,
    spelling: PhantomData<S>,
}

impl<S: Spell> Model for Recorder<S> {
    ghost use Rattle.tsn_replay.specs.Recorder.{Recording, recording_code};

    ghost Value = { Recording };

    ghost coded = { recording_code };

    ghost view = { λ a. record { bridge = a.bridge; text = a.text.items } };
}

impl<S: Spell> Recorder<S> {
    /// A recorder of the bridge, with no text. It takes no memory.
    pub fn new(alloc: Global, bridge: Bridge) -> Recorder<S>
        ensures { result ≡ record { bridge = bridge; text = [] } }
    {
        Recorder {
            bridge,
            text: Vec::new(alloc),
            spelling: PhantomData,
        }
    }

    /// What was recorded since the text was last taken away: a line for each recorded command, ended by a line feed.
    pub fn text(&self) -> &[u8]
        ensures { result.now ≡ self.now.text }
    {
        &self.text
    }

    /// Takes the text away. Its memory stays, for what is recorded next.
    pub fn clear(&mut self)
        ensures { self.new ≡ record self.old { text = [] } }
    {
        self.text.clear();
    }

    /// A turn at what is kept of a command: its line is put behind the text, the bridge steps, and a line of a command
    /// that was refused, or goes on as a session, is cut off again.
    fn keep(&mut self, ask: Ask) -> Reply
        requires { IsSome (kept ask.session ask.command 0) }
        ensures { Keeps S.line S.MOST self.old ask result self.new }
    {
        let before = self.text.len();
        if let Err(why) = put_line::<S>(&ask, &mut self.text) {
            return Reply::Refused(refuse_unwritten(&self.bridge, ask, why));
        }
        let Ask { session, command } = ask;
        let reply = self.bridge.step(session, command);
        if let Reply::Refused(_) | Reply::Known { .. } = reply {
            self.text.truncate(before);
        }
        reply
    }
}

/// A turn is a step of the bridge, and puts just the line of the recorded command behind the text. Where there is no
/// memory for the line, the answer is the command's cause, or 18 where it has none; a line that is too long is refused
/// 1. Refused, nothing has changed.
impl<S: Spell> Machine for Recorder<S> {
    type Request = Ask;

    type Reply = Reply;

    ghost steps = { Records S.line S.MOST };

    fn step(&mut self, ask: Ask) -> Reply {
        ask.command.recall_ranges();
        match form_of(&self.bridge, ask) {
            Form::Passing(ask) => {
                let Ask { session, command } = ask;
                self.bridge.step(session, command)
            }
            Form::Kept(ask) => self.keep(ask),
        }
    }
}

/// Puts the line of what is kept behind the text, and a line feed. Refused 1 where the line is too long, and 18; the
/// text is then as it was.
fn put_line<S: Spell>(ask: &Ask, text: &mut Vec<u8>) -> Result<(), Refusal>
    ensures ok { OnOk result (text.new.items ≡ text.old.items ++ S.line ask.now ++ line_feed ∷ []) }
    ensures one_line { OnOk result (IsOneLine (S.line ask.now)) }
    ensures within { OnOk result (length (S.line ask.now) ≤ S.MOST) }
    ensures refused { IfErr result (λ why. (why ≡ Memory) ⊎ ((why ≡ TooLong) × (S.MOST < length (S.line ask.now)))) }
    ensures err { OnErr result (text.new.items ≡ text.old.items) }
{
    let before = text.len();
    if S::spell(ask, text).is_err() {
        return Err(Refusal::Memory);
    }
    if text.len() - before > S::MOST {
        text.truncate(before);
        return Err(Refusal::TooLong);
    }
    if text.push(b'\n').is_err() {
        text.truncate(before);
        return Err(Refusal::Memory);
    }
    Ok(())
}

/// How a command is refused whose line could not be put: 1 where it is too long; where memory is wanting, by the
/// command's cause, and 18 only where it has none.
fn refuse_unwritten(bridge: &Bridge, ask: Ask, why: Refusal) -> Refusal
    requires { IsSome (kept ask.session ask.command 0) }
    ensures { IsUnwritten bridge.now ask why result }
{
    if let Refusal::TooLong = why {
        return why;
    }
    let Ask { session, command } = ask;
    match bridge.cause(session, command) {
        Some(cause) => cause,
        None => Refusal::Memory,
    }
}

/// In which form what is asked is recorded, if it is accepted.
pub fn form_of(bridge: &Bridge, ask: Ask) -> Form
    ensures { FormOf bridge.now ask result }
{
    let Ask { session, command } = ask;
    match command {
        Command::Hello { name } => Form::Kept(Ask {
            session: 0,
            command: Command::Hello { name },
        }),
        Command::Enable { key, now } => Form::Kept(Ask {
            session,
            command: Command::Enable {
                key,
                now: recorded_instant(bridge, now),
            },
        }),
        Command::Disable { key, now } => Form::Kept(Ask {
            session,
            command: Command::Disable {
                key,
                now: recorded_instant(bridge, now),
            },
        }),
        Command::Apply { key, now } => Form::Kept(Ask {
            session,
            command: Command::Apply {
                key,
                now: recorded_instant(bridge, now),
            },
        }),
        Command::Create { .. }
        | Command::Replace { .. }
        | Command::Remove { .. }
        | Command::Batch { .. }
        | Command::UndoAll
        | Command::Redo
        | Command::Settle { .. }
        | Command::Undo => Form::Kept(Ask { session, command }),
        _ => Form::Passing(Ask { session, command }),
    }
}

/// The instant at which an act is recorded: the one that counts.
fn recorded_instant(bridge: &Bridge, now: Instant) -> Instant
    ensures { result ≡ instant bridge.now now }
{
    bridge.counted(now)
}
