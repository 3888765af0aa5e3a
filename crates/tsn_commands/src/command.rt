//! What a session may ask of the bridge, one variant for each command.
ghost use Rattle.std.specs.Prelude.{◌≡◌};
ghost use Rattle.tsn_commands.specs.Commands.{CommandInRange, act_command};

use tsn_chain::frame::Frame;
use tsn_edit::batches::Batch;
use tsn_entries::entries::Act;
use tsn_types::keys::{Key, Kind};
use tsn_types::names::SessionName;
use tsn_types::numbers::Instant;
use tsn_types::records::Record;

/// The greatest number of sessions that a bridge gives out.
pub const MOST_SESSIONS: u32 = 65_535;

/// What is asked of the bridge at a time: a command of a session.
#[derive(Debug, Drop)]
pub struct Ask {
    /// The session that gives the command, 1 to 65,535. That of a hello is not looked at.
    pub session: u32,
    pub command: Command,
}

/// A command, without the session that gives it.
#[derive(Debug, Drop)]
pub enum Command {
    /// Goes on as the session of the name, where one is said and a session has it, and asks for a session number
    /// elsewhere.
    Hello { name: Option<SessionName> },
    /// Creates the record at an absent key.
    Create { key: Key, value: Record },
    /// Puts the record in the place of the one at the key.
    Replace { key: Key, value: Record },
    /// Removes the record at the key.
    Remove { key: Key },
    /// Makes the edits, all at once or none.
    Batch { batch: Batch },
    /// Takes back the newest standing entry of the session.
    Undo,
    /// Takes back all standing entries of the session, or none.
    UndoAll,
    /// Takes back the newest undo of the session that nothing has ended.
    Redo,
    /// Makes the entries up to the number final: those that stand are taken back no more.
    Settle { upto: u32 },
    /// Enables the gates of a port or a stream gate at an instant.
    Enable { key: Key, now: Instant },
    /// Disables the gates of a port or a stream gate at an instant.
    Disable { key: Key, now: Instant },
    /// Applies the list of a port's or a stream gate's record at an instant.
    Apply { key: Key, now: Instant },
    /// Hands in a frame at an instant.
    Frame { frame: Frame, now: Instant },
    /// Asks for the state of a port's or a stream gate's gates at an instant.
    States { key: Key, at: Instant },
    /// Asks for the counters, flags and latches at the key.
    Counters { key: Key },
    /// Asks for the record at the key.
    Show { key: Key },
    /// Asks for the numbers of all instances of the kind.
    List { kind: Kind },
    /// Asks for the journal's entries of a greater number than `after`.
    Since { after: u32 },
    /// Goes on as the session, which changes nothing: who lost a connection still has its undo.
    Resume,
    /// Asks for the sessions that were given out, and how many entries of each stand.
    Sessions,
    /// Asks for the present configuration as the text of a setup.
    Setup,
}

impl Command {
    /// The command of an act on a key, at an instant.
    pub fn of_act(act: Act, key: Key, now: Instant) -> Command
        ensures { result ≡ act_command act key now }
    {
        match act {
            Act::Enable => Command::Enable { key, now },
            Act::Disable => Command::Disable { key, now },
            Act::Apply => Command::Apply { key, now },
        }
    }

    /// Tells a proof that the numbers of the command's records are in their ranges, and that its name may be one. It
    /// does nothing else.
    pub fn recall_ranges(&self)
        ensures { CommandInRange self.now }
    {
        match self {
            Command::Hello { name: Some(name) } => name.recall_range(),
            Command::Create { key: _, value } => value.recall_ranges(),
            Command::Replace { key: _, value } => value.recall_ranges(),
            Command::Batch { batch } => batch.recall_ranges(),
            _ => {}
        }
    }
}
