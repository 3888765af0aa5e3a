//! What the bridge answers, one variant for each form of reply.
use crate::sessions::GivenSessions;
use tsn_chain::frame::Verdict;
use tsn_chain::state::{Counters, State};
use tsn_config::ids::Ids;
use tsn_entries::entries::Entries;
use tsn_export::SetupText;
use tsn_types::keys::Key;
use tsn_types::numbers::Instant;
use tsn_types::records::Record;
use tsn_types::refusals::Refusal;

/// A reply to a command.
#[derive(Debug, Drop)]
pub enum Reply {
    /// The session number that was given out, from 1, or as which a resume goes on.
    Session {
        session: u32,
    },
    /// The session that has the name which a hello said; nothing has changed.
    Known {
        session: u32,
    },
    /// The number of the entry that was made.
    Entry {
        entry: u64,
    },
    /// The number of the entry that was made and of the entry that it takes back.
    EntryOf {
        entry: u64,
        of: u64,
    },
    /// How many entries were taken back, and the number of the last entry that was made.
    TakenBack {
        count: u64,
        entry: u64,
    },
    /// The number of the entry that was made, and up to which number the entries are settled.
    Settled {
        entry: u64,
        settled: u64,
    },
    /// The change time that an act leads to, in nanoseconds, the number of the entry that was made, and the instant
    /// that counted.
    Acted {
        change: Option<u64>,
        entry: u64,
        now: Instant,
    },
    /// The verdict on a frame.
    Framed(Verdict),
    /// The state of a port's or a stream gate's gates.
    States(State),
    /// The counters, flags and latches of an instance.
    Counters(Counters),
    /// The record at the key.
    Shown {
        key: Key,
        value: Record,
    },
    /// The numbers of the instances, ascending.
    Ids {
        ids: Ids,
    },
    /// Entries of the journal, in the order of their numbers.
    Entries {
        entries: Entries,
    },
    /// The sessions that were given out, in the order of their numbers.
    Sessions {
        sessions: GivenSessions,
    },
    /// The present configuration as a setup in the plain spelling.
    Setup {
        text: SetupText,
    },
    /// Why the command was refused; nothing has changed.
    Refused(Refusal),
}
