//! Groups of entries that a finder looks through.
ghost use Rattle.std.specs.Prelude.{◌≡◌};
ghost use Rattle.tsn_types.specs.Keys.{keys_of_refs, refs_of};
ghost use Rattle.tsn_journal.specs.Index.{belongs};

use tsn_edit::{is_on, is_referred_after};
use tsn_entries::entries::MarkedEntry;
use tsn_types::keys::Key;
use tsn_types::records::{Record, Refs};

/// How many groups of its session an entry may belong to at most.
pub(crate) const SESSION_GROUPS: usize = 2;

/// How many groups an entry may belong to at most for each part of its change: on its key, and referring to two.
pub(crate) const PART_GROUPS: usize = 3;

/// Entries that a finder looks through, the newest first.
#[derive(Clone, Copy, Debug)]
pub(crate) enum Group {
    /// The standing entries on the key.
    On(Key),
    /// The standing entries whose value after refers to the key.
    RefersTo(Key),
    /// The session's standing entries.
    Of(u32),
    /// The session's entries at which a search for what it may redo ends.
    EndsRedo(u32),
}

/// What a value refers to; none refers to nothing.
pub(crate) fn refs_of(value: &Option<Record>) -> Refs
    ensures { keys_of_refs result ≡ refs_of value.now }
{
    match value {
        Some(record) => record.refs(),
        None => Refs {
            first: None,
            second: None,
        },
    }
}

impl Group {
    /// Whether the entry belongs to the group.
    pub(crate) fn has(&self, entry: &MarkedEntry) -> bool
        ensures { result ≡ belongs self.now entry.now }
    {
        match self {
            Group::On(key) => match entry.standing_change() {
                Some(change) => is_on(change.parts(), key),
                None => false,
            },
            Group::RefersTo(key) => match entry.standing_change() {
                Some(change) => is_referred_after(change.parts(), key),
                None => false,
            },
            Group::Of(session) => entry.is_own(*session),
            Group::EndsRedo(session) => entry.is_of(*session) && entry.ends_redo(),
        }
    }
}
