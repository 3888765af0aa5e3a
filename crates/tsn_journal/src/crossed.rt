//! Up to which number a standing entry may have a later standing one of another session in conflict with it.
//!
//! The number is raised as an entry comes in, to the newest one of another session that it is in conflict with, and it
//! never falls. An entry on a gate or a meter, to which values may refer, raises it to its own number. What stands
//! above it need not be looked at where an entry that is blocked is sought.
ghost use Rattle.std.specs.Prelude.{◌≡◌, ◌≤◌, ◌∷◌, [], Some, false, length};
ghost use Rattle.tsn_journal.specs.Crossed.{IsFoundOn, IsRaised, NoneCrossed, NoneOn, NoneReferred, is_on_referred, is_referred};
ghost use Rattle.tsn_entries.specs.Entries.{IsNumbered, adds};
ghost use Rattle.tsn_journal.specs.Index.{IsIndexed};
ghost use Rattle.tsn_entries.specs.Marks.{entries_of};

use crate::groups::Group;
use crate::index::Index;
use tsn_edit::Part;
use tsn_entries::entries::{MarkedEntry, What};
use tsn_types::keys::Key;

/// The number, or the greater one up to which the session's change, where this adds one, is in conflict with what other
/// sessions have standing. The numbers of what stands on gates and meters lie below the number, and so does that of the
/// change then, where it is on one.
pub(crate) fn crossed_by(
    index: &Index,
    marked: &[MarkedEntry],
    session: u32,
    what: &What,
    number: u64,
) -> u64
    requires index { IsIndexed marked.now index.now }
    requires numbered { IsNumbered 1 (entries_of marked.now) }
    requires referred { NoneReferred number marked.now }
    ensures free { NoneCrossed result (adds what.now) session marked.now }
    ensures rises { number ≤ result }
    ensures own { result ≤ length marked.now → is_on_referred (adds what.now) ≡ false }
    ensures raised { IsRaised number result marked.now session (adds what.now) }
{
    let Some(change) = what.added() else {
        return number;
    };
    let mut crossed = number;
    for part in change.parts() {
        crossed = crossed_by_part(index, marked, session, part, crossed);
    }
    crossed
}

/// The same for a change of the part alone. A value before may have referred to a gate or a meter in any entry; and
/// what a value after refers to is one, so that the number is above what stands on it.
fn crossed_by_part(
    index: &Index,
    marked: &[MarkedEntry],
    session: u32,
    part: &Part,
    number: u64,
) -> u64
    requires index { IsIndexed marked.now index.now }
    requires numbered { IsNumbered 1 (entries_of marked.now) }
    requires referred { NoneReferred number marked.now }
    ensures free { NoneCrossed result (Some (part.now ∷ [])) session marked.now }
    ensures rises { number ≤ result }
    ensures own { result ≤ length marked.now → is_referred part.now.key ≡ false }
    ensures raised { IsRaised number result marked.now session (Some (part.now ∷ [])) }
{
    if is_referred(&part.key) {
        number.max(marked.len() as u64 + 1)
    } else {
        newest_on(index, marked, session, &part.key, number)
    }
}

/// Whether a value may refer to what has the key.
fn is_referred(key: &Key) -> bool
    ensures { result ≡ is_referred key.now }
{
    matches!(key, Key::Gate(_) | Key::Meter(_))
}

/// The number, or the greater one of the newest entry that other sessions have standing on the key.
fn newest_on(index: &Index, marked: &[MarkedEntry], session: u32, key: &Key, number: u64) -> u64
    requires index { IsIndexed marked.now index.now }
    requires numbered { IsNumbered 1 (entries_of marked.now) }
    ensures none { NoneOn result key.now session marked.now }
    ensures rises { number ≤ result }
    ensures raised { IsFoundOn number result marked.now session key.now }
{
    let latest = index.latest.key_nodes(*key).on;
    match index.last_of_others(marked, &Group::On(*key), latest, session, number) {
        Some(found) => found.entry.number.max(number),
        None => number,
    }
}
