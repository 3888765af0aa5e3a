//! Entries of the journal: which session did what.
ghost use Rattle.std.specs.Prelude.{◌≡◌, ◌≤◌, ◌==◌, Bool, IfOk, is_some, option_map};
ghost use Rattle.std.specs.Option.{option_copied};
ghost use Rattle.tsn_edit.specs.Parts.{most_parts};
ghost use Rattle.tsn_entries.specs.Entries.{added_parts, adds, applied, applies, closes, is_made, names, settles_to, undoes};
ghost use Rattle.tsn_entries.specs.declared.entries.MarkedEntry.{MarkedEntry as AnyEntry};
ghost use Rattle.tsn_entries.specs.Finding.{last_where};
ghost use Rattle.tsn_entries.specs.Tests.{Tests};
ghost use Rattle.tsn_entries.specs.Marks.{ends_redo, entries_of, entry_in, is_in_conflict, is_own, standing_change, stands};

use std::alloc::{AllocError, Global};
use std::marker::Model;
use tsn_edit::{Change, conflicts};
use tsn_types::keys::Key;
use tsn_types::numbers::Instant;

/// An act on the gate control list of a port or a stream gate (802.1Q-2018, 8.6.9).
#[derive(Clone, Copy, Debug, PartialEq, Eq)]
pub enum Act {
    /// Its gates are enabled.
    Enable,
    /// Its gates are disabled.
    Disable,
    /// The list of its record becomes pending (ConfigChange).
    Apply,
}

/// What an entry did. Changes are of the configuration; an act and a settle change none.
#[derive(Debug, Drop)]
pub enum What {
    /// An edit was accepted, and this change applied.
    Made(Change),
    /// The Made or Redone entry of the number `of` was taken back, by this change.
    Undone { of: u64, change: Change },
    /// The Undone entry of the number `of` was taken back, by this change.
    Redone { of: u64, change: Change },
    /// An act on the key, at the instant that counted.
    Acted { act: Act, key: Key, now: Instant },
    /// The entries up to the number `upto` were made final: those that stood are taken back no more.
    Settled { upto: u64 },
}

impl What {
    /// The change that was applied; an act and a settle apply none. It takes no memory.
    pub fn change(&self) -> Option<&Change>
        ensures { option_copied result ≡ applies self.now }
    {
        match self {
            What::Made(change) => Some(change),
            What::Undone { change, .. } => Some(change),
            What::Redone { change, .. } => Some(change),
            What::Acted { .. } | What::Settled { .. } => None,
        }
    }

    /// A copy that equals its source.
    pub fn try_clone(&self) -> Result<What, AllocError>
        ensures { IfOk result (λ copy. copy ≡ self.now) }
    {
        Ok(match self {
            What::Made(change) => What::Made(change.try_clone()?),
            What::Undone { of, change } => What::Undone {
                of: *of,
                change: change.try_clone()?,
            },
            What::Redone { of, change } => What::Redone {
                of: *of,
                change: change.try_clone()?,
            },
            What::Acted { act, key, now } => What::Acted {
                act: *act,
                key: *key,
                now: *now,
            },
            What::Settled { upto } => What::Settled { upto: *upto },
        })
    }

    /// The change of an entry that may stand: one that was made or redone.
    pub fn added(&self) -> Option<&Change>
        ensures { option_copied result ≡ adds self.now }
    {
        match self {
            What::Made(change) => Some(change),
            What::Redone { change, .. } => Some(change),
            _ => None,
        }
    }

    /// How many parts of changes it adds to what may stand: 0 to 16.
    pub fn added_parts(&self) -> usize
        ensures parts { result ≡ added_parts self.now }
        ensures few { result ≤ most_parts }
    {
        match self.added() {
            Some(change) => change.parts().len(),
            None => 0,
        }
    }

    /// Whether an entry that did this may stand: one that was made or redone.
    pub fn may_stand(&self) -> bool
        ensures { result ≡ is_some (adds self.now) }
    {
        matches!(self, What::Made(_) | What::Redone { .. })
    }

    /// The number of the entry that this takes back.
    pub fn names(&self) -> Option<u64>
        ensures { result ≡ names self.now }
    {
        match self {
            What::Undone { of, .. } => Some(*of),
            What::Redone { of, .. } => Some(*of),
            _ => None,
        }
    }

    /// Up to which number this settles the entries, and 0 where it settles none.
    pub fn settles_to(&self) -> u64
        ensures { result ≡ settles_to self.now }
    {
        match self {
            What::Settled { upto } => *upto,
            _ => 0,
        }
    }

    /// Whether this takes back the entry, or settles it.
    pub fn closes(&self, entry: &Entry) -> bool
        ensures { result ≡ closes self.now entry.now }
    {
        match self {
            What::Undone { of, .. } => *of == entry.number && entry.what.may_stand(),
            What::Redone { of, .. } => {
                *of == entry.number && matches!(entry.what, What::Undone { .. })
            }
            What::Settled { upto } => entry.number <= *upto,
            _ => false,
        }
    }
}

/// An entry of the journal. Entries are numbered from 1, in the order in which they were made.
#[derive(Debug, Drop)]
pub struct Entry {
    /// The entry's place in the journal, from 1.
    pub number: u64,
    /// The session whose command made the entry.
    pub session: u32,
    pub what: What,
}

impl Entry {
    /// A copy that equals its source.
    pub fn try_clone(&self) -> Result<Entry, AllocError>
        ensures { IfOk result (λ copy. copy ≡ self.now) }
    {
        Ok(Entry {
            number: self.number,
            session: self.session,
            what: self.what.try_clone()?,
        })
    }
}

/// Copies of entries, in the order of their numbers, seen as the list of them.
#[derive(Debug, Drop)]
pub struct Entries(Vec<Entry>);

impl Model for Entries {
    ghost use Rattle.std.specs.Prelude.{List};
    ghost use Rattle.tsn_entries.specs.declared.entries.Entry.{Entry};

    ghost Value = { List Entry };

    ghost view = { λ a. a.0.items };
}

impl Entries {
    /// The entries.
    pub fn as_slice(&self) -> &[Entry]
        ensures { result.now ≡ self.now }
    {
        &self.0
    }

    /// Copies of the marked entries. Refused only for want of memory.
    pub fn copies_of(alloc: Global, marked: &[MarkedEntry]) -> Result<Entries, AllocError>
        ensures { IfOk result (λ copies. copies ≡ entries_of marked.now) }
    {
        Ok(Entries(copied(alloc, marked)?))
    }
}

fn copied(alloc: Global, marked: &[MarkedEntry]) -> Result<Vec<Entry>, AllocError>
    ensures { IfOk result (λ copies. copies.items ≡ entries_of marked.now) }
{
    let mut copies = Vec::with_capacity(alloc, marked.len())?;
    for row in marked {
        copies.push_reserved(row.entry.try_clone()?);
    }
    Ok(copies)
}

/// An entry as the journal keeps it: with a mark that is on until a later entry takes it back or settles it.
#[derive(Debug, Drop)]
pub struct MarkedEntry {
    // ahead of the entry, so that it lies beside the members that a search looks at first
    pub is_open: bool,
    pub entry: Entry,
}

impl MarkedEntry {
    /// The entry.
    pub fn entry(&self) -> &Entry
        ensures { result.now ≡ entry_in self.now }
    {
        &self.entry
    }

    /// Whether the entry stands.
    pub fn stands(&self) -> bool
        ensures { result ≡ is_some (stands self.now) }
    {
        self.is_open && self.entry.what.may_stand()
    }

    /// The change of the entry, where it stands.
    pub fn standing_change(&self) -> Option<&Change>
        ensures { option_copied result ≡ standing_change self.now }
    {
        if self.stands() {
            self.entry.what.change()
        } else {
            None
        }
    }

    /// Whether the entry is the session's.
    pub fn is_of(&self, session: u32) -> bool
        ensures { result ≡ (self.now.entry.session == session) }
    {
        self.entry.session == session
    }

    /// Whether the entry stands and is the session's.
    pub fn is_own(&self, session: u32) -> bool
        ensures { result ≡ is_own session self.now }
    {
        self.stands() && self.is_of(session)
    }

    /// Whether the entry applied a change in conflict with the earlier one.
    pub fn conflicts_with(&self, earlier: &Change) -> bool
        ensures { result ≡ is_in_conflict (applies self.now.entry.what) earlier.now }
    {
        match self.entry.what.change() {
            Some(change) => conflicts(change, earlier),
            None => false,
        }
    }

    /// Whether a search for what a session may redo ends at an entry of its own like this: an edit, or an Undone entry
    /// that nothing took back.
    pub fn ends_redo(&self) -> bool
        ensures { result ≡ ends_redo self.now }
    {
        match self.entry.what {
            What::Made(_) => true,
            What::Undone { .. } => self.is_open,
            _ => false,
        }
    }

    /// The entry's number, where it is an Undone entry.
    pub fn undone_number(&self) -> Option<u64>
        ensures { result ≡ option_map (λ x. x.number) (applied undoes self.now.entry) }
    {
        match self.entry.what {
            What::Undone { .. } => Some(self.entry.number),
            _ => None,
        }
    }
}

/// The last entry that passes the test.
pub fn last<'a, F: Fn(&MarkedEntry) -> bool>(
    marked: &'a [MarkedEntry],
    test: &F,
) -> Option<&'a MarkedEntry>
    requires { F.IsAlwaysCallable test.now }
    ensures { (p : AnyEntry → Bool) → Tests F.Fn p test.now → option_copied result ≡ last_where p marked.now }
{
    let mut place = marked.len();
    'back: while 0 < place {
        place -= 1;
        let last = &marked[place];
        if test(last) {
            return Some(last);
        }
    }
    None
}
