//! The journal: entries numbered from 1, with the finders of undo and redo.
//!
//! It keeps a mark with each entry, so that no finder has to look for what took an entry back.
ghost use Rattle.std.specs.Prelude.{◌≡◌, ◌*◌, ◌+◌, ◌≤◌, [], IfErr, IfOk, IfSome, IsOk, IsSome, None, OnErr, OnOk, Some, is_some, length, map, option_map};
ghost use Rattle.std.specs.Option.{option_copied};
ghost use Rattle.tsn_types.specs.Refusals.{IsLeastOrMemory};
ghost use Rattle.tsn_entries.specs.Entries.{Applied, added_parts, most_entries, no_room, settled, settles_to, with_entry};
ghost use Rattle.tsn_entries.specs.Marks.{entries_of};
ghost use Rattle.tsn_entries.specs.Finding.{entry, find_conflict, find_conflict_of_others, find_own_in_conflict, find_redo_conflict, last_of, own_standing, parts_of_all, redo_of, since, standing_entry, undone_entry};

use crate::crossed::crossed_by;
use crate::finding::{
    after, at, conflict_of_others, leave, own_in_conflict, put_off, standing_conflict_after,
};
use crate::groups::{Group, PART_GROUPS, SESSION_GROUPS};
use crate::index::Index;
use crate::touched::redo_conflict;
use std::alloc::{AllocError, Global};
use std::marker::Model;
use tsn_entries::entries::{Entries, Entry, MarkedEntry, What};
use tsn_types::refusals::Refusal;

/// How many entries a journal holds at most.
pub const MOST_ENTRIES: usize = 262_144;

/// Which session did what, entry by entry. `entries` is the list of its entries, `spare` the number of entries that it
/// certainly has room for, and `parts` that of parts of changes.
#[derive(Debug, Drop)]
pub struct Journal {
    marked: Vec<MarkedEntry>,
    index: Index,
    /// How many entries more there is room for.
    room: usize,
    /// For how many parts of their changes there are nodes.
    parts: usize,
    /// Up to which number the entries are settled.
    settled: u64,
    /// Above which number no entry stands on a gate or a meter, nor has a later standing one of another session in
    /// conflict with it.
    crossed: u64,
}

impl Model for Journal {
    ghost use Rattle.std.specs.Vec.{vec_capacity, vec_len};
    ghost use Rattle.tsn_journal.specs.Kept.{IsKept};
    ghost use Rattle.tsn_entries.specs.Marks.{Log, entries_of, log_code};

    ghost Value = { Log };

    ghost coded = { log_code };

    ghost view = { λ a. record { entries = entries_of a.marked.items; spare = a.room; parts = a.parts } };

    ghost invariant = { λ a. IsKept a.marked.items (vec_len a.marked) (vec_capacity a.marked) a.index a.room a.parts a.settled a.crossed };
}

impl Journal {
    /// A journal with no entry. It takes no memory and has room for none; the journal keeps the allocator.
    pub fn new(alloc: Global) -> Journal
        ensures { result ≡ record { entries = []; spare = 0; parts = 0 } }
    {
        Journal {
            marked: Vec::new(alloc),
            index: Index::new(alloc),
            room: 0,
            parts: 0,
            settled: 0,
            crossed: 0,
        }
    }

    /// How many entries there are.
    pub fn len(&self) -> usize
        ensures number { result ≡ length self.now.entries }
        ensures few { result ≤ most_entries }
    {
        self.marked.len()
    }

    /// Makes room for at least `count` entries more that add `parts` parts of changes, at most 16 an entry. It is
    /// refused 17 where the journal never holds so many entries, then 18, and never where there is that room already.
    /// The entries stay, and the room never falls.
    pub fn reserve(&mut self, count: usize, parts: usize) -> Result<(), Refusal>
        requires { parts ≤ 16 * count }
        ensures entries { self.new.entries ≡ self.old.entries }
        ensures free { OnOk result (no_room self.old.entries count ≡ None) }
        ensures ok { OnOk result ((count ≤ self.new.spare) × (parts ≤ self.new.parts)) }
        ensures refused { IfErr result (λ why. IsLeastOrMemory (no_room self.old.entries count) why) }
        ensures spare { (self.old.spare ≤ self.new.spare) × (self.old.parts ≤ self.new.parts) }
        ensures enough { count ≤ self.old.spare → parts ≤ self.old.parts → IsOk result }
    {
        if MOST_ENTRIES - self.marked.len() < count {
            return Err(Refusal::JournalFull);
        }
        if count <= self.room && parts <= self.parts {
            return Ok(());
        }
        let room = count.max(self.room);
        let parts = parts.max(self.parts);
        self.marked.reserve(room)?;
        self.index
            .reserve(SESSION_GROUPS * room + PART_GROUPS * parts)?;
        self.room = room;
        self.parts = parts;
        Ok(())
    }

    /// Puts an entry of the session at the end, in room for one and for the parts that it adds, and answers its number.
    /// One that settles names an entry that is there, or none. It takes no memory.
    #[inline(always)]
    pub fn push(&mut self, session: u32, what: What) -> u64
        requires room { 1 ≤ self.old.spare }
        requires parts { added_parts what ≤ self.old.parts }
        requires settles { settles_to what ≤ length self.old.entries }
        ensures number { result ≡ length self.old.entries + 1 }
        ensures entries { self.new.entries ≡ with_entry self.old.entries session what }
        ensures spare { self.old.spare ≤ self.new.spare + 1 }
        ensures parts { self.old.parts ≤ self.new.parts + added_parts what }
    {
        let parts = what.added_parts();
        let settled = self.settled.max(what.settles_to());
        let crossed = crossed_by(&self.index, &self.marked, session, &what, self.crossed);
        put_off(&mut self.marked, &what, self.settled);
        let number = self.marked.len() as u64 + 1;
        let taken_back = what.names();
        self.marked.push_reserved(MarkedEntry {
            entry: Entry {
                number,
                session,
                what,
            },
            is_open: true,
        });
        self.index.enter(&self.marked, parts);
        leave(
            &mut self.index,
            &self.marked,
            taken_back,
            self.settled as usize,
            settled as usize,
        );
        self.settled = settled;
        self.crossed = crossed;
        self.room -= 1;
        self.parts -= parts;
        number
    }

    /// Up to which number the entries are settled, and 0 where none is. It takes no memory.
    pub fn settled(&self) -> u64
        ensures { result ≡ settled self.now.entries }
    {
        self.settled
    }

    /// The entry of the number, none where there is none. It takes no memory.
    pub fn entry(&self, number: u64) -> Option<&Entry>
        ensures { option_copied result ≡ entry self.now.entries number }
    {
        match at(&self.marked, number) {
            Some(marked) => Some(&marked.entry),
            None => None,
        }
    }

    /// Whether there is an entry of the number and it stands. It takes no memory.
    pub fn standing(&self, number: u64) -> bool
        ensures { result ≡ is_some (standing_entry self.now.entries number) }
    {
        match at(&self.marked, number) {
            Some(marked) => marked.stands(),
            None => false,
        }
    }

    /// The number of the session's newest standing entry, if it has one. It takes no memory.
    pub fn last_of(&self, session: u32) -> Option<u64>
        ensures { result ≡ option_map (λ x. x.number) (last_of self.now.entries session) }
    {
        Some(self.newest_of(session)?.entry.number)
    }

    /// The session's newest standing entry itself.
    fn newest_of(&self, session: u32) -> Option<&MarkedEntry>
        ensures { option_map (λ m. m.entry.number) (option_copied result) ≡ option_map (λ x. x.number) (last_of self.now.entries session) }
    {
        let latest = self.index.latest.session_nodes(session).standing;
        self.index
            .latest_in(&self.marked, &Group::Of(session), latest)
    }

    /// The number of the session's newest Undone entry that may be redone, if there is one: it comes after the
    /// session's last edit, and no Redone entry names it. It takes no memory.
    pub fn redo_of(&self, session: u32) -> Option<u64>
        ensures newest { result ≡ option_map (λ x. x.number) (redo_of self.now.entries session) }
        ensures undone { IfSome result (λ n. IsSome (undone_entry self.now.entries n)) }
    {
        let latest = self.index.latest.session_nodes(session).ends_redo;
        match self
            .index
            .latest_in(&self.marked, &Group::EndsRedo(session), latest)
        {
            Some(marked) => marked.undone_number(),
            None => None,
        }
    }

    /// How many standing entries the session has. It takes no memory.
    pub fn count_of(&self, session: u32) -> usize
        ensures count { result ≡ length (own_standing self.now.entries session) }
        ensures few { result ≤ length self.now.entries }
    {
        self.index
            .tally_of(&self.marked, session, self.settled)
            .entries
    }

    /// How many parts the changes of the session's standing entries have in all. It takes no memory.
    pub fn parts_of(&self, session: u32) -> usize
        ensures { result ≡ parts_of_all (own_standing self.now.entries session) }
    {
        self.index
            .tally_of(&self.marked, session, self.settled)
            .parts
    }

    /// The numbers of the session's standing entries, rising. Refused only for want of memory.
    pub fn standing_of(&self, session: u32) -> Result<Vec<u64>, AllocError>
        ensures { IfOk result (λ numbers. numbers.items ≡ map (λ x. x.number) (own_standing self.now.entries session)) }
    {
        self.index.numbers_of(
            *self.marked.allocator(),
            &self.marked,
            session,
            self.settled,
        )
    }

    /// Copies of the entries of a greater number. Refused only for want of memory.
    pub fn since(&self, number: u64) -> Result<Entries, AllocError>
        ensures { IfOk result (λ copies. copies ≡ since self.now.entries number) }
    {
        Entries::copies_of(*self.marked.allocator(), after(&self.marked, number))
    }

    /// The entries of a greater number, as they are kept. It takes no memory.
    pub fn kept_since(&self, number: u64) -> &[MarkedEntry]
        ensures { entries_of result.now ≡ since self.now.entries number }
    {
        after(&self.marked, number)
    }

    /// The number of the latest later standing entry in conflict with the standing entry of the number, if there is
    /// one. It takes no memory.
    pub fn find_conflict(&self, number: u64) -> Option<u64>
        requires { IsSome (standing_entry self.now.entries number) }
        ensures { (e : Applied) → standing_entry self.now.entries number ≡ Some e
            → result ≡ option_map (λ x. x.number) (find_conflict self.now.entries e) }
    {
        standing_conflict_after(&self.index, &self.marked, self.entry(number), None)
    }

    /// The number of the latest later standing entry of another session in conflict with the standing entry of the
    /// number, if there is one. It takes no memory.
    pub fn find_conflict_of_others(&self, number: u64) -> Option<u64>
        requires { IsSome (standing_entry self.now.entries number) }
        ensures { (e : Applied) → standing_entry self.now.entries number ≡ Some e
            → result ≡ option_map (λ x. x.number) (find_conflict_of_others self.now.entries e) }
    {
        conflict_of_others(&self.index, &self.marked, self.entry(number))
    }

    /// The number of the session's newest standing entry that has a later standing entry of another session in conflict
    /// with it, if there is one. It takes no memory.
    #[tactic(auto, using(crate::proofs::Finders::blocked_named))]
    pub fn find_own_in_conflict(&self, session: u32) -> Option<u64>
        ensures { result ≡ option_map (λ x. x.number) (find_own_in_conflict self.now.entries session) }
    {
        own_in_conflict(&self.index, &self.marked, session, self.crossed)
    }

    /// The number of the latest later entry of any kind whose change is in conflict with that of the Undone entry of
    /// the number, if there is one. It takes no memory.
    #[tactic(auto, using(crate::proofs::Conflicts::redo_conflict, crate::proofs::Telling::at_its_number))]
    pub fn find_redo_conflict(&self, number: u64) -> Option<u64>
        requires { IsSome (undone_entry self.now.entries number) }
        ensures { (u : Applied) → undone_entry self.now.entries number ≡ Some u
            → result ≡ option_map (λ x. x.number) (find_redo_conflict self.now.entries u) }
    {
        redo_conflict(&self.index, &self.marked, self.entry(number))
    }
}
