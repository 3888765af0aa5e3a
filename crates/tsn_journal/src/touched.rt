//! What blocks a redo: the newest entries of each key, whatever their kind and whether they stand or not.
//!
//! The rows of keys tell them. An entry that was made or redone is told as it gets its nodes, and an Undone entry
//! here.
ghost use Rattle.std.specs.Prelude.{◌≡◌, ◌≤◌, ◌&&◌, ◌∷◌, [], Bool, List, Some, option_map, option_to_list, true};
ghost use Rattle.std.specs.Option.{option_and_then, option_copied};
ghost use Rattle.tsn_edit.specs.Changes.{keys_of, refs_after};
ghost use Rattle.tsn_edit.specs.Parts.{parts};
ghost use Rattle.tsn_entries.specs.declared.entries.Entry.{Entry as AnyEntry};
ghost use Rattle.tsn_entries.specs.declared.entries.MarkedEntry.{MarkedEntry as AnyMarkedEntry};
ghost use Rattle.tsn_entries.specs.Entries.{IsNumbered, applies};
ghost use Rattle.tsn_entries.specs.Finding.{entry, last_where};
ghost use Rattle.tsn_journal.specs.Index.{above};
ghost use Rattle.tsn_entries.specs.Marks.{conflict_after, entries_of, is_in_conflict};
ghost use Rattle.tsn_journal.specs.Touched.{CanTell, KeepsNodes, Tells, Told, some_number, told_on, touches};

use crate::finding::{above, conflict_after, later_of};
use crate::groups::refs_of;
use crate::index::Index;
use tsn_edit::{Change, Part};
use tsn_entries::entries::{Entry, MarkedEntry};
use tsn_types::keys::Key;

impl Index {
    /// Tells that the newest entry, of the number, which took an entry back, is on the keys of the parts and refers to
    /// what their values after refer to. It takes no room.
    pub(crate) fn touch_parts(&mut self, parts: &[Part], number: u32)
        requires { 1 ≤ number }
        ensures told { Told number (keys_of parts.now) (refs_after parts.now) self.old self.new }
        ensures kept { KeepsNodes self.old self.new }
    {
        for part in parts {
            let refs = refs_of(&part.after);
            self.touch_key(&part.key, number);
            self.touch_ref(&refs.first, number);
            self.touch_ref(&refs.second, number);
        }
    }

    /// Tells that the entry is on the key. On a key that no entry was on before it is a stray one.
    fn touch_key(&mut self, key: &Key, number: u32)
        ensures told { Told number (key.now ∷ []) [] self.old self.new }
        ensures kept { KeepsNodes self.old self.new }
    {
        let row = self.latest.key_nodes(*key);
        if row.touched == 0 {
            self.stray = number;
            return;
        }
        self.latest.set_key(*key, row.touched_by(number));
    }

    /// Tells that the entry refers to the key, if there is a key. A reference to a key that no entry was on is not
    /// told.
    fn touch_ref(&mut self, key: &Option<Key>, number: u32)
        ensures told { Told number [] (option_to_list key.now) self.old self.new }
        ensures kept { KeepsNodes self.old self.new }
    {
        let Some(key) = key else {
            return;
        };
        let row = self.latest.key_nodes(*key);
        if row.touched == 0 {
            return;
        }
        self.latest.set_key(*key, row.referred_by(number));
    }

    /// The number of the newest entry that the rows tell to be in conflict with the change. Of the later ones than an
    /// entry on its keys it is the last.
    fn told_conflict(&self, change: &Change) -> Option<u64>
        ensures { (ms : List AnyMarkedEntry) (e : AnyEntry) → CanTell ms self.now e → applies e.what ≡ Some change.now
            → above e.number result ≡ above e.number
            (option_map (λ m. m.entry.number) (last_where (λ m. true && is_in_conflict (applies m.entry.what) change.now) ms)) }
    {
        let mut latest = None;
        for part in change.parts() {
            let with_part = self.told_part(part);
            latest = later_of(latest, with_part);
        }
        latest
    }

    /// The same for a change of the part alone.
    fn told_part(&self, part: &Part) -> Option<u64>
        ensures { (ms : List AnyMarkedEntry) (e : AnyEntry) → CanTell ms self.now e → touches part.now.key e ≡ true
            → above e.number result ≡ above e.number
            (option_map (λ m. m.entry.number) (last_where (λ m. true && is_in_conflict (applies m.entry.what) (part.now ∷ [])) ms)) }
    {
        let row = self.latest.key_nodes(part.key);
        let refs = refs_of(&part.before);
        let by_key = later_of(some_number(row.touched), some_number(row.referred));
        let by_refs = later_of(self.told_on(&refs.first), self.told_on(&refs.second));
        later_of(by_key, by_refs)
    }

    /// The number of the newest entry on the key, if there is a key.
    fn told_on(&self, key: &Option<Key>) -> Option<u64>
        ensures { result ≡ told_on self.now key.now }
    {
        match key {
            Some(key) => some_number(self.latest.key_nodes(*key).touched),
            None => None,
        }
    }
}

/// The number, and 0 is none.
fn some_number(number: u32) -> Option<u64>
    ensures { result ≡ some_number number }
{
    if number == 0 {
        None
    } else {
        Some(u64::from(number))
    }
}

/// The number of the latest entry after the undone one, of any kind, that applied a change in conflict with it. Where
/// the newest stray entry is not before the undone one, the rows do not tell, and the entries after it are gone
/// through.
pub(crate) fn redo_conflict(
    index: &Index,
    marked: &[MarkedEntry],
    undone: Option<&Entry>,
) -> Option<u64>
    requires tells { Tells (entries_of marked.now) index.now }
    requires numbered { IsNumbered 1 (entries_of marked.now) }
    requires there { (e : AnyEntry) → option_copied undone ≡ Some e → entry (entries_of marked.now) e.number ≡ Some e }
    ensures { result ≡ option_map (λ m. m.entry.number)
        (option_and_then (conflict_after (λ m. true) marked.now) (option_copied undone.entry)) }
{
    let undone = undone?;
    let change = undone.what.change()?;
    if undone.number <= u64::from(index.stray) {
        return conflict_after(marked, Some(undone), &|_later: &MarkedEntry| { true });
    }
    above(index.told_conflict(change), undone.number)
}
