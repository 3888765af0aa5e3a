//! The index of a journal: of each entry a node in each group that it belongs to.
//!
//! Nodes are only ever added. A link leads back from each to the last node before it in its group, and another to the
//! last one that is of another session, so that a session's own entries are passed in one step; which of the entries
//! still belong to the group, the marks say.
ghost use Rattle.std.specs.Prelude.{◌≡◌, ◌&&◌, ◌*◌, ◌+◌, ◌-◌, ◌≤◌, ◌∷◌, [], Bool, IfOk, List, OnOk, Option, Some, drop, filter, length, map, option_map, option_to_list, slice_get, true};
ghost use Rattle.std.specs.Option.{option_copied};
ghost use Rattle.tsn_entries.specs.declared.entries.MarkedEntry.{MarkedEntry as AnyEntry};
ghost use Rattle.tsn_journal.specs.declared.groups.Group.{Group as AnyGroup};
ghost use Rattle.tsn_types.specs.declared.keys.Key.{Key as AnyKey};
ghost use Rattle.tsn_entries.specs.Entries.{most_entries};
ghost use Rattle.tsn_entries.specs.Finding.{last_where};
ghost use Rattle.tsn_journal.specs.declared.groups.Group.TheVariants.{EndsRedo, Of, On, RefersTo};
ghost use Rattle.tsn_journal.specs.Index.{Adds, AreNodes, HasNodes, HasRoom, IsIndexed, IsIndexedBut, IsIndexedButNewest, IsLast, IsNewest, NewestAdds, NoneBetween, NoneFrom, TakesNoRoom, TakesNodes, TakesRoom, belongs, belongs_to_others, group_if, groups_of_parts, is_by, most_nodes, number_at, other_of, nodes_for};
ghost use Rattle.tsn_journal.specs.Latest.{latest_of};
ghost use Rattle.tsn_entries.specs.Marks.{AreOff, IsTally, is_own};
ghost use Rattle.tsn_journal.specs.Newest.{IsIn, KeepsNewest, MendsNewest, groups_of};
ghost use Rattle.tsn_entries.specs.Tests.{Tests};
ghost use Rattle.tsn_journal.specs.Touched.{NewestTold, Tells, TellsSame, Told};
ghost use Rattle.tsn_edit.specs.Changes.{keys_of, refs_after};
ghost use Rattle.tsn_edit.specs.Parts.{parts};

use crate::groups::{Group, refs_of};
use crate::latest_rows::{KeyNodes, Latest, SessionNodes};
use std::alloc::{AllocError, Global};
use tsn_edit::{Change, Part};
use tsn_entries::entries::{Entry, MarkedEntry, What, last};
use tsn_types::keys::Key;

/// How many entries are looked at in order in the time that one takes that is found by its node.
const IN_ORDER: u64 = 4;

/// The node of an entry in a group. Nodes are counted from 1, and 0 is none.
#[derive(Clone, Copy, Debug)]
pub(crate) struct Node {
    pub(crate) group: Group,
    /// The entry's number.
    pub(crate) number: u32,
    /// The node before it in the group.
    pub(crate) before: u32,
    /// The last node before it in the group whose entry is of another session.
    pub(crate) other: u32,
}

/// A number of entries, and of the parts of their changes.
#[derive(Clone, Copy, Debug)]
pub(crate) struct Tally {
    pub(crate) entries: usize,
    pub(crate) parts: usize,
}

/// Of each entry a node in each group that it belongs to, and the newest node of each group.
#[derive(Debug, Drop)]
pub(crate) struct Index {
    pub(crate) nodes: Vec<Node>,
    pub(crate) latest: Latest,
    /// The number of the newest stray entry, 0 for none: an Undone entry on a key that no entry was on before. No undo
    /// makes one, since it takes back an earlier entry on its keys.
    pub(crate) stray: u32,
}

impl Index {
    /// An index of no entry. It takes no memory and has room for none.
    pub(crate) fn new(alloc: Global) -> Index
        ensures nodes { result.nodes.items ≡ [] }
        ensures latest { (g : AnyGroup) → latest_of result.latest g ≡ 0 }
        ensures tells { Tells [] result }
    {
        Index {
            nodes: Vec::new(alloc),
            latest: Latest::new(alloc),
            stray: 0,
        }
    }

    /// Makes room for `count` nodes more. Refused only for want of memory.
    pub(crate) fn reserve(&mut self, count: usize) -> Result<(), AllocError>
        requires { length self.old.nodes.items + count ≤ most_nodes }
        ensures latest { (g : AnyGroup) → latest_of self.new.latest g ≡ latest_of self.old.latest g }
        ensures tells { TellsSame self.old self.new }
        ensures ok { OnOk result (HasRoom count self.new) }
        ensures spare { TakesNoRoom self.old self.new }
    {
        self.nodes.reserve(count)?;
        self.latest.reserve(count)?;
        Ok(())
    }

    /// The number of the entry at the node, and 0 for none.
    fn number_at(&self, node: u32) -> u32
        requires { node ≤ length self.now.nodes.items }
        ensures { result ≡ number_at self.now.nodes.items node }
    {
        if node == 0 {
            return 0;
        }
        self.nodes[node as usize - 1].number
    }

    /// The node, or the one that it is linked to of another session, where its entry is the session's.
    fn other_of(&self, marked: &[MarkedEntry], node: u32, session: u32) -> u32
        requires within { node ≤ length self.now.nodes.items }
        requires nodes { AreNodes marked.now self.now.nodes.items }
        ensures { result ≡ other_of marked.now self.now.nodes.items session node }
    {
        if node == 0 {
            return 0;
        }
        let found = &self.nodes[node as usize - 1];
        if numbered(marked, found.number).is_of(session) {
            found.other
        } else {
            node
        }
    }

    /// Gives the newest entry, which adds so many parts to what stands, its nodes, in room for them, and tells it in
    /// the rows of its keys and of what it refers to.
    pub(crate) fn enter(&mut self, marked: &[MarkedEntry], parts: usize)
        requires index { IsIndexedButNewest marked.now self.old }
        requires parts { NewestAdds marked.now parts }
        requires room { HasRoom (nodes_for 1 parts) self.old }
        requires some { 1 ≤ length marked.now }
        requires few { length marked.now ≤ most_entries }
        requires is_open { (m : AnyEntry) → slice_get marked.now (length marked.now - 1) ≡ Some m → m.is_open ≡ true }
        ensures index { IsIndexed marked.now self.new }
        ensures newest { KeepsNewest marked.now self.old self.new }
        ensures told { NewestTold marked.now (length marked.now) self.old self.new }
        ensures room { TakesRoom (nodes_for 1 parts) self.old self.new }
    {
        let number = marked.len() as u32;
        let newest = &numbered(marked, number).entry;
        let session = newest.session;
        match &newest.what {
            What::Made(change) => self.enter_change(marked, change, number, session, true),
            What::Redone { change, .. } => {
                self.enter_change(marked, change, number, session, false)
            }
            What::Undone { change, .. } => {
                self.enter_session(marked, number, session, false, true);
                self.touch_parts(change.parts(), number);
            }
            What::Acted { .. } | What::Settled { .. } => {}
        }
    }

    /// Gives the newest entry, which made or redid the change, its nodes. Whether a search for a redo ends at it, the
    /// caller says.
    #[inline(always)]
    fn enter_change(
        &mut self,
        marked: &[MarkedEntry],
        change: &Change,
        number: u32,
        session: u32,
        ends: bool,
    )
        requires index { IsIndexedButNewest marked.now self.old }
        requires newest { IsNewest marked.now number session change.now ends }
        requires room { HasRoom (nodes_for 1 (length change.now)) self.old }
        ensures index { IsIndexed marked.now self.new }
        ensures newest { KeepsNewest marked.now self.old self.new }
        ensures told { Told number (keys_of (parts change.now)) (refs_after (parts change.now)) self.old self.new }
        ensures room { TakesRoom (nodes_for 1 (length change.now)) self.old self.new }
    {
        let parts = change.parts();
        for part in parts {
            let refs = refs_of(&part.after);
            self.enter_on(marked, &part.key, number, session);
            self.enter_ref(marked, &refs.first, number, session);
            self.enter_ref(marked, &refs.second, number, session);
        }
        self.enter_session(marked, number, session, true, ends);
    }

    /// Gives the newest entry, which is the session's, its node on the key.
    fn enter_on(&mut self, marked: &[MarkedEntry], key: &Key, number: u32, session: u32)
        requires index { IsIndexedButNewest marked.now self.old }
        requires room { HasRoom 1 self.old }
        requires count { number ≡ length marked.now }
        requires some { 1 ≤ number }
        requires by { is_by session (slice_get marked.now (number - 1)) ≡ true }
        requires in_group { (m : AnyEntry) → slice_get marked.now (number - 1) ≡ Some m → belongs (On key.now) m ≡ true }
        ensures index { (rest : List (Option AnyGroup))
            → IsIndexedBut (Some (On key.now) ∷ rest) marked.now self.old.nodes.items (latest_of self.old.latest)
            → IsIndexedBut rest marked.now self.new.nodes.items (latest_of self.new.latest) }
        ensures newest { KeepsNewest marked.now self.old self.new }
        ensures told { Told number (key.now ∷ []) [] self.old self.new }
        ensures room { TakesRoom 1 self.old self.new }
    {
        let row = self.latest.key_nodes(*key);
        let on = self.add(marked, Group::On(*key), row.on, number, session, true);
        self.latest.set_key(
            *key,
            KeyNodes {
                on,
                ..row.touched_by(number)
            },
        );
    }

    /// Gives the newest entry, which is the session's, its node among those that refer to the key, if there is a key.
    fn enter_ref(&mut self, marked: &[MarkedEntry], key: &Option<Key>, number: u32, session: u32)
        requires index { IsIndexedButNewest marked.now self.old }
        requires room { HasRoom 1 self.old }
        requires count { number ≡ length marked.now }
        requires some { 1 ≤ number }
        requires by { is_by session (slice_get marked.now (number - 1)) ≡ true }
        requires in_group { (k : AnyKey) (m : AnyEntry) → key.now ≡ Some k → slice_get marked.now (number - 1) ≡ Some m
            → belongs (RefersTo k) m ≡ true }
        ensures index { (rest : List (Option AnyGroup))
            → IsIndexedBut (option_map RefersTo key.now ∷ rest) marked.now self.old.nodes.items (latest_of self.old.latest)
            → IsIndexedBut rest marked.now self.new.nodes.items (latest_of self.new.latest) }
        ensures newest { KeepsNewest marked.now self.old self.new }
        ensures told { Told number [] (option_to_list key.now) self.old self.new }
        ensures room { TakesRoom 1 self.old self.new }
    {
        let Some(key) = key else {
            return;
        };
        let row = self.latest.key_nodes(*key);
        let refers = self.add(
            marked,
            Group::RefersTo(*key),
            row.refers,
            number,
            session,
            true,
        );
        self.latest.set_key(
            *key,
            KeyNodes {
                refers,
                ..row.referred_by(number)
            },
        );
    }

    /// Gives the newest entry its nodes among the session's standing entries and among those at which a search for a
    /// redo ends, where they are wanted.
    #[inline(always)]
    fn enter_session(
        &mut self,
        marked: &[MarkedEntry],
        number: u32,
        session: u32,
        stands: bool,
        ends: bool,
    )
        requires index { IsIndexedButNewest marked.now self.old }
        requires room { HasRoom 2 self.old }
        requires count { number ≡ length marked.now }
        requires some { 1 ≤ number }
        requires by { is_by session (slice_get marked.now (number - 1)) ≡ true }
        requires in_standing { (m : AnyEntry) → stands ≡ true → slice_get marked.now (number - 1) ≡ Some m → belongs (Of session) m ≡ true }
        requires in_ending { (m : AnyEntry) → ends ≡ true → slice_get marked.now (number - 1) ≡ Some m
            → belongs (EndsRedo session) m ≡ true }
        ensures index { (rest : List (Option AnyGroup))
            → IsIndexedBut (group_if stands (Of session) ∷ group_if ends (EndsRedo session) ∷ rest) marked.now self.old.nodes.items
            (latest_of self.old.latest)
            → IsIndexedBut rest marked.now self.new.nodes.items (latest_of self.new.latest) }
        ensures newest { KeepsNewest marked.now self.old self.new }
        ensures tells { TellsSame self.old self.new }
        ensures room { TakesRoom 2 self.old self.new }
    {
        let SessionNodes {
            standing,
            ends_redo,
        } = self.latest.session_nodes(session);
        let standing = self.add(
            marked,
            Group::Of(session),
            standing,
            number,
            session,
            stands,
        );
        let ends_redo = self.add(
            marked,
            Group::EndsRedo(session),
            ends_redo,
            number,
            session,
            ends,
        );
        self.latest.set_session(
            session,
            SessionNodes {
                standing,
                ends_redo,
            },
        );
    }

    /// Gives the session's entry of the number a node in the group, whose newest node is `before`, where it is wanted
    /// and that node is not of the entry. The answer is the newest node of the group then.
    fn add(
        &mut self,
        marked: &[MarkedEntry],
        group: Group,
        before: u32,
        number: u32,
        session: u32,
        wanted: bool,
    ) -> u32
        requires room { HasNodes 1 self.old }
        requires index { IsIndexedButNewest marked.now self.old }
        requires newest_node { before ≡ latest_of self.old.latest group }
        requires count { number ≡ length marked.now }
        requires some { 1 ≤ number }
        requires by { is_by session (slice_get marked.now (number - 1)) ≡ true }
        ensures added { Adds marked.now wanted group number session before self.old.nodes.items self.new.nodes.items result }
        ensures kept { IsIndexedButNewest marked.now self.new }
        ensures latest { self.new.latest ≡ self.old.latest }
        ensures stray { self.new.stray ≡ self.old.stray }
        ensures room { TakesNodes 1 self.old self.new }
    {
        if !wanted {
            return before;
        }
        if number <= self.number_at(before) {
            return before;
        }
        let other = self.other_of(marked, before, session);
        self.nodes.push_reserved(Node {
            group,
            number,
            before,
            other,
        });
        self.nodes.as_slice().len() as u32
    }

    /// Sets the newest nodes of the groups of an entry that was taken back, or settled, to where their last entries
    /// are. The entries up to the number `settled` are off. It takes no room.
    pub(crate) fn leave(&mut self, marked: &[MarkedEntry], taken_back: &Entry, settled: u64)
        requires index { IsIndexed marked.now self.old }
        requires off { AreOff settled marked.now }
        ensures index { IsIndexed marked.now self.new }
        ensures newest { MendsNewest marked.now (groups_of taken_back.now) self.old self.new }
        ensures tells { TellsSame self.old self.new }
        ensures room { TakesRoom 0 self.old self.new }
    {
        if let Some(change) = taken_back.what.added() {
            self.lower_parts(marked, change.parts(), settled);
        }
        self.lower_session(marked, taken_back.session, settled);
    }

    /// The same for the groups of the parts of a change.
    fn lower_parts(&mut self, marked: &[MarkedEntry], parts: &[Part], settled: u64)
        requires index { IsIndexed marked.now self.old }
        requires off { AreOff settled marked.now }
        ensures index { IsIndexed marked.now self.new }
        ensures newest { MendsNewest marked.now (groups_of_parts parts.now) self.old self.new }
        ensures tells { TellsSame self.old self.new }
        ensures room { TakesRoom 0 self.old self.new }
    {
        for part in parts {
            let refs = refs_of(&part.after);
            self.lower_on(marked, &part.key, settled);
            self.lower_ref(marked, &refs.first, settled);
            self.lower_ref(marked, &refs.second, settled);
        }
    }

    /// The same for the entries on the key.
    fn lower_on(&mut self, marked: &[MarkedEntry], key: &Key, settled: u64)
        requires index { IsIndexed marked.now self.old }
        requires off { AreOff settled marked.now }
        ensures index { IsIndexed marked.now self.new }
        ensures newest { MendsNewest marked.now (Some (On key.now) ∷ []) self.old self.new }
        ensures tells { TellsSame self.old self.new }
        ensures room { TakesRoom 0 self.old self.new }
    {
        let latest = self.latest.key_nodes(*key);
        if latest.on == 0 {
            return;
        }
        let on = self.first_from(marked, &Group::On(*key), latest.on, settled);
        if on == latest.on {
            return;
        }
        self.latest.set_key(*key, KeyNodes { on, ..latest });
    }

    /// The same for the entries that refer to the key, if there is a key.
    fn lower_ref(&mut self, marked: &[MarkedEntry], key: &Option<Key>, settled: u64)
        requires index { IsIndexed marked.now self.old }
        requires off { AreOff settled marked.now }
        ensures index { IsIndexed marked.now self.new }
        ensures newest { MendsNewest marked.now (option_map RefersTo key.now ∷ []) self.old self.new }
        ensures tells { TellsSame self.old self.new }
        ensures room { TakesRoom 0 self.old self.new }
    {
        let Some(key) = key else {
            return;
        };
        let latest = self.latest.key_nodes(*key);
        if latest.refers == 0 {
            return;
        }
        let refers = self.first_from(marked, &Group::RefersTo(*key), latest.refers, settled);
        if refers == latest.refers {
            return;
        }
        self.latest.set_key(*key, KeyNodes { refers, ..latest });
    }

    /// The same for the two groups of a session.
    fn lower_session(&mut self, marked: &[MarkedEntry], session: u32, settled: u64)
        requires index { IsIndexed marked.now self.old }
        requires off { AreOff settled marked.now }
        ensures index { IsIndexed marked.now self.new }
        ensures newest { MendsNewest marked.now (Some (Of session) ∷ Some (EndsRedo session) ∷ []) self.old self.new }
        ensures tells { TellsSame self.old self.new }
        ensures room { TakesRoom 0 self.old self.new }
    {
        let latest = self.latest.session_nodes(session);
        if latest.standing == 0 && latest.ends_redo == 0 {
            return;
        }
        let standing = self.first_from(marked, &Group::Of(session), latest.standing, settled);
        // a settled edit still ends a search for a redo
        let ends_redo = self.first_from(marked, &Group::EndsRedo(session), latest.ends_redo, 0);
        if standing == latest.standing && ends_redo == latest.ends_redo {
            return;
        }
        self.latest.set_session(
            session,
            SessionNodes {
                standing,
                ends_redo,
            },
        );
    }

    /// The first node back from this one, which is the latest, whose entry belongs to the group, from 1, and 0 for
    /// none. It looks at no entry up to the number `settled`, since none of these belongs to it.
    fn first_from(&self, marked: &[MarkedEntry], group: &Group, latest: u32, settled: u64) -> u32
        requires nodes { AreNodes marked.now self.now.nodes.items }
        requires latest { IsLast group.now (belongs group.now) marked.now self.now.nodes.items latest (length marked.now + 1) }
        requires settled { NoneBetween (belongs group.now) marked.now 0 (settled + 1) }
        ensures last { IsLast group.now (belongs group.now) marked.now self.now.nodes.items result (length marked.now + 1) }
        ensures newest { IsIn group.now marked.now self.now.nodes.items result }
    {
        let mut node = latest;
        'back: while node != 0 {
            let at = &self.nodes[node as usize - 1];
            if u64::from(at.number) <= settled {
                return 0;
            }
            if group.has(numbered(marked, at.number)) {
                return node;
            }
            node = at.before;
        }
        node
    }

    /// How many standing entries the session has, and how many parts their changes have. Those up to the number
    /// `settled` are off. Once it passed a quarter of what is left, it goes through the rest in order, whosever that
    /// is.
    pub(crate) fn tally_of(&self, marked: &[MarkedEntry], session: u32, settled: u64) -> Tally
        requires index { IsIndexed marked.now self.now }
        requires off { AreOff settled marked.now }
        ensures { IsTally result.entries result.parts (filter (belongs (Of session)) marked.now) }
    {
        let mut entries = 0;
        let mut parts = 0;
        let mut passed = 0;
        let mut node = self.latest.session_nodes(session).standing;
        'back: while node != 0 {
            let at = &self.nodes[node as usize - 1];
            if u64::from(at.number) <= settled {
                break;
            }
            if (u64::from(at.number) - settled) / IN_ORDER <= passed {
                let left = &marked[settled as usize..at.number as usize];
                let first = tally_own(left, session);
                return Tally {
                    entries: entries + first.entries,
                    parts: parts + first.parts,
                };
            }
            passed += 1;
            let entry = numbered(marked, at.number);
            if entry.is_own(session) {
                entries += 1;
                parts += entry.entry.what.added_parts();
            }
            node = at.before;
        }
        Tally { entries, parts }
    }

    /// The numbers of the session's standing entries, rising. Those up to the number `settled` are off. Refused only
    /// for want of memory.
    pub(crate) fn numbers_of(
        &self,
        alloc: Global,
        marked: &[MarkedEntry],
        session: u32,
        settled: u64,
    ) -> Result<Vec<u64>, AllocError>
        requires index { IsIndexed marked.now self.now }
        requires off { AreOff settled marked.now }
        ensures { IfOk result (λ numbers. numbers.items ≡ map (λ m. m.entry.number) (filter (belongs (Of session)) marked.now)) }
    {
        let mut found = Vec::new(alloc);
        let mut node = self.latest.session_nodes(session).standing;
        'back: while node != 0 {
            let at = &self.nodes[node as usize - 1];
            if u64::from(at.number) <= settled {
                break;
            }
            let entry = numbered(marked, at.number);
            if entry.is_own(session) {
                found.push(entry.entry.number)?;
            }
            node = at.before;
        }
        found.reverse();
        Ok(found)
    }

    /// The last entry of the group, whose newest node this is.
    pub(crate) fn latest_in<'a>(
        &self,
        marked: &'a [MarkedEntry],
        group: &Group,
        latest: u32,
    ) -> Option<&'a MarkedEntry>
        requires index { IsIndexed marked.now self.now }
        requires latest { latest ≡ latest_of self.now.latest group.now }
        ensures { option_copied result ≡ last_where (belongs group.now) marked.now }
    {
        self.last_in(marked, group, latest, &|_entry: &MarkedEntry| { true })
    }

    /// The last entry of the group, whose newest node this is, that passes the test.
    pub(crate) fn last_in<'a, F: Fn(&MarkedEntry) -> bool>(
        &self,
        marked: &'a [MarkedEntry],
        group: &Group,
        latest: u32,
        test: &F,
    ) -> Option<&'a MarkedEntry>
        requires callable { F.IsAlwaysCallable test.now }
        requires index { IsIndexed marked.now self.now }
        requires latest { latest ≡ latest_of self.now.latest group.now }
        ensures { (p : AnyEntry → Bool) → Tests F.Fn p test.now
            → option_copied result ≡ last_where (λ m. belongs group.now m && p m) marked.now }
    {
        let mut node = latest;
        'back: while node != 0 {
            let found = &self.nodes[node as usize - 1];
            let entry = numbered(marked, found.number);
            if group.has(entry) && test(entry) {
                return Some(entry);
            }
            node = found.before;
        }
        None
    }

    /// The session's last standing entry that passes the test, where none above the number `upto` does. At those it
    /// does not look; once it passed as many nodes of theirs as there are entries up to the number, it goes back
    /// through these, one by one. That costs at most as much again as what it passed, so a switch is never dearer than
    /// twice the better way.
    pub(crate) fn last_own<'a, F: Fn(&MarkedEntry) -> bool>(
        &self,
        marked: &'a [MarkedEntry],
        session: u32,
        upto: u64,
        test: &F,
    ) -> Option<&'a MarkedEntry>
        requires callable { F.IsAlwaysCallable test.now }
        requires index { IsIndexed marked.now self.now }
        ensures { (p : AnyEntry → Bool) → Tests F.Fn p test.now → NoneFrom (λ m. is_own session m && p m) marked.now upto
            → option_copied result ≡ last_where (λ m. is_own session m && p m) marked.now }
    {
        let mut node = self.latest.session_nodes(session).standing;
        let mut passed = 0;
        'back: while node != 0 {
            let found = &self.nodes[node as usize - 1];
            if u64::from(found.number) <= upto {
                let entry = numbered(marked, found.number);
                if entry.is_own(session) && test(entry) {
                    return Some(entry);
                }
            } else {
                if passed >= upto {
                    return last(
                        &marked[..upto as usize],
                        &|entry: &MarkedEntry| { entry.is_own(session) && test(entry) },
                    );
                }
                passed += 1;
            }
            node = found.before;
        }
        None
    }

    /// The last entry of the group, whose newest node this is, that is of another session than this one, among those
    /// after the number `after`. Entries of the session are passed in one step, however many there are, and none up to
    /// that number is looked at.
    pub(crate) fn last_of_others<'a>(
        &self,
        marked: &'a [MarkedEntry],
        group: &Group,
        latest: u32,
        session: u32,
        after: u64,
    ) -> Option<&'a MarkedEntry>
        requires index { IsIndexed marked.now self.now }
        requires latest { latest ≡ latest_of self.now.latest group.now }
        ensures { option_copied result ≡ last_where (belongs_to_others group.now session) (drop after marked.now) }
    {
        let mut node = latest;
        'back: while node != 0 {
            let found = &self.nodes[node as usize - 1];
            if u64::from(found.number) <= after {
                return None;
            }
            let entry = numbered(marked, found.number);
            if entry.is_of(session) {
                node = found.other;
            } else if group.has(entry) {
                return Some(entry);
            } else {
                node = found.before;
            }
        }
        None
    }
}

/// How many of the entries stand and are the session's, and how many parts their changes have.
fn tally_own(marked: &[MarkedEntry], session: u32) -> Tally
    ensures tally { IsTally result.entries result.parts (filter (belongs (Of session)) marked.now) }
    ensures few { result.entries ≤ length marked.now }
    ensures few_parts { result.parts ≤ 16 * length marked.now }
{
    let mut entries = 0;
    let mut parts = 0;
    for entry in marked {
        if entry.is_own(session) {
            entries += 1;
            parts += entry.entry.what.added_parts();
        }
    }
    Tally { entries, parts }
}

/// The entry of the number, which is there.
fn numbered(marked: &[MarkedEntry], number: u32) -> &MarkedEntry
    requires some { 1 ≤ number }
    requires within { number ≤ length marked.now }
    ensures { slice_get marked.now (number - 1) ≡ Some result.now }
{
    &marked[number as usize - 1]
}
