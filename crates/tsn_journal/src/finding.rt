//! Looking through the marked entries of a journal, by number and from the back.
ghost use Rattle.std.specs.Prelude.{◌≡◌, ◌==◌, ◌+◌, ◌<◌, ◌≤◌, ◌⊎◌, ◌&&◌, ◌∷◌, ℕ, [], Bool, IfOk, IfSome, IsNone, Some, drop, filter, is_some, length, map, option_map, slice_get};
ghost use Rattle.std.specs.List.{find};
ghost use Rattle.std.specs.Option.{option_and_then, option_copied};
ghost use Rattle.tsn_journal.specs.Crossed.{IsFreeAbove};
ghost use Rattle.tsn_entries.specs.Entries.{IsNoSettle, IsNumbered, applies, settles_to};
ghost use Rattle.tsn_entries.specs.Finding.{last_where};
ghost use Rattle.tsn_journal.specs.Latest.{latest_of};
ghost use Rattle.tsn_journal.specs.Index.{IsIndexed, TakesRoom, above, belongs, is_on_any, is_sought};
ghost use Rattle.tsn_entries.specs.Marks.{AreOff, conflict_after, conflict_of_others, entries_of, is_in_conflict, is_own, later_of, mark_off, newest_blocked, stands};
ghost use Rattle.tsn_journal.specs.Newest.{KeepsNewest, MendsNewest, groups_of};
ghost use Rattle.tsn_entries.specs.Tests.{Tests};
ghost use Rattle.tsn_journal.specs.Touched.{TellsSame};
ghost use Rattle.tsn_entries.specs.declared.entries.MarkedEntry.{MarkedEntry as AnyEntry};
ghost use Rattle.tsn_entries.specs.declared.entries.What.TheVariants.{Settled};

use crate::groups::{Group, refs_of};
use crate::index::Index;
use std::alloc::{AllocError, Global};
use tsn_edit::{Change, Part};
use tsn_entries::entries::{Entry, MarkedEntry, What, last};
use tsn_types::keys::Key;

/// The number of the last entry that passes the test.
pub(crate) fn latest<F: Fn(&MarkedEntry) -> bool>(marked: &[MarkedEntry], test: &F) -> Option<u64>
    requires { F.IsAlwaysCallable test.now }
    ensures { (p : AnyEntry → Bool) → Tests F.Fn p test.now
        → result ≡ option_map (λ m. m.entry.number) (last_where p marked.now) }
{
    Some(last(marked, test)?.entry.number)
}

/// The place of the number among entries that are numbered from 1, if they have it.
fn place_of(marked: &[MarkedEntry], number: u64) -> Option<usize>
    ensures some { IfSome result (λ place. (place + 1 ≡ number) × (place < length marked.now)) }
    ensures none { IsNone result → (number ≡ 0) ⊎ (length marked.now < number) }
{
    if number == 0 || number > marked.len() as u64 {
        return None;
    }
    Some(number as usize - 1)
}

/// The entry of the number.
pub(crate) fn at(marked: &[MarkedEntry], number: u64) -> Option<&MarkedEntry>
    requires { IsNumbered 1 (entries_of marked.now) }
    ensures { option_copied result ≡ find (λ m. m.entry.number == number) marked.now }
{
    match place_of(marked, number) {
        Some(place) => Some(&marked[place]),
        None => None,
    }
}

/// The entries of a greater number.
pub(crate) fn after(marked: &[MarkedEntry], number: u64) -> &[MarkedEntry]
    ensures { result.now ≡ drop number marked.now }
{
    if number <= marked.len() as u64 {
        &marked[number as usize..]
    } else {
        &[]
    }
}

/// The number of the latest entry after the earlier one that passes the test and is in conflict with it.
pub(crate) fn conflict_after<F: Fn(&MarkedEntry) -> bool>(
    marked: &[MarkedEntry],
    earlier: Option<&Entry>,
    test: &F,
) -> Option<u64>
    requires { F.IsAlwaysCallable test.now }
    ensures { (p : AnyEntry → Bool) → Tests F.Fn p test.now
        → result ≡ option_map (λ m. m.entry.number)
        (option_and_then (conflict_after p marked.now) (option_copied earlier.entry)) }
{
    let earlier = earlier?;
    let change = earlier.what.change()?;
    latest(
        after(marked, earlier.number),
        &|later: &MarkedEntry| { test(later) && later.conflicts_with(change) },
    )
}

/// The entry's number, if there is an entry.
fn number_of(found: Option<&MarkedEntry>) -> Option<u64>
    ensures { result ≡ option_map (λ m. m.entry.number) (option_copied found.entry) }
{
    Some(found?.entry.number)
}

/// The number of the last entry of the group, whose newest node this is, of any session, or of others than the one
/// given, among those after the number `after`.
fn number_in(
    index: &Index,
    marked: &[MarkedEntry],
    group: &Group,
    latest: u32,
    but: Option<u32>,
    after: u64,
) -> Option<u64>
    requires index { IsIndexed marked.now index.now }
    requires numbered { IsNumbered 1 (entries_of marked.now) }
    requires latest { latest ≡ latest_of index.now.latest group.now }
    ensures { result ≡ option_map (λ m. m.entry.number) (last_where (λ m. belongs group.now m && is_sought but m) (drop after marked.now)) }
{
    match but {
        None => above(number_of(index.latest_in(marked, group, latest)), after),
        Some(session) => number_of(index.last_of_others(marked, group, latest, session, after)),
    }
}

/// The number of the last such standing entry on the key, if there is a key.
fn number_on(
    index: &Index,
    marked: &[MarkedEntry],
    key: &Option<Key>,
    but: Option<u32>,
    after: u64,
) -> Option<u64>
    requires index { IsIndexed marked.now index.now }
    requires numbered { IsNumbered 1 (entries_of marked.now) }
    ensures { result ≡ option_map (λ m. m.entry.number) (last_where (λ m. is_on_any key.now m && is_sought but m) (drop after marked.now)) }
{
    match key {
        Some(key) => {
            let latest = index.latest.key_nodes(*key).on;
            number_in(index, marked, &Group::On(*key), latest, but, after)
        }
        None => None,
    }
}

/// The number of the latest such standing entry that is in conflict with the change.
fn latest_conflict(
    index: &Index,
    marked: &[MarkedEntry],
    change: &Change,
    but: Option<u32>,
    after: u64,
) -> Option<u64>
    requires index { IsIndexed marked.now index.now }
    requires numbered { IsNumbered 1 (entries_of marked.now) }
    ensures { result ≡ option_map (λ m. m.entry.number)
        (last_where (λ m. (is_some (stands m) && is_sought but m) && is_in_conflict (applies m.entry.what) change.now)
        (drop after marked.now)) }
{
    let mut latest = None;
    for part in change.parts() {
        let with_part = conflict_with_part(index, marked, part, but, after);
        latest = later_of(latest, with_part);
    }
    latest
}

/// The number of the latest such standing entry that is in conflict with a change of the part alone.
fn conflict_with_part(
    index: &Index,
    marked: &[MarkedEntry],
    part: &Part,
    but: Option<u32>,
    after: u64,
) -> Option<u64>
    requires index { IsIndexed marked.now index.now }
    requires numbered { IsNumbered 1 (entries_of marked.now) }
    ensures { result ≡ option_map (λ m. m.entry.number)
        (last_where (λ m. (is_some (stands m) && is_sought but m) && is_in_conflict (applies m.entry.what) (part.now ∷ []))
        (drop after marked.now)) }
{
    let latest = index.latest.key_nodes(part.key);
    let on_key = number_in(index, marked, &Group::On(part.key), latest.on, but, after);
    let to_key = number_in(
        index,
        marked,
        &Group::RefersTo(part.key),
        latest.refers,
        but,
        after,
    );
    let refs = refs_of(&part.before);
    let on_first = number_on(index, marked, &refs.first, but, after);
    let on_second = number_on(index, marked, &refs.second, but, after);
    let by_key = later_of(on_key, to_key);
    let by_refs = later_of(on_first, on_second);
    later_of(by_key, by_refs)
}

/// The number, where it is greater than the other.
pub(crate) fn above(number: Option<u64>, other: u64) -> Option<u64>
    ensures { result ≡ above other number }
{
    match number {
        Some(number) if other < number => Some(number),
        _ => None,
    }
}

/// The number of the latest standing entry after the earlier one that is in conflict with it, of any session, or of
/// others than the one given.
pub(crate) fn standing_conflict_after(
    index: &Index,
    marked: &[MarkedEntry],
    earlier: Option<&Entry>,
    but: Option<u32>,
) -> Option<u64>
    requires index { IsIndexed marked.now index.now }
    requires numbered { IsNumbered 1 (entries_of marked.now) }
    ensures { result ≡ option_map (λ m. m.entry.number)
        (option_and_then (conflict_after (λ m. is_some (stands m) && is_sought but m) marked.now) (option_copied earlier.entry)) }
{
    let earlier = earlier?;
    let change = earlier.what.change()?;
    latest_conflict(index, marked, change, but, earlier.number)
}

/// The number of the latest standing entry of another session after the earlier one that is in conflict with it.
pub(crate) fn conflict_of_others(
    index: &Index,
    marked: &[MarkedEntry],
    earlier: Option<&Entry>,
) -> Option<u64>
    requires index { IsIndexed marked.now index.now }
    requires numbered { IsNumbered 1 (entries_of marked.now) }
    ensures { result ≡ option_map (λ m. m.entry.number)
        (option_and_then (conflict_of_others marked.now) (option_copied earlier.entry)) }
{
    let session = earlier?.session;
    standing_conflict_after(index, marked, earlier, Some(session))
}

/// Whether a later standing entry of another session is in conflict with the entry.
fn is_blocked(index: &Index, marked: &[MarkedEntry], own: &MarkedEntry) -> bool
    requires index { IsIndexed marked.now index.now }
    requires numbered { IsNumbered 1 (entries_of marked.now) }
    ensures { result ≡ is_some (conflict_of_others marked.now own.now.entry) }
{
    conflict_of_others(index, marked, Some(&own.entry)).is_some()
}

/// The later of two numbers, or the one that there is.
pub(crate) fn later_of(first: Option<u64>, second: Option<u64>) -> Option<u64>
    ensures { result ≡ later_of first second }
{
    first.max(second)
}

/// The number of the session's newest standing entry that a later standing entry of another session is in conflict
/// with, sought from each of the session's entries. None above the number `crossed` is so.
pub(crate) fn own_in_conflict(
    index: &Index,
    marked: &[MarkedEntry],
    session: u32,
    crossed: u64,
) -> Option<u64>
    requires index { IsIndexed marked.now index.now }
    requires numbered { IsNumbered 1 (entries_of marked.now) }
    requires free { IsFreeAbove crossed marked.now }
    ensures { result ≡ newest_blocked session marked.now marked.now }
{
    number_of(newest_blocked(index, marked, session, crossed))
}

/// The same entry itself.
fn newest_blocked<'a>(
    index: &Index,
    marked: &'a [MarkedEntry],
    session: u32,
    crossed: u64,
) -> Option<&'a MarkedEntry>
    requires index { IsIndexed marked.now index.now }
    requires numbered { IsNumbered 1 (entries_of marked.now) }
    requires free { IsFreeAbove crossed marked.now }
    ensures { option_copied result ≡ last_where (λ m. is_own session m && is_some (conflict_of_others marked.now m.entry)) marked.now }
{
    index.last_own(
        marked,
        session,
        crossed,
        &|own: &MarkedEntry|
            requires index { IsIndexed marked.now index.now }
            requires numbered { IsNumbered 1 (entries_of marked.now) }
            ensures { result ≡ is_some (conflict_of_others marked.entry.now own.now.entry) }
        { is_blocked(index, marked, own) },
    )
}

/// Puts off the marks of the entries that are taken back or settled, where those of the first ones up to `settled` are
/// off already.
pub(crate) fn put_off(marked: &mut [MarkedEntry], what: &What, settled: u64)
    requires numbered { IsNumbered 1 (entries_of marked.old) }
    requires off { AreOff settled marked.old }
    requires there { settles_to what.now ≤ length marked.old }
    ensures { marked.new ≡ map (mark_off what.now) marked.old }
{
    match what {
        What::Settled { upto } => put_off_up_to(marked, settled as usize, *upto as usize),
        _ => put_off_one(marked, what),
    }
}

/// Puts off the marks of the entries up to the number, where those of the first ones are off already.
fn put_off_up_to(marked: &mut [MarkedEntry], first: usize, upto: usize)
    requires numbered { IsNumbered 1 (entries_of marked.old) }
    requires off { AreOff first marked.old }
    requires there { upto ≤ length marked.old }
    ensures { marked.new ≡ map (mark_off (Settled upto)) marked.old }
{
    let mut place = first;
    'each: while place < upto {
        marked[place].is_open = false;
        place += 1;
    }
}

/// Puts off the mark of the entry that is taken back, if one is.
fn put_off_one(marked: &mut [MarkedEntry], what: &What)
    requires numbered { IsNumbered 1 (entries_of marked.old) }
    requires no_settle { IsNoSettle what.now }
    ensures { marked.new ≡ map (mark_off what.now) marked.old }
{
    let Some(of) = what.names() else {
        return;
    };
    let Some(place) = place_of(marked, of) else {
        return;
    };
    let earlier = &mut marked[place];
    if what.closes(&earlier.entry) {
        earlier.is_open = false;
    }
}

/// Sets the newest nodes of groups back where entries have left them: the one of the number, if one was taken back,
/// and those behind the first ones, up to the number that was settled, whose marks are off.
pub(crate) fn leave(
    index: &mut Index,
    marked: &[MarkedEntry],
    taken_back: Option<u64>,
    first: usize,
    upto: usize,
)
    requires index { IsIndexed marked.now index.old }
    requires numbered { IsNumbered 1 (entries_of marked.now) }
    requires there { upto ≤ length marked.now }
    requires off { AreOff upto marked.now }
    ensures index { IsIndexed marked.now index.new }
    ensures newest { KeepsNewest marked.now index.old index.new }
    ensures named { (n : ℕ) (m : AnyEntry) → taken_back ≡ Some n → find (λ x. x.entry.number == n) marked.now ≡ Some m
        → MendsNewest marked.now (groups_of m.entry) index.old index.new }
    ensures settled { (i : ℕ) (m : AnyEntry) → first ≤ i → i < upto → slice_get marked.now i ≡ Some m
        → MendsNewest marked.now (groups_of m.entry) index.old index.new }
    ensures tells { TellsSame index.old index.new }
    ensures room { TakesRoom 0 index.old index.new }
{
    leave_one(index, marked, taken_back, upto as u64);
    leave_settled(index, marked, first, upto);
}

/// The same for the entries behind the first ones, up to the number.
fn leave_settled(index: &mut Index, marked: &[MarkedEntry], first: usize, upto: usize)
    requires index { IsIndexed marked.now index.old }
    requires there { upto ≤ length marked.now }
    requires off { AreOff upto marked.now }
    ensures index { IsIndexed marked.now index.new }
    ensures newest { KeepsNewest marked.now index.old index.new }
    ensures settled { (i : ℕ) (m : AnyEntry) → first ≤ i → i < upto → slice_get marked.now i ≡ Some m
        → MendsNewest marked.now (groups_of m.entry) index.old index.new }
    ensures tells { TellsSame index.old index.new }
    ensures room { TakesRoom 0 index.old index.new }
{
    for place in first..upto {
        index.leave(marked, &marked[place].entry, upto as u64);
    }
}

/// The same for the entry of the number, if there is one.
fn leave_one(index: &mut Index, marked: &[MarkedEntry], number: Option<u64>, settled: u64)
    requires index { IsIndexed marked.now index.old }
    requires numbered { IsNumbered 1 (entries_of marked.now) }
    requires off { AreOff settled marked.now }
    ensures index { IsIndexed marked.now index.new }
    ensures newest { KeepsNewest marked.now index.old index.new }
    ensures named { (n : ℕ) (m : AnyEntry) → number ≡ Some n → find (λ x. x.entry.number == n) marked.now ≡ Some m
        → MendsNewest marked.now (groups_of m.entry) index.old index.new }
    ensures tells { TellsSame index.old index.new }
    ensures room { TakesRoom 0 index.old index.new }
{
    let Some(number) = number else {
        return;
    };
    if let Some(found) = at(marked, number) {
        index.leave(marked, &found.entry, settled);
    }
}
