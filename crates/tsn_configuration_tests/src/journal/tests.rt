//! What only a journal's own calls show, entry by entry: which numbers stand, what is found of them, what is copied,
//! and for how many more there is room. `examples/tables/undo-*.txt` have what sessions are told. One function makes
//! the journals and lends them, so that a proof goes once over a journal's end.
ghost use Rattle.std.specs.Prelude.{◌≡◌, ◌≤◌, length};
ghost use Rattle.tsn_entries.specs.Entries.{settles_to};

use crate::comparing::same;
use std::alloc::{AllocError, Global};
use std::process::Abort;
use std::test::Fail;
use tsn_edit::{Change, Part};
use tsn_journal::entries::{Act, Entry, What};
use tsn_journal::journal::{Journal, MOST_ENTRIES};
use tsn_journal::laws;
use tsn_samples::{gate_key, meter_key, meter_record};
use tsn_types::numbers::Instant;
use tsn_types::refusals::Refusal;

/// The creation of a meter.
fn created(number: u64) -> Change
    requires { number ≤ 65535 }
{
    Change::of(Part {
        key: meter_key(number),
        before: None,
        after: Some(meter_record()),
    })
}

/// Puts the entry at the end; the answer is its number. One that settles names an entry that is there, or none.
fn enter(journal: &mut Journal, session: u32, what: What) -> Result<u64, Refusal>
    requires { settles_to what ≤ length journal.old.entries }
{
    if let Err(why) = journal.reserve(1, what.added_parts()) {
        return Err(why);
    }
    Ok(journal.push(session, what))
}

/// Plays on a journal with no entry.
fn on_a_journal<F: FnOnce(&mut Journal) -> Result<(), Fail>>(
    alloc: Global,
    play: F,
) -> Result<(), Fail>
    requires { F.IsAlwaysCallable play }
{
    let mut journal = Journal::new(alloc);
    play(&mut journal)
}

/// The entry at the end gets this number.
fn enters(rt: &impl Abort, journal: &mut Journal, session: u32, what: What, number: u64)
    requires { settles_to what ≤ length journal.old.entries }
{
    same(rt, &enter(journal, session, what), &Ok(number));
}

/// The session creates a meter, by an entry of this number.
fn creates(rt: &impl Abort, journal: &mut Journal, session: u32, meter: u64, number: u64)
    requires { meter ≤ 65535 }
{
    enters(rt, journal, session, What::Made(created(meter)), number);
}

/// Whether the entry is the session's, and a change at the meter.
fn changes(entry: &Entry, number: u64, session: u32, meter: u64) -> bool
    requires { meter ≤ 65535 }
{
    let at = match entry.what.change() {
        Some(change) => Some(change.parts()[0].key),
        None => None,
    };
    entry.number == number && entry.session == session && at == Some(meter_key(meter))
}

/// Entry 2 is session 8's, and a change at meter 6; there is none before the first and behind the last.
fn has_two_entries(rt: &impl Abort, journal: &Journal) {
    same(rt, &journal.len(), &2);
    let second = journal.entry(2);
    assert!(rt; second.is_some_and(|entry| changes(entry, 2, 8, 6)));
    assert!(rt; journal.entry(0).is_none());
    assert!(rt; journal.entry(3).is_none());
}

/// The number and the session of a copy of the entry, none where there is no such entry.
fn copied(journal: &Journal, number: u64) -> Result<Option<(u64, u32)>, AllocError> {
    match journal.entry(number) {
        Some(entry) => {
            let copy = entry.try_clone()?;
            Ok(Some((copy.number, copy.session)))
        }
        None => Ok(None),
    }
}

/// How many entries come after the number, and the number of the first of them.
fn told_after(journal: &Journal, number: u64) -> Result<(usize, Option<u64>), AllocError> {
    let later = journal.since(number)?;
    let first = match later.as_slice().first() {
        Some(entry) => Some(entry.number),
        None => None,
    };
    Ok((later.as_slice().len(), first))
}

fn tells_copies(rt: &impl Abort, journal: &Journal) {
    same(rt, &copied(journal, 2), &Ok(Some((2, 8))));
    same(rt, &told_after(journal, 0), &Ok((2, Some(1))));
    same(rt, &told_after(journal, 1), &Ok((1, Some(2))));
    same(rt, &told_after(journal, 2), &Ok((0, None)));
}

#[test]
fn an_entry_has_its_number_and_session(rt: HostRuntime) -> Result<(), Fail> {
    laws::limits();
    on_a_journal(rt.alloc(), |journal| {
        same(&rt, &journal.len(), &0);
        same(&rt, &MOST_ENTRIES, &262_144);
        same(
            &rt,
            &journal.reserve(262_145, 0),
            &Err(Refusal::JournalFull),
        );
        creates(&rt, journal, 7, 5, 1);
        same(
            &rt,
            &journal.reserve(262_144, 262_144),
            &Err(Refusal::JournalFull),
        );
        same(&rt, &journal.reserve(262_143, 262_143), &Ok(()));
        creates(&rt, journal, 8, 6, 2);
        has_two_entries(&rt, journal);
        tells_copies(&rt, journal);
        Ok(())
    })
}

/// An act on gate 0.
fn act() -> What
    ensures { settles_to result ≡ 0 }
{
    What::Acted {
        act: Act::Enable,
        key: gate_key(0),
        now: Instant::new(5).unwrap(),
    }
}
