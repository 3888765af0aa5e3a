//! What no script shows of a book: a refusal that is told beforehand, room that is made by itself, an act in a full
//! journal, and a settle. `examples/tables/undo-*.txt` have what commands answer.

mod literals;

use crate::comparing::same;
use literals::{
    create, enters, fill, meter_of, on_a_book, redoes, remove, replace_at, stands, undoes,
};
use std::process::Abort;
use std::test::Fail;
use tsn_journal::entries::Act;
use tsn_samples::{meter_key, meter_record};
use tsn_types::numbers::Instant;
use tsn_types::refusals::{Field, Refusal};
use tsn_undo::book::Book;
use tsn_undo::laws;

fn conflict(own: u64, other: u64) -> Refusal {
    Refusal::Conflict { own, other }
}

/// The undo is refused so, and `refuse_undo` tells it beforehand.
fn is_not_undone(rt: &impl Abort, book: &mut Book, session: u32, why: &Refusal) {
    same(rt, &book.refuse_undo(session).as_ref(), &Some(why));
    same(rt, &book.undo(session).as_ref().err(), &Some(why));
}

/// The undo of all answers so, and `refuse_undo_all` tells the refusal beforehand.
fn undoes_all(rt: &impl Abort, book: &mut Book, session: u32, wanted: Result<(u64, u64), Refusal>) {
    same(rt, &book.refuse_undo_all(session), &wanted.err());
    same(rt, &book.undo_all(session), &wanted);
}

/// The redo is refused so, and `refuse_redo` tells it beforehand.
fn is_not_redone(rt: &impl Abort, book: &mut Book, session: u32, why: &Refusal) {
    same(rt, &book.refuse_redo(session).as_ref(), &Some(why));
    same(rt, &book.redo(session).as_ref().err(), &Some(why));
}

/// The settle is refused so, and `refuse_settle` tells it beforehand.
fn is_not_settled(rt: &impl Abort, book: &mut Book, upto: u64, why: &Refusal) {
    same(rt, &book.refuse_settle(upto).as_ref(), &Some(why));
    same(rt, &book.settle(1, upto).as_ref().err(), &Some(why));
}

/// Session 1 replaces what session 2 made: each takes its own back, and does it again.
fn replace_and_redo(rt: &impl Abort, book: &mut Book) {
    is_not_undone(rt, book, 1, &Refusal::NothingToUndo);
    undoes_all(rt, book, 1, Err(Refusal::NothingToUndo));
    enters(rt, book, 2, create(2), 1);
    enters(rt, book, 1, replace_at(meter_key(2), meter_of(900)), 2);
    is_not_undone(rt, book, 2, &conflict(1, 2));
    undoes_all(rt, book, 2, Err(conflict(1, 2)));
    is_not_redone(rt, book, 1, &Refusal::NothingToRedo);
    undoes(rt, book, 1, 3, 2);
    undoes(rt, book, 2, 4, 1);
    is_not_redone(rt, book, 1, &Refusal::RedoConflict { other: 4 });
    redoes(rt, book, 2, 5, 4);
    same(rt, &book.refuse_redo(1), &None);
    redoes(rt, book, 1, 6, 3);
    assert!(rt; stands(book, meter_key(2), &meter_of(900)));
    undoes_all(rt, book, 1, Ok((1, 7)));
    assert!(rt; stands(book, meter_key(2), &meter_record()));
}

#[test]
fn a_refusal_is_told_beforehand(rt: HostRuntime) -> Result<(), Fail> {
    laws::edit_at_once_undone();
    laws::undo_at_once_is_free();
    laws::undos_by_hand();
    laws::settles_by_hand();
    laws::commutation_under_references();
    laws::undo_of_all();
    laws::undo_of_all_names_a_conflict();
    laws::redo_has_an_entry_to_name();
    laws::undo_at_once_redone();
    on_a_book(rt.alloc(), |book| {
        replace_and_redo(&rt, book);
        Ok(())
    })
}

/// An enable, which is entered or refused so. A book takes a key of any kind.
fn acts(rt: &impl Abort, book: &mut Book, wanted: Result<u64, Refusal>) {
    let now = Instant::new(7).unwrap();
    same(rt, &book.acted(1, Act::Enable, meter_key(1), now), &wanted);
}

/// Room is made for as many entries as a journal holds, and an act is an entry that changes nothing.
fn make_room(rt: &impl Abort, book: &mut Book) {
    same(rt, &book.reserve(262_145), &Err(Refusal::JournalFull));
    same(rt, &book.reserve(2), &Ok(()));
    enters(rt, book, 1, create(1), 1);
    same(rt, &book.journal().len(), &1);
    acts(rt, book, Ok(2));
    same(rt, &book.journal().len(), &2);
    assert!(rt; stands(book, meter_key(1), &meter_record()));
    undoes(rt, book, 1, 3, 1);
}

/// Session 2 removes what session 3 made, and the journal is filled but for three entries.
fn fill_up(rt: &impl Abort, book: &mut Book) -> Result<(), Refusal> {
    enters(rt, book, 3, create(7), 4);
    enters(rt, book, 2, remove(7), 5);
    fill(book, 131_068)
}

/// With one entry free two are not taken back.
fn use_the_last_entry(rt: &impl Abort, book: &mut Book) {
    enters(rt, book, 1, create(1), 262_142);
    enters(rt, book, 1, create(2), 262_143);
    undoes_all(rt, book, 1, Err(Refusal::JournalFull));
    same(rt, &book.journal().count_of(1), &2);
    undoes(rt, book, 1, 262_144, 262_143);
}

/// In a full journal nothing is entered; that nothing stands, that something is in conflict and that a settle has
/// nothing to settle is told first.
fn is_full(rt: &impl Abort, book: &mut Book) {
    same(
        rt,
        &book.refuse_edit(&create(3)),
        &Some(Refusal::JournalFull),
    );
    same(rt, &book.edit(1, create(3)), &Err(Refusal::JournalFull));
    is_not_redone(rt, book, 1, &Refusal::JournalFull);
    is_not_undone(rt, book, 1, &Refusal::JournalFull);
    undoes_all(rt, book, 1, Err(Refusal::JournalFull));
    is_not_undone(rt, book, 3, &conflict(4, 5));
    undoes_all(rt, book, 3, Err(conflict(4, 5)));
    is_not_undone(rt, book, 4, &Refusal::NothingToUndo);
    undoes_all(rt, book, 4, Err(Refusal::NothingToUndo));
    is_not_settled(rt, book, 262_145, &Refusal::Range(Field::Upto));
    is_not_settled(rt, book, 0, &Refusal::Settled { upto: 0 });
    is_not_settled(rt, book, 262_144, &Refusal::JournalFull);
    acts(rt, book, Err(Refusal::JournalFull));
    same(rt, &book.reserve(1), &Err(Refusal::JournalFull));
    same(rt, &book.reserve(0), &Ok(()));
}

/// From the first entry to the last.
fn use_every_entry(rt: &impl Abort, book: &mut Book) -> Result<(), Fail> {
    make_room(rt, book);
    fill_up(rt, book)?;
    use_the_last_entry(rt, book);
    is_full(rt, book);
    Ok(())
}

#[test]
fn a_full_journal_takes_no_more(rt: HostRuntime) -> Result<(), Fail> {
    on_a_book(rt.alloc(), |book| use_every_entry(&rt, book))
}
