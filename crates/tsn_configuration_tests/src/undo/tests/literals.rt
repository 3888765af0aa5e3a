//! Keys, records and books of the sessions in `examples/`: two ports, sixteen instances of each other kind.
ghost use Rattle.std.specs.Prelude.{◌≤◌};

use crate::comparing::same;
use std::alloc::Global;
use std::process::Abort;
use std::test::Fail;
use tsn_config::Config;
use tsn_config::records::Records;
use tsn_edit::Edit;
use tsn_edit::batches::Batch;
use tsn_samples::{meter_key, meter_record};
use tsn_types::keys::Key;
use tsn_types::limits::Limits;
use tsn_types::records::Record;
use tsn_types::refusals::Refusal;
use tsn_undo::book::Book;

/// A meter of this committed burst size.
pub(super) fn meter_of(cbs: u64) -> Record
    requires { cbs ≤ 1000000 }
{
    Record::Meter(tsn_samples::meter_of(cbs, 0))
}

pub(super) fn create_at(key: Key, record: Record) -> Batch {
    Batch::one(Edit::Create(key, record))
}

pub(super) fn replace_at(key: Key, record: Record) -> Batch {
    Batch::one(Edit::Replace(key, record))
}

pub(super) fn remove_at(key: Key) -> Batch {
    Batch::one(Edit::Remove(key))
}

/// The creation of a meter.
pub(super) fn create(number: u64) -> Batch
    requires { number ≤ 65535 }
{
    create_at(meter_key(number), meter_record())
}

/// The removal of a meter.
pub(super) fn remove(number: u64) -> Batch
    requires { number ≤ 65535 }
{
    remove_at(meter_key(number))
}

/// Plays on a book that begins with the default ports alone. One function makes the books and lends them, so that a
/// proof goes once over a book's end.
pub(super) fn on_a_book<F: FnOnce(&mut Book) -> Result<(), Fail>>(
    alloc: Global,
    play: F,
) -> Result<(), Fail>
    requires { F.IsAlwaysCallable play }
{
    let limits = Limits::new(2, 16, 16, 16, 16).unwrap();
    let mut book = Book::new(alloc, Config::open(alloc, limits, Records::new(alloc))?);
    play(&mut book)
}

/// Creates meter 1 and takes that back, so many times.
pub(super) fn fill(book: &mut Book, pairs: u32) -> Result<(), Refusal> {
    for _ in 0..pairs {
        let meter_1 = Edit::Create(meter_key(1), meter_record());
        book.edit(1, Batch::one(meter_1))?;
        book.undo(1)?;
    }
    Ok(())
}

/// The batch is entered under this number.
pub(super) fn enters(rt: &impl Abort, book: &mut Book, session: u32, batch: Batch, entry: u64) {
    same(rt, &book.edit(session, batch), &Ok(entry));
}

/// An entry of this number takes back the other.
pub(super) fn undoes(rt: &impl Abort, book: &mut Book, session: u32, entry: u64, of: u64) {
    same(rt, &book.undo(session), &Ok((entry, of)));
}

/// An entry of this number takes back the other, which took one back.
pub(super) fn redoes(rt: &impl Abort, book: &mut Book, session: u32, entry: u64, of: u64) {
    same(rt, &book.redo(session), &Ok((entry, of)));
}

/// Whether the record of the examples is at the key.
pub(super) fn stands(book: &Book, key: Key, wanted: &Record) -> bool {
    match book.config().get(key) {
        Some(found) => found.is(wanted),
        None => false,
    }
}
