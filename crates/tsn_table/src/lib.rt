//! Tables of numbered rows, and sets of numbers in their order.
//!
//! A `Table` is a hash map that its users see as a finite map from numbers to rows, and beside it the number of rows
//! that it surely has room for. A look-up, a new row and a removal cost the same wherever they fall: no row but the
//! last one moves. Where a small number's row may lie is guessed first; the guess is tested, and the number hashed
//! where it fails. A `Numbers` is a search tree that its users see as a set.
#![tactic(auto)]

ghost use Rattle.std.specs.Prelude.{◌≡◌, ℕ, Bool, false, ◌+◌, ◌<◌, ◌≤◌, ◌⊎◌, IsOk, IsSome, IsTrue, IfOk, OnOk, OnErr, Some, None, MatchOption, cond, length, nat_eq};
ghost use Rattle.std.specs.Ordering.{nat_cmp, ord_min};
ghost use Rattle.std.specs.Option.{option_copied};
ghost use Rattle.std.specs.FinMap as map;
ghost use Rattle.std.specs.HashMap as hash;
ghost use Rattle.std.specs.List.Sorted.{IsPermutation, IsSorted};
ghost use Rattle.tsn_table.specs.Places.{LiesAt};
ghost use Rattle.tsn_table.specs.Firsts.{AnswersAs, first_id, least_id, lesser_by};
ghost use Rattle.tsn_table.specs.Copies.{Copies};

use crate::hints::Hints;
use indexmap::IndexMap;
use std::alloc::{AllocError, Global};
use std::marker::Model;
use std::mem;

mod block;
mod hints;
mod numbers;
mod packing;
mod tree;

pub use numbers::Numbers;

/// A finite map from numbers to rows. `map` is the map, and `spare` a number of rows of new numbers that can come in
/// with no more memory.
#[derive(Debug)]
pub struct Table<R> {
    alloc: Global,
    rows: IndexMap<u64, R>,
    // how many rows of new numbers were promised room
    room: usize,
    // at which place among the rows that of a small number may lie
    hints: Hints,
}

impl<R> Model for Table<R> {
    ghost use Rattle.std.specs.Prelude.{◌≤◌};
    ghost use Rattle.std.specs.FinMap.{from_entries};
    ghost use Rattle.std.specs.HashMap.{spare};
    ghost use Rattle.tsn_table.specs.View.{TableView, table_code};

    ghost Value = { TableView R };

    ghost coded = { table_code R.code };

    ghost view = { λ a. record { map = from_entries a.rows.entries; spare = a.room } };

    ghost invariant = { λ a. a.room ≤ spare a.rows };
}

// Written out, so that a proof of what holds a table does not go by what it is made of.
impl<R: Drop> Drop for Table<R> {
    fn drop(self) {
        let Table {
            alloc: _,
            rows: _,
            room: _,
            hints: _,
        } = self;
    }
}

impl<R: Drop> Table<R> {
    /// The table with no row. It takes no memory and has room for none.
    pub fn new(alloc: Global) -> Self
        ensures map { result.map ≡ map.empty }
        ensures spare { result.spare ≡ 0 }
    {
        Table {
            alloc,
            rows: IndexMap::new(alloc),
            room: 0,
            hints: Hints::new(alloc),
        }
    }

    /// The row of the number, none where there is none.
    #[tactic(auto, using(crate::proofs::Rows::found))]
    pub fn get(&self, id: u64) -> Option<&R>
        ensures { option_copied result ≡ map.get self.now.map id }
    {
        if let Some((number, row)) = self.rows.get_index(self.hints.guess(id)) {
            if *number == id {
                return Some(row);
            }
        }
        self.rows.get(&id)
    }

    /// Whether the number's row lies where it is guessed to, so that it is found with no hash.
    #[tactic(auto, using(crate::proofs::Rows::found))]
    pub fn is_guessed(&self, id: u64) -> bool
        ensures { IsTrue result → IsSome (map.get self.now.map id) }
    {
        match self.rows.get_index(self.hints.guess(id)) {
            Some((number, _)) => *number == id,
            None => false,
        }
    }

    /// The least number whose row passes the test, none where no row passes it. It looks at all rows.
    pub fn first_where<F: Fn(&R) -> bool + Drop>(&self, test: F) -> Option<u64>
        requires { F.IsAlwaysCallable test }
        ensures { (p : R → Bool) → AnswersAs F.Fn p test → result ≡ first_id p (map.entries self.now.map) }
    {
        least_of(&self.rows, &test)
    }

    /// The numbers of all rows, ascending. Refused only for want of memory, and never where there is no row.
    #[tactic(auto, using(crate::proofs::Rows::no_rows, crate::proofs::Rows::some_rows))]
    pub fn ids(&self, alloc: Global) -> Result<Vec<u64>, AllocError>
        ensures ids { IfOk result (λ ids. ids.items ≡ map.keys self.now.map) }
        ensures memory { OnErr result (0 < length (map.keys self.now.map)) }
    {
        if self.rows.is_empty() {
            return Ok(Vec::new(alloc));
        }
        let ids = ids_of(&self.rows, alloc)?;
        Ok(ascending(ids))
    }

    /// A table of equal rows with no room for more, each row copied by `copy_row`. Refused only for want of memory.
    #[tactic(auto, using(crate::proofs::Rows::same_rows))]
    pub fn copy<F: Fn(&R) -> Result<R, AllocError> + Drop>(
        &self,
        copy_row: F,
    ) -> Result<Table<R>, AllocError>
        requires callable { F.IsAlwaysCallable copy_row }
        requires equal { Copies F.Fn copy_row }
        ensures map { IfOk result (λ copy. copy.map ≡ self.now.map) }

        // It has no room for a row of a new number.
        ensures spare { IfOk result (λ copy. copy.spare ≡ 0) }
    {
        Ok(Table {
            alloc: self.alloc,
            rows: copy_of(&self.rows, self.alloc, &copy_row)?,
            room: 0,
            hints: Hints::new(self.alloc),
        })
    }

    /// Makes room for at least `count` rows of new numbers. It is refused only for want of memory, and never
    /// where there is that room already; refused, it leaves the table as it was.
    #[tactic(auto, using(crate::proofs::Rows::same_rows))]
    pub fn reserve(&mut self, count: usize) -> Result<(), AllocError>
        ensures map { self.new.map ≡ self.old.map }
        ensures ok { OnOk result (count ≤ self.new.spare) }
        ensures err { OnErr result (self.new.spare ≡ self.old.spare) }
        ensures spare { self.old.spare ≤ self.new.spare }
        ensures enough { count ≤ self.old.spare → IsOk result }
    {
        if count > self.room {
            self.rows.reserve(count)?;
            self.room = count;
        }
        if self.hints.are_wanted() {
            self.hints.make(&self.rows);
        }
        Ok(())
    }

    /// Sets the row of the number and gives the one that it had. A new number needs room and takes room for one
    /// row; a number that has a row takes none. It takes no memory.
    #[tactic(auto, using(crate::proofs::Rows::found, crate::proofs::Rows::rows_put, crate::proofs::Orders::room))]
    pub fn put(&mut self, id: u64, row: R) -> Option<R>
        requires { IsSome (map.get self.old.map id) ⊎ (1 ≤ self.old.spare) }
        ensures before { result ≡ map.get self.old.map id }
        ensures map { self.new.map ≡ map.insert self.old.map id row }
        ensures spare { MatchOption result (self.new.spare + 1 ≡ self.old.spare) (λ _. self.new.spare ≡ self.old.spare) }

        // Either way it takes room for one row at most.
        ensures room { self.old.spare ≤ self.new.spare + 1 }
    {
        if let Some(place) = place_of(&self.rows, &self.hints, id) {
            return Some(replace_at(&mut self.rows, id, place, row));
        }
        self.room -= 1;
        let place = self.rows.len();
        set_row(&mut self.rows, id, row);
        self.hints.note(id, place);
        None
    }

    /// Takes the row of the number out and gives it. It takes no room.
    #[tactic(auto, using(crate::proofs::Rows::found, crate::proofs::Rows::rows_taken))]
    pub fn take(&mut self, id: u64) -> Option<R>
        ensures before { result ≡ map.get self.old.map id }
        ensures map { self.new.map ≡ map.remove self.old.map id }
        ensures spare { self.new.spare ≡ self.old.spare }
    {
        let place = place_of(&self.rows, &self.hints, id)?;
        let row = take_at(&mut self.rows, id, place);
        // the last row took its place
        if let Some((moved, _)) = self.rows.get_index(place) {
            self.hints.note(*moved, place);
        }
        Some(row)
    }
}

// The place of the number's row, none where it has none.
#[tactic(auto, using(crate::proofs::Places::lies_at, crate::proofs::Places::found_there))]
fn place_of<R>(rows: &IndexMap<u64, R>, hints: &Hints, id: u64) -> Option<usize>
    ensures { MatchOption result (hash.get nat_eq rows.now id ≡ None) (λ place. LiesAt rows.now id place) }
{
    let place = hints.guess(id);
    if let Some((found, _)) = rows.get_index(place) {
        if *found == id {
            return Some(place);
        }
    }
    let (place, _, _) = rows.get_full(&id)?;
    Some(place)
}

// Sets the row of the number, which lies at the place, and gives the one that it had.
fn replace_at<R: Drop>(rows: &mut IndexMap<u64, R>, id: u64, place: usize, row: R) -> R
    requires { LiesAt rows.old id place }
    ensures before { hash.get nat_eq rows.old id ≡ Some result }
    ensures rows { (q : ℕ) → hash.get nat_eq rows.new q ≡ cond (nat_eq id q) (Some row) (hash.get nat_eq rows.old q) }
    ensures spare { hash.spare rows.new ≡ hash.spare rows.old }
{
    match rows.get_index_mut(place) {
        Some(kept) => mem::replace(kept, row),
        None => unreachable!(),
    }
}

// Takes the row of the number, which lies at the place, out and gives it.
fn take_at<R: Drop>(rows: &mut IndexMap<u64, R>, id: u64, place: usize) -> R
    requires { LiesAt rows.old id place }
    ensures before { hash.get nat_eq rows.old id ≡ Some result }
    ensures rows { (q : ℕ) → hash.get nat_eq rows.new q ≡ cond (nat_eq id q) None (hash.get nat_eq rows.old q) }
    ensures spare { hash.spare rows.old ≤ hash.spare rows.new }
{
    // the proof needs that no two rows have one number, which the length tells
    let _len = rows.len();
    match rows.swap_remove_index(place) {
        Some((_, row)) => row,
        None => unreachable!(),
    }
}

// The numbers of the rows, in the order of the rows.
fn ids_of<R>(rows: &IndexMap<u64, R>, alloc: Global) -> Result<Vec<u64>, AllocError>
    ensures items { IfOk result (λ ids. ids.items ≡ hash.keys rows.now) }
    ensures unique { hash.IsUnique nat_eq rows.now }
{
    rows.keys().copied().collect(alloc)
}

// The same numbers, in their order.
fn ascending(mut ids: Vec<u64>) -> Vec<u64>
    ensures permutation { IsPermutation ids.items result.items }
    ensures sorted { IsSorted nat_cmp result.items }
{
    ids.sort_unstable();
    ids
}

// The least number whose row passes the test.
fn least_of<R, F: Fn(&R) -> bool>(rows: &IndexMap<u64, R>, test: &F) -> Option<u64>
    requires { F.IsAlwaysCallable test.now }
    ensures least { (p : R → Bool) → AnswersAs F.Fn p test.now → result ≡ least_id p rows.now.entries }
    ensures unique { hash.IsUnique nat_eq rows.now }
{
    let mut least: Option<u64> = None;
    for (id, row) in rows.iter() {
        if test(row) {
            least = lesser(least, Some(*id));
        }
    }
    least
}

/// The lesser of two, where there are two.
pub fn lesser<T: Ord + Copy>(left: Option<T>, right: Option<T>) -> Option<T>
    ensures { result ≡ lesser_by (ord_min T.cmp) left right }
{
    match (left, right) {
        (Some(one), Some(other)) => Some(one.min(other)),
        (Some(one), None) => Some(one),
        (None, other) => other,
    }
}

/// For how many rows there surely is room, with nothing left to do, once a row was set: for none where it is a new one.
#[inline(always)]
pub fn sure_after(sure: usize, was_there: bool) -> usize
    ensures less { result ≤ sure }
    ensures none { was_there ≡ false → result ≡ 0 }
{
    if was_there { sure } else { 0 }
}

// Sets the row of a number, where there is room for one more.
fn set_row<R: Drop>(rows: &mut IndexMap<u64, R>, id: u64, row: R)
    requires { 1 ≤ hash.spare rows.old }
    ensures rows { (q : ℕ) → hash.get nat_eq rows.new q ≡ cond (nat_eq id q) (Some row) (hash.get nat_eq rows.old q) }
    ensures spare { hash.spare rows.old ≤ hash.spare rows.new + 1 }
{
    match rows.insert(id, row) {
        Ok(_) => {}
        Err(_) => unreachable!(),
    }
}

// Equal copies of the rows.
fn copy_of<R: Drop, F: Fn(&R) -> Result<R, AllocError>>(
    rows: &IndexMap<u64, R>,
    alloc: Global,
    copy_row: &F,
) -> Result<IndexMap<u64, R>, AllocError>
    requires callable { F.IsAlwaysCallable copy_row.now }
    requires equal { Copies F.Fn copy_row.now }
    ensures { IfOk result (λ copy. (q : ℕ) → hash.get nat_eq copy q ≡ hash.get nat_eq rows.now q) }
{
    let mut copy = IndexMap::with_capacity(alloc, rows.len())?;
    for (id, row) in rows.iter() {
        set_row(&mut copy, *id, copy_row(row)?);
    }
    Ok(copy)
}
