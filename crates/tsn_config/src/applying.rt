//! Making a change that fits, or admitted edits, in room that was reserved.
//!
//! No reference is tested when a change is made: that it fits is the caller's to know, and the type's rule follows from
//! it.
ghost use Rattle.std.specs.Prelude.{◌≡◌, ◌+◌, ◌≤◌, ◌∷◌, [], IfOk, IsOk, None, OnErr, OnOk, length};
ghost use Rattle.tsn_edit.specs.Batches.{IsBatch, change_of, part_in, refusal};
ghost use Rattle.tsn_edit.specs.Changes.{Fits, after_change, room_of};
ghost use Rattle.tsn_config.specs.Kinds.{AreOfKinds};

use crate::Config;
use crate::changing::put_of;
use std::alloc::AllocError;
use tsn_edit::batches::{Batch, Edits};
use tsn_edit::{Change, Edit, Part, Parts};

impl Config {
    /// Makes room for at least `count` parts of changes. It is refused only for want of memory, and never where there
    /// is that room already; the map stays, and the room never falls.
    pub fn reserve(&mut self, count: usize) -> Result<(), AllocError>
        ensures limits { self.new.limits ≡ self.old.limits }
        ensures map { self.new.map ≡ self.old.map }
        ensures ok { OnOk result (count ≤ self.new.spare) }
        ensures spare { self.old.spare ≤ self.new.spare }
        ensures enough { count ≤ self.old.spare → IsOk result }
    {
        self.rows.reserve(count)
    }

    /// Makes a change that fits: each of its keys has its value after. It takes at most the room of its parts, and no
    /// memory.
    pub fn apply(&mut self, change: Change)
        requires fits { Fits self.old.limits self.old.map change }
        requires room { room_of change ≤ self.old.spare }
        ensures limits { self.new.limits ≡ self.old.limits }
        ensures map { self.new.map ≡ after_change self.old.map change }
        ensures spare { self.old.spare ≤ self.new.spare + room_of change }
    {
        self.recall_kinds(&change);
        match change.into_parts() {
            Parts::One(part) => {
                let _ = self.rows.set(part.key, part.after);
            }
            Parts::Many(parts) => self.rows.set_all(parts),
        }
    }

    /// Makes admitted edits, in room for their parts, and gives the change that they are: it has the values that stood
    /// at their keys, and copies of those that stand there now. It is refused only for want of memory; refused, it has
    /// changed nothing.
    pub fn make(&mut self, batch: Batch) -> Result<Change, AllocError>
        requires admitted { refusal self.old.limits self.old.map batch ≡ None }
        requires room { length batch ≤ self.old.spare }
        ensures limits { self.new.limits ≡ self.old.limits }
        ensures change { IfOk result (λ change. change ≡ change_of self.old.map batch) }
        ensures fits { OnOk result (Fits self.old.limits self.old.map (change_of self.old.map batch)) }
        ensures map { OnOk result (self.new.map ≡ after_change self.old.map (change_of self.old.map batch)) }
        ensures unchanged { OnErr result (self.new.map ≡ self.old.map) }
        ensures spare { self.old.spare ≤ self.new.spare + length batch }
        ensures kept { OnErr result (self.old.spare ≤ self.new.spare) }
    {
        self.recall_fits(&batch);
        match batch.into_edits() {
            Edits::One(edit) => self.make_one(edit),
            Edits::Many(edits) => self.make_many(edits),
        }
    }

    // The change of admitted edits fits, and its values after are of their keys' kinds. It does nothing as the program
    // runs.
    fn recall_fits(&self, batch: &Batch)
        requires { refusal self.now.limits self.now.map batch.now ≡ None }
        ensures batch { IsBatch batch.now }
        ensures fits { Fits self.now.limits self.now.map (change_of self.now.map batch.now) }
        ensures kinds { AreOfKinds (change_of self.now.map batch.now) }
    {
        // The proof needs what the type keeps, which reading a field gives, and the ranges of the records' numbers.
        let _kept = &self.limits;
        batch.recall_ranges();
    }

    // Makes one edit, with one copy of the value that it puts.
    fn make_one(&mut self, edit: Edit) -> Result<Change, AllocError>
        requires fits { Fits self.old.limits self.old.map (part_in self.old.map edit ∷ []) }
        requires kinds { AreOfKinds (part_in self.old.map edit ∷ []) }
        requires room { 1 ≤ self.old.spare }
        ensures limits { self.new.limits ≡ self.old.limits }
        ensures change { IfOk result (λ change. change ≡ part_in self.old.map edit ∷ []) }
        ensures map { OnOk result (self.new.map ≡ after_change self.old.map (part_in self.old.map edit ∷ [])) }
        ensures unchanged { OnErr result (self.new.map ≡ self.old.map) }
        ensures spare { self.old.spare ≤ self.new.spare + 1 }
        ensures kept { OnErr result (self.old.spare ≤ self.new.spare) }
    {
        let put = put_of(edit);
        let copy = put.copy_after()?;
        let before = self.rows.set(put.key, copy);
        Ok(Change::of(Part {
            key: put.key,
            before,
            after: put.after,
        }))
    }

    // Makes several edits.
    fn make_many(&mut self, edits: Vec<Edit>) -> Result<Change, AllocError>
        requires batch { IsBatch edits.items }
        requires fits { Fits self.old.limits self.old.map (change_of self.old.map edits.items) }
        requires room { length edits.items ≤ self.old.spare }
        ensures limits { self.new.limits ≡ self.old.limits }
        ensures change { IfOk result (λ change. change ≡ change_of self.old.map edits.items) }
        ensures map { OnOk result (self.new.map ≡ after_change self.old.map (change_of self.old.map edits.items)) }
        ensures unchanged { OnErr result (self.new.map ≡ self.old.map) }
        ensures spare { self.old.spare ≤ self.new.spare + length edits.items }
        ensures kept { OnErr result (self.old.spare ≤ self.new.spare) }
    {
        let change = self.copied_parts(edits)?;
        let copy = change.try_clone()?;
        self.apply(copy);
        Ok(change)
    }

    // The values after of a change that fits are of their keys' kinds. It does nothing as the program runs.
    fn recall_kinds(&self, change: &Change)
        requires { Fits self.now.limits self.now.map change.now }
        ensures { AreOfKinds change.now }
    {
        // The proof needs what the type keeps, which reading a field gives.
        let _kept = &self.limits;
    }
}
