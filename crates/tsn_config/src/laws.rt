//! Laws of edits and changes, each a function whose contract is the law and whose body is empty.
//!
//! They are about the definitions alone, over every limits, configuration, edit and change. Nothing calls them as the
//! program runs.
ghost use Rattle.std.specs.Prelude.{◌≡◌, [], ◌∷◌, List, None, Some};
ghost use Rattle.std.specs.FinMap as map;
ghost use Rattle.tsn_types.specs.InRange.{KeyedInRange};
ghost use Rattle.tsn_types.specs.declared.keys.Key.{Key as AnyKey};
ghost use Rattle.tsn_types.specs.declared.limits.Limits.{Limits};
ghost use Rattle.tsn_types.specs.declared.records.Record.{Record as AnyRecord};
ghost use Rattle.tsn_edit.specs.declared.Edit.{Edit};
ghost use Rattle.tsn_edit.specs.Batches.{EditsInRange, IsBatch, change_of, refusal};
ghost use Rattle.tsn_edit.specs.Changes.{Fits};
ghost use Rattle.tsn_edit.specs.Configuration.{Configuration, IsWellKept};
ghost use Rattle.tsn_edit.specs.Parts.{Change, inverse};
ghost use Rattle.tsn_edit.specs.Runs.{run, IsGood};

/// A change that fits a well kept configuration, followed by its inverse, is a good run that ends where it began.
pub fn change_and_inverse()
    ensures good { (l : Limits) (c : Configuration) (e : Change) → IsWellKept l c → Fits l c e → IsGood l c (e ∷ inverse e ∷ []) }
    ensures same { (l : Limits) (c : Configuration) (e : Change) → IsWellKept l c → Fits l c e → run c (e ∷ inverse e ∷ []) ≡ c }
{}

/// The change of admitted edits fits the well kept configuration in which they were admitted, the numbers of their
/// records being in their ranges, as they are in every value of the types (`Batch::recall_ranges`).
pub fn admitted_batch_fits()
    ensures { (l : Limits) (c : Configuration) (batch : List Edit) → IsWellKept l c → IsBatch batch → EditsInRange batch
        → refusal l c batch ≡ None → Fits l c (change_of c batch) }
{}

/// What stands at a key of a well kept configuration is a record of the key's kind, and the numbers of both are in
/// their ranges.
pub fn kept_is_in_range()
    ensures { (l : Limits) (c : Configuration) (k : AnyKey) (r : AnyRecord) → IsWellKept l c → map.get c k ≡ Some r → KeyedInRange k r }
{}
