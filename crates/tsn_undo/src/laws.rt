//! Laws of edits and their undoing, as functions whose contracts state them. Their bodies are empty.
ghost use Rattle.std.specs.Prelude.{◌≡◌, ◌∷◌, [], ℕ, Bool, IsSome, List, Some, None};
ghost use Rattle.tsn_types.specs.declared.limits.Limits.{Limits as AnyLimits};
ghost use Rattle.tsn_edit.specs.Configuration.{Configuration, IsWellKept};
ghost use Rattle.tsn_types.specs.declared.refusals.Refusal.TheVariants.{Conflict};
ghost use Rattle.tsn_edit.specs.Changes.{Fits};
ghost use Rattle.tsn_edit.specs.Parts.{inverse};
ghost use Rattle.tsn_edit.specs.Runs.{IsGood};
ghost use Rattle.tsn_undo.specs.Commuting.{Commutes, IsClosed};
ghost use Rattle.tsn_edit.specs.declared.Edit.{Edit as AnyEdit};
ghost use Rattle.tsn_entries.specs.declared.entries.What.TheVariants.{Settled};
ghost use Rattle.tsn_entries.specs.Entries.{Applied, changes, no_room, redone, settled, settled_edits, standing, undone, with_entry};
ghost use Rattle.tsn_entries.specs.Finding.{find_conflict, find_redo_conflict, last_of, others_standing, own_standing, redo_of};
ghost use Rattle.tsn_undo.specs.Examples.{blocked, both_undone, created_back, creation, final_creation, first_run, gate_creation, or_nothing, others_removal, removal, replaced_back, replacement, taken_back, two_settled};
ghost use Rattle.tsn_undo.specs.Ledger.{Ledger, base_of, present};
ghost use Rattle.tsn_undo.specs.Soundness.{IsSound};
ghost use Rattle.tsn_undo.specs.Redo.{Redoes};
ghost use Rattle.tsn_undo.specs.Steps.{Edits, TakesBack, undo_refusal};
ghost use Rattle.tsn_undo.specs.UndoAll.{BlocksAll, TakesAllBack, others_alone, undo_all_cause, undo_all_refusal};

/// An accepted edit that the same session at once undoes is the one that is taken back, and the configuration is then
/// the one before the edit: the whole map, every member of every record. Every book is sound, as `Book::config` says.
pub fn edit_at_once_undone()
    ensures { (before edited after : Ledger) (session : ℕ) (batch : List AnyEdit) (entry number of : ℕ) →
        IsSound before.limits before.opening before.entries →
        Edits before session batch entry edited →
        TakesBack edited session number of after →
        (of ≡ entry) × (present after ≡ present before) }
{}

/// Such an undo always has something to take back and never a conflict: a full journal alone refuses it, or want of
/// memory, as it does any undo.
pub fn undo_at_once_is_free()
    ensures { (before edited : Ledger) (session : ℕ) (batch : List AnyEdit) (entry : ℕ) →
        IsSound before.limits before.opening before.entries →
        Edits before session batch entry edited →
        undo_refusal edited session ≡ no_room edited.entries 1 }
{}

/// Journals of worked examples: what a session's next undo or redo takes back, what a colleague's removal blocks until
/// it is undone itself, and what stands in the way of an undo of all and of a redo.
pub fn undos_by_hand()
    ensures removal { last_of first_run 1 ≡ Some removal }
    ensures creation { last_of (with_entry first_run 1 (undone removal)) 1 ≡ Some creation }
    ensures stranger { last_of first_run 2 ≡ None }
    ensures newest { last_of blocked 1 ≡ Some replacement }
    ensures blocks { find_conflict blocked replacement ≡ Some others_removal }
    ensures unblocks { find_conflict (with_entry blocked 2 (undone others_removal)) replacement ≡ None }
    ensures nothing { undo_all_cause or_nothing 1 (own_standing or_nothing 1) ≡ Some (Conflict 1 2) }
    ensures replaced { redo_of both_undone 1 ≡ Some replaced_back }
    ensures created { redo_of both_undone 2 ≡ Some created_back }
    ensures overwritten { find_redo_conflict both_undone replaced_back ≡ Some created_back }
    ensures redone { redo_of (with_entry both_undone 2 (redone created_back)) 1 ≡ Some replaced_back }
{}

/// A worked example of a settle: what was undone by then is not final, what stood is, what comes later stands, and an
/// undo is redone just where it is above the number, wherever the edit that it took back lies.
pub fn settles_by_hand()
    ensures number { settled two_settled ≡ 2 }
    ensures base { settled_edits two_settled ≡ final_creation ∷ [] }
    ensures stands { standing two_settled ≡ gate_creation ∷ [] }
    ensures newest { last_of two_settled 1 ≡ Some gate_creation }
    ensures redone { redo_of two_settled 2 ≡ Some taken_back }
    ensures further { redo_of (with_entry two_settled 1 (Settled 3)) 2 ≡ None }
    ensures later { standing (with_entry two_settled 1 (Settled 3)) ≡ gate_creation ∷ [] }
    ensures same { settled_edits (with_entry two_settled 1 (Settled 3)) ≡ final_creation ∷ [] }
{}

/// Any set of standing entries that has, with each of its entries, every later standing entry in conflict with it, may
/// be taken out of the run: the run of the others is good, and it ends, at each key of the set, in the value before the
/// set's earliest change of that key, and at every other key as the run of all standing entries does. The opening is
/// well kept, as every book's is.
pub fn commutation_under_references()
    ensures { (l : AnyLimits) (from : Configuration) (xs : List Applied) (out : Applied → Bool) →
        IsWellKept l from →
        IsGood l from (changes xs) →
        IsClosed out xs →
        Commutes l from out xs }
{}

/// An undo of all that a session has standing, accepted, leaves what the others' standing entries alone give: just
/// these stand still, and their run alone is good. So each still fits in its place.
pub fn undo_of_all()
    ensures { (before after : Ledger) (session count last : ℕ) →
        IsSound before.limits before.opening before.entries →
        TakesAllBack before session count last after →
        IsSound after.limits after.opening after.entries
        × (standing after.entries ≡ others_standing before.entries session)
        × (present after ≡ others_alone before session)
        × IsGood before.limits (base_of before) (changes (others_standing before.entries session)) }
{}

/// Where an undo of all is refused for a conflict, the entry named first is a standing one of the session, and the
/// other a later standing one of another session in conflict with it.
pub fn undo_of_all_names_a_conflict()
    ensures { (b : Ledger) (session own other : ℕ) →
        IsSound b.limits b.opening b.entries →
        undo_all_refusal b session ≡ Some (Conflict own other) →
        BlocksAll b.entries session own other }
{}

/// What a session undid fits again unless a later entry is in conflict with it, so that where a redo is refused for
/// this there is an entry to name.
pub fn redo_has_an_entry_to_name()
    ensures { (b : Ledger) (session : ℕ) (undone : Applied) →
        IsSound b.limits b.opening b.entries →
        redo_of b.entries session ≡ Some undone →
        ¬ (Fits b.limits (present b) (inverse undone.change)) →
        IsSome (find_redo_conflict b.entries undone) }
{}

/// A session that undoes an edit and at once redoes it has the configuration that the edit left.
pub fn undo_at_once_redone()
    ensures { (before undone after : Ledger) (session number of again named : ℕ) →
        IsSound before.limits before.opening before.entries →
        TakesBack before session number of undone →
        Redoes undone session again named after →
        (named ≡ number) × (present after ≡ present before) }
{}
