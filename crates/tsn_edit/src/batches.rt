//! Batches: edits that are made at once, or not at all.
ghost use Rattle.std.specs.Prelude.{◌≡◌, ◌∷◌, [], MatchResult, true, false};
ghost use Rattle.tsn_edit.specs.Batches.{EditsInRange, IsBatch, are_distinct, edited_keys, is_batch, key_of};
ghost use Rattle.tsn_edit.specs.HeldEdits.{edits_in};
ghost use Rattle.tsn_types.specs.declared.refusals.Refusal.TheVariants.{Shape};
ghost use Rattle.tsn_types.specs.Keys.{has};

use crate::{Edit, MOST_PARTS};
use std::marker::Model;
use std::slice::from_ref;
use tsn_types::keys::Key;
use tsn_types::refusals::Refusal;

/// The edits of a batch. One edit takes no memory of its own.
#[derive(Debug, Drop)]
pub enum Edits {
    One(Edit),
    Many(Vec<Edit>),
}

/// Edits that are made at once, or not at all: 1 to 16, on distinct keys. Contracts see a batch as the list of its
/// edits.
#[derive(Debug, Drop)]
pub struct Batch {
    edits: Edits,
}

impl Model for Batch {
    ghost use Rattle.std.specs.Prelude.{List};
    ghost use Rattle.tsn_edit.specs.declared.Edit.{Edit};
    ghost use Rattle.tsn_edit.specs.Batches.{IsBatch};
    ghost use Rattle.tsn_edit.specs.HeldEdits.{edits_in};

    ghost Value = { List Edit };

    ghost view = { λ a. edits_in a.edits };

    ghost invariant = { λ a. IsBatch (edits_in a.edits) };
}

impl Batch {
    /// The batch of one edit. It takes no memory.
    #[tactic(auto, using(crate::proofs::Batched::batch_of_one))]
    pub fn one(edit: Edit) -> Batch
        ensures { result ≡ edit ∷ [] }
    {
        Batch {
            edits: Edits::One(edit),
        }
    }

    /// The batch of these edits. It is refused 3 where there is no edit, where there are more than 16, and where a key
    /// stands twice. It takes no memory.
    pub fn new(edits: Vec<Edit>) -> Result<Batch, Refusal>
        ensures { MatchResult result (λ batch. (batch ≡ edits.items) × (is_batch edits.items ≡ true))
            (λ why. (why ≡ Shape) × (is_batch edits.items ≡ false)) }
    {
        if edits.is_empty() || edits.len() > MOST_PARTS || !are_distinct(&edits) {
            return Err(Refusal::Shape);
        }
        Ok(Batch {
            edits: Edits::Many(edits),
        })
    }

    /// The edits, in their order: 1 to 16, on distinct keys.
    pub fn edits(&self) -> &[Edit]
        ensures edits { result.now ≡ self.now }
        ensures batch { IsBatch self.now }
    {
        match &self.edits {
            Edits::One(edit) => from_ref(edit),
            Edits::Many(edits) => edits.as_slice(),
        }
    }

    /// There are 1 to 16 edits on distinct keys, and the numbers of their records are in their ranges: all by their
    /// types. It changes nothing as the program runs.
    pub fn recall_ranges(&self)
        ensures batch { IsBatch self.now }
        ensures ranges { EditsInRange self.now }
    {
        recall_ranges(self.edits())
    }

    /// The edits, taken out.
    pub fn into_edits(self) -> Edits
        ensures edits { edits_in result ≡ self }
        ensures batch { IsBatch self }
    {
        self.edits
    }
}

impl Edit {
    /// The key of the edit.
    pub fn key(&self) -> Key
        ensures { result ≡ key_of self.now }
    {
        match self {
            Edit::Create(key, _) => *key,
            Edit::Replace(key, _) => *key,
            Edit::Remove(key) => *key,
        }
    }
}

/// Whether one of the edits is on the key.
#[tactic(auto, using(crate::proofs::Batched::edited_is, std::proofs::lemmas::Grind::common_steps))]
pub fn is_edited(edits: &[Edit], key: &Key) -> bool
    ensures { result ≡ has (edited_keys edits.now) key.now }
{
    for edit in edits {
        if *key == edit.key() {
            return true;
        }
    }
    false
}

/// Whether no key stands twice.
fn are_distinct(edits: &[Edit]) -> bool
    ensures { result ≡ are_distinct (edited_keys edits.now) }
{
    let mut rest = edits;
    while let [first, others @ ..] = rest {
        if is_edited(others, &first.key()) {
            return false;
        }
        rest = others;
    }
    true
}

/// The numbers of each edit's record are in their ranges.
fn recall_ranges(edits: &[Edit])
    ensures { EditsInRange edits.now }
{
    let mut rest = edits;
    while let [first, others @ ..] = rest {
        first.recall_ranges();
        rest = others;
    }
}
