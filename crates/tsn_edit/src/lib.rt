//! Edits, and the changes that they make.
//!
//! An edit is what a session asks for: one whole record created, replaced or removed. A change is what admitted edits
//! do, in parts: each is a key with its value before and its value after, either of which may be none. Its inverse
//! takes it back. The definitions of a configuration, of a change that fits it and of a good run of changes stand in
//! `specs/`.
#![tactic(auto)]

ghost use Rattle.std.specs.Prelude.{◌≡◌, ◌∷◌, [], IfOk, map};
ghost use Rattle.std.specs.Option.{option_copied};
ghost use Rattle.tsn_edit.specs.Changes.{conflicts, keys_of, part_of, refs_after, refs_before};
ghost use Rattle.tsn_edit.specs.Edits.{EditInRange};
ghost use Rattle.tsn_edit.specs.Held.{parts_in};
ghost use Rattle.tsn_edit.specs.Parts.{AreFew, inverse, inverse_part};
ghost use Rattle.tsn_types.specs.Keys.{has, meets, refs_of, same_key};

use std::alloc::AllocError;
use std::marker::Model;
use std::mem;
use std::slice::from_ref;
use tsn_types::keys::Key;
use tsn_types::records::Record;

pub mod batches;

/// What a session asks for. A replace by an equal record is an edit too.
#[derive(Debug, Drop)]
pub enum Edit {
    Create(Key, Record),
    Replace(Key, Record),
    Remove(Key),
}

impl Edit {
    /// The numbers of the edit's record are in their ranges, by their types. It does nothing as the program runs.
    pub fn recall_ranges(&self)
        ensures { EditInRange self.now }
    {
        match self {
            Edit::Create(_, value) => value.recall_ranges(),
            Edit::Replace(_, value) => value.recall_ranges(),
            Edit::Remove(_) => {}
        }
    }
}

/// A part of a change: a key with its value before and its value after.
#[derive(Debug, Drop)]
pub struct Part {
    pub key: Key,
    pub before: Option<Record>,
    pub after: Option<Record>,
}

impl Part {
    // Swaps the values.
    fn swap(&mut self)
        ensures { self.new ≡ inverse_part self.old }
    {
        mem::swap(&mut self.before, &mut self.after);
    }

    // The part with its values swapped.
    fn inverse(self) -> Part
        ensures { result ≡ inverse_part self }
    {
        Part {
            key: self.key,
            before: self.after,
            after: self.before,
        }
    }

    /// A copy that equals its source.
    pub fn try_clone(&self) -> Result<Part, AllocError>
        ensures { IfOk result (λ copy. copy ≡ self.now) }
    {
        Ok(Part {
            key: self.key,
            before: try_clone_of(&self.before)?,
            after: try_clone_of(&self.after)?,
        })
    }

    /// A copy that equals the value after.
    pub fn copy_after(&self) -> Result<Option<Record>, AllocError>
        ensures { IfOk result (λ copy. copy ≡ self.now.after) }
    {
        try_clone_of(&self.after)
    }
}

/// How many parts a change has at most, and how many edits a batch.
pub const MOST_PARTS: usize = 16;

/// The parts of a change. One part takes no memory of its own.
#[derive(Debug, Drop)]
pub enum Parts {
    One(Part),
    Many(Vec<Part>),
}

/// What an admitted edit does: 1 to 16 parts on distinct keys, in the order of keys. Contracts see a change as the list
/// of its parts. An edit of one record has one part.
#[derive(Debug, Drop)]
pub struct Change {
    parts: Parts,
}

impl Model for Change {
    ghost use Rattle.std.specs.Prelude.{List};
    ghost use Rattle.tsn_edit.specs.declared.Part.{Part};
    ghost use Rattle.tsn_edit.specs.Parts.{AreFew};
    ghost use Rattle.tsn_edit.specs.Held.{parts_in};

    ghost Value = { List Part };

    ghost view = { λ a. parts_in a.parts };

    ghost invariant = { λ a. AreFew (parts_in a.parts) };
}

impl Change {
    /// The change of one part. It takes no memory.
    pub fn of(part: Part) -> Change
        ensures { result ≡ part ∷ [] }
    {
        Change {
            parts: Parts::One(part),
        }
    }

    /// The change of several parts, 1 to 16. It takes no memory.
    pub fn of_many(parts: Vec<Part>) -> Change
        requires { AreFew parts.items }
        ensures { result ≡ parts.items }
    {
        Change {
            parts: Parts::Many(parts),
        }
    }

    /// The parts, in the order of keys: 1 to 16.
    pub fn parts(&self) -> &[Part]
        ensures parts { result.now ≡ self.now }
        ensures few { AreFew self.now }
    {
        match &self.parts {
            Parts::One(part) => from_ref(part),
            Parts::Many(parts) => parts.as_slice(),
        }
    }

    /// The parts, taken out.
    pub fn into_parts(self) -> Parts
        ensures parts { parts_in result ≡ self }
        ensures few { AreFew self }
    {
        self.parts
    }

    /// The change that takes this one back: in each part the values before and after swapped. It takes no memory.
    pub fn inverse(self) -> Change
        ensures { result ≡ inverse self }
    {
        match self.parts {
            Parts::One(part) => Change {
                parts: Parts::One(part.inverse()),
            },
            Parts::Many(parts) => Change {
                parts: Parts::Many(taken_back(parts)),
            },
        }
    }

    /// A copy that equals its source.
    pub fn try_clone(&self) -> Result<Change, AllocError>
        ensures { IfOk result (λ copy. copy ≡ self.now) }
    {
        match &self.parts {
            Parts::One(part) => Ok(Change {
                parts: Parts::One(part.try_clone()?),
            }),
            Parts::Many(parts) => Ok(Change {
                parts: Parts::Many(copies(parts)?),
            }),
        }
    }
}

/// The inverses of the parts, each in its place.
fn taken_back(mut parts: Vec<Part>) -> Vec<Part>
    ensures { result.items ≡ map inverse_part parts.items }
{
    for part in parts.iter_mut() {
        part.swap();
    }
    parts
}

/// Copies that equal the parts.
fn copies(parts: &Vec<Part>) -> Result<Vec<Part>, AllocError>
    ensures { IfOk result (λ copy. copy.items ≡ parts.now.items) }
{
    let mut copy = Vec::with_capacity(*parts.allocator(), parts.len())?;
    for part in parts {
        copy.push_reserved(part.try_clone()?);
    }
    Ok(copy)
}

/// Whether a later change conflicts with an earlier one: they have a key in common, or a value after in the later one
/// refers to a key of the earlier one, or a key of the later one is referred to by a value before in the earlier one.
/// It takes no memory.
pub fn conflicts(later: &Change, earlier: &Change) -> bool
    ensures { result ≡ conflicts later.now earlier.now }
{
    let (later, earlier) = (later.parts(), earlier.parts());
    have_common_key(later, earlier) || refer_to(later, earlier) || are_referred(later, earlier)
}

/// Whether the two have a key in common.
#[tactic(auto, using(crate::proofs::Conflicting::common_is, std::proofs::lemmas::Grind::common_steps))]
fn have_common_key(later: &[Part], earlier: &[Part]) -> bool
    ensures { result ≡ meets (keys_of later.now) (keys_of earlier.now) }
{
    for part in later {
        if is_on(earlier, &part.key) {
            return true;
        }
    }
    false
}

/// Whether a value after in the later ones refers to a key of the earlier ones.
#[tactic(auto, using(std::proofs::lemmas::Grind::common_steps))]
fn refer_to(later: &[Part], earlier: &[Part]) -> bool
    ensures { result ≡ meets (refs_after later.now) (keys_of earlier.now) }
{
    for part in earlier {
        if is_referred_after(later, &part.key) {
            return true;
        }
    }
    false
}

/// Whether a key of the later ones is referred to by a value before in the earlier ones.
#[tactic(auto, using(crate::proofs::Conflicting::common_is, std::proofs::lemmas::Grind::common_steps))]
fn are_referred(later: &[Part], earlier: &[Part]) -> bool
    ensures { result ≡ meets (keys_of later.now) (refs_before earlier.now) }
{
    for part in later {
        if is_referred_before(earlier, &part.key) {
            return true;
        }
    }
    false
}

/// The part on the key, if there is one.
pub fn find_part<'a>(parts: &'a [Part], key: &Key) -> Option<&'a Part>
    ensures { option_copied result ≡ part_of key.now parts.now }
{
    let mut rest = parts;
    while let Some((part, others)) = rest.split_first() {
        if *key == part.key {
            return Some(part);
        }
        rest = others;
    }
    None
}

/// Whether one of the parts is on the key.
#[tactic(auto, using(crate::proofs::Conflicting::on_is, std::proofs::lemmas::Grind::common_steps))]
pub fn is_on(parts: &[Part], key: &Key) -> bool
    ensures { result ≡ has (keys_of parts.now) key.now }
{
    for part in parts {
        if is_same(key, &part.key) {
            return true;
        }
    }
    false
}

/// Whether a value after in the parts refers to the key.
#[tactic(auto, using(crate::proofs::Conflicting::after_is, std::proofs::lemmas::Grind::common_steps))]
pub fn is_referred_after(parts: &[Part], key: &Key) -> bool
    ensures { result ≡ has (refs_after parts.now) key.now }
{
    for part in parts {
        if refers_to(&part.after, key) {
            return true;
        }
    }
    false
}

/// Whether a value before in the parts refers to the key.
#[tactic(auto, using(crate::proofs::Conflicting::before_is, std::proofs::lemmas::Grind::common_steps))]
pub fn is_referred_before(parts: &[Part], key: &Key) -> bool
    ensures { result ≡ has (refs_before parts.now) key.now }
{
    for part in parts {
        if refers_to(&part.before, key) {
            return true;
        }
    }
    false
}

fn is_same(left: &Key, right: &Key) -> bool
    ensures { result ≡ same_key left.now right.now }
{
    left == right
}

/// Whether the value refers to the key; none refers to nothing.
fn refers_to(value: &Option<Record>, key: &Key) -> bool
    ensures { result ≡ has (refs_of value.now) key.now }
{
    match value {
        Some(whole) => whole.refers_to(key),
        None => false,
    }
}

/// A copy of a value that equals its source.
fn try_clone_of(value: &Option<Record>) -> Result<Option<Record>, AllocError>
    ensures { IfOk result (λ copy. copy ≡ value.now) }
{
    match value {
        Some(whole) => Ok(Some(whole.try_clone()?)),
        None => Ok(None),
    }
}
