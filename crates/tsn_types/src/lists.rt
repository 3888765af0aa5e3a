//! Gate control lists: the entries of a list in order, grown at its end.
ghost use Rattle.std.specs.Prelude.{◌≡◌, ◌++◌, ◌∷◌, [], length, IfOk, OnOk, OnErr, IsTrue, ◌↔◌, slice_get};
ghost use Rattle.std.specs.Option.{option_copied};
ghost use Rattle.std.specs.Cmp.Lexicographic.{pointwise, lists_per, lists_equiv};

use std::alloc::{AllocError, Global};
use std::marker::Model;

/// A gate control list (802.1Q-2018, 12.29.1.2 and 12.31.3), which contracts see as the list of its entries.
#[derive(Debug, Drop)]
pub struct ControlList<E> {
    entries: Vec<E>,
}

impl<E> Model for ControlList<E> {
    ghost use Rattle.std.specs.Prelude.{List};

    ghost Value = { List E };

    ghost view = { λ a. a.entries.items };
}

impl<E> ControlList<E> {
    /// An empty list. It takes no memory; the list keeps the allocator.
    pub fn new(alloc: Global) -> Self
        ensures { result ≡ [] }
    {
        ControlList {
            entries: Vec::new(alloc),
        }
    }

    /// The allocator that the list keeps.
    pub fn allocator(&self) -> Global {
        *self.entries.allocator()
    }

    /// Puts an entry at the end, or leaves the list where memory is refused.
    pub fn push(&mut self, entry: E) -> Result<(), AllocError>
    where
        E: Drop,
        ensures ok { OnOk result (self.new ≡ self.old ++ entry ∷ []) }
        ensures err { OnErr result (self.new ≡ self.old) }
    {
        self.entries.push(entry)?;
        Ok(())
    }

    /// How many entries there are.
    pub fn len(&self) -> usize
        ensures { result ≡ length self.now }
    {
        self.entries.len()
    }

    /// Whether there are none.
    pub fn is_empty(&self) -> bool
        ensures { IsTrue result ↔ (self.now ≡ []) }
    {
        self.entries.is_empty()
    }

    /// The entry at an index, from 0.
    pub fn get(&self, index: usize) -> Option<&E>
        ensures { option_copied result ≡ slice_get self.now index }
    {
        self.entries.get(index)
    }

    /// The entries in order.
    pub fn as_slice(&self) -> &[E]
        ensures { result.now ≡ self.now }
    {
        self.entries.as_slice()
    }

    /// A copy that equals its source, where the clones of entries do.
    pub fn try_clone(&self) -> Result<Self, AllocError>
    where
        E: Clone,
        requires { (x y : E) → E.is_clone x y → y ≡ x }
        ensures { IfOk result (λ copy. copy ≡ self.now) }
    {
        Ok(ControlList {
            entries: self.entries.clone()?,
        })
    }
}

impl<E: PartialEq> PartialEq for ControlList<E> {
    ghost eq = { pointwise E.eq };

    ghost laws = { lists_per E.laws };

    fn eq(&self, other: &Self) -> bool {
        self.entries == other.entries
    }
}
