//! Lists of entries and of edits, read with no tree: in the service's compact spelling, and from their lexemes.
ghost use Rattle.std.specs.Prelude.{◌≡◌, ◌+◌, ◌++◌, ◌∷◌, [], ℕ, List, IfSome};
ghost use Rattle.std.specs.List.{AllByRecursion};
ghost use Rattle.serde_json.specs.Data.{Data};
ghost use Rattle.serde_json.specs.Written.{compact_text};
ghost use Rattle.tsn_records.specs.Shown.{list_array};
ghost use Rattle.tsn_wire.specs.Lexed.{lexed, ReadsValue};

use crate::cursor::Cursor;
use crate::lexemes::passed;
use std::alloc::Global;
use tsn_types::lists::ControlList;

/// An item of a list.
pub trait Item: Drop {
    ghost value: { Self → Data };

    ghost IsFit: { Self → Type 0 };

    // how many brackets it may have in one another
    ghost nesting: { ℕ };

    /// Reads one in the service's compact spelling.
    fn spelled(alloc: Global, text: &mut Cursor<'_>) -> Option<Self>
        ensures { IfSome result (λ e. IsFit e × (text.old ≡ compact_text (value e) ++ text.new)) };

    /// Reads one from its lexemes.
    fn scanned(alloc: Global, text: &mut Cursor<'_>) -> Option<Self>
        ensures { IfSome result (λ e. ReadsValue nesting (lexed text.old) (value e) (lexed text.new)) };
}

/// A list that grows by an item at a time.
pub trait Items: Drop {
    type One: Item;

    ghost items: { Self → List Self.One };

    /// The list of none. It takes no memory.
    fn none(alloc: Global) -> Self
        ensures { items result ≡ [] };

    /// Puts an item at the end; none where memory is refused.
    fn add(&mut self, item: Self::One) -> Option<()>
        ensures { IfSome result (λ _. items self.new ≡ items self.old ++ item ∷ []) };
}

impl<E: Item> Items for ControlList<E> {
    type One = E;

    ghost items = { λ l. l };

    fn none(alloc: Global) -> Self {
        ControlList::new(alloc)
    }

    fn add(&mut self, item: E) -> Option<()> {
        self.push(item).ok()
    }
}

impl<E: Item> Items for Vec<E> {
    type One = E;

    ghost items = { λ l. l.items };

    fn none(alloc: Global) -> Self {
        Vec::new(alloc)
    }

    fn add(&mut self, item: E) -> Option<()> {
        self.push(item).ok()
    }
}

/// A list of so many items at most, in the service's compact spelling.
pub fn spelled_list<L: Items>(alloc: Global, text: &mut Cursor<'_>, most: u32) -> Option<L>
    ensures small { IfSome result (λ l. AllByRecursion L.One.IsFit (L.items l)) }
    ensures text { IfSome result
        (λ l. text.old ≡ compact_text (list_array L.One.value (L.items l)) ++ text.new) }
{
    text.expect("[")?;
    let mut list = L::none(alloc);
    if text.take("]") {
        return Some(list);
    }
    'items: for _ in 0..most {
        let item = L::One::spelled(alloc, text)?;
        list.add(item)?;
        if text.take("]") {
            return Some(list);
        }
        text.expect(",")?;
    }
    None
}

/// A list of so many items at most, from its lexemes.
pub fn scanned_list<L: Items>(alloc: Global, text: &mut Cursor<'_>, most: u32) -> Option<L>
    ensures { IfSome result (λ l. ReadsValue (L.One.nesting + 1) (lexed text.old) (list_array L.One.value (L.items l))
        (lexed text.new)) }
{
    passed(text, b'[')?;
    let mut list = L::none(alloc);
    if text.mark(b']') {
        return Some(list);
    }
    'items: for _ in 0..most {
        let item = L::One::scanned(alloc, text)?;
        list.add(item)?;
        if text.mark(b']') {
            return Some(list);
        }
        passed(text, b',')?;
    }
    None
}
