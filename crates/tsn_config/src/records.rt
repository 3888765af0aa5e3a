//! Lists of records with their keys, from which a configuration is opened.
//!
//! Each record is of its key's kind and its numbers are in range, by the type of the list. Limits, repeated keys and
//! references are not looked at here.
ghost use Rattle.std.specs.Prelude.{◌≡◌, ◌++◌, ◌∷◌, [], IsTrue, OnErr, OnOk};
ghost use Rattle.tsn_edit.specs.Edits.{is_of_kind};
ghost use Rattle.tsn_config.specs.Opening.{AreOfKind, RecordsInRange};

use std::alloc::{AllocError, Global};
use std::marker::Model;
use tsn_types::keys::Key;
use tsn_types::records::Record;

/// A list of pairs of a key and a record of the key's kind, in the order in which they were given.
#[derive(Debug, Drop)]
pub struct Records {
    items: Vec<(Key, Record)>,
}

impl Model for Records {
    ghost use Rattle.std.specs.Prelude.{List};
    ghost use Rattle.tsn_types.specs.declared.keys.Key.{Key};
    ghost use Rattle.tsn_types.specs.declared.records.Record.{Record};
    ghost use Rattle.tsn_config.specs.Opening.{AreOfKind, RecordsInRange};

    ghost Value = { List (Key × Record) };

    ghost view = { λ a. a.items.items };

    ghost invariant = { λ a. AreOfKind a.items.items × RecordsInRange a.items.items };
}

impl Records {
    /// The empty list. It takes no memory; the list keeps the allocator.
    pub fn new(alloc: Global) -> Self
        ensures { result ≡ [] }
    {
        Records {
            items: Vec::new(alloc),
        }
    }

    /// Puts a key and its record at the end, or leaves the list where memory is refused. The record is of the key's
    /// kind.
    pub fn push(&mut self, key: Key, value: Record) -> Result<(), AllocError>
        requires { IsTrue (is_of_kind key value) }
        ensures ok { OnOk result (self.new ≡ self.old ++ (key, value) ∷ []) }
        ensures err { OnErr result (self.new ≡ self.old) }
    {
        value.recall_ranges();
        self.items.push((key, value))?;
        Ok(())
    }

    /// The pairs, taken out of the list.
    pub(crate) fn into_items(self) -> Vec<(Key, Record)>
        ensures items { result.items ≡ self }
        ensures kinds { AreOfKind result.items }
        ensures ranges { RecordsInRange result.items }
    {
        self.items
    }
}
