//! The numbers of the instances that are there, and the key of each.
//!
//! It relies on the tables of each kind, which tell their numbers in order.
ghost use Rattle.std.specs.Prelude.{◌≡◌, ◌<◌, IfOk, OnErr, length};
ghost use Rattle.tsn_config.specs.Ids.{IsNumberOf, ids_of, key_by};

use crate::Config;
use std::alloc::{AllocError, Global};
use std::marker::Model;
use tsn_types::keys::{Key, Kind};
use tsn_types::numbers::{FilterId, GateId, MeterId, PortId};

/// Numbers of instances in a list, which contracts see as the list.
#[derive(Debug, Drop)]
pub struct Ids(Vec<u64>);

impl Model for Ids {
    ghost use Rattle.std.specs.Prelude.{List, ℕ};

    ghost Value = { List ℕ };

    ghost view = { λ a. a.0.items };
}

impl Ids {
    /// The numbers in order.
    pub fn as_slice(&self) -> &[u64]
        ensures { result.now ≡ self.now }
    {
        self.0.as_slice()
    }
}

impl Config {
    /// The numbers of all instances of the kind that are there, ascending. Refused only for want of memory, and never
    /// where there is none.
    pub fn ids(&self, alloc: Global, kind: Kind) -> Result<Ids, AllocError>
        ensures ids { IfOk result (λ ids. ids ≡ ids_of kind self.now.map) }
        ensures memory { OnErr result (0 < length (ids_of kind self.now.map)) }
    {
        Ok(Ids(self.rows.ids(alloc, kind)?))
    }
}

/// The key of a kind and a number that its keys may have.
pub fn key_of(kind: Kind, id: u64) -> Key
    requires { IsNumberOf kind id }
    ensures { result ≡ key_by kind id }
{
    match kind {
        Kind::Port => Key::Port(PortId::new(id).unwrap()),
        Kind::Filter => Key::Filter(FilterId::new(id).unwrap()),
        Kind::Gate => Key::Gate(GateId::new(id).unwrap()),
        Kind::Meter => Key::Meter(MeterId::new(id).unwrap()),
    }
}
