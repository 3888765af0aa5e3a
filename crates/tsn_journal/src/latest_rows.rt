//! The rows of keys and sessions: where the newest node of each group is kept.
ghost use Rattle.std.specs.Prelude.{◌≤◌};

use tsn_table::Table;

/// The newest nodes of a key's two groups, counted from 1, and the numbers of its newest entries of any kind. 0 is
/// none.
#[derive(Clone, Copy, Debug)]
pub(crate) struct KeyNodes {
    /// The node of the entries on the key.
    pub(crate) on: u32,
    /// The node of those that refer to it.
    pub(crate) refers: u32,
    /// The number of the newest entry on the key, whether it stands or not.
    pub(crate) touched: u32,
    /// The number of the newest entry of which a value after refers to the key, whether it stands or not.
    pub(crate) referred: u32,
}

/// The newest nodes of a session's two groups, counted from 1, and 0 for none.
#[derive(Clone, Copy, Debug)]
pub(crate) struct SessionNodes {
    /// Of the session's standing entries.
    pub(crate) standing: u32,
    /// Of its entries at which a search for a redo ends.
    pub(crate) ends_redo: u32,
}

/// The newest node of each group, by the numbers of keys and sessions.
#[derive(Debug, Drop)]
pub(crate) struct Latest {
    pub(crate) ports: Table<KeyNodes>,
    pub(crate) filters: Table<KeyNodes>,
    pub(crate) gates: Table<KeyNodes>,
    pub(crate) meters: Table<KeyNodes>,
    pub(crate) sessions: Table<SessionNodes>,
    /// For how many rows each table surely has room, with nothing left to do there: 0 once a row came in.
    pub(crate) sure: usize,
    ghost roomy: { (sure ≤ ports.spare) × (sure ≤ filters.spare) × (sure ≤ gates.spare) × (sure ≤ meters.spare) × (sure ≤ sessions.spare) },
}
