//! What the rows of keys and sessions tell: the newest node of each group, and of each key the newest entries of any
//! kind.
ghost use Rattle.std.specs.Prelude.{◌≡◌, ◌⊎◌, IsSome, OnOk, Some, if◌then◌else◌};
ghost use Rattle.std.specs.FinMap as map;
ghost use Rattle.std.specs.Option.{option_copied};
ghost use Rattle.tsn_types.specs.Keys.{same_key};
ghost use Rattle.tsn_types.specs.declared.keys.Key.{Key as AnyKey};
ghost use Rattle.tsn_journal.specs.declared.groups.Group.{Group as AnyGroup};
ghost use Rattle.tsn_journal.specs.Latest.{HasRows, TakesRows, ends_of, key_row, latest_of, on_of, referred_of, refers_of, session_row, standing_of, touched_of};

use crate::latest_rows::{KeyNodes, Latest, SessionNodes};
use std::alloc::{AllocError, Global};
use tsn_table::{Table, sure_after};
use tsn_types::keys::Key;

impl KeyNodes {
    /// The row of the key with the entry of the number on it.
    pub(crate) fn touched_by(self, number: u32) -> KeyNodes
        ensures { result ≡ record self { touched = number } }
    {
        KeyNodes {
            touched: number,
            ..self
        }
    }

    /// The row of the key with the entry of the number referring to it.
    pub(crate) fn referred_by(self, number: u32) -> KeyNodes
        ensures { result ≡ record self { referred = number } }
    {
        KeyNodes {
            referred: number,
            ..self
        }
    }
}

impl Latest {
    /// No node in any group. It takes no memory.
    pub(crate) fn new(alloc: Global) -> Latest
        ensures latest { (g : AnyGroup) → latest_of result g ≡ 0 }
        ensures touched { (q : AnyKey) → touched_of (key_row result q) ≡ 0 }
        ensures referred { (q : AnyKey) → referred_of (key_row result q) ≡ 0 }
    {
        Latest {
            ports: Table::new(alloc),
            filters: Table::new(alloc),
            gates: Table::new(alloc),
            meters: Table::new(alloc),
            sessions: Table::new(alloc),
            sure: 0,
        }
    }

    /// Makes room for `count` groups more of each kind. Refused only for want of memory.
    pub(crate) fn reserve(&mut self, count: usize) -> Result<(), AllocError>
        ensures latest { (g : AnyGroup) → latest_of self.new g ≡ latest_of self.old g }
        ensures keys { (q : AnyKey) → key_row self.new q ≡ key_row self.old q }
        ensures ok { OnOk result (HasRows count self.new) }
        ensures spare { TakesRows 0 self.old self.new }
    {
        if count <= self.sure {
            return Ok(());
        }
        self.ports.reserve(count)?;
        self.filters.reserve(count)?;
        self.gates.reserve(count)?;
        self.meters.reserve(count)?;
        self.sessions.reserve(count)?;
        self.sure = count;
        Ok(())
    }

    /// What the row of the key tells.
    #[inline(always)]
    pub(crate) fn key_nodes(&self, key: Key) -> KeyNodes
        ensures on { result.on ≡ on_of (key_row self.now key) }
        ensures refers { result.refers ≡ refers_of (key_row self.now key) }
        ensures touched { result.touched ≡ touched_of (key_row self.now key) }
        ensures referred { result.referred ≡ referred_of (key_row self.now key) }
    {
        match self.key_row(key) {
            Some(row) => *row,
            None => KeyNodes {
                on: 0,
                refers: 0,
                touched: 0,
                referred: 0,
            },
        }
    }

    fn key_row(&self, key: Key) -> Option<&KeyNodes>
        ensures { option_copied result ≡ key_row self.now key }
    {
        match key {
            Key::Port(number) => self.ports.get(number.get()),
            Key::Filter(number) => self.filters.get(number.get()),
            Key::Gate(number) => self.gates.get(number.get()),
            Key::Meter(number) => self.meters.get(number.get()),
        }
    }

    /// The newest nodes of the session.
    #[inline(always)]
    pub(crate) fn session_nodes(&self, session: u32) -> SessionNodes
        ensures standing { result.standing ≡ standing_of (session_row self.now session) }
        ensures ends_redo { result.ends_redo ≡ ends_of (session_row self.now session) }
    {
        match self.sessions.get(u64::from(session)) {
            Some(row) => *row,
            None => SessionNodes {
                standing: 0,
                ends_redo: 0,
            },
        }
    }

    /// Sets the row of the key. A key that has one takes no room, and one that has none takes a row of its
    /// kind.
    #[tactic(auto, using(crate::proofs::Rows::row_put))]
    pub(crate) fn set_key(&mut self, key: Key, row: KeyNodes)
        requires { IsSome (key_row self.old key) ⊎ HasRows 1 self.old }
        ensures rows { (q : AnyKey) → key_row self.new q ≡ (if same_key q key then Some row else key_row self.old q) }
        ensures sessions { self.new.sessions ≡ self.old.sessions }
        ensures room { TakesRows 1 self.old self.new }
        ensures same_room { IsSome (key_row self.old key) → TakesRows 0 self.old self.new }
    {
        let before = match key {
            Key::Port(number) => self.ports.put(number.get(), row),
            Key::Filter(number) => self.filters.put(number.get(), row),
            Key::Gate(number) => self.gates.put(number.get(), row),
            Key::Meter(number) => self.meters.put(number.get(), row),
        };
        self.sure = sure_after(self.sure, before.is_some());
    }

    /// Sets the newest nodes of the session. A session that has some takes no room, and one that has none takes a row.
    #[inline(always)]
    pub(crate) fn set_session(&mut self, session: u32, row: SessionNodes)
        requires { IsSome (session_row self.old session) ⊎ HasRows 1 self.old }
        ensures sessions { self.new.sessions.map ≡ map.insert self.old.sessions.map session row }
        ensures keys { (q : AnyKey) → key_row self.new q ≡ key_row self.old q }
        ensures room { TakesRows 1 self.old self.new }
        ensures same_room { IsSome (session_row self.old session) → TakesRows 0 self.old self.new }
    {
        let before = self.sessions.put(u64::from(session), row);
        self.sure = sure_after(self.sure, before.is_some());
    }
}
