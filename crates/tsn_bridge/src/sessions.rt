//! The sessions that a bridge has given out, the names by which they go, and how many entries of each stand.
//!
//! It relies on the journal, which counts a session's standing entries by that session's places alone.
ghost use Rattle.std.specs.Prelude.{◌≡◌, ◌<◌, ◌+◌, IfOk, OnOk, OnErr, IsTrue, [], nat_le, nat_lt, ◌&&◌, is_some};
ghost use Rattle.tsn_bridge.specs.Names.{AreWithin, known, session_of, with_name};
ghost use Rattle.tsn_bridge.specs.Naming.{behind, head_name};
ghost use Rattle.tsn_bridge.specs.Sessions.{given_to};

use std::alloc::{AllocError, Global};
use std::marker::Model;
pub use tsn_entries::sessions::{GivenSession, GivenSessions};
use tsn_journal::journal::Journal;
use tsn_types::names::SessionName;

/// A session that goes by a name.
#[derive(Debug, Drop)]
pub struct Named {
    pub session: u32,
    pub name: SessionName,
}

// How many sessions were given out, and the names of those that have one, in the order of the sessions.
#[derive(Drop)]
pub(crate) struct Sessions {
    count: u32,
    names: Vec<Named>,
}

impl Model for Sessions {
    ghost use Rattle.tsn_bridge.specs.Names.{AreWithin, GivenOut, given_out_code};

    ghost Value = { GivenOut };

    ghost coded = { given_out_code };

    ghost view = { λ a. record { count = a.count; names = a.names.items } };

    ghost invariant = { λ a. AreWithin 0 a.names.items a.count };
}

impl Sessions {
    // None yet. It takes no memory.
    pub(crate) fn new(alloc: Global) -> Sessions
        ensures { result ≡ record { count = 0; names = [] } }
    {
        Sessions {
            count: 0,
            names: Vec::new(alloc),
        }
    }

    // How many there are.
    pub(crate) fn count(&self) -> u32
        ensures { result ≡ self.now.count }
    {
        self.count
    }

    // Tells a proof that the names are of these sessions, in their order. It does nothing else.
    #[inline(always)]
    pub(crate) fn recall_order(&self)
        ensures { AreWithin 0 self.now.names self.now.count }
    {
        let _ = &self.count;
    }

    // Those that go by a name.
    pub(crate) fn names(&self) -> &[Named]
        ensures { result.now ≡ self.now.names }
    {
        self.names.as_slice()
    }

    // Whether the session number was given out.
    pub(crate) fn has(&self, session: u32) -> bool
        ensures { result ≡ (nat_lt 0 session && nat_le session self.now.count) }
    {
        0 < session && session <= self.count
    }

    // The session that goes by the name that is said.
    pub(crate) fn known(&self, name: &Option<SessionName>) -> Option<u32>
        ensures { result ≡ known self.now.names name.now }
    {
        match name {
            Some(name) => session_of(self.names.as_slice(), name),
            None => None,
        }
    }

    // Gives out the next number, which goes by the name that is said. Refused for want of memory alone, where one is.
    pub(crate) fn give_out(&mut self, name: Option<SessionName>) -> Result<(), AllocError>
        requires { self.old.count + 1 < 4294967296 }
        ensures ok { OnOk result (self.new
            ≡ record { count = self.old.count + 1; names = with_name self.old.names (self.old.count + 1) name }) }
        ensures err { OnErr result ((self.new ≡ self.old) × IsTrue (is_some name)) }
    {
        if let Some(name) = name {
            self.names.push(Named {
                session: self.count + 1,
                name,
            })?;
        }
        self.count += 1;
        Ok(())
    }

    // All of them, by their entries in the journal. Refused only for want of memory.
    pub(crate) fn told(&self, alloc: Global, journal: &Journal) -> Result<GivenSessions, AllocError>
        ensures { IfOk result (λ all. all ≡ given_to self.now.names journal.now.entries self.now.count) }
    {
        let mut sessions = Vec::new(alloc);
        let mut rest = self.names.as_slice();
        for before in 0..self.count {
            let session = before + 1;
            let name = head_name(rest, session)?;
            rest = behind(rest, session);
            let standing = journal.count_of(session) as u64;
            sessions.push(GivenSession {
                name,
                session,
                standing,
            })?;
        }
        Ok(GivenSessions::of(sessions))
    }
}

// The session that goes by the name.
fn session_of(names: &[Named], name: &SessionName) -> Option<u32>
    ensures { result ≡ session_of names.now name.now }
{
    let mut rest = names;
    while let [first, others @ ..] = rest {
        if first.name.is(name) {
            return Some(first.session);
        }
        rest = others;
    }
    None
}

// The first name, where it is that of the session.
fn head_name(names: &[Named], session: u32) -> Result<Option<SessionName>, AllocError>
    ensures { IfOk result (λ name. name ≡ head_name names.now session) }
{
    match names {
        [first, ..] if first.session == session => Ok(Some(first.name.try_clone()?)),
        _ => Ok(None),
    }
}

// The names without the first, where it is that of the session.
fn behind(names: &[Named], session: u32) -> &[Named]
    ensures { result.now ≡ behind names.now session }
{
    match names {
        [first, others @ ..] if first.session == session => others,
        _ => names,
    }
}
