//! The sessions that were given out, as a reply tells them.
ghost use Rattle.std.specs.Prelude.{◌≡◌};

use std::marker::Model;
use tsn_types::names::SessionName;

/// A session that was given out.
#[derive(Debug, Drop)]
pub struct GivenSession {
    /// The name by which it goes, if it has one.
    pub name: Option<SessionName>,
    /// Its number, from 1.
    pub session: u32,
    /// How many of its entries stand.
    pub standing: u64,
}

/// Sessions in a list, which contracts see as the list.
#[derive(Debug, Drop)]
pub struct GivenSessions {
    sessions: Vec<GivenSession>,
}

impl Model for GivenSessions {
    ghost use Rattle.std.specs.Prelude.{List};
    ghost use Rattle.tsn_entries.specs.declared.sessions.GivenSession.{GivenSession};

    ghost Value = { List GivenSession };

    ghost view = { λ a. a.sessions.items };
}

impl GivenSessions {
    /// Just these.
    pub fn of(sessions: Vec<GivenSession>) -> GivenSessions
        ensures { result ≡ sessions.items }
    {
        GivenSessions { sessions }
    }

    /// The sessions, ascending.
    pub fn as_slice(&self) -> &[GivenSession]
        ensures { result.now ≡ self.now }
    {
        self.sessions.as_slice()
    }
}
