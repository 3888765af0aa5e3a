//! A new journal that begins with the configuration at the end of another one, and what does not come along.
ghost use Rattle.std.specs.Prelude.{◌≤◌};

use crate::anew::{Anew, text_of};
use crate::looking::{faultless, show_text};
use std::alloc::{AllocError, Global};
use std::fs::File;
use std::rt::Files;
use std::time;
use tsn_bridge::bridge::Bridge;
use tsn_bridge::command::{Ask, Command};
use tsn_bytes::ByteOut;
use tsn_device::{OpenFault, make};
use tsn_edit::Part;
use tsn_journal::entries::{Act, Entry, What};
use tsn_resuming::Watcher;
use tsn_spelling::spell;
use tsn_types::keys::Key;
use tsn_types::numbers::Instant;
use tsn_types::records::Record;
use tsn_wal_files::{JournalFault, NO_MEMORY, fail_over, resume_from, say};

/// An enable or an apply of a key, at the instant that counted, and the record that the key had then.
#[derive(Drop)]
struct Done {
    act: Act,
    key: Key,
    now: Instant,
    record: Record,
}

/// Keeps, of each port and stream gate that is enabled, the acts that made its list what it is: its enable, and the
/// applies behind that, since an earlier list may be in force until a later one's change time.
#[derive(Drop)]
struct Acts {
    done: Vec<Done>,
    seen: u64,
    sessions: u64,
    is_short: bool,
}

impl Acts {
    // Whether the key is enabled.
    fn is_enabled(&self, key: Key) -> bool {
        self.done.iter().any(|done| done.key == key)
    }

    // Keeps an act of the key, whose record the bridge has.
    fn keep(
        &mut self,
        bridge: &Bridge,
        (act, key, now): (&Act, &Key, &Instant),
    ) -> Result<(), AllocError> {
        let Some(found) = bridge.config().get(*key) else {
            return Ok(());
        };
        let record = found.try_clone()?;
        self.done.push(Done {
            act: *act,
            key: *key,
            now: *now,
            record,
        })?;
        Ok(())
    }

    // Forgets the acts of keys that were removed.
    fn forget(&mut self, parts: &[Part]) {
        for part in parts {
            if part.after.is_none() {
                self.done.retain(|done| done.key != part.key);
            }
        }
    }

    // Takes an entry of the bridge's journal into account.
    fn enter(&mut self, bridge: &Bridge, entry: &Entry) -> Result<(), AllocError> {
        if let Some(change) = entry.what.change() {
            self.forget(change.parts());
        }
        let What::Acted { act, key, now } = &entry.what else {
            return Ok(());
        };
        match *act {
            // One that is enabled already stays as it is.
            Act::Enable if self.is_enabled(*key) => return Ok(()),
            Act::Disable => {
                self.done.retain(|done| done.key != *key);
                return Ok(());
            }
            Act::Enable | Act::Apply => {}
        }
        self.keep(bridge, (act, key, now))
    }
}

impl Watcher for Acts {
    fn began(&mut self, _setup: &[u8], _stamp: &[u8]) {}

    fn stepped(&mut self, bridge: &Bridge, _stamp: &[u8], _command: &[u8]) {
        self.sessions = u64::from(bridge.session_count());
        'entries: for entry in bridge.journal().kept_since(self.seen) {
            self.seen = self.seen.saturating_add(1);
            if self.enter(bridge, entry.entry()).is_err() {
                self.is_short = true;
            }
        }
    }
}

/// What was made, and what does not come along.
#[derive(Drop)]
struct Beginning {
    // The commands that bring acts about again.
    commands: Vec<u8>,
    // How many sessions stay behind.
    sessions: u64,
    // How many entries of the new journal make what is no part of its setup.
    entries: u32,
}

// Puts the line of a command of the session behind the text.
fn put(text: &mut Vec<u8>, session: u32, command: Command) -> Result<(), AllocError> {
    let ask = Ask { session, command };
    spell(&ask, text)?;
    text.push(b'\n')?;
    Ok(())
}

// Puts the replacement of the act's key by the record behind the text.
fn put_record(
    text: &mut Vec<u8>,
    session: u32,
    key: Key,
    record: &Record,
) -> Result<(), AllocError> {
    let value = record.try_clone()?;
    put(text, session, Command::Replace { key, value })
}

// Puts the commands behind the text that bring an act about again where the key has this record at last: it has the
// other one for the while of the act.
fn put_act(text: &mut Vec<u8>, session: u32, done: &Done, last: &Record) -> Result<(), AllocError> {
    let is_other = done.record != *last;
    if is_other {
        put_record(text, session, done.key, &done.record)?;
    }
    put(text, session, Command::of_act(done.act, done.key, done.now))?;
    if is_other {
        put_record(text, session, done.key, last)?;
    }
    Ok(())
}

// The commands that bring the acts about again, behind a hello that gives this session; none where there are no acts.
fn commands_of(
    alloc: Global,
    bridge: &Bridge,
    session: u32,
    acts: &[Done],
) -> Result<Vec<u8>, AllocError> {
    let mut text = Vec::new(alloc);
    if acts.is_empty() {
        return Ok(text);
    }
    put(&mut text, session, Command::Hello { name: None })?;
    for done in acts {
        if let Some(found) = bridge.config().get(done.key) {
            put_act(&mut text, session, done, &found.try_clone()?)?;
        }
    }
    Ok(text)
}

// Makes the new journal.
fn begun<R: Files<File = File> + AllocGlobal + time::Clock>(
    rt: &R,
    path: &str,
    new: &str,
) -> Result<Beginning, JournalFault> {
    let alloc = rt.alloc();
    let mut acts = Acts {
        done: Vec::new(alloc),
        seen: 0,
        sessions: 0,
        is_short: false,
    };
    let resumed = resume_from(rt, path, &mut acts)?;
    faultless(resumed.end)?;
    let Anew { text, entries } = text_of(rt, alloc, resumed.bridge.config())?;
    let session = if entries == 0 { 1 } else { 2 };
    let Ok(commands) = commands_of(alloc, &resumed.bridge, session, &acts.done) else {
        return Err(NO_MEMORY);
    };
    if acts.is_short {
        return Err(NO_MEMORY);
    }
    match make(rt, new, text.as_bytes()) {
        Ok(_) => Ok(Beginning {
            commands,
            sessions: acts.sessions,
            entries,
        }),
        Err(OpenFault::InUse) => Err(JournalFault::InUse),
        Err(OpenFault::Io(error)) => Err(JournalFault::Make(error)),
    }
}

// Tells of the new journal, and what does not come along.
fn tell<E: ByteOut>(alloc: Global, path: &str, new: &str, begun: &Beginning, errors: &mut E) {
    let sessions = begun.sessions;
    say(
        errors,
        format!(in alloc;
            "tsnd: {new} begins with the configuration at the end of {path}; sessions that stay behind, with what they can undo: {sessions}\n"
        ),
    );
    let entries = begun.entries;
    if entries > 0 {
        say(
            errors,
            format!(in alloc;
                "tsnd: that is longer than a setup may be, so all but the ports is created by {entries} entries of session 1, which are settled\n"
            ),
        );
    }
    if !begun.commands.is_empty() {
        say(
            errors,
            format!(in alloc;
                "tsnd: nothing is enabled there; these commands enable again what was, given to tsnd script --journal {new}\n"
            ),
        );
    }
}

/// Makes a new journal that begins with the configuration at the end of the one at the path, and gives the status. What
/// does not come along it tells: how many sessions, on standard error, and the commands that bring acts about again, on
/// the output.
pub(crate) fn begin<R: Files<File = File> + AllocGlobal + time::Clock, O: ByteOut, E: ByteOut>(
    rt: &R,
    path: &str,
    new: &str,
    output: &mut O,
    errors: &mut E,
) -> u8
    ensures { result ≤ 1 }
{
    let begun = match begun(rt, path, new) {
        Ok(begun) => begun,
        Err(fault) => {
            let at = if let JournalFault::Make(_) = fault {
                new
            } else {
                path
            };
            return fail_over(rt.alloc(), errors, at, &fault);
        }
    };
    tell(rt.alloc(), path, new, &begun, errors);
    match show_text(output, &begun.commands) {
        Ok(()) => 0,
        Err(fault) => fail_over(rt.alloc(), errors, path, &fault),
    }
}
