//! A look at a journal file: what is in it, its entries with their times, what one of them changed, the configuration
//! at its end; and the mending of one.
ghost use Rattle.std.specs.Prelude.{◌≡◌, ◌≤◌, [], true, OnErr, OnOk};
ghost use Rattle.std.specs.Io.KnownBytes.{Appends};

use crate::beginning::begin;
use std::alloc::{AllocError, Global};
use std::fs::File;
use std::rt::Files;
use std::time;
use tsn_bridge::bridge::Bridge;
use tsn_bytes::{ByteOut, Fault, put_all};
use tsn_device::{move_end, open};
use tsn_edit::Part;
use tsn_encoding::lent;
use tsn_export::export_setup;
use tsn_failures::{Failure, show};
use tsn_recorded::End;
use tsn_replies::{write_kept, write_lent};
use tsn_resuming::{Resumed, Unwatched, Watcher};
use tsn_wal_files::{JournalFault, fail_over, resume_from};
use tsn_words::Look;

/// Tells the entries behind a number, each with the stamp of its line, as they come about.
#[derive(Drop)]
struct Entries<'a, W: ByteOut> {
    writer: &'a mut W,
    told: u64,
    has_failed: bool,
}

impl<W: ByteOut> Entries<'_, W> {
    // Tells the entries that came about since the last ones, a line each.
    fn tell(&mut self, bridge: &Bridge, stamp: &[u8]) -> Result<(), Fault> {
        for entry in bridge.journal().kept_since(self.told) {
            self.told = self.told.saturating_add(1);
            put_all(self.writer, stamp)?;
            put_all(self.writer, b" ")?;
            write_kept(self.writer, std::slice::from_ref(entry))?;
        }
        Ok(())
    }
}

impl<W: ByteOut> Watcher for Entries<'_, W> {
    fn began(&mut self, _setup: &[u8], _stamp: &[u8]) {}

    fn stepped(&mut self, bridge: &Bridge, stamp: &[u8], _command: &[u8]) {
        if !self.has_failed && self.tell(bridge, stamp).is_err() {
            self.has_failed = true;
        }
    }
}

// How many entries of the bridge's journal stand.
fn count_standing(bridge: &Bridge) -> u64 {
    let journal = bridge.journal();
    let mut count = 0u64;
    for number in 1..=journal.len() as u64 {
        if journal.standing(number) {
            count = count.saturating_add(1);
        }
    }
    count
}

// Puts the names by which sessions go behind the text, a line each.
fn push_names(alloc: Global, text: &mut String, bridge: &Bridge) -> Result<(), AllocError> {
    for named in bridge.named_sessions() {
        let session = named.session;
        let name = str::from_utf8(named.name.as_bytes()).unwrap_or("");
        let line = format!(in alloc; "name {session} {name}\n")?;
        text.push_str(line.as_str())?;
    }
    Ok(())
}

// The text of a look at all of it.
fn summary(alloc: Global, resumed: &Resumed) -> Result<String, AllocError> {
    let sessions = resumed.bridge.session_count();
    let journal = resumed.bridge.journal();
    let lines = resumed.lines;
    let entries = journal.len();
    let standing = count_standing(&resumed.bridge);
    let settled = journal.settled();
    let digest = str::from_utf8(resumed.chain.last()).unwrap_or("");
    let mut text = format!(in alloc;
        "lines {lines}\nsessions {sessions}\nentries {entries}\nstanding {standing}\nsettled {settled}\ndigest {digest}\n"
    )?;
    push_names(alloc, &mut text, &resumed.bridge)?;
    let end = match resumed.end {
        End::Whole => format!(in alloc; "end whole\n")?,
        End::Unfinished { bytes } => format!(in alloc; "end unfinished, {bytes} bytes\n")?,
        End::Damaged { line } => format!(in alloc; "end damaged at line {line}\n")?,
    };
    text.push_str(end.as_str())?;
    Ok(text)
}

/// Writes and hands on a text.
pub(crate) fn show_text<W: ByteOut>(writer: &mut W, text: &[u8]) -> Result<(), JournalFault>
    ensures ok { OnOk result (Appends (W.taken writer.old) (W.taken writer.new) text.now × (W.pending writer.new ≡ [])) }
    ensures failed { OnErr result (W.has_failed writer.new ≡ true) }
{
    match show(writer, text) {
        Ok(()) => Ok(()),
        Err(failure) => Err(JournalFault::Failed(failure)),
    }
}

/// What is behind the lines that verify, as a fault where it is damage.
pub(crate) fn faultless(end: End) -> Result<(), JournalFault> {
    match end {
        End::Damaged { line } => Err(JournalFault::Damaged(line)),
        End::Whole | End::Unfinished { .. } => Ok(()),
    }
}

// Looks at where all of it leads: at an entry, at the setup, or at all.
fn look_at_end<R: Files<File = File> + AllocGlobal, W: ByteOut>(
    rt: &R,
    path: &str,
    look: &Look,
    writer: &mut W,
) -> Result<(), JournalFault> {
    let resumed = resume_from(rt, path, &mut Unwatched)?;
    match look {
        Look::Diff(number) => write_entry(writer, &resumed, *number)?,
        Look::Setup => {
            let setup = export_setup(rt.alloc(), resumed.bridge.config())?;
            show_text(writer, setup.as_bytes())?;
        }
        _ => show_text(writer, summary(rt.alloc(), &resumed)?.as_bytes())?,
    }
    faultless(resumed.end)
}

fn look_at_entries<R: Files<File = File> + AllocGlobal, W: ByteOut>(
    rt: &R,
    path: &str,
    after: u64,
    writer: &mut W,
) -> Result<(), JournalFault> {
    let mut entries = Entries {
        writer,
        told: after,
        has_failed: false,
    };
    let resumed = resume_from(rt, path, &mut entries)?;
    if entries.has_failed || entries.writer.flush().is_err() {
        return Err(JournalFault::Failed(Failure::Fault(Fault::Write)));
    }
    faultless(resumed.end)
}

// Writes what the parts of a change had before and have after it, a line each.
fn write_parts<W: ByteOut>(writer: &mut W, parts: &[Part]) -> Result<(), Fault> {
    for part in parts {
        if let Some(before) = &part.before {
            put_all(writer, b"- ")?;
            write_lent(writer, part.key, lent(before))?;
        }
        if let Some(after) = &part.after {
            put_all(writer, b"+ ")?;
            write_lent(writer, part.key, lent(after))?;
        }
    }
    Ok(())
}

// Writes what the entry of this number changed.
fn write_entry<W: ByteOut>(
    writer: &mut W,
    resumed: &Resumed,
    number: u64,
) -> Result<(), JournalFault> {
    let Some(entry) = resumed.bridge.journal().entry(number) else {
        return Err(JournalFault::NoEntry(number));
    };
    if let Some(change) = entry.what.change() {
        if write_parts(writer, change.parts()).is_err() {
            return Err(JournalFault::Failed(Failure::Fault(Fault::Write)));
        }
    }
    show_text(writer, b"")
}

// Moves what is behind the last line that verifies to the side, and says how many lines stay.
fn mend<R: Files<File = File> + AllocGlobal, W: ByteOut>(
    rt: &R,
    path: &str,
    writer: &mut W,
) -> Result<(), JournalFault> {
    let mut file = open(rt, path)?;
    let resumed = resume_from(rt, path, &mut Unwatched)?;
    if let End::Whole = resumed.end {
        return Ok(());
    }
    move_end(rt, &mut file, path, resumed.good)?;
    let lines = resumed.lines;
    let text = format!(in rt.alloc(); "{lines} lines stay\n")?;
    show_text(writer, text.as_bytes())
}

/// Looks at the journal at the path as it is asked for, and gives the status. Only mending changes it.
pub fn look_at<R: Files<File = File> + AllocGlobal + time::Clock, O: ByteOut, E: ByteOut>(
    rt: &R,
    path: &str,
    look: &Look,
    output: &mut O,
    errors: &mut E,
) -> u8
    ensures { result ≤ 1 }
{
    let outcome = match look {
        Look::Whole | Look::Diff(_) | Look::Setup => look_at_end(rt, path, look, output),
        Look::Since(after) => look_at_entries(rt, path, *after, output),
        Look::Begin(new) => return begin(rt, path, new.as_str(), output, errors),
        Look::Mend => mend(rt, path, output),
    };
    match outcome {
        Ok(()) => 0,
        Err(fault) => fail_over(rt.alloc(), errors, path, &fault),
    }
}
