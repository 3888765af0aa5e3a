//! Command lines whose members come in any order, with any white space.
ghost use Rattle.std.specs.Prelude.{◌≡◌, IfSome, Some};
ghost use Rattle.tsn_wire.specs.Lines.{line_rows, IsLine};
ghost use Rattle.tsn_wire.specs.Reading.{line_of_draft, reading};
ghost use Rattle.tsn_wire.specs.declared.drafts.LineDraft.TheVariants.{Session};

use crate::any_edits::are_sound;
use crate::any_keys::{keyed_record, listed_key, removable_key, table_key};
use crate::cursor::Cursor;
use crate::drafts::{CommandDraft, EditDraft, FrameDraft, LineDraft};
use crate::gathered::LineMembers;
use crate::members::members;
use crate::words::Word;
use std::alloc::Global;

// The frame whose members a line has.
fn frame_draft(found: &LineMembers) -> Option<FrameDraft>
    ensures { IfSome result (λ frame. (found.now.handle ≡ Some frame.handle) × (found.now.priority ≡ Some frame.priority)
        × (found.now.octets ≡ Some frame.octets) × (found.now.yellow ≡ Some frame.yellow)) }
{
    Some(FrameDraft {
        handle: found.handle?,
        priority: found.priority?,
        octets: found.octets?,
        yellow: found.yellow?,
    })
}

// The command of a session whose members a line has.
#[tactic(auto, using(crate::proofs::AnyLine::put_line, crate::proofs::AnyLine::batch_line))]
fn command_draft(found: &mut LineMembers, session: u64, count: u32) -> Option<CommandDraft>
    requires { found.old.session ≡ Some session }
    ensures { IfSome result (λ command. IsLine (line_rows found.old) count (Session session command)) }
{
    let word = found.word?;
    match (word, count) {
        (Word::Batch, 3) => {
            let batch = found.edits.take()?;
            if !are_sound(batch.as_slice()) {
                return None;
            }
            Some(CommandDraft::Batch { batch })
        }
        (Word::Put(put), 4) => {
            let (key, value) = keyed_record(found.key, found.record.take())?;
            let edit = EditDraft::Put { put, key, value };
            Some(CommandDraft::Edit { edit })
        }
        _ => plain_draft(found, session, count),
    }
}

// The same of one that hands in no record.
#[tactic(auto, using(crate::proofs::AnyLine::bare_line, crate::proofs::AnyLine::remove_line, crate::proofs::AnyLine::look_line, crate::proofs::AnyLine::list_line, crate::proofs::AnyLine::since_line, crate::proofs::AnyLine::settle_line))]
fn plain_draft(found: &LineMembers, session: u64, count: u32) -> Option<CommandDraft>
    requires { found.now.session ≡ Some session }
    ensures { IfSome result (λ command. IsLine (line_rows found.now) count (Session session command)) }
{
    let word = found.word?;
    match (word, count) {
        (Word::Remove, 3) => {
            let key = removable_key(found.key)?;
            let edit = EditDraft::Remove { key };
            Some(CommandDraft::Edit { edit })
        }
        (Word::Look(look), 3) => Some(CommandDraft::Look {
            look,
            key: table_key(found.key)?,
        }),
        (Word::List, 3) => Some(CommandDraft::List { kind: found.kind? }),
        (Word::Since, 3) => Some(CommandDraft::Since {
            after: found.after?,
        }),
        (Word::Settle, 3) => Some(CommandDraft::Settle { upto: found.upto? }),
        (Word::Bare(bare), 2) => Some(CommandDraft::Bare { bare }),
        _ => instant_draft(found, session, count),
    }
}

// The same of one that names an instant.
#[tactic(auto, using(crate::proofs::AnyLine::act_line, crate::proofs::AnyLine::states_line, crate::proofs::AnyLine::frame_line))]
fn instant_draft(found: &LineMembers, session: u64, count: u32) -> Option<CommandDraft>
    requires { found.now.session ≡ Some session }
    ensures { IfSome result (λ command. IsLine (line_rows found.now) count (Session session command)) }
{
    match (found.word?, count) {
        (Word::Frame, 7) => {
            let frame = frame_draft(found)?;
            let now = found.instant?;
            Some(CommandDraft::Frame { frame, now })
        }
        (Word::States, 4) => {
            let key = listed_key(found.key)?;
            let at = found.at?;
            Some(CommandDraft::States { key, at })
        }
        (Word::Act(act), 4) => {
            let key = listed_key(found.key)?;
            let now = found.instant?;
            Some(CommandDraft::Act { act, key, now })
        }
        _ => None,
    }
}

#[tactic(auto, using(crate::proofs::AnyLine::hello_line))]
fn line_draft(found: &mut LineMembers, count: u32) -> Option<LineDraft>
    ensures { IfSome result (IsLine (line_rows found.old) count) }
{
    let word = found.word?;
    if let (Word::Hello, 1) = (word, count) {
        return Some(LineDraft::Hello);
    }
    let session = found.session?;
    let command = command_draft(found, session, count)?;
    Some(LineDraft::Session { session, command })
}

/// The draft that a line is, whatever the order of its members and the white space between; none, for instance, where
/// a member is missing, unknown or given twice, where a text has an escape, where the kind of a record ahead of its key
/// is not the one that its members let guess, where a key's number is over 65,535, or where memory is wanting.
#[inline(never)]
pub fn any_draft(alloc: Global, line: &[u8]) -> Option<LineDraft>
    ensures { IfSome result (λ draft. reading line.now ≡ line_of_draft draft) }
{
    let mut text = Cursor::new(line);
    let mut found = LineMembers::default();
    let count = members(alloc, &mut text, &mut found)?;
    text.skip();
    text.end()?;
    match std::str::from_utf8(line) {
        Ok(_) => line_draft(&mut found, count),
        Err(_) => None,
    }
}
