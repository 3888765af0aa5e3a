//! The ranges of a command's numbers: those of its key before those of its record, and those of a batch edit by edit.
ghost use Rattle.std.specs.Prelude.{◌≡◌};
ghost use Rattle.tsn_types.specs.declared.refusals.Field.TheVariants as fields;
ghost use Rattle.tsn_records.specs.Answers.{Reads, each, seen};
ghost use Rattle.tsn_records.specs.Ranges.{within};
ghost use Rattle.tsn_wire.specs.Ranges.{greatest_after, longest_frame, frame_of_draft, edit_of_draft, command_of_draft};
ghost use Rattle.tsn_wire.specs.Words.{edit_command};

use crate::drafts::{BatchDraft, CommandDraft, EditDraft, FrameDraft};
use crate::words::{Look, Put};
use std::alloc::Global;
use tsn_chain::frame::Frame;
use tsn_commands::command::Command;
use tsn_edit::Edit;
use tsn_edit::batches::Batch;
use tsn_records::ranges::{handle, instant, key, priority, record_of};
use tsn_records::unread::Unread;
use tsn_types::numbers::Octets;
use tsn_types::refusals::Field;

// The number of an entry.
fn entry(number: u64, field: Field) -> Result<u32, Unread>
    ensures { result ≡ within field 0 greatest_after number }
{
    u32::try_from(number).map_err(|_| Unread::Range(field))
}

/// The most octets of a frame.
const LONGEST_FRAME: u64 = 65_535;

// A number of octets may be greater elsewhere than a frame is long.
fn octets(number: u64) -> Result<Octets, Unread>
    ensures { result ≡ within fields.Octets 0 longest_frame number }
{
    if number > LONGEST_FRAME {
        return Err(Unread::Range(Field::Octets));
    }
    Octets::new(number).map_err(|_| Unread::Range(Field::Octets))
}

#[tactic(auto, unfolding(crate::specs::Ranges::frame_of_draft))]
fn frame_of_draft(draft: FrameDraft) -> Result<Frame, Unread>
    ensures { result ≡ frame_of_draft draft }
{
    let handle = handle(draft.handle)?;
    let priority = priority(draft.priority, Field::Priority)?;
    let octets = octets(draft.octets)?;
    Ok(Frame {
        handle,
        priority,
        octets,
        yellow: draft.yellow,
    })
}

#[inline(always)]
fn edit_of_draft(alloc: Global, draft: &EditDraft) -> Result<Edit, Unread>
    ensures { Reads result (edit_of_draft draft.now) }
{
    match draft {
        EditDraft::Put {
            put,
            key: draft,
            value,
        } => {
            let key = key(*draft)?;
            let value = record_of(alloc, value)?;
            Ok(match put {
                Put::Create => Edit::Create(key, value),
                Put::Replace => Edit::Replace(key, value),
            })
        }
        EditDraft::Remove { key: draft } => Ok(Edit::Remove(key(*draft)?)),
    }
}

// The edits that the drafts are, in their order.
fn edits_of_drafts(alloc: Global, drafts: &[EditDraft]) -> Result<Vec<Edit>, Unread>
    ensures { Reads (seen (λ edits. edits.items) result) (each edit_of_draft drafts.now) }
{
    let mut edits = Vec::new(alloc);
    'drafts: for draft in drafts {
        let edit = edit_of_draft(alloc, draft)?;
        let Ok(()) = edits.push(edit) else {
            return Err(Unread::Memory);
        };
    }
    Ok(edits)
}

// Keys that are apart in the draft are apart in the batch, which so is never refused.
#[tactic(auto, using(crate::proofs::Drafting::batch_stands))]
fn batch_of_draft(alloc: Global, draft: &BatchDraft) -> Result<Batch, Unread>
    ensures { Reads result (each edit_of_draft draft.now) }
{
    let edits = edits_of_drafts(alloc, draft.as_slice())?;
    match Batch::new(edits) {
        Ok(batch) => Ok(batch),
        Err(_) => Err(Unread::Shape),
    }
}

// The edit as a command of its own.
#[inline(always)]
fn command_of_edit(edit: Edit) -> Command
    ensures { result ≡ edit_command edit }
{
    match edit {
        Edit::Create(key, value) => Command::Create { key, value },
        Edit::Replace(key, value) => Command::Replace { key, value },
        Edit::Remove(key) => Command::Remove { key },
    }
}

/// The command that the draft is, or the first number that is outside its range.
pub fn command_of_draft(alloc: Global, wanted: &CommandDraft) -> Result<Command, Unread>
    ensures { Reads result (command_of_draft wanted.now) }
{
    match wanted {
        CommandDraft::Edit { edit } => Ok(command_of_edit(edit_of_draft(alloc, edit)?)),
        CommandDraft::Batch { batch } => Ok(Command::Batch {
            batch: batch_of_draft(alloc, batch)?,
        }),
        CommandDraft::Settle { upto: number } => Ok(Command::Settle {
            upto: entry(*number, Field::Upto)?,
        }),
        CommandDraft::Act {
            act,
            key: draft,
            now,
        } => {
            let key = key(*draft)?;
            let now = instant(*now, Field::Now)?;
            Ok(Command::of_act(*act, key, now))
        }
        CommandDraft::Frame { frame: draft, now } => {
            let frame = frame_of_draft(*draft)?;
            let now = instant(*now, Field::Now)?;
            Ok(Command::Frame { frame, now })
        }
        CommandDraft::States { key: draft, at } => {
            let key = key(*draft)?;
            let at = instant(*at, Field::At)?;
            Ok(Command::States { key, at })
        }
        CommandDraft::Look { look, key: draft } => {
            let key = key(*draft)?;
            Ok(match look {
                Look::Counters => Command::Counters { key },
                Look::Show => Command::Show { key },
            })
        }
        CommandDraft::List { kind } => Ok(Command::List { kind: *kind }),
        CommandDraft::Since { after: number } => Ok(Command::Since {
            after: entry(*number, Field::After)?,
        }),
        CommandDraft::Bare { bare } => Ok(bare.command()),
    }
}
