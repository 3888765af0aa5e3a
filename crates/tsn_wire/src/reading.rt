//! Reading a command line: bytes to a session and a command, or the refusal of least number.
//!
//! A line is one JSON value as `serde_json` reads it. Its shape is found first and its ranges are tested after, so a
//! fault of shape anywhere comes before a fault of range. Nothing of the bridge is looked at.
ghost use Rattle.std.specs.Prelude.{◌≡◌};
ghost use Rattle.serde_json.specs.View.{view};
ghost use Rattle.tsn_commands.specs.Commands.{most_sessions};
ghost use Rattle.tsn_types.specs.declared.refusals.Field.TheVariants as fields;
ghost use Rattle.tsn_records.specs.Answers.{Reads, IsOrMemory, or_syntax, seen};
ghost use Rattle.tsn_records.specs.Ranges.{within};
ghost use Rattle.tsn_wire.specs.Reading.{data_of, line_of_draft, name_of_draft, reading, line_of};

use crate::commands::line_shape;
use crate::drafts::{LineDraft, NameDraft};
use crate::ranges::command_of_draft;
use crate::spelled::spelled_draft;
use serde_json::Value;
use std::alloc::Global;
use tsn_commands::command::{Ask, Command, MOST_SESSIONS};
use tsn_records::unread::Unread;
use tsn_types::names::SessionName;
use tsn_types::refusals::{Field, Refusal};

/// The JSON value that the bytes are; a fault of syntax where they are none, and want of memory in place of either.
pub fn value_of(alloc: Global, line: &[u8]) -> Result<Value, Unread>
    ensures { Reads (seen view result) (or_syntax (data_of line.now)) }
{
    match Value::from_slice(alloc, line) {
        Ok(value) => Ok(value),
        Err(error) if error.is_memory() => Err(Unread::Memory),
        Err(_) => Err(Unread::Syntax),
    }
}

fn session(number: u64) -> Result<u32, Unread>
    ensures { result ≡ within fields.S 1 most_sessions number }
{
    if number < 1 || (MOST_SESSIONS as u64) < number {
        return Err(Unread::Range(Field::S));
    }
    Ok(number as u32)
}

// A copy of the name, or that it may not be one.
fn name_of_draft(draft: &NameDraft) -> Result<SessionName, Unread>
    ensures { Reads result (name_of_draft draft.now) }
{
    match draft {
        NameDraft::Fit(name) => match name.try_clone() {
            Ok(name) => Ok(name),
            Err(_) => Err(Unread::Memory),
        },
        NameDraft::Unfit => Err(Unread::Range(Field::Name)),
    }
}

fn line_of_draft(alloc: Global, draft: &LineDraft) -> Result<Ask, Unread>
    ensures { Reads result (line_of_draft draft.now) }
{
    match draft {
        LineDraft::Hello => Ok(Ask {
            session: 0,
            command: Command::Hello { name: None },
        }),
        LineDraft::Named { name } => Ok(Ask {
            session: 0,
            command: Command::Hello {
                name: Some(name_of_draft(name)?),
            },
        }),
        LineDraft::Session {
            session: number,
            command,
        } => {
            let session = session(*number)?;
            match command_of_draft(alloc, command) {
                Ok(command) => Ok(Ask { session, command }),
                Err(unread) => Err(unread),
            }
        }
    }
}

fn reading(alloc: Global, line: &[u8]) -> Result<Ask, Unread>
    ensures { Reads result (reading line.now) }
{
    let spelled = spelled_draft(alloc, line);
    if let Some(draft) = &spelled {
        return line_of_draft(alloc, draft);
    }
    let value = value_of(alloc, line)?;
    let draft = line_shape(alloc, &value)?;
    line_of_draft(alloc, &draft)
}

/// What a line without its line feed asks, of session 0 where it is a hello, which has none: refusal 2 where it is no
/// JSON value, 3 where it has other members than a command, 4 where a number is outside its range or a name may not be
/// one, 18 in place of any of these where memory is refused.
pub fn command_of(alloc: Global, line: &[u8]) -> Result<Ask, Refusal>
    ensures { IsOrMemory result (line_of line.now) }
{
    match reading(alloc, line) {
        Ok(ask) => Ok(ask),
        Err(unread) => Err(unread.refusal()),
    }
}
