//! Lines in the service's compact spelling, read with no tree.
//!
//! An edit or a batch, an undo or a redo, a frame or a look that is compact and has its members in ascending order of
//! their names, as the service writes them, is read piece by piece, and only a list and a batch take memory. Any other
//! line is read from its lexemes by `any_line`, and what that does not read, as a text with an escape, is left to
//! `serde_json`.
ghost use Rattle.std.specs.Prelude.{◌≡◌, ◌++◌, IfSome, codes, decimal};
ghost use Rattle.tsn_wire.specs.Reading.{line_of_draft, reading};
ghost use Rattle.tsn_wire.specs.Spelled.{IsSmall, Spells};
ghost use Rattle.tsn_wire.specs.SpelledFront.{SpellsFront, SpellsStates};
ghost use Rattle.tsn_wire.specs.Words.{look_word};

use crate::any_line::any_draft;
use crate::cursor::Cursor;
use crate::drafts::{CommandDraft, FrameDraft, LineDraft};
use crate::spelled_batch::{batch, spelled_edit};
use crate::spelled_records::{flag_member, key, kind, number_member};
use crate::words::{Bare, Look};
use std::alloc::Global;
use tsn_types::keys::Kind;

// Where the first letter of a command's word stands, behind `{"do":"`.
const FIRST_LETTER: usize = 7;

// Which command it may be is guessed from its second and third letter.
fn command(alloc: Global, text: &mut Cursor<'_>) -> Option<CommandDraft>
    ensures { IfSome result (λ command. Spells text.old command text.new) }
{
    match text.letters() {
        (b'r', b'e') | (b'e', b'p') | (b'e', b'm') => {
            let edit = spelled_edit(alloc, text)?;
            Some(CommandDraft::Edit { edit })
        }
        (b'n', _) => undo(text),
        (b'e', b'd') => {
            text.expect("redo\"")?;
            Some(CommandDraft::Bare { bare: Bare::Redo })
        }
        _ => look(alloc, text),
    }
}

fn undo(text: &mut Cursor<'_>) -> Option<CommandDraft>
    ensures { IfSome result (λ command. Spells text.old command text.new) }
{
    if text.take("undo_all\"") {
        return Some(CommandDraft::Bare {
            bare: Bare::UndoAll,
        });
    }
    text.expect("undo\"")?;
    Some(CommandDraft::Bare { bare: Bare::Undo })
}

// The word of a look at a key, up to the key.
fn key_look(text: &mut Cursor<'_>) -> Option<Look>
    ensures { IfSome result (λ look. text.old ≡ look_word look ++ (codes "\",\"key\":\"" ++ text.new)) }
{
    if text.take("show\",\"key\":\"") {
        return Some(Look::Show);
    }
    text.expect("counters\",\"key\":\"")?;
    Some(Look::Counters)
}

fn look(alloc: Global, text: &mut Cursor<'_>) -> Option<CommandDraft>
    ensures { IfSome result (λ command. Spells text.old command text.new) }
{
    match text.letters() {
        (b'a', _) => {
            text.expect("batch\",\"edits\":")?;
            let batch = batch(alloc, text)?;
            Some(CommandDraft::Batch { batch })
        }
        (b'h', _) | (b'o', _) => {
            let look = key_look(text)?;
            let key = key(text)?;
            text.expect("\"")?;
            Some(CommandDraft::Look { look, key })
        }
        (b'i', _) => {
            text.expect("list\",\"kind\":\"")?;
            let kind = kind(text)?;
            text.expect("\"")?;
            Some(CommandDraft::List { kind })
        }
        _ => None,
    }
}

// What a since asks for, behind its member's name, and the command's word.
fn after(text: &mut Cursor<'_>) -> Option<u64>
    ensures { IfSome result (λ n. IsSmall n × (text.old ≡ decimal n ++ (codes ",\"do\":\"since\"" ++ text.new))) }
{
    let number = text.number()?;
    text.expect(",\"do\":\"since\"")?;
    Some(number)
}

// What a look at states asks for, behind the name of its first member.
fn states(text: &mut Cursor<'_>) -> Option<CommandDraft>
    ensures { IfSome result (λ command. SpellsStates text.old command text.new) }
{
    let at = text.number()?;
    text.expect(",\"do\":\"states\",\"key\":\"")?;
    let key = key(text)?;
    match key.kind {
        Kind::Filter | Kind::Meter => return None,
        Kind::Port | Kind::Gate => {}
    }
    text.expect("\"")?;
    Some(CommandDraft::States { key, at })
}

// What comes before the session. A look at states begins with the member `at`, a since with `after`, any other command
// with `do`.
fn front(alloc: Global, text: &mut Cursor<'_>) -> Option<CommandDraft>
    ensures { IfSome result (λ command. SpellsFront text.old command text.new) }
{
    if text.take("{\"do\":\"") {
        return command(alloc, text);
    }
    if text.take("{\"at\":") {
        return states(text);
    }
    text.expect("{\"after\":")?;
    let after = after(text)?;
    Some(CommandDraft::Since { after })
}

// The brace that closes the line.
fn close(text: &mut Cursor<'_>) -> Option<()>
    ensures { IfSome result (λ _. text.old ≡ codes "}") }
{
    text.expect("}")?;
    text.end()
}

// The session, and the end of the line.
fn session(text: &mut Cursor<'_>) -> Option<u64>
    ensures { IfSome result (λ s. IsSmall s
        × (text.old ≡ codes ",\"s\":" ++ (decimal s ++ codes "}"))) }
{
    let number = number_member(text, ",\"s\":")?;
    close(text)?;
    Some(number)
}

// The draft that a line in the service's compact spelling is; none of any other line. Such a line is ASCII by its
// spelling, so nothing looks whether it is UTF-8.
fn compact_draft(alloc: Global, line: &[u8]) -> Option<LineDraft>
    ensures { IfSome result (λ draft. reading line.now ≡ line_of_draft draft) }
{
    let mut text = Cursor::new(line);
    let command = front(alloc, &mut text)?;
    let session = session(&mut text)?;
    Some(LineDraft::Session { session, command })
}

// The frame that a line in the service's compact spelling hands in; none of any other line.
fn compact_frame(line: &[u8]) -> Option<LineDraft>
    ensures { IfSome result (λ draft. reading line.now ≡ line_of_draft draft) }
{
    let mut text = Cursor::new(line);
    let handle = number_member(&mut text, "{\"do\":\"frame\",\"handle\":")?;
    let now = number_member(&mut text, ",\"now\":")?;
    let octets = number_member(&mut text, ",\"octets\":")?;
    let priority = number_member(&mut text, ",\"priority\":")?;
    let session = number_member(&mut text, ",\"s\":")?;
    let yellow = flag_member(&mut text, ",\"yellow\":")?;
    close(&mut text)?;
    let frame = FrameDraft {
        handle,
        priority,
        octets,
        yellow,
    };
    let command = CommandDraft::Frame { frame, now };
    Some(LineDraft::Session { session, command })
}

// The draft that a line in the service's compact spelling is, a frame's too; none of any other line. Behind `{"do":"` a
// frame's alone goes on by an f.
fn compact(alloc: Global, line: &[u8]) -> Option<LineDraft>
    ensures { IfSome result (λ draft. reading line.now ≡ line_of_draft draft) }
{
    if line.len() > FIRST_LETTER && line[FIRST_LETTER] == b'f' {
        return compact_frame(line);
    }
    compact_draft(alloc, line)
}

/// The draft that a line is, in the service's compact spelling or in another that is read with no tree.
/// None says nothing of the line: `command_of` then reads it as a tree.
pub fn spelled_draft(alloc: Global, line: &[u8]) -> Option<LineDraft>
    ensures { IfSome result (λ draft. reading line.now ≡ line_of_draft draft) }
{
    let compact = compact(alloc, line);
    if compact.is_some() {
        return compact;
    }
    any_draft(alloc, line)
}
