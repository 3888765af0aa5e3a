//! The line of an ask, by its command.
ghost use Rattle.std.specs.Prelude.{◌≡◌, ◌++◌, [], OnOk, OnErr};
ghost use Rattle.tsn_spelling.specs.Growing.{Grows};
ghost use Rattle.tsn_spelling.specs.Line.{line_text};

use crate::bare::{
    push_act, push_bare, push_frame, push_hello, push_keyed, push_list, push_settle, push_since,
    push_states,
};
use crate::edits::{put_batch, put_edit};
use crate::line::hand_on;
use std::alloc::AllocError;
use tsn_commands::command::{Ask, Command};
use tsn_encoding::ShortText;

// Puts the line into the vector or into the text, which is empty before: one stands behind the other.
#[tactic(auto, unfolding(json::specs::Print::escape_byte), using(crate::proofs::Growing::in_line, crate::proofs::Growing::in_text))]
fn put_command(ask: &Ask, line: &mut Vec<u8>, text: &mut ShortText) -> Result<(), AllocError>
    requires { text.old ≡ [] }
    ensures ok { OnOk result (line.new.items ++ text.new ≡ line.old.items ++ line_text ask.now) }
    ensures front { Grows line.old.items line.new.items }
{
    let session = ask.session;
    match &ask.command {
        Command::Hello { name } => Ok(push_hello(text, name)),
        Command::Create { key, value } => put_edit(line, text, "create", *key, value, session),
        Command::Replace { key, value } => put_edit(line, text, "replace", *key, value, session),
        Command::Remove { key } => Ok(push_keyed(text, "remove", *key, session)),
        Command::Batch { batch } => put_batch(line, text, batch, session),
        Command::Undo => Ok(push_bare(text, "undo", session)),
        Command::UndoAll => Ok(push_bare(text, "undo_all", session)),
        Command::Redo => Ok(push_bare(text, "redo", session)),
        Command::Settle { upto } => Ok(push_settle(text, *upto, session)),
        Command::Enable { key, now } => Ok(push_act(text, "enable", *key, *now, session)),
        Command::Disable { key, now } => Ok(push_act(text, "disable", *key, *now, session)),
        Command::Apply { key, now } => Ok(push_act(text, "apply", *key, *now, session)),
        Command::Frame { frame, now } => Ok(push_frame(text, frame, *now, session)),
        Command::States { key, at } => Ok(push_states(text, *key, *at, session)),
        Command::Counters { key } => Ok(push_keyed(text, "counters", *key, session)),
        Command::Show { key } => Ok(push_keyed(text, "show", *key, session)),
        Command::List { kind } => Ok(push_list(text, *kind, session)),
        Command::Since { after } => Ok(push_since(text, *after, session)),
        Command::Resume => Ok(push_bare(text, "resume", session)),
        Command::Sessions => Ok(push_bare(text, "sessions", session)),
        Command::Setup => Ok(push_bare(text, "setup", session)),
    }
}

// Puts the line behind these.
fn put_line(ask: &Ask, line: &mut Vec<u8>, text: &mut ShortText) -> Result<(), AllocError>
    requires { text.old ≡ [] }
    ensures ok { OnOk result (line.new.items ≡ line.old.items ++ line_text ask.now) }
    ensures front { Grows line.old.items line.new.items }
{
    put_command(ask, line, text)?;
    hand_on(line, text)
}

/// Puts the line of the ask, with no line feed, behind the text. Only want of memory refuses it, and the text then
/// stays as it was.
pub fn spell(ask: &Ask, text: &mut Vec<u8>) -> Result<(), AllocError>
    ensures ok { OnOk result (text.new.items ≡ text.old.items ++ line_text ask.now) }
    ensures err { OnErr result (text.new.items ≡ text.old.items) }
{
    let before = text.len();
    match put_line(ask, text, &mut ShortText::new()) {
        Ok(()) => Ok(()),
        Err(error) => {
            text.truncate(before);
            Err(error)
        }
    }
}
