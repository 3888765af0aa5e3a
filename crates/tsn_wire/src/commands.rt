//! The shapes of commands: the word in `do`, and the members that it wants.
//!
//! A command has exactly its members, in any order. Every fault is one of shape; numbers are tested later.
ghost use Rattle.std.specs.Prelude.{◌≡◌, Ok};
ghost use Rattle.serde_json.specs.View.{view};
ghost use Rattle.tsn_records.specs.Answers.{Reads};
ghost use Rattle.tsn_records.specs.Json.{has_members, text_at};
ghost use Rattle.tsn_wire.specs.Commands.{listed, listed_at, frame_members, frame_shape, command_shape, name_draft, named_shape, bare_or_named, line_shape};

use crate::batches::{batch_shape, edited_shape};
use crate::drafts::{CommandDraft, FrameDraft, LineDraft, NameDraft};
use crate::keyed::key_at;
use crate::words::Word;
use serde_json::Value;
use std::alloc::Global;
use tsn_records::drafts::KeyDraft;
use tsn_records::keys::kind_of;
use tsn_records::members::{flag_at, has_members, number_at, text_at, value_at};
use tsn_records::unread::Unread;
use tsn_types::keys::Kind;
use tsn_types::names::SessionName;

// A key of a kind that has a gate control list.
fn listed(key: KeyDraft) -> Result<KeyDraft, Unread>
    ensures { result ≡ listed key key.kind }
{
    match key.kind {
        Kind::Filter | Kind::Meter => Err(Unread::Shape),
        Kind::Port | Kind::Gate => Ok(key),
    }
}

// Such a key, and an instant under a name.
#[tactic(auto, unfolding(crate::specs::Commands::listed_at))]
fn listed_at(name: &str, value: &Value) -> Result<(KeyDraft, u64), Unread>
    ensures { result ≡ listed_at name.now (view value.now) }
{
    has_members(4, value)?;
    let key = listed(key_at(value)?)?;
    let instant = number_at(name, value)?;
    Ok((key, instant))
}

#[tactic(auto, unfolding(crate::specs::Commands::frame_members))]
fn frame_members(value: &Value) -> Result<FrameDraft, Unread>
    ensures { result ≡ frame_members (view value.now) }
{
    let handle = number_at("handle", value)?;
    let priority = number_at("priority", value)?;
    let octets = number_at("octets", value)?;
    let yellow = flag_at("yellow", value)?;
    Ok(FrameDraft {
        handle,
        priority,
        octets,
        yellow,
    })
}

#[tactic(auto, unfolding(crate::specs::Commands::frame_shape))]
fn frame_shape(value: &Value) -> Result<CommandDraft, Unread>
    ensures { result ≡ frame_shape (view value.now) }
{
    has_members(7, value)?;
    let frame = frame_members(value)?;
    let now = number_at("now", value)?;
    Ok(CommandDraft::Frame { frame, now })
}

#[tactic(auto, unfolding(crate::specs::Commands::command_shape))]
fn command_shape(alloc: Global, word: Word, value: &Value) -> Result<CommandDraft, Unread>
    ensures { Reads result (command_shape word (view value.now)) }
{
    match word {
        Word::Hello => Err(Unread::Shape),
        Word::Put(_) | Word::Remove => {
            let edit = edited_shape(alloc, word, 1, value)?;
            Ok(CommandDraft::Edit { edit })
        }
        Word::Batch => batch_shape(alloc, value),
        Word::Act(act) => {
            let (key, now) = listed_at("now", value)?;
            Ok(CommandDraft::Act { act, key, now })
        }
        Word::Frame => frame_shape(value),
        Word::States => {
            let (key, at) = listed_at("at", value)?;
            Ok(CommandDraft::States { key, at })
        }
        Word::Look(look) => {
            has_members(3, value)?;
            let key = key_at(value)?;
            Ok(CommandDraft::Look { look, key })
        }
        Word::List => {
            has_members(3, value)?;
            let text = text_at("kind", value)?;
            let kind = kind_of(text).ok_or(Unread::Shape)?;
            Ok(CommandDraft::List { kind })
        }
        Word::Since => {
            has_members(3, value)?;
            let after = number_at("after", value)?;
            Ok(CommandDraft::Since { after })
        }
        Word::Settle => {
            has_members(3, value)?;
            let upto = number_at("upto", value)?;
            Ok(CommandDraft::Settle { upto })
        }
        Word::Bare(bare) => {
            has_members(2, value)?;
            Ok(CommandDraft::Bare { bare })
        }
    }
}

// A text that may be a name, or one that may not.
fn name_draft(alloc: Global, text: &str) -> Result<NameDraft, Unread>
    ensures { Reads result (Ok (name_draft text.now)) }
{
    match SessionName::new(alloc, text) {
        Ok(Some(name)) => Ok(NameDraft::Fit(name)),
        Ok(None) => Ok(NameDraft::Unfit),
        Err(_) => Err(Unread::Memory),
    }
}

#[tactic(auto, unfolding(crate::specs::Commands::named_shape))]
fn named_shape(alloc: Global, value: &Value) -> Result<LineDraft, Unread>
    ensures { Reads result (named_shape (view value.now)) }
{
    has_members(2, value)?;
    let text = text_at("name", value)?;
    let name = name_draft(alloc, text)?;
    Ok(LineDraft::Named { name })
}

// A hello, with or without a name.
fn hello_shape(alloc: Global, value: &Value) -> Result<LineDraft, Unread>
    ensures { Reads result (bare_or_named (has_members 1 (view value.now)) (view value.now)) }
{
    match has_members(1, value) {
        Ok(()) => Ok(LineDraft::Hello),
        Err(_) => named_shape(alloc, value),
    }
}

/// The command that the value is, with its session; a fault of shape where it is none.
#[tactic(auto, unfolding(crate::specs::Commands::line_shape))]
pub fn line_shape(alloc: Global, value: &Value) -> Result<LineDraft, Unread>
    ensures { Reads result (line_shape (view value.now)) }
{
    let text = text_at("do", value)?;
    let word = Word::of(text).ok_or(Unread::Shape)?;
    if let Word::Hello = word {
        return hello_shape(alloc, value);
    }
    let session = number_at("s", value)?;
    let command = command_shape(alloc, word, value)?;
    Ok(LineDraft::Session { session, command })
}
