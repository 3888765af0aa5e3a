//! The words of commands. Those stand together whose lines have the same members.
ghost use Rattle.std.specs.Prelude.{◌≡◌, ◌++◌, IfSome};
ghost use Rattle.serde_json.specs.Data.{string};
ghost use Rattle.tsn_wire.specs.Words.{bare_command, word_of, word_text};

use crate::cursor::Cursor;
use crate::values::Scanned;
use std::alloc::Global;
use tsn_commands::command::Command;
use tsn_entries::entries::Act;

/// Edits that put a record at a key.
#[derive(Clone, Copy, Debug, PartialEq, Eq)]
pub enum Put {
    Create,
    Replace,
}

/// Looks at what stands at a key.
#[derive(Clone, Copy, Debug, PartialEq, Eq)]
pub enum Look {
    Counters,
    Show,
}

/// Commands that name nothing.
#[derive(Clone, Copy, Debug, PartialEq, Eq)]
pub enum Bare {
    Undo,
    UndoAll,
    Redo,
    Resume,
    Sessions,
    Setup,
}

impl Bare {
    /// The command of the word.
    pub fn command(self) -> Command
        ensures { result ≡ bare_command self }
    {
        match self {
            Bare::Undo => Command::Undo,
            Bare::UndoAll => Command::UndoAll,
            Bare::Redo => Command::Redo,
            Bare::Resume => Command::Resume,
            Bare::Sessions => Command::Sessions,
            Bare::Setup => Command::Setup,
        }
    }
}

/// The word of a command.
#[derive(Clone, Copy, Debug, PartialEq, Eq)]
pub enum Word {
    Hello,
    Put(Put),
    Remove,
    Batch,
    Act(Act),
    Frame,
    States,
    Look(Look),
    List,
    Since,
    Settle,
    Bare(Bare),
}

impl Word {
    /// The word that the text is.
    #[tactic(auto, unfolding(crate::specs::Words::word_of))]
    pub fn of(text: &str) -> Option<Word>
        ensures { result ≡ word_of text.now }
    {
        match text {
            "hello" => Some(Word::Hello),
            "create" => Some(Word::Put(Put::Create)),
            "replace" => Some(Word::Put(Put::Replace)),
            "remove" => Some(Word::Remove),
            "batch" => Some(Word::Batch),
            "enable" => Some(Word::Act(Act::Enable)),
            "disable" => Some(Word::Act(Act::Disable)),
            "apply" => Some(Word::Act(Act::Apply)),
            "frame" => Some(Word::Frame),
            "states" => Some(Word::States),
            "counters" => Some(Word::Look(Look::Counters)),
            "show" => Some(Word::Look(Look::Show)),
            "list" => Some(Word::List),
            "since" => Some(Word::Since),
            "settle" => Some(Word::Settle),
            "undo" => Some(Word::Bare(Bare::Undo)),
            "undo_all" => Some(Word::Bare(Bare::UndoAll)),
            "redo" => Some(Word::Bare(Bare::Redo)),
            "resume" => Some(Word::Bare(Bare::Resume)),
            "sessions" => Some(Word::Bare(Bare::Sessions)),
            "setup" => Some(Word::Bare(Bare::Setup)),
            _ => None,
        }
    }
}

// The word must come next.
fn named(text: &mut Cursor<'_>, name: &str, word: Word) -> Option<Word>
    requires { word_text word ≡ name.now }
    ensures { IfSome result (λ w. text.old ≡ word_text w ++ text.new) }
{
    text.expect(name)?;
    Some(word)
}

// The word, or else the other one, must come next.
fn either(text: &mut Cursor<'_>, name: &str, word: Word, last: &str, other: Word) -> Option<Word>
    requires first { word_text word ≡ name.now }
    requires last { word_text other ≡ last.now }
    ensures { IfSome result (λ w. text.old ≡ word_text w ++ text.new) }
{
    if text.take(name) {
        return Some(word);
    }
    named(text, last, other)
}

// Which word it may be is guessed from its first three letters.
fn command_word(text: &mut Cursor<'_>, first: u8) -> Option<Word>
    ensures { IfSome result (λ w. text.old ≡ word_text w ++ text.new) }
{
    let undo = Word::Bare(Bare::Undo);
    let setup = Word::Bare(Bare::Setup);
    let (second, third) = text.letters();
    match (first, second, third) {
        (b'c', b'r', _) => named(text, "create", Word::Put(Put::Create)),
        (b'r', _, b'p') => named(text, "replace", Word::Put(Put::Replace)),
        (b'r', _, b'm') => named(text, "remove", Word::Remove),
        (b'u', _, _) => either(text, "undo_all", Word::Bare(Bare::UndoAll), "undo", undo),
        (b'r', _, b'd') => named(text, "redo", Word::Bare(Bare::Redo)),
        (b'f', _, _) => named(text, "frame", Word::Frame),
        (b's', b't', _) => named(text, "states", Word::States),
        (b's', b'h', _) => named(text, "show", Word::Look(Look::Show)),
        (b's', b'i', _) => named(text, "since", Word::Since),
        (b's', _, b's') => named(text, "sessions", Word::Bare(Bare::Sessions)),
        (b's', _, _) => either(text, "setup", setup, "settle", Word::Settle),
        (b'c', _, _) => named(text, "counters", Word::Look(Look::Counters)),
        (b'e', _, _) => named(text, "enable", Word::Act(Act::Enable)),
        (b'd', _, _) => named(text, "disable", Word::Act(Act::Disable)),
        (b'a', _, _) => named(text, "apply", Word::Act(Act::Apply)),
        (b'b', _, _) => named(text, "batch", Word::Batch),
        (b'l', _, _) => named(text, "list", Word::List),
        (b'r', _, _) => named(text, "resume", Word::Bare(Bare::Resume)),
        _ => named(text, "hello", Word::Hello),
    }
}

impl Scanned for Word {
    ghost value = { λ w. string (word_text w) };

    fn scanned(_alloc: Global, text: &mut Cursor<'_>) -> Option<Word> {
        text.skip();
        let (first, _) = text.letters();
        text.expect("\"")?;
        let word = command_word(text, first)?;
        text.expect("\"")?;
        Some(word)
    }
}
