//! Drafts of lines: commands of the right shape, whose numbers may still be outside their ranges.
ghost use Rattle.std.specs.Prelude.{◌≡◌, true};
ghost use Rattle.tsn_wire.specs.Batches.{batch_of, drafted_key, drafted_keys, drafts_are_distinct, has_draft, is_batch_draft, same_draft};

use crate::words::{Bare, Look, Put};
use std::marker::Model;
use tsn_edit::MOST_PARTS;
use tsn_entries::entries::Act;
use tsn_records::drafts::{KeyDraft, RecordDraft};
use tsn_records::unread::Unread;
use tsn_types::keys::Kind;
use tsn_types::names::SessionName;

/// A frame as a line names it.
#[derive(Clone, Copy, Debug, PartialEq, Eq)]
pub struct FrameDraft {
    pub handle: u64,
    pub priority: u64,
    pub octets: u64,
    pub yellow: bool,
}

/// An edit, alone or in a batch.
#[derive(Debug, Drop)]
pub enum EditDraft {
    Put {
        put: Put,
        key: KeyDraft,
        value: RecordDraft,
    },
    Remove {
        key: KeyDraft,
    },
}

impl EditDraft {
    /// The key of the edit.
    pub fn key(&self) -> KeyDraft
        ensures { result ≡ drafted_key self.now }
    {
        match self {
            EditDraft::Put { key, .. } | EditDraft::Remove { key } => *key,
        }
    }
}

/// The edits of a batch: 1 to 16, on distinct keys. Contracts see them as a list.
#[derive(Debug, Drop)]
pub struct BatchDraft(Vec<EditDraft>);

impl Model for BatchDraft {
    ghost use Rattle.std.specs.Prelude.{◌≡◌, List, true};
    ghost use Rattle.tsn_wire.specs.Batches.{is_batch_draft};
    ghost use Rattle.tsn_wire.specs.declared.drafts.EditDraft.{EditDraft};

    ghost Value = { List EditDraft };

    ghost view = { λ a. a.0.items };

    ghost invariant = { λ a. is_batch_draft a.0.items ≡ true };
}

impl BatchDraft {
    /// The batch of these edits; a fault of shape where there is none, where there are more than 16, or where a key
    /// stands twice.
    pub fn new(edits: Vec<EditDraft>) -> Result<BatchDraft, Unread>
        ensures { result ≡ batch_of edits.items }
    {
        if edits.is_empty() || edits.len() > MOST_PARTS || !are_distinct(&edits) {
            return Err(Unread::Shape);
        }
        Ok(BatchDraft(edits))
    }

    /// The edits, in their order.
    pub fn as_slice(&self) -> &[EditDraft]
        ensures edits { result.now ≡ self.now }
        ensures batch { is_batch_draft self.now ≡ true }
    {
        self.0.as_slice()
    }
}

fn is_same(left: KeyDraft, right: KeyDraft) -> bool
    ensures { result ≡ same_draft left right }
{
    left.kind == right.kind && left.number == right.number
}

/// Whether one of the edits is on the key.
#[tactic(auto, using(crate::proofs::Drafting::drafted_is, std::proofs::lemmas::Grind::common_steps))]
fn is_edited(edits: &[EditDraft], key: KeyDraft) -> bool
    ensures { result ≡ has_draft (drafted_keys edits.now) key }
{
    for edit in edits {
        if is_same(key, edit.key()) {
            return true;
        }
    }
    false
}

/// Whether no key stands twice.
fn are_distinct(edits: &[EditDraft]) -> bool
    ensures { result ≡ drafts_are_distinct (drafted_keys edits.now) }
{
    let mut rest = edits;
    while let [first, others @ ..] = rest {
        if is_edited(others, first.key()) {
            return false;
        }
        rest = others;
    }
    true
}

/// A command other than a hello.
#[derive(Debug, Drop)]
pub enum CommandDraft {
    Edit { edit: EditDraft },
    Act { act: Act, key: KeyDraft, now: u64 },
    Look { look: Look, key: KeyDraft },
    Bare { bare: Bare },
    Batch { batch: BatchDraft },
    Frame { frame: FrameDraft, now: u64 },
    States { key: KeyDraft, at: u64 },
    List { kind: Kind },
    Since { after: u64 },
    Settle { upto: u64 },
}

/// The name of a hello: what may be one, or a text that may not.
#[derive(Debug, Drop)]
pub enum NameDraft {
    Fit(SessionName),
    Unfit,
}

/// A line: a hello, one by a name, or a command of a session.
#[derive(Debug, Drop)]
pub enum LineDraft {
    Hello,
    Named { name: NameDraft },
    Session { session: u64, command: CommandDraft },
}
