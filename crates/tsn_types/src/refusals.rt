//! Why a command is refused: a number, a name and, for some causes, what it is about.
ghost use Rattle.std.specs.Prelude.{◌≡◌};
ghost use Rattle.tsn_types.specs.Refusals.{number_of, name_of, rank_of, field_name};
ghost use Rattle.tsn_types.specs.declared.refusals.Refusal.TheVariants.{Memory};

use crate::keys::Key;
use std::alloc::{AllocError, AllocFailed};

/// A member of a command, a record or a setup whose number is outside its range or its limit, or whose text may not be
/// a name.
#[derive(Clone, Copy, Debug, PartialEq, Eq)]
pub enum Field {
    /// The member `s`, the session that gives a command.
    S,
    /// The member `session`, a number to be given out.
    Session,
    /// The member `name` of a hello, which may not be one.
    Name,
    Key,
    Gates,
    List,
    Cycle,
    Extension,
    Base,
    Ipv,
    Handle,
    Priority,
    Gate,
    MaxSdu,
    Meter,
    Cir,
    Cbs,
    Eir,
    Ebs,
    Octets,
    Now,
    At,
    After,
    Upto,
    Id,
    Ports,
    MaxFilters,
    MaxGates,
    MaxMeters,
    ListMax,
}

impl Field {
    /// The member's name as a command or a setup spells it.
    pub fn name(self) -> &'static str
        ensures { result.now ≡ field_name self }
    {
        match self {
            Field::S => "s",
            Field::Session => "session",
            Field::Name => "name",
            Field::Key => "key",
            Field::Gates => "gates",
            Field::List => "list",
            Field::Cycle => "cycle",
            Field::Extension => "extension",
            Field::Base => "base",
            Field::Ipv => "ipv",
            Field::Handle => "handle",
            Field::Priority => "priority",
            Field::Gate => "gate",
            Field::MaxSdu => "max_sdu",
            Field::Meter => "meter",
            Field::Cir => "cir",
            Field::Cbs => "cbs",
            Field::Eir => "eir",
            Field::Ebs => "ebs",
            Field::Octets => "octets",
            Field::Now => "now",
            Field::At => "at",
            Field::After => "after",
            Field::Upto => "upto",
            Field::Id => "id",
            Field::Ports => "ports",
            Field::MaxFilters => "max_filters",
            Field::MaxGates => "max_gates",
            Field::MaxMeters => "max_meters",
            Field::ListMax => "list_max",
        }
    }
}

/// A refusal. The variants stand in the order of their numbers, from 1.
#[derive(Clone, Copy, Debug, PartialEq, Eq)]
pub enum Refusal {
    /// A line or a setup over its greatest length.
    TooLong,
    /// Bytes that are no JSON value, or no TOML document.
    Syntax,
    /// Members or kinds of values that a command or a record does not have.
    Shape,
    /// A number outside its range or its limit.
    Range(Field),
    /// A session number that was not given out.
    NoSession,
    /// The key is absent.
    Missing(Key),
    /// The key is present.
    Exists(Key),
    /// A reference to this key, which is absent.
    Dangling(Key),
    /// The key is referred to; by this filter, the least of them.
    Referred(Key),
    /// The session has no standing entry.
    NothingToUndo,
    /// A later standing entry, `other`, conflicts with the session's entry `own`.
    Conflict { own: u64, other: u64 },
    /// The session has no undone entry that may be redone.
    NothingToRedo,
    /// A later entry, `other`, conflicts with what would be redone.
    RedoConflict { other: u64 },
    /// A gate control list is applied where gates are not enabled.
    NotEnabled,
    /// An empty gate control list is applied.
    EmptyList,
    /// An instant before the last act.
    Past,
    /// Too few free entries in the journal.
    JournalFull,
    /// A growth was refused.
    Memory,
    /// The entries up to this number are settled already.
    Settled { upto: u64 },
}

impl Refusal {
    /// The refusal's number, 1 to 19.
    pub fn number(self) -> u64
        ensures { result ≡ number_of self }
    {
        match self {
            Refusal::TooLong => 1,
            Refusal::Syntax => 2,
            Refusal::Shape => 3,
            Refusal::Range(_) => 4,
            Refusal::NoSession => 5,
            Refusal::Missing(_) => 6,
            Refusal::Exists(_) => 7,
            Refusal::Dangling(_) => 8,
            Refusal::Referred(_) => 9,
            Refusal::NothingToUndo => 10,
            Refusal::Conflict { .. } => 11,
            Refusal::NothingToRedo => 12,
            Refusal::RedoConflict { .. } => 13,
            Refusal::NotEnabled => 14,
            Refusal::EmptyList => 15,
            Refusal::Past => 16,
            Refusal::JournalFull => 17,
            Refusal::Memory => 18,
            Refusal::Settled { .. } => 19,
        }
    }

    /// The place of a cause in the order in which causes are tested, 1 to 19: of several the one of the least rank is
    /// answered. The order is that of the numbers, but that 19 comes before 17 and 18.
    pub fn rank(self) -> u64
        ensures { result ≡ rank_of self }
    {
        match self {
            Refusal::Settled { .. } => 17,
            Refusal::JournalFull => 18,
            Refusal::Memory => 19,
            _ => self.number(),
        }
    }

    /// The refusal's name, as a reply spells it.
    pub fn name(self) -> &'static str
        ensures { result.now ≡ name_of self }
    {
        match self {
            Refusal::TooLong => "too_long",
            Refusal::Syntax => "syntax",
            Refusal::Shape => "shape",
            Refusal::Range(_) => "range",
            Refusal::NoSession => "no_session",
            Refusal::Missing(_) => "missing",
            Refusal::Exists(_) => "exists",
            Refusal::Dangling(_) => "dangling",
            Refusal::Referred(_) => "referred",
            Refusal::NothingToUndo => "nothing_to_undo",
            Refusal::Conflict { .. } => "conflict",
            Refusal::NothingToRedo => "nothing_to_redo",
            Refusal::RedoConflict { .. } => "redo_conflict",
            Refusal::NotEnabled => "not_enabled",
            Refusal::EmptyList => "empty_list",
            Refusal::Past => "past",
            Refusal::JournalFull => "journal_full",
            Refusal::Memory => "memory",
            Refusal::Settled { .. } => "settled",
        }
    }
}

impl From<AllocError> for Refusal {
    ghost from_gives = { λ _ why. why ≡ Memory };

    fn from(_refused: AllocError) -> Refusal {
        Self::Memory
    }
}

impl<T: Drop> From<AllocFailed<T>> for Refusal {
    ghost from_gives = { λ _ why. why ≡ Memory };

    fn from(refused: AllocFailed<T>) -> Refusal {
        Self::from(AllocError::from(refused))
    }
}
