//! Why a line or a setup is not read.
ghost use Rattle.std.specs.Prelude.{◌≡◌};
ghost use Rattle.tsn_records.specs.Answers.{refusal_of};
ghost use Rattle.tsn_records.specs.declared.unread.Unread.TheVariants.{Memory};

use std::alloc::AllocError;
use tsn_types::refusals::{Field, Refusal};

/// The four refusals of reading.
#[derive(Clone, Copy, Debug, PartialEq, Eq)]
pub enum Unread {
    /// The bytes are no JSON value, or no TOML document.
    Syntax,
    /// The members, or their kinds, are not those of a command, a record or a setup.
    Shape,
    /// A number is outside its range.
    Range(Field),
    /// A growth was refused.
    Memory,
}

impl From<AllocError> for Unread {
    ghost from_gives = { λ _ e. e ≡ Memory };

    fn from(_refused: AllocError) -> Unread {
        Unread::Memory
    }
}

impl Unread {
    /// The refusal that a reply names.
    pub fn refusal(self) -> Refusal
        ensures { result ≡ refusal_of self }
    {
        match self {
            Unread::Syntax => Refusal::Syntax,
            Unread::Shape => Refusal::Shape,
            Unread::Range(field) => Refusal::Range(field),
            Unread::Memory => Refusal::Memory,
        }
    }
}
