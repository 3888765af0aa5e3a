//! The journal that keeps what sessions do.
ghost use Rattle.std.specs.Prelude.{◌≡◌, IfNone, IfOk, IfSome, codes};
ghost use Rattle.clap.specs.Words.{first_value, found_of};
ghost use Rattle.tsn_words.specs.Asking.{GivesKeeping, GivesSyncs, IsOther};

use crate::values::text_if_given;
use clap::ArgMatches;
use std::alloc::{AllocError, Global};

/// Which syncs of a journal are made.
#[derive(Clone, Copy, Debug, PartialEq, Eq)]
pub enum Syncs {
    /// One ahead of each reply that tells of something that is not kept yet.
    Each,
    /// None: what was answered outlasts the process, and perhaps not a loss of power.
    None,
}

/// A journal that keeps what sessions do.
#[derive(Drop)]
pub struct Kept {
    /// The name of its file.
    pub file: String,
    pub syncs: Syncs,
}

// What is given of a journal.
#[derive(Drop)]
pub(crate) enum Keeping {
    // This one, or none.
    Given(Option<Kept>),
    // Syncs of another kind than there is.
    OtherSyncs,
    // Syncs, and no journal.
    NoJournal,
}

// The syncs that are given; none where they are of another kind than there is.
fn syncs_of(given: &ArgMatches<'_>) -> Option<Syncs>
    ensures some { IfSome result (GivesSyncs (first_value (found_of given.now) (codes "sync"))) }
    ensures none { IfNone result (IsOther (first_value (found_of given.now) (codes "sync"))) }
{
    match given.get_str("sync") {
        None => Some(Syncs::Each),
        Some(text) => (text == "none").then_some(Syncs::None),
    }
}

// What is given of a journal.
pub(crate) fn keeping_of(alloc: Global, given: &ArgMatches<'_>) -> Result<Keeping, AllocError>
    ensures { IfOk result (GivesKeeping (first_value (found_of given.now) (codes "journal"))
        (first_value (found_of given.now) (codes "sync"))) }
{
    let Some(syncs) = syncs_of(given) else {
        return Ok(Keeping::OtherSyncs);
    };
    match (text_if_given(alloc, given, "journal")?, syncs) {
        (Some(file), syncs) => Ok(Keeping::Given(Some(Kept { file, syncs }))),
        (None, Syncs::Each) => Ok(Keeping::Given(None)),
        (None, Syncs::None) => Ok(Keeping::NoJournal),
    }
}
