//! What of a journal is looked at.
ghost use Rattle.std.specs.Prelude.{◌≡◌, ◌<◌, Some, IfOk, MatchOption, codes};
ghost use Rattle.clap.specs.Words.{found_of, rows_of};
ghost use Rattle.tsn_words.specs.Asking.{bit, looks, GivesLook, HasJournal};

use crate::values::{has_text, is_flagged, number_if_given, text_if_given};
use clap::ArgMatches;
use std::alloc::{AllocError, Global};

/// What of a journal is looked at, or is to be done with it.
#[derive(Debug, Drop, PartialEq)]
pub enum Look {
    /// What is in the file as a whole.
    Whole,
    /// The entries behind this number, 0 to 2^32 - 1.
    Since(u64),
    /// What the entry of this number changed, 1 to 2^32 - 1.
    Diff(u64),
    /// No look: what is behind the last good line is moved away.
    Mend,
    /// The configuration at its end, as a setup.
    Setup,
    /// No look: a new journal of this file is made, which begins with the configuration at the end of the old one.
    Begin(String),
}

// 1 where it is given.
fn bit(is_given: bool) -> u8
    ensures { result ≡ bit is_given }
{
    if is_given { 1 } else { 0 }
}

// How many looks are given.
fn count_of(given: &ArgMatches<'_>) -> u8
    ensures { result ≡ looks (Some (codes "journal", rows_of (found_of given.now))) }
{
    let texts = bit(has_text(given, "since"))
        + bit(has_text(given, "diff"))
        + bit(has_text(given, "begin"));
    texts + bit(is_flagged(given, "setup")) + bit(is_flagged(given, "mend"))
}

// The look that is given to `journal`; none where more than one is.
pub(crate) fn look_of(alloc: Global, given: &ArgMatches<'_>) -> Result<Option<Look>, AllocError>
    requires { HasJournal (Some (codes "journal", rows_of (found_of given.now))) }
    ensures { IfOk result (λ look. MatchOption look
        (1 < looks (Some (codes "journal", rows_of (found_of given.now))))
        (GivesLook (Some (codes "journal", rows_of (found_of given.now))))) }
{
    if count_of(given) > 1 {
        return Ok(None);
    }
    if let Some(after) = number_if_given(given, "since") {
        return Ok(Some(Look::Since(after)));
    }
    if let Some(entry) = number_if_given(given, "diff") {
        return Ok(Some(Look::Diff(entry)));
    }
    if let Some(new) = text_if_given(alloc, given, "begin")? {
        return Ok(Some(Look::Begin(new)));
    }
    if is_flagged(given, "setup") {
        return Ok(Some(Look::Setup));
    }
    if is_flagged(given, "mend") {
        return Ok(Some(Look::Mend));
    }
    Ok(Some(Look::Whole))
}
