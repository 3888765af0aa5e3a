//! What the numbers of the code are, as a function whose contract states it. Its body is empty.
ghost use Rattle.std.specs.Prelude.{◌≡◌};
ghost use Rattle.tsn_entries.specs.Entries.{most_entries};
ghost use Rattle.tsn_journal.specs.declared.journal.TheConstants.{MOST_ENTRIES};

/// The code's limit of a journal is the one of the definitions.
pub fn limits()
    ensures { MOST_ENTRIES ≡ most_entries }
{}
