//! That the writer of setups and their reader agree. The function does nothing; its contract is what is proved.
ghost use Rattle.tsn_read_back.specs.Law.{BeginsAgain, ReadsBack, ReadsExported};

/// The text of a well kept configuration that is not too long is read as the setup of its limits and of the records
/// that a setup names, and so is every text that is exported. So a bridge that begins with an exported setup has the
/// same limits and the same configuration.
pub fn exports_are_read_back()
    ensures law { ReadsBack }
    ensures exported { ReadsExported }
    ensures same { BeginsAgain }
{}
