//! The setup of a configuration: the limits, and then the records kind by kind.
ghost use Rattle.std.specs.Prelude.{◌≡◌, ◌⊎◌, ◌<◌, ◌≤◌, ◌++◌, Err, IfErr, IfOk, Ok, OnErr, OnOk, length};
ghost use Rattle.std.specs.List.{flat_map};
ghost use Rattle.tsn_types.specs.declared.refusals.Refusal.TheVariants.{Memory, TooLong};
ghost use Rattle.tsn_edit.specs.Configuration.{IsWellKept};
ghost use Rattle.tsn_export.specs.Going.{Stops};
ghost use Rattle.tsn_export.specs.Text.{exported, longest_setup, named_of, table_text};

use crate::text::{PlainText, SetupText};
use std::alloc::Global;
use tsn_config::Config;
use tsn_config::ids::key_of;
use tsn_types::keys::Kind;
use tsn_types::refusals::Refusal;

/// The bytes of the longest setup that is read.
pub const LONGEST_SETUP: usize = 1_048_576;

// The kinds in the order of their tables.
const KINDS: [Kind; 4] = [Kind::Port, Kind::Filter, Kind::Gate, Kind::Meter];

/// The configuration as the text of a setup. Refused as too long where the text would have more than 1,048,576 bytes,
/// and otherwise only for want of memory.
pub fn export_setup(alloc: Global, config: &Config) -> Result<SetupText, Refusal>
    ensures ok { IfOk result (λ text. exported config.now.limits config.now.map ≡ Ok text) }
    ensures refused { IfErr result (λ why. (exported config.now.limits config.now.map ≡ Err why) ⊎ (why ≡ Memory)) }
{
    let mut text = SetupText::new(alloc);
    text.push_limits(config.limits())?;
    for kind in &KINDS {
        text.push_kind(alloc, config, *kind)?;
    }
    text.refuse_long()?;
    Ok(text)
}

impl PlainText {
    // Puts the tables of the records of a kind at the end, by number, up to one with which the text is too long.
    fn push_kind(&mut self, alloc: Global, config: &Config, kind: Kind) -> Result<(), Refusal>
        requires { IsWellKept config.now.limits config.now.map }
        ensures ok { OnOk result (self.new ≡ self.old ++ flat_map table_text (named_of kind config.now.map)) }
        ensures refused { IfErr result (λ why.
            Stops (self.old ++ flat_map table_text (named_of kind config.now.map)) why) }
    {
        let ids = config.ids(alloc, kind)?;
        for id in ids.as_slice() {
            self.push_entry(config, key_of(kind, *id))?;
            self.refuse_long()?;
        }
        Ok(())
    }

    // Refuses a text that is longer than any that is read.
    fn refuse_long(&self) -> Result<(), Refusal>
        ensures ok { OnOk result (length self.now ≤ longest_setup) }
        ensures long { OnErr result (longest_setup < length self.now) }
        ensures why { IfErr result (λ why. why ≡ TooLong) }
    {
        if self.len() > LONGEST_SETUP {
            return Err(Refusal::TooLong);
        }
        Ok(())
    }
}
