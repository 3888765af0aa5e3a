//! The first command of a journal file: `{"journal":2,"setup":TEXT}`, with the whole text of the setup, which is empty
//! for the standard one. So the file is enough to begin from.
ghost use Rattle.std.specs.Prelude.{◌≡◌, IfOk, Ok, string_bytes};
ghost use Rattle.serde_json.specs.View.{view};
ghost use Rattle.tsn_records.specs.Answers.{IsOrMemory};
ghost use Rattle.tsn_resuming.specs.First.{Finds, first_data, first_of, first_text, seen, setup_in, setup_of_data};

use serde_json::{Value, json};
use std::alloc::{AllocError, Global};
use tsn_records::members::{has_members, number_at, text_at};
use tsn_records::unread::Unread;
use tsn_types::refusals::Refusal;
use tsn_wire::value_of;

/// The version of a journal file that is written.
const VERSION: u64 = 2;

/// The earliest version that is read. Its hellos said no names.
const FIRST_VERSION: u64 = 1;

/// Why a command has no setup.
#[derive(Clone, Copy, Debug, PartialEq, Eq)]
pub enum NoSetup {
    /// It is no first command of a journal file.
    NoJournal,
    /// It is one of another version: `journal` is another whole number.
    OtherVersion,
    /// Memory was wanted and not there.
    Memory,
}

// The first command as a value.
fn first_value(alloc: Global, setup: &str) -> Result<Value, AllocError>
    ensures { IfOk result (λ value. view value ≡ first_data setup.now) }
{
    json!(in alloc; {"journal": 2u64, "setup": setup})
}

// The first command's text.
fn first_of_text(alloc: Global, setup: &str) -> Result<String, AllocError>
    ensures { IfOk result (λ text. string_bytes text ≡ first_text setup.now) }
{
    let value = first_value(alloc, setup)?;
    value.to_string(alloc)
}

/// The first command of the journal file whose setup has this text. Refused is, as of a setup, a text that is not UTF-8
/// (2), and want of memory (18) in place of any answer.
pub fn first_command(alloc: Global, setup: &[u8]) -> Result<Vec<u8>, Refusal>
    ensures { IsOrMemory (seen (λ text. text.items) result) (first_of setup.now) }
{
    let Ok(setup) = str::from_utf8(setup) else {
        return Err(Refusal::Syntax);
    };
    let text = first_of_text(alloc, setup)?;
    Ok(text.into_bytes())
}

// The setup in the value of a first command.
fn setup_of_value(value: &Value) -> Result<&str, NoSetup>
    ensures { seen (λ setup. setup.now) result ≡ setup_of_data (view value.now) }
{
    let Ok(version) = number_at("journal", value) else {
        return Err(NoSetup::NoJournal);
    };
    if version < FIRST_VERSION || VERSION < version {
        return Err(NoSetup::OtherVersion);
    }
    let Ok(()) = has_members(2, value) else {
        return Err(NoSetup::NoJournal);
    };
    match text_at("setup", value) {
        Ok(setup) => Ok(setup),
        Err(_) => Err(NoSetup::NoJournal),
    }
}

// A copy of the setup's text.
fn copied(alloc: Global, setup: &str) -> Result<Vec<u8>, NoSetup>
    ensures { Finds (seen (λ setup. setup.items) result) (Ok setup.now) }
{
    Vec::from_slice(alloc, setup.as_bytes()).map_err(|_| NoSetup::Memory)
}

/// The text of the setup in the first command of a journal file; want of memory in place of any answer.
#[tactic(auto, unfolding(crate::specs::First::setup_in), using(crate::proofs::Finding::found, crate::proofs::Finding::none_found, crate::proofs::Finding::none_read))]
pub fn setup_in(alloc: Global, command: &[u8]) -> Result<Vec<u8>, NoSetup>
    ensures { Finds (seen (λ setup. setup.items) result) (setup_in command.now) }
{
    let value = match value_of(alloc, command) {
        Ok(value) => value,
        Err(Unread::Memory) => return Err(NoSetup::Memory),
        Err(_) => return Err(NoSetup::NoJournal),
    };
    let setup = setup_of_value(&value)?;
    copied(alloc, setup)
}
