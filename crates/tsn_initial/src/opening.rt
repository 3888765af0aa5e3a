//! A bridge from a text.
ghost use Rattle.std.specs.Prelude.{IfOk};
ghost use Rattle.tsn_bridge.specs.Beginning.{IsOpened};
ghost use Rattle.tsn_records.specs.Answers.{IsOrMemory};
ghost use Rattle.tsn_initial.specs.Opening.{IsNew, opened};

use std::alloc::Global;
use tsn_bridge::bridge::Bridge;
use tsn_setup::setup_of;
use tsn_types::refusals::Refusal;

/// A bridge that begins with the setup of the text; of the empty text, with the standard setup. Refused is what the
/// text or the opening is refused, and want of memory (18) in place of any answer.
#[tactic(auto, unfolding(crate::specs::Opening::opened))]
pub fn bridge_of(alloc: Global, text: &[u8]) -> Result<Bridge, Refusal>
    ensures opened { IsOrMemory result (opened text.now) }
    ensures new { IfOk result IsNew }
    ensures sound { IfOk result IsOpened }
{
    Bridge::new(alloc, setup_of(alloc, text)?)
}
