//! The replay of recorded commands: a start steps the bridge of the setup by one after another.
ghost use Rattle.std.specs.Prelude.{◌≡◌, ◌∷◌, [], IfErr, OnErr, OnOk};
ghost use Rattle.tsn_commands.specs.declared.reply.Reply.TheVariants.{Refused};
ghost use Rattle.tsn_bridge.specs.Histories.{Answers};
ghost use Rattle.tsn_bridge.specs.Reached.{IsReached};
ghost use Rattle.tsn_replay.specs.Replaying.{Replays};

use tsn_bridge::bridge::Bridge;
use tsn_bridge::command::Ask;
use tsn_bridge::reply::Reply;
use tsn_types::refusals::Refusal;

/// Steps the bridge by a recorded command, which goes on with a replay. Refused is what the bridge refuses, and changes
/// nothing. Of what a recorder wrote only want of memory (18) refuses any: the law `only_memory_refuses`.
#[tactic(auto, using(crate::proofs::Forms::one_replayed, crate::proofs::Forms::no_refusal, tsn_bridge::proofs::Families::refused_stays, tsn_bridge::proofs::Reaching::reached_by))]
pub fn replay(bridge: &mut Bridge, ask: Ask) -> Result<(), Refusal>
    ensures accepted { OnOk result (Replays bridge.old (ask ∷ []) bridge.new) }
    ensures refused { IfErr result (λ why. Answers bridge.old ask (Refused why) bridge.new) }
    ensures unchanged { OnErr result (bridge.new ≡ bridge.old) }
    ensures reached { IsReached bridge.old → OnOk result (IsReached bridge.new) }
{
    let Ask { session, command } = ask;
    command.recall_ranges();
    let reply = bridge.step(session, command);
    if let Reply::Refused(why) = reply {
        return Err(why);
    }
    Ok(())
}
