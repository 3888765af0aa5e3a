//! The bridge behind a desk: threads take turns at it, a command a turn.
ghost use Rattle.tsn_bridge.specs.Turns.{Turns};

use crate::bridge::Bridge;
use tsn_commands::command::Ask;
use tsn_commands::reply::Reply;
use tsn_machine::machine::Machine;

/// A turn at a desk of the bridge is one step, of what a session asks.
impl Machine for Bridge {
    type Request = Ask;

    type Reply = Reply;

    ghost steps = { Turns };

    fn step(&mut self, ask: Ask) -> Reply {
        let Ask { session, command } = ask;
        command.recall_ranges();
        Bridge::step(self, session, command)
    }
}
