//! Laws of mirrors, as functions whose contracts state them. Their bodies are empty.
ghost use Rattle.std.specs.Prelude.{◌≡◌, ◌≤◌, ◌+◌, ◌++◌, ℕ, List, [], Some, length};
ghost use Rattle.std.specs.FinMap as map;
ghost use Rattle.tsn_types.specs.declared.keys.Key.{Key as AnyKey};
ghost use Rattle.tsn_types.specs.declared.keys.Key.TheVariants.{Port};
ghost use Rattle.tsn_types.specs.declared.limits.Limits.{Limits as AnyLimits};
ghost use Rattle.tsn_types.specs.declared.records.PortGates.{PortGates as AnyPortGates};
ghost use Rattle.tsn_types.specs.declared.records.Record.{Record as AnyRecord};
ghost use Rattle.tsn_types.specs.declared.records.Record.TheVariants as records;
ghost use Rattle.tsn_chain.specs.declared.state.State.TheVariants as states;
ghost use Rattle.tsn_edit.specs.Configuration.{Configuration};
ghost use Rattle.tsn_entries.specs.declared.entries.Entry.{Entry};
ghost use Rattle.tsn_undo.specs.Ledger.{Ledger, present};
ghost use Rattle.tsn_undo.specs.Soundness.{IsSound, configuration};
ghost use Rattle.tsn_schedule.specs.Acts.{last_instant};
ghost use Rattle.tsn_machine.specs.declared.history.Entry.{Entry as Call};
ghost use Rattle.tsn_commands.specs.declared.command.Ask.{Ask as AnyAsk};
ghost use Rattle.tsn_commands.specs.declared.reply.Reply.{Reply as AnyReply};
ghost use Rattle.tsn_bridge.specs.Beginning.{Opens, begun};
ghost use Rattle.tsn_bridge.specs.Reached.{IsReached};
ghost use Rattle.tsn_bridge.specs.Histories.{Answered, AreInRange, Leads};
ghost use Rattle.tsn_bridge.specs.Looking.{last_at, shown_at};
ghost use Rattle.tsn_bridge.specs.State.{State};
ghost use Rattle.tsn_port.specs.Histories.{AsksBehind, IsWhole, Tells, TookSome};
ghost use Rattle.tsn_port.specs.Mirrors.{AreOfPort, MirrorState, ShowsGates, first_record, mirrored};

/// The entries of a bridge are such as a mirror of any of its ports follows, whatever sessions ask of it. Take limits
/// and records that open a bridge, and a port within the limits with its record at the opening: after each entry the
/// port is there with a port's record, and its acts are in order of time, each with effect.
#[tactic(auto, using(crate::proofs::Ports::entries_of_ports))]
pub fn entries_are_followed()
    ensures { (limits : AnyLimits) (given : List (AnyKey × AnyRecord)) (asks : List Answered) (now : State) (n : ℕ) (opening : AnyPortGates)
        →
        Opens limits given → AreInRange asks → Leads (begun limits given) asks now → 1 ≤ n → n ≤ limits.ports →
        map.get now.book.opening (Port n) ≡ Some (records.Port opening) → AreOfPort n (mirrored n opening []) now.book.entries }
{}

/// A mirror that has all entries of a bridge in tells what the bridge tells of the port: the same gates at an instant,
/// and the instant of the last act is the same.
#[tactic(auto, using(crate::proofs::Ports::tells_past))]
pub fn mirrors_tell_as_the_bridge()
    ensures gates { (book : Ledger) (n : ℕ) (opening : AnyPortGates) (t gates : ℕ)
        → map.get book.opening (Port n) ≡ Some (records.Port opening) →
        ShowsGates (mirrored n opening book.entries) t gates
        → shown_at book (Port n) (map.get (present book) (Port n)) t ≡ Some (states.Port gates) }
    ensures past { (book : Ledger) (n : ℕ) (opening : AnyPortGates) → map.get book.opening (Port n) ≡ Some (records.Port opening) →
        last_instant (mirrored n opening book.entries).acts ≡ last_at book (Port n) }
{}

/// The record with which a bridge's journal began, of a port, is found from its entries and a record that the port had
/// at an earlier time, when only the first of the entries were there: it is the record before the first change of the
/// port, or, where none changed it, the one that it had.
pub fn first_records_are_found()
    ensures { (limits : AnyLimits) (opening : Configuration) (front more : List Entry) (n : ℕ) (shown : AnyPortGates) →
        IsSound limits opening (front ++ more) → 1 ≤ n → n ≤ limits.ports →
        map.get (configuration opening front) (Port n) ≡ Some (records.Port shown) →
        map.get opening (Port n) ≡ Some (records.Port (first_record n (front ++ more) shown)) }
{}

/// A mirror follows a bridge that threads share, by turns alone. Take a desk that began with a bridge to which sessions
/// had brought it from an opening, and a mirror of a port within them that tells the port in a history: in each state
/// to which the history leads it is the port's after its first entries. A later turn asks for the entries behind the
/// mirror's front and is told them, and the mirror takes them. Then it tells the port in the history that ends with
/// that turn; and where it took all, it is the port's after all entries there.
pub fn mirrors_follow_turns()
    ensures tells { (first : State) (history now : List (Call AnyAsk AnyReply)) (old new : MirrorState) (entries : List Entry) →
        IsReached first → 1 ≤ old.port → old.port ≤ first.book.limits.ports → Tells first history old →
        AsksBehind history old entries now → TookSome old entries new → Tells first now new }
    ensures whole { (first : State) (history now : List (Call AnyAsk AnyReply)) (old new : MirrorState) (entries : List Entry) →
        IsReached first → 1 ≤ old.port → old.port ≤ first.book.limits.ports → Tells first history old →
        AsksBehind history old entries now → TookSome old entries new → new.front ≡ old.front + length entries → IsWhole first now new }
{}
