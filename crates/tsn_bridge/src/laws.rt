//! Laws of the machine, as functions whose contracts state them. Their bodies are empty.
ghost use Rattle.std.specs.Prelude.{◌≡◌, ◌⊎◌, ◌≤◌, ℕ, Bool, List, [], ◌∷◌, ◌++◌, Some, None, false, true, codes, option_map};
ghost use Rattle.std.specs.FinMap as map;
ghost use Rattle.tsn_types.specs.declared.keys.Key.{Key as AnyKey};
ghost use Rattle.tsn_types.specs.declared.keys.Key.TheVariants.{Gate, Port};
ghost use Rattle.tsn_types.specs.declared.limits.Limits.{Limits as AnyLimits};
ghost use Rattle.tsn_types.specs.declared.records.PortGates.{PortGates as AnyPort};
ghost use Rattle.tsn_types.specs.declared.records.Record.{Record as AnyRecord};
ghost use Rattle.tsn_types.specs.declared.records.Record.TheVariants as records;
ghost use Rattle.tsn_types.specs.declared.records.StreamGate.{StreamGate as AnyGate};
ghost use Rattle.tsn_types.specs.declared.refusals.Refusal.{Refusal as AnyRefusal};
ghost use Rattle.tsn_types.specs.declared.refusals.Refusal.TheVariants.{JournalFull, Memory};
ghost use Rattle.tsn_types.specs.declared.keys.Kind.TheVariants as kinds;
ghost use Rattle.tsn_edit.specs.declared.Edit.{Edit as AnyEdit};
ghost use Rattle.tsn_edit.specs.Batches.{EditsInRange, IsBatch, result as edit_result};
ghost use Rattle.tsn_edit.specs.Changes.{restored};
ghost use Rattle.tsn_config.specs.Ids.{ids_of};
ghost use Rattle.tsn_entries.specs.Entries.{Applied, standing};
ghost use Rattle.tsn_entries.specs.Finding.{last_of, others_standing, own_standing};
ghost use Rattle.tsn_schedule.specs.Examples.{one_two};
ghost use Rattle.tsn_chain.specs.declared.state.State.TheVariants as states;
ghost use Rattle.tsn_chain.specs.declared.state.Counters.TheVariants as counters;
ghost use Rattle.tsn_chain.specs.Examples.{frame_of};
ghost use Rattle.tsn_chain.specs.declared.frame.Verdict.TheVariants.{Dropped, Passed};
ghost use Rattle.tsn_chain.specs.declared.frame.DropCause.TheVariants.{Closed, Octets};
ghost use Rattle.tsn_undo.specs.Commuting.{Commutes, IsClosed};
ghost use Rattle.tsn_undo.specs.Ledger.{base_of, present};
ghost use Rattle.tsn_undo.specs.Soundness.{IsSound};
ghost use Rattle.tsn_undo.specs.UndoAll.{others_alone, undo_all_cause, with_undone};
ghost use Rattle.tsn_machine.specs.declared.history.Entry.{Entry as Call};
ghost use Rattle.tsn_machine.specs.History.{Runs};
ghost use Rattle.tsn_commands.specs.declared.command.Ask.{Ask as AnyAsk};
ghost use Rattle.tsn_commands.specs.declared.command.Command.{Command as AnyCommand};
ghost use Rattle.tsn_commands.specs.declared.reply.Reply.{Reply as AnyReply};
ghost use Rattle.tsn_commands.specs.declared.reply.Reply.TheVariants.{Entry, EntryOf, Framed, Known, Refused, Session, Sessions, TakenBack};
ghost use Rattle.tsn_commands.specs.declared.command.TheConstants.{MOST_SESSIONS};
ghost use Rattle.tsn_bridge.specs.Beginning.{Opens, begun, standard};
ghost use Rattle.tsn_bridge.specs.Edits.{edit_rule, undo_all_rule, undo_rule};
ghost use Rattle.tsn_bridge.specs.Examples.{answers, book_of, closed_gate, gate_runs, in_turns, numbers, one_left, port, put_ahead, put_back, rows_1, rows_2, rows_3, rows_new, shows, two_sessions, with_rows};
ghost use Rattle.tsn_bridge.specs.Headline.{AtOnceUndone, GateRuns, OthersAlone, OthersLeft, PortRuns, RestoredList};
ghost use Rattle.tsn_bridge.specs.Histories.{AreInRange, Leads, StateIsSound, Answered};
ghost use Rattle.tsn_commands.specs.Commands.{CommandInRange, most_sessions};
ghost use Rattle.tsn_bridge.specs.Later.{ActsAreBy, IsLater, IsWhole};
ghost use Rattle.tsn_bridge.specs.Looking.{counted_at, shown_at};
ghost use Rattle.tsn_bridge.specs.Machine.{Step};
ghost use Rattle.tsn_bridge.specs.Rule.{Allows};
ghost use Rattle.tsn_bridge.specs.Sessions.{given_to, hello_rule, resume_rule, sessions_rule};
ghost use Rattle.tsn_bridge.specs.State.{State};
ghost use Rattle.tsn_bridge.specs.Turns.{Turns};

/// The headline. Over every list of commands that sessions give a bridge, from limits and records that open one: an
/// accepted edit at once undone leaves the configuration as it was; undoing a session's edits leaves exactly what the
/// other sessions' standing edits alone give, or is refused naming a later edit that touches or refers to their
/// instances; and a changeover to the restored list, its base time past, gives that list's gate states at every later
/// instant: from the change time, which the apply tells, until the next act on that list, while its port or gate is
/// there. The list is one that an undo of one entry put back, or an undo of all. An undo of one entry that is answered
/// took back the session's newest standing entry, and leaves what all other standing entries give, with the limits and
/// the opening as they were. Of refusals: an undo at once is refused for a full journal where the journal is full,
/// always and for nothing else, and where it is not, for want of memory alone, and then it changed nothing; an undo of
/// all as `WhyNotAll` says, which for a conflict names the newest own entry in conflict and the latest other one in
/// conflict with it, as it always does where there is one and the session was given out, and then it changed nothing; a
/// look at the restored list's states, by a session that was given out, not at all. Nothing is asked of the state but
/// that the commands led to it.
pub fn headline()
    ensures at_once_undone { (limits : AnyLimits) (records : List (AnyKey × AnyRecord)) (asks : List Answered) (now : State) →
        Opens limits records → AreInRange asks → Leads (begun limits records) asks now → AtOnceUndone now }
    ensures others_alone { (limits : AnyLimits) (records : List (AnyKey × AnyRecord)) (asks : List Answered) (now : State) →
        Opens limits records → AreInRange asks → Leads (begun limits records) asks now → OthersAlone now }
    ensures others_left { (limits : AnyLimits) (records : List (AnyKey × AnyRecord)) (asks : List Answered) (now : State) →
        Opens limits records → AreInRange asks → Leads (begun limits records) asks now → OthersLeft now }
    ensures restored_list { (limits : AnyLimits) (records : List (AnyKey × AnyRecord)) (asks : List Answered) (now : State) →
        Opens limits records → AreInRange asks → Leads (begun limits records) asks now → RestoredList now }
{}

/// The headline, of a bridge that many threads share. Take a desk whose bridge began with limits and records that open
/// one. Of each state to which a history of its turns leads, in whatever order the threads made them: it is whole; any
/// standing entries may be taken out of the run with all that are in conflict with them (commutation under references);
/// and the headline holds of it. Nothing is asked of the requests: the numbers of each are in their ranges, as a turn
/// says. `Desk::close` tells such a history of the bridge that it gives back, and `Desk::turn` and `front` of what a
/// seat has seen.
pub fn headline_at_a_desk()
    ensures whole { (limits : AnyLimits) (records : List (AnyKey × AnyRecord)) (history : List (Call AnyAsk AnyReply)) (now : State) →
        Opens limits records → Runs Turns (begun limits records) history now → IsWhole now }
    ensures commutation { (limits : AnyLimits) (records : List (AnyKey × AnyRecord)) (history : List (Call AnyAsk AnyReply)) (now : State)
        (out : Applied → Bool) →
        Opens limits records → Runs Turns (begun limits records) history now →
        IsClosed out (standing now.book.entries) → Commutes now.book.limits (base_of now.book) out (standing now.book.entries) }
    ensures at_once_undone { (limits : AnyLimits) (records : List (AnyKey × AnyRecord)) (history : List (Call AnyAsk AnyReply))
        (now : State) →
        Opens limits records → Runs Turns (begun limits records) history now → AtOnceUndone now }
    ensures others_alone { (limits : AnyLimits) (records : List (AnyKey × AnyRecord)) (history : List (Call AnyAsk AnyReply)) (now : State)
        →
        Opens limits records → Runs Turns (begun limits records) history now → OthersAlone now }
    ensures others_left { (limits : AnyLimits) (records : List (AnyKey × AnyRecord)) (history : List (Call AnyAsk AnyReply)) (now : State) →
        Opens limits records → Runs Turns (begun limits records) history now → OthersLeft now }
    ensures restored_list { (limits : AnyLimits) (records : List (AnyKey × AnyRecord)) (history : List (Call AnyAsk AnyReply)) (now : State)
        →
        Opens limits records → Runs Turns (begun limits records) history now → RestoredList now }
{}

/// The code's limit of sessions is the one of the definitions.
pub fn limits()
    ensures { MOST_SESSIONS ≡ most_sessions }
{}

/// The map after a step. Edits that were answered with an entry leave their result: the map before with each key's
/// record, or without one. An undo that was answered with an entry took back the session's newest standing entry, and
/// leaves the map before with the values before that entry put back at its keys.
pub fn maps_after_steps()
    ensures edit { (before after : State) (session : ℕ) (batch : List AnyEdit) (entry : ℕ) →
        IsBatch batch →
        Allows (edit_rule before session batch) before (Entry entry) after →
        present after.book ≡ edit_result (present before.book) batch }
    ensures undo { (before after : State) (session : ℕ) (number of : ℕ) →
        Allows (undo_rule before session) before (EntryOf number of) after →
        (x : Applied) × (last_of before.book.entries session ≡ Some x) × (of ≡ x.number)
        × (present after.book ≡ restored (present before.book) x.change) }
{}

/// A session's edit, of one record or of several at once, that was answered with an entry, and the same session's undo
/// after it, with no entry between: only sessions may have been given out. Where the undo is answered with an entry, it
/// took that edit back, and the configuration is the one before the edit: the whole map, every member of every record.
/// It is refused only where the journal is full or memory was wanting. Every bridge is sound, as `Bridge::config` says;
/// that a batch's keys are distinct and its numbers are in their ranges is said by `Batch::recall_ranges`.
pub fn edit_at_once_undone()
    ensures undone { (before edited between after : State) (session : ℕ) (batch : List AnyEdit) (entry number of : ℕ) →
        IsBatch batch →
        EditsInRange batch →
        IsSound before.book.limits before.book.opening before.book.entries →
        Allows (edit_rule before session batch) before (Entry entry) edited →
        between.book ≡ edited.book →
        Allows (undo_rule between session) between (EntryOf number of) after →
        (of ≡ entry) × (present after.book ≡ present before.book) }
    ensures refused { (before edited between after : State) (session : ℕ) (batch : List AnyEdit) (entry : ℕ) (why : AnyRefusal) →
        IsBatch batch →
        EditsInRange batch →
        IsSound before.book.limits before.book.opening before.book.entries →
        Allows (edit_rule before session batch) before (Entry entry) edited →
        between.book ≡ edited.book →
        edited.sessions ≤ between.sessions →
        Allows (undo_rule between session) between (Refused why) after →
        (why ≡ JournalFull) ⊎ (why ≡ Memory) }
{}

/// Over every list of commands that sessions give, from a sound state, as every bridge's is: the state is sound, and
/// the limits and the opening are as they were. After it, a session's edit that is answered with an entry and at once
/// undone leaves the configuration as it was; an undo of all of a session leaves exactly what the other sessions'
/// standing entries alone give, or names what stands in the way; an undo of one entry leaves what all others give; and
/// a list that an undo, or an undo of all, restored, once it is applied with its base past, gives its own states.
pub fn over_every_interleaving()
    ensures sound { (start now : State) (asks : List Answered) →
        StateIsSound start → AreInRange asks → Leads start asks now →
        StateIsSound now × (now.book.limits ≡ start.book.limits) × (now.book.opening ≡ start.book.opening) }
    ensures at_once_undone { (start now : State) (asks : List Answered) →
        StateIsSound start → AreInRange asks → Leads start asks now → AtOnceUndone now }
    ensures others_alone { (start now : State) (asks : List Answered) →
        StateIsSound start → AreInRange asks → Leads start asks now → OthersAlone now }
    ensures others_left { (start now : State) (asks : List Answered) →
        StateIsSound start → AreInRange asks → Leads start asks now → OthersLeft now }
    ensures restored_list { (start now : State) (asks : List Answered) →
        StateIsSound start → AreInRange asks → Leads start asks now → RestoredList now }
{}

/// This holds of every state of the machine, not only of those that a bridge comes to. A bridge begins whole: its
/// journal is sound, and what the filter chain keeps is there for just the filters, gates and meters of its
/// configuration; and every act was done by the bridge time. A step of a whole state leaves a whole state, and a later
/// one: no entry is gone or changed, no session and no name is taken back, the bridge time is no less, limits and
/// opening stay; and where every act was done by the bridge time, every act still was. So do any number of steps.
pub fn steps_keep_states_sound()
    ensures begins { (limits : AnyLimits) (records : List (AnyKey × AnyRecord)) →
        Opens limits records → IsWhole (begun limits records) × ActsAreBy (begun limits records) }
    ensures step { (before after : State) (session : ℕ) (command : AnyCommand) (reply : AnyReply) →
        IsWhole before → CommandInRange command → Step before session command reply after →
        IsWhole after × IsLater before after × (ActsAreBy before → ActsAreBy after) }
    ensures steps { (start now : State) (asks : List Answered) →
        IsWhole start → AreInRange asks → Leads start asks now →
        IsWhole now × IsLater start now × (ActsAreBy start → ActsAreBy now) }
{}

/// A list that is restored, by an undo or otherwise, and then applied with its base not after the instant that counted:
/// the apply tells the change time; and at each instant from then on, until the next act on the list of its port or
/// gate, every session that was given out is told the states of the list's entry at the time since the base, counted
/// round the cycle, as if the list had run since its base. Other entries may come between: acts on other keys, enables
/// of this one, which is enabled, and edits, undos and redos that do not create or remove the key.
pub fn restored_list()
    ensures port { (ready : State) (port : ℕ) (p : AnyPort) →
        StateIsSound ready → map.get (present ready.book) (Port port) ≡ Some (records.Port p) → PortRuns ready port p }
    ensures gate { (ready : State) (gate : ℕ) (g : AnyGate) →
        StateIsSound ready → map.get (present ready.book) (Gate gate) ≡ Some (records.Gate g) → GateRuns ready gate g }
{}

/// Worked examples at the whole bridge, of the definitions alone: an undo of all that keeps another session's edits; a
/// list that is restored and applied again, with what the port's counters tell; and what a stream gate shows, with the
/// verdicts on three frames and what its counters tell after them.
pub fn examples()
    ensures undo_all_keeps_others { (option_map (λ (x : AnyReply × State). x.0) (undo_all_rule two_sessions 1).done ≡ Some (TakenBack 2 6))
        ×
        (with_undone in_turns 1 (own_standing in_turns 1) ≡ one_left) ×
        (numbers (others_standing in_turns 1) ≡ 2 ∷ 4 ∷ []) ×
        (undo_all_cause in_turns 1 (own_standing in_turns 1) ≡ None) }
    ensures sessions { (option_map (λ (x : AnyReply × State). x.0) (sessions_rule two_sessions 1).done
        ≡ Some (Sessions (record { name = None; session = 1; standing = 2 }
        ∷ record { name = Some (codes "anna"); session = 2; standing = 2 } ∷ []))) ×
        (given_to [] one_left 2 ≡ record { name = None; session = 1; standing = 0 } ∷ record { name = None; session = 2; standing = 2 }
        ∷ []) }
    ensures names { (option_map (λ (x : AnyReply × State). x.0) (hello_rule two_sessions (Some (codes "anna"))).done ≡ Some (Known 2)) ×
        ((hello_rule two_sessions (Some (codes "bert"))).done
        ≡ Some (
          Session 3,
          record two_sessions
              { sessions = 3; names = two_sessions.names ++ record { session = 3; name = codes "bert" } ∷ [] },
        )) ×
        ((hello_rule two_sessions None).done ≡ Some (Session 3, record two_sessions { sessions = 3 })) }
    ensures resume { option_map (λ (x : AnyReply × State). x.0) (resume_rule two_sessions 2).done ≡ Some (Session 2) }
    ensures undo_all_leaves { (present (book_of one_left) ≡ others_alone (book_of in_turns) 1) ×
        (ids_of kinds.Filter (present (book_of one_left)) ≡ 1 ∷ []) × (ids_of kinds.Gate (present (book_of one_left)) ≡ 2 ∷ []) }
    ensures restored_list { (shows put_back (port one_two 0) (9999 ∷ 10000 ∷ 10299 ∷ 10300 ∷ []) ≡
        Some (states.Port 0) ∷ Some (states.Port 1) ∷ Some (states.Port 1) ∷ Some (states.Port 128) ∷ []) ×
        (counted_at (book_of put_back) standard.frames 9001 (Port 1)
        ≡ Some (counters.Port (record { change_error = 2; change_time = Some 10000; enabled = true; pending = true }))) ×
        (counted_at (book_of put_ahead) standard.frames 12000 (Port 1)
        ≡ Some (counters.Port (record { change_error = 2; change_time = Some 12000; enabled = true; pending = false }))) }
    ensures gate_octets { (shown_at (book_of gate_runs) (Gate 0) (Some closed_gate) 500 ≡ Some (states.Gate true (Some 5))) ×
        (shown_at (book_of gate_runs) (Gate 0) (Some closed_gate) 1500 ≡ Some (states.Gate false None)) }
    ensures gate_octets_frames { (answers (with_rows 0 rows_new) (frame_of 10 100)
        ≡ Some (Framed (Passed (Some 0) 10 5 false), with_rows 10 rows_1)) ×
        (answers (with_rows 10 rows_1) (frame_of 20 60) ≡ Some (Framed (Dropped 0 20 Octets), with_rows 20 rows_2)) ×
        (answers (with_rows 20 rows_2) (frame_of 2010 10) ≡ Some (Framed (Dropped 0 2010 Closed), with_rows 2010 rows_3)) ×
        (counted_at (book_of gate_runs) rows_3 2010 (Gate 0) ≡
        Some (counters.Gate (record { change_error = 0; change_time = Some 0; enabled = true; pending = false }) false true)) }
{}
