//! Laws of what is recorded and of its replay, as functions whose contracts state them. Their bodies are empty.
ghost use Rattle.std.specs.Prelude.{◌≡◌, ◌<◌, ◌≤◌, ◌++◌, ◌∷◌, ℕ, [], true, List, Option, Some};
ghost use Rattle.tsn_types.specs.declared.keys.Key.{Key as AnyKey};
ghost use Rattle.tsn_types.specs.declared.keys.Key.TheVariants.{Port};
ghost use Rattle.tsn_types.specs.declared.limits.Limits.{Limits as AnyLimits};
ghost use Rattle.tsn_types.specs.declared.records.Record.{Record as AnyRecord};
ghost use Rattle.tsn_types.specs.declared.refusals.Refusal.{Refusal as AnyRefusal};
ghost use Rattle.tsn_types.specs.declared.refusals.Refusal.TheVariants.{Memory};
ghost use Rattle.tsn_schedule.specs.Counters.{is_pending};
ghost use Rattle.tsn_entries.specs.declared.entries.Act.{Act as AnyAct};
ghost use Rattle.tsn_chain.specs.declared.state.Counters.TheVariants as counters;
ghost use Rattle.tsn_chain.specs.Counters.{list_counters};
ghost use Rattle.tsn_commands.specs.declared.command.Ask.{Ask as AnyAsk};
ghost use Rattle.tsn_commands.specs.declared.reply.Reply.TheVariants.{Acted, Refused};
ghost use Rattle.tsn_bridge.specs.Acts.{act_rule};
ghost use Rattle.tsn_bridge.specs.Beginning.{Opens, begun};
ghost use Rattle.tsn_bridge.specs.Histories.{AreInRange, Answered, Answers, Leads};
ghost use Rattle.tsn_bridge.specs.Later.{IsWhole};
ghost use Rattle.tsn_bridge.specs.Looking.{counted_at};
ghost use Rattle.tsn_bridge.specs.Objects.{port_at};
ghost use Rattle.tsn_bridge.specs.Rule.{Allows};
ghost use Rattle.tsn_bridge.specs.State.{State};
ghost use Rattle.tsn_replay.specs.Answering.{AnswerAlike};
ghost use Rattle.tsn_replay.specs.Handling.{Handles};
ghost use Rattle.tsn_replay.specs.Lasting.{Resumes};
ghost use Rattle.tsn_replay.specs.Recorder.{Runs, text_of_all};
ghost use Rattle.tsn_replay.specs.Recording.{all_recorded, asks_of};
ghost use Rattle.tsn_replay.specs.Replaying.{Comes, IsReplayed, LeadsBack, Life, Lives, Replays};

/// Replayed. Whatever sessions ask of a bridge that begins with a setup, the replay of what was recorded leads back:
/// each recorded command may be answered again as it was; what lasts is then as it was; no replay in which each is
/// accepted comes to another state; and none is ever refused but for want of memory. So it is of all that was recorded,
/// and of any front of it, which leads back to the moment at which just this front was recorded. Nothing is asked of
/// the limits or of what the setup has. It holds from every state, also of a bridge with a recorder, which refuses some
/// that the machine would not.
pub fn replayed()
    ensures replayed { (limits : AnyLimits) (records : List (AnyKey × AnyRecord)) (asks : List Answered) (now : State) →
        Leads (begun limits records) asks now → IsReplayed Answers (begun limits records) asks now }
    ensures with_a_recorder { (line : AnyAsk → List ℕ) (most : ℕ) (start : State) (asks : List Answered) (now : State) →
        Comes (Handles line most) start asks now → IsReplayed (Handles line most) start asks now }
{}

/// Run after run: each ends at any moment, with any front of what was written kept, and the next begins with the replay
/// of that. After any number of them the replay of what was written leads back to the present state.
pub fn lived()
    ensures { (line : AnyAsk → List ℕ) (most : ℕ) (start now : State) (lives : List Life) (written : List Answered) →
        Lives (Handles line most) start start [] lives now written → LeadsBack start written now }
{}

/// Of what was written in any number of runs, of which any front stayed at each end, only want of memory refuses a
/// recorded command when its turn comes in a replay.
pub fn only_memory_refuses()
    ensures { (line : AnyAsk → List ℕ) (most : ℕ) (start now : State) (lives : List Life) (written : List Answered) →
        Lives (Handles line most) start start [] lives now written →
        (done : List AnyAsk) (ask : AnyAsk) (rest : List AnyAsk) (between new : State) (why : AnyRefusal) →
        asks_of written ≡ done ++ ask ∷ rest → Replays start done between → Answers between ask (Refused why) new → why ≡ Memory }
{}

/// Step after step: a replay goes on with another one.
pub fn replay_goes_on()
    ensures { (done rest : List AnyAsk) (start between now : State) →
        Replays start done between → Replays between rest now → Replays start (done ++ rest) now }
{}

/// A state in which all that lasts is as it was at a moment answers as it would have then: every hello, edit, undo,
/// undo of all, redo and settle, every look but that at counters, the gate states at every instant among them, and
/// every act at an instant not before the bridge time of then.
pub fn answers_alike()
    ensures { (moment again : State) → Resumes moment again → AnswerAlike moment again }
{}

/// What is recorded of what a bridge was asked. A replay that records writes the same again; numbers are in their
/// ranges, where those of what was asked are; so a bridge that was come to by a replay is whole, and all that is said
/// of whole bridges holds of it.
pub fn records_are_sound()
    ensures again { (line : AnyAsk → List ℕ) (most : ℕ) (start : State) (asks : List Answered) (now : State) →
        Comes (Handles line most) start asks now → all_recorded (all_recorded asks) ≡ all_recorded asks }
    ensures in_range { (asks : List Answered) → AreInRange asks → AreInRange (all_recorded asks) }
    ensures whole { (limits : AnyLimits) (records : List (AnyKey × AnyRecord)) (front : List Answered) (moment : State) →
        Opens limits records → AreInRange front → (back : LeadsBack (begun limits records) front moment) → IsWhole back.again }
{}

/// Whatever a recorder was asked, and whenever its text was taken away between: what its turns put behind the text is
/// just the recorded commands, a line each, and the replay of these leads back to its bridge.
pub fn recorder_leads_back()
    ensures { (line : AnyAsk → List ℕ) (most : ℕ) (start : State) (asks : List Answered) (now : State) (told : List ℕ) →
        Runs line most start asks now told →
        (told ≡ text_of_all line (all_recorded asks)) × IsReplayed (Handles line most) start asks now }
{}

/// Where a recorder's turns lead its bridge, there lead also asks of the machine alone: the same, but for those that
/// were refused for their line. So all that is proved of the states to which asks lead a bridge holds of a recorder's.
/// Nothing is asked of the recorder.
pub fn theorems_stand()
    ensures { (line : AnyAsk → List ℕ) (most : ℕ) (start : State) (asks : List Answered) (now : State) (told : List ℕ) →
        Runs line most start asks now told → (others : List Answered) × AreInRange others × Leads start others now }
{}

/// What doesn't last shows. Where frames alone had moved the bridge time, an act at an instant before it counts as that
/// time, and after a replay as an earlier one. Of a port's counters all is as it was but `pending`, which may be true
/// again. What was pending is.
pub fn what_is_lost()
    ensures earlier_act { (moment again after there : State) (n m : ℕ) (act : AnyAct) (k : AnyKey) (now : ℕ)
        (change other : Option ℕ) (entry number at counted : ℕ) →
        Resumes moment again → again.time < moment.time → now < moment.time →
        Allows (act_rule moment n act k now) moment (Acted change entry at) after →
        Allows (act_rule again m act k now) again (Acted other number counted) there → counted < at }
    ensures counters { (moment again : State) (m : ℕ) → Resumes moment again →
        counted_at again.book again.frames again.time (Port m) ≡
        Some (counters.Port (record (list_counters moment.time (port_at moment.book m).acts)
        { pending = is_pending (port_at moment.book m).acts again.time })) }
    ensures pending { (moment again : State) (m : ℕ) → Resumes moment again →
        is_pending (port_at moment.book m).acts moment.time ≡ true → is_pending (port_at again.book m).acts again.time ≡ true }
{}
