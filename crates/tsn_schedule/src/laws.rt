//! Laws of the calendar, and worked examples computed of the definitions alone, as functions whose contracts state
//! them. Their bodies are empty.
ghost use Rattle.std.specs.Prelude.{◌≡◌, ◌-◌, ◌%◌, ◌≤◌, ◌<◌, ℕ, Some, None, true, false, List, [], ◌∷◌, MatchOption};
ghost use Rattle.std.specs.Option.{option_map};
ghost use Rattle.tsn_schedule.specs.Acts.{Act, Enable, Apply, IsHistory, last_instant};
ghost use Rattle.tsn_schedule.specs.Entries.{entry_at, earlier_at};
ghost use Rattle.tsn_schedule.specs.Examples.{plan, one_two, open_shut, gates_at, began_at, ahead, with_cycle, extended, second, third, replaced, restored, ahead_again, disabled, enabled, gate_acts, gate_states, gate_begins};
ghost use Rattle.tsn_schedule.specs.Meaning.{IsChangeTime, IsLatestStart, IsEntryAt};
ghost use Rattle.tsn_schedule.specs.Refusing.{apply_refusal};
ghost use Rattle.tsn_schedule.specs.Counters.{change_in, errors_in, past_bases, is_pending, greatest_count};
ghost use Rattle.tsn_schedule.specs.Starts.{Start, in_force};
ghost use Rattle.tsn_schedule.specs.States.{cycle_start, state_in};
ghost use Rattle.tsn_schedule.specs.Times.{change_of};
ghost use Rattle.tsn_types.specs.declared.records.PortEntry.{PortEntry as AnyPortEntry};
ghost use Rattle.tsn_types.specs.declared.records.Schedule.{Schedule as AnySchedule};
ghost use Rattle.tsn_types.specs.declared.refusals.Refusal.TheVariants.{NotEnabled, EmptyList};

/// The change time is the least instant on the base's grid of cycles that isn't before the act. The entry at an offset
/// has the offset between the sum of the intervals before it and that with its own, or is the last; only an empty list
/// has none. The cycle start from which offsets count is the latest that took place. A list whose base is past gives
/// its own states by the offset from its base. Where nothing is pending, the change time that is told is that of the
/// list in force. A count of errors that is at its greatest stays there.
pub fn calendar<E>()
    ensures change { (base cycle a : ℕ) → 0 < cycle → IsChangeTime base cycle a (change_of base cycle a) }
    ensures entry { (interval : E → ℕ) (list : List E) (offset : ℕ) →
        MatchOption (entry_at interval list offset) (list ≡ [])
        (λ entry. IsEntryAt interval list offset (earlier_at interval list offset) entry) }
    ensures cycle_start { (acts : List (Act E)) (t : ℕ) (start : Start E) →
        IsHistory acts → in_force acts t ≡ Some start → IsLatestStart start t (cycle_start start t) }
    ensures restored { (interval : E → ℕ) (schedule : AnySchedule E) (acts : List (Act E)) (a t : ℕ) →
        IsHistory (Apply schedule a ∷ acts) → schedule.base ≤ a → change_of schedule.base schedule.cycle a ≤ t →
        state_in interval (Apply schedule a ∷ acts) t ≡ entry_at interval schedule.list ((t - schedule.base) % schedule.cycle) }
    ensures told { (acts : List (Act E)) (t : ℕ) → IsHistory acts → is_pending acts t ≡ false
        → change_in acts ≡ option_map (λ start. start.change) (in_force acts t) }
    ensures errors { (act : Act E) (acts : List (Act E)) → errors_in acts ≡ greatest_count → errors_in (act ∷ acts) ≡ greatest_count }
{}

/// Worked examples: when lists change, which entry each instant has, what an extension holds back, and what is counted.
pub fn examples()
    ensures changeover_ahead { (change_in {E = AnyPortEntry} (Enable 0 ∷ []) ≡ None) × (change_in ahead ≡ Some 3000)
        × (last_instant ahead ≡ 2500) ×
        (gates_at ahead (2999 ∷ 3000 ∷ 3299 ∷ 3300 ∷ 4000 ∷ []) ≡ None ∷ Some 1 ∷ Some 1 ∷ Some 128 ∷ Some 1 ∷ []) }
    ensures short_and_long_cycles { (change_in (with_cycle 1200) ≡ Some 0) ×
        (gates_at (with_cycle 1200) (1100 ∷ 1200 ∷ []) ≡ Some 128 ∷ Some 1 ∷ []) ×
        (gates_at (with_cycle 800) (799 ∷ 800 ∷ []) ≡ Some 128 ∷ Some 1 ∷ []) }
    ensures cycle_extension { (change_in (second 200) ≡ Some 5150) ×
        (gates_at (second 200) (4000 ∷ 4999 ∷ 5000 ∷ 5149 ∷ 5150 ∷ []) ≡ Some 1 ∷ Some 128 ∷ Some 128 ∷ Some 128 ∷ Some 255 ∷ []) ×
        (gates_at (second 0) (5000 ∷ 5149 ∷ []) ≡ Some 1 ∷ Some 1 ∷ []) }
    ensures second_pending_dropped { (change_in (third 200 3600) ≡ Some 7000) ×
        (gates_at (third 200 3600) (5000 ∷ 5150 ∷ []) ≡ Some 1 ∷ Some 1 ∷ []) ×
        (gates_at (third 0 3600) (5000 ∷ 5150 ∷ []) ≡ Some 1 ∷ Some 1 ∷ []) }
    ensures restored_list { (change_in replaced ≡ Some 5000) × (change_in restored ≡ Some 10000) × (is_pending restored 9001 ≡ true)
        × (past_bases restored ≡ 2) ×
        (gates_at restored (9999 ∷ 10000 ∷ 10299 ∷ 10300 ∷ []) ≡ Some 0 ∷ Some 1 ∷ Some 1 ∷ Some 128 ∷ []) ×
        (change_in ahead_again ≡ Some 12000) × (is_pending ahead_again 12000 ≡ false) × (past_bases ahead_again ≡ 2) }
    ensures disable_and_enable { (change_in (Apply (plan open_shut 1000 0 0) 5200 ∷ ahead) ≡ Some 6000)
        × (change_in (disabled 5500) ≡ None) ×
        (gates_at (disabled 5500) (6000 ∷ []) ≡ None ∷ []) × (change_in (enabled 5500) ≡ Some 8000) ×
        (gates_at (enabled 5500) (7999 ∷ 8000 ∷ 8300 ∷ []) ≡ None ∷ Some 1 ∷ Some 128 ∷ []) }
    ensures gate_octets { (change_in gate_acts ≡ Some 0) × (is_pending gate_acts 0 ≡ false) × (past_bases gate_acts ≡ 0) ×
        (gate_states (500 ∷ 1500 ∷ []) ≡
        Some (record { is_open = true; ipv = Some 5; interval = 1000; octets = Some 150 }) ∷
        Some (record { is_open = false; ipv = None; interval = 1000; octets = None }) ∷ []) ×
        (gate_begins (20 ∷ 1500 ∷ 2010 ∷ []) ≡ Some 0 ∷ Some 1000 ∷ Some 2000 ∷ []) }
    ensures simple_refusals { (apply_refusal false one_two ≡ Some NotEnabled)
        × (apply_refusal {E = AnyPortEntry} false [] ≡ Some NotEnabled) ×
        (apply_refusal {E = AnyPortEntry} true [] ≡ Some EmptyList) × (apply_refusal true one_two ≡ None) }
{}

/// More examples, at the edges: a start held back, and a list set in place of a dropped one; acts at a cycle start and
/// at a change time.
pub fn examples_at_edges()
    // the change that held back the start at 5000 is dropped at 5100, and the start still did not take place
    ensures held_start_stays_held_back { (gates_at (third 200 5100) (5120 ∷ 5999 ∷ 6000 ∷ []) ≡ Some 128 ∷ Some 128 ∷ Some 1 ∷ []) ×
        (began_at (third 200 5100) 5120 ≡ Some 4300) }
    // with the same list to come at 7000, and none dropped, the start at 5000 took place
    ensures start_takes_place { gates_at (Apply (plan one_two 1000 0 7000) 5100 ∷ extended 200) (5120 ∷ []) ≡ Some 1 ∷ [] }
    // an act at the cycle start 5000 decides nothing about it; one at 4999 does
    ensures act_at_a_cycle_start { (gates_at (third 200 5000) (5000 ∷ []) ≡ Some 128 ∷ [])
        × (gates_at (third 200 4999) (5000 ∷ []) ≡ Some 1 ∷ []) }
    // an act at the change time 6000 finds the new list in force; one before drops it
    ensures disable_at_the_change_time { (gates_at (enabled 6000) (8000 ∷ []) ≡ Some 255 ∷ [])
        × (gates_at (enabled 5999) (8000 ∷ []) ≡ Some 1 ∷ []) }
    ensures apply_at_the_change_time { (past_bases (Apply (plan open_shut 1000 0 0) 3000 ∷ ahead) ≡ 1)
        × (past_bases (Apply (plan open_shut 1000 0 0) 2999 ∷ ahead) ≡ 0) }
    // a base equal to the instant changes at once, and is no error
    ensures base_at_the_instant { (change_in (Apply (plan one_two 1000 0 4000) 4000 ∷ ahead) ≡ Some 4000)
        × (past_bases (Apply (plan one_two 1000 0 4000) 4000 ∷ ahead) ≡ 0) }
    // an extension of several cycles holds back several starts, and never the first one
    ensures long_extension { (gates_at (Apply (plan open_shut 1000 0 6150) 3500 ∷ extended 2500) (3999 ∷ 4000 ∷ 6149 ∷ 6150 ∷ []) ≡ Some 128
        ∷ Some 128 ∷ Some 128 ∷ Some 255 ∷ []) ×
        (gates_at (Apply (plan open_shut 1000 0 6150) 3000 ∷ extended 2500) (3000 ∷ []) ≡ Some 1 ∷ []) }
    // an apply before an enable's start makes it void: nothing is in force until the apply's change time
    ensures restart_made_void { (change_in (Apply (plan open_shut 1000 0 9000) 7200 ∷ enabled 5500) ≡ Some 9000) ×
        (gates_at (Apply (plan open_shut 1000 0 9000) 7200 ∷ enabled 5500) (8000 ∷ 8999 ∷ 9000 ∷ []) ≡ None ∷ None ∷ Some 255 ∷ []) }
{}
