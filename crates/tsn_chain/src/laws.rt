//! Laws of instance data, and worked examples computed of the definitions alone, as functions whose contracts state
//! them. Their bodies are empty.
ghost use Rattle.std.specs.List.{IsDistinct};
ghost use Rattle.std.specs.Prelude.{◌≡◌, ℕ, [], ◌∷◌, Option, Some, None, false, true, option_map};
ghost use Rattle.std.specs.FinMap as map;
ghost use Rattle.tsn_types.specs.declared.limits.Limits.{Limits as AnyLimits};
ghost use Rattle.tsn_edit.specs.Changes.{Fits, Stands, after_change, keys_of};
ghost use Rattle.tsn_edit.specs.Configuration.{Configuration, IsWellKept};
ghost use Rattle.tsn_edit.specs.Parts.{Change, parts};
ghost use Rattle.tsn_types.specs.Keys.{same_key};
ghost use Rattle.tsn_schedule.specs.Acts.{Act};
ghost use Rattle.tsn_schedule.specs.Examples.{gate_acts};
ghost use Rattle.tsn_types.specs.declared.keys.Key.{Key as AnyKey};
ghost use Rattle.tsn_types.specs.declared.records.GateEntry.{GateEntry as AnyGateEntry};
ghost use Rattle.tsn_types.specs.declared.records.PortEntry.{PortEntry as AnyPortEntry};
ghost use Rattle.tsn_types.specs.declared.records.Record.{Record as AnyRecord};
ghost use Rattle.tsn_chain.specs.declared.data.Metered.{Metered};
ghost use Rattle.tsn_chain.specs.declared.frame.DropCause.TheVariants.{Blocked, Closed, Octets, Oversize, Red};
ghost use Rattle.tsn_chain.specs.declared.frame.Verdict.TheVariants.{Dropped, Passed};
ghost use Rattle.tsn_chain.specs.Acts.{KeyActs, KeyApplies};
ghost use Rattle.tsn_chain.specs.Begun.{AreFresh, begun_frames, begun_runners};
ghost use Rattle.tsn_chain.specs.Examples.{filter_0, filter_3, five, frame_of, left_by, meter_with, no_meter, short_filter, three, two_sizes, verdicts, with_meter_new};
ghost use Rattle.tsn_chain.specs.Following.{AreOfKind, frames_after, runners_after};
ghost use Rattle.tsn_chain.specs.Instances.{FrameData, HasKeys, Runners};
ghost use Rattle.tsn_chain.specs.Standing.{Histories, Stand, histories_after, histories_applied, histories_with};

/// The keys of instance data are those of the changes that it followed. At first it has none; that of a configuration
/// has just its keys, and no runner of it was acted on. It keeps the keys of a
/// configuration where both follow a change on distinct keys whose values before stand and whose values after are of
/// their key's kind, as every change that fits does. Acts leave the keys.
pub fn keys()
    ensures beginning { HasKeys (record { ports = map.empty; gates = map.empty })
        (record { filters = map.empty; gates = map.empty; meters = map.empty }) map.empty }
    ensures begun { (l : AnyLimits) (c : Configuration) → IsWellKept l c
        → HasKeys (begun_runners c) (begun_frames c) c × AreFresh (begun_runners c) }
    ensures following { (c : Configuration) (r : Runners) (f : FrameData) (now : ℕ) (e : Change) → HasKeys r f c
        → IsDistinct same_key (keys_of (parts e)) → Stands c (parts e) → AreOfKind (parts e) →
        HasKeys (runners_after r e) (frames_after now f e) (after_change c e) }
    ensures fitting { (l : AnyLimits) (c : Configuration) (r : Runners) (f : FrameData) (now : ℕ) (e : Change) → HasKeys r f c
        → Fits l c e →
        HasKeys (runners_after r e) (frames_after now f e) (after_change c e) }
    ensures acting { (old new : Runners) (f : FrameData) (c : Configuration) (key : AnyKey) (p : Act AnyPortEntry) (g : Act AnyGateEntry)
        → HasKeys old f c → KeyActs old key p g new → HasKeys new f c }
    ensures applying { (old new : Runners) (f : FrameData) (c : Configuration) (key : AnyKey) (v : Option AnyRecord) (a : ℕ)
        → HasKeys old f c → KeyApplies old key v a new → HasKeys new f c }
{}

/// Whatever changes and acts the instance data went through, there are acts for which its runners stand, those of each
/// port and gate since it was created. So what is promised for whatever acts the runners stand is never empty.
pub fn standing()
    ensures beginning { Stand (record { ports = map.empty; gates = map.empty }) (record { ports = λ n. []; gates = λ n. [] }) }
    ensures following { (r : Runners) (h : Histories) (e : Change) → Stand r h → Stand (runners_after r e) (histories_after h e) }
    ensures acting { (old new : Runners) (h : Histories) (key : AnyKey) (p : Act AnyPortEntry) (g : Act AnyGateEntry) → Stand old h
        → KeyActs old key p g new → Stand new (histories_with h key p g) }
    ensures applying { (old new : Runners) (h : Histories) (key : AnyKey) (v : Option AnyRecord) (a : ℕ) → Stand old h
        → KeyApplies old key v a new → Stand new (histories_applied h key v a) }
{}

/// Worked examples: a meter with its counters and its flag, coupled buckets, the octets of an interval, and a stream
/// that is blocked.
pub fn examples()
    ensures meter_and_counters { (verdicts filter_3 (with_meter_new (meter_with false)) three ≡ Passed (Some 3) 0 2 false
        ∷ Dropped 3 100000 Red ∷ Passed (Some 3) 500000 2 false ∷ []) ×
        ((left_by filter_3 (with_meter_new (meter_with false)) three).filter ≡
        record { blocked = false; matching = 3; not_passing = 0; not_passing_sdu = 0; passing = 3; passing_sdu = 3; red = 1 }) }
    ensures all_red { (verdicts filter_3 (with_meter_new (meter_with true)) three ≡ Passed (Some 3) 0 2 false ∷ Dropped 3 100000 Red
        ∷ Dropped 3 500000 Red ∷ []) ×
        (option_map (λ (q : Metered). q.kept.red) (left_by filter_3 (with_meter_new (meter_with true)) three).meter ≡ Some true) }
    ensures coupled_buckets { (verdicts filter_3 (with_meter_new (two_sizes true)) five ≡
        Passed (Some 3) 0 2 false ∷ Passed (Some 3) 0 2 true ∷ Dropped 3 0 Red ∷ Passed (Some 3) 150000 2 false
        ∷ Passed (Some 3) 150000 2 true ∷ []) ×
        (verdicts filter_3 (with_meter_new (two_sizes false)) five ≡
        Passed (Some 3) 0 2 false ∷ Passed (Some 3) 0 2 true ∷ Dropped 3 0 Red ∷ Passed (Some 3) 150000 2 false ∷ Dropped 3 150000 Red
        ∷ []) }
    ensures gate_octets { (verdicts (filter_0 true gate_acts) no_meter (frame_of 10 100 ∷ frame_of 20 60 ∷ frame_of 2010 10 ∷ []) ≡
        Passed (Some 0) 10 5 false ∷ Dropped 0 20 Octets ∷ Dropped 0 2010 Closed ∷ []) ×
        ((left_by (filter_0 true gate_acts) no_meter (frame_of 10 100 ∷ frame_of 20 60 ∷ frame_of 2010 10 ∷ [])).gate ≡
        record { invalid_rx = false; octets_exceeded = true; used = 100; began = Some 0 }) }
    ensures gate_octets_not_latched { verdicts (filter_0 false gate_acts) no_meter
        (frame_of 10 100 ∷ frame_of 20 60 ∷ frame_of 30 50 ∷ frame_of 1500 10 ∷ frame_of 2010 100 ∷ []) ≡
        Passed (Some 0) 10 5 false ∷ Dropped 0 20 Octets ∷ Passed (Some 0) 30 5 false ∷ Dropped 0 1500 Closed ∷ Passed (Some 0) 2010 5 false
        ∷ [] }
    ensures oversize_blocks { (verdicts short_filter no_meter (frame_of 0 101 ∷ frame_of 0 50 ∷ []) ≡ Dropped 0 0 Oversize
        ∷ Dropped 0 0 Blocked ∷ []) ×
        ((left_by short_filter no_meter (frame_of 0 101 ∷ frame_of 0 50 ∷ [])).filter ≡
        record { blocked = true; matching = 2; not_passing = 0; not_passing_sdu = 1; passing = 0; passing_sdu = 0; red = 0 }) }
{}
