//! Laws of the bucket, and worked examples computed of the definitions alone, as functions whose contracts state them.
//! Their bodies are empty.
ghost use Rattle.std.specs.Prelude.{◌≡◌, ℕ, ◌+◌, ◌-◌, ◌*◌, ◌≤◌, List, [], ◌∷◌, ◌++◌, false, true};
ghost use Rattle.tsn_types.specs.declared.records.FlowMeter.{FlowMeter};
ghost use Rattle.tsn_meter.specs.declared.bucket.Colour.{Colour as AnyColour};
ghost use Rattle.tsn_meter.specs.declared.bucket.Colour.TheVariants.{Green, Yellow, Red};
ghost use Rattle.tsn_meter.specs.Bucket.{Tokens, Event, IsWithin, after, bucket, clipped, colour_of, full_of, marked, record_of, refilled, tokens};
ghost use Rattle.tsn_meter.specs.Colours.{is_green, is_passed, is_yellow};
ghost use Rattle.tsn_meter.specs.Examples.{aware_sizes, committed_only, five, green_at, left_by, marks_from_full, three, two_sizes};
ghost use Rattle.tsn_meter.specs.Rates.{Arrival, IsRising, end_of, octets_marked};

/// What a planner relies on: over frames marked by one record, whose instants do not fall and with no clip between,
/// from whatever bucket, the octets marked green are at most the committed size and what the committed rate brings from
/// the first frame to the last. Those marked green or yellow are at most both sizes and what both rates bring. Those
/// marked yellow are at most the excess size and what both rates bring: with the coupling flag, what the committed rate
/// brings too much pays for them too. Octets and sizes count in tokens, 8 * 10^9 for each; rates in tokens a
/// nanosecond.
pub fn rates()
    ensures green { (m : FlowMeter) (b : Tokens) (f : Arrival) (fs : List Arrival) → IsRising f.time fs →
        tokens (octets_marked is_green m b (f ∷ fs)) ≤ tokens m.cbs + m.cir * (end_of f.time fs - f.time) }
    ensures passed { (m : FlowMeter) (b : Tokens) (f : Arrival) (fs : List Arrival) → IsRising f.time fs →
        tokens (octets_marked is_passed m b (f ∷ fs)) ≤ tokens m.cbs + tokens m.ebs + (m.cir + m.eir) * (end_of f.time fs - f.time) }
    ensures yellow { (m : FlowMeter) (b : Tokens) (f : Arrival) (fs : List Arrival) → IsRising f.time fs →
        tokens (octets_marked is_yellow m b (f ∷ fs)) ≤ tokens m.ebs + (m.cir + m.eir) * (end_of f.time fs - f.time) }
{}

/// Of one event: it gives the next value of the fold. A full bucket, and a bucket after any mark or clip, holds no more
/// than the sizes of that event's record. A red frame takes nothing: it leaves what the refill gives.
pub fn events()
    ensures next { (m : FlowMeter) (now : ℕ) (events : List Event) (e : Event) →
        bucket m now (events ++ e ∷ []) ≡ after (bucket m now events) e }
    ensures full_is_within { (m : FlowMeter) (now : ℕ) → IsWithin m (full_of m now) }
    ensures is_within { (b : Tokens) (e : Event) → IsWithin (record_of e) (after b e) }
    ensures red_takes_nothing { (m : FlowMeter) (now octets : ℕ) (colour : AnyColour) (b : Tokens) →
        colour_of m now octets colour b ≡ Red → marked m now octets colour b ≡ refilled m now b }
{}

/// Worked examples: a bucket that is short of tokens and one that has exactly enough; committed tokens that flow over
/// into the excess, or are lost; a clip.
pub fn examples()
    ensures meter_and_counters { (marks_from_full (committed_only 1500) three ≡ Green ∷ Red ∷ Green ∷ []) ×
        ((left_by (committed_only 1500) (full_of (committed_only 1500) 0) (green_at 0 1000 ∷ green_at 100000 1000 ∷ [])).committed
        ≡ 4800000000000) ×
        ((left_by (committed_only 1500) (full_of (committed_only 1500) 0) three).committed ≡ 0) }
    ensures coupled_buckets { (marks_from_full (two_sizes true) five ≡ Green ∷ Yellow ∷ Red ∷ Green ∷ Yellow ∷ []) ×
        (marks_from_full (two_sizes false) five ≡ Green ∷ Yellow ∷ Red ∷ Green ∷ Red ∷ []) }
    ensures clip { let clipped_once : Tokens = clipped (committed_only 250)
        (left_by (committed_only 1500) (full_of (committed_only 1500) 0) (green_at 0 1000 ∷ [])) in
        (colour_of (committed_only 250) 0 250 Green clipped_once ≡ Green) ×
        (colour_of (committed_only 250) 0 1 Green (marked (committed_only 250) 0 250 Green clipped_once) ≡ Red) }
    // a drop eligible frame tries the excess alone where colours count, and a red one neither; in blind mode it is as
    // any other
    ensures modes { (colour_of aware_sizes 0 100 Yellow (full_of aware_sizes 0) ≡ Yellow) ×
        (colour_of aware_sizes 0 0 Red (full_of aware_sizes 0) ≡ Red) ×
        (colour_of (two_sizes false) 0 100 Yellow (full_of (two_sizes false) 0) ≡ Green) }
{}
