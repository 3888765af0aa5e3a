//! Laws of the text of a journal file and of its reading, as functions whose contracts state them. Their bodies are
//! empty.
ghost use Rattle.std.specs.Prelude.{◌≡◌, ◌≢◌, ◌⊎◌, ℕ, ◌≤◌, ◌++◌, List, [], ◌∷◌, All, length, take, drop};
ghost use Rattle.tsn_recorded.specs.declared.end.End.{End as AnyEnd};
ghost use Rattle.tsn_recorded.specs.declared.end.End.TheVariants.{Damaged};
ghost use Rattle.tsn_recorded.specs.Collisions.{Collision};
ghost use Rattle.tsn_recorded.specs.Text.{Recorded, IsRecorded, IsRecordedAfter, AreRecordedAfter, IsShort, body_of, digest_after, last_digest};
ghost use Rattle.tsn_recorded.specs.Text.{line_feed, longest_command_after, longest_stamp, text_after, text_of};
ghost use Rattle.tsn_recorded.specs.Reading.{IsEnd, Reads, recorded_within};

/// What may be recorded behind a digest: what has no line feed, no space in its stamp, and is no longer than it may be.
pub fn fits()
    ensures one { (last : List ℕ) (r : Recorded) → IsRecorded r →
        length r.stamp ≤ longest_stamp → length r.command ≤ longest_command_after last → IsRecordedAfter last r }
    ensures all { (last : List ℕ) (rs : List Recorded) → All IsRecorded rs → All IsShort rs → AreRecordedAfter last rs }
    ensures recorded { (last : List ℕ) (rs : List Recorded) → AreRecordedAfter last rs → All IsRecorded rs }
{}

/// Bytes read in one way only: the recorded commands, the rest behind them, and which end that is. Whatever lines
/// verify at their front are a front of those that are read, which so are the most that do.
pub fn one_reading()
    ensures recorded { (last bytes : List ℕ) (rs others : List Recorded) (rest other : List ℕ) →
        Reads last bytes rs rest → Reads last bytes others other → (rs ≡ others) × (rest ≡ other) }
    ensures longest { (last bytes : List ℕ) (rs others : List Recorded) (rest other : List ℕ) →
        Reads last bytes rs rest → AreRecordedAfter last others → bytes ≡ text_after last others ++ other →
        (more : List Recorded) × (rs ≡ others ++ more) }
    ensures end { (count : ℕ) (rest : List ℕ) (one other : AnyEnd) →
        IsEnd count rest one → IsEnd count rest other → one ≡ other }
{}

/// The text of any recorded commands reads back whole, as these.
pub fn reads_back()
    ensures { (last : List ℕ) (rs : List Recorded) → AreRecordedAfter last rs → Reads last (text_after last rs) rs [] }
{}

/// A text cut after any byte reads, by whoever reads it, as the lines that lie whole in it, which are a front of all;
/// what is left behind them has no line feed, so the end is whole or unfinished and never damaged. More bytes with no
/// line feed behind the cut, as zero bytes are, change nothing of it.
pub fn reads_cut()
    ensures reads { (last : List ℕ) (rs : List Recorded) (n : ℕ) → AreRecordedAfter last rs →
        (rest : List ℕ) × Reads last (take n (text_after last rs)) (recorded_within last n rs) rest
        × All (λ b. b ≢ line_feed) rest }
    ensures only { (last : List ℕ) (rs : List Recorded) (n : ℕ) (others : List Recorded) (rest : List ℕ) →
        AreRecordedAfter last rs → Reads last (take n (text_after last rs)) others rest →
        (others ≡ recorded_within last n rs) × All (λ b. b ≢ line_feed) rest }
    ensures front { (last : List ℕ) (rs : List Recorded) (n : ℕ) →
        (others : List Recorded) × (rs ≡ recorded_within last n rs ++ others) }
    ensures end { (count line : ℕ) (rest : List ℕ) →
        All (λ b. b ≢ line_feed) rest → ¬ IsEnd count rest (Damaged line) }
    ensures torn { (last bytes : List ℕ) (rs : List Recorded) (rest tail : List ℕ) → Reads last bytes rs rest →
        All (λ b. b ≢ line_feed) rest → All (λ b. b ≢ line_feed) tail → Reads last (bytes ++ tail) rs (rest ++ tail) }
{}

/// Recorded commands behind others: their text goes on from the last digest.
pub fn appends()
    ensures text { (last : List ℕ) (rs more : List Recorded) →
        text_after last (rs ++ more) ≡ text_after last rs ++ text_after (last_digest last rs) more }
    ensures digest { (last : List ℕ) (rs more : List Recorded) →
        last_digest last (rs ++ more) ≡ last_digest (last_digest last rs) more }
    ensures recorded { (last : List ℕ) (rs more : List Recorded) → AreRecordedAfter last rs →
        AreRecordedAfter (last_digest last rs) more → AreRecordedAfter last (rs ++ more) }
{}

/// What is cut off behind the verified lines of any bytes is gone, and what is recorded there reads back whole with
/// them.
#[tactic(auto, using(crate::proofs::Readings::continues))]
pub fn continues()
    ensures { (bytes : List ℕ) (rs more : List Recorded) (n : ℕ) →
        Reads [] bytes rs (drop n bytes) → AreRecordedAfter (last_digest [] rs) more →
        Reads [] (take n bytes ++ text_after (last_digest [] rs) more) (rs ++ more) [] }
{}

/// What the digests show, unless two texts are at hand that have one digest. A line that lost, gained or changed what
/// stands ahead of it does not verify; nor does a digest with another line's text; and the last digest with the number
/// of lines stands for all of them.
pub fn chain()
    ensures place { (last other : List ℕ) (r : Recorded) → text_of last r ≡ text_of other r → (last ≡ other) ⊎ Collision }
    ensures recorded { (last : List ℕ) (r q : Recorded) → IsRecorded r → IsRecorded q →
        digest_after last (body_of r) ≡ digest_after last (body_of q) → (r ≡ q) ⊎ Collision }
    ensures all { (rs qs : List Recorded) → All IsRecorded rs → All IsRecorded qs → length rs ≡ length qs →
        last_digest [] rs ≡ last_digest [] qs → (rs ≡ qs) ⊎ Collision }
{}
