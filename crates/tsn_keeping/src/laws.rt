//! Laws of what was entered, and of what a crash leaves of it, as functions whose contracts state them. Their bodies
//! are empty.
ghost use Rattle.std.specs.Prelude.{◌≡◌, ℕ, ◌++◌, List, [], ◌∷◌};
ghost use Rattle.tsn_device.specs.Kept.{LeavesFront, LeavesKept};
ghost use Rattle.tsn_recorded.specs.Text.{Recorded, IsRecordedAfter, AreRecordedAfter, last_digest, text_after};
ghost use Rattle.tsn_recorded.specs.Reading.{Reads};
ghost use Rattle.tsn_keeping.specs.Keeping.{Keeping, HasEntered, with_entered, with_settled};

/// What a keeper's calls make of what was entered: from nothing, one command more, and all of them settled.
pub fn enters()
    ensures none { (k : Keeping) → k.unsettled ≡ [] → HasEntered k.kept k.last [] [] k }
    ensures one { (had first : List ℕ) (settled others : List Recorded) (r : Recorded) (k : Keeping) →
        HasEntered had first settled others k → IsRecordedAfter k.last r →
        HasEntered had first settled (others ++ r ∷ []) (with_entered r k) }
    ensures settled { (had first : List ℕ) (settled others : List Recorded) (k : Keeping) →
        HasEntered had first settled others k → HasEntered had first (settled ++ others) [] (with_settled k) }
{}

/// What a crash leaves of a journal. Its file had these bytes ahead of the device's, which with what the device had are
/// the text of recorded commands. Where what the device keeps is left, and behind it anything, whoever reads the file
/// is given all those commands, then all that were settled, and maybe more; where it is a front of what was entered,
/// some of the others, in order from their first on, and no more.
pub fn survives()
    ensures settled { (ahead had left rest : List ℕ) (before settled others found : List Recorded) (k : Keeping) →
        AreRecordedAfter [] before → ahead ++ had ≡ text_after [] before →
        HasEntered had (last_digest [] before) settled others k →
        LeavesKept k.kept left → Reads [] (ahead ++ left) found rest →
        (more : List Recorded) × (found ≡ (before ++ settled) ++ more) }
    ensures front { (ahead had left rest : List ℕ) (before settled others found : List Recorded) (k : Keeping) →
        AreRecordedAfter [] before → ahead ++ had ≡ text_after [] before →
        HasEntered had (last_digest [] before) settled others k →
        LeavesFront k.kept k.unsettled left → Reads [] (ahead ++ left) found rest →
        (some more : List Recorded) × (found ≡ (before ++ settled) ++ some) × (others ≡ some ++ more) }
{}
