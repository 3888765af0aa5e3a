//! Laws of the definitions, for a reader who wants to know that they say what they seem to.
ghost use Rattle.std.specs.Prelude.{◌≡◌, ℕ, ◌≤◌, ◌<◌, List, [], ◌∷◌, ◌++◌, length, codes, Some, None};
ghost use Rattle.tsn_serve.specs.Lines.{Splits, last_line, longest_line, short_line};
ghost use Rattle.tsn_serve.specs.Script.{Run};
ghost use Rattle.tsn_serve.specs.Served.{IsServed};
ghost use Rattle.tsn_serve.specs.Talk.{Caller, Talks};

/// Bytes are cut into lines in one way, so a script has one list of lines.
pub fn one_cut()
    ensures { (bytes : List ℕ) (lines others : List (List ℕ)) (rest other : List ℕ) →
        Splits bytes lines rest → Splits bytes others other → (lines ≡ others) × (rest ≡ other) }
{}

/// Texts and their lines, worked by hand.
pub fn example_cuts()
    ensures nothing { Splits [] [] [] }
    ensures open_line { Splits (codes "a\nb") (codes "a" ∷ []) (codes "b")
        × (last_line (codes "b") ≡ codes "b" ∷ []) }
    ensures empty_line { Splits (codes "a\n\nb\n") (codes "a" ∷ [] ∷ codes "b" ∷ []) []
        × (last_line [] ≡ []) }
    ensures longest { (line : List ℕ) → length line ≤ longest_line → short_line line ≡ Some line }
    ensures too_long { (line : List ℕ) → longest_line < length line → short_line line ≡ None }
{}

/// What a connection does with its lines, as `session` tells it line by line, is told outright: there is an exchange
/// for each line, the text is that of their replies, and the calls are all the new calls of the seat, one for each line
/// that may ask and each once; the history then seen is legal and has just these and the earlier ones under the seat's
/// number.
pub fn served()
    ensures { (old new : Caller) (lines : List (List ℕ)) (text : List ℕ) →
        Run Talks old lines text new → IsServed old lines text new }
{}
