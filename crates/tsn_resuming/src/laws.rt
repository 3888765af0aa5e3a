//! Laws of the first command and of what is resumed, as functions whose contracts state them. Their bodies are empty.
ghost use Rattle.std.specs.Prelude.{◌≡◌, ◌≢◌, ◌≤◌, ℕ, List, All, Ok, Option, length, true};
ghost use Rattle.std.specs.Str.{is_utf8};
ghost use Rattle.tsn_recorded.specs.Text.{line_feed, longest_first_command};
ghost use Rattle.tsn_setup.specs.Setups.{longest_setup};
ghost use Rattle.tsn_types.specs.declared.refusals.Refusal.{Refusal as AnyRefusal};
ghost use Rattle.tsn_resuming.specs.First.{first_text, setup_in};
ghost use Rattle.tsn_resuming.specs.Joining.{WasWritten};
ghost use Rattle.tsn_resuming.specs.Resuming.{IsRefusedAt};

/// The first command of a text has that text.
#[tactic(auto, using(crate::proofs::Firsts::setup_back))]
pub fn setup_comes_back()
    ensures { (setup : List ℕ) → is_utf8 setup ≡ true → setup_in (first_text setup) ≡ Ok setup }
{}

/// The first command of any text is one line, and that of a text no longer than a setup has room in a first line.
#[tactic(auto, using(crate::proofs::Firsts::first_within, crate::proofs::Firsts::first_is_one_line))]
pub fn first_fits()
    ensures within { (setup : List ℕ) → length setup ≤ longest_setup → length (first_text setup) ≤ longest_first_command }
    ensures one_line { (setup : List ℕ) → All (λ b. b ≢ line_feed) (first_text setup) }
{}

/// What a bridge with a recorder has written behind a first command, in any number of runs, is resumed: no line of it
/// is ever refused, but for want of memory, which is the fault `Memory`.
pub fn written_is_resumed()
    ensures { (file after : Option (List ℕ)) (line : ℕ) (why : AnyRefusal) → WasWritten file → ¬ IsRefusedAt file after line why }
{}
