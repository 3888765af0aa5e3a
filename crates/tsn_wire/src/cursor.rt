//! A place in a text that is read from its front.
ghost use Rattle.std.specs.Prelude.{◌≡◌, ◌≢◌, ◌++◌, ◌∷◌, ◌^◌, ◌<◌, ◌≤◌, ℕ, List, [], length, take, drop, decimal, true, false, IfSome, MatchOption, IsTrue};
ghost use Rattle.json.specs.Lex.{operator_lexeme, token};
ghost use Rattle.json.specs.Token.{Token};
ghost use Rattle.json.specs.Word.{is_operator, is_space, ends_word};
ghost use Rattle.tsn_wire.specs.Lexed.{lexed, is_bare};

use std::marker::Model;

/// What is left of a text.
#[derive(Drop)]
pub struct Cursor<'a> {
    text: &'a [u8],
    at: usize,
}

impl<'a> Model for Cursor<'a> {
    ghost use Rattle.std.specs.Prelude.{List, ℕ, ◌≤◌, drop, length};

    ghost Value = { List ℕ };

    ghost view = { λ c. drop c.at c.text.now };

    ghost invariant = { λ c. c.at ≤ length c.text.now };
}

// The number that the text begins with, in decimal digits with no 0 before another, and how many digits it has.
#[tactic(auto, using(crate::proofs::Places::digits_more, crate::proofs::Places::value_more, crate::proofs::Places::spell))]
fn leading_number(text: &[u8]) -> Option<(u64, usize)>
    ensures digits { IfSome result (λ p. take p.1 text.now ≡ decimal p.0) }
    ensures bound { IfSome result (λ p. (p.1 ≤ length text.now) × (p.0 < 2 ^ 64)) }
{
    let mut value: u64 = 0;
    let mut count: usize = 0;
    'digits: while count < text.len() && text[count].is_ascii_digit() {
        let digit = u64::from(text[count] - b'0');
        value = value.checked_mul(10)?.checked_add(digit)?;
        count += 1;
    }
    if count == 0 || (text[0] == b'0' && count != 1) {
        return None;
    }
    Some((value, count))
}

fn is_space(byte: u8) -> bool
    ensures { result ≡ is_space byte }
{
    byte == b' ' || byte == b'\t' || byte == b'\n' || byte == b'\r'
}

fn is_mark(byte: u8) -> bool
    ensures { result ≡ is_operator byte }
{
    byte == b'{' || byte == b'}' || byte == b'[' || byte == b']' || byte == b':' || byte == b','
}

// How many bytes of white space the text begins with.
#[tactic(auto, using(crate::proofs::Lexing::space_more))]
fn leading_space(text: &[u8]) -> usize
    ensures bound { result ≤ length text.now }
    ensures same { lexed (drop result text.now) ≡ lexed text.now }
{
    let mut count: usize = 0;
    'spaces: while count < text.len() && is_space(text[count]) {
        count += 1;
    }
    count
}

// Whether the text begins with the piece. Where another byte stands first, it says so at once; else it looks at the
// whole piece with no branch at a byte, so that the compiler compares many at a time where the piece is written out at
// the call.
#[inline(always)]
#[tactic(auto, using(crate::proofs::Places::one_more, crate::proofs::Places::mismatch, crate::proofs::Places::too_short))]
fn begins_with(text: &[u8], piece: &[u8]) -> bool
    ensures found { IsTrue result → take (length piece.now) text.now ≡ piece.now }
    ensures fits { IsTrue result → length piece.now ≤ length text.now }
    ensures missed { result ≡ false → (rest : List ℕ) → text.now ≢ piece.now ++ rest }
{
    if text.len() < piece.len() || (!piece.is_empty() && text[0] != piece[0]) {
        return false;
    }
    let mut count: usize = 0;
    let mut is_same = true;
    'bytes: while count < piece.len() {
        is_same = is_same & (text[count] == piece[count]);
        count += 1;
    }
    is_same
}

impl<'a> Cursor<'a> {
    /// All of the text is left.
    pub fn new(text: &'a [u8]) -> Cursor<'a>
        ensures { result ≡ text.now }
    {
        Cursor { text, at: 0 }
    }

    /// Goes behind the piece, where what is left begins with it.
    #[inline(always)]
    pub fn take(&mut self, piece: &str) -> bool
        ensures took { IsTrue result → self.old ≡ piece.now ++ self.new }
        ensures missed { result ≡ false → (rest : List ℕ) → self.old ≢ piece.now ++ rest }
        ensures kept { result ≡ false → self.new ≡ self.old }
    {
        if !begins_with(&self.text[self.at..], piece.as_bytes()) {
            return false;
        }
        self.at += piece.len();
        true
    }

    /// Goes behind the piece, which must come next; None exactly where it does not.
    #[inline(always)]
    pub fn expect(&mut self, piece: &str) -> Option<()>
        ensures { MatchOption result ((rest : List ℕ) → self.old ≢ piece.now ++ rest)
            (λ _. self.old ≡ piece.now ++ self.new) }
    {
        if self.take(piece) { Some(()) } else { None }
    }

    /// Goes behind a number, which must come next, spelled as the service spells it.
    pub fn number(&mut self) -> Option<u64>
        ensures { IfSome result (λ n. (self.old ≡ decimal n ++ self.new) × (n < 2 ^ 64)) }
    {
        let (value, count) = leading_number(&self.text[self.at..])?;
        self.at += count;
        Some(value)
    }

    /// Nothing must be left; None exactly where something is.
    pub fn end(&self) -> Option<()>
        ensures { MatchOption result (0 < length self.now) (λ _. self.now ≡ []) }
    {
        if self.at == self.text.len() {
            Some(())
        } else {
            None
        }
    }

    /// Goes behind white space.
    pub fn skip(&mut self)
        ensures { lexed self.new ≡ lexed self.old }
    {
        self.at += leading_space(&self.text[self.at..]);
    }

    // Goes behind the mark, where what is left begins with it.
    fn pass(&mut self, mark: u8) -> bool
        requires { is_operator mark ≡ true }
        ensures took { IsTrue result → lexed self.old ≡ operator_lexeme mark ∷ lexed self.new }
        ensures kept { result ≡ false → self.new ≡ self.old }
    {
        if self.at == self.text.len() || self.text[self.at] != mark {
            return false;
        }
        self.at += 1;
        true
    }

    /// Goes behind the mark and the white space before it, where what is left begins with them.
    pub fn mark(&mut self, mark: u8) -> bool
        requires { is_operator mark ≡ true }
        ensures took { IsTrue result → lexed self.old ≡ operator_lexeme mark ∷ lexed self.new }
        ensures kept { result ≡ false → lexed self.new ≡ lexed self.old }
    {
        // Most marks have no white space before them.
        if self.pass(mark) {
            return true;
        }
        self.skip();
        self.pass(mark)
    }

    /// Goes behind the name in quotes, where what is left begins with it.
    #[inline(always)]
    pub fn quoted(&mut self, name: &str) -> bool
        requires { is_bare name.now ≡ true }
        ensures { IsTrue result → lexed self.old ≡ token (Token.string name.now) ∷ lexed self.new }
    {
        if !self.take("\"") {
            return false;
        }
        if !self.take(name) {
            return false;
        }
        self.take("\"")
    }

    /// The second and the third byte of what is left, for a guess at a name in quotes; zeros where there are none.
    pub fn letters(&self) -> (u8, u8) {
        let rest = &self.text[self.at..];
        if rest.len() < 3 {
            return (0, 0);
        }
        (rest[1], rest[2])
    }

    /// What is left, for a guess at what it is.
    pub fn rest(&self) -> &[u8] {
        &self.text[self.at..]
    }

    /// Whether a number or a word may end here.
    pub fn ends_word(&self) -> bool
        ensures { result ≡ ends_word self.now }
    {
        if self.text.len() == self.at {
            return true;
        }
        let byte = self.text[self.at];
        is_mark(byte) || is_space(byte)
    }
}
