//! Values of a document in the plain spelling: numbers, and true and false.
ghost use Rattle.std.specs.Prelude.{◌≡◌, ◌<◌, ◌≤◌, ℕ, pos, false, length, slice_index, Option, Some, None, IfSome, IsTrue};
ghost use Rattle.std.specs.Char.{is_ascii_digit};
ghost use Rattle.std.specs.List.{prefix_len};
ghost use Rattle.toml.specs.Data.{integer};
ghost use Rattle.toml.specs.Parse.{scalar_data, val};
ghost use Rattle.tsn_setup.specs.PlainNumbers.{EndsWord};
ghost use Rattle.tsn_setup.specs.Plain.{Tray, number, flag, IsOpen, ReadsValue};

use crate::members::natural;
use std::alloc::Global;
use toml_parser::bytes::is_word;
use toml_parser::text::{byte_at, first};
use toml_parser::{Scalar, starts_string, unquoted};

// The greatest number of a document.
const GREATEST: u64 = i64::MAX as u64;

/// A value as a member has it.
pub trait Given: Drop {
    ghost tray: { Option Self → Tray };

    // how many brackets the value may have in one another
    ghost nesting: { ℕ };

    /// Reads the value that the text begins with. None where it is no such value or is spelled in another way, and
    /// where memory is refused.
    fn given(alloc: Global, text: &str) -> Option<(Self, &str)>
        ensures value { IfSome result (λ p. ReadsValue nesting text.now (tray (Some p.0)) p.1.now) }
        ensures open { IsOpen (tray None) }
        ensures shorter { IfSome result (λ p. length p.1.now < length text.now) };
}

// A value with no quote and no bracket.
#[tactic(auto, using(toml::proofs::Turns::val_atom), unfolding(toml::specs::Parse::atom))]
fn scalar(alloc: Global, text: &str) -> Option<(Scalar, &str)>
    ensures value { IfSome result (λ p. (m : ℕ) → val m text.now ≡ Some (scalar_data p.0, p.1.now)) }
    ensures shorter { IfSome result (λ p. length p.1.now < length text.now) }
{
    let byte = first(text);
    if byte == b'[' || byte == b'{' || starts_string(text) {
        return None;
    }
    match unquoted(alloc, text) {
        Ok(read) => Some(read),
        Err(_) => None,
    }
}

// How many digits the text begins with.
#[inline]
fn digits(text: &str) -> usize
    ensures len { result ≡ prefix_len is_ascii_digit text.now }
    ensures within { result ≤ length text.now }
{
    text.as_bytes()
        .iter()
        .take_while(|byte| byte.is_ascii_digit())
        .count()
}

// Whether a word goes on here, or a time of day behind a date.
#[inline]
fn goes_on(text: &str) -> bool
    ensures { result ≡ false → EndsWord text.now }
{
    is_word(first(text)) || (first(text) == b' ' && byte_at(text, 1).is_ascii_digit())
}

// Whether so many digits are a number, with no 0 before another.
#[inline]
fn is_one_number(text: &str, count: usize) -> bool
    ensures some { IsTrue result → 0 < count }
    ensures lead { IsTrue result → slice_index text.now 0 ≡ 48 → count ≡ 1 }
{
    count != 0 && (count == 1 || first(text) != b'0')
}

// A number in decimal digits alone.
fn digits_alone(text: &str) -> Option<(u64, &str)>
    ensures value { IfSome result (λ p. (m : ℕ) → val m text.now ≡ Some (integer (pos p.0), p.1.now)) }
    ensures shorter { IfSome result (λ p. length p.1.now < length text.now) }
{
    let count = digits(text);
    if !is_one_number(text, count) {
        return None;
    }
    let (word, rest) = text.split_at(count);
    if goes_on(rest) {
        return None;
    }
    let number = word.parse::<u64>().ok()?;
    if number > GREATEST {
        return None;
    }
    Some((number, rest))
}

impl Given for u64 {
    ghost tray = { number };

    ghost nesting = { 0 };

    #[tactic(auto, using(crate::proofs::Values::number_read))]
    fn given(alloc: Global, text: &str) -> Option<(u64, &str)> {
        if let Some((number, rest)) = digits_alone(text) {
            return Some((number, rest));
        }
        let (scalar, rest) = scalar(alloc, text)?;
        match scalar {
            Scalar::Integer(number) => Some((natural(number)?, rest)),
            _ => None,
        }
    }
}

impl Given for bool {
    ghost tray = { flag };

    ghost nesting = { 0 };

    #[tactic(auto, using(crate::proofs::Values::flag_read))]
    fn given(alloc: Global, text: &str) -> Option<(bool, &str)> {
        let (scalar, rest) = scalar(alloc, text)?;
        match scalar {
            Scalar::Boolean(value) => Some((value, rest)),
            _ => None,
        }
    }
}
