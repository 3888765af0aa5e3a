//! The values that words give to a subcommand, by the names of its arguments.
ghost use Rattle.std.specs.Prelude.{◌≡◌, ◌↔◌, IsTrue, ℕ, List, None, Some, IfNone, IfOk, IfSome, false, codes, is_some, option_map, string_bytes, unwrap_or};
ghost use Rattle.std.specs.Str.{bytes_eq};
ghost use Rattle.clap.specs.Words.{first_of, first_value, found_of, rows_of};
ghost use Rattle.tsn_words.specs.Asking.{number_of, IsNumber};

use clap::ArgMatches;
use std::alloc::{AllocError, Global};

// A number that is given.
pub(crate) fn number_of(given: &ArgMatches<'_>, name: &str) -> u64
    requires { (text : List ℕ) × (first_of name.now (rows_of (found_of given.now)) ≡ Some text) × IsNumber text }
    ensures { (text : List ℕ) → first_of name.now (rows_of (found_of given.now)) ≡ Some text → result ≡ number_of text }
{
    let text = given.get_str(name).unwrap();
    text.parse::<u64>().unwrap()
}

// The number that is given, if one is.
pub(crate) fn number_if_given(given: &ArgMatches<'_>, name: &str) -> Option<u64>
    requires { (text : List ℕ) → first_of name.now (rows_of (found_of given.now)) ≡ Some text → IsNumber text }
    ensures some { IfSome result (λ n. (text : List ℕ)
        × (first_of name.now (rows_of (found_of given.now)) ≡ Some text) × (n ≡ number_of text)) }
    ensures none { IfNone result (first_of name.now (rows_of (found_of given.now)) ≡ None) }
{
    match given.get_str(name) {
        Some(_) => Some(number_of(given, name)),
        None => None,
    }
}

// The option is given, which takes no value.
pub(crate) fn is_flagged(given: &ArgMatches<'_>, name: &str) -> bool
    ensures given { IsTrue result ↔ (first_of name.now (rows_of (found_of given.now)) ≡ Some (codes "true")) }
    ensures is { result ≡ unwrap_or (option_map (λ text. bytes_eq text (codes "true")) (first_of name.now (rows_of (found_of given.now))))
        false }
{
    match given.get_str(name) {
        Some(text) => text == "true",
        None => false,
    }
}

// Whether a text is given.
pub(crate) fn has_text(given: &ArgMatches<'_>, name: &str) -> bool
    ensures { result ≡ is_some (first_of name.now (rows_of (found_of given.now))) }
{
    given.get_str(name).is_some()
}

// A text that is given.
pub(crate) fn text_of(
    alloc: Global,
    given: &ArgMatches<'_>,
    name: &str,
) -> Result<String, AllocError>
    requires { (text : List ℕ) × (first_of name.now (rows_of (found_of given.now)) ≡ Some text) }
    ensures { IfOk result (λ text. first_of name.now (rows_of (found_of given.now)) ≡ Some (string_bytes text)) }
{
    let text = given.get_str(name).unwrap();
    String::from_str(alloc, text)
}

// The text that is given, if one is.
pub(crate) fn text_if_given(
    alloc: Global,
    given: &ArgMatches<'_>,
    name: &str,
) -> Result<Option<String>, AllocError>
    ensures { IfOk result (λ text. first_value (found_of given.now) name.now ≡ option_map string_bytes text) }
{
    match given.get_str(name) {
        Some(text) => {
            let text = String::from_str(alloc, text)?;
            Ok(Some(text))
        }
        None => Ok(None),
    }
}
