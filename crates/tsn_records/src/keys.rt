//! The text of a key: a kind, one space and a number in decimal digits.
ghost use Rattle.std.specs.Prelude.{◌≡◌};
ghost use Rattle.std.specs.Char.{is_ascii_digit};
ghost use Rattle.std.specs.List.{list_all};
ghost use Rattle.tsn_records.specs.Keys.{is_decimal, decimal_of, numbered, key_of, kind_of};

use crate::drafts::KeyDraft;
use tsn_types::keys::Kind;

fn are_digits(digits: &[u8]) -> bool
    ensures { result ≡ list_all is_ascii_digit digits.now }
{
    digits.iter().all(|byte| byte.is_ascii_digit())
}

fn is_decimal(digits: &[u8]) -> bool
    ensures { result ≡ is_decimal digits.now }
{
    are_digits(digits)
        && !digits.is_empty()
        && digits.len() <= 10
        && (digits.len() == 1 || digits[0] != b'0')
}

fn decimal_of(digits: &str) -> Option<u64>
    ensures { result ≡ decimal_of digits.now }
{
    if !is_decimal(digits.as_bytes()) {
        return None;
    }
    digits.parse().ok()
}

fn numbered(kind: Kind, digits: &str) -> Option<KeyDraft>
    ensures { result ≡ numbered kind digits.now }
{
    let number = decimal_of(digits)?;
    Some(KeyDraft { kind, number })
}

/// The key that the text spells, whose number may be outside its range.
pub fn key_of(text: &str) -> Option<KeyDraft>
    ensures { result ≡ key_of text.now }
{
    if let Some(digits) = text.strip_prefix("port ") {
        return numbered(Kind::Port, digits);
    }
    if let Some(digits) = text.strip_prefix("filter ") {
        return numbered(Kind::Filter, digits);
    }
    if let Some(digits) = text.strip_prefix("gate ") {
        return numbered(Kind::Gate, digits);
    }
    if let Some(digits) = text.strip_prefix("meter ") {
        return numbered(Kind::Meter, digits);
    }
    None
}

/// The kind that the text names.
pub fn kind_of(text: &str) -> Option<Kind>
    ensures { result ≡ kind_of text.now }
{
    match text {
        "port" => Some(Kind::Port),
        "filter" => Some(Kind::Filter),
        "gate" => Some(Kind::Gate),
        "meter" => Some(Kind::Meter),
        _ => None,
    }
}
