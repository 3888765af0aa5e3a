//! Steps over a document in the plain spelling, which take no memory: bare names, the ends of lines and of elements,
//! and headers in double brackets. What is spelled otherwise is left to `toml`.
ghost use Rattle.std.specs.Prelude.{◌≡◌, ◌<◌, ◌≤◌, [], true, length, Some, IfSome};
ghost use Rattle.toml_parser.specs.Lexical.{skip_ws};
ghost use Rattle.toml_parser.specs.Strings.{key};
ghost use Rattle.toml.specs.Parse.{after_element, ends_line, key_equals, line};
ghost use Rattle.toml.specs.Tables.{array_table};
ghost use Rattle.tsn_records.specs.Keys.{kind_text};
ghost use Rattle.tsn_setup.specs.Plain.{is_name};

use toml_parser::bytes::is_bare;
use toml_parser::text::{byte_at, first, skip, skip_blank, skip_ws};
use tsn_records::allowed::name_of;
use tsn_types::keys::Kind;

// What follows the bare name and white space, where the text begins with that name and no dot joins another to it.
#[inline(always)]
fn behind_name<'a>(text: &'a str, name: &str) -> Option<&'a str>
    requires { is_name name.now ≡ true }
    ensures key { IfSome result (λ rest. key text.now ≡ Some (([], name.now), rest.now)) }
    ensures shorter { IfSome result (λ rest. length rest.now < length text.now) }
{
    if !text.as_bytes().starts_with(name.as_bytes()) {
        return None;
    }
    let behind = skip(text, name.len());
    if is_bare(first(behind)) {
        return None;
    }
    let rest = skip_ws(behind);
    if first(rest) == b'.' {
        return None;
    }
    Some(rest)
}

/// What follows the bare name, `=` and white space, where the text begins with them.
#[inline(always)]
#[tactic(auto, unfolding(toml::specs::Parse::key_equals))]
pub fn behind_equals<'a>(text: &'a str, name: &str) -> Option<&'a str>
    requires { is_name name.now ≡ true }
    ensures key { IfSome result (λ rest. key_equals text.now ≡ Some (([], name.now), rest.now)) }
    ensures shorter { IfSome result (λ rest. length rest.now < length text.now) }
{
    let rest = behind_name(text, name)?;
    if first(rest) != b'=' {
        return None;
    }
    Some(skip_ws(skip(rest, 1)))
}

/// What follows an element: behind a comma, or at the bracket that closes.
#[tactic(auto, unfolding(toml::specs::Parse::after_element))]
pub fn behind_element(text: &str, closing: u8) -> Option<&str>
    ensures value { IfSome result (λ rest. after_element closing text.now ≡ Some rest.now) }
    ensures within { IfSome result (λ rest. length rest.now ≤ length text.now) }
{
    let rest = skip_blank(text, true);
    if first(rest) == b',' {
        Some(skip(rest, 1))
    } else if first(rest) == closing {
        Some(rest)
    } else {
        None
    }
}

/// Whether the line ends here, but for white space and a comment.
pub fn ends_line(text: &str) -> bool
    ensures { result ≡ ends_line (skip_ws text.now) }
{
    let end = skip_ws(text);
    end.is_empty() || matches!(first(end), b'#' | b'\n' | b'\r')
}

// The name of a kind, and what follows it.
fn kind_name(text: &str) -> Option<(Kind, &str)>
    ensures key { IfSome result (λ p. key text.now ≡ Some (([], kind_text p.0), p.1.now)) }
    ensures shorter { IfSome result (λ p. length p.1.now < length text.now) }
{
    let kind = match first(text) {
        b'p' => Kind::Port,
        b'f' => Kind::Filter,
        b'g' => Kind::Gate,
        _ => Kind::Meter,
    };
    let rest = behind_name(text, name_of(kind))?;
    Some((kind, rest))
}

/// The kind that a header in double brackets names, and what follows the header, where its line ends there.
#[tactic(auto, unfolding(toml::specs::Parse::line, toml::specs::Parse::expression, toml::specs::Parse::header_key))]
pub fn header(text: &str) -> Option<(Kind, &str)>
    ensures line { IfSome result (λ p. line text.now ≡ Some ((([], kind_text p.0), array_table), p.1.now)) }
    ensures shorter { IfSome result (λ p. length p.1.now < length text.now) }
{
    if first(text) != b'[' || byte_at(text, 1) != b'[' {
        return None;
    }
    let (kind, rest) = kind_name(skip_ws(skip(text, 2)))?;
    if first(rest) != b']' {
        return None;
    }
    let rest = skip(rest, 1);
    if first(rest) != b']' {
        return None;
    }
    let rest = skip(rest, 1);
    if ends_line(rest) {
        Some((kind, rest))
    } else {
        None
    }
}
