//! Tables whose members come in any order, each once, in the plain spelling: inline ones, and those that have lines.
ghost use Rattle.std.specs.Prelude.{◌≡◌, ◌<◌, ◌≤◌, ℕ, true, length, IfSome};
ghost use Rattle.tsn_setup.specs.Plain.{Trays, AreOpen, Fills, ReadsLines, ReadsMember, ReadsTable, is_name};

use crate::given::Given;
use crate::plain::{behind_element, behind_equals, ends_line};
use std::alloc::Global;
use toml_parser::text::{first, skip, skip_blank};

/// The members of a table, as far as they were read.
pub trait PlainTable: Default + Drop {
    ghost trays: { Self → Trays };

    // how many brackets a value may have in one another
    ghost nesting: { ℕ };

    /// Reads the next member. None where it is none that may come, came before or is spelled in another way, and where
    /// memory is refused.
    fn member<'a>(&mut self, alloc: Global, text: &'a str) -> Option<&'a str>
        ensures member { IfSome result (λ rest. ReadsMember nesting text.now (trays self.old) (trays self.new) rest.now) }
        ensures shorter { IfSome result (λ rest. length rest.now < length text.now) };

    // nothing was read at first
    ghost opens: { (found : Self) → Self.is_default found → AreOpen (trays found) };
}

// How many turns are made for a table: one for each member that it may have, nine at most, and one for its end.
const TURNS: u32 = 10;

/// Reads the member of that name, which must come next and for the first time.
#[inline(always)]
#[tactic(auto, using(crate::proofs::Values::filled))]
pub fn tray<'a, V: Given>(
    alloc: Global,
    text: &'a str,
    name: &str,
    tray: &mut Option<V>,
) -> Option<&'a str>
    requires { is_name name.now ≡ true }
    ensures member { IfSome result (λ rest. Fills V.nesting text.now name.now (V.tray tray.old) (V.tray tray.new) rest.now) }
    ensures shorter { IfSome result (λ rest. length rest.now < length text.now) }
{
    if tray.is_some() {
        return None;
    }
    let behind = behind_equals(text, name)?;
    let (value, rest) = V::given(alloc, behind)?;
    *tray = Some(value);
    Some(rest)
}

/// An inline table, behind its opening brace.
pub fn inline_table<M: PlainTable>(alloc: Global, text: &str) -> Option<(M, &str)>
    requires { M.nesting ≡ 0 }
    ensures table { IfSome result (λ p. ReadsTable text.now (M.trays p.0) p.1.now) }
    ensures shorter { IfSome result (λ p. length p.1.now < length text.now) }
{
    let mut found = M::default();
    let mut rest = text;
    'members: for _ in 0..TURNS {
        let start = skip_blank(rest, true);
        if first(start) == b'}' {
            return Some((found, skip(start, 1)));
        }
        let after = found.member(alloc, start)?;
        rest = behind_element(after, b'}')?;
    }
    None
}

/// The lines of a table, up to the next header or the end of the text.
pub fn table_lines<M: PlainTable>(alloc: Global, text: &str) -> Option<(M, &str)>
    requires { M.nesting ≤ 80 }
    ensures table { IfSome result (λ p. ReadsLines text.now (M.trays p.0) p.1.now) }
    ensures within { IfSome result (λ p. length p.1.now ≤ length text.now) }
{
    let mut found = M::default();
    let mut rest = text;
    'lines: for _ in 0..TURNS {
        let start = skip_blank(rest, true);
        if start.is_empty() || first(start) == b'[' {
            return Some((found, start));
        }
        let after = found.member(alloc, start)?;
        if !ends_line(after) {
            return None;
        }
        rest = after;
    }
    None
}
