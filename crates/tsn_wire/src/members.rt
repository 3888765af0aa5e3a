//! Objects whose members may come in any order, each once.
ghost use Rattle.std.specs.Prelude.{◌≡◌, ◌∷◌, ℕ, None, true, IfSome, OnSome, option_map};
ghost use Rattle.json.specs.Lex.{colon, token};
ghost use Rattle.json.specs.Token.{Token};
ghost use Rattle.tsn_wire.specs.Lexed.{lexed, is_bare};
ghost use Rattle.tsn_wire.specs.Members.{Rows, AreOpen, Fills, ReadsMember, ReadsMembers};

use crate::cursor::Cursor;
use crate::values::Scanned;
use std::alloc::Global;

/// The members of an object, as far as they were read.
pub trait Gathered: Drop {
    ghost rows: { Self → Rows };

    // how many brackets a value may have in one another
    ghost nesting: { ℕ };

    /// Reads the next member; None where it is none that may come, or came before.
    fn member(&mut self, alloc: Global, text: &mut Cursor<'_>) -> Option<()>
        ensures { IfSome result (λ _. ReadsMember nesting (lexed text.old) (rows self.old)
            (rows self.new) (lexed text.new)) };
}

// No object has more members.
const MOST: u32 = 12;

/// Reads the members of an object, none of which was read before, and tells how many they are.
pub fn members<M: Gathered>(alloc: Global, text: &mut Cursor<'_>, found: &mut M) -> Option<u32>
    requires { AreOpen (M.rows found.old) }
    ensures { IfSome result (λ count. ReadsMembers M.nesting (lexed text.old) (M.rows found.new) count
        (lexed text.new)) }
{
    if !text.mark(b'{') {
        return None;
    }
    let mut count: u32 = 0;
    'members: while count < MOST {
        text.skip();
        found.member(alloc, text)?;
        count += 1;
        if text.mark(b'}') {
            return Some(count);
        }
        if !text.mark(b',') {
            return None;
        }
    }
    None
}

/// Goes behind the name of a member, which must come next and for the first time, and the colon behind it.
#[inline(always)]
pub fn named<V>(text: &mut Cursor<'_>, name: &str, tray: &Option<V>) -> Option<()>
    requires { is_bare name.now ≡ true }
    ensures first { OnSome result (tray.now ≡ None) }
    ensures name { OnSome result (lexed text.old ≡ token (Token.string name.now) ∷ colon ∷ lexed text.new) }
{
    if tray.is_some() {
        return None;
    }
    if !text.quoted(name) {
        return None;
    }
    if !text.mark(b':') {
        return None;
    }
    Some(())
}

/// Reads the member of that name, which must come next and for the first time.
pub fn tray<V: Scanned>(
    alloc: Global,
    text: &mut Cursor<'_>,
    name: &str,
    tray: &mut Option<V>,
) -> Option<()>
    requires { is_bare name.now ≡ true }
    ensures { IfSome result (λ _. Fills 2 (lexed text.old) name.now
        (option_map V.value tray.old) (option_map V.value tray.new) (lexed text.new)) }
{
    named(text, name, tray)?;
    let value = V::scanned(alloc, text)?;
    *tray = Some(value);
    Some(())
}
