//! The names of sessions.
ghost use Rattle.std.specs.Prelude.{◌≡◌, IfOk, true};
ghost use Rattle.std.specs.Str.{bytes_eq};
ghost use Rattle.tsn_types.specs.Names.{ends_control, has_control, is_name, named};

use std::alloc::{AllocError, Global};
use std::marker::Model;

/// The bytes of the longest name.
pub const LONGEST_NAME: usize = 64;

/// A name by which a session is known: 1 to 64 bytes of UTF-8 with no control character (a code point below 32, or from
/// 127 to 159). Contracts see it as the list of its bytes.
#[derive(Debug, Drop)]
pub struct SessionName(Vec<u8>);

impl Model for SessionName {
    ghost use Rattle.std.specs.Prelude.{◌≡◌, ℕ, List, true};
    ghost use Rattle.tsn_types.specs.Names.{is_name};

    ghost Value = { List ℕ };

    ghost view = { λ a. a.0.items };

    ghost invariant = { λ a. is_name a.0.items ≡ true };
}

impl SessionName {
    /// The name of this text; none where the text may not be one. Refused only for want of memory.
    pub fn new(alloc: Global, text: &str) -> Result<Option<SessionName>, AllocError>
        ensures { IfOk result (λ name. name ≡ named text.now) }
    {
        if !is_name(text) {
            return Ok(None);
        }
        let bytes = Vec::from_slice(alloc, text.as_bytes())?;
        Ok(Some(SessionName(bytes)))
    }

    /// The bytes of the name.
    pub fn as_bytes(&self) -> &[u8]
        ensures bytes { result.now ≡ self.now }
        ensures name { is_name self.now ≡ true }
    {
        self.0.as_slice()
    }

    /// Tells a proof that the text may be a name. It does nothing else.
    pub fn recall_range(&self)
        ensures { is_name self.now ≡ true }
    {
        let _ = &self.0;
    }

    /// Whether the other name is the same.
    pub fn is(&self, other: &SessionName) -> bool
        ensures { result ≡ bytes_eq self.now other.now }
    {
        self.0.as_slice() == other.0.as_slice()
    }

    /// A copy that equals its source.
    pub fn try_clone(&self) -> Result<SessionName, AllocError>
        ensures { IfOk result (λ copy. copy ≡ self.now) }
    {
        Ok(SessionName(self.0.clone()?))
    }
}

// Whether the byte, which stands behind the last one, ends a control character.
fn ends_control(last: u8, byte: u8) -> bool
    ensures { result ≡ ends_control last byte }
{
    byte < 32 || byte == 127 || (last == 194 && 128 <= byte && byte <= 159)
}

fn has_control(bytes: &[u8]) -> bool
    ensures { result ≡ has_control 0 bytes.now }
{
    let mut last = 0;
    let mut rest = bytes;
    while let [byte, others @ ..] = rest {
        if ends_control(last, *byte) {
            return true;
        }
        last = *byte;
        rest = others;
    }
    false
}

// Whether the text may be a name.
fn is_name(text: &str) -> bool
    ensures { result ≡ is_name text.now }
{
    1 <= text.len() && text.len() <= LONGEST_NAME && !has_control(text.as_bytes())
}
