//! The lengths of lines, and what the bytes of a line say.
ghost use Rattle.std.specs.Prelude.{◌≡◌, ◌≢◌, ◌↔◌, ◌+◌, ◌<◌, length, All, IsTrue, IfSome, IfNone};
ghost use Rattle.tsn_recorded.specs.Text.{Recorded, IsRecordedAfter, digest_length, line_feed, line_of};
ghost use Rattle.tsn_recorded.specs.Reading.{recorded_in};

use crate::chain::Chain;
use crate::digest::digest_of_body;
use memchr::memchr;

/// The bytes of the longest stamp for which there is room, whatever the command.
pub const LONGEST_STAMP: usize = 20;

/// The bytes of the longest command in a line but the first.
pub const LONGEST_COMMAND: usize = 131_072;

/// The bytes of the longest command in the first line: a setup of 1,048,576 bytes, each written as an escape of six,
/// and 32 bytes around it.
pub const LONGEST_FIRST_COMMAND: usize = 6 * 1_048_576 + 32;

/// The bytes of the longest line but the first, its line feed not counted. A longer one does not verify.
pub const LONGEST_LINE: usize = DIGITS + 1 + LONGEST_STAMP + 1 + LONGEST_COMMAND;

/// The bytes of the longest first line, its line feed not counted. A longer one does not verify.
pub const LONGEST_FIRST_LINE: usize = DIGITS + 1 + LONGEST_STAMP + 1 + LONGEST_FIRST_COMMAND;

// How many digits a digest has.
pub(crate) const DIGITS: usize = 32;

// Whether two texts are one.
fn is_same(one: &[u8], other: &[u8]) -> bool
    ensures { IsTrue result ↔ (one.now ≡ other.now) }
{
    one == other
}

// How many bytes the stamp has in this line, where it verifies behind this chain; none where it does not.
pub(crate) fn stamp_of_line(chain: &Chain, line: &[u8]) -> Option<usize>
    requires { All (λ b. b ≢ line_feed) line.now }
    ensures line { IfSome result (λ n. line.now ≡ line_of chain.now (recorded_in line.now n)) }
    ensures recorded { IfSome result (λ n. IsRecordedAfter chain.now (recorded_in line.now n)) }
    ensures fits { IfSome result (λ n. digest_length + 1 + n < length line.now) }
    ensures none { IfNone result ((r : Recorded) → IsRecordedAfter chain.now r → line.now ≢ line_of chain.now r) }
{
    if line.len() <= DIGITS {
        return None;
    }
    if line.len() > chain.longest() {
        return None;
    }
    let own = &line[..DIGITS];
    let body = &line[DIGITS + 1..];
    if line[DIGITS] != b' ' {
        return None;
    }
    let stamp = match memchr(b' ', body) {
        Some(stamp) => stamp,
        None => return None,
    };
    let digest = digest_of_body(chain.last(), body);
    if !is_same(&digest, own) {
        return None;
    }
    Some(stamp)
}
