//! Numbers within their ranges: identifiers, times, sizes and rates.
//!
//! Each type is a whole number that contracts see as the number itself. `new` is the one place where its range is
//! tested, so nothing above asks again. Each is kept in the least type that holds its range, since a journal may keep
//! tens of thousands of records. None of them takes memory.
ghost use Rattle.std.specs.Prelude.{◌≡◌, ◌<◌, ◌⊎◌, MatchResult};
ghost use Rattle.tsn_types.specs.Numbers.{Within};

pub mod identifiers;
pub mod sizes;
pub mod times;

pub use identifiers::{FilterId, GateId, Handle, MeterId, PortId, Priority};
pub use sizes::{BitRate, MaxSdu, Octets};
pub use times::{Cycle, Extension, Instant, Interval};

/// A number outside the range of its type.
#[derive(Clone, Copy, Debug, PartialEq, Eq)]
pub struct Range;

/// The number, refused outside the range.
#[inline(always)]
fn within(number: u64, least: u64, greatest: u64) -> Result<u64, Range>
    ensures { MatchResult result (λ n. (n ≡ number) × Within least greatest n) (λ _. (number < least) ⊎ (greatest < number)) }
{
    if least <= number && number <= greatest {
        Ok(number)
    } else {
        Err(Range)
    }
}
