//! A frame, and how the filter chain ends for it.
use tsn_types::numbers::{FilterId, Handle, Instant, Octets, Priority};

/// A frame as it comes: with its stream handle, and whether it is drop eligible.
#[derive(Clone, Copy, Debug, PartialEq, Eq)]
pub struct Frame {
    pub handle: Handle,
    pub priority: Priority,
    pub octets: Octets,
    /// Whether the frame came drop eligible.
    pub yellow: bool,
}

/// Why a frame is dropped.
#[derive(Clone, Copy, Debug, PartialEq, Eq)]
pub enum DropCause {
    /// The stream is blocked by a frame that was too long.
    Blocked,
    /// The frame is longer than the filter's maximum SDU size.
    Oversize,
    /// The gate is closed, by its state or by a latch.
    Closed,
    /// The frame has more octets than the interval has left.
    Octets,
    /// Red by the meter, or as all frames are.
    Red,
    /// Yellow by the meter, which drops yellow frames.
    Yellow,
}

/// The verdict on a frame at an instant, the bridge time once the frame is taken in.
#[derive(Clone, Copy, Debug, PartialEq, Eq)]
pub enum Verdict {
    /// The frame passes with a priority, and is drop eligible or not. No filter is named where none matches.
    Passed {
        filter: Option<FilterId>,
        now: Instant,
        priority: Priority,
        yellow: bool,
    },
    Dropped {
        filter: FilterId,
        now: Instant,
        cause: DropCause,
    },
}
