//! The bucket of a flow meter: filled at first, marked by frames, clipped where the meter's record is replaced.
//!
//! Counts are 128-bit whole numbers. A rate is at most 10^12 and a time at most 2^62, so no refill is too great for
//! them.
ghost use Rattle.std.specs.Prelude.{◌≡◌, ◌≤◌};
ghost use Rattle.tsn_types.specs.Numbers.{most_octets};
ghost use Rattle.tsn_meter.specs.Bucket.{tokens, full_of, clipped, refilled, marked, colour_of};

use std::marker::Model;
use tsn_types::numbers::{Instant, Octets};
use tsn_types::records::FlowMeter;

/// Tokens, billionths of a bit, for each octet of a frame.
const TOKENS_PER_OCTET: u128 = 8_000_000_000;

/// The colour of a frame, before a meter or by it.
#[derive(Clone, Copy, Debug, PartialEq, Eq)]
pub enum Colour {
    /// Within the committed rate and size.
    Green,
    /// Drop eligible: within the excess rate and size.
    Yellow,
    /// Within neither.
    Red,
}

/// Committed and excess tokens, in billionths of a bit, and the instant of the last mark.
#[derive(Clone, Copy, Debug)]
pub struct Bucket {
    committed: u128,
    excess: u128,
    last: Instant,
}

impl Model for Bucket {
    ghost use Rattle.std.specs.Prelude.{◌≤◌};
    ghost use Rattle.tsn_types.specs.Numbers.{most_octets};
    ghost use Rattle.tsn_meter.specs.Bucket.{Tokens, tokens_code, tokens};

    ghost Value = { Tokens };

    ghost coded = { tokens_code };

    ghost view = { λ a. record { committed = a.committed; excess = a.excess; last = a.last } };

    ghost inverse = { λ b. record { committed = b.committed; excess = b.excess; last = b.last } };

    ghost invariant = { λ a. (a.committed ≤ tokens most_octets) × (a.excess ≤ tokens most_octets) };
}

// The tokens of so many octets.
fn tokens_of(octets: Octets) -> u128
    ensures value { result ≡ tokens octets }
    ensures small { result ≤ tokens most_octets }
{
    u128::from(octets.get()) * TOKENS_PER_OCTET
}

impl Bucket {
    /// A bucket that is full at `now`, by the meter's sizes CBS and EBS.
    pub fn full(meter: &FlowMeter, now: Instant) -> Bucket
        ensures { result ≡ full_of meter.now now }
    {
        Bucket {
            committed: tokens_of(meter.cbs),
            excess: tokens_of(meter.ebs),
            last: now,
        }
    }

    /// Lowers both counts to the meter's sizes. It refills nothing: the next mark does, from the last one on.
    pub fn clip(&mut self, meter: &FlowMeter)
        ensures { self.new ≡ clipped meter.now self.old }
    {
        self.committed = self.committed.min(tokens_of(meter.cbs));
        self.excess = self.excess.min(tokens_of(meter.ebs));
    }

    // Refills both counts up to `now`, each to its size at most.
    fn refill(&mut self, meter: &FlowMeter, now: Instant)
        ensures { self.new ≡ refilled meter.now now self.old }
    {
        let gap = u128::from(now.get().saturating_sub(self.last.get()));
        let size = tokens_of(meter.cbs);
        let grown = self.committed + u128::from(meter.cir.get()) * gap;
        let over = if meter.cf {
            grown.saturating_sub(size)
        } else {
            0
        };
        let excess = self.excess + u128::from(meter.eir.get()) * gap + over;
        self.committed = grown.min(size);
        self.excess = excess.min(tokens_of(meter.ebs));
        self.last = now;
    }

    /// Refills up to `now`, marks a frame of so many octets and takes its tokens; a red frame takes none. `colour` is
    /// the frame's own, which counts in colour-aware mode alone (802.1Q-2018, 8.6.5). A `now` before the last mark
    /// refills nothing, and is the instant of the last mark from then on.
    pub fn mark(
        &mut self,
        meter: &FlowMeter,
        now: Instant,
        octets: Octets,
        colour: Colour,
    ) -> Colour
        ensures colour { result ≡ colour_of meter.now now octets colour self.old }
        ensures bucket { self.new ≡ marked meter.now now octets colour self.old }
    {
        self.refill(meter, now);
        let price = tokens_of(octets);
        let told = if meter.aware { colour } else { Colour::Green };
        match told {
            Colour::Green if price <= self.committed => {
                self.committed -= price;
                Colour::Green
            }
            Colour::Green | Colour::Yellow if price <= self.excess => {
                self.excess -= price;
                Colour::Yellow
            }
            _ => Colour::Red,
        }
    }
}
