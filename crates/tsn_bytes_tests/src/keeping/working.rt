//! A keeper at work over a device that may fail.
ghost use Rattle.std.specs.Prelude.{◌≢◌, All};
ghost use Rattle.std.specs.Bool.{OnFalse};

use memchr::memchr;
use tsn_device::MemoryDevice;
use tsn_keeping::Keeper;
use tsn_recorded::{LONGEST_COMMAND, LONGEST_STAMP};

const STAMP: &[u8] = b"2026-11-27T12:31:00Z";

const SHORT: &[u8] = b"{\"do\":\"hello\"}";

// Whether the byte is among these.
fn has_byte(byte: u8, bytes: &[u8]) -> bool
    ensures { OnFalse result (All (λ b. b ≢ byte) bytes.now) }
{
    memchr(byte, bytes).is_some()
}

// Enters the line. False where the keeper failed, or where no line can hold this.
#[tactic(auto, using(crate::proofs::Lines::fits))]
fn enter(keeper: &mut Keeper<MemoryDevice>, stamp: &[u8], command: &[u8]) -> bool {
    if stamp.len() > LONGEST_STAMP || command.len() > LONGEST_COMMAND {
        return false;
    }
    if has_byte(b'\n', stamp) || has_byte(b' ', stamp) || has_byte(b'\n', command) {
        return false;
    }
    keeper.works() && keeper.enter(stamp, command).is_ok()
}

// Enters so many lines of the same command, and settles them. False where the keeper failed.
fn enter_and_settle(keeper: &mut Keeper<MemoryDevice>, command: &[u8], count: u64) -> bool {
    for _ in 0..count {
        if !enter(keeper, STAMP, command) {
            return false;
        }
    }
    keeper.works() && keeper.settle().is_ok()
}

/// Enters three short lines, none, two of this command, and a short one, and settles each time. Says how many were
/// settled.
pub fn work(keeper: &mut Keeper<MemoryDevice>, command: &[u8]) -> u64 {
    if !enter_and_settle(keeper, SHORT, 3) {
        return 0;
    }
    if !enter_and_settle(keeper, SHORT, 0) || !enter_and_settle(keeper, command, 2) {
        return 3;
    }
    if !enter_and_settle(keeper, SHORT, 1) {
        return 5;
    }
    6
}
