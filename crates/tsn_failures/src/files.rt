//! The bytes of a setup's file.
ghost use Rattle.std.specs.Prelude.{◌≡◌, ◌⊎◌, ◌+◌, ◌<◌, ◌≤◌, true, length, IfOk, IfErr, OnOk};
ghost use Rattle.std.specs.Io.KnownBytes.{Consumes, IsAtEnd};
ghost use Rattle.tsn_bytes.specs.declared.bytes.Fault.TheVariants.{Memory};
ghost use Rattle.tsn_failures.specs.declared.failures.Failure.TheVariants as failures;

use crate::failures::Failure;
use std::alloc::Global;
use tsn_bytes::{ByteIn, Fault};
use tsn_export::LONGEST_SETUP;

// How many bytes are asked for at once.
const PIECE: usize = 4096;

/// All bytes of the reader, or so many that they are more than a setup has, by a piece at most. `Failure::Setup` where
/// a read fails, `Fault::Memory` where memory is wanting.
pub fn read_setup<R: ByteIn>(alloc: Global, reader: &mut R) -> Result<Vec<u8>, Failure>
    ensures read { IfOk result (λ bytes. Consumes (R.remaining reader.old) (R.remaining reader.new) bytes.items) }
    ensures whole { IfOk result (λ bytes. (LONGEST_SETUP < length bytes.items) ⊎ IsAtEnd (R.remaining reader.new)) }
    ensures bound { IfOk result (λ bytes. length bytes.items ≤ LONGEST_SETUP + PIECE) }
    ensures worked { OnOk result (R.has_failed reader.new ≡ R.has_failed reader.old) }
    ensures failed { IfErr result (λ why. ((why ≡ failures.Setup) × (R.has_failed reader.new ≡ true)) ⊎ (why ≡ failures.Fault Memory)) }
{
    let mut bytes = Vec::new(alloc);
    let mut piece = [0; PIECE];
    for _made in 0..=LONGEST_SETUP {
        let Ok(count) = reader.pull(&mut piece) else {
            return Err(Failure::Setup);
        };
        if count == 0 {
            return Ok(bytes);
        }
        let Ok(()) = bytes.extend_from_slice(&piece[..count]) else {
            return Err(Failure::Fault(Fault::Memory));
        };
        if LONGEST_SETUP < bytes.len() {
            return Ok(bytes);
        }
    }
    Ok(bytes)
}
