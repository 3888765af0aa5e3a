//! A script over the bridge that goes on from a journal file.
ghost use Rattle.std.specs.Prelude.{◌≤◌};

use std::alloc::Global;
use std::fs::File;
use std::rt::Files;
use std::{io, time};
use tsn_bytes::{ByteIn, ByteOut, Fault};
use tsn_device::{DeviceOverFile, FileDevice, UnsyncedDevice};
use tsn_failures::Failure;
use tsn_keeping::Keeper;
use tsn_lasting::{Lasting, LastingFault, run_lasting};
use tsn_resuming::Resumed;
use tsn_wal_files::{JournalFault, NO_MEMORY, WallClock, error_of, fail_over, start};
use tsn_words::{Kept, Syncs};

// Answers the script on the reader, over the bridge that goes on and the file that keeps it.
fn answer<D: DeviceOverFile, R: time::Clock, I: ByteIn, O: ByteOut + Drop, E: ByteOut>(
    rt: &R,
    alloc: Global,
    started: (File, Resumed),
    input: &mut I,
    output: O,
    errors: &mut E,
) -> Result<(), JournalFault> {
    let (file, resumed) = started;
    let keeper = Keeper::new(alloc, D::over(file), resumed.chain)?;
    let clock = WallClock::new(rt, alloc);
    let mut lasting = Lasting::new(alloc, resumed.bridge, keeper, clock, output)?;
    match run_lasting(alloc, &mut lasting, input) {
        Ok(()) => Ok(()),
        Err(LastingFault::Read) => Err(JournalFault::Failed(Failure::Fault(Fault::Read))),
        Err(LastingFault::Write) => Err(JournalFault::Failed(Failure::Fault(Fault::Write))),
        Err(LastingFault::Memory) => Err(NO_MEMORY),
        Err(LastingFault::Journal) => {
            let why = lasting.keeper().device().fault();
            let number = why.and_then(io::Error::raw_os_error).unwrap_or(0);
            Err(JournalFault::Write(error_of(number)))
        }
    }
}

/// Answers the script on the reader over the journal, whose file is made where it is not there, and gives the status.
/// With a setup the journal must have just that one.
pub fn script_over<
    R: Files<File = File> + AllocGlobal + time::Clock,
    I: ByteIn,
    O: ByteOut + Drop,
    E: ByteOut,
>(rt: &R, setup: Option<&[u8]>, kept: &Kept, input: &mut I, output: O, errors: &mut E) -> u8
    ensures { result ≤ 1 }
{
    let path = kept.file.as_str();
    let alloc = rt.alloc();
    let outcome = match (start(rt, setup, path, errors), kept.syncs) {
        (Ok(started), Syncs::Each) => {
            answer::<FileDevice, _, _, _, _>(rt, alloc, started, input, output, errors)
        }
        (Ok(started), Syncs::None) => {
            answer::<UnsyncedDevice, _, _, _, _>(rt, alloc, started, input, output, errors)
        }
        (Err(fault), _) => Err(fault),
    };
    match outcome {
        Ok(()) => 0,
        Err(fault) => fail_over(alloc, errors, path, &fault),
    }
}
