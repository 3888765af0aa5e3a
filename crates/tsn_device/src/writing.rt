//! Writes to a file that a signal may interrupt.
ghost use Rattle.std.specs.Prelude.{◌<◌, ◌≤◌, length, IfOk};

use std::fs::File;
use std::io;
use std::io::{ErrorKind, Write};

// How often a write is made at most.
const TRIES: u64 = u64::MAX;

/// Writes a front of the bytes, and says how many, 1 or more. A write that a signal interrupts is made again; any other
/// error is given, and a write of nothing is one.
pub(crate) fn write_some(file: &mut File, bytes: &[u8]) -> io::Result<usize>
    ensures { IfOk result (λ n. (0 < n) × (n ≤ length bytes.now)) }
{
    'tries: for _ in 0..TRIES {
        match file.write(bytes) {
            Ok(0) => return Err(io::Error::from(ErrorKind::WriteZero)),
            Ok(count) => return Ok(count),
            Err(error) if error.kind() == ErrorKind::Interrupted => {}
            Err(error) => return Err(error),
        }
    }
    Err(io::Error::from(ErrorKind::Interrupted))
}

/// Writes all the bytes. What reaches the file is not known where it fails, and no contract says what does where it
/// works.
pub(crate) fn write_all(file: &mut File, bytes: &[u8]) -> io::Result<()> {
    let mut done = 0;
    'writes: while done < bytes.len() {
        match write_some(file, &bytes[done..]) {
            Ok(count) => done += count,
            Err(error) => return Err(error),
        }
    }
    Ok(())
}
