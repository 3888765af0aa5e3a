//! The text of the setup that words name, and why it could not be read.
use std::io::Read;
use std::rt::Files;
use std::sync::atomic::{AtomicI32, Ordering};
use std::{fs, io};
use tsn_bytes::{ByteOut, Fault, StdIo};
use tsn_failures::{Failure, Undone, fail, fail_start, read_setup};
use tsn_wal_files::error_of;
use tsn_words::Asked;

/// A reader that leaves word of why a call of it failed: the number of the system's error, and 0 as long as there is
/// none.
#[derive(Drop)]
struct TellingReader<'a, I> {
    inner: I,
    why: &'a AtomicI32,
}

impl<I: Read> Read for TellingReader<'_, I> {
    ghost remaining = { λ r. I.remaining r.inner };

    fn read(&mut self, buffer: &mut [u8]) -> io::Result<usize> {
        let given = self.inner.read(buffer);
        if let Err(error) = &given {
            self.why
                .store(error.raw_os_error().unwrap_or(0), Ordering::SeqCst);
        }
        given
    }
}

/// Why the setup was not read.
#[derive(Drop)]
pub(crate) enum Unread {
    Failed(Failure),
    // The system's reason.
    System(io::Error),
}

/// The text of the setup that is named, empty where none is.
pub(crate) fn setup_text<R: Files + AllocGlobal>(rt: &R, asked: &Asked) -> Result<Vec<u8>, Unread> {
    let Some(name) = asked.file() else {
        return Ok(Vec::new(rt.alloc()));
    };
    let inner = match fs::open(rt, name) {
        Ok(file) => file,
        Err(error) => return Err(Unread::System(error)),
    };
    let why = AtomicI32::new(0);
    let mut reader = StdIo::new(TellingReader { inner, why: &why });
    match read_setup(rt.alloc(), &mut reader) {
        Ok(text) => Ok(text),
        Err(failure) => match (failure, error_of(why.load(Ordering::SeqCst))) {
            (Failure::Setup, Some(error)) => Err(Unread::System(error)),
            _ => Err(Unread::Failed(failure)),
        },
    }
}

/// Tells why the setup that is named was not read, and gives its status, 1.
pub(crate) fn fail_to_read<R: AllocGlobal, E: ByteOut>(
    rt: &R,
    errors: &mut E,
    asked: &Asked,
    why: &Unread,
) -> u8 {
    let error = match why {
        Unread::Failed(failure) => return fail(errors, *failure),
        Unread::System(error) => error,
    };
    let name = asked.file().unwrap_or("");
    match format!(in rt.alloc(); "{error}") {
        Ok(reason) => fail_start(rt.alloc(), errors, Undone::Reading, name, reason.as_str()),
        Err(_) => fail(errors, Failure::Fault(Fault::Memory)),
    }
}
