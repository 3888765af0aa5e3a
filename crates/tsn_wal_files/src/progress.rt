//! The file of a journal as a start reads it: where that takes long, it says how far it is.
ghost use Rattle.std.specs.Prelude.{◌≡◌};

use std::alloc::Global;
use std::time;
use std::time::Instant;
use tsn_bytes::{ByteIn, ByteOut, Failed, put_all};

/// So many seconds of a start pass in silence.
const QUIET: u64 = 2;

/// A file that is read, and who is told. From the second second on it says, once each second, how many bytes were read.
#[derive(Drop)]
pub(crate) struct Progress<'a, R: time::Clock, I: ByteIn, E: ByteOut> {
    rt: &'a R,
    alloc: Global,
    file: I,
    errors: &'a mut E,
    began: Option<Instant>,
    bytes: u64,
    // The second in which it spoke last.
    told: u64,
}

impl<'a, R: time::Clock, I: ByteIn, E: ByteOut> Progress<'a, R, I, E> {
    pub(crate) fn new(
        rt: &'a R,
        alloc: Global,
        file: I,
        errors: &'a mut E,
    ) -> Progress<'a, R, I, E> {
        Progress {
            rt,
            alloc,
            file,
            errors,
            began: Instant::now(rt).ok(),
            bytes: 0,
            told: QUIET - 1,
        }
    }

    // How many seconds it takes by now; none where the time is not known.
    fn seconds(&self) -> u64 {
        match self.began.and_then(|began| began.elapsed(self.rt).ok()) {
            Some(long) => long.as_secs(),
            None => 0,
        }
    }

    // Says how far it is, where that is due, there is memory for the line, and standard error takes it.
    fn tell(&mut self)
        ensures { self.new.file ≡ self.old.file }
    {
        let seconds = self.seconds();
        if seconds <= self.told {
            return;
        }
        self.told = seconds;
        let bytes = self.bytes;
        if let Ok(line) = format!(in self.alloc; "tsnd: the journal: {bytes} bytes read\n") {
            let _ = put_all(self.errors, line.as_bytes());
        }
    }
}

impl<R: time::Clock, I: ByteIn, E: ByteOut> ByteIn for Progress<'_, R, I, E> {
    ghost remaining = { λ p. I.remaining p.file };

    ghost calls = { λ p. I.calls p.file };

    ghost has_failed = { λ p. I.has_failed p.file };

    fn pull(&mut self, buffer: &mut [u8]) -> Result<usize, Failed> {
        self.tell();
        let count = self.file.pull(buffer)?;
        self.bytes = self.bytes.saturating_add(count as u64);
        Ok(count)
    }
}
