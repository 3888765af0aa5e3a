//! A journal file and what a process has beside it: files, the wall time, and standard error.
ghost use Rattle.std.specs.Prelude.{◌≡◌, IfOk};
ghost use Rattle.tsn_bridge.specs.Reached.{IsReached};

use crate::lines::NewText;
use crate::progress::Progress;
use jiff::Timestamp;
use std::alloc::{AllocError, Global};
use std::fs::File;
use std::io::ErrorKind;
use std::rt::Files;
use std::{fs, io, time};
use tsn_bytes::{ByteIn, ByteOut, Fault, StdIo, put_all};
use tsn_device::{OpenFault, make, move_end, open};
use tsn_failures::{Failure, fail};
use tsn_keeping::{Clock, Stamp};
use tsn_recorded::End;
use tsn_resuming::{Resumed, StartFault, Unwatched, Watcher, resume};
use tsn_types::keys::Key;
use tsn_types::refusals::Refusal;

/// What ends a run over a journal with status 1, as its line says.
#[derive(Drop)]
pub enum JournalFault {
    Failed(Failure),
    Start(StartFault),
    InUse,
    Damaged(u64),
    NoEntry(u64),
    Open(io::Error),
    // The file is a new one.
    Make(io::Error),
    // Why is not always known.
    Write(Option<io::Error>),
    NoSession,
    // No line has room for the record of this key.
    LongRecord(Key),
}

/// Memory was wanted and not there.
pub const NO_MEMORY: JournalFault = JournalFault::Failed(Failure::Fault(Fault::Memory));

impl From<AllocError> for JournalFault {
    fn from(_: AllocError) -> JournalFault {
        NO_MEMORY
    }
}

impl From<Refusal> for JournalFault {
    fn from(why: Refusal) -> JournalFault {
        JournalFault::Failed(Failure::Refused(why))
    }
}

impl From<StartFault> for JournalFault {
    fn from(fault: StartFault) -> JournalFault {
        JournalFault::Start(fault)
    }
}

impl From<OpenFault> for JournalFault {
    fn from(fault: OpenFault) -> JournalFault {
        match fault {
            OpenFault::InUse => JournalFault::InUse,
            OpenFault::Io(error) => JournalFault::from(error),
        }
    }
}

impl From<io::Error> for JournalFault {
    fn from(error: io::Error) -> JournalFault {
        if error.kind() == ErrorKind::OutOfMemory {
            return NO_MEMORY;
        }
        JournalFault::Open(error)
    }
}

/// The system's error of this number, if it is one.
pub fn error_of(number: i32) -> Option<io::Error> {
    match number {
        0 => None,
        _ => Some(io::Error::from_raw_os_error(number)),
    }
}

/// Says a line on standard error, where there is memory for it and it takes one; else nothing is left to do.
pub fn say<E: ByteOut>(errors: &mut E, line: Result<String, AllocError>) {
    if let Ok(line) = line {
        let _ = put_all(errors, line.as_bytes());
    }
}

// What the text of a key has: the name of its kind, and its number.
fn name_of(key: &Key) -> (&'static str, u64) {
    match key {
        Key::Port(id) => ("port", id.get()),
        Key::Filter(id) => ("filter", id.get()),
        Key::Gate(id) => ("gate", id.get()),
        Key::Meter(id) => ("meter", id.get()),
    }
}

/// Tells of a fault, and gives its status, 1.
pub fn fail_over<E: ByteOut>(alloc: Global, errors: &mut E, path: &str, fault: &JournalFault) -> u8
    ensures { result ≡ 1 }
{
    let told = match fault {
        JournalFault::Failed(failure) => return fail(errors, *failure),
        JournalFault::Start(StartFault::Read) => {
            format!(in alloc; "tsnd: cannot read the journal: {path}\n")
        }
        JournalFault::Start(StartFault::Memory) => {
            return fail(errors, Failure::Fault(Fault::Memory));
        }
        JournalFault::Start(StartFault::NoJournal) => {
            format!(in alloc; "tsnd: {path} is no journal\n")
        }
        JournalFault::Start(StartFault::OtherVersion) => {
            format!(in alloc; "tsnd: the journal is of another version\n")
        }
        JournalFault::Start(StartFault::OtherSetup) => {
            format!(in alloc; "tsnd: the journal has another setup\n")
        }
        JournalFault::Start(StartFault::Setup(why)) => return fail(errors, Failure::Refused(*why)),
        JournalFault::Start(StartFault::Refused { line, why }) => {
            let number = why.number();
            format!(in alloc; "tsnd: the journal: line {line} is refused {number}\n")
        }
        JournalFault::InUse => format!(in alloc; "tsnd: the journal is in use: {path}\n"),
        JournalFault::Damaged(line) => {
            format!(in alloc; "tsnd: the journal is damaged at line {line}\n")
        }
        JournalFault::NoEntry(number) => {
            format!(in alloc; "tsnd: the journal has no entry {number}\n")
        }
        JournalFault::Open(error) => {
            format!(in alloc; "tsnd: cannot open the journal {path}: {error}\n")
        }
        JournalFault::Make(error) => {
            format!(in alloc; "tsnd: cannot make the journal {path}: {error}\n")
        }
        JournalFault::Write(Some(error)) => {
            format!(in alloc; "tsnd: cannot write the journal: {error}\n")
        }
        JournalFault::Write(None) => format!(in alloc; "tsnd: cannot write the journal\n"),
        JournalFault::NoSession => format!(in alloc; "tsnd: no session is left\n"),
        JournalFault::LongRecord(key) => {
            let (kind, id) = name_of(key);
            format!(in alloc; "tsnd: the record of {kind} {id} is longer than a line may be\n")
        }
    };
    say(errors, told);
    1
}

// The stamp of a second, and that of an unknown time where it has none.
fn stamp_of(alloc: Global, second: i64) -> Stamp {
    let Ok(at) = Timestamp::from_second(second) else {
        return Stamp::of(&[]);
    };
    match format!(in alloc; "{at}") {
        Ok(text) => Stamp::of(text.as_bytes()),
        Err(_) => Stamp::of(&[]),
    }
}

// The second of now, and the first there is where the time is not known.
fn second_of_now<R: time::Clock>(rt: &R) -> i64 {
    match Timestamp::now(rt) {
        Ok(now) => now.as_second(),
        Err(_) => 0,
    }
}

/// The stamp of now.
pub fn stamp_of_now<R: time::Clock>(rt: &R, alloc: Global) -> Stamp {
    stamp_of(alloc, second_of_now(rt))
}

/// The wall time. Its text is made anew where the second is another.
#[derive(Drop)]
pub struct WallClock<'a, R: time::Clock> {
    rt: &'a R,
    alloc: Global,
    second: i64,
    stamp: Stamp,
}

impl<'a, R: time::Clock> WallClock<'a, R> {
    pub fn new(rt: &'a R, alloc: Global) -> WallClock<'a, R> {
        let second = second_of_now(rt);
        WallClock {
            rt,
            alloc,
            second,
            stamp: stamp_of(alloc, second),
        }
    }
}

impl<R: time::Clock> Clock for WallClock<'_, R> {
    fn stamp(&mut self) -> Stamp {
        let second = second_of_now(self.rt);
        if second != self.second {
            self.second = second;
            self.stamp = stamp_of(self.alloc, second);
        }
        self.stamp.again()
    }
}

// The file of a journal, locked. Where it is not there it is made, with the setup or with the standard one.
fn open_or_make<R: Files<File = File> + AllocGlobal + time::Clock>(
    rt: &R,
    setup: Option<&[u8]>,
    path: &str,
) -> Result<File, JournalFault> {
    match open(rt, path) {
        Ok(file) => return Ok(file),
        Err(OpenFault::Io(error)) if error.kind() == ErrorKind::NotFound => {}
        Err(fault) => return Err(JournalFault::from(fault)),
    }
    let text = NewText::begin(rt, rt.alloc(), setup.unwrap_or(&[]))?;
    match make(rt, path, text.as_bytes()) {
        Ok(file) => Ok(file),
        Err(OpenFault::Io(error)) if error.kind() == ErrorKind::AlreadyExists => {
            Ok(open(rt, path)?)
        }
        Err(fault) => Err(JournalFault::from(fault)),
    }
}

/// The bridge that goes on from the file, of which each line is told to the watcher.
pub fn resume_from<R: Files<File = File> + AllocGlobal, W: Watcher>(
    rt: &R,
    path: &str,
    watcher: &mut W,
) -> Result<Resumed, JournalFault> {
    let mut file = StdIo::new(fs::open(rt, path)?);
    Ok(resume(rt.alloc(), &mut file, None, watcher)?)
}

// The bridge that goes on from the file at a start, which says how far it is where it takes long.
fn resume_at_start<R: Files<File = File> + AllocGlobal + time::Clock, E: ByteOut>(
    rt: &R,
    setup: Option<&[u8]>,
    path: &str,
    errors: &mut E,
) -> Result<Resumed, JournalFault>
    ensures { IfOk result (λ resumed. IsReached resumed.bridge) }
{
    let reading = StdIo::new(fs::open(rt, path)?);
    let mut file = Progress::new(rt, rt.alloc(), reading, errors);
    Ok(resume(rt.alloc(), &mut file, setup, &mut Unwatched)?)
}

/// Opens a journal and goes on from it. An unfinished line is moved out of its way, and that is told.
pub fn start<R: Files<File = File> + AllocGlobal + time::Clock, E: ByteOut>(
    rt: &R,
    setup: Option<&[u8]>,
    path: &str,
    errors: &mut E,
) -> Result<(File, Resumed), JournalFault>
    ensures { IfOk result (λ started. IsReached started.1.bridge) }
{
    let mut file = open_or_make(rt, setup, path)?;
    let resumed = resume_at_start(rt, setup, path, errors)?;
    match resumed.end {
        End::Whole => {}
        End::Unfinished { bytes } => {
            move_end(rt, &mut file, path, resumed.good)?;
            say(
                errors,
                format!(in rt.alloc();
                    "tsnd: the journal: {bytes} bytes of an unfinished record moved to {path}.cut\n"
                ),
            );
        }
        End::Damaged { line } => return Err(JournalFault::Damaged(line)),
    }
    Ok((file, resumed))
}
