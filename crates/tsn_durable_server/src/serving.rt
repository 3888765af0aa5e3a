//! The service of connections over a journal.
ghost use Rattle.std.specs.Prelude.{◌≤◌};
ghost use Rattle.tsn_bridge.specs.Reached.{IsReached};

use crate::lasting::serve_lasting;
use std::alloc::Global;
use std::fs::File;
use std::marker::Brand;
use std::net::{Net, TcpListener, TcpStream};
use std::rt::Files;
use std::sync::Wait;
use std::sync::atomic::{AtomicI32, Ordering};
use std::thread::Threads;
use std::time;
use tsn_bytes::ByteOut;
use tsn_connections::{Place, last_instant};
use tsn_device::{Device, DeviceOverFile, Failed, FileDevice, UnsyncedDevice};
use tsn_failures::Failure;
use tsn_history::Opened;
use tsn_keeping::Keeper;
use tsn_resuming::Resumed;
use tsn_serve::{Source, Stop};
use tsn_server::{LastingServerFault, ServerFault, StoppableSource};
use tsn_types::refusals::{Field, Refusal};
use tsn_wal_files::{JournalFault, NO_MEMORY, WallClock, error_of, fail_over, start};
use tsn_words::{Kept, Serving, Syncs};

/// A file device that leaves word of why a call of it failed, for when it is gone: the number of the system's error,
/// and 0 as long as there is none.
#[derive(Drop)]
struct TellingDevice<'a, D: Device> {
    device: D,
    why: &'a AtomicI32,
}

impl<D: DeviceOverFile> TellingDevice<'_, D> {
    // Leaves word of a call that failed.
    fn tell(&self) {
        if let Some(error) = self.device.fault() {
            self.why
                .store(error.raw_os_error().unwrap_or(0), Ordering::SeqCst);
        }
    }
}

impl<D: DeviceOverFile> Device for TellingDevice<'_, D> {
    ghost kept = { λ d. D.kept d.device };

    ghost loose = { λ d. D.loose d.device };

    ghost works = { λ d. D.works d.device };

    fn append(&mut self, bytes: &[u8]) -> Result<(), Failed> {
        let done = self.device.append(bytes);
        if done.is_err() {
            self.tell();
        }
        done
    }

    fn sync(&mut self) -> Result<(), Failed> {
        let done = self.device.sync();
        if done.is_err() {
            self.tell();
        }
        done
    }
}

// Why a service ended before its end, as its line says.
fn fault_of(fault: LastingServerFault, why: &AtomicI32) -> JournalFault {
    match fault {
        LastingServerFault::Journal => JournalFault::Write(error_of(why.load(Ordering::SeqCst))),
        LastingServerFault::Server(ServerFault::Fault(fault)) => {
            JournalFault::Failed(Failure::Fault(fault))
        }
        LastingServerFault::Server(ServerFault::Refused(Refusal::Range(Field::Session))) => {
            JournalFault::NoSession
        }
        LastingServerFault::Server(ServerFault::Refused(why)) => {
            JournalFault::Failed(Failure::Refused(why))
        }
    }
}

// Serves the source's connections over the bridge that goes on and the file that keeps it.
fn serve_on<
    D: DeviceOverFile + Send,
    R: time::Clock + Wait + Threads + Sync,
    S: Source + Stop + Sync,
    O: ByteOut,
>(
    rt: &R,
    alloc: Global,
    started: (File, Resumed),
    serving: Serving,
    source: &S,
    output: &mut O,
) -> Result<(), JournalFault>
    requires { IsReached started.1.bridge }
{
    let (file, resumed) = started;
    let why = AtomicI32::new(0);
    let device = TellingDevice {
        device: D::over(file),
        why: &why,
    };
    let Ok(keeper) = Keeper::new(alloc, device, resumed.chain) else {
        return Err(NO_MEMORY);
    };
    let clock = WallClock::new(rt, alloc);
    let at = last_instant(&serving);
    let ended = serve_lasting::<_, _, _, _, Brand, Brand, _>(
        rt,
        alloc,
        resumed.bridge,
        keeper,
        clock,
        Opened::new(),
        Opened::new(),
        serving.workers as usize,
        source,
        at,
        output,
    );
    match ended {
        Ok(()) => Ok(()),
        Err(fault) => Err(fault_of(fault, &why)),
    }
}

/// Serves connections there over the journal, whose file is made where it is not there, and gives the status.
/// With a setup the journal must have just that one. The journal is opened before the endpoint, and both before
/// anything is served.
pub fn serve_over<
    R: Files<File = File>
        + AllocGlobal
        + time::Clock
        + Wait
        + Threads
        + Net<Listener = TcpListener, Stream = TcpStream>
        + Sync,
    O: ByteOut,
    E: ByteOut,
>(
    rt: &R,
    setup: Option<&[u8]>,
    kept: &Kept,
    place: &Place<'_, R>,
    output: &mut O,
    errors: &mut E,
) -> u8
    ensures { result ≤ 1 }
{
    let alloc = rt.alloc();
    let path = kept.file.as_str();
    let serving = place.serving;
    let started = match start(rt, setup, path, errors) {
        Ok(started) => started,
        Err(fault) => return fail_over(alloc, errors, path, &fault),
    };
    let (source, bound) = match place.listen(rt, alloc, errors) {
        Ok(listening) => listening,
        Err(status) => return status,
    };
    let Ok(source) = StoppableSource::new(alloc, rt, source, bound, serving.workers) else {
        return fail_over(alloc, errors, path, &NO_MEMORY);
    };
    let ended = match kept.syncs {
        Syncs::Each => serve_on::<FileDevice, _, _, _>(
            rt, alloc, started, serving, &source, output,
        ),
        Syncs::None => {
            serve_on::<UnsyncedDevice, _, _, _>(rt, alloc, started, serving, &source, output)
        }
    };
    match ended {
        Ok(()) => 0,
        Err(fault) => fail_over(alloc, errors, path, &fault),
    }
}
