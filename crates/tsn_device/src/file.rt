//! A device over a file of the system.
//!
//! No contract of std tells what a file takes or keeps. So each call of the file is followed by a note of what it
//! answered, and the device is seen by its notes. That each method here makes the call that it notes, and that the
//! system does what it answers, is for whoever reads this file: a body that notes a sync and makes none would be proved
//! as well.
ghost use Rattle.std.specs.Prelude.{◌≡◌, ◌<◌, ◌≤◌, ◌↔◌, ◌++◌, [], length, take, true, false, IfOk, IsNone, OnErr};
ghost use Rattle.tsn_device.specs.Noted.{taken};

use crate::device::{Device, Failed};
use crate::note::Note;
use crate::writing::write_some;
use std::fs::File;
use std::io;
use std::marker::Model;

// A note of bytes that the file took.
const TAKEN: u64 = 0;

// A note of a sync that came back.
const SYNCED: u64 = 1;

/// A device over a file of the system, which is written at its end.
pub trait DeviceOverFile: Device {
    /// A device over an open file that is written at its end. What stands in it from before is no part of what the
    /// device is seen to keep.
    fn over(file: File) -> Self
        ensures none { (Self.kept result ≡ []) × (Self.loose result ≡ []) }
        ensures works { Self.works result ≡ true };

    /// Why a call failed, where one has.
    fn fault(&self) -> Option<&io::Error>
        ensures { IsNone result ↔ (Self.works self.now ≡ true) };
}

/// A file that is written at its end. A contract sees what was written since it is a device, how much of that is kept,
/// and whether no call has failed. A write that a signal interrupts is made again; a sync that fails never is.
#[derive(Drop)]
pub struct FileDevice {
    file: File,
    note: Note,
    fault: Option<io::Error>,
}

impl Model for FileDevice {
    ghost use Rattle.std.specs.Prelude.{is_none};
    ghost use Rattle.tsn_device.specs.Noted.{Seen};

    ghost Value = { Seen };

    ghost view = { λ d. record { log = d.note.log; works = is_none d.fault } };
}

impl FileDevice {
    // Takes note of why a call failed.
    fn failed(&mut self, error: io::Error) -> Failed
        ensures { self.new ≡ record { log = self.old.log; works = false } }
    {
        self.fault = Some(error);
        Failed
    }

    // Writes a front of the bytes, and says how many.
    fn append_some(&mut self, bytes: &[u8]) -> Result<usize, Failed>
        ensures count { IfOk result (λ n. (0 < n) × (n ≤ length bytes.now)) }
        ensures ok { IfOk result (λ n.
            self.new ≡ record { log = taken (take n bytes.now) self.old.log; works = self.old.works }) }
        ensures err { OnErr result (self.new ≡ record { log = self.old.log; works = false }) }
    {
        match write_some(&mut self.file, bytes) {
            Ok(count) => {
                self.note.note(&[TAKEN], &bytes[..count]);
                Ok(count)
            }
            Err(error) => Err(self.failed(error)),
        }
    }
}

impl DeviceOverFile for FileDevice {
    fn over(file: File) -> FileDevice {
        FileDevice {
            file,
            note: Note::new(),
            fault: None,
        }
    }

    fn fault(&self) -> Option<&io::Error> {
        self.fault.as_ref()
    }
}

impl Device for FileDevice {
    ghost kept = { λ d. d.log.kept };

    ghost loose = { λ d. d.log.loose };

    ghost works = { λ d. d.works };

    fn append(&mut self, bytes: &[u8]) -> Result<(), Failed> {
        let mut done = 0;
        'writes: while done < bytes.len() {
            match self.append_some(&bytes[done..]) {
                Ok(count) => done += count,
                Err(failed) => return Err(failed),
            }
        }
        Ok(())
    }

    fn sync(&mut self) -> Result<(), Failed> {
        match self.file.sync_data() {
            Ok(()) => {
                self.note.note(&[SYNCED], &[]);
                Ok(())
            }
            Err(error) => Err(self.failed(error)),
        }
    }
}

/// A file that is written at its end, and of which no sync is made. It is seen to keep what a sync would have it keep:
/// that outlasts the process, and perhaps not a loss of power.
#[derive(Drop)]
pub struct UnsyncedDevice {
    device: FileDevice,
}

impl DeviceOverFile for UnsyncedDevice {
    fn over(file: File) -> UnsyncedDevice {
        UnsyncedDevice {
            device: FileDevice::over(file),
        }
    }

    fn fault(&self) -> Option<&io::Error> {
        self.device.fault()
    }
}

impl Device for UnsyncedDevice {
    ghost kept = { λ d. d.device.log.kept };

    ghost loose = { λ d. d.device.log.loose };

    ghost works = { λ d. d.device.works };

    fn append(&mut self, bytes: &[u8]) -> Result<(), Failed> {
        self.device.append(bytes)
    }

    fn sync(&mut self) -> Result<(), Failed> {
        self.device.note.note(&[SYNCED], &[]);
        Ok(())
    }
}
