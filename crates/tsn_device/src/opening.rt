//! What a start does with the files of a journal.
//!
//! No contract of std tells what a file holds, so that these functions say nothing by contract: each is a few lines, to
//! be read by hand. A journal is locked for as long as it is open. Beside a journal FILE there may be FILE.new, a
//! journal in the making, and FILE.cut, which keeps what was cut off.

use crate::writing::write_all;
use std::alloc::{AllocError, Global};
use std::fs::{File, Files, OpenFile, OpenOptions, TryLockError};
use std::io::{ErrorKind, Read, Seek, SeekFrom};
use std::os::unix::fs::MetadataExt;
use std::path::Path;
use std::{fs, io};

// The bytes that are moved at a time.
const PIECE: usize = 16384;

/// Why the file of a journal is not to be had.
#[derive(Debug, Drop)]
pub enum OpenFault {
    /// Another process has it.
    InUse,
    /// What the system answered; of the kind `OutOfMemory` where memory was wanting here.
    Io(io::Error),
}

impl From<io::Error> for OpenFault {
    fn from(error: io::Error) -> OpenFault {
        OpenFault::Io(error)
    }
}

/// Opens a file that is there for reading and for writing at its end, and locks it.
pub fn open<R: Files<File = File>>(files: &R, path: &str) -> Result<File, OpenFault> {
    let file = OpenOptions::new()
        .read(true)
        .append(true)
        .open(files, path)?;
    lock(files, &file, path)?;
    Ok(file)
}

/// Makes a journal with this first line where no file is, and gives it as `open` does. It comes to its name only once
/// it has the line on the disk, and never over a file that is there: then it fails with `AlreadyExists`.
pub fn make<R: Files<File = File> + AllocGlobal>(
    rt: &R,
    path: &str,
    first_line: &[u8],
) -> Result<File, OpenFault> {
    let new_path = beside(rt.alloc(), path, ".new").map_err(io::Error::from)?;
    remove_left(rt, new_path.as_str())?;
    let mut file = OpenOptions::new()
        .read(true)
        .append(true)
        .create_new(true)
        .open(rt, new_path.as_str())?;
    lock(rt, &file, new_path.as_str())?;
    write_all(&mut file, first_line)?;
    file.sync_all()?;
    let linked = fs::hard_link(rt, new_path.as_str(), path);
    fs::remove_file(rt, new_path.as_str())?;
    linked?;
    sync_folder(rt, path)?;
    Ok(file)
}

/// Moves the bytes of an open journal from this place to its end behind what its FILE.cut has, and cuts them off once
/// they are on the disk there. FILE.cut is made where it is not there.
pub fn move_end<R: Files<File = File> + AllocGlobal>(
    rt: &R,
    file: &mut File,
    path: &str,
    from: u64,
) -> io::Result<()> {
    let cut_path = beside(rt.alloc(), path, ".cut")?;
    let mut cut = OpenOptions::new()
        .append(true)
        .create(true)
        .open(rt, cut_path.as_str())?;
    file.seek(SeekFrom::Start(from))?;
    copy_rest(file, &mut cut)?;
    cut.sync_all()?;
    sync_folder(rt, path)?;
    file.set_len(from)?;
    file.sync_all()
}

// The path with this ending.
fn beside(alloc: Global, path: &str, ending: &str) -> Result<String, AllocError> {
    let mut name = String::from_str(alloc, path)?;
    name.push_str(ending)?;
    Ok(name)
}

// Locks the open file, and sees that the path still names it: whoever had it locked may have taken its name away.
fn lock<R: Files>(files: &R, file: &File, path: &str) -> Result<(), OpenFault> {
    match file.try_lock() {
        Ok(()) => {}
        Err(TryLockError::WouldBlock) => return Err(OpenFault::InUse),
        Err(TryLockError::Error(error)) => return Err(OpenFault::Io(error)),
    }
    let own = file.metadata()?;
    let named = fs::metadata(files, path)?;
    if own.dev() != named.dev() || own.ino() != named.ino() {
        return Err(OpenFault::InUse);
    }
    Ok(())
}

// Removes a journal in the making that a crash left. It is not emptied: the same file may have come to its own name.
fn remove_left<R: Files<File = File>>(files: &R, path: &str) -> Result<(), OpenFault> {
    match open(files, path) {
        Ok(_left) => {
            fs::remove_file(files, path)?;
            Ok(())
        }
        Err(OpenFault::Io(error)) if error.kind() == ErrorKind::NotFound => Ok(()),
        Err(fault) => Err(fault),
    }
}

// Sees that the names in the folder of this file are on the disk.
fn sync_folder<R: Files<File = File>>(files: &R, path: &str) -> io::Result<()> {
    let folder = match Path::new(path).parent() {
        Some(folder) if !folder.as_str().is_empty() => folder.as_str(),
        _ => ".",
    };
    File::open(files, folder)?.sync_all()
}

// Writes what the file has from where it stands to its end, a piece at a time.
fn copy_rest(file: &mut File, to: &mut File) -> io::Result<()> {
    let mut piece = [0u8; PIECE];
    'pieces: for _ in 0..u64::MAX {
        let count = match file.read(&mut piece) {
            Ok(0) => return Ok(()),
            Ok(count) => count,
            Err(error) if error.kind() == ErrorKind::Interrupted => 0,
            Err(error) => return Err(error),
        };
        write_all(to, &piece[..count])?;
    }
    Err(io::Error::from(ErrorKind::Interrupted))
}
