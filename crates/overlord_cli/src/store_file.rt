// One file of a store: opened and locked for as long as the program runs, read and written at a place, made stable.
ghost use Rattle.std.specs.Prelude.{◌≤◌, IfOk, length};

use std::fs::{File, Metadata, OpenOptions, Permissions};
use std::io::ErrorKind;
use std::os::fd::AsRawFd;
use std::os::unix::fs::{FileExt, MetadataExt, OpenOptionsExt, PermissionsExt, fchown};
use std::path::PathBuf;
use std::{fs, io};

/// The bit of a file's mode that marks it as unsettled. It is the sticky bit, which means nothing else on a file.
const UNSETTLED: u32 = 0o1000;

/// A file of the store, locked against every other program that opens it here. The lock goes with the process.
///
/// A sync that failed may leave the new bytes in the system's memory alone, as if they were written: reads give them, no
/// later sync writes them, and a stop of the machine loses them. So a file is marked before a run reads or writes it and
/// until that run has ended well, and the next opening copies one that is still marked (`renewed`). The mark takes no
/// sync, for what it warns of lies in the same memory.
#[derive(Drop)]
pub struct StoreFile {
    file: File,
    /// The name of the file that is the mark where the mode can't bear it: it is another user's to change, or none keeps it.
    beside: Option<String>,
}

impl StoreFile {
    /// Opens the file of this name, or makes an empty one that its owner alone may read and write, and marks it. It
    /// fails where another program holds the file.
    ///
    /// The folder is synced each time: the run that made the file may have ended before it came to that.
    pub fn open(rt: &HostRuntime, name: &str) -> io::Result<StoreFile> {
        let found = open_locked(rt, name, OpenOptions::new().create(true))?;
        let path = target(rt, name)?;
        let beside = format!(in rt.alloc(); "{}.unsettled", path.as_str())?;
        let was_beside = is_there(rt, beside.as_str())?;
        let file = if was_beside || has_mark(&found)? {
            renewed(rt, &found, &path)?
        } else {
            found
        };
        let beside = mark(rt, &file, beside, was_beside)?;
        sync_folder(rt, path)?;
        Ok(StoreFile { file, beside })
    }

    /// Takes the mark away, at the end of a run in which no call on the files failed.
    pub fn settle(&self, rt: &HostRuntime) -> io::Result<()> {
        match &self.beside {
            Some(name) => fs::remove_file(rt, name.as_str()),
            None => set_mode(&self.file, mode(&self.file)? & !UNSETTLED),
        }
    }

    /// The length in bytes.
    pub fn length(&self) -> io::Result<u64> {
        Ok(self.file.metadata()?.len())
    }

    /// Reads until the piece is full or the file ends, and answers with how many bytes.
    pub fn read_at(&self, at: u64, into: &mut [u8]) -> io::Result<usize>
        ensures { IfOk result (λ n. n ≤ length into.old) }
    {
        let mut filled = 0;
        while filled < into.len() {
            let place = at.saturating_add(filled as u64);
            let count = read_some(&self.file, place, &mut into[filled..])?;
            if count == 0 {
                break;
            }
            filled += count;
        }
        Ok(filled)
    }

    /// Writes all of the bytes.
    pub fn write_at(&self, at: u64, bytes: &[u8]) -> io::Result<()> {
        self.file.write_all_at(bytes, at)
    }

    /// Cuts to a length in bytes.
    pub fn cut(&self, length: u64) -> io::Result<()> {
        self.file.set_len(length)
    }

    /// Makes the file's bytes stable.
    pub fn sync(&self) -> io::Result<()> {
        self.file.sync_data()
    }
}

/// One read, again where a signal interrupted it.
fn read_some(file: &File, at: u64, into: &mut [u8]) -> io::Result<usize>
    ensures { IfOk result (λ n. n ≤ length into.old) }
{
    for _ in 0..u64::MAX {
        match file.read_at(into, at) {
            Err(error) if is_interrupted(&error) => {}
            outcome => return outcome,
        }
    }
    Err(ErrorKind::TimedOut.into())
}

pub fn is_interrupted(error: &io::Error) -> bool {
    error.kind() == ErrorKind::Interrupted
}

/// Opens a file for reading and writing. One that is made is for its owner alone, and one that is there keeps its mode.
fn open_with(rt: &HostRuntime, name: &str, how: &mut OpenOptions) -> io::Result<File> {
    how.read(true).write(true).mode(0o600).open(rt, name)
}

/// Opens a regular file and locks it.
fn open_locked(rt: &HostRuntime, name: &str, how: &mut OpenOptions) -> io::Result<File> {
    let mut file = open_with(rt, name, how)?;
    // what is meant for a standard stream that was closed at the start must not land in the store
    if file.as_raw_fd() <= 2 {
        file = file.try_clone()?;
    }
    file.try_lock()?;
    // between the opening and the lock another file may have been put in this one's place
    let (found, named) = (file.metadata()?, fs::metadata(rt, name)?);
    if !found.is_file() || found.dev() != named.dev() || found.ino() != named.ino() {
        return Err(ErrorKind::Unsupported.into());
    }
    Ok(file)
}

/// Whether anything is of this name. One too long for the system is nobody's; what can't be looked up may be there.
fn is_there(rt: &HostRuntime, name: &str) -> io::Result<bool> {
    match fs::symlink_metadata(rt, name) {
        Ok(_) => Ok(true),
        Err(error) if is_of_no_file(error.kind()) => Ok(false),
        Err(error) => Err(error),
    }
}

fn is_of_no_file(kind: ErrorKind) -> bool {
    matches!(kind, ErrorKind::NotFound | ErrorKind::InvalidFilename)
}

fn mode(file: &File) -> io::Result<u32> {
    Ok(file.metadata()?.permissions().mode())
}

fn set_mode(file: &File, mode: u32) -> io::Result<()> {
    file.set_permissions(Permissions::from_mode(mode))
}

fn has_mark(file: &File) -> io::Result<bool> {
    Ok(mode(file)? & UNSETTLED != 0)
}

/// Sets the mark in a file's mode, and answers whether it is there: another user's file refuses it, and some file
/// systems keep no such bit.
fn bears_mark(file: &File) -> io::Result<bool> {
    match set_mode(file, mode(file)? | UNSETTLED) {
        Ok(()) => has_mark(file),
        Err(error) if error.kind() == ErrorKind::PermissionDenied => Ok(false),
        Err(error) => Err(error),
    }
}

/// Marks a file by its mode, or else by a file beside it, whose name is the answer.
fn mark(
    rt: &HostRuntime,
    file: &File,
    beside: String,
    was_beside: bool,
) -> io::Result<Option<String>> {
    if bears_mark(file)? {
        if was_beside {
            fs::remove_file(rt, beside.as_str())?;
        }
        return Ok(None);
    }
    if !was_beside {
        let _made = open_with(rt, beside.as_str(), OpenOptions::new().create_new(true))?;
    }
    Ok(Some(beside))
}

/// Puts a copy, whose bytes a sync does write, in the place of a file that is marked. Its name while it is made is no
/// longer than any file's may be, whatever the store is called.
fn renewed(rt: &HostRuntime, mut old: &File, path: &PathBuf) -> io::Result<File> {
    let found = old.metadata()?;
    let name = format!(in rt.alloc(); ".overlord-{}.renewed", found.ino())?;
    let place = path.with_file_name(rt.alloc(), name.as_str())?;
    // one that was cut off
    let _ = fs::remove_file(rt, place.as_str());
    let mut copy = open_locked(rt, place.as_str(), OpenOptions::new().create_new(true))?;
    io::copy(&mut old, &mut copy)?;
    give(&copy, &found)?;
    copy.sync_all()?;
    fs::rename(rt, place.as_str(), path.as_str())?;
    Ok(copy)
}

/// Gives a copy the group, the owner and the mode of its file, as far as the system lets it, and nobody more access than
/// the file gave. Root alone gives a file to another owner, and nobody else has to.
fn give(copy: &File, found: &Metadata) -> io::Result<()> {
    let mode = found.permissions().mode() & !UNSETTLED;
    let has_group = fchown(copy, None, Some(found.gid())).is_ok();
    let _ = fchown(copy, Some(found.uid()), None);
    set_mode(copy, if has_group { mode } else { without_group(mode) })
}

/// A mode in which no group has access. Those of the old group are among the others then, and get no more than they had.
fn without_group(mode: u32) -> u32 {
    mode & !0o070 & (mode >> 3 | !0o007)
}

/// Where the file itself stands: where a link at its name leads.
fn target(rt: &HostRuntime, name: &str) -> io::Result<PathBuf> {
    if fs::symlink_metadata(rt, name)?.is_symlink() {
        fs::canonicalize(rt, name)
    } else {
        Ok(PathBuf::from_str(rt.alloc(), name)?)
    }
}

/// Makes the names in the folder of a file stable, where the system lets it be synced. Elsewhere the sync of the file
/// has to do, with which file systems that keep a journal write its name.
fn sync_folder(rt: &HostRuntime, mut path: PathBuf) -> io::Result<()> {
    path.pop();
    let folder = if path.as_str().is_empty() {
        "."
    } else {
        path.as_str()
    };
    match File::open(rt, folder).and_then(|opened| opened.sync_all()) {
        Err(error) if is_of_no_sync(error.kind()) => Ok(()),
        outcome => outcome,
    }
}

/// The errors of a folder that may not be read, and of one whose file system syncs no folders.
fn is_of_no_sync(kind: ErrorKind) -> bool {
    matches!(
        kind,
        ErrorKind::PermissionDenied | ErrorKind::InvalidInput | ErrorKind::Unsupported
    )
}
