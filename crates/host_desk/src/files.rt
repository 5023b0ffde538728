// Lists of files in memory, and what a call does to them.
ghost use Rattle.std.specs.Prelude.{◌≡◌, ◌<◌, ◌≤◌, ◌-◌, length, take, OnOk, OnErr, IfOk};
ghost use Rattle.host_desk.specs.Desk.{Fills};
ghost use Rattle.host_desk.specs.Replay.{seen_step, items_of, file_of, written};

use crate::OutOfMemory;
use crate::call::Call;
use std::alloc::Global;

// The same files once more.
pub(crate) fn copy_of(alloc: Global, files: &[Vec<u8>]) -> Result<Vec<Vec<u8>>, OutOfMemory>
    ensures { IfOk result (λ copy. items_of copy.items ≡ items_of files.now) }
{
    let mut copy = Vec::new(alloc);
    for file in files {
        copy.push(file.to_vec(alloc)?)?;
    }
    Ok(copy)
}

// Puts bytes over those at a place and past the end, if the place is no further than the end.
pub(crate) fn write_over(file: &mut Vec<u8>, at: u64, bytes: &[u8]) -> Result<(), OutOfMemory>
    ensures done { OnOk result (file.new.items ≡ written at bytes.now file.old.items) }
    ensures not_done { OnErr result (file.new.items ≡ file.old.items) }
{
    if at > file.len() as u64 {
        return Ok(());
    }
    let at = at as usize;
    let over = bytes.len().min(file.len() - at);
    file.extend_from_slice(&bytes[over..])?;
    file[at..at + over].copy_from_slice(&bytes[..over]);
    Ok(())
}

// Does to the files what a call did to them.
pub(crate) fn replay(files: &mut Vec<Vec<u8>>, call: &Call) -> Result<(), OutOfMemory>
    ensures done { OnOk result (items_of files.new.items ≡ seen_step (items_of files.old.items) call.now) }
    ensures not_done { OnErr result (items_of files.new.items ≡ items_of files.old.items) }
{
    match call {
        Call::Write {
            file,
            at,
            bytes,
            done,
        } => {
            if *done && *file < files.len() {
                write_over(&mut files[*file], *at, bytes)?;
            }
        }
        Call::Cut { file, len, done } => {
            if *done && *file < files.len() {
                cut_to(&mut files[*file], *len);
            }
        }
        _ => {}
    }
    Ok(())
}

// Keeps the first bytes of a file, or all where it has no more.
fn cut_to(file: &mut Vec<u8>, len: u64)
    ensures { file.new.items ≡ take len file.old.items }
{
    if len < file.len() as u64 {
        file.truncate(len as usize);
    }
}

// One of the files.
pub(crate) fn bytes_of(files: &Vec<Vec<u8>>, file: usize) -> &[u8]
    requires { file < length files.now.items }
    ensures { result.now ≡ file_of (items_of files.now.items) file }
{
    &files[file]
}

// Fills the piece from a place of the bytes on.
pub(crate) fn copy_from(bytes: &[u8], at: u64, into: &mut [u8]) -> usize
    ensures count { result ≤ length into.old }
    ensures filled { Fills bytes.now at into.old into.new result }
{
    if at >= bytes.len() as u64 {
        return 0;
    }
    let rest = &bytes[at as usize..];
    let count = rest.len().min(into.len());
    into[..count].copy_from_slice(&rest[..count]);
    count
}
