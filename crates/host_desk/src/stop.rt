// What a stop within a call of a host in memory leaves.
ghost use Rattle.std.specs.Prelude.{◌≡◌, ◌<◌, ◌≤◌, ◌+◌, ◌-◌, ◌^◌, [], length, take, replicate, OnOk, IfOk, Option, Some};
ghost use Rattle.host_desk.specs.Replay.{Disk, WasLeft, items_of, file_of, run, start, said_step, written, torn, left_by, left_after};

use crate::OutOfMemory;
use crate::call::Call;
use crate::files::{bytes_of, copy_of, replay, write_over};
use std::alloc::Global;

/// What a stop leaves in the place of bytes that no sync has made stable.
#[derive(Clone, Copy, Debug, PartialEq, Eq)]
pub enum Pick {
    /// What stood there at the file's last sync, or at first. Nothing was said of the call's own bytes.
    Before,
    /// What a read gives after the call.
    After,
    /// This byte in each place that was written or cut since the file's last sync, at the greatest length since then.
    Fill(u8),
}

/// What a stop left of a host in memory: four files, and how many bytes were said.
#[derive(Drop)]
pub struct Image {
    said: u64,
    files: Vec<Vec<u8>>,
    ghost four: { length files.items ≡ 4 },
}

impl Image {
    ghost use Rattle.host_desk.specs.Image.{said_count, file_in, IsPicked};

    // What a stop within the call of a number leaves.
    pub(crate) fn new(
        alloc: Global,
        first: &[Vec<u8>],
        calls: &[Call],
        number: usize,
        pick: Pick,
    ) -> Result<Image, OutOfMemory>
        requires number { number < length calls.now }
        requires four { length first.now ≡ 4 }
        requires said { length (run (start (items_of first.now)) calls.now).said < 2 ^ 64 }
        ensures picked { IfOk result (IsPicked pick (items_of first.now) calls.now number) }
        ensures observed { IfOk result (λ image. WasLeft (items_of first.now) calls.now number (take (said_count image) (run (start (items_of first.now)) calls.now).said) (file_in image)) }
    {
        let before = &calls[..number];
        let call = &calls[number];
        match pick {
            Pick::Before => {
                let played = play(alloc, first, before, None)?;
                Ok(Image {
                    said: played.said,
                    files: played.left,
                })
            }
            Pick::After => {
                let mut played = play(alloc, first, before, None)?;
                replay(&mut played.seen, call)?;
                Ok(Image {
                    said: said_after(played.said, call),
                    files: played.seen,
                })
            }
            Pick::Fill(byte) => {
                let mut played = play(alloc, first, before, Some(byte))?;
                tear(alloc, &mut played.left, call, byte)?;
                Ok(Image {
                    said: said_after(played.said, call),
                    files: played.left,
                })
            }
        }
    }

    /// How many bytes were said before the stop.
    pub fn said(&self) -> u64
        ensures { result ≡ said_count self.now }
    {
        self.said
    }

    /// The bytes of a file.
    pub fn file(&self, file: usize) -> &[u8]
        requires { file < 4 }
        ensures { result.now ≡ file_in self.now file }
    {
        bytes_of(&self.files, file)
    }
}

// What some calls made of files: what a read gives, what a stop is picked to leave, and how much was said.
#[derive(Drop)]
struct Played {
    seen: Vec<Vec<u8>>,
    left: Vec<Vec<u8>>,
    said: u64,
}

// Plays the calls once more.
fn play(
    alloc: Global,
    first: &[Vec<u8>],
    calls: &[Call],
    fill: Option<u8>,
) -> Result<Played, OutOfMemory>
    requires { length (run (start (items_of first.now)) calls.now).said < 2 ^ 64 }
    ensures seen { IfOk result (λ played. items_of played.seen.items ≡ (run (start (items_of first.now)) calls.now).seen) }
    ensures left { IfOk result (λ played. items_of played.left.items ≡ left_after fill (start (items_of first.now)) (items_of first.now) calls.now) }
    ensures said { IfOk result (λ played. played.said ≡ length (run (start (items_of first.now)) calls.now).said) }
{
    let mut seen = copy_of(alloc, first)?;
    let mut left = copy_of(alloc, first)?;
    let mut said = 0;
    for call in calls {
        leave(alloc, &mut left, &seen, call, fill)?;
        replay(&mut seen, call)?;
        said = said_after(said, call);
    }
    Ok(Played { seen, left, said })
}

// How much was said after a call.
fn said_after(said: u64, call: &Call) -> u64
    requires { said + length (said_step [] call.now) < 2 ^ 64 }
    ensures { result ≡ said + length (said_step [] call.now) }
{
    match call {
        Call::Say { bytes } => said + bytes.len() as u64,
        _ => said,
    }
}

// Goes on from what a stop leaves before a call to what it leaves after it.
fn leave(
    alloc: Global,
    left: &mut Vec<Vec<u8>>,
    seen: &[Vec<u8>],
    call: &Call,
    fill: Option<u8>,
) -> Result<(), OutOfMemory>
    ensures { OnOk result (items_of left.new.items ≡ left_by fill (items_of seen.now) (items_of left.old.items) call.now) }
{
    match call {
        Call::Sync { file, done } => {
            if *done && *file < left.len() {
                left[*file] = bytes_in(alloc, seen, *file)?;
            }
            Ok(())
        }
        _ => match fill {
            Some(byte) => tear(alloc, left, call, byte),
            None => Ok(()),
        },
    }
}

// The bytes of a file once more, none for a number that is no file's.
fn bytes_in(alloc: Global, files: &[Vec<u8>], file: usize) -> Result<Vec<u8>, OutOfMemory>
    ensures { IfOk result (λ bytes. bytes.items ≡ file_of (items_of files.now) file) }
{
    match files.get(file) {
        Some(bytes) => bytes.to_vec(alloc),
        None => Ok(Vec::new(alloc)),
    }
}

// Fills what a call writes or cuts with a byte.
fn tear(alloc: Global, left: &mut Vec<Vec<u8>>, call: &Call, byte: u8) -> Result<(), OutOfMemory>
    ensures { OnOk result (items_of left.new.items ≡ torn (Some byte) (items_of left.old.items) call.now) }
{
    match call {
        Call::Write {
            file,
            at,
            bytes,
            ..
        } => {
            if *file < left.len() {
                fill_over(alloc, &mut left[*file], *at, bytes.len(), byte)?;
            }
        }
        Call::Cut { file, len, .. } => {
            if *file < left.len() {
                fill_past(alloc, &mut left[*file], *len, byte)?;
            }
        }
        _ => {}
    }
    Ok(())
}

// Puts a byte into each place of a range.
fn fill_over(
    alloc: Global,
    file: &mut Vec<u8>,
    at: u64,
    count: usize,
    byte: u8,
) -> Result<(), OutOfMemory>
    ensures { OnOk result (file.new.items ≡ written at (replicate count byte) file.old.items) }
{
    let bytes = vec![in alloc; byte; count]?;
    write_over(file, at, &bytes)
}

// Puts a byte into each place from one on.
fn fill_past(alloc: Global, file: &mut Vec<u8>, at: u64, byte: u8) -> Result<(), OutOfMemory>
    ensures { OnOk result (file.new.items ≡ written at (replicate (length file.old.items - at) byte) file.old.items) }
{
    let count = file.len().saturating_sub(at as usize);
    fill_over(alloc, file, at, count, byte)
}
