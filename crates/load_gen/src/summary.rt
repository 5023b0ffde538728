//! The line about a load.
ghost use Rattle.std.specs.Prelude.{◌++◌, ◌≡◌, IfOk, OnOk, decimal};
ghost use Rattle.load_gen.specs.Summary.{summary_text};

use crate::OutOfMemory;
use itoa::Buffer;
use std::alloc::Global;

/// What became of a load.
#[derive(Clone, Copy, Debug, PartialEq, Eq)]
pub struct Summary {
    /// The publications in the book at the end.
    pub commits: u64,
    /// The commands that were answered.
    pub done: u64,
    /// The commands that were refused.
    pub refused: u64,
    /// The ids in the timeline of the load's source, each counted once.
    pub visible: u64,
}

// Adds a key, with what stands before it, and its number behind the line.
fn put(line: &mut Vec<u8>, key: &[u8], number: u64) -> Result<(), OutOfMemory>
    ensures { OnOk result (line.new.items ≡ line.old.items ++ key.now ++ decimal number) }
{
    let mut digits = Buffer::new();
    line.extend_from_slice(key)?;
    line.extend_from_slice(digits.format(number).as_bytes())
}

/// The line about a load. The error is want of memory.
pub fn summary_line(alloc: Global, summary: Summary) -> Result<Vec<u8>, OutOfMemory>
    ensures { IfOk result (λ line. line.items ≡ summary_text summary) }
{
    let mut line = Vec::new(alloc);
    put(&mut line, b"{\"commits\":", summary.commits)?;
    put(&mut line, b",\"done\":", summary.done)?;
    put(&mut line, b",\"refused\":", summary.refused)?;
    put(&mut line, b",\"visible\":", summary.visible)?;
    line.extend_from_slice(b"}\n")?;
    Ok(line)
}
