//! The names of a load: its source, and the task, the group and the sequence of each block.
ghost use Rattle.std.specs.Prelude.{◌≡◌, ◌<◌, IfOk, codes};
ghost use Rattle.load_gen.specs.Draws.{name_of};

use crate::OutOfMemory;
use itoa::Buffer;
use seg_names::{Name, NameFault, TaskId};
use std::alloc::{AllocError, Global};

// The text of a block's names.
fn text_of(alloc: Global, block: u64) -> Result<Vec<u8>, OutOfMemory>
    ensures { IfOk result (λ text. text.items ≡ name_of block) }
{
    let mut digits = Buffer::new();
    let mut text = Vec::from_slice(alloc, b"load-")?;
    text.extend_from_slice(digits.format(block).as_bytes())?;
    Ok(text)
}

/// The id of a block's task, and of its group.
pub fn task_of(alloc: Global, block: u64) -> Result<TaskId, OutOfMemory>
    requires { block < 50000 }
    ensures { IfOk result (λ task. task ≡ name_of block) }
{
    let text = text_of(alloc, block)?;
    match TaskId::new(alloc, &text) {
        Ok(task) => Ok(task),
        Err(NameFault::OutOfMemory) => Err(AllocError),
        Err(NameFault::BadName) => unreachable!(),
    }
}

/// The name of a block's sequence.
pub fn sequence_of(alloc: Global, block: u64) -> Result<Name, OutOfMemory>
    requires { block < 50000 }
    ensures { IfOk result (λ name. name ≡ name_of block) }
{
    let text = text_of(alloc, block)?;
    match Name::new(alloc, &text) {
        Ok(name) => Ok(name),
        Err(NameFault::OutOfMemory) => Err(AllocError),
        Err(NameFault::BadName) => unreachable!(),
    }
}

/// The source of the load.
pub fn source(alloc: Global) -> Result<Name, OutOfMemory>
    ensures { IfOk result (λ name. name ≡ codes "load") }
{
    match Name::new(alloc, b"load") {
        Ok(name) => Ok(name),
        Err(NameFault::OutOfMemory) => Err(AllocError),
        Err(NameFault::BadName) => unreachable!(),
    }
}
