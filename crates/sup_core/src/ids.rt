//! The ids of sequences and of their replicas.
ghost use Rattle.std.specs.Prelude.{◌≡◌, IfOk, true};
ghost use Rattle.book_rows.specs.Names.{replica_name, sequence_name};
ghost use Rattle.seg_names.specs.Names.{is_task_id};

use crate::OutOfMemory;
use itoa::Buffer;
use seg_names::{Name, NameFault, TaskId};
use std::alloc::{AllocError, Global};

fn id_of(alloc: Global, text: &[u8]) -> Result<TaskId, OutOfMemory>
    requires { is_task_id text.now ≡ true }
    ensures { IfOk result (λ id. id ≡ text.now) }
{
    match TaskId::new(alloc, text) {
        Ok(id) => Ok(id),
        Err(NameFault::BadName) => unreachable!(),
        Err(NameFault::OutOfMemory) => Err(AllocError),
    }
}

// The text of a sequence's id.
fn sequence_text(
    alloc: Global,
    source: &Name,
    group: u32,
    index: u32,
) -> Result<Vec<u8>, OutOfMemory>
    ensures { IfOk result (λ text. text.items ≡ sequence_name source.now group index) }
{
    let mut digits = Buffer::new();
    let mut text = Vec::from_slice(alloc, b"sup:")?;
    text.extend_from_slice(source.bytes())?;
    text.push(b':')?;
    text.extend_from_slice(digits.format(group).as_bytes())?;
    text.push(b':')?;
    text.extend_from_slice(digits.format(index).as_bytes())?;
    Ok(text)
}

/// The id of a sequence. The error is want of memory.
pub fn sequence_id(
    alloc: Global,
    source: &Name,
    group: u32,
    index: u32,
) -> Result<TaskId, OutOfMemory>
    requires { is_task_id (sequence_name source.now group index) ≡ true }
    ensures { IfOk result (λ id. id ≡ sequence_name source.now group index) }
{
    let text = sequence_text(alloc, source, group, index)?;
    id_of(alloc, text.as_slice())
}

// The text of a replica's id.
fn replica_text(alloc: Global, sequence: &TaskId, number: u32) -> Result<Vec<u8>, OutOfMemory>
    ensures { IfOk result (λ text. text.items ≡ replica_name sequence.now number) }
{
    let mut digits = Buffer::new();
    let mut text = Vec::from_slice(alloc, sequence.bytes())?;
    text.push(b':')?;
    text.extend_from_slice(digits.format(number).as_bytes())?;
    Ok(text)
}

/// The id of a replica of the sequence of this id. The error is want of memory.
pub fn replica_id(alloc: Global, sequence: &TaskId, number: u32) -> Result<TaskId, OutOfMemory>
    requires { is_task_id (replica_name sequence.now number) ≡ true }
    ensures { IfOk result (λ id. id ≡ replica_name sequence.now number) }
{
    let text = replica_text(alloc, sequence, number)?;
    id_of(alloc, text.as_slice())
}
