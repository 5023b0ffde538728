//! Sequences are abandoned and pause, name by name.
ghost use Rattle.std.specs.Prelude.{◌≡◌, IfOk, map};
ghost use Rattle.book_rows.specs.Sequences.{name_of};
ghost use Rattle.sup_core.specs.ByNames.{abandoned_each, paused_each};

use crate::OutOfMemory;
use seg_names::TaskId;
use std::alloc::Global;
use tab_sequences::{Sequence, Sequences};

/// The names of these sequences. The error is want of memory.
pub fn names_of(alloc: Global, sequences: &[&Sequence]) -> Result<Vec<TaskId>, OutOfMemory>
    ensures { IfOk result (λ names. names.items ≡ map name_of (map (λ u. u.now) sequences.now)) }
{
    let mut names = Vec::new(alloc);
    for sequence in sequences {
        names.push(sequence.name.twin(alloc)?)?;
    }
    Ok(names)
}

/// The unpublished ones of these names are abandoned. It takes no memory.
pub fn abandon_each(sequences: &mut Sequences, names: &[TaskId])
    ensures { sequences.new ≡ abandoned_each names.now sequences.old }
{
    for name in names {
        sequences.abandon_one(name);
    }
}

/// The reading ones of these names pause. It takes no memory.
pub fn pause_each(sequences: &mut Sequences, names: &[TaskId])
    ensures { sequences.new ≡ paused_each names.now sequences.old }
{
    for name in names {
        sequences.pause_one(name);
    }
}
