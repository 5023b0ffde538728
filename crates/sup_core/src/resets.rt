//! The unpublished sequences of a source are abandoned.
ghost use Rattle.std.specs.Prelude.{◌≡◌, ◌++◌, IfOk, OnErr, OnOk, filter, map};
ghost use Rattle.book_rows.specs.Lists.{gathered};
ghost use Rattle.book_rows.specs.Sequences.{dropped_sequence, is_dropped_by, name_of, tasks_dropped};
ghost use Rattle.tab_sequences.specs.Changes.{HaveDistinctNames};

use crate::OutOfMemory;
use crate::naming::{abandon_each, names_of};
use seg_names::{Name, TaskId};
use std::alloc::Global;
use tab_sequences::{Sequence, Sequences};

fn push_all(alloc: Global, tasks: &mut Vec<TaskId>, live: &[TaskId]) -> Result<(), OutOfMemory>
    ensures { OnOk result (tasks.new.items ≡ tasks.old.items ++ live.now) }
{
    for task in live {
        tasks.push(task.twin(alloc)?)?;
    }
    Ok(())
}

// The live replicas of these sequences.
fn live_of(alloc: Global, open: &[&Sequence]) -> Result<Vec<TaskId>, OutOfMemory>
    ensures { IfOk result (λ tasks. tasks.items ≡ gathered (λ u. u.live) (map (λ u. u.now) open.now)) }
{
    let mut tasks = Vec::new(alloc);
    for sequence in open {
        push_all(alloc, &mut tasks, sequence.row.live.as_slice())?;
    }
    Ok(tasks)
}

/// Sequences to be abandoned.
#[derive(Drop)]
struct Dropping {
    names: Vec<TaskId>,
    tasks: Vec<TaskId>,
}

// The unpublished sequences of the source, and their live replicas.
fn dropped_by(alloc: Global, sequences: &Sequences, source: &Name) -> Result<Dropping, OutOfMemory>
    ensures names { IfOk result (λ d. d.names.items ≡ map name_of (filter (is_dropped_by source.now) sequences.now)) }
    ensures tasks { IfOk result (λ d. d.tasks.items ≡ tasks_dropped source.now sequences.now) }
{
    let open = sequences.open_of(alloc, source)?;
    Ok(Dropping {
        names: names_of(alloc, open.as_slice())?,
        tasks: live_of(alloc, open.as_slice())?,
    })
}

/// Abandons the unpublished sequences of the source. Answers their live replicas. The error is want
/// of memory.
pub fn drop_source(
    alloc: Global,
    sequences: &mut Sequences,
    source: &Name,
) -> Result<Vec<TaskId>, OutOfMemory>
    requires { HaveDistinctNames sequences.old }
    ensures tasks { IfOk result (λ tasks. tasks.items ≡ tasks_dropped source.now sequences.old) }
    ensures rows { OnOk result (sequences.new ≡ map (dropped_sequence source.now) sequences.old) }
    ensures err { OnErr result (sequences.new ≡ sequences.old) }
{
    let Dropping { names, tasks } = dropped_by(alloc, sequences, source)?;
    abandon_each(sequences, names.as_slice());
    Ok(tasks)
}
