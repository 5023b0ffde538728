//! The commands of a block.
ghost use Rattle.std.specs.Prelude.{◌%◌, ◌==◌, ◌≡◌, ◌<◌, IfOk};
ghost use Rattle.load_gen.specs.Blocks.{allocating, appending, appends, asking, commands_of, ending, id_of, replaces, replacing, starts};

use crate::OutOfMemory;
use crate::drawing::{now_of, span_of};
use crate::generator::Hour;
use crate::names::{sequence_of, source, task_of};
use book_rows::{Command, Items, LockKind, TaskKind, TaskStatus, Want};
use iv_span::Span;
use iv_time::Granularity;
use seg_names::SegId;
use std::alloc::Global;

// A task of the block is submitted.
fn starts(
    alloc: Global,
    block: u64,
    kind: TaskKind,
    priority: u32,
    wants: Vec<Want>,
) -> Result<Command, OutOfMemory>
    requires { block < 50000 }
    ensures { IfOk result (λ command. command ≡ starts block kind priority wants.items) }
{
    Ok(Command::Submit {
        task: task_of(alloc, block)?,
        group: task_of(alloc, block)?,
        source: source(alloc)?,
        kind,
        priority,
        locks: Items::from_vec(wants),
    })
}

fn allocating(alloc: Global, block: u64, span: Span) -> Result<Command, OutOfMemory>
    requires { block < 50000 }
    ensures { IfOk result (λ command. command ≡ allocating block span) }
{
    Ok(Command::Allocate {
        task: task_of(alloc, block)?,
        lock_kind: LockKind::Append,
        sequence: sequence_of(alloc, block)?,
        previous: None,
        at: span.start(),
        granularity: Granularity::Hour,
        now: now_of(block),
    })
}

fn id_of(alloc: Global, span: Span, hour: Hour) -> Result<SegId, OutOfMemory>
    ensures { IfOk result (λ id. id ≡ id_of span hour) }
{
    Ok(SegId {
        source: source(alloc)?,
        span,
        version: hour.version,
        part: hour.next,
    })
}

fn appends(alloc: Global, block: u64, span: Span, hour: Hour) -> Result<Command, OutOfMemory>
    requires { block < 50000 }
    ensures { IfOk result (λ command. command ≡ appends block span hour) }
{
    let ids = vec![in alloc; id_of(alloc, span, hour)?]?;
    Ok(Command::Append {
        task: task_of(alloc, block)?,
        ids: Items::from_vec(ids),
        ranges: None,
    })
}

fn asking(alloc: Global, block: u64, span: Span) -> Result<Command, OutOfMemory>
    requires { block < 50000 }
    ensures { IfOk result (λ command. command ≡ asking block span) }
{
    Ok(Command::ToReplace {
        task: task_of(alloc, block)?,
        span,
    })
}

fn replaces(alloc: Global, block: u64, span: Span) -> Result<Command, OutOfMemory>
    requires { block < 50000 }
    ensures { IfOk result (λ command. command ≡ replaces block span) }
{
    let first = Hour {
        version: now_of(block),
        next: 0,
    };
    let spans = vec![in alloc; span]?;
    let ids = vec![in alloc; id_of(alloc, span, first)?]?;
    Ok(Command::Replace {
        task: task_of(alloc, block)?,
        spans: Items::from_vec(spans),
        ids: Items::from_vec(ids),
        tombstones: Items::new(alloc),
        ranges: None,
    })
}

fn ending(alloc: Global, block: u64) -> Result<Command, OutOfMemory>
    requires { block < 50000 }
    ensures { IfOk result (λ command. command ≡ ending block) }
{
    Ok(Command::End {
        task: task_of(alloc, block)?,
        status: TaskStatus::Success,
    })
}

// A task appends an id that it allocates.
fn appending(alloc: Global, block: u64, span: Span, hour: Hour) -> Result<Vec<Command>, OutOfMemory>
    requires { block < 50000 }
    ensures { IfOk result (λ commands. commands.items ≡ appending block span hour) }
{
    let mut commands = Vec::with_capacity(alloc, 5)?;
    commands.push(starts(alloc, block, TaskKind::Realtime, 75, Vec::new(alloc))?)?;
    commands.push(Command::Manage { now: now_of(block) })?;
    commands.push(allocating(alloc, block, span)?)?;
    commands.push(appends(alloc, block, span, hour)?)?;
    commands.push(ending(alloc, block)?)?;
    Ok(commands)
}

// A task replaces the hour, under the lock that it waits for.
fn replacing(alloc: Global, block: u64, span: Span) -> Result<Vec<Command>, OutOfMemory>
    requires { block < 50000 }
    ensures { IfOk result (λ commands. commands.items ≡ replacing block span) }
{
    let wants = vec![in alloc;
        Want {
            lock_kind: LockKind::Replace,
            span,
        },
    ]?;
    let mut commands = Vec::with_capacity(alloc, 5)?;
    commands.push(starts(alloc, block, TaskKind::Batch, 50, wants)?)?;
    commands.push(Command::Manage { now: now_of(block) })?;
    commands.push(asking(alloc, block, span)?)?;
    commands.push(replaces(alloc, block, span)?)?;
    commands.push(ending(alloc, block)?)?;
    Ok(commands)
}

/// Whether a block replaces.
pub fn is_replacing(block: u64) -> bool
    ensures { result ≡ (block % 4 == 3) }
{
    block % 4 == 3
}

/// The commands of a block on an hour, of which this is known.
pub fn commands_of(
    alloc: Global,
    block: u64,
    number: usize,
    hour: Hour,
) -> Result<Vec<Command>, OutOfMemory>
    requires few { block < 50000 }
    requires number { number < 720 }
    ensures { IfOk result (λ commands. commands.items ≡ commands_of block number hour) }
{
    let span = span_of(number);
    if is_replacing(block) {
        replacing(alloc, block, span)
    } else {
        appending(alloc, block, span, hour)
    }
}
