//! Commands that tests carry out.
use book_rows::{Command, Items, LockKind, TaskKind, Want};
use command_forms::keeps_form;
use iv_span::Span;
use overlord_core::{OutOfMemory, Outcome, Overlord};
use seg_names::{Name, TaskId};
use std::alloc::{AllocError, Global};
use std::test::Fail;

pub const NOW: i64 = 1_711_929_600_000;

pub const HOUR: i64 = 3_600_000;

/// Acts where the command keeps its form.
pub fn act(
    overlord: &mut Overlord,
    alloc: Global,
    command: &Command,
) -> Result<Outcome, OutOfMemory> {
    if !keeps_form(command) {
        return Err(AllocError);
    }
    overlord.act(alloc, command)
}

fn wants(alloc: Global, lock_kind: LockKind, spans: &[Span]) -> Result<Items<Want>, Fail> {
    let mut wants = Items::new(alloc);
    for span in spans {
        wants.push(Want {
            lock_kind,
            span: *span,
        })?;
    }
    Ok(wants)
}

/// A batch task, of its own group, that waits for these locks.
pub fn submission(
    alloc: Global,
    task: &[u8],
    lock_kind: LockKind,
    spans: &[Span],
) -> Result<Command, Fail> {
    let id = TaskId::new(alloc, task)?;
    let group = TaskId::new(alloc, task)?;
    let source = Name::new(alloc, b"w")?;
    let locks = wants(alloc, lock_kind, spans)?;
    Ok(Command::Submit {
        task: id,
        group,
        source,
        kind: TaskKind::Batch,
        priority: 50,
        locks,
    })
}
