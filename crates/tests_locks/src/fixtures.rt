// Locks that several tests begin with, all of the source `w`.
ghost use Rattle.std.specs.Prelude.{◌≡◌, IfOk};

use book_rows::{Items, LockKind, PosseRow};
use iv_span::Span;
use seg_names::{Name, TaskId};
use std::alloc::Global;
use std::test::Fail;

fn one_member(alloc: Global, task: &[u8]) -> Result<Items<TaskId>, Fail> {
    let mut members = Items::new(alloc);
    members.push(TaskId::new(alloc, task)?)?;
    Ok(members)
}

// A valid lock of the priority 50, with a task as its only member and as its group.
pub fn lock_of(
    alloc: Global,
    number: u64,
    lock_kind: LockKind,
    span: (i64, i64),
    task: &[u8],
) -> Result<PosseRow, Fail>
    ensures { IfOk result (λ row. row.number ≡ number) }
{
    let span = Span::new(span.0, span.1)?;
    let members = one_member(alloc, task)?;
    let group = TaskId::new(alloc, task)?;
    let source = Name::new(alloc, b"w")?;
    Ok(PosseRow {
        number,
        lock_kind,
        group,
        source,
        span,
        version: 0,
        priority: 50,
        members,
        revoked: false,
        since: 0,
    })
}
