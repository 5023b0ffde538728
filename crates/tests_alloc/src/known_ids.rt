ghost use Rattle.std.specs.Prelude.{◌≡◌, IfOk, []};

use crate::fixtures::{add_pending, hour, hours};
use book_rows::{Items, LockKind, PosseRow, TaskKind, TaskRow, TaskStatus};
use lock_posse::Posses;
use seg_alloc::{KnownFault, known};
use seg_names::{Name, SegId, TaskId};
use std::alloc::Global;
use std::test::Fail;
use tab_pending::Pendings;

// A running task of the group `g` and the priority 75.
fn replica(alloc: Global, task: &[u8]) -> Result<TaskRow, Fail> {
    let id = TaskId::new(alloc, task)?;
    let group = TaskId::new(alloc, b"g")?;
    let source = Name::new(alloc, b"w")?;
    Ok(TaskRow {
        task: id,
        group,
        source,
        kind: TaskKind::Realtime,
        priority: 75,
        status: TaskStatus::Running,
        wants: Items::new(alloc),
    })
}

// A lock for appending in the sixth hour, of the group `g`, with the task `a` as its only member.
fn append_lock(alloc: Global, number: u64, revoked: bool) -> Result<PosseRow, Fail>
    ensures { IfOk result (λ row. row.number ≡ number) }
{
    let mut members = Items::new(alloc);
    members.push(TaskId::new(alloc, b"a")?)?;
    let group = TaskId::new(alloc, b"g")?;
    let source = Name::new(alloc, b"w")?;
    Ok(PosseRow {
        number,
        lock_kind: LockKind::Append,
        group,
        source,
        span: hours(5, 6)?,
        version: 0,
        priority: 75,
        members,
        revoked,
        since: 0,
    })
}

// The lock 1, and the revoked lock 2.
fn add_locks(alloc: Global, posses: &mut Posses) -> Result<(), Fail>
    requires { posses.old ≡ [] }
{
    let valid = append_lock(alloc, 1, false)?;
    posses.add(valid)?;
    let lost = append_lock(alloc, 2, true)?;
    posses.add(lost)?;
    Ok(())
}

// What an answer says in a word, and the lock that it names.
fn told(answer: Result<Option<(SegId, u64)>, KnownFault>) -> (&'static str, u64) {
    match answer {
        Ok(Some((_, lock))) => ("known", lock),
        Ok(None) => ("new", 0),
        Err(KnownFault::Mismatch(_)) => ("otherwise", 0),
        Err(KnownFault::Revoked(by)) => ("revoked", by),
        Err(KnownFault::OutOfMemory) => ("no memory", 0),
    }
}

// The sequence `s` has a pending in the sixth hour.
fn ask(
    alloc: Global,
    posses: &mut Posses,
    pendings: &mut Pendings,
    task: &[u8],
    kind: LockKind,
    sequence: &[u8],
    at: i64,
) -> Result<(&'static str, u64), Fail>
    requires { posses.old ≡ [] }
{
    add_locks(alloc, posses)?;
    add_pending(alloc, pendings)?;
    let task = replica(alloc, task)?;
    let sequence = Name::new(alloc, sequence)?;
    let answer = known(alloc, pendings, posses, &task, kind, &sequence, None, at);
    drop(task);
    drop(sequence);
    Ok(told(answer))
}

// What a task is told that asks at an instant for a lock of a type. The tables are given back by name, and live over no
// other end of a function: each would have to be proved.
fn asked(
    alloc: Global,
    task: &[u8],
    kind: LockKind,
    sequence: &[u8],
    at: i64,
) -> Result<(&'static str, u64), Fail> {
    let mut posses = Posses::new(alloc);
    let mut pendings = Pendings::new(alloc);
    let said = ask(alloc, &mut posses, &mut pendings, task, kind, sequence, at);
    drop(posses);
    drop(pendings);
    said
}

// Its id is answered again to a replica, and told to who asks otherwise; the task `a` lost a lock there.
#[test]
fn a_request_is_known_by_its_sequence(rt: HostRuntime) -> Result<(), Fail> {
    for (task, kind, sequence, at, word, lock) in [
        (b"b", LockKind::Append, b"s", hour(5), "known", 1),
        (b"b", LockKind::Append, b"t", hour(5), "new", 0),
        (b"a", LockKind::Append, b"s", hour(7), "otherwise", 0),
        (b"a", LockKind::Exclusive, b"s", hour(5), "otherwise", 0),
        (b"a", LockKind::Append, b"s", hour(5), "revoked", 2),
    ] {
        let (said, by) = asked(rt.alloc(), task, kind, sequence, at)?;
        assert!(rt; said == word && by == lock);
    }
    Ok(())
}
