//! A list of requests, each decided on the outcome of those before.
ghost use Rattle.std.specs.Prelude.{◌++◌, ◌≡◌, ◌+◌, ◌<◌, ◌^◌, IfOk, List, length, nat_lt, ℕ};
ghost use Rattle.book_rows.specs.Grant.{both_granted, grant_all, nothing_granted, posses_after};
ghost use Rattle.book_rows.specs.Lists.{ascending, merged};
ghost use Rattle.lockbox.specs.Decided.{AreBelow, AreCounters, IsAnswer, decided, decided_lock, if_room, too_full};

use crate::OutOfMemory;
use crate::fault::LockFault;
use crate::granting::{grant, grant_lock};
use crate::numbers::{joined, merged};
use book_rows::{
    Counters, Granted, GrantedLock, Items, NUMBER_LIMIT, PosseRow, ROW_LIMIT, Table, TaskRow, Want,
};
use lock_posse::{Posses, change_rows};
use seg_names::TaskId;
use std::alloc::Global;

fn nothing_granted(alloc: Global, counters: Counters) -> Granted
    ensures { result ≡ nothing_granted counters }
{
    Granted {
        locks: Items::new(alloc),
        joins: Items::new(alloc),
        rows: Items::new(alloc),
        revoked: Items::new(alloc),
        after: counters,
    }
}

fn changed(
    alloc: Global,
    rows: Items<PosseRow>,
    next: &Granted,
    task: &TaskId,
) -> Result<Vec<PosseRow>, OutOfMemory>
    ensures { IfOk result (λ v. v.items ≡ posses_after rows task.now next.now) }
{
    let mut rows = rows.into_vec();
    change_rows(alloc, &mut rows, next, task)?;
    Ok(rows)
}

// The numbers of a grant.
#[derive(Drop)]
struct Numbers {
    locks: Items<u64>,
    joins: Items<u64>,
    revoked: Items<u64>,
}

fn both_numbers(before: Numbers, next: Numbers) -> Result<Numbers, OutOfMemory>
    ensures locks { IfOk result (λ both. both.locks ≡ before.locks ++ next.locks) }
    ensures joins { IfOk result (λ both. both.joins ≡ before.joins ++ next.joins) }
    ensures revoked { IfOk result (λ both. both.revoked ≡ merged before.revoked (ascending next.revoked)) }
{
    let locks = joined(before.locks.into_vec(), next.locks.into_vec())?;
    let joins = joined(before.joins.into_vec(), next.joins.into_vec())?;
    let revoked = merged(before.revoked.into_vec(), next.revoked.into_vec())?;
    Ok(Numbers {
        locks: Items::from_vec(locks),
        joins: Items::from_vec(joins),
        revoked: Items::from_vec(revoked),
    })
}

// What two grants make, the first with these numbers, whose rows are these after the second. A value
// with rows goes by name wherever memory lacks: then no way out has to give them back.
fn with_rows(before: Numbers, next: Granted, rows: Items<PosseRow>) -> Result<Granted, OutOfMemory>
    ensures { IfOk result (λ g. g ≡ record {
      locks = before.locks ++ next.locks;
      joins = before.joins ++ next.joins;
      rows = rows;
      revoked = merged before.revoked (ascending next.revoked);
      after = next.after;
    }) }
{
    let Granted {
        locks,
        joins,
        rows: made,
        revoked,
        after,
    } = next;
    drop(made);
    let later = Numbers {
        locks,
        joins,
        revoked,
    };
    match both_numbers(before, later) {
        Ok(
            Numbers {
                locks,
                joins,
                revoked,
            },
        ) => Ok(Granted {
            locks,
            joins,
            rows,
            revoked,
            after,
        }),
        Err(error) => {
            drop(rows);
            Err(error)
        }
    }
}

// What two grants make, one after the other.
fn both_granted(
    alloc: Global,
    so_far: Granted,
    next: Granted,
    task: &TaskId,
) -> Result<Granted, OutOfMemory>
    requires { ascending next.revoked ≡ next.revoked }
    ensures { IfOk result (λ g. g ≡ both_granted task.now so_far next) }
{
    let Granted {
        locks,
        joins,
        rows,
        revoked,
        after: _,
    } = so_far;
    let before = Numbers {
        locks,
        joins,
        revoked,
    };
    match changed(alloc, rows, &next, task) {
        Ok(rows) => with_rows(before, next, Items::from_vec(rows)),
        Err(error) => {
            drop(before);
            drop(next);
            Err(error)
        }
    }
}

fn grant_all(
    alloc: Global,
    posses: &Posses,
    counters: Counters,
    task: &TaskRow,
    wants: &[Want],
) -> Result<Granted, LockFault>
    requires counters { AreCounters counters }
    requires numbers { counters.next_lock + length wants.now < 2 ^ 64 }
    ensures { IsAnswer result (grant_all posses.now counters task.now wants.now) }
{
    let mut so_far = nothing_granted(alloc, counters);
    for want in wants {
        let next = grant(alloc, posses, &so_far, task, want)?;
        so_far = both_granted(alloc, so_far, next, &task.task)?;
    }
    Ok(so_far)
}

// The first of the two that exceeds its limit after what was granted.
fn too_full(posses: &Posses, granted: &Granted) -> Option<Table>
    ensures { (task : List ℕ) → result ≡ too_full posses.now task granted.now }
{
    let made = granted.rows.len();
    let count = posses.count();
    if count > ROW_LIMIT || made > ROW_LIMIT - count {
        return Some(Table::Locks);
    }
    if granted.after.next_lock > NUMBER_LIMIT {
        return Some(Table::Numbers);
    }
    None
}

fn have_numbers(counters: Counters, wants: &[Want]) -> bool
    ensures { result ≡ nat_lt (counters.next_lock + length wants.now) (2 ^ 64) }
{
    wants.len() as u64 <= u64::MAX - counters.next_lock
}

/// Decides the requests of the task in order, each on the outcome of those before, and answers
/// what they make of the locks. Nothing is changed.
///
/// `counters` are the command's moment, the last version, the number of the next lock and the
/// number of publications. The errors come in the order of the requests, and `Full` comes last.
pub fn decide(
    alloc: Global,
    posses: &Posses,
    counters: Counters,
    task: &TaskRow,
    wants: &[Want],
) -> Result<Granted, LockFault>
    requires counters { AreCounters counters }
    requires below { AreBelow counters.next_lock posses.now }
    ensures { IsAnswer result (decided posses.now counters task.now wants.now) }
{
    if !have_numbers(counters, wants) {
        return Err(LockFault::Full(Table::Numbers));
    }
    let granted = grant_all(alloc, posses, counters, task, wants)?;
    match too_full(posses, &granted) {
        Some(table) => Err(LockFault::Full(table)),
        None => Ok(granted),
    }
}

fn with_room(posses: &Posses, lock: GrantedLock) -> Result<GrantedLock, LockFault>
    ensures { (task : List ℕ) → IsAnswer result (if_room (too_full posses.now task lock.granted) lock) }
{
    match too_full(posses, &lock.granted) {
        Some(table) => Err(LockFault::Full(table)),
        None => Ok(lock),
    }
}

/// Decides one request of the task as `decide` does, and answers the lock that is granted with what
/// becomes of the locks. Nothing is changed.
pub fn decide_lock(
    alloc: Global,
    posses: &Posses,
    counters: Counters,
    task: &TaskRow,
    want: &Want,
) -> Result<GrantedLock, LockFault>
    requires counters { AreCounters counters }
    requires below { AreBelow counters.next_lock posses.now }
    ensures { IsAnswer result (decided_lock posses.now counters task.now want.now) }
{
    if counters.next_lock == u64::MAX {
        return Err(LockFault::Full(Table::Numbers));
    }
    let nothing = nothing_granted(alloc, counters);
    let granted = grant_lock(alloc, posses, &nothing, task, want);
    drop(nothing);
    match granted {
        Ok(lock) => with_room(posses, lock),
        Err(fault) => Err(fault),
    }
}
