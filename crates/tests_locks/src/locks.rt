ghost use Rattle.std.specs.Prelude.{◌≡◌, IfOk, IsTrue, OnOk, []};
ghost use Rattle.lockbox.specs.Decided.{AreBelow, AreCounters};

use crate::fixtures::lock_of;
use book_rows::{
    GrantedLock, Items, LockKind, PosseRow, Table, TaskKind, TaskRow, TaskStatus, Want,
};
use iv_span::Span;
use iv_time::{FIRST_INSTANT, LAST_INSTANT};
use lock_posse::Posses;
use lockbox::{Counters, LockFault, apply, decide, decide_lock, release, release_all};
use seg_names::{Name, TaskId};
use std::alloc::Global;
use std::test::Fail;

// Midnight of 2024-04-01.
const APRIL: i64 = 1_711_929_600_000;

const DAY: (i64, i64) = (0, 24);

const HOUR: (i64, i64) = (5, 6);

const NEXT_HOUR: (i64, i64) = (24, 25);

// A task that runs.
fn task(alloc: Global, task: &[u8], group: &[u8], priority: u32) -> Result<TaskRow, Fail> {
    let id = TaskId::new(alloc, task)?;
    let group = TaskId::new(alloc, group)?;
    let source = Name::new(alloc, b"w")?;
    Ok(TaskRow {
        task: id,
        group,
        source,
        kind: TaskKind::Other,
        priority,
        status: TaskStatus::Running,
        wants: Items::new(alloc),
    })
}

fn want(lock_kind: LockKind, span: (i64, i64)) -> Result<Want, Fail> {
    let span = Span::new(span.0, span.1)?;
    Ok(Want { lock_kind, span })
}

fn counters(last: i64, next_lock: u64) -> Counters
    ensures { result.next_lock ≡ next_lock }
{
    Counters {
        clock: APRIL,
        last,
        next_lock,
        since: 0,
    }
}

fn are_counters(counters: Counters) -> bool
    ensures { IsTrue result → AreCounters counters }
{
    FIRST_INSTANT <= counters.clock
        && counters.clock <= LAST_INSTANT
        && 0 <= counters.last
        && counters.last <= LAST_INSTANT
}

// Decides and applies. Answers the last request's lock, and sets the counters to those after it.
fn lock(
    alloc: Global,
    posses: &mut Posses,
    counters: &mut Counters,
    task: &TaskRow,
    wants: &[Want],
) -> Result<u64, LockFault>
    requires { AreBelow counters.old.next_lock posses.old }
{
    if !are_counters(*counters) {
        return Err(LockFault::OutOfMemory);
    }
    let granted = decide(alloc, posses, *counters, task, wants)?;
    let applied = apply(alloc, posses, &granted, &task.task);
    let last = granted.locks.as_slice().last().copied().unwrap_or(0);
    let after = granted.after;
    drop(granted);
    applied?;
    *counters = after;
    Ok(last)
}

// Lock 1 of the task `c`, of the priority 25.
fn low_lock(alloc: Global) -> Result<PosseRow, Fail>
    ensures { IfOk result (λ row. row.number ≡ 1) }
{
    let mut row = lock_of(alloc, 1, LockKind::Exclusive, HOUR, b"c")?;
    row.priority = 25;
    Ok(row)
}

fn add_low(alloc: Global, posses: &mut Posses) -> Result<(), Fail>
    requires { posses.old ≡ [] }
    ensures { OnOk result (AreBelow 2 posses.new) }
{
    let row = low_lock(alloc)?;
    posses.add(row)?;
    Ok(())
}

// Lock 1 is revoked for lock 2 of the task `a`.
fn add_high_and_lost(alloc: Global, posses: &mut Posses) -> Result<(), Fail>
    requires { posses.old ≡ [] }
    ensures { OnOk result (AreBelow 3 posses.new) }
{
    let mut low = low_lock(alloc)?;
    low.revoked = true;
    posses.add(low)?;
    let high = lock_of(alloc, 2, LockKind::Exclusive, HOUR, b"a")?;
    posses.add(high)?;
    Ok(())
}

// What the task `a` is answered that asks for the hour where `c` holds it, the last version and the next number after
// that, and whether the lock of `c` is revoked.
fn ask_over_low(
    alloc: Global,
    posses: &mut Posses,
) -> Result<(Result<u64, LockFault>, i64, u64, bool), Fail>
    requires { posses.old ≡ [] }
{
    add_low(alloc, posses)?;
    let hour = [want(LockKind::Exclusive, HOUR)?];
    let high = task(alloc, b"a", b"a", 50)?;
    let mut now = counters(APRIL, 2);
    let answer = lock(alloc, posses, &mut now, &high, &hour);
    drop(high);
    let is_lost = posses.get(1).is_some_and(|row| row.revoked);
    Ok((answer, now.last, now.next_lock, is_lost))
}

// A table is given back by name, and lives over no other end of a function: each would have to be proved.
fn asked_over_low(alloc: Global) -> Result<(Result<u64, LockFault>, i64, u64, bool), Fail> {
    let mut posses = Posses::new(alloc);
    let told = ask_over_low(alloc, &mut posses);
    drop(posses);
    told
}

#[test]
fn a_lower_lock_is_revoked(rt: HostRuntime) -> Result<(), Fail> {
    let (answer, last, next_lock, is_lost) = asked_over_low(rt.alloc())?;
    assert!(rt; answer == Ok(2));
    assert!(rt; (last, next_lock) == (APRIL + 1, 3));
    assert!(rt; is_lost);
    Ok(())
}

// What a task is answered that asks for the hour.
fn ask(
    alloc: Global,
    posses: &mut Posses,
    name: &[u8],
    group: &[u8],
    priority: u32,
) -> Result<Result<u64, LockFault>, Fail>
    requires { posses.old ≡ [] }
{
    add_high_and_lost(alloc, posses)?;
    let hour = [want(LockKind::Exclusive, HOUR)?];
    let task = task(alloc, name, group, priority)?;
    let answer = lock(alloc, posses, &mut counters(APRIL + 1, 3), &task, &hour);
    drop(task);
    Ok(answer)
}

fn asked(
    alloc: Global,
    name: &[u8],
    group: &[u8],
    priority: u32,
) -> Result<Result<u64, LockFault>, Fail> {
    let mut posses = Posses::new(alloc);
    let told = ask(alloc, &mut posses, name, group, priority);
    drop(posses);
    told
}

#[test]
fn friends_join_others_conflict_and_what_is_lost_stays_so(rt: HostRuntime) -> Result<(), Fail> {
    for (name, group, priority, answer) in [
        (b"b", b"a", 50, Ok(2)),
        (b"d", b"d", 50, Err(LockFault::Conflict(2))),
        (b"c", b"c", 25, Err(LockFault::Revoked(1))),
    ] {
        assert!(rt; asked(rt.alloc(), name, group, priority)? == answer);
    }
    Ok(())
}

// Lock 1 of the task `a`, for the day.
fn add_day(alloc: Global, posses: &mut Posses) -> Result<(), Fail>
    requires { posses.old ≡ [] }
    ensures { OnOk result (AreBelow 2 posses.new) }
{
    let row = lock_of(alloc, 1, LockKind::Exclusive, DAY, b"a")?;
    posses.add(row)?;
    Ok(())
}

fn number_and_span(answer: Result<GrantedLock, LockFault>) -> Result<(u64, Span), LockFault> {
    let lock = answer?;
    let told = (lock.number, lock.span);
    drop(lock);
    Ok(told)
}

// The number and the span of the lock that a task of the group is granted for the hour, beside the day's lock.
fn grant_hour(
    alloc: Global,
    posses: &mut Posses,
    group: &[u8],
) -> Result<Result<(u64, Span), LockFault>, Fail>
    requires { posses.old ≡ [] }
{
    add_day(alloc, posses)?;
    let now = counters(APRIL, 2);
    if !are_counters(now) {
        return Ok(Err(LockFault::OutOfMemory));
    }
    let hour = want(LockKind::Exclusive, HOUR)?;
    let task = task(alloc, b"b", group, 50)?;
    let answer = decide_lock(alloc, posses, now, &task, &hour);
    drop(task);
    Ok(number_and_span(answer))
}

fn granted_hour(alloc: Global, group: &[u8]) -> Result<Result<(u64, Span), LockFault>, Fail> {
    let mut posses = Posses::new(alloc);
    let told = grant_hour(alloc, &mut posses, group);
    drop(posses);
    told
}

#[test]
fn a_joined_lock_has_its_own_span(rt: HostRuntime) -> Result<(), Fail> {
    let day = Span::new(DAY.0, DAY.1)?;
    assert!(rt; granted_hour(rt.alloc(), b"a")? == Ok((1, day)));
    assert!(rt; granted_hour(rt.alloc(), b"d")? == Err(LockFault::Conflict(1)));
    Ok(())
}

// Whether the lock ended that a task leaves, where it is a member.
fn leave(
    alloc: Global,
    posses: &mut Posses,
    number: u64,
    name: &[u8],
) -> Result<Option<bool>, Fail> {
    let task = TaskId::new(alloc, name)?;
    if !posses.member_of(number, &task) {
        return Ok(None);
    }
    Ok(Some(release(posses, number, &task)))
}

// Whether these locks ended when a task left all of its own.
fn leave_all(
    alloc: Global,
    posses: &mut Posses,
    name: &[u8],
    numbers: &[u64],
) -> Result<bool, Fail> {
    let task = TaskId::new(alloc, name)?;
    let ended = release_all(alloc, posses, &task)?;
    Ok(ended.as_slice() == numbers)
}

// The task `b` joins lock 2. Whether this ends when `a` leaves it, whether it alone ends when `b` leaves all of its
// own, and how many are left.
fn join_and_leave(alloc: Global, posses: &mut Posses) -> Result<(Option<bool>, bool, usize), Fail>
    requires { posses.old ≡ [] }
{
    let answer = ask(alloc, posses, b"b", b"a", 50)?;
    let _ = answer?;
    let first = leave(alloc, posses, 2, b"a")?;
    let last = leave_all(alloc, posses, b"b", &[2])?;
    Ok((first, last, posses.count()))
}

fn after_leaving(alloc: Global) -> Result<(Option<bool>, bool, usize), Fail> {
    let mut posses = Posses::new(alloc);
    let told = join_and_leave(alloc, &mut posses);
    drop(posses);
    told
}

#[test]
fn a_lock_is_released_by_its_last_member(rt: HostRuntime) -> Result<(), Fail> {
    assert!(rt; after_leaving(rt.alloc())? == (Some(false), true, 1));
    Ok(())
}

// What the task `a` is answered where there are no locks, the last version and the next number after that, and how many
// locks there are then.
fn ask_first(
    alloc: Global,
    posses: &mut Posses,
    mut now: Counters,
    wants: &[Want],
) -> Result<(Result<u64, LockFault>, i64, u64, usize), Fail>
    requires { posses.old ≡ [] }
{
    let task = task(alloc, b"a", b"a", 50)?;
    let answer = lock(alloc, posses, &mut now, &task, wants);
    drop(task);
    Ok((answer, now.last, now.next_lock, posses.count()))
}

fn asked_first(
    alloc: Global,
    now: Counters,
    wants: &[Want],
) -> Result<(Result<u64, LockFault>, i64, u64, usize), Fail> {
    let mut posses = Posses::new(alloc);
    let told = ask_first(alloc, &mut posses, now, wants);
    drop(posses);
    told
}

// A lock of the type APPEND has version 0, and leaves the last version.
#[test]
fn requests_are_granted_in_order(rt: HostRuntime) -> Result<(), Fail> {
    let hour = want(LockKind::Exclusive, HOUR)?;
    let one = asked_first(rt.alloc(), counters(0, 1), &[hour])?;
    assert!(rt; one == (Ok(1), APRIL, 2, 1));
    let (day, next) = (
        want(LockKind::Append, DAY)?,
        want(LockKind::Replace, NEXT_HOUR)?,
    );
    let two = asked_first(rt.alloc(), counters(0, 1), &[day, next])?;
    assert!(rt; two == (Ok(2), APRIL, 3, 2));
    Ok(())
}

// Two requests, each of a type and a span.
fn both(first: (LockKind, (i64, i64)), second: (LockKind, (i64, i64))) -> Result<[Want; 2], Fail> {
    Ok([want(first.0, first.1)?, want(second.0, second.1)?])
}

#[test]
fn all_requests_are_granted_or_none(rt: HostRuntime) -> Result<(), Fail> {
    for (last, number, first, second, fault) in [
        (
            0,
            1,
            (LockKind::Shared, DAY),
            (LockKind::Exclusive, HOUR),
            LockFault::Conflict(1),
        ),
        (
            LAST_INSTANT,
            1,
            (LockKind::Append, DAY),
            (LockKind::Replace, NEXT_HOUR),
            LockFault::ClockEnd,
        ),
        (
            0,
            9_007_199_254_740_991,
            (LockKind::Append, DAY),
            (LockKind::Replace, NEXT_HOUR),
            LockFault::Full(Table::Numbers),
        ),
    ] {
        let wants = both(first, second)?;
        let (answer, last_after, next_lock, count) = asked_first(
            rt.alloc(),
            counters(last, number),
            &wants,
        )?;
        assert!(rt; answer == Err(fault));
        assert!(rt; (last_after, next_lock, count) == (last, number, 0));
    }
    Ok(())
}
