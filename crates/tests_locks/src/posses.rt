ghost use Rattle.std.specs.Prelude.{◌≡◌, is_none, is_some};
ghost use Rattle.book_rows.specs.Locks.{posse_of};

use crate::fixtures::lock_of;
use book_rows::LockKind;
use iv_span::Span;
use lock_posse::{Clear, Posses, sorted};
use seg_names::{Name, TaskId};
use std::alloc::Global;
use std::test::Fail;

const DAY: (i64, i64) = (0, 24);

const HOUR: (i64, i64) = (5, 6);

fn is_free(posses: &Posses, number: u64) -> bool
    ensures { result ≡ is_none (posse_of number posses.now) }
{
    match posses.get(number) {
        Some(_) => false,
        None => true,
    }
}

fn is_there(posses: &Posses, number: u64) -> bool
    ensures { result ≡ is_some (posse_of number posses.now) }
{
    match posses.get(number) {
        Some(_) => true,
        None => false,
    }
}

fn add(
    alloc: Global,
    posses: &mut Posses,
    number: u64,
    lock_kind: LockKind,
    span: (i64, i64),
    task: &[u8],
) -> Result<(), Fail> {
    let row = lock_of(alloc, number, lock_kind, span, task)?;
    if is_free(posses, row.number) {
        posses.add(row)?;
    }
    Ok(())
}

fn join(alloc: Global, posses: &mut Posses, number: u64, task: &[u8]) -> Result<(), Fail> {
    let task = TaskId::new(alloc, task)?;
    if is_there(posses, number) && !posses.member_of(number, &task) {
        posses.join(number, task)?;
    }
    Ok(())
}

// Locks 7 and 5 of `a`, over the day and the hour, and lock 3 of `b` between them.
fn add_three(alloc: Global, posses: &mut Posses) -> Result<(), Fail> {
    add(alloc, posses, 7, LockKind::Shared, DAY, b"a")?;
    add(alloc, posses, 3, LockKind::Append, HOUR, b"b")?;
    add(alloc, posses, 5, LockKind::Shared, HOUR, b"a")
}

// Locks 1 to 3 of `a`, of which lock 2, which `b` joined, is revoked.
fn add_revoked(alloc: Global, posses: &mut Posses) -> Result<(), Fail> {
    add(alloc, posses, 1, LockKind::Shared, HOUR, b"a")?;
    add(alloc, posses, 2, LockKind::Shared, HOUR, b"a")?;
    join(alloc, posses, 2, b"b")?;
    add(alloc, posses, 3, LockKind::Shared, HOUR, b"a")?;
    posses.revoke(2);
    Ok(())
}

fn span_of(posses: &Posses, number: u64) -> Option<(i64, i64)> {
    posses
        .get(number)
        .map(|row| (row.span.start(), row.span.end()))
}

fn spans_in(alloc: Global, posses: &mut Posses) -> Result<[Option<(i64, i64)>; 3], Fail> {
    add_three(alloc, posses)?;
    Ok([span_of(posses, 7), span_of(posses, 3), span_of(posses, 4)])
}

// A table is given back by name, and lives over no other end of a function: each would have to be proved.
fn spans(alloc: Global) -> Result<[Option<(i64, i64)>; 3], Fail> {
    let mut posses = Posses::new(alloc);
    let told = spans_in(alloc, &mut posses);
    drop(posses);
    told
}

#[test]
fn finds_locks_by_number(rt: HostRuntime) -> Result<(), Fail> {
    assert!(rt; spans(rt.alloc())? == [Some(DAY), Some(HOUR), None]);
    Ok(())
}

fn is_member(alloc: Global, posses: &Posses, number: u64, task: &[u8]) -> Result<bool, Fail> {
    let task = TaskId::new(alloc, task)?;
    Ok(posses.member_of(number, &task))
}

// Whether these are the locks of the task.
fn are_of(alloc: Global, posses: &Posses, task: &[u8], numbers: &[u64]) -> Result<bool, Fail> {
    let task = TaskId::new(alloc, task)?;
    let found = posses.of_member(alloc, &task)?;
    Ok(found.as_slice() == numbers)
}

fn members_in(alloc: Global, posses: &mut Posses) -> Result<[bool; 3], Fail> {
    add_three(alloc, posses)?;
    let is = is_member(alloc, posses, 3, b"b")?;
    let other = is_member(alloc, posses, 3, b"a")?;
    let both = are_of(alloc, posses, b"a", &[5, 7])?;
    Ok([is, other, both])
}

fn members(alloc: Global) -> Result<[bool; 3], Fail> {
    let mut posses = Posses::new(alloc);
    let told = members_in(alloc, &mut posses);
    drop(posses);
    told
}

#[test]
fn finds_members_and_their_locks_ascending(rt: HostRuntime) -> Result<(), Fail> {
    assert!(rt; members(rt.alloc())? == [true, false, true]);
    Ok(())
}

// Whether these are the valid locks of the source over the hour.
fn are_over(alloc: Global, posses: &Posses, numbers: &[u64]) -> Result<bool, Fail> {
    let hour = Span::new(HOUR.0, HOUR.1)?;
    let source = Name::new(alloc, b"w")?;
    let found = posses.valid_overlapping(alloc, &source, hour)?;
    Ok(found.as_slice() == numbers)
}

fn over_three(alloc: Global, posses: &mut Posses) -> Result<bool, Fail> {
    add_three(alloc, posses)?;
    are_over(alloc, posses, &[7, 3, 5])
}

fn over_revoked(alloc: Global, posses: &mut Posses) -> Result<bool, Fail> {
    add_revoked(alloc, posses)?;
    are_over(alloc, posses, &[1, 3])
}

fn finds_over(alloc: Global, has_revoked: bool) -> Result<bool, Fail> {
    let mut posses = Posses::new(alloc);
    let told = if has_revoked {
        over_revoked(alloc, &mut posses)
    } else {
        over_three(alloc, &mut posses)
    };
    drop(posses);
    told
}

#[test]
fn finds_valid_locks_over_a_span_in_row_order(rt: HostRuntime) -> Result<(), Fail> {
    assert!(rt; finds_over(rt.alloc(), false)?);
    assert!(rt; finds_over(rt.alloc(), true)?);
    Ok(())
}

fn standing(
    alloc: Global,
    posses: &Posses,
    task: &[u8],
    span: (i64, i64),
    lock_kind: LockKind,
) -> Result<Clear, Fail> {
    let span = Span::new(span.0, span.1)?;
    let task = TaskId::new(alloc, task)?;
    let source = Name::new(alloc, b"w")?;
    Ok(posses.clear(&task, &source, span, lock_kind))
}

fn standings_in(alloc: Global, posses: &mut Posses) -> Result<[Clear; 3], Fail> {
    add_three(alloc, posses)?;
    let hour = standing(alloc, posses, b"a", HOUR, LockKind::Shared)?;
    let day = standing(alloc, posses, b"a", DAY, LockKind::Shared)?;
    let other = standing(alloc, posses, b"b", DAY, LockKind::Append)?;
    Ok([hour, day, other])
}

fn standings(alloc: Global) -> Result<[Clear; 3], Fail> {
    let mut posses = Posses::new(alloc);
    let told = standings_in(alloc, &mut posses);
    drop(posses);
    told
}

fn standing_in_lost(alloc: Global, posses: &mut Posses) -> Result<Clear, Fail> {
    add_revoked(alloc, posses)?;
    standing(alloc, posses, b"b", HOUR, LockKind::Shared)
}

fn standing_of_lost(alloc: Global) -> Result<Clear, Fail> {
    let mut posses = Posses::new(alloc);
    let told = standing_in_lost(alloc, &mut posses);
    drop(posses);
    told
}

#[test]
fn tells_whether_a_task_may_publish(rt: HostRuntime) -> Result<(), Fail> {
    assert!(rt; standings(rt.alloc())? == [Clear::Held(5), Clear::Held(7), Clear::Missing]);
    assert!(rt; standing_of_lost(rt.alloc())? == Clear::Revoked(2));
    Ok(())
}

#[test]
fn sorts_numbers(rt: HostRuntime) -> Result<(), Fail> {
    let numbers = sorted([7u64, 3, 5, 3].to_vec(rt.alloc())?)?;
    assert!(rt; numbers.as_slice() == [3, 3, 5, 7].as_slice());
    Ok(())
}

// Takes the task from a lock where it is a member. Answers whether the lock ended.
fn leave(
    alloc: Global,
    posses: &mut Posses,
    number: u64,
    task: &[u8],
) -> Result<Option<bool>, Fail> {
    let task = TaskId::new(alloc, task)?;
    if !posses.member_of(number, &task) {
        return Ok(None);
    }
    Ok(Some(posses.leave(number, &task)))
}

// Whether each of three leavings ends its lock, and how many locks are left.
fn leave_three(alloc: Global, posses: &mut Posses) -> Result<([Option<bool>; 3], usize), Fail> {
    add_revoked(alloc, posses)?;
    let first = leave(alloc, posses, 1, b"a")?;
    let second = leave(alloc, posses, 2, b"a")?;
    let third = leave(alloc, posses, 2, b"b")?;
    Ok(([first, second, third], posses.count()))
}

fn after_leaving(alloc: Global) -> Result<([Option<bool>; 3], usize), Fail> {
    let mut posses = Posses::new(alloc);
    let told = leave_three(alloc, &mut posses);
    drop(posses);
    told
}

// Whether locks 1 and 3 end where `a` leaves all of its own, and how many are left.
fn leave_all(alloc: Global, posses: &mut Posses) -> Result<(bool, usize), Fail> {
    add_revoked(alloc, posses)?;
    let task = TaskId::new(alloc, b"a")?;
    let ended = posses.leave_all(alloc, &task)?;
    Ok((ended.as_slice() == [1, 3].as_slice(), posses.count()))
}

fn after_leaving_all(alloc: Global) -> Result<(bool, usize), Fail> {
    let mut posses = Posses::new(alloc);
    let told = leave_all(alloc, &mut posses);
    drop(posses);
    told
}

#[test]
fn a_lock_goes_with_its_last_member(rt: HostRuntime) -> Result<(), Fail> {
    let (ended, left) = after_leaving(rt.alloc())?;
    assert!(rt; ended == [Some(true), Some(false), Some(true)] && left == 1);
    assert!(rt; after_leaving_all(rt.alloc())? == (true, 1));
    Ok(())
}
