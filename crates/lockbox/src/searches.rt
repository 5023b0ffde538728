//! What a request looks for among the locks.
//!
//! The locks are the rows of the table as they are after what was granted so far, and then the new
//! rows. The table itself isn't changed, and no copy of it is made.
ghost use Rattle.std.specs.Prelude.{◌≡◌, IfOk, filter, fold, map};
ghost use Rattle.std.specs.Option.{option_map};
ghost use Rattle.book_rows.specs.Grant.{blocks, is_against, is_fit, joined_in, numbers_against, posses_after};
ghost use Rattle.book_rows.specs.Locks.{is_lost, is_member, least};
ghost use Rattle.lock_posse.specs.Granting.{granted_row};
ghost use Rattle.lockbox.specs.Searches.{better_found, found_of, found_step, passes_as};

use crate::OutOfMemory;
use crate::kinds::{go_together, same_kind};
use crate::numbers::joined;
use book_rows::{Granted, PosseRow, TaskRow, Want};
use iv_span::Span;
use lock_posse::{LockTest, Posses, has_member, is_listed, sorted};
use seg_names::TaskId;
use std::alloc::Global;

/// What a request looks for.
#[derive(Clone, Copy)]
pub enum Wanted {
    /// A lock that the task has lost over the span.
    Lost,
    /// A lock that it may join.
    Fit,
    /// A lock that is in the way, and whose priority isn't lower.
    Block,
    /// A lock that is in the way.
    Against,
}

/// A lock that was found: its number, span and version, and whether the task is a member.
#[derive(Clone, Copy, Debug, PartialEq, Eq)]
pub struct Found {
    pub number: u64,
    pub span: Span,
    pub version: i64,
    pub member: bool,
}

fn is_member_after(row: &PosseRow, joins: &[u64], task: &TaskId) -> bool
    ensures { result ≡ is_member task.now (joined_in joins.now task.now row.now) }
{
    has_member(row, task) || is_listed(joins, row.number)
}

fn is_lost(row: &PosseRow, revoked: bool, joins: &[u64], task: &TaskRow, want: &Want) -> bool
    ensures { result ≡ is_lost task.now.task task.now.source want.now.span (joined_in joins.now task.now.task (record row.now { revoked = revoked })) }
{
    revoked
        && row.source == task.source
        && row.span.overlaps(want.span)
        && is_member_after(row, joins, &task.task)
}

fn is_fit(row: &PosseRow, revoked: bool, task: &TaskRow, want: &Want) -> bool
    ensures { result ≡ is_fit task.now want.now (record row.now { revoked = revoked }) }
{
    !revoked
        && row.source == task.source
        && same_kind(row.lock_kind, want.lock_kind)
        && row.group == task.group
        && row.priority == task.priority
        && row.span.contains(want.span)
}

fn is_against(row: &PosseRow, revoked: bool, task: &TaskRow, want: &Want) -> bool
    ensures { result ≡ is_against task.now want.now (record row.now { revoked = revoked }) }
{
    !revoked
        && row.source == task.source
        && !go_together(row.lock_kind, row.span, want.lock_kind, want.span)
}

fn is_block(row: &PosseRow, revoked: bool, task: &TaskRow, want: &Want) -> bool
    ensures { result ≡ blocks task.now want.now (record row.now { revoked = revoked }) }
{
    is_against(row, revoked, task, want) && task.priority <= row.priority
}

// Whether the lock is one that is looked for, where it is revoked or not, and after the task has
// joined those of these numbers.
fn passes(
    row: &PosseRow,
    revoked: bool,
    joins: &[u64],
    task: &TaskRow,
    want: &Want,
    wanted: Wanted,
) -> bool
    ensures { result ≡ passes_as wanted task.now want.now (joined_in joins.now task.now.task (record row.now { revoked = revoked })) }
{
    match wanted {
        Wanted::Lost => is_lost(row, revoked, joins, task, want),
        Wanted::Fit => is_fit(row, revoked, task, want),
        Wanted::Block => is_block(row, revoked, task, want),
        Wanted::Against => is_against(row, revoked, task, want),
    }
}

/// Locks of the table that a request looks for, each seen as it is after what was granted so far.
#[derive(Drop)]
struct Search<'a> {
    revoked: &'a [u64],
    joins: &'a [u64],
    task: &'a TaskRow,
    want: &'a Want,
    wanted: Wanted,
}

impl LockTest for Search<'_> {
    ghost passes = { λ q p. passes_as q.wanted q.task.now q.want.now (granted_row q.revoked.now q.joins.now q.task.now.task p) };

    fn passes(&self, row: &PosseRow) -> bool {
        let revoked = row.revoked || is_listed(self.revoked, row.number);
        passes(row, revoked, self.joins, self.task, self.want, self.wanted)
    }
}

fn found_after(row: &PosseRow, joins: &[u64], task: &TaskId) -> Found
    ensures { result ≡ found_of task.now (joined_in joins.now task.now row.now) }
{
    Found {
        number: row.number,
        span: row.span,
        version: row.version,
        member: is_member_after(row, joins, task),
    }
}

// Looks in the table.
fn least_in(posses: &Posses, search: &Search) -> Option<Found>
    ensures { result ≡ option_map (found_of search.now.task.now.task) (least (passes_as search.now.wanted search.now.task.now search.now.want.now) (map (granted_row search.now.revoked.now search.now.joins.now search.now.task.now.task) posses.now)) }
{
    // The span isn't empty, so what contains it overlaps it.
    let span = search.want.span;
    let _start = span.start();
    match posses.least_over(&search.task.source, span, search) {
        Some(row) => Some(found_after(row, search.joins, &search.task.task)),
        None => None,
    }
}

fn better(best: Option<Found>, found: Found) -> Found
    ensures { result ≡ better_found best found }
{
    match best {
        Some(other) if other.number <= found.number => other,
        _ => found,
    }
}

fn put(
    best: Option<Found>,
    row: &PosseRow,
    task: &TaskRow,
    want: &Want,
    wanted: Wanted,
) -> Option<Found>
    ensures { result ≡ found_step wanted task.now want.now best row.now }
{
    if passes(row, row.revoked, &[], task, want, wanted) {
        return Some(better(best, found_after(row, &[], &task.task)));
    }
    best
}

// Looks on, in the new rows.
fn least_made(
    best: Option<Found>,
    made: &[PosseRow],
    task: &TaskRow,
    want: &Want,
    wanted: Wanted,
) -> Option<Found>
    ensures { result ≡ fold (found_step wanted task.now want.now) best made.now }
{
    let mut least = best;
    for row in made {
        least = put(least, row, task, want, wanted);
    }
    least
}

/// The lock of the least number that is looked for, among the locks as they are after what was
/// granted so far.
pub fn least_found(
    posses: &Posses,
    so_far: &Granted,
    task: &TaskRow,
    want: &Want,
    wanted: Wanted,
) -> Option<Found>
    ensures { result ≡ option_map (found_of task.now.task) (least (passes_as wanted task.now want.now) (posses_after posses.now task.now.task so_far.now)) }
{
    let search = Search {
        revoked: so_far.revoked.as_slice(),
        joins: so_far.joins.as_slice(),
        task,
        want,
        wanted,
    };
    let best = least_in(posses, &search);
    least_made(best, so_far.rows.as_slice(), task, want, wanted)
}

fn numbers_in(alloc: Global, posses: &Posses, search: &Search) -> Result<Vec<u64>, OutOfMemory>
    ensures { IfOk result (λ v. v.items ≡ map (λ p. p.number) (filter (λ p. passes_as search.now.wanted search.now.task.now search.now.want.now (granted_row search.now.revoked.now search.now.joins.now search.now.task.now.task p)) posses.now)) }
{
    let span = search.want.span;
    let _start = span.start();
    posses.numbers_over(alloc, &search.task.source, span, search)
}

fn numbers_of_made(
    alloc: Global,
    made: &[PosseRow],
    task: &TaskRow,
    want: &Want,
) -> Result<Vec<u64>, OutOfMemory>
    ensures { IfOk result (λ v. v.items ≡ map (λ p. p.number) (filter (is_against task.now want.now) made.now)) }
{
    made.iter()
        .filter(|row| is_against(row, row.revoked, task, want))
        .map(|row| row.number)
        .collect(alloc)
}

/// The numbers of the valid locks that don't go with the request, ascending. The error is want of
/// memory.
pub fn numbers_against(
    alloc: Global,
    posses: &Posses,
    so_far: &Granted,
    task: &TaskRow,
    want: &Want,
) -> Result<Vec<u64>, OutOfMemory>
    ensures { IfOk result (λ v. v.items ≡ numbers_against task.now want.now (posses_after posses.now task.now.task so_far.now)) }
{
    let search = Search {
        revoked: so_far.revoked.as_slice(),
        joins: so_far.joins.as_slice(),
        task,
        want,
        wanted: Wanted::Against,
    };
    let numbers = numbers_in(alloc, posses, &search)?;
    let made = numbers_of_made(alloc, so_far.rows.as_slice(), task, want)?;
    sorted(joined(numbers, made)?)
}
