//! Tests of locks, and lists of numbers.
ghost use Rattle.std.specs.Prelude.{◌≡◌, IfOk};
ghost use Rattle.book_rows.specs.Kinds.{same_kind};
ghost use Rattle.book_rows.specs.Lists.{ascending, stands_in};
ghost use Rattle.book_rows.specs.Locks.{is_held, is_lost, is_member, is_valid_over};

use crate::OutOfMemory;
use crate::over::LockTest;
use book_rows::{LockKind, PosseRow};
use iv_span::Span;
use seg_names::{Name, TaskId};

/// The numbers in ascending order. The error is want of memory.
pub fn sorted(mut numbers: Vec<u64>) -> Result<Vec<u64>, OutOfMemory>
    ensures { IfOk result (λ v. v.items ≡ ascending numbers.items) }
{
    numbers.sort()?;
    Ok(numbers)
}

/// Whether the number is one of these.
pub fn is_listed(numbers: &[u64], number: u64) -> bool
    ensures { result ≡ stands_in numbers.now number }
{
    numbers.iter().any(|listed| *listed == number)
}

/// Whether the task is a member of the lock.
pub fn has_member(row: &PosseRow, task: &TaskId) -> bool
    ensures { result ≡ is_member task.now row.now }
{
    row.members.as_slice().iter().any(|member| *member == *task)
}

fn is_of_kind(row: &PosseRow, kind: LockKind) -> bool
    ensures { result ≡ same_kind row.now.lock_kind kind }
{
    row.lock_kind == kind
}

/// The valid locks of a source over a span.
#[derive(Drop)]
pub struct Valid<'a> {
    pub source: &'a Name,
    pub span: Span,
}

impl LockTest for Valid<'_> {
    ghost passes = { λ q p. is_valid_over q.source.now q.span p };

    fn passes(&self, row: &PosseRow) -> bool {
        !row.revoked && row.source == *self.source && row.span.overlaps(self.span)
    }
}

/// The revoked locks of a source over a span that have a task as a member.
#[derive(Drop)]
pub struct Lost<'a> {
    pub task: &'a TaskId,
    pub source: &'a Name,
    pub span: Span,
}

impl LockTest for Lost<'_> {
    ghost passes = { λ q p. is_lost q.task.now q.source.now q.span p };

    fn passes(&self, row: &PosseRow) -> bool {
        row.revoked
            && row.source == *self.source
            && row.span.overlaps(self.span)
            && has_member(row, self.task)
    }
}

/// The valid locks of a source and a kind round a span that have a task as a member.
#[derive(Drop)]
pub struct Held<'a> {
    pub task: &'a TaskId,
    pub source: &'a Name,
    pub span: Span,
    pub lock_kind: LockKind,
}

impl LockTest for Held<'_> {
    ghost passes = { λ q p. is_held q.task.now q.source.now q.span q.lock_kind p };

    fn passes(&self, row: &PosseRow) -> bool {
        !row.revoked
            && row.source == *self.source
            && is_of_kind(row, self.lock_kind)
            && row.span.contains(self.span)
            && has_member(row, self.task)
    }
}
