//! Locks that conflict with one another.
ghost use Rattle.std.specs.Prelude.{◌+◌, ◌<◌, ◌^◌, ◌∷◌, ◌≡◌, IfOk, Some, cond, length, slice_get};
ghost use Rattle.book_rows.specs.Kinds.{go_together};
ghost use Rattle.book_rows.specs.Locks.{compatible};
ghost use Rattle.laws_unsound.specs.ChunkRows.{are_in_conflict};
ghost use Rattle.laws_unsound.specs.Rows.{first_clashing};
ghost use Rattle.row_search.specs.Classes.{class_ranges};
ghost use Rattle.lock_rules.specs.Conflicts.{conflict_key, conflict_ranges, conflict_reaches, kind_number, rivals, standing};

use book_rows::{LockKind, PosseRow};
use iv_span::Span;
use row_search::OutOfMemory;
use row_search::clashes::first_clashing;
use row_search::classes::{class_digest, class_key};
use row_search::index::{Keying, Seeking};
use seg_names::Name;
use span_keys::{RANGES, span_range};
use std::alloc::Global;

fn kind_number(kind: LockKind) -> u64
    ensures { result ≡ kind_number kind }
{
    match kind {
        LockKind::Exclusive => 0,
        LockKind::Shared => 1,
        LockKind::Append => 2,
        LockKind::Replace => 3,
    }
}

fn standing(lock: &PosseRow) -> u64
    ensures { result ≡ standing lock.now }
{
    if lock.revoked {
        4
    } else {
        kind_number(lock.lock_kind)
    }
}

// How many kinds may be in conflict with this one.
fn rival_count(kind: LockKind) -> usize
    ensures { result ≡ length (rivals kind) }
{
    match kind {
        LockKind::Exclusive | LockKind::Replace => 4,
        LockKind::Shared | LockKind::Append => 3,
    }
}

// The number of a kind that may be in conflict with this one, those first of which few stand
// together.
fn rival(kind: LockKind, at: usize) -> u64
    requires { at < length (rivals kind) }
    ensures { slice_get (rivals kind) at ≡ Some result }
{
    match kind {
        LockKind::Exclusive | LockKind::Replace => match at {
            0 => 0,
            1 => 1,
            2 => 3,
            _ => 2,
        },
        LockKind::Shared => match at {
            0 => 0,
            1 => 3,
            _ => 2,
        },
        LockKind::Append => match at {
            0 => 0,
            1 => 1,
            _ => 3,
        },
    }
}

fn rival_range(source: &Name, span: Span, kind: LockKind, at: usize) -> ((u64, i64), i64)
    requires { at < length (class_ranges source.now span (rivals kind)) }
    ensures { slice_get (class_ranges source.now span (rivals kind)) at ≡ Some result }
{
    let number = rival(kind, at / RANGES);
    span_range(class_digest(source, number), span, at % RANGES)
}

fn go_together(kind: LockKind, span: Span, other: LockKind, at: Span) -> bool
    ensures { result ≡ go_together kind span other at }
{
    match (kind, other) {
        (LockKind::Shared, LockKind::Shared) => true,
        (LockKind::Append, LockKind::Append) => true,
        (LockKind::Append, LockKind::Replace) => !span.overlaps(at) || at.contains(span),
        (LockKind::Replace, LockKind::Append) => !span.overlaps(at) || span.contains(at),
        _ => !span.overlaps(at),
    }
}

fn are_compatible(lock: &PosseRow, other: &PosseRow) -> bool
    ensures { result ≡ compatible lock.now other.now }
{
    lock.source != other.source
        || go_together(lock.lock_kind, lock.span, other.lock_kind, other.span)
}

/// Locks in conflict.
#[derive(Drop)]
struct Conflict;

impl Keying<PosseRow> for Conflict {
    ghost key = { conflict_key };

    fn key(&self, row: &PosseRow) -> (u64, i64) {
        class_key(&row.source, standing(row), row.span)
    }
}

impl Seeking<PosseRow, PosseRow> for Conflict {
    ghost holds = { λ s q p. are_in_conflict q p };

    ghost ranges = { conflict_ranges };

    ghost reaches = { λ s q p on. conflict_reaches q p on };

    fn holds(&self, asked: &PosseRow, row: &PosseRow) -> bool {
        !asked.revoked && (!row.revoked && !are_compatible(asked, row))
    }

    fn range_count(&self, asked: &PosseRow) -> usize {
        if asked.revoked {
            0
        } else {
            rival_count(asked.lock_kind) * RANGES
        }
    }

    fn range(&self, asked: &PosseRow, at: usize) -> ((u64, i64), i64) {
        rival_range(&asked.source, asked.span, asked.lock_kind, at)
    }
}

/// The first lock that isn't compatible with a later one, where so many rows stand before the table's
/// first. The error is want of memory.
pub fn compatible_row(
    alloc: Global,
    before: u64,
    locks: &[PosseRow],
) -> Result<Option<u64>, OutOfMemory>
    requires { before + length locks.now < 2 ^ 64 }
    ensures { IfOk result (λ row. row ≡ first_clashing before are_in_conflict locks.now) }
{
    first_clashing(alloc, before, locks, &Conflict)
}
