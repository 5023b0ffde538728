//! Live chunks and the locks that guard: none is above one that it overlaps.
ghost use Rattle.std.specs.Prelude.{◌&&◌, ◌+◌, ◌<◌, ◌^◌, ◌≡◌, List, cond, length, map, not};
ghost use Rattle.std.specs.List.{list_any};
ghost use Rattle.book_rows.specs.Kinds.{guards};
ghost use Rattle.book_rows.specs.declared.rows.ChunkRow.{ChunkRow};
ghost use Rattle.book_rows.specs.declared.rows.PendingRow.{PendingRow};
ghost use Rattle.book_rows.specs.declared.rows.SegmentRow.{SegmentRow};
ghost use Rattle.laws_unsound.specs.ChunkRows.{is_above_lock, is_below};
ghost use Rattle.laws_unsound.specs.Rows.{first_passing};
ghost use Rattle.chunk_rules.specs.Lives.{chunk_at, guard_digest, guard_key, guard_ranges, guard_reaches};

use crate::lives::LiveChunk;
use book_rows::{ChunkRow, LockKind, PosseRow};
use row_index::{mix, mix_bytes};
use row_search::index::{Keying, Rows, Seeking};
use row_search::rows::{Test, first_failing};
use seg_names::Name;
use span_keys::{RANGES, span_key, span_range};

/// Locks stand under their source and span, those that guard apart.
#[derive(Drop)]
pub struct ByGuard;

fn guards(kind: LockKind) -> bool
    ensures { result ≡ guards kind }
{
    matches!(kind, LockKind::Exclusive | LockKind::Replace)
}

fn bit(on: bool) -> u64
    ensures { result ≡ cond on 1 0 }
{
    if on { 1 } else { 0 }
}

fn guard_digest(guarding: bool, source: &Name) -> u64
    ensures { result ≡ guard_digest guarding source.now }
{
    mix(mix_bytes(12, source.bytes()), bit(guarding))
}

fn is_guard(lock: &PosseRow) -> bool
    ensures { result ≡ (not lock.now.revoked && guards lock.now.lock_kind) }
{
    !lock.revoked && guards(lock.lock_kind)
}

impl Keying<PosseRow> for ByGuard {
    ghost key = { guard_key };

    fn key(&self, row: &PosseRow) -> (u64, i64) {
        span_key(guard_digest(is_guard(row), &row.source), row.span)
    }
}

impl Seeking<ChunkRow, PosseRow> for ByGuard {
    ghost holds = { λ s c q. is_below c q };

    ghost ranges = { guard_ranges };

    ghost reaches = { λ s c q on. guard_reaches c q on };

    fn holds(&self, asked: &ChunkRow, row: &PosseRow) -> bool {
        !row.revoked
            && (guards(row.lock_kind)
                && (asked.source == row.source
                    && (asked.span.overlaps(row.span) && asked.version > row.version)))
    }

    fn range_count(&self, _asked: &ChunkRow) -> usize {
        RANGES
    }

    fn range(&self, asked: &ChunkRow, at: usize) -> ((u64, i64), i64) {
        span_range(guard_digest(true, &asked.source), asked.span, at)
    }
}

/// The locks that chunks are held against.
#[derive(Drop)]
struct Below<'a, 'b> {
    locks: &'a Rows<'b, PosseRow, ByGuard>,
}

impl Test<LiveChunk<'_>> for Below<'_, '_> {
    ghost passes = { λ s x. not (x.live && list_any (is_below x.chunk) s.locks.now) };

    fn passes(&self, row: &LiveChunk<'_>) -> bool {
        !(row.live && self.locks.any(&ByGuard, row.chunk))
    }
}

/// The first live chunk above a lock that guards and overlaps it, where so many rows stand before the
/// table's first.
pub fn below_locks_row(
    before: u64,
    locks: &Rows<'_, PosseRow, ByGuard>,
    chunks: &[LiveChunk<'_>],
) -> Option<u64>
    requires { before + length chunks.now < 2 ^ 64 }
    ensures { (rows : List SegmentRow) (ps : List PendingRow) (cs : List ChunkRow) → chunks.now ≡ map (chunk_at rows ps) cs → result ≡ first_passing before (is_above_lock locks.now rows ps) cs }
{
    first_failing(before, chunks, &Below { locks })
}
