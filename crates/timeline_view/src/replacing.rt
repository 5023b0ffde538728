//! What a replacement under a lock has to read.
ghost use Rattle.std.specs.Prelude.{◌≡◌, IfOk, OnOk, []};
ghost use Rattle.book_rows.specs.Carried.{is_before, to_replace};
ghost use Rattle.book_rows.specs.Lists.{gathered};
ghost use Rattle.timeline_view.specs.Chunks.{covers_of};
ghost use Rattle.timeline_view.specs.Looks.{ends_over, is_read, look_on, put_read, put_all_read};

use crate::OutOfMemory;
use crate::chunk_parts::covers_of;
use crate::ends::ends_over;
use crate::looks::{Look, is_seen, looks_at};
use crate::sweep::stretches;
use book_rows::{PosseRow, SegmentRow};
use iv_span::Span;
use row_table::RowList;
use seg_names::SegId;
use std::alloc::Global;
use std::collections::BTreeSet;
use tab_segments::Segments;
use tab_streams::Streams;

fn is_before(commit: Option<u64>, since: u64) -> bool
    ensures { result ≡ is_before commit since }
{
    matches!(commit, Some(commit) if commit < since)
}

// Whether a replacement has to read the row's root: it was added before the lock was made, and the
// row is seen.
fn is_read(looks: &RowList<Look>, streams: &Streams, since: u64, row: &SegmentRow) -> bool
    ensures { result ≡ is_read looks.now streams.now.publications since row.now }
{
    !row.tombstone && is_seen(looks, row) && is_before(streams.commit_of(&row.root), since)
}

fn put_root(roots: &mut BTreeSet<SegId>, row: SegmentRow, is_read: bool) -> Result<(), OutOfMemory>
    ensures { OnOk result (roots.new.keys ≡ put_read is_read row roots.old.keys) }
{
    if is_read {
        let SegmentRow {
            id: _,
            used: _,
            root,
            commit: _,
            tombstone: _,
        } = row;
        roots.insert(root)?;
    }
    Ok(())
}

// The roots that are to be read, in id order, each once.
fn roots_read(
    alloc: Global,
    mut rows: Vec<SegmentRow>,
    looks: &RowList<Look>,
    streams: &Streams,
    since: u64,
) -> Result<BTreeSet<SegId>, OutOfMemory>
    ensures { IfOk result (λ roots. roots.keys ≡ put_all_read (is_read looks.now streams.now.publications since) rows.items []) }
{
    let mut roots = BTreeSet::new(alloc);
    while let Some(row) = rows.pop() {
        let is_read = is_read(looks, streams, since, &row);
        put_root(&mut roots, row, is_read)?;
    }
    Ok(roots)
}

fn listed(alloc: Global, roots: BTreeSet<SegId>) -> Result<Vec<SegId>, OutOfMemory>
    ensures { IfOk result (λ ids. ids.items ≡ roots.keys) }
{
    roots.into_iter().collect(alloc)
}

// Looks at the span wherever something may change that rows over it show: at the version of those
// there that is on top.
fn looks_over(alloc: Global, rows: &[SegmentRow], span: Span) -> Result<RowList<Look>, OutOfMemory>
    ensures { IfOk result (λ looks. looks ≡ gathered (look_on (covers_of rows.now)) (ends_over span rows.now)) }
{
    let covers = covers_of(alloc, rows)?;
    let stretches = stretches(alloc, &covers)?;
    let instants = ends_over(alloc, rows, span)?;
    looks_at(alloc, &stretches, &instants)
}

/// The roots that a replacement under the lock has to read: those that were added before the lock
/// was made and are visible at some instant of its span, in id order. The error is want of memory.
pub fn to_replace(
    alloc: Global,
    segments: &Segments,
    streams: &Streams,
    posse: &PosseRow,
) -> Result<Vec<SegId>, OutOfMemory>
    ensures { IfOk result (λ ids. ids.items ≡ to_replace segments.now.segments streams.now.publications posse.now) }
{
    let rows = segments.rows_over(alloc, &posse.source, posse.span)?;
    let looks = looks_over(alloc, &rows, posse.span)?;
    let roots = roots_read(alloc, rows, &looks, streams, posse.since)?;
    listed(alloc, roots)
}
