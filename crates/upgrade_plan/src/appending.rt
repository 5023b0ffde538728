//! What an append adds: allocated ids become segments, and replacements that are under way carry
//! them.
ghost use Rattle.std.specs.Prelude.{◌≡◌, ◌++◌, IfOk, filter, map, not};
ghost use Rattle.seg_names.specs.Ids.{same_id};
ghost use Rattle.book_rows.specs.Append.{as_row, rows_of_root, upgrade_of};
ghost use Rattle.book_rows.specs.Lists.{gathered};

use crate::OutOfMemory;
use crate::carrying::posse_for_append;
use crate::ids::same_id;
use book_rows::{PendingRow, SegmentRow, UpgradeRow};
use lock_posse::Posses;
use seg_names::SegId;
use std::alloc::Global;
use tab_pending::Pendings;
use tab_segments::Segments;

/// What an append adds.
#[derive(Drop)]
pub struct AppendRows {
    /// The segments that its ids and their copies become.
    pub segments: Vec<SegmentRow>,
    /// What replacements that are under way have to carry of it.
    pub upgrades: Vec<UpgradeRow>,
}

// The segment that a pending becomes.
fn as_row(pending: PendingRow, commit: u64) -> SegmentRow
    ensures { result ≡ as_row commit pending }
{
    let PendingRow { id, root, .. } = pending;
    SegmentRow {
        id,
        used: true,
        root,
        commit,
        tombstone: false,
    }
}

// The segments that these pendings of one root become, the root before its copies.
fn root_first(
    alloc: Global,
    found: Vec<PendingRow>,
    root: &SegId,
    commit: u64,
) -> Result<Vec<SegmentRow>, OutOfMemory>
    ensures { IfOk result (λ v. v.items ≡ map (as_row commit) (filter (λ p. same_id p.id root.now) found.items) ++ map (as_row commit) (filter (λ p. not (same_id p.id root.now)) found.items)) }
{
    let mut rows = Vec::new(alloc);
    let mut copies = Vec::new(alloc);
    for pending in found {
        if same_id(&pending.id, root) {
            rows.push(as_row(pending, commit))?;
        } else {
            copies.push(as_row(pending, commit))?;
        }
    }
    rows.append(&mut copies)?;
    Ok(rows)
}

/// The segments that a root and its copies become, the root first. The error is want of memory.
pub fn rows_for_append(
    alloc: Global,
    pendings: &Pendings,
    root: &SegId,
    commit: u64,
) -> Result<Vec<SegmentRow>, OutOfMemory>
    ensures { IfOk result (λ v. v.items ≡ rows_of_root commit root.now pendings.now.pendings) }
{
    let found = pendings.with_root(alloc, root)?;
    root_first(alloc, found, root, commit)
}

fn segments_of(
    alloc: Global,
    pendings: &Pendings,
    ids: &[SegId],
    commit: u64,
) -> Result<Vec<SegmentRow>, OutOfMemory>
    ensures { IfOk result (λ v. v.items ≡ gathered (λ a. rows_of_root commit a pendings.now.pendings) ids.now) }
{
    let mut rows = Vec::new(alloc);
    for id in ids {
        let mut own = rows_for_append(alloc, pendings, id, commit)?;
        rows.append(&mut own)?;
    }
    Ok(rows)
}

fn upgrades_of(
    alloc: Global,
    posses: &Posses,
    segments: &Segments,
    ids: &[SegId],
) -> Result<Vec<UpgradeRow>, OutOfMemory>
    ensures { IfOk result (λ v. v.items ≡ gathered (upgrade_of posses.now segments.now.chunks) ids.now) }
{
    let mut rows = Vec::new(alloc);
    for id in ids {
        if let Some(posse) = posse_for_append(posses, segments, id) {
            let root = id.twin(alloc)?;
            rows.push(UpgradeRow { posse, root })?;
        }
    }
    Ok(rows)
}

/// What an append of these ids adds. The error is want of memory.
pub fn append_rows(
    alloc: Global,
    posses: &Posses,
    segments: &Segments,
    pendings: &Pendings,
    ids: &[SegId],
    commit: u64,
) -> Result<AppendRows, OutOfMemory>
    ensures segments { IfOk result (λ rows. rows.segments.items ≡ gathered (λ a. rows_of_root commit a pendings.now.pendings) ids.now) }
    ensures upgrades { IfOk result (λ rows. rows.upgrades.items ≡ gathered (upgrade_of posses.now segments.now.chunks) ids.now) }
{
    Ok(AppendRows {
        segments: segments_of(alloc, pendings, ids, commit)?,
        upgrades: upgrades_of(alloc, posses, segments, ids)?,
    })
}
