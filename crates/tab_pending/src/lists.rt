//! What look-ups answer that find several rows.
ghost use Rattle.std.specs.Prelude.{◌≡◌, IfOk, map};

use crate::OutOfMemory;
use crate::keys::{Pending, Upgrade};
use book_rows::{PendingRow, Twin};
use seg_names::SegId;
use std::alloc::Global;

/// The ids of the pendings, in turn. The error is want of memory.
pub fn ids_of(alloc: Global, found: &[&Pending]) -> Result<Vec<SegId>, OutOfMemory>
    ensures { IfOk result (λ v. v.items ≡ map (λ p. p.id) (map (λ r. r.now) found.now)) }
{
    let mut ids = Vec::new(alloc);
    for pending in found {
        ids.push(pending.row.id.twin(alloc)?)?;
    }
    Ok(ids)
}

/// Twins of the pendings, in turn. The error is want of memory.
pub fn rows_of(alloc: Global, found: &[&Pending]) -> Result<Vec<PendingRow>, OutOfMemory>
    ensures { IfOk result (λ v. v.items ≡ map (λ r. r.now) found.now) }
{
    let mut rows = Vec::new(alloc);
    for pending in found {
        rows.push(pending.row.twin(alloc)?)?;
    }
    Ok(rows)
}

/// The roots of the upgrade rows, in turn. The error is want of memory.
pub fn roots_of(alloc: Global, found: &[&Upgrade]) -> Result<Vec<SegId>, OutOfMemory>
    ensures { IfOk result (λ v. v.items ≡ map (λ u. u.root) (map (λ r. r.now) found.now)) }
{
    let mut roots = Vec::new(alloc);
    for upgrade in found {
        roots.push(upgrade.row.root.twin(alloc)?)?;
    }
    Ok(roots)
}
