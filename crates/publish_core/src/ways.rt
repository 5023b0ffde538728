//! What is in the way of an insert, and of a replacement.
ghost use Rattle.std.specs.Prelude.{◌≡◌, IfOk, map, ℕ};
ghost use Rattle.book_rows.specs.Lists.{or_else, stands_in};
ghost use Rattle.book_rows.specs.Over.{pending_fault, root_fault, upgrade_fault};
ghost use Rattle.publish_core.specs.Answers.{IsPassed};

use crate::OutOfMemory;
use crate::faults::PublishFault;
use crate::targets::Target;
use iv_span::Span;
use seg_names::Name;
use std::alloc::Global;
use tab_pending::Pendings;

/// Whether no pending of the source overlaps a span. `PendingOverlap` tells the first.
pub fn check_pendings(
    alloc: Global,
    pendings: &Pendings,
    source: &Name,
    spans: &[Span],
) -> Result<(), PublishFault>
    ensures { IsPassed result (pending_fault pendings.now.pendings source.now spans.now) }
{
    match pendings.first_over(source, spans) {
        Some(pending) => Err(PublishFault::PendingOverlap(pending.id.twin(alloc)?)),
        None => Ok(()),
    }
}

// The numbers of the locks, each once where the spans of one follow one another.
//
// They do: replacing locks that are valid at once don't overlap.
fn locks_of(alloc: Global, targets: &[Target]) -> Result<Vec<u64>, OutOfMemory>
    ensures { IfOk result (λ v. (n : ℕ) → stands_in v.items n ≡ stands_in (map (λ x. x.lock) targets.now) n) }
{
    let mut locks = Vec::new(alloc);
    for target in targets {
        if locks.last() != Some(&target.lock) {
            locks.push(target.lock)?;
        }
    }
    Ok(locks)
}

/// Whether what a replacement would carry lies within its spans where it overlaps them: the upgrade
/// roots of its locks, and the root pendings of the source. `Granularity` tells the first that
/// doesn't.
pub fn check_carried(
    alloc: Global,
    pendings: &Pendings,
    source: &Name,
    targets: &[Target],
    spans: &[Span],
) -> Result<(), PublishFault>
    ensures { IsPassed result (or_else (upgrade_fault pendings.now.upgrades (map (λ x. x.lock) targets.now) spans.now) (root_fault pendings.now.pendings source.now spans.now)) }
{
    let locks = locks_of(alloc, targets)?;
    if let Some(upgrade) = pendings.first_upgrade_across(locks.as_slice(), spans) {
        return Err(PublishFault::Granularity(upgrade.root.twin(alloc)?));
    }
    match pendings.first_root_across(source, spans) {
        Some(pending) => Err(PublishFault::Granularity(pending.id.twin(alloc)?)),
        None => Ok(()),
    }
}
