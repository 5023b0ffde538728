//! What `append`, `insert` and `replace` have in common.
ghost use Rattle.std.specs.Prelude.{◌≡◌, IfOk, OnOk};
ghost use Rattle.book_rows.specs.Offsets.{compared};
ghost use Rattle.book_rows.specs.Publications.{ranges_fault};
ghost use Rattle.book_rows.specs.Sequences.{passes};
ghost use Rattle.overlord_core.specs.Commits.{IsAnswered, committed_by};
ghost use Rattle.stream_offsets.specs.Answers.{refusal_of};

pub mod appending;
pub mod dropping;
pub mod filling;

use book_core::{Core, OutOfMemory, Outcome, commit_reply, refused, repeated};
use book_rows::{Publication, Ranges, Refusal, TaskRow, TaskStatus, Twin};
use std::alloc::Global;
use stream_offsets::{OffsetFault, compare};

fn offset_refusal(fault: OffsetFault) -> Refusal
    ensures { result ≡ refusal_of fault }
{
    match fault {
        OffsetFault::BadRange(partition) => Refusal::BadRange { partition },
        OffsetFault::Mismatch(partition, stored) => Refusal::OffsetMismatch { partition, stored },
    }
}

/// The answer where it doesn't depend on what is published: this publication was made before, or
/// the task doesn't run.
pub fn answered(core: &Core, row: &TaskRow, publication: &Publication) -> Option<Outcome>
    ensures { IsAnswered result core.now row.now publication.now }
{
    if let Some(commit) = core.streams.repeat(publication) {
        return Some(repeated(commit_reply(publication.kind, commit)));
    }
    if row.status != TaskStatus::Running {
        return Some(refused(Refusal::TaskNotRunning { status: row.status }));
    }
    None
}

// Whether it is the turn of the task's sequence, where the publish is of one or on its stream.
fn is_assigned(core: &Core, row: &TaskRow, ranges: &Option<Ranges>) -> bool
    ensures { result ≡ passes core.now.supervisors core.now.sequences row.now.source row.now.group ranges.now }
{
    match core.supervisors.assigned(row, ranges.as_ref()) {
        Ok(()) => true,
        Err(_) => false,
    }
}

// Why the ranges don't go on from the stored offsets.
fn offsets_fault(core: &Core, row: &TaskRow, ranges: &Option<Ranges>) -> Option<Refusal>
    ensures { result ≡ compared core.now.offsets row.now.source ranges.now }
{
    match ranges {
        Some(ranges) => match compare(&core.streams, &row.source, ranges) {
            Ok(()) => None,
            Err(fault) => Some(offset_refusal(fault)),
        },
        None => None,
    }
}

/// Why the ranges of a publish are refused. The error is want of memory.
pub fn ranges_fault(
    core: &Core,
    alloc: Global,
    row: &TaskRow,
    ranges: &Option<Ranges>,
) -> Result<Option<Refusal>, OutOfMemory>
    ensures { IfOk result (λ why. why ≡ ranges_fault core.now row.now ranges.now) }
{
    if is_assigned(core, row, ranges) {
        return Ok(offsets_fault(core, row, ranges));
    }
    Ok(Some(Refusal::RangeNotAssigned {
        source: row.source.twin(alloc)?,
    }))
}

/// Adds a publication and stores the ends of its ranges. The sequence that its group names is
/// published with it.
pub fn commit(core: &mut Core, alloc: Global, publication: Publication) -> Result<(), OutOfMemory>
    ensures { OnOk result (core.new ≡ committed_by publication core.old) }
{
    core.supervisors.published(&publication.group);
    publish_rows::commit(&mut core.streams, alloc, publication)
}
