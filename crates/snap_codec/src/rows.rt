//! Reading rows.
ghost use Rattle.snap_codec.specs.Outcomes.{Gives};
ghost use Rattle.snap_codec.specs.Readers.{both_at, option_at};
ghost use Rattle.snap_codec.specs.Grammar.{ranges_at, empties_at, task_row_at, posse_row_at, chunk_row_at, segment_row_at, pending_row_at, upgrade_row_at, publication_at, offset_row_at, supervisor_row_at, sequence_row_at, book_at};

use crate::fault::ReadFault;
use crate::marks::{Flags, Mark};
use crate::values::{Read, empties};
use book_rows::{
    Book, ChunkRow, Items, LockKind, Offset, OffsetRow, PendingRow, PosseRow, Publication, Ranges,
    Report, SegmentRow, SeqState, SequenceRow, SpanSince, SupervisorRow, TaskKind, TaskRow,
    TaskStatus, UpgradeRow, Want,
};
use iv_span::Span;
use seg_names::{Name, SegId, TaskId};
use std::alloc::Global;
use wire_fields::Cursor;

impl Read for TaskRow {
    ghost reads = { task_row_at };

    #[tactic(auto, unfolding(crate::specs::Readers::made_at))]
    fn read(alloc: Global, cursor: &mut Cursor<'_>) -> Result<TaskRow, ReadFault> {
        let (task, (group, (source, (kind, (priority, (status, wants)))))): (
            TaskId,
            (TaskId, (Name, (TaskKind, (u32, (TaskStatus, Items<Want>))))),
        ) = Read::read(alloc, cursor)?;
        Ok(TaskRow {
            task,
            group,
            source,
            kind,
            priority,
            status,
            wants,
        })
    }
}

impl Read for PosseRow {
    ghost reads = { posse_row_at };

    #[tactic(auto, unfolding(crate::specs::Readers::made_at))]
    fn read(alloc: Global, cursor: &mut Cursor<'_>) -> Result<PosseRow, ReadFault> {
        let (
            number,
            (
                lock_kind,
                (group, (source, (span, (version, (priority, (members, (revoked, since))))))),
            ),
        ): (
            u64,
            (
                LockKind,
                (
                    TaskId,
                    (Name, (Span, (i64, (u32, (Items<TaskId>, (bool, u64)))))),
                ),
            ),
        ) = Read::read(alloc, cursor)?;
        Ok(PosseRow {
            number,
            lock_kind,
            group,
            source,
            span,
            version,
            priority,
            members,
            revoked,
            since,
        })
    }
}

impl Read for ChunkRow {
    ghost reads = { chunk_row_at };

    #[tactic(auto, unfolding(crate::specs::Readers::made_at))]
    fn read(alloc: Global, cursor: &mut Cursor<'_>) -> Result<ChunkRow, ReadFault> {
        let (source, (span, (version, (core, next)))): (Name, (Span, (i64, (u32, u32)))) =
            Read::read(alloc, cursor)?;
        Ok(ChunkRow {
            source,
            span,
            version,
            core,
            next,
        })
    }
}

impl Read for SegmentRow {
    ghost reads = { segment_row_at };

    #[tactic(auto, unfolding(crate::specs::Readers::made_at))]
    fn read(alloc: Global, cursor: &mut Cursor<'_>) -> Result<SegmentRow, ReadFault> {
        let (id, (flags, (root, commit))): (SegId, (Flags, (SegId, u64))) = Read::read(
            alloc, cursor,
        )?;
        Ok(SegmentRow {
            id,
            used: flags.used,
            root,
            commit,
            tombstone: flags.tombstone,
        })
    }
}

impl Read for PendingRow {
    ghost reads = { pending_row_at };

    #[tactic(auto, unfolding(crate::specs::Readers::made_at))]
    fn read(alloc: Global, cursor: &mut Cursor<'_>) -> Result<PendingRow, ReadFault> {
        let (id, (root, (posse, (sequence, previous)))): (
            SegId,
            (SegId, (u64, (Name, Option<SegId>))),
        ) = Read::read(alloc, cursor)?;
        Ok(PendingRow {
            id,
            root,
            posse,
            sequence,
            previous,
        })
    }
}

impl Read for UpgradeRow {
    ghost reads = { upgrade_row_at };

    #[tactic(auto, unfolding(crate::specs::Readers::made_at))]
    fn read(alloc: Global, cursor: &mut Cursor<'_>) -> Result<UpgradeRow, ReadFault> {
        let (posse, root): (u64, SegId) = Read::read(alloc, cursor)?;
        Ok(UpgradeRow { posse, root })
    }
}

// What follows the ids that a publication adds.
#[tactic(auto, unfolding(crate::specs::Readers::chosen_at))]
fn tail(
    has_empties: bool,
    alloc: Global,
    cursor: &mut Cursor<'_>,
) -> Result<(Items<SegId>, Option<Ranges>), ReadFault>
    ensures { Gives (both_at (empties_at has_empties) (option_at ranges_at) cursor.old.rest) result cursor.new }
{
    let empties = empties(has_empties, alloc, cursor)?;
    let ranges: Option<Ranges> = Read::read(alloc, cursor)?;
    Ok((empties, ranges))
}

impl Read for Publication {
    ghost reads = { publication_at };

    #[tactic(auto, unfolding(crate::specs::Readers::made_at, crate::specs::Readers::chosen_at))]
    fn read(alloc: Global, cursor: &mut Cursor<'_>) -> Result<Publication, ReadFault> {
        let (mark, front): (Mark, (TaskId, (Name, (Items<SpanSince>, Items<SegId>)))) = Read::read(
            alloc, cursor,
        )?;
        let (empties, ranges) = tail(mark.has_empties(), alloc, cursor)?;
        let (group, (source, (spans, adds))) = front;
        Ok(Publication {
            kind: mark.kind(),
            group,
            source,
            spans,
            adds,
            empties,
            ranges,
        })
    }
}

impl Read for OffsetRow {
    ghost reads = { offset_row_at };

    #[tactic(auto, unfolding(crate::specs::Readers::made_at))]
    fn read(alloc: Global, cursor: &mut Cursor<'_>) -> Result<OffsetRow, ReadFault> {
        let (source, (stream, (partition, offset))): (Name, (Name, (u32, u64))) = Read::read(
            alloc, cursor,
        )?;
        Ok(OffsetRow {
            source,
            stream,
            partition,
            offset,
        })
    }
}

impl Read for SupervisorRow {
    ghost reads = { supervisor_row_at };

    #[tactic(auto, unfolding(crate::specs::Readers::made_at))]
    fn read(alloc: Global, cursor: &mut Cursor<'_>) -> Result<SupervisorRow, ReadFault> {
        let (source, (stream, (partitions, (task_count, (replicas, (duration, timeout)))))): (
            Name,
            (Name, (u32, (u32, (u32, (i64, i64))))),
        ) = Read::read(alloc, cursor)?;
        Ok(SupervisorRow {
            source,
            stream,
            partitions,
            task_count,
            replicas,
            duration,
            timeout,
        })
    }
}

impl Read for SequenceRow {
    ghost reads = { sequence_row_at };

    #[tactic(auto, unfolding(crate::specs::Readers::made_at))]
    fn read(alloc: Global, cursor: &mut Cursor<'_>) -> Result<SequenceRow, ReadFault> {
        let (
            source,
            (group, (index, (state, (opened, (closed, (starts, (ends, (live, reports)))))))),
        ): (
            Name,
            (
                u32,
                (
                    u32,
                    (
                        SeqState,
                        (
                            i64,
                            (
                                i64,
                                (
                                    Items<Offset>,
                                    (Items<Offset>, (Items<TaskId>, Items<Report>)),
                                ),
                            ),
                        ),
                    ),
                ),
            ),
        ) = Read::read(alloc, cursor)?;
        Ok(SequenceRow {
            source,
            group,
            index,
            state,
            opened,
            closed,
            starts,
            ends,
            live,
            reports,
        })
    }
}

// The tables of tasks, locks and segments.
type Segments = (
    Items<TaskRow>,
    (
        Items<PosseRow>,
        (
            Items<ChunkRow>,
            (Items<SegmentRow>, (Items<PendingRow>, Items<UpgradeRow>)),
        ),
    ),
);

// The tables of publications, offsets and supervisors.
type Streams = (
    Items<Publication>,
    (Items<OffsetRow>, (Items<SupervisorRow>, Items<SequenceRow>)),
);

impl Read for Book {
    ghost reads = { book_at };

    #[tactic(auto, unfolding(crate::specs::Readers::made_at))]
    fn read(alloc: Global, cursor: &mut Cursor<'_>) -> Result<Book, ReadFault> {
        let (
            (clock, (last, next_lock)),
            (
                (tasks, (posses, (chunks, (segments, (pendings, upgrades))))),
                (publications, (offsets, (supervisors, sequences))),
            ),
        ): ((i64, (i64, u64)), (Segments, Streams)) = Read::read(alloc, cursor)?;
        Ok(Book {
            clock,
            last,
            next_lock,
            tasks,
            posses,
            chunks,
            segments,
            pendings,
            upgrades,
            publications,
            offsets,
            supervisors,
            sequences,
        })
    }
}
