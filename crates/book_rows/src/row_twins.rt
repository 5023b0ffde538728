//! Twins of the book and its rows.
ghost use Rattle.std.specs.Prelude.{◌≡◌, IfOk};

use crate::OutOfMemory;
use crate::items::{Items, Twin, twin_both};
use crate::rows::{
    Book, ChunkRow, Offset, OffsetRow, PendingRow, PosseRow, Publication, Range, Ranges, Report,
    SegmentRow, SequenceRow, SpanSince, SupervisorRow, TaskRow, UpgradeRow, Want,
};
use std::alloc::Global;

impl Twin for Want {
    fn twin(&self, _alloc: Global) -> Result<Want, OutOfMemory> {
        Ok(*self)
    }
}

impl Twin for SpanSince {
    fn twin(&self, _alloc: Global) -> Result<SpanSince, OutOfMemory> {
        Ok(*self)
    }
}

impl Twin for Range {
    fn twin(&self, _alloc: Global) -> Result<Range, OutOfMemory> {
        Ok(*self)
    }
}

impl Twin for Offset {
    fn twin(&self, _alloc: Global) -> Result<Offset, OutOfMemory> {
        Ok(*self)
    }
}

impl Twin for TaskRow {
    fn twin(&self, alloc: Global) -> Result<TaskRow, OutOfMemory> {
        let (task, group) = twin_both(alloc, &self.task, &self.group)?;
        let (source, wants) = twin_both(alloc, &self.source, &self.wants)?;
        Ok(TaskRow {
            task,
            group,
            source,
            kind: self.kind,
            priority: self.priority,
            status: self.status,
            wants,
        })
    }
}

impl Twin for PosseRow {
    fn twin(&self, alloc: Global) -> Result<PosseRow, OutOfMemory> {
        let (group, source) = twin_both(alloc, &self.group, &self.source)?;
        let members = self.members.twin(alloc)?;
        Ok(PosseRow {
            number: self.number,
            lock_kind: self.lock_kind,
            group,
            source,
            span: self.span,
            version: self.version,
            priority: self.priority,
            members,
            revoked: self.revoked,
            since: self.since,
        })
    }
}

impl Twin for ChunkRow {
    fn twin(&self, alloc: Global) -> Result<ChunkRow, OutOfMemory> {
        Ok(ChunkRow {
            source: self.source.twin(alloc)?,
            span: self.span,
            version: self.version,
            core: self.core,
            next: self.next,
        })
    }
}

impl Twin for SegmentRow {
    fn twin(&self, alloc: Global) -> Result<SegmentRow, OutOfMemory> {
        let (id, root) = twin_both(alloc, &self.id, &self.root)?;
        Ok(SegmentRow {
            id,
            used: self.used,
            root,
            commit: self.commit,
            tombstone: self.tombstone,
        })
    }
}

impl Twin for PendingRow {
    fn twin(&self, alloc: Global) -> Result<PendingRow, OutOfMemory> {
        let (id, root) = twin_both(alloc, &self.id, &self.root)?;
        let (sequence, previous) = twin_both(alloc, &self.sequence, &self.previous)?;
        Ok(PendingRow {
            id,
            root,
            posse: self.posse,
            sequence,
            previous,
        })
    }
}

impl Twin for UpgradeRow {
    fn twin(&self, alloc: Global) -> Result<UpgradeRow, OutOfMemory> {
        Ok(UpgradeRow {
            posse: self.posse,
            root: self.root.twin(alloc)?,
        })
    }
}

impl Twin for Ranges {
    fn twin(&self, alloc: Global) -> Result<Ranges, OutOfMemory> {
        let (stream, parts) = twin_both(alloc, &self.stream, &self.parts)?;
        Ok(Ranges { stream, parts })
    }
}

impl Twin for Publication {
    fn twin(&self, alloc: Global) -> Result<Publication, OutOfMemory> {
        let (group, source) = twin_both(alloc, &self.group, &self.source)?;
        let (adds, empties) = twin_both(alloc, &self.adds, &self.empties)?;
        let (spans, ranges) = twin_both(alloc, &self.spans, &self.ranges)?;
        Ok(Publication {
            kind: self.kind,
            group,
            source,
            spans,
            adds,
            empties,
            ranges,
        })
    }
}

impl Twin for OffsetRow {
    fn twin(&self, alloc: Global) -> Result<OffsetRow, OutOfMemory> {
        let (source, stream) = twin_both(alloc, &self.source, &self.stream)?;
        Ok(OffsetRow {
            source,
            stream,
            partition: self.partition,
            offset: self.offset,
        })
    }
}

impl Twin for SupervisorRow {
    fn twin(&self, alloc: Global) -> Result<SupervisorRow, OutOfMemory> {
        let (source, stream) = twin_both(alloc, &self.source, &self.stream)?;
        Ok(SupervisorRow {
            source,
            stream,
            partitions: self.partitions,
            task_count: self.task_count,
            replicas: self.replicas,
            duration: self.duration,
            timeout: self.timeout,
        })
    }
}

impl Twin for Report {
    fn twin(&self, alloc: Global) -> Result<Report, OutOfMemory> {
        let (task, offsets) = twin_both(alloc, &self.task, &self.offsets)?;
        Ok(Report { task, offsets })
    }
}

impl Twin for SequenceRow {
    fn twin(&self, alloc: Global) -> Result<SequenceRow, OutOfMemory> {
        let (starts, ends) = twin_both(alloc, &self.starts, &self.ends)?;
        let (live, reports) = twin_both(alloc, &self.live, &self.reports)?;
        let source = self.source.twin(alloc)?;
        Ok(SequenceRow {
            source,
            group: self.group,
            index: self.index,
            state: self.state,
            opened: self.opened,
            closed: self.closed,
            starts,
            ends,
            live,
            reports,
        })
    }
}

// The twins of the tables of tasks and segments, and of what waits to be published.
#[derive(Drop)]
struct TaskTables {
    tasks: Items<TaskRow>,
    posses: Items<PosseRow>,
    pendings: Items<PendingRow>,
    upgrades: Items<UpgradeRow>,
}

fn task_tables(alloc: Global, book: &Book) -> Result<TaskTables, OutOfMemory>
    ensures tasks { IfOk result (λ t. t.tasks ≡ book.now.tasks) }
    ensures posses { IfOk result (λ t. t.posses ≡ book.now.posses) }
    ensures pendings { IfOk result (λ t. t.pendings ≡ book.now.pendings) }
    ensures upgrades { IfOk result (λ t. t.upgrades ≡ book.now.upgrades) }
{
    let (tasks, posses) = twin_both(alloc, &book.tasks, &book.posses)?;
    let (pendings, upgrades) = twin_both(alloc, &book.pendings, &book.upgrades)?;
    Ok(TaskTables {
        tasks,
        posses,
        pendings,
        upgrades,
    })
}

// The twins of the tables that publications fill.
#[derive(Drop)]
struct PublishedTables {
    chunks: Items<ChunkRow>,
    segments: Items<SegmentRow>,
    publications: Items<Publication>,
}

fn published_tables(alloc: Global, book: &Book) -> Result<PublishedTables, OutOfMemory>
    ensures chunks { IfOk result (λ t. t.chunks ≡ book.now.chunks) }
    ensures segments { IfOk result (λ t. t.segments ≡ book.now.segments) }
    ensures publications { IfOk result (λ t. t.publications ≡ book.now.publications) }
{
    let (chunks, segments) = twin_both(alloc, &book.chunks, &book.segments)?;
    let publications = book.publications.twin(alloc)?;
    Ok(PublishedTables {
        chunks,
        segments,
        publications,
    })
}

// The twins of the tables of streams.
#[derive(Drop)]
struct StreamTables {
    offsets: Items<OffsetRow>,
    supervisors: Items<SupervisorRow>,
    sequences: Items<SequenceRow>,
}

fn stream_tables(alloc: Global, book: &Book) -> Result<StreamTables, OutOfMemory>
    ensures offsets { IfOk result (λ t. t.offsets ≡ book.now.offsets) }
    ensures supervisors { IfOk result (λ t. t.supervisors ≡ book.now.supervisors) }
    ensures sequences { IfOk result (λ t. t.sequences ≡ book.now.sequences) }
{
    let (supervisors, sequences) = twin_both(alloc, &book.supervisors, &book.sequences)?;
    let offsets = book.offsets.twin(alloc)?;
    Ok(StreamTables {
        offsets,
        supervisors,
        sequences,
    })
}

impl Twin for Book {
    fn twin(&self, alloc: Global) -> Result<Book, OutOfMemory> {
        let TaskTables {
            tasks,
            posses,
            pendings,
            upgrades,
        } = task_tables(alloc, self)?;
        let PublishedTables {
            chunks,
            segments,
            publications,
        } = published_tables(alloc, self)?;
        let StreamTables {
            offsets,
            supervisors,
            sequences,
        } = stream_tables(alloc, self)?;
        Ok(Book {
            clock: self.clock,
            last: self.last,
            next_lock: self.next_lock,
            tasks,
            posses,
            chunks,
            segments,
            pendings,
            upgrades,
            publications,
            offsets,
            supervisors,
            sequences,
        })
    }
}
