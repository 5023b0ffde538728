//! Writing rows and books.
ghost use Rattle.std.specs.Prelude.{◌≡◌, ◌++◌, OnOk, IfOk};
ghost use Rattle.snap_codec.specs.Rows.{task_field, posse_field, chunk_field, segment_field, pending_field, upgrade_field, publication_front, publication_field, offset_row_field, supervisor_field, sequence_field, numbers_of_book, segments_of_book, streams_of_book, book_field};
ghost use Rattle.snap_codec.specs.Fits.{FitsTask, FitsPosse, FitsChunk, FitsSegment, FitsPending, FitsUpgrade, FitsFront, FitsPublication, FitsOffsetRow, FitsSupervisor, FitsSequence, FitsNumbers, FitsSegments, FitsStreams, FitsBook, AreMarked};
ghost use Rattle.snap_codec.specs.Snapshots.{WritesBook};

use crate::OutOfMemory;
use crate::fields::{Write, put_flags};
use crate::marks::mark_of;
use book_rows::{
    Book, ChunkRow, OffsetRow, PendingRow, PosseRow, Publication, SegmentRow, SequenceRow,
    SupervisorRow, TaskRow, UpgradeRow,
};
use std::alloc::Global;

impl Write for TaskRow {
    ghost field = { task_field };

    ghost Fits = { FitsTask };

    fn put(&self, out: &mut Vec<u8>) -> Result<(), OutOfMemory> {
        self.task.put(out)?;
        self.group.put(out)?;
        self.source.put(out)?;
        self.kind.put(out)?;
        self.priority.put(out)?;
        self.status.put(out)?;
        self.wants.put(out)
    }
}

impl Write for PosseRow {
    ghost field = { posse_field };

    ghost Fits = { FitsPosse };

    fn put(&self, out: &mut Vec<u8>) -> Result<(), OutOfMemory> {
        self.number.put(out)?;
        self.lock_kind.put(out)?;
        self.group.put(out)?;
        self.source.put(out)?;
        self.span.put(out)?;
        self.version.put(out)?;
        self.priority.put(out)?;
        self.members.put(out)?;
        self.revoked.put(out)?;
        self.since.put(out)
    }
}

impl Write for ChunkRow {
    ghost field = { chunk_field };

    ghost Fits = { FitsChunk };

    fn put(&self, out: &mut Vec<u8>) -> Result<(), OutOfMemory> {
        self.source.put(out)?;
        self.span.put(out)?;
        self.version.put(out)?;
        self.core.put(out)?;
        self.next.put(out)
    }
}

impl Write for SegmentRow {
    ghost field = { segment_field };

    ghost Fits = { FitsSegment };

    fn put(&self, out: &mut Vec<u8>) -> Result<(), OutOfMemory> {
        self.id.put(out)?;
        put_flags(self.used, self.tombstone, out)?;
        self.root.put(out)?;
        self.commit.put(out)
    }
}

impl Write for PendingRow {
    ghost field = { pending_field };

    ghost Fits = { FitsPending };

    fn put(&self, out: &mut Vec<u8>) -> Result<(), OutOfMemory> {
        self.id.put(out)?;
        self.root.put(out)?;
        self.posse.put(out)?;
        self.sequence.put(out)?;
        self.previous.put(out)
    }
}

impl Write for UpgradeRow {
    ghost field = { upgrade_field };

    ghost Fits = { FitsUpgrade };

    fn put(&self, out: &mut Vec<u8>) -> Result<(), OutOfMemory> {
        self.posse.put(out)?;
        self.root.put(out)
    }
}

fn put_front(row: &Publication, out: &mut Vec<u8>) -> Result<(), OutOfMemory>
    ensures bytes { OnOk result (out.new.items ≡ out.old.items ++ publication_front row.now) }
    ensures kept { OnOk result (FitsFront row.now) }
{
    mark_of(row.kind, &row.empties).put(out)?;
    row.group.put(out)?;
    row.source.put(out)?;
    row.spans.put(out)?;
    row.adds.put(out)
}

impl Write for Publication {
    ghost field = { publication_field };

    ghost Fits = { FitsPublication };

    fn put(&self, out: &mut Vec<u8>) -> Result<(), OutOfMemory> {
        put_front(self, out)?;
        if mark_of(self.kind, &self.empties).has_empties() {
            self.empties.put(out)?;
        }
        self.ranges.put(out)
    }
}

impl Write for OffsetRow {
    ghost field = { offset_row_field };

    ghost Fits = { FitsOffsetRow };

    fn put(&self, out: &mut Vec<u8>) -> Result<(), OutOfMemory> {
        self.source.put(out)?;
        self.stream.put(out)?;
        self.partition.put(out)?;
        self.offset.put(out)
    }
}

impl Write for SupervisorRow {
    ghost field = { supervisor_field };

    ghost Fits = { FitsSupervisor };

    fn put(&self, out: &mut Vec<u8>) -> Result<(), OutOfMemory> {
        self.source.put(out)?;
        self.stream.put(out)?;
        self.partitions.put(out)?;
        self.task_count.put(out)?;
        self.replicas.put(out)?;
        self.duration.put(out)?;
        self.timeout.put(out)
    }
}

impl Write for SequenceRow {
    ghost field = { sequence_field };

    ghost Fits = { FitsSequence };

    fn put(&self, out: &mut Vec<u8>) -> Result<(), OutOfMemory> {
        self.source.put(out)?;
        self.group.put(out)?;
        self.index.put(out)?;
        self.state.put(out)?;
        self.opened.put(out)?;
        self.closed.put(out)?;
        self.starts.put(out)?;
        self.ends.put(out)?;
        self.live.put(out)?;
        self.reports.put(out)
    }
}

fn put_numbers(book: &Book, out: &mut Vec<u8>) -> Result<(), OutOfMemory>
    ensures bytes { OnOk result (out.new.items ≡ out.old.items ++ numbers_of_book book.now) }
    ensures kept { OnOk result (FitsNumbers book.now) }
{
    book.clock.put(out)?;
    book.last.put(out)?;
    book.next_lock.put(out)
}

fn put_segments(book: &Book, out: &mut Vec<u8>) -> Result<(), OutOfMemory>
    ensures bytes { OnOk result (out.new.items ≡ out.old.items ++ segments_of_book book.now) }
    ensures kept { OnOk result (FitsSegments FitsSegment book.now) }
{
    book.tasks.put(out)?;
    book.posses.put(out)?;
    book.chunks.put(out)?;
    book.segments.put(out)?;
    book.pendings.put(out)?;
    book.upgrades.put(out)
}

fn put_streams(book: &Book, out: &mut Vec<u8>) -> Result<(), OutOfMemory>
    ensures bytes { OnOk result (out.new.items ≡ out.old.items ++ streams_of_book book.now) }
    ensures kept { OnOk result (FitsStreams FitsPublication book.now) }
{
    book.publications.put(out)?;
    book.offsets.put(out)?;
    book.supervisors.put(out)?;
    book.sequences.put(out)
}

fn put_book(book: &Book, out: &mut Vec<u8>) -> Result<(), OutOfMemory>
    ensures bytes { OnOk result (out.new.items ≡ out.old.items ++ book_field book.now) }
    ensures kept { OnOk result (FitsBook book.now) }
{
    put_numbers(book, out)?;
    put_segments(book, out)?;
    put_streams(book, out)
}

/// The bytes of a book, which read as that book. Its condition is that nothing but what inserts or
/// replaces has tombstones, as in every book within its limits. The error is want of memory.
#[tactic(auto, using(crate::proofs::BookBytes::writes_book))]
pub fn encode_book(alloc: Global, book: &Book) -> Result<Vec<u8>, OutOfMemory>
    requires { AreMarked book.now.publications }
    ensures { IfOk result (λ bytes. WritesBook book.now bytes.items) }
{
    let mut bytes = Vec::new(alloc);
    put_book(book, &mut bytes)?;
    Ok(bytes)
}
