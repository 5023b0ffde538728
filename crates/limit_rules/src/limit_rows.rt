//! Limits of rows, tables and numbers: the least row that breaks one.
ghost use Rattle.std.specs.Prelude.{◌∷◌, ◌≡◌, [], int_le, nat_le, nat_lt, pos};
ghost use Rattle.iv_time.specs.Range.{is_instant};
ghost use Rattle.book_rows.specs.Shape.{fits_kind, fits_state, fits_version, is_chunk_row, is_offset_row, is_pending_row, is_posse_row, is_publication_row, is_segment_row, is_sequence_row, is_supervisor_row, is_task_row, is_upgrade_row};
ghost use Rattle.laws_unsound.specs.Rows.{first_failing, least};
ghost use Rattle.laws_unsound.specs.ShapeRows.{has_last, has_parts_left, is_number, limit_rows, number_rows};
ghost use Rattle.limit_rules.specs.Tables.{segment_limits, stream_limits, table_limits};
ghost use Rattle.row_search.specs.Starts.{IsCounted};

use crate::limits::{
    fits_kind, fits_state, has_parts_left, is_chunk_row, is_offset_row, is_pending_row,
    is_posse_row, is_publication_row, is_segment_row, is_sequence_row, is_supervisor_row,
    is_task_row, is_upgrade_row,
};
use book_rows::{
    Book, ChunkRow, NUMBER_LIMIT, OffsetRow, PendingRow, PosseRow, Publication, SegmentRow,
    SequenceRow, SupervisorRow, TaskRow, UpgradeRow,
};
use iv_time::in_range;
use row_search::rows::{Test, first_failing, lesser, zero_unless};
use row_search::starts::{Starts, has_room};

/// The limits of a row.
#[derive(Drop)]
struct Limits;

impl Test<TaskRow> for Limits {
    ghost passes = { λ s t. is_task_row t };

    fn passes(&self, row: &TaskRow) -> bool {
        is_task_row(row)
    }
}

impl Test<PosseRow> for Limits {
    ghost passes = { λ s q. is_posse_row q };

    fn passes(&self, row: &PosseRow) -> bool {
        is_posse_row(row)
    }
}

impl Test<ChunkRow> for Limits {
    ghost passes = { λ s c. is_chunk_row c };

    fn passes(&self, row: &ChunkRow) -> bool {
        is_chunk_row(row)
    }
}

impl Test<SegmentRow> for Limits {
    ghost passes = { λ s r. is_segment_row r };

    fn passes(&self, row: &SegmentRow) -> bool {
        is_segment_row(row)
    }
}

impl Test<PendingRow> for Limits {
    ghost passes = { λ s p. is_pending_row p };

    fn passes(&self, row: &PendingRow) -> bool {
        is_pending_row(row)
    }
}

impl Test<UpgradeRow> for Limits {
    ghost passes = { λ s u. is_upgrade_row u };

    fn passes(&self, row: &UpgradeRow) -> bool {
        is_upgrade_row(row)
    }
}

impl Test<Publication> for Limits {
    ghost passes = { λ s m. is_publication_row m };

    fn passes(&self, row: &Publication) -> bool {
        is_publication_row(row)
    }
}

impl Test<OffsetRow> for Limits {
    ghost passes = { λ s r. is_offset_row r };

    fn passes(&self, row: &OffsetRow) -> bool {
        is_offset_row(row)
    }
}

impl Test<SupervisorRow> for Limits {
    ghost passes = { λ s z. is_supervisor_row z };

    fn passes(&self, row: &SupervisorRow) -> bool {
        is_supervisor_row(row)
    }
}

impl Test<SequenceRow> for Limits {
    ghost passes = { λ s u. is_sequence_row u };

    fn passes(&self, row: &SequenceRow) -> bool {
        is_sequence_row(row)
    }
}

/// What a row's kind or state excludes.
#[derive(Drop)]
struct Fitting;

impl Test<Publication> for Fitting {
    ghost passes = { λ s m. fits_kind m.kind m };

    fn passes(&self, row: &Publication) -> bool {
        fits_kind(row)
    }
}

impl Test<SequenceRow> for Fitting {
    ghost passes = { λ s u. fits_state u.state u };

    fn passes(&self, row: &SequenceRow) -> bool {
        fits_state(row)
    }
}

/// The limit of a chunk's next part.
#[derive(Drop)]
struct PartsLeft;

impl Test<ChunkRow> for PartsLeft {
    ghost passes = { λ s c. has_parts_left c };

    fn passes(&self, row: &ChunkRow) -> bool {
        has_parts_left(row)
    }
}

fn has_clock(book: &Book) -> bool
    ensures { result ≡ is_instant book.now.clock }
{
    in_range(book.clock)
}

fn has_last(book: &Book) -> bool
    ensures { result ≡ has_last book.now }
{
    in_range(book.last) && 0 <= book.last
}

fn stream_limits(book: &Book, starts: Starts) -> Option<u64>
    requires { IsCounted book.now starts }
    ensures { result ≡ stream_limits book.now }
{
    let publications = book.publications.as_slice();
    let sequences = book.sequences.as_slice();
    let row = lesser(first_failing(starts.sequences, sequences, &Fitting), None);
    let row = lesser(
        first_failing(starts.publications, publications, &Fitting),
        row,
    );
    let row = lesser(first_failing(starts.sequences, sequences, &Limits), row);
    let row = lesser(
        first_failing(starts.supervisors, book.supervisors.as_slice(), &Limits),
        row,
    );
    lesser(
        first_failing(starts.offsets, book.offsets.as_slice(), &Limits),
        row,
    )
}

fn segment_limits(book: &Book, starts: Starts) -> Option<u64>
    requires { IsCounted book.now starts }
    ensures { result ≡ segment_limits book.now }
{
    let row = stream_limits(book, starts);
    let row = lesser(
        first_failing(starts.publications, book.publications.as_slice(), &Limits),
        row,
    );
    let row = lesser(
        first_failing(starts.upgrades, book.upgrades.as_slice(), &Limits),
        row,
    );
    let row = lesser(
        first_failing(starts.pendings, book.pendings.as_slice(), &Limits),
        row,
    );
    lesser(
        first_failing(starts.segments, book.segments.as_slice(), &Limits),
        row,
    )
}

fn table_limits(book: &Book, starts: Starts) -> Option<u64>
    requires { IsCounted book.now starts }
    ensures { result ≡ table_limits book.now }
{
    let row = segment_limits(book, starts);
    let row = lesser(
        first_failing(starts.chunks, book.chunks.as_slice(), &Limits),
        row,
    );
    let row = lesser(
        first_failing(starts.posses, book.posses.as_slice(), &Limits),
        row,
    );
    lesser(first_failing(0, book.tasks.as_slice(), &Limits), row)
}

/// The least row that breaks a limit.
pub fn limit_row(book: &Book, starts: Starts) -> Option<u64>
    requires { IsCounted book.now starts }
    ensures { result ≡ least (limit_rows book.now) }
{
    let row = table_limits(book, starts);
    let row = lesser(zero_unless(has_last(book)), row);
    let row = lesser(zero_unless(has_clock(book)), row);
    let row = lesser(
        first_failing(starts.chunks, book.chunks.as_slice(), &PartsLeft),
        row,
    );
    lesser(zero_unless(has_room(book)), row)
}

// ---- numbers of locks

/// The limit of locks' numbers.
#[derive(Drop)]
struct Numbers;

fn is_number(number: u64) -> bool
    ensures { result ≡ is_number number }
{
    number < NUMBER_LIMIT
}

impl Test<PosseRow> for Numbers {
    ghost passes = { λ s q. is_number q.number };

    fn passes(&self, row: &PosseRow) -> bool {
        is_number(row.number)
    }
}

impl Test<PendingRow> for Numbers {
    ghost passes = { λ s p. is_number p.posse };

    fn passes(&self, row: &PendingRow) -> bool {
        is_number(row.posse)
    }
}

impl Test<UpgradeRow> for Numbers {
    ghost passes = { λ s u. is_number u.posse };

    fn passes(&self, row: &UpgradeRow) -> bool {
        is_number(row.posse)
    }
}

/// The least row with too great a number of a lock.
pub fn number_row(book: &Book, starts: Starts) -> Option<u64>
    requires { IsCounted book.now starts }
    ensures { result ≡ least (number_rows book.now) }
{
    let row = lesser(
        first_failing(starts.upgrades, book.upgrades.as_slice(), &Numbers),
        None,
    );
    let row = lesser(
        first_failing(starts.pendings, book.pendings.as_slice(), &Numbers),
        row,
    );
    lesser(
        first_failing(starts.posses, book.posses.as_slice(), &Numbers),
        row,
    )
}
