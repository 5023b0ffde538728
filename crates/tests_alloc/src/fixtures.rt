// Rows of the source `w` that several tests begin with. Spans are hours of 2024-03-01.
ghost use Rattle.std.specs.Prelude.{◌≡◌, IfOk};

use book_rows::{ChunkRow, NewPending, PendingRow, SegmentRow};
use iv_span::Span;
use seg_names::{Name, SegId};
use std::alloc::Global;
use std::test::Fail;
use tab_pending::Pendings;

// Midnight of 2024-03-01.
pub const MARCH: i64 = 1_709_251_200_000;

const HOUR: i64 = 3_600_000;

// The instant when an hour of the day begins.
pub fn hour(number: u32) -> i64 {
    MARCH + HOUR * number as i64
}

// From the beginning of an hour to that of another.
pub fn hours(first: u32, last: u32) -> Result<Span, Fail> {
    Ok(Span::new(hour(first), hour(last))?)
}

fn id_of(alloc: Global, span: Span, version: i64, part: u32) -> Result<SegId, Fail>
    ensures { IfOk result (λ id. id.version ≡ version) }
{
    let source = Name::new(alloc, b"w")?;
    Ok(SegId {
        source,
        span,
        version,
        part,
    })
}

// A used segment, part 0 of its chunk.
pub fn segment(alloc: Global, span: Span, version: i64) -> Result<SegmentRow, Fail>
    ensures { IfOk result (λ row. row.id.version ≡ version) }
{
    let id = id_of(alloc, span, version, 0)?;
    let root = id.twin(alloc)?;
    Ok(SegmentRow {
        id,
        used: true,
        root,
        commit: 0,
        tombstone: false,
    })
}

// A root pending in the sixth hour, of the version 0, the lock 1 and the sequence `s`.
fn pending(alloc: Global) -> Result<PendingRow, Fail> {
    let span = hours(5, 6)?;
    let id = id_of(alloc, span, 0, 0)?;
    let root = id_of(alloc, span, 0, 0)?;
    let sequence = Name::new(alloc, b"s")?;
    Ok(PendingRow {
        id,
        root,
        posse: 1,
        sequence,
        previous: None,
    })
}

pub fn add_pending(alloc: Global, pendings: &mut Pendings) -> Result<(), Fail> {
    let row = pending(alloc)?;
    pendings.add(row)?;
    Ok(())
}

// What is to be added for the sequence `s`, under the lock 1.
pub fn new_pending(alloc: Global, span: Span) -> Result<NewPending, Fail> {
    let source = Name::new(alloc, b"w")?;
    let sequence = Name::new(alloc, b"s")?;
    Ok(NewPending {
        source,
        span,
        version: 0,
        posse: 1,
        sequence,
        previous: None,
    })
}

// The chunk of the sixth hour and the version 0, which gives this part next.
pub fn chunk(alloc: Global, next: u32) -> Result<ChunkRow, Fail> {
    let span = hours(5, 6)?;
    let source = Name::new(alloc, b"w")?;
    Ok(ChunkRow {
        source,
        span,
        version: 0,
        core: 0,
        next,
    })
}
