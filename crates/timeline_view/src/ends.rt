//! The instants of a span at which something may change.
ghost use Rattle.std.specs.Prelude.{◌≡◌, IfOk, OnOk, fold};
ghost use Rattle.timeline_view.specs.Looks.{ends_over, put_end, row_ends};

use crate::OutOfMemory;
use book_rows::SegmentRow;
use iv_span::Span;
use std::alloc::Global;
use std::collections::BTreeSet;

fn put_end(ends: &mut BTreeSet<i64>, span: Span, at: i64) -> Result<(), OutOfMemory>
    ensures { OnOk result (ends.new.keys ≡ put_end span ends.old.keys at) }
{
    if span.has(at) {
        ends.insert(at)?;
    }
    Ok(())
}

fn put_row_ends(ends: &mut BTreeSet<i64>, span: Span, row: &SegmentRow) -> Result<(), OutOfMemory>
    ensures { OnOk result (ends.new.keys ≡ fold (put_end span) ends.old.keys (row_ends row.now)) }
{
    put_end(ends, span, row.id.span.start())?;
    put_end(ends, span, row.id.span.end())?;
    put_end(ends, span, row.root.span.start())?;
    put_end(ends, span, row.root.span.end())
}

/// The start of the span and, of these rows' spans and their roots' spans, the ends that lie in it:
/// ascending, each once. The error is want of memory.
pub fn ends_over(
    alloc: Global,
    rows: &[SegmentRow],
    span: Span,
) -> Result<BTreeSet<i64>, OutOfMemory>
    ensures { IfOk result (λ ends. ends.keys ≡ ends_over span rows.now) }
{
    let mut ends = BTreeSet::new(alloc);
    put_end(&mut ends, span, span.start())?;
    for row in rows {
        put_row_ends(&mut ends, span, row)?;
    }
    Ok(ends)
}
