//! The parts that some rows show.
ghost use Rattle.std.specs.Prelude.{IfOk, List, ℕ};
ghost use Rattle.laws_parts.specs.Laws.{chunk_at};
ghost use Rattle.laws_parts.specs.OneSpan.{ShareOneSpan};
ghost use Rattle.timeline_kept.specs.Rows.{AreOfOneSource, AreUsedOf};
ghost use Rattle.timeline_kept.specs.Shown.{AreShown};

use crate::OutOfMemory;
use crate::part_list::PartList;
use book_rows::SegmentRow;
use std::alloc::Global;
use timeline_view::{covers_of, ids_named, part_of, stretches};

/// The parts of the timeline, where these are the used rows of one source. The error is want of memory.
pub fn parts_of(alloc: Global, rows: &[SegmentRow]) -> Result<PartList, OutOfMemory>
    requires { AreOfOneSource rows.now }
    ensures { IfOk result (λ list. (source : List ℕ) → AreUsedOf rows.now source → ShareOneSpan rows.now source → AreShown (chunk_at rows.now source) list) }
{
    let covers = covers_of(alloc, rows)?;
    let stretches = stretches(alloc, &covers)?;
    let ids = ids_named(alloc, rows)?;
    let mut list = PartList::new(alloc);
    for stretch in &stretches {
        let part = part_of(alloc, &ids, stretch)?;
        list.push(part, stretch.top.span)?;
    }
    Ok(list)
}
