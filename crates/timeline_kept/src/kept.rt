//! The timelines of all sources, kept.
ghost use Rattle.std.specs.Prelude.{◌≡◌, ◌≢◌, IsOk, List, OnErr, OnOk, [], ℕ};
ghost use Rattle.timeline_kept.specs.Shown.{AreShown, given_over, shown_at};
ghost use Rattle.timeline_kept.specs.Sources.{kept_parts};

use crate::OutOfMemory;
use crate::rows::parts_of;
use crate::timeline::Timeline;
use crate::view::View;
use book_rows::{SegmentRow, TimelinePart, Twin};
use iv_span::Span;
use seg_names::Name;
use std::alloc::Global;
use std::collections::BTreeMap;
use std::marker::Model;

/// The timeline of each source, under its name.
#[derive(Drop)]
pub struct Kept {
    timelines: BTreeMap<Name, Timeline>,
}

impl Model for Kept {
    ghost use Rattle.std.specs.Prelude.{List, ℕ};
    ghost use Rattle.book_rows.specs.Shown.{ChunkPart};

    ghost Value = { List (List ℕ × List ChunkPart) };

    ghost view = { λ k. k.timelines.entries };
}

// Changes the timeline that stands under the name. Where none does, it is as one without parts.
fn change_under(
    timelines: &mut BTreeMap<Name, Timeline>,
    alloc: Global,
    source: &Name,
    fresh: &Timeline,
    spans: &[Span],
) -> Result<(), OutOfMemory>
    ensures own { OnOk result (AreShown (given_over spans.now (shown_at fresh.now) (shown_at (kept_parts timelines.old.entries source.now))) (kept_parts timelines.new.entries source.now)) }
    ensures others { OnOk result ((other : List ℕ) → source.now ≢ other → kept_parts timelines.new.entries other ≡ kept_parts timelines.old.entries other) }
    ensures err { OnErr result ((other : List ℕ) → kept_parts timelines.new.entries other ≡ kept_parts timelines.old.entries other) }
{
    if let Some(timeline) = timelines.get_mut(source) {
        return timeline.change(alloc, fresh, spans);
    }
    let mut timeline = Timeline::new(alloc);
    timeline.change(alloc, fresh, spans)?;
    timelines.insert(source.twin(alloc)?, timeline)?;
    Ok(())
}

impl Kept {
    /// No source has parts.
    pub fn new(alloc: Global) -> Kept
        ensures { result ≡ [] }
    {
        Kept {
            timelines: BTreeMap::new(alloc),
        }
    }
}

impl View for Kept {
    ghost parts = { λ k source. kept_parts k source };

    fn changed(
        &mut self,
        alloc: Global,
        source: &Name,
        spans: &[Span],
        rows: &[SegmentRow],
    ) -> Result<(), OutOfMemory> {
        let fresh = Timeline::from_list(parts_of(alloc, rows)?);
        change_under(&mut self.timelines, alloc, source, &fresh, spans)
    }

    fn lend(&self, source: &Name) -> &[TimelinePart] {
        match self.timelines.get(source) {
            Some(timeline) => timeline.as_slice(),
            None => &[],
        }
    }
}
