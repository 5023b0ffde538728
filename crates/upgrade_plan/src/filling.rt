//! What an insert and a replacement add.
ghost use Rattle.std.specs.Prelude.{◌≡◌, ◌≤◌, ◌+◌, ◌++◌, ◌∷◌, [], IfOk, OnOk, false, filter, length, map, nat_lt, true};
ghost use Rattle.std.specs.List.{list_any};
ghost use Rattle.book_rows.specs.Form.{is_few, item_limit};
ghost use Rattle.book_rows.specs.Ids.{is_of_span};
ghost use Rattle.book_rows.specs.Lists.{gathered};
ghost use Rattle.book_rows.specs.Outcome.{part_limit, row_limit};
ghost use Rattle.book_rows.specs.Rewrite.{how_many, own_rows};
ghost use Rattle.publish_core.specs.Kinds.{filling_of};
ghost use Rattle.upgrade_plan.specs.NewRows.{AreWithinLimit, chunk_in, copies_from, copies_in, new_chunks, new_pendings, new_segments, row_of};

use crate::OutOfMemory;
use crate::copying::copies_for_replace;
use crate::ids::same_span;
use crate::spans::{SpanIds, core_of};
use book_rows::{ChunkRow, Copies, Items, PendingRow, SegmentRow};
use iv_span::Span;
use publish_core::{Filling, Target};
use seg_names::{Name, SegId};
use std::alloc::Global;
use tab_pending::Pendings;

/// What an insert or a replacement adds.
#[derive(Drop)]
pub struct OverRows {
    /// The chunk of each span.
    pub chunks: Vec<ChunkRow>,
    /// The ids and tombstones of the spans, span by span, and then the copies of published roots.
    pub segments: Vec<SegmentRow>,
    /// The copies of roots that are pending.
    pub pendings: Vec<PendingRow>,
}

// ---- ids and tombstones

fn own_row(
    alloc: Global,
    id: &SegId,
    commit: u64,
    tombstone: bool,
) -> Result<SegmentRow, OutOfMemory>
    ensures { IfOk result (λ row. row ≡ row_of commit tombstone id.now) }
{
    Ok(SegmentRow {
        id: id.twin(alloc)?,
        used: true,
        root: id.twin(alloc)?,
        commit,
        tombstone,
    })
}

// Adds the segments that the ids of the span become.
fn add_own(
    alloc: Global,
    rows: &mut Vec<SegmentRow>,
    ids: &SpanIds<'_>,
    span: Span,
    commit: u64,
    tombstone: bool,
) -> Result<(), OutOfMemory>
    ensures { OnOk result (rows.new.items ≡ rows.old.items ++ map (row_of commit tombstone) (filter (is_of_span span) ids.now.ids.now)) }
{
    for id in ids.near(span) {
        if same_span(id.span, span) {
            rows.push(own_row(alloc, id, commit, tombstone)?)?;
        }
    }
    Ok(())
}

// Adds the segments that the ids and the tombstones of the span become.
fn add_span(
    alloc: Global,
    rows: &mut Vec<SegmentRow>,
    ids: &SpanIds<'_>,
    tombstones: &SpanIds<'_>,
    span: Span,
    commit: u64,
) -> Result<(), OutOfMemory>
    ensures { OnOk result (rows.new.items ≡ rows.old.items ++ own_rows commit ids.now.ids.now tombstones.now.ids.now span) }
{
    add_own(alloc, rows, ids, span, commit, false)?;
    add_own(alloc, rows, tombstones, span, commit, true)?;
    Ok(())
}

fn own_rows(
    alloc: Global,
    ids: &SpanIds<'_>,
    tombstones: &SpanIds<'_>,
    targets: &[Target],
    commit: u64,
) -> Result<Vec<SegmentRow>, OutOfMemory>
    ensures { IfOk result (λ v. v.items ≡ gathered (λ x. own_rows commit ids.now.ids.now tombstones.now.ids.now x.span) targets.now) }
{
    let mut rows = Vec::new(alloc);
    for target in targets {
        add_span(alloc, &mut rows, ids, tombstones, target.span, commit)?;
    }
    Ok(rows)
}

// ---- chunks and copies

fn count_of(copies: &Copies) -> u32
    requires { how_many copies.now ≤ part_limit }
    ensures { result ≡ how_many copies.now }
{
    (copies.segments.len() + copies.pendings.len()) as u32
}

fn chunk_with(
    alloc: Global,
    source: &Name,
    target: &Target,
    core: u32,
    copies: u32,
) -> Result<ChunkRow, OutOfMemory>
    requires { core + copies ≤ part_limit }
    ensures { IfOk result (λ c. c ≡ record { source = source.now; span = target.now.span; version = target.now.version; core = core; next = core + copies }) }
{
    Ok(ChunkRow {
        source: source.twin(alloc)?,
        span: target.span,
        version: target.version,
        core,
        next: core + copies,
    })
}

/// What is published, but for the tombstones, and beside what.
#[derive(Drop)]
struct Plan<'a> {
    filling: Filling,
    pendings: &'a Pendings,
    source: &'a Name,
    ids: SpanIds<'a>,
    commit: u64,
}

impl Plan<'_> {
    // The copies for the target, numbered on from a part.
    fn copies_from(&self, alloc: Global, target: &Target, from: u32) -> Result<Copies, OutOfMemory>
        requires first { from ≤ item_limit }
        requires rows { AreWithinLimit self.now.pendings.now }
        ensures { IfOk result (λ copies. copies ≡ copies_from (filling_of self.now.filling) self.now.pendings.now self.now.source.now self.now.commit target.now from) }
    {
        match self.filling {
            Filling::Inserting => Ok(Copies {
                segments: Items::new(alloc),
                pendings: Items::new(alloc),
            }),
            Filling::Replacing => copies_for_replace(
                alloc,
                self.pendings,
                target.lock,
                self.source,
                target.span,
                target.version,
                from,
                self.commit,
            ),
        }
    }

    // Adds the chunk of the target, and the copies that go into it.
    fn add(&self, alloc: Global, rows: &mut OverRows, target: &Target) -> Result<(), OutOfMemory>
        requires few { is_few self.now.ids.ids.now ≡ true }
        requires rows { AreWithinLimit self.now.pendings.now }
        ensures chunks { OnOk result (rows.new.chunks.items ≡ rows.old.chunks.items ++ chunk_in (filling_of self.now.filling) self.now.pendings.now self.now.source.now self.now.ids.ids.now self.now.commit target.now ∷ []) }
        ensures segments { OnOk result (rows.new.segments.items ≡ rows.old.segments.items ++ (copies_in (filling_of self.now.filling) self.now.pendings.now self.now.source.now self.now.ids.ids.now self.now.commit target.now).segments) }
        ensures pendings { OnOk result (rows.new.pendings.items ≡ rows.old.pendings.items ++ (copies_in (filling_of self.now.filling) self.now.pendings.now self.now.source.now self.now.ids.ids.now self.now.commit target.now).pendings) }
    {
        let core = core_of(&self.ids, target.span);
        let copies = self.copies_from(alloc, target, core)?;
        let chunk = chunk_with(alloc, self.source, target, core, count_of(&copies))?;
        let Copies { segments, pendings } = copies;
        rows.chunks.push(chunk)?;
        rows.segments.append(&mut segments.into_vec())?;
        rows.pendings.append(&mut pendings.into_vec())?;
        Ok(())
    }

    // Adds the chunks of the targets, and the copies that go into them.
    fn add_all(
        &self,
        alloc: Global,
        rows: &mut OverRows,
        targets: &[Target],
    ) -> Result<(), OutOfMemory>
        requires few { is_few self.now.ids.ids.now ≡ true }
        requires rows { AreWithinLimit self.now.pendings.now }
        ensures chunks { OnOk result (rows.new.chunks.items ≡ rows.old.chunks.items ++ map (chunk_in (filling_of self.now.filling) self.now.pendings.now self.now.source.now self.now.ids.ids.now self.now.commit) targets.now) }
        ensures segments { OnOk result (rows.new.segments.items ≡ rows.old.segments.items ++ gathered (λ x. (copies_in (filling_of self.now.filling) self.now.pendings.now self.now.source.now self.now.ids.ids.now self.now.commit x).segments) targets.now) }
        ensures pendings { OnOk result (rows.new.pendings.items ≡ rows.old.pendings.items ++ gathered (λ x. (copies_in (filling_of self.now.filling) self.now.pendings.now self.now.source.now self.now.ids.ids.now self.now.commit x).pendings) targets.now) }
    {
        for target in targets {
            self.add(alloc, rows, target)?;
        }
        Ok(())
    }
}

/// What an insert or a replacement of these targets adds. The error is want of memory.
///
/// A replacement carries what `copies_for_replace` gives for each target. There are so few ids,
/// pendings and upgrade rows that no chunk has too many parts.
pub fn over_rows(
    alloc: Global,
    filling: Filling,
    pendings: &Pendings,
    source: &Name,
    ids: &[SegId],
    tombstones: &[SegId],
    targets: &[Target],
    commit: u64,
) -> Result<OverRows, OutOfMemory>
    requires few { is_few ids.now ≡ true }
    requires pendings { length pendings.now.pendings ≤ row_limit }
    requires upgrades { length pendings.now.upgrades ≤ row_limit }
    ensures chunks { IfOk result (λ rows. rows.chunks.items ≡ new_chunks (filling_of filling) pendings.now source.now ids.now commit targets.now) }
    ensures segments { IfOk result (λ rows. rows.segments.items ≡ new_segments (filling_of filling) pendings.now source.now ids.now tombstones.now commit targets.now) }
    ensures pendings { IfOk result (λ rows. rows.pendings.items ≡ new_pendings (filling_of filling) pendings.now source.now ids.now commit targets.now) }
    ensures parts { IfOk result (λ rows. list_any (λ c. nat_lt part_limit c.next) rows.chunks.items ≡ false) }
{
    let plan = Plan {
        filling,
        pendings,
        source,
        ids: SpanIds::new(ids),
        commit,
    };
    let tombstones = SpanIds::new(tombstones);
    let segments = own_rows(alloc, &plan.ids, &tombstones, targets, commit)?;
    let mut rows = OverRows {
        chunks: Vec::new(alloc),
        segments,
        pendings: Vec::new(alloc),
    };
    plan.add_all(alloc, &mut rows, targets)?;
    Ok(rows)
}
