//! Marks: the roots of rows, each with the instants at which its row may show it.
//!
//! The marks that have an instant are found by their version. The keys may hold marks that don't
//! have it any more, or not yet: each one that is met is tested.

ghost use Rattle.std.specs.Prelude.{◌≡◌, ◌<◌, ◌++◌, ◌∷◌, ◌⊎◌, IfOk, OnErr, OnOk, Some, [], filter, length, map, not, slice_get, true, unsigned_abs, ℕ};
ghost use Rattle.std.specs.Option.{option_copied};
ghost use Rattle.std.specs.Ordering.{int_eq};
ghost use Rattle.book_rows.specs.Lists.{In};
ghost use Rattle.row_index.specs.Index.{IsIndexed, digest_range};
ghost use Rattle.timeline_view.specs.Marks.{AreRootsOf, current, is_current, mark_keys, mark_of, version_reached};

use crate::ids::each_once;
use book_rows::SegmentRow;
use iv_span::OutOfMemory;
use row_index::{Keeper, Keyed, Keys, Numbered, Query, digest_key, digest_range, walk};
use seg_names::SegId;
use std::alloc::{AllocError, Global};

/// A root with its row's version, and the instants that the row's span and its own have.
#[derive(Drop)]
pub struct Mark {
    pub root: SegId,
    pub version: i64,
    pub start: i64,
    pub end: i64,
}

impl Keyed for Mark {
    ghost keys = { mark_keys };

    fn key_count(&self) -> usize {
        1
    }

    fn key(&self, _at: usize) -> (u64, i64) {
        digest_key(self.version.unsigned_abs())
    }
}

fn mark_of(alloc: Global, row: &SegmentRow) -> Result<Mark, OutOfMemory>
    ensures { IfOk result (λ m. m ≡ mark_of row.now) }
{
    Ok(Mark {
        root: row.root.twin(alloc)?,
        version: row.id.version,
        start: row.id.span.start().max(row.root.span.start()),
        end: row.id.span.end().min(row.root.span.end()),
    })
}

/// The marks of the rows that aren't tombstones.
pub fn marks_of(alloc: Global, rows: &[SegmentRow]) -> Result<Vec<Mark>, OutOfMemory>
    ensures { IfOk result (λ v. v.items ≡ map mark_of (filter (λ r. not r.tombstone) rows.now)) }
{
    let mut marks = Vec::new(alloc);
    for row in rows {
        if !row.tombstone {
            marks.push(mark_of(alloc, row)?)?;
        }
    }
    Ok(marks)
}

/// The mark at a place.
pub fn mark_at(marks: &[Mark], place: u64) -> &Mark
    requires { place < length marks.now }
    ensures { slice_get marks.now place ≡ Some result.now }
{
    &marks[place as usize]
}

fn is_current(mark: &Mark, version: i64, at: i64) -> bool
    ensures { result ≡ is_current version at mark.now }
{
    mark.version == version && mark.start <= at && at < mark.end
}

fn if_current(mark: &Mark, version: i64, at: i64) -> Option<&Mark>
    ensures { option_copied result ≡ current version at (Some mark.now) }
{
    if is_current(mark, version, at) {
        Some(mark)
    } else {
        None
    }
}

// The marks of a version that have an instant, each under its place.
#[derive(Drop)]
struct Current<'a> {
    marks: &'a [Mark],
    version: i64,
    at: i64,
}

impl Numbered<Mark> for Current<'_> {
    ghost row_of = { λ c s. current c.version c.at (slice_get c.marks.now s) };

    fn row(&self, number: u64) -> Option<&Mark> {
        match self.marks.get(number as usize) {
            Some(mark) => if_current(mark, self.version, self.at),
            None => None,
        }
    }
}

// The marks of a version.
#[derive(Drop)]
struct OfVersion {
    version: i64,
}

impl Query<Mark> for OfVersion {
    ghost passes = { λ q m. int_eq m.version q.version };

    ghost ranges = { λ q. digest_range (unsigned_abs q.version) ∷ [] };

    ghost covers = { λ q m on. version_reached q.version m on };

    fn passes(&self, mark: &Mark) -> bool {
        mark.version == self.version
    }

    fn range_count(&self) -> usize {
        1
    }

    fn range(&self, _at: usize) -> ((u64, i64), i64) {
        digest_range(self.version.unsigned_abs())
    }
}

fn push_twin(alloc: Global, ids: &mut Vec<SegId>, id: &SegId) -> Result<(), OutOfMemory>
    ensures ok { OnOk result (ids.new.items ≡ ids.old.items ++ id.now ∷ []) }
    ensures err { OnErr result (ids.new.items ≡ ids.old.items) }
{
    let twin = id.twin(alloc)?;
    ids.push(twin)?;
    Ok(())
}

// The roots of the marks that were met, unless memory ran out.
#[derive(Drop)]
struct Roots {
    alloc: Global,
    met: Vec<SegId>,
    failed: bool,
}

impl Keeper<Mark> for Roots {
    ghost use Rattle.seg_names.specs.declared.seg_id.SegId.{SegId};
    ghost use Rattle.timeline_view.specs.declared.marks.Mark.{Mark};

    ghost counts = { λ k s m. (k.failed ≡ true) ⊎ In m.root k.met.items };

    ghost is_sound = { λ k rows test. (a : SegId) → In a k.met.items → (s : ℕ) × (m : Mark) × (rows s ≡ Some m) × (m.root ≡ a) };

    fn take(&mut self, _number: u64, mark: &Mark) {
        match push_twin(self.alloc, &mut self.met, &mark.root) {
            Ok(()) => {}
            Err(_) => self.failed = true,
        }
    }

    fn is_done(&self) -> bool {
        self.failed
    }
}

/// The roots of the marks of the version that have the instant, in id order, each once.
pub fn roots_of(
    alloc: Global,
    marks: &[Mark],
    keys: &Keys,
    version: i64,
    at: i64,
) -> Result<Vec<SegId>, OutOfMemory>
    requires { IsIndexed mark_keys (λ s. current version at (slice_get marks.now s)) keys.now.entries }
    ensures { IfOk result (λ v. AreRootsOf marks.now version at v.items) }
{
    let current = Current { marks, version, at };
    let mut roots = Roots {
        alloc,
        met: Vec::new(alloc),
        failed: false,
    };
    walk::<Mark, Current<'_>, OfVersion, Roots>(&current, keys, &OfVersion { version }, &mut roots);
    if roots.failed {
        return Err(AllocError);
    }
    roots.met.sort()?;
    let found = each_once(alloc, &roots.met)?;
    Ok(found)
}
