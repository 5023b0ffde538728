//! Looks at instants: which version is visible there, and which rows are seen so.
ghost use Rattle.std.specs.Prelude.{◌++◌, ◌∷◌, ◌≡◌, IfOk, OnOk, [], false, true};
ghost use Rattle.std.specs.List.{list_any};
ghost use Rattle.std.specs.List.Sorted.{IsPartitionPoint};
ghost use Rattle.book_rows.specs.Lists.{gathered};
ghost use Rattle.timeline_view.specs.Contents.{AreAscending};
ghost use Rattle.timeline_view.specs.Covers.{seen_covers};
ghost use Rattle.timeline_view.specs.Looks.{is_past, look_in, look_keys, seen_range, sees, version_in};

use crate::OutOfMemory;
use crate::sweep::{Stretch, stretch_at};
use book_rows::SegmentRow;
use row_index::{Keyed, Query};
use row_table::RowList;
use std::alloc::Global;
use std::collections::BTreeSet;

/// An instant, and the version that is visible there.
#[derive(Drop)]
pub struct Look {
    pub at: i64,
    pub version: i64,
}

// A look is found by its version and, among those of one version, by its instant.
impl Keyed for Look {
    ghost keys = { look_keys };

    fn key_count(&self) -> usize {
        1
    }

    fn key(&self, _at: usize) -> (u64, i64) {
        (self.version.unsigned_abs(), self.at)
    }
}

// Where the looks that see the row have their keys.
fn seen_range(row: &SegmentRow) -> ((u64, i64), i64)
    ensures { result ≡ seen_range row.now }
{
    let start = row.id.span.start().max(row.root.span.start());
    let end = row.id.span.end().min(row.root.span.end());
    ((row.id.version.unsigned_abs(), start), end)
}

/// The looks that see a row, within its root's own span.
#[derive(Drop)]
struct Seeing<'a> {
    row: &'a SegmentRow,
}

impl Query<Look> for Seeing<'_> {
    ghost passes = { λ q l. sees q.row.now l };

    ghost ranges = { λ q. seen_range q.row.now ∷ [] };

    ghost covers = { λ q l on. seen_covers q.row.now l on };

    fn passes(&self, look: &Look) -> bool {
        look.version == self.row.id.version
            && self.row.id.span.has(look.at)
            && self.row.root.span.has(look.at)
    }

    fn range_count(&self) -> usize {
        1
    }

    fn range(&self, _at: usize) -> ((u64, i64), i64) {
        seen_range(self.row)
    }
}

fn is_past(stretch: &Stretch, at: i64) -> bool
    ensures { result ≡ is_past at stretch.now }
{
    stretch.end <= at
}

// How many stretches end at the instant or earlier.
fn count_past(stretches: &[Stretch], at: i64) -> usize
    requires { AreAscending stretches.now }
    ensures { IsPartitionPoint (λ p. is_past at p ≡ true) (λ p. is_past at p ≡ false) stretches.now result }
{
    stretches.partition_point(|stretch| is_past(stretch, at))
}

// The version of the stretch that has the instant.
fn version_at(stretches: &[Stretch], at: i64) -> Option<i64>
    requires { AreAscending stretches.now }
    ensures { result ≡ version_in stretches.now at }
{
    let place = count_past(stretches, at);
    if stretches.len() <= place {
        return None;
    }
    let next = stretch_at(stretches, place);
    if at < next.start {
        return None;
    }
    Some(next.top.version)
}

fn look_in(looks: &mut RowList<Look>, stretches: &[Stretch], at: i64) -> Result<(), OutOfMemory>
    requires { AreAscending stretches.now }
    ensures { OnOk result (looks.new ≡ looks.old ++ look_in stretches.now at) }
{
    if let Some(version) = version_at(stretches, at) {
        looks.push(Look { at, version })?;
    }
    Ok(())
}

/// Looks at these instants. The error is want of memory.
pub fn looks_at(
    alloc: Global,
    stretches: &[Stretch],
    instants: &BTreeSet<i64>,
) -> Result<RowList<Look>, OutOfMemory>
    requires { AreAscending stretches.now }
    ensures { IfOk result (λ looks. looks ≡ gathered (look_in stretches.now) instants.now.keys) }
{
    let mut looks = RowList::new(alloc);
    for at in instants {
        look_in(&mut looks, stretches, *at)?;
    }
    Ok(looks)
}

/// Whether one of the looks sees the row.
pub fn is_seen(looks: &RowList<Look>, row: &SegmentRow) -> bool
    ensures { result ≡ list_any (sees row.now) looks.now }
{
    looks.any(&Seeing { row })
}
