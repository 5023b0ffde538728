//! Roots that are put at instants, and instants that are closed, rank by rank.
ghost use Rattle.std.specs.Prelude.{◌++◌, ◌<◌, ◌∷◌, ◌≡◌, IfOk, OnOk, Some, [], filter, length, map, slice_get};
ghost use Rattle.std.specs.Bool.{Decides};
ghost use Rattle.std.specs.Cmp.Lexicographic.{slice_cmp};
ghost use Rattle.std.specs.List.Sorted.{IsPermutation, IsSorted};
ghost use Rattle.std.specs.Ordering.{is_eq, on};
ghost use Rattle.row_index.specs.Index.{digest_range};
ghost use Rattle.shown_rules.specs.Cuts.{add_cut, cut_covers, cut_digest, cut_keys, range_within, same_cut, source_digest, with_ends, within_covers};
ghost use Rattle.shown_rules.specs.Founds.{found_cmp, found_of};
ghost use Rattle.shown_rules.specs.Stages.{AreInOrder, StayAlike, found, is_within, left_by, put_at, within};

use row_index::{Keyed, Query, digest_key, digest_range, mix, mix_bytes};
use row_search::OutOfMemory;
use row_table::RowTable;
use seg_names::{Name, SegId};
use std::alloc::Global;
use std::cmp::Ordering;
use std::marker::Model;

// ---- instants

/// An instant of a source.
#[derive(Drop)]
pub struct Cut<'a> {
    pub source: &'a Name,
    pub at: i64,
}

impl<'a> Model for Cut<'a> {
    ghost use Rattle.std.specs.Prelude.{List, ℕ, ℤ};

    ghost Value = { List ℕ × ℤ };

    ghost view = { λ a. (a.source.now, a.at) };
}

fn source_digest(source: &Name) -> u64
    ensures { result ≡ source_digest source.now }
{
    mix_bytes(20, source.bytes())
}

fn cut_digest(source: &Name, at: i64) -> u64
    ensures { result ≡ cut_digest source.now at }
{
    mix(mix_bytes(21, source.bytes()), at.unsigned_abs())
}

// An instant is found among those of its source, and by itself.
impl Keyed for Cut<'_> {
    ghost keys = { cut_keys };

    fn key_count(&self) -> usize {
        2
    }

    fn key(&self, at: usize) -> (u64, i64) {
        if at == 0 {
            (source_digest(self.source), self.at)
        } else {
            digest_key(cut_digest(self.source, self.at))
        }
    }
}

/// The instants of a source from a start up to an end.
#[derive(Drop)]
struct Within<'a> {
    source: &'a Name,
    start: i64,
    end: i64,
}

impl Query<Cut<'_>> for Within<'_> {
    ghost passes = { λ q c. is_within q.source.now q.start q.end c };

    ghost ranges = { λ q. range_within q.source.now q.start q.end ∷ [] };

    ghost covers = { λ q c on. within_covers q.source.now q.start q.end c on };

    fn passes(&self, cut: &Cut<'_>) -> bool {
        *self.source == *cut.source && (self.start <= cut.at && cut.at < self.end)
    }

    fn range_count(&self) -> usize
        ensures { result ≡ length (range_within self.now.source.now self.now.start self.now.end ∷ []) }
    {
        1
    }

    fn range(&self, at: usize) -> ((u64, i64), i64)
        requires { at < length (range_within self.now.source.now self.now.start self.now.end ∷ []) }
        ensures { slice_get (range_within self.now.source.now self.now.start self.now.end ∷ []) at ≡ Some result }
    {
        let _at = at;
        ((source_digest(self.source), self.start), self.end)
    }
}

/// One instant of a source.
#[derive(Drop)]
struct At<'a> {
    source: &'a Name,
    at: i64,
}

impl Query<Cut<'_>> for At<'_> {
    ghost passes = { λ q c. same_cut (q.source.now, q.at) c };

    ghost ranges = { λ q. digest_range (cut_digest q.source.now q.at) ∷ [] };

    ghost covers = { λ q c on. cut_covers (q.source.now, q.at) c on };

    fn passes(&self, cut: &Cut<'_>) -> bool {
        *self.source == *cut.source && self.at == cut.at
    }

    fn range_count(&self) -> usize
        ensures { result ≡ length (digest_range (cut_digest self.now.source.now self.now.at) ∷ []) }
    {
        1
    }

    fn range(&self, at: usize) -> ((u64, i64), i64)
        requires { at < length (digest_range (cut_digest self.now.source.now self.now.at) ∷ []) }
        ensures { slice_get (digest_range (cut_digest self.now.source.now self.now.at) ∷ []) at ≡ Some result }
    {
        let _at = at;
        digest_range(cut_digest(self.source, self.at))
    }
}

// ---- events

/// A root that is put at the instants of a source from a start up to an end; or, where there is no
/// root, these are closed. What has a lower rank comes sooner.
#[derive(Drop)]
pub struct Event<'a> {
    pub rank: i128,
    pub source: &'a Name,
    pub start: i64,
    pub end: i64,
    pub root: Option<&'a SegId>,
}

impl<'a> Model for Event<'a> {
    ghost use Rattle.std.specs.Option.{option_copied};
    ghost use Rattle.shown_rules.specs.Stages.{Stage};

    ghost Value = { Stage };

    ghost view = { λ a. record { rank = a.rank; source = a.source.now; start = a.start; end = a.end; root = option_copied a.root } };
}

/// A root that was put at an instant of a source.
#[derive(PartialEq, Eq, PartialOrd, Ord, Drop)]
pub struct Found<'a> {
    pub source: &'a Name,
    pub at: i64,
    pub root: &'a SegId,
}

fn add_cut<'a>(cuts: &mut RowTable<Cut<'a>>, source: &'a Name, at: i64) -> Result<(), OutOfMemory>
    ensures { OnOk result (cuts.new ≡ add_cut cuts.old (source.now, at)) }
{
    if cuts.any(&At { source, at }) {
        return Ok(());
    }
    cuts.push(Cut { source, at })
}

// The ends of the events, each once.
fn add_ends<'a>(cuts: &mut RowTable<Cut<'a>>, events: &[Event<'a>]) -> Result<(), OutOfMemory>
    ensures { OnOk result (cuts.new ≡ with_ends cuts.old events.now) }
{
    for event in events {
        add_cut(cuts, event.source, event.start)?;
        add_cut(cuts, event.source, event.end)?;
    }
    Ok(())
}

fn span_of<'a>(event: &Event<'a>) -> Within<'a>
    ensures { (result.source.now ≡ event.now.source) × (result.start ≡ event.now.start) × (result.end ≡ event.now.end) }
{
    Within {
        source: event.source,
        start: event.start,
        end: event.end,
    }
}

fn put_each<'a>(
    found: &mut Vec<Found<'a>>,
    cuts: &[&Cut<'a>],
    root: &'a SegId,
) -> Result<(), OutOfMemory>
    ensures { OnOk result (map found_of found.new.items ≡ map found_of found.old.items ++ put_at (Some root.now) (map (λ c. c.now) cuts.now)) }
{
    for cut in cuts {
        found.push(Found {
            source: cut.source,
            at: cut.at,
            root,
        })?;
    }
    Ok(())
}

fn put_root<'a>(
    alloc: Global,
    open: &RowTable<Cut<'a>>,
    event: &Event<'a>,
    root: &'a SegId,
    found: &mut Vec<Found<'a>>,
) -> Result<(), OutOfMemory>
    ensures { OnOk result (map found_of found.new.items ≡ map found_of found.old.items ++ put_at (Some root.now) (filter (within event.now) open.now)) }
{
    let cuts = open.all(alloc, &span_of(event))?;
    put_each(found, cuts.as_slice(), root)
}

fn take_event<'a>(
    alloc: Global,
    open: &mut RowTable<Cut<'a>>,
    event: &Event<'a>,
    found: &mut Vec<Found<'a>>,
) -> Result<(), OutOfMemory>
    ensures found { OnOk result (map found_of found.new.items ≡ map found_of found.old.items ++ put_at event.now.root (filter (within event.now) open.old)) }
    ensures left { OnOk result (open.new ≡ left_by event.now.root (within event.now) open.old) }
{
    match event.root {
        Some(root) => put_root(alloc, open, event, root, found),
        None => {
            open.remove_all(&span_of(event));
            Ok(())
        }
    }
}

// What is put at the instants while they are open, event by event.
fn all_found<'a>(
    alloc: Global,
    open: &mut RowTable<Cut<'a>>,
    events: &[Event<'a>],
) -> Result<Vec<Found<'a>>, OutOfMemory>
    ensures { IfOk result (λ v. map found_of v.items ≡ found open.old events.now) }
{
    let mut found = Vec::new(alloc);
    for event in events {
        take_event(alloc, open, event, &mut found)?;
    }
    Ok(found)
}

// By rank, and of one rank those first that put a root.
fn sort_events(events: &mut Vec<Event<'_>>) -> Result<(), OutOfMemory>
    ensures moved { IsPermutation events.old.items events.new.items }
    ensures sorted { OnOk result (AreInOrder events.new.items) }
{
    events.sort_by_key(|event| (event.rank, event.root.is_none()))?;
    Ok(())
}

fn sorted_found<'a>(
    alloc: Global,
    open: &mut RowTable<Cut<'a>>,
    events: &[Event<'a>],
) -> Result<Vec<Found<'a>>, OutOfMemory>
    ensures moved { IfOk result (λ v. IsPermutation (found open.old events.now) (map found_of v.items)) }
    ensures sorted { IfOk result (λ v. IsSorted (on found_of found_cmp) v.items) }
{
    let mut found = all_found(alloc, open, events)?;
    found.sort()?;
    Ok(found)
}

fn are_same(left: &[Found<'_>], right: &[Found<'_>]) -> bool
    ensures { result ≡ is_eq (slice_cmp (on found_of found_cmp) left.now right.now) }
{
    left.cmp(right) == Ordering::Equal
}

fn cuts_of<'a>(
    alloc: Global,
    left: &[Event<'a>],
    right: &[Event<'a>],
) -> Result<RowTable<Cut<'a>>, OutOfMemory>
    ensures { IfOk result (λ cuts. cuts ≡ with_ends (with_ends [] left.now) right.now) }
{
    let mut cuts = RowTable::new(alloc);
    add_ends(&mut cuts, left)?;
    add_ends(&mut cuts, right)?;
    Ok(cuts)
}

fn found_alike<'a>(
    alloc: Global,
    left: &[Event<'a>],
    right: &[Event<'a>],
) -> Result<bool, OutOfMemory>
    requires left { AreInOrder left.now }
    requires right { AreInOrder right.now }
    ensures { IfOk result (λ alike. Decides alike (StayAlike left.now right.now)) }
{
    let mut open = cuts_of(alloc, left, right)?;
    let mut again = cuts_of(alloc, left, right)?;
    let one = sorted_found(alloc, &mut open, left)?;
    let other = sorted_found(alloc, &mut again, right)?;
    Ok(are_same(one.as_slice(), other.as_slice()))
}

/// Whether at each instant of each source the same roots stay, each as often. The error is want of
/// memory.
pub fn stay_alike<'a>(
    alloc: Global,
    left: Vec<Event<'a>>,
    right: Vec<Event<'a>>,
) -> Result<bool, OutOfMemory>
    ensures { IfOk result (λ alike. Decides alike (StayAlike left.entry.items right.entry.items)) }
{
    let mut left = left;
    let mut right = right;
    sort_events(&mut left)?;
    sort_events(&mut right)?;
    let alike = found_alike(alloc, left.as_slice(), right.as_slice())?;
    Ok(alike)
}
