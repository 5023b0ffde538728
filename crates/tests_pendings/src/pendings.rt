// A table is given back by name, and lives over no other end of a function: each would have to be proved.
use book_rows::{PendingRow, UpgradeRow};
use iv_span::Span;
use seg_names::{Name, SegId};
use std::alloc::Global;
use std::test::Fail;
use tab_pending::Pendings;

const DAY: (i64, i64) = (0, 86_400_000);

const FIRST_HOUR: (i64, i64) = (0, 3_600_000);

const SECOND_HOUR: (i64, i64) = (3_600_000, 7_200_000);

const QUARTER: (i64, i64) = (0, 900_000);

fn span_of(ends: (i64, i64)) -> Result<Span, Fail> {
    Ok(Span::new(ends.0, ends.1)?)
}

// An id of the source `w` and version 0.
fn id_of(alloc: Global, ends: (i64, i64), part: u32) -> Result<SegId, Fail> {
    let span = span_of(ends)?;
    let source = Name::new(alloc, b"w")?;
    Ok(SegId {
        source,
        span,
        version: 0,
        part,
    })
}

// A pending of the sequence `s`.
fn pending(
    alloc: Global,
    id: SegId,
    root: SegId,
    posse: u64,
    previous: Option<SegId>,
) -> Result<PendingRow, Fail> {
    let sequence = Name::new(alloc, b"s")?;
    Ok(PendingRow {
        id,
        root,
        posse,
        sequence,
        previous,
    })
}

fn first_root(alloc: Global) -> Result<PendingRow, Fail> {
    let id = id_of(alloc, FIRST_HOUR, 0)?;
    let root = id_of(alloc, FIRST_HOUR, 0)?;
    pending(alloc, id, root, 1, None)
}

fn first_copy(alloc: Global) -> Result<PendingRow, Fail> {
    let id = id_of(alloc, DAY, 1)?;
    let root = id_of(alloc, FIRST_HOUR, 0)?;
    pending(alloc, id, root, 1, None)
}

fn second_root(alloc: Global) -> Result<PendingRow, Fail> {
    let id = id_of(alloc, SECOND_HOUR, 2)?;
    let root = id_of(alloc, SECOND_HOUR, 2)?;
    let previous = id_of(alloc, FIRST_HOUR, 0)?;
    pending(alloc, id, root, 2, Some(previous))
}

fn upgrade(alloc: Global, posse: u64, ends: (i64, i64), part: u32) -> Result<UpgradeRow, Fail> {
    let root = id_of(alloc, ends, part)?;
    Ok(UpgradeRow { posse, root })
}

// Part 0 of the first hour, its copy over the day, and part 2 of the second hour, which comes after
// part 0. Upgrade rows of locks 8 and 7.
fn fill(alloc: Global, pendings: &mut Pendings) -> Result<(), Fail> {
    pendings.add(first_root(alloc)?)?;
    pendings.add(first_copy(alloc)?)?;
    pendings.add(second_root(alloc)?)?;
    pendings.add_upgrade(upgrade(alloc, 8, SECOND_HOUR, 5)?)?;
    pendings.add_upgrade(upgrade(alloc, 7, FIRST_HOUR, 6)?)?;
    Ok(())
}

fn part_of(found: Option<&PendingRow>) -> Option<u32> {
    found.map(|row| row.id.part)
}

// The first pending's part, and the first upgrade row's lock.
fn firsts_in(alloc: Global, pendings: &mut Pendings) -> Result<(Option<u32>, Option<u64>), Fail> {
    fill(alloc, pendings)?;
    let part = pendings.pendings().next().map(|first| first.row.id.part);
    let lock = pendings.upgrades().next().map(|first| first.row.posse);
    Ok((part, lock))
}

fn firsts(alloc: Global) -> Result<(Option<u32>, Option<u64>), Fail> {
    let mut pendings = Pendings::new(alloc);
    let told = firsts_in(alloc, &mut pendings);
    drop(pendings);
    told
}

#[test]
fn rows_stand_in_the_order_of_adding(rt: HostRuntime) -> Result<(), Fail> {
    assert!(rt; firsts(rt.alloc())? == (Some(0), Some(8)));
    Ok(())
}

// The part that was allocated first in a sequence.
fn known_first(alloc: Global, pendings: &Pendings, sequence: &[u8]) -> Result<Option<u32>, Fail> {
    let source = Name::new(alloc, b"w")?;
    let sequence = Name::new(alloc, sequence)?;
    Ok(part_of(pendings.by_sequence(&source, &sequence, None)))
}

// The part that was allocated in the sequence `s` after part 0.
fn known_after(alloc: Global, pendings: &Pendings) -> Result<Option<u32>, Fail> {
    let source = Name::new(alloc, b"w")?;
    let sequence = Name::new(alloc, b"s")?;
    let first = id_of(alloc, FIRST_HOUR, 0)?;
    let known = part_of(pendings.by_sequence(&source, &sequence, Some(&first)));
    drop(first);
    Ok(known)
}

fn known_in(alloc: Global, pendings: &mut Pendings) -> Result<[Option<u32>; 3], Fail> {
    fill(alloc, pendings)?;
    let first = known_first(alloc, pendings, b"s")?;
    let other = known_first(alloc, pendings, b"t")?;
    let after = known_after(alloc, pendings)?;
    Ok([first, other, after])
}

fn known(alloc: Global) -> Result<[Option<u32>; 3], Fail> {
    let mut pendings = Pendings::new(alloc);
    let told = known_in(alloc, &mut pendings);
    drop(pendings);
    told
}

#[test]
fn a_request_is_found_by_its_sequence_and_previous_id(rt: HostRuntime) -> Result<(), Fail> {
    assert!(rt; known(rt.alloc())? == [Some(0), None, Some(2)]);
    Ok(())
}

fn instants_in(alloc: Global, pendings: &mut Pendings) -> Result<[Option<u32>; 3], Fail> {
    fill(alloc, pendings)?;
    let source = Name::new(alloc, b"w")?;
    let first = part_of(pendings.first_at(&source, 0));
    let second = part_of(pendings.first_at(&source, 3_600_000));
    let last = part_of(pendings.first_at(&source, i64::MAX));
    Ok([first, second, last])
}

fn at_instants(alloc: Global) -> Result<[Option<u32>; 3], Fail> {
    let mut pendings = Pendings::new(alloc);
    let told = instants_in(alloc, &mut pendings);
    drop(pendings);
    told
}

#[test]
fn the_first_that_has_an_instant_is_found(rt: HostRuntime) -> Result<(), Fail> {
    assert!(rt; at_instants(rt.alloc())? == [Some(0), Some(1), None]);
    Ok(())
}

fn overlaps(alloc: Global, pendings: &Pendings, ends: (i64, i64)) -> Result<bool, Fail> {
    let span = span_of(ends)?;
    let source = Name::new(alloc, b"w")?;
    Ok(pendings.overlaps(&source, span))
}

// The first over one of two spans, and the first root that doesn't lie within it.
fn first_of_two(
    alloc: Global,
    pendings: &Pendings,
    one: (i64, i64),
    other: (i64, i64),
) -> Result<(Option<u32>, Option<u32>), Fail> {
    let spans = [span_of(one)?, span_of(other)?];
    let source = Name::new(alloc, b"w")?;
    let over = part_of(pendings.first_over(&source, &spans));
    let across = part_of(pendings.first_root_across(&source, &spans));
    Ok((over, across))
}

type OverSpans = ([bool; 2], [(Option<u32>, Option<u32>); 2]);

fn spans_in(alloc: Global, pendings: &mut Pendings) -> Result<OverSpans, Fail> {
    fill(alloc, pendings)?;
    let last = overlaps(alloc, pendings, (86_399_999, 90_000_000))?;
    let behind = overlaps(alloc, pendings, (86_400_000, 90_000_000))?;
    let quarter = first_of_two(alloc, pendings, SECOND_HOUR, QUARTER)?;
    let hours = first_of_two(alloc, pendings, SECOND_HOUR, FIRST_HOUR)?;
    Ok(([last, behind], [quarter, hours]))
}

fn over_spans(alloc: Global) -> Result<OverSpans, Fail> {
    let mut pendings = Pendings::new(alloc);
    let told = spans_in(alloc, &mut pendings);
    drop(pendings);
    told
}

// The first in row order, whichever of the spans it overlaps.
#[test]
fn pendings_over_spans_are_found(rt: HostRuntime) -> Result<(), Fail> {
    let (one, several) = over_spans(rt.alloc())?;
    assert!(rt; one == [true, false]);
    assert!(rt; several == [(Some(0), Some(0)), (Some(0), None)]);
    Ok(())
}

// The root of the first upgrade row of these locks that overlaps a quarter of an hour, and more.
fn upgrade_across(pendings: &Pendings, locks: &[u64]) -> Result<Option<u32>, Fail> {
    let spans = [span_of(QUARTER)?, span_of((3_600_000, 4_500_000))?];
    let found = pendings.first_upgrade_across(locks, &spans);
    Ok(found.map(|upgrade| upgrade.root.part))
}

fn upgrades_within(alloc: Global, pendings: &Pendings, ends: (i64, i64)) -> Result<usize, Fail> {
    let span = span_of(ends)?;
    let found = pendings.upgrades_within(alloc, 7, span)?;
    Ok(found.len())
}

fn upgrade_count(alloc: Global, pendings: &Pendings) -> Result<usize, Fail> {
    let found = pendings.upgrades_of(alloc, 7)?;
    Ok(found.len())
}

type Upgrades = ([Option<u32>; 2], [usize; 3]);

fn upgrades_in(alloc: Global, pendings: &mut Pendings) -> Result<Upgrades, Fail> {
    fill(alloc, pendings)?;
    let both = upgrade_across(pendings, &[7, 8])?;
    let one = upgrade_across(pendings, &[7, 9])?;
    let all = upgrade_count(alloc, pendings)?;
    let day = upgrades_within(alloc, pendings, DAY)?;
    let quarter = upgrades_within(alloc, pendings, QUARTER)?;
    Ok(([both, one], [all, day, quarter]))
}

fn upgrades(alloc: Global) -> Result<Upgrades, Fail> {
    let mut pendings = Pendings::new(alloc);
    let told = upgrades_in(alloc, &mut pendings);
    drop(pendings);
    told
}

// The first in row order, whichever of the locks it is of.
#[test]
fn upgrade_rows_are_found_by_lock_and_span(rt: HostRuntime) -> Result<(), Fail> {
    let (first, counts) = upgrades(rt.alloc())?;
    assert!(rt; first == [Some(5), Some(6)]);
    assert!(rt; counts == [1, 1, 0]);
    Ok(())
}

fn overlapping_count(alloc: Global, pendings: &Pendings, ends: (i64, i64)) -> Result<usize, Fail> {
    let span = span_of(ends)?;
    let source = Name::new(alloc, b"w")?;
    let found = pendings.roots_overlapping(alloc, &source, span)?;
    Ok(found.len())
}

fn within_count(alloc: Global, pendings: &Pendings, ends: (i64, i64)) -> Result<usize, Fail> {
    let span = span_of(ends)?;
    let source = Name::new(alloc, b"w")?;
    let found = pendings.roots_within(alloc, &source, span)?;
    Ok(found.len())
}

// How many pendings have part 0 as their root, itself among them.
fn rooted_count(alloc: Global, pendings: &Pendings) -> Result<usize, Fail> {
    let first = id_of(alloc, FIRST_HOUR, 0)?;
    let found = pendings.with_root(alloc, &first)?;
    Ok(found.len())
}

fn is_root(alloc: Global, pendings: &Pendings, ends: (i64, i64), part: u32) -> Result<bool, Fail> {
    let id = id_of(alloc, ends, part)?;
    Ok(pendings.root(&id).is_some())
}

type Roots = ([usize; 4], [bool; 2]);

fn roots_in(alloc: Global, pendings: &mut Pendings) -> Result<Roots, Fail> {
    fill(alloc, pendings)?;
    let day = overlapping_count(alloc, pendings, DAY)?;
    let quarter = overlapping_count(alloc, pendings, QUARTER)?;
    let within = within_count(alloc, pendings, QUARTER)?;
    let rooted = rooted_count(alloc, pendings)?;
    let root = is_root(alloc, pendings, SECOND_HOUR, 2)?;
    let copy = is_root(alloc, pendings, DAY, 1)?;
    Ok(([day, quarter, within, rooted], [root, copy]))
}

fn roots(alloc: Global) -> Result<Roots, Fail> {
    let mut pendings = Pendings::new(alloc);
    let told = roots_in(alloc, &mut pendings);
    drop(pendings);
    told
}

#[test]
fn roots_and_their_copies_are_found(rt: HostRuntime) -> Result<(), Fail> {
    let (counts, are) = roots(rt.alloc())?;
    assert!(rt; counts == [2, 1, 0, 2]);
    assert!(rt; are == [true, false]);
    Ok(())
}

// What goes: the first root with its copies, upgrade rows of lock 8, or what stands under locks.
#[derive(Clone, Copy, Debug)]
enum Gone {
    Root,
    Upgrades(i64, i64),
    Lock,
    Locks,
    Ended(bool),
}

fn take_root(alloc: Global, pendings: &mut Pendings) -> Result<(), Fail> {
    let first = id_of(alloc, FIRST_HOUR, 0)?;
    pendings.take_root(&first);
    Ok(())
}

fn take(alloc: Global, pendings: &mut Pendings, gone: Gone) -> Result<(), Fail> {
    match gone {
        Gone::Root => take_root(alloc, pendings)?,
        Gone::Upgrades(start, end) => pendings.take_upgrades(8, span_of((start, end))?),
        Gone::Lock => pendings.take_posse(1),
        Gone::Locks => pendings.take_posses(&[7, 2, 9]),
        Gone::Ended(ended) => pendings.take_ended(1, ended),
    }
    Ok(())
}

// How many pendings and upgrade rows are left, and whether one of the pendings is of lock 1 or 9.
fn left_in(
    alloc: Global,
    pendings: &mut Pendings,
    gone: Gone,
) -> Result<(usize, usize, bool), Fail> {
    fill(alloc, pendings)?;
    take(alloc, pendings, gone)?;
    Ok((
        pendings.count(),
        pendings.upgrade_count(),
        pendings.any_of(&[9, 1]),
    ))
}

fn left(alloc: Global, gone: Gone) -> Result<(usize, usize, bool), Fail> {
    let mut pendings = Pendings::new(alloc);
    let told = left_in(alloc, &mut pendings, gone);
    drop(pendings);
    told
}

#[test]
fn a_root_goes_with_its_copies_and_what_stands_under_a_lock_with_it(
    rt: HostRuntime,
) -> Result<(), Fail> {
    for (gone, told) in [
        (Gone::Root, (1, 2, false)),
        (Gone::Upgrades(FIRST_HOUR.0, FIRST_HOUR.1), (3, 2, true)),
        (Gone::Upgrades(DAY.0, DAY.1), (3, 1, true)),
        (Gone::Lock, (1, 2, false)),
        (Gone::Locks, (2, 1, true)),
        (Gone::Ended(true), (1, 2, false)),
        (Gone::Ended(false), (3, 2, true)),
    ] {
        assert!(rt; left(rt.alloc(), gone)? == told, "{gone:?}");
    }
    Ok(())
}
