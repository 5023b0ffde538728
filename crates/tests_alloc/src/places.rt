ghost use Rattle.std.specs.Prelude.{◌≡◌, []};

use crate::fixtures::{MARCH, add_pending, hour, hours, segment};
use iv_span::Span;
use iv_time::{Granularity, LAST_INSTANT, in_range};
use seg_alloc::{Place, PlaceFault, choose};
use seg_names::Name;
use std::alloc::Global;
use std::test::Fail;
use tab_pending::Pendings;
use tab_segments::Segments;

// What an answer says: a place, the version of a segment that cuts the chunk, or a fault.
#[derive(Clone, Copy, Debug, PartialEq, Eq)]
enum Said {
    At(Span, Option<i64>),
    Cut(i64),
    NoBucket,
    NoMemory,
}

fn told(answer: Result<Place, PlaceFault>) -> Said {
    match answer {
        Ok(place) => Said::At(place.span, place.version),
        Err(PlaceFault::Cut(by)) => Said::Cut(by.version),
        Err(PlaceFault::NoBucket) => Said::NoBucket,
        Err(PlaceFault::OutOfMemory) => Said::NoMemory,
    }
}

fn chosen(
    alloc: Global,
    segments: &Segments,
    pendings: &Pendings,
    at: i64,
    granularity: Granularity,
) -> Result<Said, Fail> {
    if !in_range(at) {
        return Ok(Said::NoMemory);
    }
    let source = Name::new(alloc, b"w")?;
    Ok(told(choose(alloc, segments, pendings, &source, at, granularity)))
}

// A day has a segment, and its sixth hour one of a later version.
fn add_segments(alloc: Global, segments: &mut Segments) -> Result<(), Fail>
    requires { segments.old.segments ≡ [] }
{
    let day = segment(alloc, hours(0, 24)?, MARCH)?;
    segments.add(day)?;
    let sixth = segment(alloc, hours(5, 6)?, MARCH + 1)?;
    segments.add(sixth)?;
    Ok(())
}

fn choose_beside_segments(
    alloc: Global,
    segments: &mut Segments,
    pendings: &Pendings,
    at: i64,
) -> Result<Said, Fail>
    requires { segments.old.segments ≡ [] }
{
    add_segments(alloc, segments)?;
    chosen(alloc, segments, pendings, at, Granularity::Day)
}

// The place for a day at an instant beside these. The tables are given back by name, and live over no other end of a
// function: each would have to be proved.
fn beside_segments(alloc: Global, at: i64) -> Result<Said, Fail> {
    let mut segments = Segments::new(alloc);
    let pendings = Pendings::new(alloc);
    let said = choose_beside_segments(alloc, &mut segments, &pendings, at);
    drop(segments);
    drop(pendings);
    said
}

#[test]
fn a_visible_chunk_goes_on_unless_it_is_cut(rt: HostRuntime) -> Result<(), Fail> {
    let sixth = hours(5, 6)?;
    assert!(rt; beside_segments(rt.alloc(), hour(5))? == Said::At(sixth, Some(MARCH + 1)));
    assert!(rt; beside_segments(rt.alloc(), hour(7))? == Said::Cut(MARCH + 1));
    Ok(())
}

fn choose_beside_a_pending(
    alloc: Global,
    segments: &Segments,
    pendings: &mut Pendings,
    at: i64,
    granularity: Granularity,
) -> Result<Said, Fail> {
    add_pending(alloc, pendings)?;
    chosen(alloc, segments, pendings, at, granularity)
}

// The place at an instant where the sixth hour of a day has a pending of the version 0.
fn beside_a_pending(alloc: Global, at: i64, granularity: Granularity) -> Result<Said, Fail> {
    let segments = Segments::new(alloc);
    let mut pendings = Pendings::new(alloc);
    let said = choose_beside_a_pending(alloc, &segments, &mut pendings, at, granularity);
    drop(segments);
    drop(pendings);
    said
}

#[test]
fn a_pending_has_a_place_and_else_the_coarsest_free_bucket(rt: HostRuntime) -> Result<(), Fail> {
    for (at, granularity, said) in [
        (
            hour(5),
            Granularity::Minute,
            Said::At(hours(5, 6)?, Some(0)),
        ),
        (hour(7), Granularity::Year, Said::At(hours(7, 8)?, None)),
        (hour(31), Granularity::Day, Said::At(hours(24, 48)?, None)),
        (LAST_INSTANT, Granularity::Hour, Said::NoBucket),
    ] {
        assert!(rt;
            beside_a_pending(rt.alloc(), at, granularity)? == said,
            "{said:?}"
        );
    }
    Ok(())
}
