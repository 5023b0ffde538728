use iv_span::{EmptySpan, Span, condense};
use std::alloc::Global;
use std::test::Fail;

// A span, and how it stands to the span from 0 to 24: its start, its end, and whether it overlaps it and lies in it.
fn beside_a_day(start: i64, end: i64) -> Result<(i64, i64, bool, bool), EmptySpan> {
    let day = Span::new(0, 24)?;
    let other = Span::new(start, end)?;
    let (overlaps, contains) = (day.overlaps(other), day.contains(other));
    Ok((other.start(), other.end(), overlaps, contains))
}

#[test]
fn two_spans_as_sets_of_instants(rt: HostRuntime) {
    for (start, end, overlaps, contains) in [
        (0, 24, true, true),
        (5, 6, true, true),
        (-3, 1, true, false),
        (23, 25, true, false),
        (-9, 33, true, false),
        (24, 25, false, false),
        (-1, 0, false, false),
    ] {
        let stands = beside_a_day(start, end);
        assert!(rt;
            stands == Ok((start, end, overlaps, contains)),
            "at {start}"
        );
    }
}

#[test]
fn a_span_has_its_start_and_not_its_end(rt: HostRuntime) -> Result<(), Fail> {
    let day = Span::new(0, 24)?;
    for (at, has) in [(0, true), (23, true), (24, false), (-1, false)] {
        assert!(rt; day.has(at) == has, "at {at}");
    }
    Ok(())
}

#[test]
fn a_span_of_no_instant_is_none(rt: HostRuntime) {
    for start in [3, 4] {
        assert!(rt; Span::new(start, 3) == Err(EmptySpan), "at {start}");
    }
}

// What spans become, as starts and ends.
fn pieces(alloc: Global, spans: &[(i64, i64)]) -> Result<Vec<(i64, i64)>, Fail> {
    let mut list = Vec::new(alloc);
    for (start, end) in spans {
        list.push(Span::new(*start, *end)?)?;
    }
    let mut pieces = Vec::new(alloc);
    for span in &condense(alloc, list.as_slice())? {
        pieces.push((span.start(), span.end()))?;
    }
    Ok(pieces)
}

#[test]
fn spans_that_overlap_or_touch_become_one(rt: HostRuntime) -> Result<(), Fail> {
    let some = pieces(rt.alloc(), &[(7, 9), (1, 3), (2, 5), (5, 6), (1, 2)])?;
    assert!(rt; some.as_slice() == [(1, 6), (7, 9)].as_slice());
    assert!(rt; pieces(rt.alloc(), &[])?.is_empty());
    Ok(())
}
