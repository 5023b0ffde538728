//! Where the parts that a change touches begin and end.
ghost use Rattle.std.specs.Prelude.{◌≡◌};
ghost use Rattle.timeline_kept.specs.Edges.{IsLeftEdge, IsRightEdge};
ghost use Rattle.timeline_kept.specs.Shown.{AreMaximal};

use crate::between::{count_ended, count_started};
use crate::part_list::PartList;

/// The place of the first part that doesn't end before the instant, and its start, where that comes
/// before the instant, or else the instant.
pub fn left_edge(list: &PartList, at: i64) -> (usize, i64)
    requires { AreMaximal list.now }
    ensures { IsLeftEdge list.now at result.0 result.1 }
{
    let place = count_ended(list, at);
    if list.len() <= place {
        return (place, at);
    }
    let (part, _chunk) = list.part(place);
    (place, part.span.start().min(at))
}

/// The place behind the last part that starts by the instant, and its end, where that comes behind
/// the instant, or else the instant.
pub fn right_edge(list: &PartList, at: i64) -> (usize, i64)
    requires { AreMaximal list.now }
    ensures { IsRightEdge list.now at result.0 result.1 }
{
    let place = count_started(list, at);
    if place == 0 {
        return (place, at);
    }
    let (part, _chunk) = list.part(place - 1);
    (place, part.span.end().max(at))
}
