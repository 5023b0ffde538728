//! The limits of commands: at them and past them.

ghost use Rattle.cases_rules.specs.BoundCases.{NamesAtTheirLimits, TaskIdsAtTheirLimits, RangesAtTheirLimits, OffsetsAtTheirLimits, SpansAtTheirLimits, TombstonesInOrder, SupervisorsAtTheirLimits, TicksAtTheirLimits, ManyOffsetsAndRanges, ManyIds};

/// A name has 1 to 200 bytes.
pub fn names_at_their_limits()
    ensures { NamesAtTheirLimits }
{}

/// A task's id has 1 to 255 bytes of UTF-8.
pub fn task_ids_at_their_limits()
    ensures { TaskIdsAtTheirLimits }
{}

/// Ranges of a publish.
pub fn ranges_at_their_limits()
    ensures { RangesAtTheirLimits }
{}

/// Offsets of a reset and of a report.
pub fn offsets_at_their_limits()
    ensures { OffsetsAtTheirLimits }
{}

/// Spans and the spans of ids.
pub fn spans_at_their_limits()
    ensures { SpansAtTheirLimits }
{}

/// Ids and tombstones stand in id order.
pub fn tombstones_in_order()
    ensures { TombstonesInOrder }
{}

/// The numbers and durations of a supervisor.
pub fn supervisors_at_their_limits()
    ensures { SupervisorsAtTheirLimits }
{}

/// A tick's moment is an instant.
pub fn ticks_at_their_limits()
    ensures { TicksAtTheirLimits }
{}

/// A list has at most 4,096 offsets or ranges.
pub fn many_offsets_and_ranges()
    ensures { ManyOffsetsAndRanges }
{}

/// A list has at most 4,096 ids or spans.
pub fn many_ids()
    ensures { ManyIds }
{}
