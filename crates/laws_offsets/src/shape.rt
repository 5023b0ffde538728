//! The shape of stored offsets and published ranges: their limits, their order, and their room.

ghost use Rattle.laws_offsets.specs.OffsetShape.{NamesStay, OffsetShapeStays, ReachedHaveOffsetShape, ShapeHasOffsetShape};

/// It is part of the shape of a book.
pub fn shape_has_offset_shape()
    ensures { ShapeHasOffsetShape }
{}

/// Every command that keeps its form keeps it, in a book whose tasks have names as sources.
pub fn offset_shape_stays()
    ensures { OffsetShapeStays }
{}

/// Every such command keeps that the sources of tasks and supervisors are names.
pub fn names_stay()
    ensures { NamesStay }
{}

/// So each book has that shape that a list of such commands reaches from the empty one.
pub fn reached_have_offset_shape()
    ensures { ReachedHaveOffsetShape }
{}
