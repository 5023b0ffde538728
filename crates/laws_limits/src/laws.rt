//! Every command that keeps its form keeps the limits.

ghost use Rattle.laws_limits.specs.Limits.{LimitsStay};
ghost use Rattle.laws_limits.specs.Room.{ReachedHaveRoom, RoomStays, TablesStayInRoom};
ghost use Rattle.laws_limits.specs.Rows.{IdRowsStay, PublicationRowsStay, SequenceRowsStay};

/// No command that keeps its form makes a table too full that wasn't.
pub fn tables_stay_in_room()
    ensures { TablesStayInRoom }
{}

/// So where no table is too full, none is after such a command.
pub fn room_stays()
    ensures { RoomStays }
{}

/// So no table is too full in a book that such commands reach.
pub fn reached_have_room()
    ensures { ReachedHaveRoom }
{}

/// After such a command on a sound book publications and supervisors are within their limits, and
/// publications have nothing that their kinds exclude.
pub fn publication_rows_stay()
    ensures { PublicationRowsStay }
{}

/// So are chunks, segments, pendings and upgrade rows.
pub fn id_rows_stay()
    ensures { IdRowsStay }
{}

/// So are sequences, which have nothing that their states exclude.
pub fn sequence_rows_stay()
    ensures { SequenceRowsStay }
{}

/// All of it at once: a command that keeps its form leads from a sound book to one whose tables have
/// room, and whose rows of these tables are within their limits.
pub fn limits_stay()
    ensures { LimitsStay }
{}
