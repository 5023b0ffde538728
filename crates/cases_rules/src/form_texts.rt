//! Which texts, numbers and instants keep a command's form.

ghost use Rattle.cases_rules.specs.FormTexts.{SubmittedIds, SourceNames, NamedTasks, NumbersAtMost, KindsOfForm, MomentsInRange, SpansForwards, IdsOfForm};

/// A submitted task's id and group have 1 to 200 bytes of a name or colons, and aren't any that the program makes.
pub fn submitted_ids()
    ensures { SubmittedIds }
{}

/// A source and a sequence have 1 to 200 letters, digits, underscores, hyphens and dots.
pub fn source_names()
    ensures { SourceNames }
{}

/// A task that is named has 1 to 255 bytes, of UTF-8, and may be one that the program makes.
pub fn named_tasks()
    ensures { NamedTasks }
{}

/// A priority is at most a million, and a lock's number at most the last one.
pub fn numbers_at_most()
    ensures { NumbersAtMost }
{}

/// An end is one of the two, and a lock for an allocation one of three.
pub fn kinds_of_form()
    ensures { KindsOfForm }
{}

/// Moments are from the first to the last instant.
pub fn moments_in_range()
    ensures { MomentsInRange }
{}

/// A span begins before it ends, and both are instants.
pub fn spans_forwards()
    ensures { SpansForwards }
{}

/// An id has an instant as version, and a name as source; the last part has 32 bits.
pub fn ids_of_form()
    ensures { IdsOfForm }
{}
