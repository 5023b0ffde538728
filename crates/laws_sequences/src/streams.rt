//! That a sequence is published on the stream of its source's supervisor.

ghost use Rattle.laws_sequences.specs.StreamLaws.{AcceptedIsOnStream, AnsweredIsOnStream, CommandsKeepStreams, StreamsStay};

/// Where sequences are in line, a publish by a replica that changes the book is on the stream of the
/// supervisor of its sequence's source.
pub fn accepted_is_on_stream()
    ensures { AcceptedIsOnStream }
{}

/// Every command that keeps its form keeps, beside sequences that are in line, that each publication
/// that is named as those of sequences is of a supervisor's source, and on its stream.
pub fn commands_keep_streams()
    ensures { CommandsKeepStreams }
{}

/// So each is in the book that commands that keep their form reach from the book without rows.
pub fn streams_stay()
    ensures { StreamsStay }
{}

/// Where it is so, a publish by a replica that is accepted, or that repeats one, is on the stream of the
/// supervisor of its sequence's source.
pub fn answered_is_on_stream()
    ensures { AnsweredIsOnStream }
{}
