//! Which publishes are let through.
ghost use Rattle.std.specs.Prelude.{◌≡◌};
ghost use Rattle.std.specs.Option.{option_copied};
ghost use Rattle.book_rows.specs.Sequences.{are_ranges, is_found, is_on_stream, passes_by, tells};

use book_rows::{Offset, Range, Ranges, SeqState, SequenceRow, SupervisorRow};
use tab_sequences::Sequences;

// Whether the ranges are exactly from these starts to these ends.
fn are_ranges(starts: &[Offset], ends: &[Offset], parts: &[Range]) -> bool
    ensures { result ≡ are_ranges starts.now ends.now parts.now }
{
    match starts {
        [] => ends.is_empty() && parts.is_empty(),
        [start, starts @ ..] => match ends {
            [] => false,
            [end, ends @ ..] => match parts {
                [] => false,
                [part, parts @ ..] => {
                    part.partition == start.partition
                        && part.partition == end.partition
                        && part.start == start.offset
                        && part.end == end.offset
                        && are_ranges(starts, ends, parts)
                }
            },
        },
    }
}

fn is_on_stream(supervisor: Option<&SupervisorRow>, ranges: Option<&Ranges>) -> bool
    ensures { result ≡ is_on_stream (option_copied supervisor.entry) (option_copied ranges.entry) }
{
    match (supervisor, ranges) {
        (Some(supervisor), Some(ranges)) => ranges.stream == supervisor.stream,
        _ => false,
    }
}

// Whether the publish has exactly the sequence's ranges, on the supervisor's stream.
fn tells(
    supervisor: Option<&SupervisorRow>,
    sequence: &SequenceRow,
    ranges: Option<&Ranges>,
) -> bool
    ensures { result ≡ tells (option_copied supervisor.entry) sequence.now (option_copied ranges.entry) }
{
    match (supervisor, ranges) {
        (Some(supervisor), Some(ranges)) => {
            ranges.stream == supervisor.stream
                && are_ranges(
                    sequence.starts.as_slice(),
                    sequence.ends.as_slice(),
                    ranges.parts.as_slice(),
                )
        }
        _ => false,
    }
}

fn is_found(found: Option<&SequenceRow>, sequence: &SequenceRow) -> bool
    ensures { result ≡ is_found (option_copied found.entry) sequence.now }
{
    match found {
        Some(row) => row.index == sequence.index,
        None => false,
    }
}

/// Whether a publish is let through, where its task's group names this sequence and its source has
/// this supervisor.
pub fn passes_by(
    sequences: &Sequences,
    named: Option<&SequenceRow>,
    supervisor: Option<&SupervisorRow>,
    ranges: Option<&Ranges>,
) -> bool
    ensures { result ≡ passes_by (option_copied named.entry) (option_copied supervisor.entry) sequences.now (option_copied ranges.entry) }
{
    match named {
        Some(row) => {
            is_found(sequences.first_open(&row.source, row.group), row)
                && row.state == SeqState::Closed
                && tells(supervisor, row, ranges)
        }
        None => !is_on_stream(supervisor, ranges),
    }
}
