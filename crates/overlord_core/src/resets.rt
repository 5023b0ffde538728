//! `reset`.
ghost use Rattle.std.specs.Prelude.{◌≡◌, IfOk, OnOk, [], cond, length, map, nat_lt, true};
ghost use Rattle.book_rows.specs.Lists.{list_links};
ghost use Rattle.book_rows.specs.Offsets.{reset_to};
ghost use Rattle.book_rows.specs.PublishSteps.{after_reset, offsets_reset, reads_stream, reset_step};
ghost use Rattle.book_rows.specs.Sequences.{dropped_sequence, supervisor_of, tasks_dropped};
ghost use Rattle.book_core.specs.Done.{IsDone};
ghost use Rattle.stream_offsets.specs.Room.{no_room_for_reset};

use book_core::{Core, OutOfMemory, Outcome, changed, refused, reset_publication};
use book_rows::{Offset, Refusal, Reply, Table};
use seg_names::{Name, TaskId};
use std::alloc::Global;

fn room_for_reset(core: &Core, source: &Name, stream: &Name, offsets: &[Offset]) -> Option<Table>
    requires { list_links (λ a b. nat_lt a.partition b.partition) offsets.now ≡ true }
    ensures { result ≡ no_room_for_reset (length core.now.publications) (length (reset_to core.now.offsets source.now stream.now offsets.now)) }
{
    stream_offsets::room_for_reset(&core.streams, source, stream, offsets)
}

// Adds the publication of a reset, and puts the offsets in the place of the stream's.
fn offsets_reset(
    core: &mut Core,
    alloc: Global,
    source: &Name,
    stream: &Name,
    offsets: &[Offset],
) -> Result<(), OutOfMemory>
    ensures { OnOk result (core.new ≡ offsets_reset source.now stream.now offsets.now core.old) }
{
    let publication = reset_publication(alloc, source, stream, offsets)?;
    stream_offsets::reset(&mut core.streams, alloc, source, stream, offsets)?;
    core.streams.push(publication)
}

// Where the source's supervisor reads the stream, its sequences are abandoned. Answers the tasks
// that fail with them.
fn sequences_reset(
    core: &mut Core,
    source: &Name,
    stream: &Name,
) -> Result<Vec<TaskId>, OutOfMemory>
    ensures tasks { IfOk result (λ tasks. tasks.items ≡ cond (reads_stream (supervisor_of source.now core.old.supervisors) stream.now) (tasks_dropped source.now core.old.sequences) []) }
    ensures rows { OnOk result (core.new ≡ record core.old { sequences = cond (reads_stream (supervisor_of source.now core.old.supervisors) stream.now) (map (dropped_sequence source.now) core.old.sequences) core.old.sequences }) }
{
    core.supervisors.reset(source, stream)
}

fn after_reset(
    core: &mut Core,
    alloc: Global,
    source: &Name,
    stream: &Name,
    offsets: &[Offset],
) -> Result<(), OutOfMemory>
    ensures { OnOk result (core.new ≡ after_reset source.now stream.now offsets.now core.old) }
{
    offsets_reset(core, alloc, source, stream, offsets)?;
    let failing = sequences_reset(core, source, stream)?;
    core.all_failed(alloc, failing)
}

fn reset_to(
    core: &mut Core,
    alloc: Global,
    source: &Name,
    stream: &Name,
    offsets: &[Offset],
) -> Result<Outcome, OutOfMemory>
    ensures done { IfOk result (λ o. o ≡ record { reply = Reply.Reset (length core.old.publications); changes = true }) }
    ensures after { OnOk result (core.new ≡ after_reset source.now stream.now offsets.now core.old) }
{
    let commit = core.streams.count();
    after_reset(core, alloc, source, stream, offsets)?;
    Ok(changed(Reply::Reset { commit }))
}

/// Puts these offsets, whose partitions ascend, in the place of the stream's. The sequences of a
/// supervisor that reads it are abandoned.
pub fn reset(
    core: &mut Core,
    alloc: Global,
    source: &Name,
    stream: &Name,
    offsets: &[Offset],
) -> Result<Outcome, OutOfMemory>
    requires { list_links (λ a b. nat_lt a.partition b.partition) offsets.now ≡ true }
    ensures { IfOk result (λ o. IsDone o core.new (reset_step core.old source.now stream.now offsets.now)) }
{
    match room_for_reset(core, source, stream, offsets) {
        Some(table) => Ok(refused(Refusal::TableFull { table })),
        None => reset_to(core, alloc, source, stream, offsets),
    }
}
