//! The table.
ghost use Rattle.std.specs.Prelude.{◌≡◌, ◌⊎◌, [], ◌∷◌, ◌++◌, IfErr, IfOk, None, OnErr, OnOk, Some, cond, false, map, true};
ghost use Rattle.std.specs.Option.{option_copied};
ghost use Rattle.book_rows.specs.PublishSteps.{reads_stream};
ghost use Rattle.book_rows.specs.Reports.{ended};
ghost use Rattle.book_rows.specs.Sequences.{dropped_sequence, passes, published, sequence_named, supervisor_of, tasks_dropped};
ghost use Rattle.book_rows.specs.Ticks.{ticked};
ghost use Rattle.tab_sequences.specs.Changes.{HaveDistinctNames};
ghost use Rattle.sup_core.specs.Kept.{HasGroups};
ghost use Rattle.sup_core.specs.Reports.{told_fault, told_reply, rows_after};
ghost use Rattle.sup_core.specs.Supervising.{supervise_fault};
ghost use Rattle.sup_core.specs.Ticking.{tick_fault};
ghost use Rattle.sup_core.specs.declared.answers.SupFault.TheVariants.{NotAssigned, OutOfMemory};

use crate::answers::SupFault;
use crate::supervising::{OfSource, Supervisor};
use crate::{OutOfMemory, ending, reports, resets, ticking, turns};
use book_rows::{Offset, ROW_LIMIT, Ranges, Reported, SupervisorRow, Table, TaskRow, Ticked};
use row_table::RowList;
use seg_names::{Name, TaskId};
use std::alloc::Global;
use std::collections::btree_map::Values;
use std::marker::Model;
use tab_sequences::{Sequence, Sequences};
use tab_streams::Streams;

/// The supervisors and their sequences, in the order in which they came.
#[derive(Drop)]
pub struct Supervisors {
    alloc: Global,
    supervisors: RowList<Supervisor>,
    sequences: Sequences,
}

impl Model for Supervisors {
    ghost use Rattle.sup_core.specs.Kept.{AreKept};
    ghost use Rattle.sup_core.specs.SupRows.{SupRows};

    ghost Value = { SupRows };

    ghost view = { λ a. record { supervisors = a.supervisors; sequences = a.sequences } };

    ghost invariant = { λ a. AreKept a.supervisors a.sequences };
}

// The supervisor of a source.
fn supervisor_of<'a>(
    supervisors: &'a RowList<Supervisor>,
    source: &Name,
) -> Option<&'a SupervisorRow>
    ensures { option_copied result ≡ supervisor_of source.now supervisors.now }
{
    match supervisors.first(&OfSource { source }) {
        Some(supervisor) => Some(&supervisor.row),
        None => None,
    }
}

// Why no supervisor of the source is added.
fn supervise_fault(supervisors: &RowList<Supervisor>, source: &Name) -> Option<SupFault>
    ensures { result ≡ supervise_fault source.now supervisors.now }
{
    if supervisor_of(supervisors, source).is_some() {
        Some(SupFault::Exists)
    } else if supervisors.count() >= ROW_LIMIT {
        Some(SupFault::Full(Table::Supervisors))
    } else {
        None
    }
}

// A supervisor's source is a name, and its groups are numbers of 32 bits.
fn has_groups(row: &SupervisorRow)
    ensures { HasGroups row.now }
{
    let _source = row.source.bytes();
    let _groups = row.task_count;
}

// Adds a supervisor, where its source has none.
fn supervise_in(supervisors: &mut RowList<Supervisor>, row: SupervisorRow) -> Result<(), SupFault>
    ensures groups { HasGroups row }
    ensures passes { IfOk result (λ _. supervise_fault row.source supervisors.old ≡ None) }
    ensures rows { OnOk result (supervisors.new ≡ supervisors.old ++ row ∷ []) }
    ensures refused { IfErr result (λ why. (why ≡ OutOfMemory) ⊎ (supervise_fault row.source supervisors.old ≡ Some why)) }
    ensures err { OnErr result (supervisors.new ≡ supervisors.old) }
{
    has_groups(&row);
    if let Some(fault) = supervise_fault(supervisors, &row.source) {
        return Err(fault);
    }
    supervisors.push(Supervisor { row })?;
    Ok(())
}

// Whether the source's supervisor reads the stream.
fn reads_stream(supervisor: Option<&SupervisorRow>, stream: &Name) -> bool
    ensures { result ≡ reads_stream (option_copied supervisor.entry) stream.now }
{
    match supervisor {
        Some(row) => row.stream == *stream,
        None => false,
    }
}

// Abandons the unpublished sequences of the source, where its supervisor reads the stream. Answers their
// live replicas.
fn reset_in(
    alloc: Global,
    supervisors: &RowList<Supervisor>,
    sequences: &mut Sequences,
    source: &Name,
    stream: &Name,
) -> Result<Vec<TaskId>, OutOfMemory>
    requires { HaveDistinctNames sequences.old }
    ensures tasks { IfOk result (λ tasks. tasks.items ≡ cond (reads_stream (supervisor_of source.now supervisors.now) stream.now) (tasks_dropped source.now sequences.old) []) }
    ensures rows { OnOk result (sequences.new ≡ cond (reads_stream (supervisor_of source.now supervisors.now) stream.now) (map (dropped_sequence source.now) sequences.old) sequences.old) }
    ensures err { OnErr result (sequences.new ≡ sequences.old) }
{
    if reads_stream(supervisor_of(supervisors, source), stream) {
        resets::drop_source(alloc, sequences, source)
    } else {
        Ok(Vec::new(alloc))
    }
}

impl Supervisors {
    /// No supervisors and no sequences.
    pub fn new(alloc: Global) -> Supervisors
        ensures { result ≡ record { supervisors = []; sequences = [] } }
    {
        Supervisors {
            alloc,
            supervisors: RowList::new(alloc),
            sequences: Sequences::new(alloc),
        }
    }

    /// The sequences in row order, lent one by one.
    pub fn sequences(&self) -> Values<'_, u64, Sequence>
        ensures { result ≡ self.now.sequences }
    {
        self.sequences.iter()
    }

    /// Adds a supervisor, where its source has none. An error leaves the table as it was.
    pub fn supervise(&mut self, row: SupervisorRow) -> Result<(), SupFault>
        ensures passes { IfOk result (λ _. supervise_fault row.source self.old.supervisors ≡ None) }
        ensures rows { OnOk result (self.new ≡ record self.old { supervisors = self.old.supervisors ++ row ∷ [] }) }
        ensures refused { IfErr result (λ why. (why ≡ OutOfMemory) ⊎ (supervise_fault row.source self.old.supervisors ≡ Some why)) }
        ensures err { OnErr result (self.new ≡ self.old) }
    {
        supervise_in(&mut self.supervisors, row)
    }

    /// The clock's step at this moment, where no more than `tasks_left` tasks may be added: late sequences
    /// are abandoned, those whose time is over pause, and new ones open. Answers what is told of them. An
    /// error leaves the table as it was.
    pub fn tick(
        &mut self,
        streams: &Streams,
        moment: i64,
        tasks_left: u32,
    ) -> Result<Ticked, SupFault>
        ensures passes { IfOk result (λ _. tick_fault tasks_left (ticked streams.now.offsets moment self.old.supervisors self.old.sequences) ≡ None) }
        ensures told { IfOk result (λ told. told ≡ (ticked streams.now.offsets moment self.old.supervisors self.old.sequences).told) }
        ensures rows { OnOk result (self.new ≡ record self.old { sequences = (ticked streams.now.offsets moment self.old.supervisors self.old.sequences).rows }) }
        ensures refused { IfErr result (λ why. (why ≡ OutOfMemory) ⊎ (tick_fault tasks_left (ticked streams.now.offsets moment self.old.supervisors self.old.sequences) ≡ Some why)) }
        ensures err { OnErr result (self.new ≡ self.old) }
    {
        ticking::tick(
            self.alloc,
            &self.supervisors,
            &mut self.sequences,
            streams,
            moment,
            tasks_left,
        )
    }

    /// Keeps what a replica tells of its sequence: `begin` where it is a checkpoint, which begins the
    /// pause of a sequence that reads. A sequence that closes by it does so at this instant, the book's
    /// clock. An error leaves the table as it was.
    pub fn report(
        &mut self,
        task: &TaskRow,
        offsets: &[Offset],
        clock: i64,
        begin: bool,
    ) -> Result<Reported, SupFault>
        ensures passes { IfOk result (λ _. told_fault begin (sequence_named task.now.group self.old.sequences) offsets.now ≡ None) }
        ensures reply { IfOk result (λ reply. told_reply (sequence_named task.now.group self.old.sequences) (record { task = task.now.task; offsets = offsets.now }) clock ≡ Some reply) }
        ensures rows { OnOk result (self.new ≡ record self.old { sequences = rows_after (sequence_named task.now.group self.old.sequences) task.now.group (record { task = task.now.task; offsets = offsets.now }) clock self.old.sequences }) }
        ensures refused { IfErr result (λ why. (why ≡ OutOfMemory) ⊎ (told_fault begin (sequence_named task.now.group self.old.sequences) offsets.now ≡ Some why)) }
        ensures err { OnErr result (self.new ≡ self.old) }
    {
        reports::report(self.alloc, &mut self.sequences, task, offsets, clock, begin)
    }

    /// A task ends, where the book's clock is this instant. Answers the tasks that end with the sequences
    /// that are abandoned by it, which the caller has to fail. The error is want of memory, and leaves
    /// the table as it was.
    pub fn ended(&mut self, task: &TaskRow, clock: i64) -> Result<Vec<TaskId>, OutOfMemory>
        ensures tasks { IfOk result (λ tasks. tasks.items ≡ (ended task.now.group task.now.task clock self.old.sequences).tasks) }
        ensures rows { OnOk result (self.new ≡ record self.old { sequences = (ended task.now.group task.now.task clock self.old.sequences).sequences }) }
        ensures err { OnErr result (self.new ≡ self.old) }
    {
        ending::end(self.alloc, &mut self.sequences, task, clock)
    }

    /// A stream is reset: where the source's supervisor reads it, all unpublished sequences of the
    /// source are abandoned. Answers the tasks that end with them. The error is want of memory, and
    /// leaves the table as it was.
    pub fn reset(&mut self, source: &Name, stream: &Name) -> Result<Vec<TaskId>, OutOfMemory>
        ensures tasks { IfOk result (λ tasks. tasks.items ≡ cond (reads_stream (supervisor_of source.now self.old.supervisors) stream.now) (tasks_dropped source.now self.old.sequences) []) }
        ensures rows { OnOk result (self.new ≡ record self.old { sequences = cond (reads_stream (supervisor_of source.now self.old.supervisors) stream.now) (map (dropped_sequence source.now) self.old.sequences) self.old.sequences }) }
        ensures err { OnErr result (self.new ≡ self.old) }
    {
        reset_in(
            self.alloc,
            &self.supervisors,
            &mut self.sequences,
            source,
            stream,
        )
    }

    /// Whether a publish of the task is let through. It takes no memory.
    pub fn assigned(&self, task: &TaskRow, ranges: Option<&Ranges>) -> Result<(), SupFault>
        ensures ok { IfOk result (λ _. passes self.now.supervisors self.now.sequences task.now.source task.now.group (option_copied ranges.entry) ≡ true) }
        ensures refused { IfErr result (λ why. (why ≡ NotAssigned) × (passes self.now.supervisors self.now.sequences task.now.source task.now.group (option_copied ranges.entry) ≡ false)) }
    {
        let named = self.sequences.named(&task.group);
        let supervisor = supervisor_of(&self.supervisors, &task.source);
        if turns::passes_by(&self.sequences, named, supervisor, ranges) {
            Ok(())
        } else {
            Err(SupFault::NotAssigned)
        }
    }

    /// The sequence of this name, where there is one, is published. It takes no memory.
    pub fn published(&mut self, group: &TaskId)
        ensures { self.new ≡ record self.old { sequences = map (published group.now) self.old.sequences } }
    {
        self.sequences.publish(group);
    }
}
