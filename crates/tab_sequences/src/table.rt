//! The table.
ghost use Rattle.std.specs.Prelude.{◌≡◌, [], ◌∷◌, ◌++◌, IfOk, None, OnErr, OnOk, Some, filter, length, map};
ghost use Rattle.std.specs.Option.{option_copied};
ghost use Rattle.book_rows.specs.Reports.{left_all};
ghost use Rattle.book_rows.specs.Sequences.{abandoned, first_open, is_dropped_by, name_of, open_rows, published, sequence_named};
ghost use Rattle.book_rows.specs.declared.rows.SequenceRow.{SequenceRow};
ghost use Rattle.std.specs.List.{list_any};
ghost use Rattle.tab_sequences.specs.Changes.{HaveDistinctNames, abandoned_one, paused_one, told_in};
ghost use Rattle.tab_sequences.specs.Finding.{is_at_index};

use crate::OutOfMemory;
use crate::changes::{Abandoning, Publishing};
use crate::entries::{Sequence, group_key};
use crate::finding::At;
use crate::pausing::{AbandoningOne, PausingOne};
use crate::queries::{Named, OpenIn, OpenOf};
use crate::replicas::Leaving;
use crate::telling::{Closing, Telling};
use book_rows::{Items, Report, SequenceRow};
use row_table::RowTable;
use seg_names::{Name, TaskId};
use std::alloc::Global;
use std::collections::btree_map::Values;
use std::marker::Model;

/// Sequences of distinct names, in the order in which they were opened.
#[derive(Drop)]
pub struct Sequences {
    alloc: Global,
    rows: RowTable<Sequence>,
}

impl Model for Sequences {
    ghost use Rattle.std.specs.Prelude.{List};
    ghost use Rattle.book_rows.specs.declared.rows.SequenceRow.{SequenceRow};
    ghost use Rattle.tab_sequences.specs.Changes.{HaveDistinctNames};

    ghost Value = { List SequenceRow };

    ghost view = { λ a. a.rows };

    ghost invariant = { λ a. HaveDistinctNames a.rows };
}

// The key under which the sequence of a name is open, where there is one.
fn open_key_of(rows: &RowTable<Sequence>, name: &TaskId) -> Option<(u64, i64)> {
    match rows.first(&Named { name }) {
        Some(sequence) => Some(group_key(&sequence.row.source, sequence.row.group)),
        None => None,
    }
}

fn publish_in(rows: &mut RowTable<Sequence>, name: &TaskId)
    ensures { rows.new ≡ map (published name.now) rows.old }
{
    let open = open_key_of(rows, name);
    rows.change_all(&Publishing { name, open });
}

// The unpublished sequences of a group, from an index on.
fn abandon_in(rows: &mut RowTable<Sequence>, alloc: Global, source: &Name, group: u32, from: u32)
    ensures { rows.new ≡ map (abandoned source.now group from) rows.old }
{
    rows.change_all(&Abandoning {
        alloc,
        source,
        group,
        from,
    });
}

fn abandon_one_in(rows: &mut RowTable<Sequence>, alloc: Global, name: &TaskId)
    ensures { rows.new ≡ map (abandoned_one name.now) rows.old }
{
    let open = open_key_of(rows, name);
    rows.change_all(&AbandoningOne { alloc, name, open });
}

fn pause_one_in(rows: &mut RowTable<Sequence>, name: &TaskId)
    ensures { rows.new ≡ map (paused_one name.now) rows.old }
{
    rows.change_all(&PausingOne { name });
}

fn leave_in(rows: &mut RowTable<Sequence>, task: &TaskId)
    ensures { rows.new ≡ left_all task.now rows.old }
{
    rows.change_all(&Leaving { task });
}

fn tell_in(
    rows: &mut RowTable<Sequence>,
    name: &TaskId,
    reports: Option<Items<Report>>,
    closing: Option<Closing>,
) -> Result<(), OutOfMemory>
    requires { HaveDistinctNames rows.old }
    ensures ok { OnOk result (rows.new ≡ map (told_in name.now reports closing) rows.old) }
    ensures err { OnErr result (rows.new ≡ rows.old) }
{
    rows.update_first(Telling {
        name,
        reports,
        closing,
    })
}

impl Sequences {
    /// No sequences.
    pub fn new(alloc: Global) -> Sequences
        ensures { result ≡ [] }
    {
        Sequences {
            alloc,
            rows: RowTable::new(alloc),
        }
    }

    /// How many there are.
    pub fn count(&self) -> usize
        ensures { result ≡ length self.now }
    {
        self.rows.count()
    }

    /// The sequences in row order, lent one by one.
    pub fn iter(&self) -> Values<'_, u64, Sequence>
        ensures { result ≡ self.now }
    {
        self.rows.iter()
    }

    /// The sequence of a name.
    pub fn named(&self, name: &TaskId) -> Option<&SequenceRow>
        ensures row { option_copied result ≡ sequence_named name.now self.now }
        ensures distinct { HaveDistinctNames self.now }
    {
        match self.rows.first(&Named { name }) {
            Some(sequence) => Some(&sequence.row),
            None => None,
        }
    }

    /// The first unpublished sequence of a group.
    pub fn first_open(&self, source: &Name, group: u32) -> Option<&SequenceRow>
        ensures { option_copied result ≡ first_open source.now group self.now }
    {
        match self.rows.first(&OpenIn { source, group }) {
            Some(sequence) => Some(&sequence.row),
            None => None,
        }
    }

    /// Whether a group has a sequence of this index.
    pub fn has(&self, source: &Name, group: u32, index: u64) -> bool
        ensures { result ≡ list_any (is_at_index source.now group index) self.now }
    {
        self.rows.any(&At {
            source,
            group,
            index,
        })
    }

    /// The unpublished sequences of a group, in row order. The error is want of memory.
    pub fn open_in(
        &self,
        alloc: Global,
        source: &Name,
        group: u32,
    ) -> Result<Vec<&Sequence>, OutOfMemory>
        ensures { IfOk result (λ v. map (λ u. u.now) v.items ≡ open_rows source.now group self.now) }
    {
        self.rows.all(alloc, &OpenIn { source, group })
    }

    /// The unpublished sequences of a source, in row order. The error is want of memory.
    pub fn open_of(&self, alloc: Global, source: &Name) -> Result<Vec<&Sequence>, OutOfMemory>
        ensures { IfOk result (λ v. map (λ u. u.now) v.items ≡ filter (is_dropped_by source.now) self.now) }
    {
        self.rows.all(alloc, &OpenOf { source })
    }

    /// Adds a sequence under its name, which is new. The error is want of memory, and leaves the
    /// table as it was.
    pub fn add(&mut self, row: SequenceRow, name: TaskId) -> Result<(), OutOfMemory>
        requires name { name ≡ name_of row }
        requires new { sequence_named name self.old ≡ None }
        ensures ok { OnOk result (self.new ≡ self.old ++ row ∷ []) }
        ensures err { OnErr result (self.new ≡ self.old) }
    {
        self.rows.push(Sequence { row, name })
    }

    /// The sequence of a name, where there is one, is published. It takes no memory.
    pub fn publish(&mut self, name: &TaskId)
        ensures { self.new ≡ map (published name.now) self.old }
    {
        publish_in(&mut self.rows, name);
    }

    /// The unpublished sequences of a group, from an index on, are abandoned. It takes no memory.
    pub fn abandon(&mut self, source: &Name, group: u32, from: u32)
        ensures { self.new ≡ map (abandoned source.now group from) self.old }
    {
        abandon_in(&mut self.rows, self.alloc, source, group, from);
    }

    /// The sequence of a name, where it is unpublished, is abandoned. It takes no memory.
    pub fn abandon_one(&mut self, name: &TaskId)
        ensures { self.new ≡ map (abandoned_one name.now) self.old }
    {
        abandon_one_in(&mut self.rows, self.alloc, name);
    }

    /// The sequence of a name, where it reads, pauses. It takes no memory.
    pub fn pause_one(&mut self, name: &TaskId)
        ensures { self.new ≡ map (paused_one name.now) self.old }
    {
        pause_one_in(&mut self.rows, name);
    }

    /// Adds the sequences, whose names are new and distinct, all or none. The error is want of memory.
    pub fn add_all(&mut self, rows: Vec<Sequence>) -> Result<(), OutOfMemory>
        requires { HaveDistinctNames (self.old ++ rows.items) }
        ensures ok { OnOk result (self.new ≡ self.old ++ rows.items) }
        ensures err { OnErr result (self.new ≡ self.old) }
    {
        self.rows.push_all(rows)
    }

    /// A task leaves the live replicas of each sequence that it is one of. It takes no memory.
    pub fn leave(&mut self, task: &TaskId)
        ensures { self.new ≡ left_all task.now self.old }
    {
        leave_in(&mut self.rows, task);
    }

    /// The sequence of a name, where it reads or is paused, closes, or else pauses; and it gets these
    /// reports, where some are given. The error is want of memory, and leaves the table as it was.
    pub fn tell(
        &mut self,
        name: &TaskId,
        reports: Option<Items<Report>>,
        closing: Option<Closing>,
    ) -> Result<(), OutOfMemory>
        ensures ok { OnOk result (self.new ≡ map (told_in name.now reports closing) self.old) }
        ensures err { OnErr result (self.new ≡ self.old) }
    {
        tell_in(&mut self.rows, name, reports, closing)
    }
}
