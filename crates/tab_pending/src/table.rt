//! The table.
ghost use Rattle.std.specs.Prelude.{◌≡◌, ◌==◌, ◌&&◌, ◌++◌, ◌∷◌, [], IfOk, OnErr, OnOk, filter, find, length, map, not};
ghost use Rattle.std.specs.List.{list_any};
ghost use Rattle.std.specs.Option.{option_copied};
ghost use Rattle.seg_names.specs.Ids.{same_id};
ghost use Rattle.book_rows.specs.Allocation.{is_pending_at, is_pending_over, is_root, known_pending};
ghost use Rattle.book_rows.specs.Append.{is_root_of, without_root};
ghost use Rattle.book_rows.specs.Lists.{stands_in};
ghost use Rattle.book_rows.specs.Locks.{stripped, stripped_upgrades};
ghost use Rattle.book_rows.specs.Rewrite.{is_copied, is_taken_up};
ghost use Rattle.tab_pending.specs.Searches.{is_of_one, is_over_one, is_root_across, is_root_over, is_upgrade_across};

use crate::OutOfMemory;
use crate::keys::{Pending, Upgrade};
use crate::lists::{ids_of, roots_of, rows_of};
use crate::pending_queries::{
    Known, OfLock, OfOneLock, OverOne, OverSpan, PendingTest, RootAcross, RootOf, RootOver,
    RootPassing, RootWithin, WithRoot, first_by_scan, first_in, instant_span,
};
use crate::strips::{strip_pendings, strip_upgrades};
use crate::upgrade_queries::{UpgradeOf, UpgradeWithin, first_across};
use apart_spans::SpanList;
use book_rows::{PendingRow, UpgradeRow};
use iv_span::Span;
use row_table::RowTable;
use seg_names::{Name, SegId};
use std::alloc::Global;
use std::collections::btree_map::Values;
use std::marker::Model;

/// The ids that wait to be published, and what replacements that are under way have to carry.
///
/// A contract sees the list of pendings and the list of upgrade rows, each in the order in which
/// they were added.
#[derive(Drop)]
pub struct Pendings {
    pendings: RowTable<Pending>,
    upgrades: RowTable<Upgrade>,
}

impl Model for Pendings {
    ghost use Rattle.tab_pending.specs.PendingRows.{HaveSpans, PendingRows, RootsHaveSpans};

    ghost Value = { PendingRows };

    ghost view = { λ a. record { pendings = a.pendings; upgrades = a.upgrades } };

    ghost invariant = { λ a. HaveSpans a.pendings × RootsHaveSpans a.upgrades };
}

impl Pendings {
    /// No pendings and no upgrade rows.
    pub fn new(alloc: Global) -> Pendings
        ensures { result ≡ record { pendings = []; upgrades = [] } }
    {
        Pendings {
            pendings: RowTable::new(alloc),
            upgrades: RowTable::new(alloc),
        }
    }

    /// How many pendings there are.
    pub fn count(&self) -> usize
        ensures { result ≡ length self.now.pendings }
    {
        self.pendings.count()
    }

    /// How many upgrade rows there are.
    pub fn upgrade_count(&self) -> usize
        ensures { result ≡ length self.now.upgrades }
    {
        self.upgrades.count()
    }

    /// The pendings in row order, lent one by one.
    pub fn pendings(&self) -> Values<'_, u64, Pending>
        ensures { result ≡ self.now.pendings }
    {
        self.pendings.iter()
    }

    /// The upgrade rows in row order, lent one by one.
    pub fn upgrades(&self) -> Values<'_, u64, Upgrade>
        ensures { result ≡ self.now.upgrades }
    {
        self.upgrades.iter()
    }

    // ---- look-ups

    /// The root pending that was allocated for a source, a sequence and a previous id.
    pub fn by_sequence(
        &self,
        source: &Name,
        sequence: &Name,
        previous: Option<&SegId>,
    ) -> Option<&PendingRow>
        ensures { option_copied result ≡ known_pending self.now.pendings source.now sequence.now (option_copied previous.entry) }
    {
        let known = Known {
            source,
            sequence,
            previous,
        };
        match self.pendings.first(&known) {
            Some(pending) => Some(&pending.row),
            None => None,
        }
    }

    /// The first pending of the source that has the instant.
    pub fn first_at(&self, source: &Name, at: i64) -> Option<&PendingRow>
        ensures { option_copied result ≡ find (is_pending_at source.now at) self.now.pendings }
    {
        match instant_span(at) {
            Some(span) => first_in(&self.pendings, source, span),
            None => first_by_scan(&self.pendings, source, at),
        }
    }

    /// Whether a pending of the source overlaps the span.
    pub fn overlaps(&self, source: &Name, span: Span) -> bool
        ensures { result ≡ list_any (is_pending_over source.now span) self.now.pendings }
    {
        self.pendings.any(&OverSpan { source, span })
    }

    /// The first pending of the source that overlaps one of the spans.
    pub fn first_over(&self, source: &Name, spans: &[Span]) -> Option<&PendingRow>
        ensures { option_copied result ≡ find (is_over_one source.now spans.now) self.now.pendings }
    {
        let spans = SpanList::new(spans);
        match self.pendings.first(&OverOne { source, spans }) {
            Some(pending) => Some(&pending.row),
            None => None,
        }
    }

    /// The first root pending of the source that overlaps one of the spans and doesn't lie within
    /// it.
    pub fn first_root_across(&self, source: &Name, spans: &[Span]) -> Option<&PendingRow>
        ensures { option_copied result ≡ find (is_root_across source.now spans.now) self.now.pendings }
    {
        let spans = SpanList::new(spans);
        match self.pendings.first(&RootAcross { source, spans }) {
            Some(pending) => Some(&pending.row),
            None => None,
        }
    }

    /// The ids of the root pendings of the source that overlap the span, in row order. The error is
    /// want of memory.
    pub fn roots_overlapping(
        &self,
        alloc: Global,
        source: &Name,
        span: Span,
    ) -> Result<Vec<SegId>, OutOfMemory>
        ensures { IfOk result (λ v. v.items ≡ map (λ p. p.id) (filter (is_root_over source.now span) self.now.pendings)) }
    {
        let found = self.pendings.all(alloc, &RootOver { source, span })?;
        ids_of(alloc, found.as_slice())
    }

    /// The root pendings of the source that lie within the span, in row order. The error is want of
    /// memory.
    pub fn roots_within(
        &self,
        alloc: Global,
        source: &Name,
        span: Span,
    ) -> Result<Vec<PendingRow>, OutOfMemory>
        ensures { IfOk result (λ v. v.items ≡ filter (is_copied source.now span) self.now.pendings) }
    {
        let found = self.pendings.all(alloc, &RootWithin { source, span })?;
        rows_of(alloc, found.as_slice())
    }

    /// The root pending of that id.
    pub fn root(&self, id: &SegId) -> Option<&PendingRow>
        ensures { option_copied result ≡ find (is_root_of id.now) self.now.pendings }
    {
        match self.pendings.first(&RootOf { id }) {
            Some(pending) => Some(&pending.row),
            None => None,
        }
    }

    /// Whether a root pending of that id passes the test.
    pub fn any_root<T: PendingTest>(&self, id: &SegId, test: &T) -> bool
        ensures { result ≡ list_any (λ p. is_root p && same_id p.id id.now && T.passes test.now p) self.now.pendings }
    {
        self.pendings.any(&RootPassing { id, test })
    }

    /// The pendings with that root, in row order. The error is want of memory.
    pub fn with_root(&self, alloc: Global, root: &SegId) -> Result<Vec<PendingRow>, OutOfMemory>
        ensures { IfOk result (λ v. v.items ≡ filter (λ p. same_id p.root root.now) self.now.pendings) }
    {
        let found = self.pendings.all(alloc, &WithRoot { root })?;
        rows_of(alloc, found.as_slice())
    }

    /// Whether there is a pending of one of these locks.
    pub fn any_of(&self, locks: &[u64]) -> bool
        ensures { result ≡ list_any (is_of_one locks.now) self.now.pendings }
    {
        self.pendings.any(&OfOneLock { locks })
    }

    /// The roots of the upgrade rows of a lock, in row order. The error is want of memory.
    pub fn upgrades_of(&self, alloc: Global, lock: u64) -> Result<Vec<SegId>, OutOfMemory>
        ensures { IfOk result (λ v. v.items ≡ map (λ u. u.root) (filter (λ u. u.posse == lock) self.now.upgrades)) }
    {
        let found = self.upgrades.all(alloc, &UpgradeOf { lock })?;
        roots_of(alloc, found.as_slice())
    }

    /// The roots of the upgrade rows of a lock that lie within the span, in row order. The error is
    /// want of memory.
    pub fn upgrades_within(
        &self,
        alloc: Global,
        lock: u64,
        span: Span,
    ) -> Result<Vec<SegId>, OutOfMemory>
        ensures { IfOk result (λ v. v.items ≡ map (λ u. u.root) (filter (is_taken_up lock span) self.now.upgrades)) }
    {
        let found = self.upgrades.all(alloc, &UpgradeWithin { lock, span })?;
        roots_of(alloc, found.as_slice())
    }

    /// The first upgrade row of one of the locks, whose root overlaps one of the spans and doesn't
    /// lie within it.
    pub fn first_upgrade_across(&self, locks: &[u64], spans: &[Span]) -> Option<&UpgradeRow>
        ensures { option_copied result ≡ find (is_upgrade_across locks.now spans.now) self.now.upgrades }
    {
        first_across(&self.upgrades, locks, spans)
    }

    // ---- changes

    /// Adds a pending. The error is want of memory, and leaves the table as it was.
    pub fn add(&mut self, row: PendingRow) -> Result<(), OutOfMemory>
        ensures ok { OnOk result (self.new ≡ record self.old { pendings = self.old.pendings ++ row ∷ [] }) }
        ensures err { OnErr result (self.new ≡ self.old) }
    {
        let _start = row.id.span.start();
        self.pendings.push(Pending { row })
    }

    /// Adds an upgrade row. The error is want of memory, and leaves the table as it was.
    pub fn add_upgrade(&mut self, row: UpgradeRow) -> Result<(), OutOfMemory>
        ensures ok { OnOk result (self.new ≡ record self.old { upgrades = self.old.upgrades ++ row ∷ [] }) }
        ensures err { OnErr result (self.new ≡ self.old) }
    {
        let _start = row.root.span.start();
        self.upgrades.push(Upgrade { row })
    }

    /// All pendings with that root go. It takes no memory.
    pub fn take_root(&mut self, root: &SegId)
        ensures { self.new ≡ record self.old { pendings = without_root root.now self.old.pendings } }
    {
        self.pendings.remove_all(&WithRoot { root });
    }

    /// The upgrade rows of the lock whose roots lie in the span go. It takes no memory.
    pub fn take_upgrades(&mut self, lock: u64, span: Span)
        ensures { self.new ≡ record self.old { upgrades = filter (λ u. not (is_taken_up lock span u)) self.old.upgrades } }
    {
        self.upgrades.remove_all(&UpgradeWithin { lock, span });
    }

    /// All pendings and upgrade rows of the lock go. It takes no memory.
    pub fn take_posse(&mut self, lock: u64)
        ensures { self.new ≡ record { pendings = stripped (λ n. n == lock) self.old.pendings; upgrades = stripped_upgrades (λ n. n == lock) self.old.upgrades } }
    {
        self.pendings.remove_all(&OfLock { lock });
        self.upgrades.remove_all(&UpgradeOf { lock });
    }

    /// All pendings and upgrade rows of the lock go, where it has ended. It takes no memory.
    pub fn take_ended(&mut self, lock: u64, ended: bool)
        ensures { self.new ≡ record { pendings = stripped (λ n. (n == lock) && ended) self.old.pendings; upgrades = stripped_upgrades (λ n. (n == lock) && ended) self.old.upgrades } }
    {
        if !ended {
            return;
        }
        self.take_posse(lock);
    }

    /// All pendings and upgrade rows of these locks go. It takes no memory.
    pub fn take_posses(&mut self, locks: &[u64])
        ensures { self.new ≡ record { pendings = stripped (stands_in locks.now) self.old.pendings; upgrades = stripped_upgrades (stands_in locks.now) self.old.upgrades } }
    {
        strip_pendings(&mut self.pendings, locks);
        strip_upgrades(&mut self.upgrades, locks);
    }
}
