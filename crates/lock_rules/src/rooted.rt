//! Pendings with their roots and locks, and upgrade rows with theirs.
ghost use Rattle.std.specs.Prelude.{◌&&◌, ◌==◌, ◌||◌, ◌+◌, ◌<◌, ◌^◌, ◌∷◌, ◌≡◌, [], IfOk, List, bytes_eq, int_lt, length, nat_le, not, ℕ};
ghost use Rattle.std.specs.List.{list_any};
ghost use Rattle.iv_span.specs.Extent.{covers};
ghost use Rattle.seg_names.specs.Ids.{same_id};
ghost use Rattle.seg_names.specs.declared.seg_id.SegId.{SegId};
ghost use Rattle.book_rows.specs.Kinds.{same_kind};
ghost use Rattle.book_rows.specs.declared.kinds.LockKind.TheVariants.{Replace};
ghost use Rattle.row_index.specs.Index.{digest_key, digest_range};
ghost use Rattle.laws_unsound.specs.ChunkRows.{is_copy, is_posse_of, is_root_of, is_rooted, rooted_rows};
ghost use Rattle.laws_unsound.specs.Rows.{first_failing, least};
ghost use Rattle.row_search.specs.Digests.{id_digest, number_digest};
ghost use Rattle.lock_rules.specs.Roots.{is_upgrade_by, lock_reaches, number_of_lock, root_reaches, upgrade_lock_by, upgrade_reaches};
ghost use Rattle.row_search.specs.Starts.{IsCounted};

use book_rows::{Book, LockKind, PendingRow, PosseRow, UpgradeRow};
use row_index::{digest_key, digest_range, mix};
use row_search::OutOfMemory;
use row_search::index::{Keying, Rows, Seeking, index};
use row_search::keys::{mix_id, same_id, same_previous};
use row_search::listed::{ById, Listed, added_ids, is_listed_since};
use row_search::rows::{Test, first_failing, lesser};
use row_search::starts::Starts;
use seg_names::SegId;
use std::alloc::Global;

// ---- roots of pendings

/// Pendings stand under their id.
#[derive(Drop)]
struct ByPendingId;

impl Keying<PendingRow> for ByPendingId {
    ghost key = { λ p. digest_key (id_digest p.id) };

    fn key(&self, row: &PendingRow) -> (u64, i64) {
        digest_key(mix_id(5, &row.id))
    }
}

impl Seeking<PendingRow, PendingRow> for ByPendingId {
    ghost holds = { λ s p r. is_root_of p r };

    ghost ranges = { λ p. digest_range (id_digest p.root) ∷ [] };

    ghost reaches = { λ s p r on. root_reaches p r on };

    fn holds(&self, asked: &PendingRow, row: &PendingRow) -> bool {
        same_id(&row.id, &row.root)
            && (same_id(&row.id, &asked.root)
                && (row.posse == asked.posse
                    && (row.sequence == asked.sequence
                        && same_previous(&row.previous, &asked.previous))))
    }

    fn range_count(&self, _asked: &PendingRow) -> usize {
        1
    }

    fn range(&self, asked: &PendingRow, _at: usize) -> ((u64, i64), i64) {
        digest_range(mix_id(5, &asked.root))
    }
}

// ---- locks of pendings and upgrade rows

/// Locks stand under their number.
#[derive(Drop)]
struct ByLockNumber;

impl Keying<PosseRow> for ByLockNumber {
    ghost key = { λ q. digest_key (number_digest q) };

    fn key(&self, row: &PosseRow) -> (u64, i64) {
        digest_key(mix(2, row.number))
    }
}

impl Seeking<PendingRow, PosseRow> for ByLockNumber {
    ghost holds = { λ s p q. is_posse_of p q };

    ghost ranges = { λ p. digest_range (number_of_lock p.posse) ∷ [] };

    ghost reaches = { λ s p q on. lock_reaches p q on };

    fn holds(&self, asked: &PendingRow, row: &PosseRow) -> bool {
        !row.revoked
            && (row.number == asked.posse
                && (row.source == asked.id.source && row.span.contains(asked.root.span)))
    }

    fn range_count(&self, _asked: &PendingRow) -> usize {
        1
    }

    fn range(&self, asked: &PendingRow, _at: usize) -> ((u64, i64), i64) {
        digest_range(mix(2, asked.posse))
    }
}

/// Ids that publications add.
trait Added: Drop {
    ghost ids: { Self → List (ℕ × SegId) };

    /// Whether a publication from this place on adds the id.
    fn is_added_since(&self, id: &SegId, first: u64) -> bool
        ensures { result ≡ list_any (λ e. same_id e.1 id.now && nat_le first e.0) (ids self.now) };
}

impl Added for Rows<'_, Listed<'_>, ById> {
    ghost ids = { λ s. s };

    fn is_added_since(&self, id: &SegId, first: u64) -> bool
        ensures { result ≡ list_any (λ e. same_id e.1 id.now && nat_le first e.0) self.now }
    {
        is_listed_since(self, id, first)
    }
}

/// An upgrade row, and the ids that publications add.
#[derive(Drop)]
struct Upgraded<'a, A: Added> {
    row: &'a UpgradeRow,
    added: &'a A,
}

fn is_replacing(kind: LockKind) -> bool
    ensures { result ≡ same_kind kind Replace }
{
    matches!(kind, LockKind::Replace)
}

impl<A: Added> Seeking<Upgraded<'_, A>, PosseRow> for ByLockNumber {
    ghost holds = { λ s x q. upgrade_lock_by (A.ids x.added.now) x.row.now q };

    ghost ranges = { λ x. digest_range (number_of_lock x.row.now.posse) ∷ [] };

    ghost reaches = { λ s x q on. upgrade_reaches (A.ids x.added.now) x.row.now q on };

    fn holds(&self, asked: &Upgraded<'_, A>, row: &PosseRow) -> bool {
        !row.revoked
            && (row.number == asked.row.posse
                && (is_replacing(row.lock_kind)
                    && (row.span.contains(asked.row.root.span)
                        && asked.added.is_added_since(&asked.row.root, row.since))))
    }

    fn range_count(&self, _asked: &Upgraded<'_, A>) -> usize {
        1
    }

    fn range(&self, asked: &Upgraded<'_, A>, _at: usize) -> ((u64, i64), i64) {
        digest_range(mix(2, asked.row.posse))
    }
}

// ---- the tests

fn is_copy(pending: &PendingRow) -> bool
    ensures { result ≡ is_copy pending.now }
{
    pending.id.span.contains(pending.root.span) && pending.root.version < pending.id.version
}

/// What pendings are held against.
#[derive(Drop)]
struct Rooting<'a, 'b, 'c, 'd> {
    locks: &'a Rows<'b, PosseRow, ByLockNumber>,
    pendings: &'c Rows<'d, PendingRow, ByPendingId>,
}

impl Test<PendingRow> for Rooting<'_, '_, '_, '_> {
    ghost passes = { λ s p. is_rooted s.locks.now s.pendings.now p };

    fn passes(&self, row: &PendingRow) -> bool {
        self.pendings.any(&ByPendingId, row)
            && (self.locks.any(&ByLockNumber, row) && (same_id(&row.id, &row.root) || is_copy(row)))
    }
}

/// What upgrade rows are held against.
#[derive(Drop)]
struct Upgrading<'a, 'b, 'c, A: Added> {
    locks: &'a Rows<'b, PosseRow, ByLockNumber>,
    added: &'c A,
}

impl<A: Added> Test<UpgradeRow> for Upgrading<'_, '_, '_, A> {
    ghost passes = { λ s u. is_upgrade_by s.locks.now (A.ids s.added.now) u };

    fn passes(&self, row: &UpgradeRow) -> bool {
        self.locks.any(
            &ByLockNumber,
            &Upgraded {
                row,
                added: self.added,
            },
        )
    }
}

fn first_unlocked<A: Added>(
    before: u64,
    locks: &Rows<'_, PosseRow, ByLockNumber>,
    added: &A,
    upgrades: &[UpgradeRow],
) -> Option<u64>
    requires { before + length upgrades.now < 2 ^ 64 }
    ensures { result ≡ first_failing before (is_upgrade_by locks.now (A.ids added.now)) upgrades.now }
{
    first_failing(before, upgrades, &Upgrading { locks, added })
}

fn first_unrooted(
    before: u64,
    locks: &Rows<'_, PosseRow, ByLockNumber>,
    rows: &Rows<'_, PendingRow, ByPendingId>,
    pendings: &[PendingRow],
) -> Option<u64>
    requires { before + length pendings.now < 2 ^ 64 }
    ensures { result ≡ first_failing before (is_rooted locks.now rows.now) pendings.now }
{
    let rooting = Rooting {
        locks,
        pendings: rows,
    };
    first_failing(before, pendings, &rooting)
}

/// The least row of a pending without its root or its lock, or of an upgrade row without its lock. The
/// error is want of memory.
#[tactic(auto, using(crate::proofs::Upgrading::upgrades_same))]
pub fn rooted_row(alloc: Global, book: &Book, starts: Starts) -> Result<Option<u64>, OutOfMemory>
    requires { IsCounted book.now starts }
    ensures { IfOk result (λ row. row ≡ least (rooted_rows book.now)) }
{
    let upgrades = book.upgrades.as_slice();
    let pendings = book.pendings.as_slice();
    let adds = added_ids(alloc, book.publications.as_slice())?;
    let added = index(alloc, adds.as_slice(), &ById)?;
    let locks = index(alloc, book.posses.as_slice(), &ByLockNumber)?;
    let rows = index(alloc, pendings, &ByPendingId)?;
    let row = lesser(
        first_unlocked(starts.upgrades, &locks, &added, upgrades),
        None,
    );
    Ok(lesser(
        first_unrooted(starts.pendings, &locks, &rows, pendings),
        row,
    ))
}
