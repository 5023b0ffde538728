//! Ids that are to be there once: those of pendings, and those that publications add, tombstones too.
ghost use Rattle.std.specs.Prelude.{◌++◌, ◌+◌, ◌<◌, ◌^◌, ◌∷◌, ◌≡◌, [], IfOk, OnOk, Some, length, min, slice_get};
ghost use Rattle.std.specs.Option.{option_copied, option_map};
ghost use Rattle.seg_names.specs.Ids.{same_id};
ghost use Rattle.row_index.specs.Index.{digest_key, digest_range};
ghost use Rattle.laws_unsound.specs.Rows.{in_row, least_clashing, least_with};
ghost use Rattle.laws_unsound.specs.ShapeRows.{ids_in_rows};
ghost use Rattle.row_search.specs.Digests.{id_digest, like_covers};

use book_rows::{PendingRow, Publication};
use row_index::{Keyed, Query, Ranked, digest_key, digest_range};
use row_search::OutOfMemory;
use row_search::keys::{mix_id, same_id};
use row_search::rows::lesser;
use row_table::RowTable;
use seg_names::SegId;
use std::alloc::Global;
use std::marker::Model;

/// An id, and the row of the book that has it.
#[derive(Drop)]
pub struct IdInRow<'a> {
    pub row: u64,
    pub id: &'a SegId,
}

impl<'a> Model for IdInRow<'a> {
    ghost use Rattle.seg_names.specs.declared.seg_id.SegId.{SegId};
    ghost use Rattle.laws_unsound.specs.Rows.{Rowed};

    ghost Value = { Rowed SegId };

    ghost view = { λ a. record { row = a.row; item = a.id.now } };
}

impl Keyed for IdInRow<'_> {
    ghost keys = { λ e. digest_key (id_digest e.item) ∷ [] };

    fn key_count(&self) -> usize {
        1
    }

    fn key(&self, _at: usize) -> (u64, i64) {
        digest_key(mix_id(5, self.id))
    }
}

impl Ranked for IdInRow<'_> {
    ghost rank = { λ e. e.row };

    fn rank(&self) -> u64 {
        self.row
    }
}

/// The entries of an id.
#[derive(Drop)]
struct Like<'a> {
    id: &'a SegId,
}

impl Query<IdInRow<'_>> for Like<'_> {
    ghost passes = { λ q e. same_id q.id.now e.item };

    ghost ranges = { λ q. digest_range (id_digest q.id.now) ∷ [] };

    ghost covers = { λ q e on. like_covers q.id.now e on };

    fn passes(&self, row: &IdInRow<'_>) -> bool {
        same_id(self.id, row.id)
    }

    fn range_count(&self) -> usize
        ensures { result ≡ length (digest_range (id_digest self.now.id.now) ∷ []) }
    {
        1
    }

    fn range(&self, at: usize) -> ((u64, i64), i64)
        requires { at < length (digest_range (id_digest self.now.id.now) ∷ []) }
        ensures { slice_get (digest_range (id_digest self.now.id.now) ∷ []) at ≡ Some result }
    {
        let _at = at;
        digest_range(mix_id(5, self.id))
    }
}

// The lesser of a row and that of the entry that was found, where one was.
fn lower_row(row: u64, found: Option<&IdInRow<'_>>) -> Option<u64>
    ensures { result ≡ option_map (λ e. min row e.row) (option_copied found.entry) }
{
    match found {
        Some(found) => Some(row.min(found.row)),
        None => None,
    }
}

// The least row of the pairs of an entry with one of the others.
fn least_with(entry: &IdInRow<'_>, others: &RowTable<IdInRow<'_>>) -> Option<u64>
    ensures { result ≡ least_with same_id entry.now others.now }
{
    lower_row(entry.row, others.least(&Like { id: entry.id }))
}

/// The least row with an id that is there twice. The error is want of memory.
pub fn least_repeated(alloc: Global, ids: Vec<IdInRow<'_>>) -> Result<Option<u64>, OutOfMemory>
    ensures { IfOk result (λ row. row ≡ least_clashing same_id ids.entry.items) }
{
    let mut later = RowTable::new(alloc);
    let mut least = None;
    let mut left = ids;
    while let Some(entry) = left.pop() {
        least = lesser(least_with(&entry, &later), least);
        later.push(entry)?;
    }
    Ok(least)
}

// ---- the ids

fn put_row<'a>(out: &mut Vec<IdInRow<'a>>, row: u64, ids: &'a [SegId]) -> Result<(), OutOfMemory>
    ensures { OnOk result (out.new.items ≡ out.old.items ++ in_row row ids.now) }
{
    for id in ids {
        out.push(IdInRow { row, id })?;
    }
    Ok(())
}

fn put_pendings<'a>(
    out: &mut Vec<IdInRow<'a>>,
    before: u64,
    pendings: &'a [PendingRow],
) -> Result<(), OutOfMemory>
    requires { before + length pendings.now < 2 ^ 64 }
    ensures { OnOk result (out.new.items ≡ out.old.items ++ ids_in_rows before (λ p. p.id ∷ []) pendings.now) }
{
    let mut row = before;
    for pending in pendings {
        out.push(IdInRow {
            row,
            id: &pending.id,
        })?;
        row += 1;
    }
    Ok(())
}

fn put_adds<'a>(
    out: &mut Vec<IdInRow<'a>>,
    before: u64,
    publications: &'a [Publication],
) -> Result<(), OutOfMemory>
    requires { before + length publications.now < 2 ^ 64 }
    ensures { OnOk result (out.new.items ≡ out.old.items ++ ids_in_rows before (λ m. m.adds) publications.now) }
{
    let mut row = before;
    for publication in publications {
        put_row(out, row, publication.adds.as_slice())?;
        row += 1;
    }
    Ok(())
}

fn put_empties<'a>(
    out: &mut Vec<IdInRow<'a>>,
    before: u64,
    publications: &'a [Publication],
) -> Result<(), OutOfMemory>
    requires { before + length publications.now < 2 ^ 64 }
    ensures { OnOk result (out.new.items ≡ out.old.items ++ ids_in_rows before (λ m. m.empties) publications.now) }
{
    let mut row = before;
    for publication in publications {
        put_row(out, row, publication.empties.as_slice())?;
        row += 1;
    }
    Ok(())
}

fn ids_of<'a>(
    alloc: Global,
    before_pendings: u64,
    pendings: &'a [PendingRow],
    before_publications: u64,
    publications: &'a [Publication],
) -> Result<Vec<IdInRow<'a>>, OutOfMemory>
    requires pendings { before_pendings + length pendings.now < 2 ^ 64 }
    requires publications { before_publications + length publications.now < 2 ^ 64 }
    ensures { IfOk result (λ v. v.items ≡ ids_in_rows before_pendings (λ p. p.id ∷ []) pendings.now ++ (ids_in_rows before_publications (λ m. m.adds) publications.now ++ ids_in_rows before_publications (λ m. m.empties) publications.now)) }
{
    let mut ids = Vec::new(alloc);
    put_pendings(&mut ids, before_pendings, pendings)?;
    put_adds(&mut ids, before_publications, publications)?;
    put_empties(&mut ids, before_publications, publications)?;
    Ok(ids)
}

/// The least row with an id that a pending has or a publication lists besides. The error is want of
/// memory.
pub fn once_row(
    alloc: Global,
    before_pendings: u64,
    pendings: &[PendingRow],
    before_publications: u64,
    publications: &[Publication],
) -> Result<Option<u64>, OutOfMemory>
    requires pendings { before_pendings + length pendings.now < 2 ^ 64 }
    requires publications { before_publications + length publications.now < 2 ^ 64 }
    ensures { IfOk result (λ row. row ≡ least_clashing same_id (ids_in_rows before_pendings (λ p. p.id ∷ []) pendings.now ++ (ids_in_rows before_publications (λ m. m.adds) publications.now ++ ids_in_rows before_publications (λ m. m.empties) publications.now))) }
{
    let ids = ids_of(
        alloc,
        before_pendings,
        pendings,
        before_publications,
        publications,
    )?;
    least_repeated(alloc, ids)
}
