//! Ids that publications list, each with the place of its publication.
ghost use Rattle.std.specs.Prelude.{◌&&◌, ◌++◌, ◌==◌, ◌∷◌, ◌≡◌, ◌<◌, [], IfOk, OnOk, Some, length, nat_le, slice_get};
ghost use Rattle.std.specs.List.{list_any};
ghost use Rattle.seg_names.specs.Ids.{same_id};
ghost use Rattle.row_index.specs.Index.{digest_key, digest_range};
ghost use Rattle.row_search.specs.Digests.{id_digest, listed_reaches};
ghost use Rattle.row_search.specs.Listed.{all_at, listed_from};

use crate::OutOfMemory;
use crate::index::{Keying, Rows, Seeking};
use crate::keys::{mix_id, same_id};
use book_rows::Publication;
use row_index::{digest_key, digest_range};
use seg_names::SegId;
use std::alloc::Global;
use std::marker::Model;

/// An id that a publication lists, and the publication's place.
#[derive(Drop)]
pub struct Listed<'a> {
    pub commit: u64,
    pub id: &'a SegId,
}

impl<'a> Model for Listed<'a> {
    ghost use Rattle.std.specs.Prelude.{ℕ};
    ghost use Rattle.seg_names.specs.declared.seg_id.SegId.{SegId};

    ghost Value = { ℕ × SegId };

    ghost view = { λ a. (a.commit, a.id.now) };
}

fn put_all<'a>(out: &mut Vec<Listed<'a>>, commit: u64, ids: &'a [SegId]) -> Result<(), OutOfMemory>
    ensures { OnOk result (out.new.items ≡ out.old.items ++ all_at commit ids.now) }
{
    for id in ids {
        out.push(Listed { commit, id })?;
    }
    Ok(())
}

/// The ids that publications add. The error is want of memory.
pub fn added_ids(
    alloc: Global,
    publications: &[Publication],
) -> Result<Vec<Listed<'_>>, OutOfMemory>
    ensures { IfOk result (λ v. v.items ≡ listed_from (λ m. m.adds) 0 publications.now) }
{
    let mut listed = Vec::new(alloc);
    for (commit, publication) in publications.iter().enumerate() {
        put_all(&mut listed, commit as u64, publication.adds.as_slice())?;
    }
    Ok(listed)
}

/// The tombstones of publications. The error is want of memory.
pub fn emptied_ids(
    alloc: Global,
    publications: &[Publication],
) -> Result<Vec<Listed<'_>>, OutOfMemory>
    ensures { IfOk result (λ v. v.items ≡ listed_from (λ m. m.empties) 0 publications.now) }
{
    let mut listed = Vec::new(alloc);
    for (commit, publication) in publications.iter().enumerate() {
        put_all(&mut listed, commit as u64, publication.empties.as_slice())?;
    }
    Ok(listed)
}

/// Listed ids stand under the id.
#[derive(Drop)]
pub struct ById;

impl Keying<Listed<'_>> for ById {
    ghost key = { λ e. digest_key (id_digest e.1) };

    fn key(&self, row: &Listed<'_>) -> (u64, i64) {
        digest_key(mix_id(5, row.id))
    }
}

/// An id that is to be listed up to this place.
#[derive(Drop)]
pub struct UpTo<'a> {
    pub id: &'a SegId,
    pub last: u64,
}

impl Seeking<UpTo<'_>, Listed<'_>> for ById {
    ghost holds = { λ s x e. same_id e.1 x.id.now && nat_le e.0 x.last };

    ghost ranges = { λ x. digest_range (id_digest x.id.now) ∷ [] };

    ghost reaches = { λ s x e on. listed_reaches x.id.now e.1 (nat_le e.0 x.last) on };

    fn holds(&self, asked: &UpTo<'_>, row: &Listed<'_>) -> bool {
        same_id(row.id, asked.id) && row.commit <= asked.last
    }

    fn range_count(&self, asked: &UpTo<'_>) -> usize
        ensures { result ≡ length (digest_range (id_digest asked.now.id.now) ∷ []) }
    {
        let _asked = asked;
        1
    }

    fn range(&self, asked: &UpTo<'_>, at: usize) -> ((u64, i64), i64)
        requires { at < length (digest_range (id_digest asked.now.id.now) ∷ []) }
        ensures { slice_get (digest_range (id_digest asked.now.id.now) ∷ []) at ≡ Some result }
    {
        let _at = at;
        digest_range(mix_id(5, asked.id))
    }
}

/// Whether a publication up to this place lists the id.
pub fn is_listed_up_to(listed: &Rows<'_, Listed<'_>, ById>, id: &SegId, last: u64) -> bool
    ensures { result ≡ list_any (λ e. same_id e.1 id.now && nat_le e.0 last) listed.now }
{
    listed.any(&ById, &UpTo { id, last })
}

/// An id that is to be listed from this place on.
#[derive(Drop)]
pub struct Since<'a> {
    pub id: &'a SegId,
    pub first: u64,
}

impl Seeking<Since<'_>, Listed<'_>> for ById {
    ghost holds = { λ s x e. same_id e.1 x.id.now && nat_le x.first e.0 };

    ghost ranges = { λ x. digest_range (id_digest x.id.now) ∷ [] };

    ghost reaches = { λ s x e on. listed_reaches x.id.now e.1 (nat_le x.first e.0) on };

    fn holds(&self, asked: &Since<'_>, row: &Listed<'_>) -> bool {
        same_id(row.id, asked.id) && asked.first <= row.commit
    }

    fn range_count(&self, asked: &Since<'_>) -> usize
        ensures { result ≡ length (digest_range (id_digest asked.now.id.now) ∷ []) }
    {
        let _asked = asked;
        1
    }

    fn range(&self, asked: &Since<'_>, at: usize) -> ((u64, i64), i64)
        requires { at < length (digest_range (id_digest asked.now.id.now) ∷ []) }
        ensures { slice_get (digest_range (id_digest asked.now.id.now) ∷ []) at ≡ Some result }
    {
        let _at = at;
        digest_range(mix_id(5, asked.id))
    }
}

/// Whether a publication from this place on lists the id.
pub fn is_listed_since(listed: &Rows<'_, Listed<'_>, ById>, id: &SegId, first: u64) -> bool
    ensures { result ≡ list_any (λ e. same_id e.1 id.now && nat_le first e.0) listed.now }
{
    listed.any(&ById, &Since { id, first })
}

/// An id that is to be listed at this place.
#[derive(Drop)]
pub struct At<'a> {
    pub id: &'a SegId,
    pub place: u64,
}

impl Seeking<At<'_>, Listed<'_>> for ById {
    ghost holds = { λ s x e. same_id e.1 x.id.now && (e.0 == x.place) };

    ghost ranges = { λ x. digest_range (id_digest x.id.now) ∷ [] };

    ghost reaches = { λ s x e on. listed_reaches x.id.now e.1 ((e.0 == x.place)) on };

    fn holds(&self, asked: &At<'_>, row: &Listed<'_>) -> bool {
        same_id(row.id, asked.id) && row.commit == asked.place
    }

    fn range_count(&self, asked: &At<'_>) -> usize
        ensures { result ≡ length (digest_range (id_digest asked.now.id.now) ∷ []) }
    {
        let _asked = asked;
        1
    }

    fn range(&self, asked: &At<'_>, at: usize) -> ((u64, i64), i64)
        requires { at < length (digest_range (id_digest asked.now.id.now) ∷ []) }
        ensures { slice_get (digest_range (id_digest asked.now.id.now) ∷ []) at ≡ Some result }
    {
        let _at = at;
        digest_range(mix_id(5, asked.id))
    }
}

/// Whether the publication at this place lists the id.
pub fn is_listed_at(listed: &Rows<'_, Listed<'_>, ById>, id: &SegId, place: u64) -> bool
    ensures { result ≡ list_any (λ e. same_id e.1 id.now && (e.0 == place)) listed.now }
{
    listed.any(&ById, &At { id, place })
}
