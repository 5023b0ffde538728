//! Ids in id order, each once.

ghost use Rattle.std.specs.Prelude.{◌≡◌, ◌<◌, IfOk, Some, length, slice_get, true};
ghost use Rattle.std.specs.List.{list_all, zip};
ghost use Rattle.std.specs.List.Sorted.{IsSorted};
ghost use Rattle.seg_names.specs.Ids.{id_cmp, same_id};
ghost use Rattle.book_rows.specs.Ids.{same_ids};
ghost use Rattle.timeline_view.specs.Chunks.{AreIdsIn, last_is};

use iv_span::OutOfMemory;
use seg_names::SegId;
use std::alloc::Global;

fn is_same(a: &SegId, b: &SegId) -> bool
    ensures { result ≡ same_id a.now b.now }
{
    a.source == b.source && a.span == b.span && a.version == b.version && a.part == b.part
}

fn each_is_same(left: &[SegId], right: &[SegId]) -> bool
    ensures { result ≡ list_all (λ p. same_id p.0 p.1) (zip left.now right.now) }
{
    left.iter().zip(right).all(|(a, b)| is_same(a, b))
}

/// Whether both lists have the same ids.
pub fn same_ids(left: &[SegId], right: &[SegId]) -> bool
    ensures { result ≡ same_ids left.now right.now }
{
    left.len() == right.len() && each_is_same(left, right)
}

/// Whether the last id is this one.
pub fn last_is(ids: &[SegId], id: &SegId) -> bool
    ensures { result ≡ last_is ids.now id.now }
{
    match ids.last() {
        Some(last) => is_same(last, id),
        None => false,
    }
}

/// The id at a place.
pub fn id_at(ids: &[SegId], at: usize) -> &SegId
    requires { at < length ids.now }
    ensures { slice_get ids.now at ≡ Some result.now }
{
    &ids[at]
}

/// The ids, each once.
pub fn each_once(alloc: Global, ids: &[SegId]) -> Result<Vec<SegId>, OutOfMemory>
    requires { IsSorted id_cmp ids.now }
    ensures { IfOk result (λ v. AreIdsIn (λ a. true) ids.now v.items) }
{
    let mut found = Vec::new(alloc);
    for id in ids {
        if !last_is(&found, id) {
            found.push(id.twin(alloc)?)?;
        }
    }
    Ok(found)
}
