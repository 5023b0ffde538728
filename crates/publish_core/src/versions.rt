//! The versions of ids, and of chunks that are in the way.
ghost use Rattle.std.specs.Prelude.{◌&&◌, ◌≡◌, false, find, int_lt, map, option_map, slice_get, true};
ghost use Rattle.std.specs.List.Sorted.{IsPartitionPoint};
ghost use Rattle.std.specs.Option.{option_copied};
ghost use Rattle.std.specs.Ordering.{int_eq};
ghost use Rattle.seg_names.specs.Ids.{same_extent};
ghost use Rattle.book_rows.specs.Append.{version_overlaps};
ghost use Rattle.book_rows.specs.Ids.{id_before};
ghost use Rattle.book_rows.specs.Lists.{list_links};
ghost use Rattle.book_rows.specs.Over.{both_in_order, has_own_version, version_fault};
ghost use Rattle.publish_core.specs.Answers.{IsPassed};
ghost use Rattle.apart_spans.specs.Apart.{are_apart};

use crate::faults::PublishFault;
use crate::lists::{IdTest, first_of_both};
use crate::spans::is_same;
use crate::targets::Target;
use iv_span::Span;
use seg_names::{Name, SegId};
use std::alloc::Global;
use tab_segments::Segments;

// The place of the first target whose span doesn't begin before this one.
fn place_of(targets: &[Target], span: Span) -> usize
    requires { are_apart (map (λ x. x.span) targets.now) ≡ true }
    ensures { IsPartitionPoint (λ x. int_lt x.span.start span.start ≡ true) (λ x. int_lt x.span.start span.start ≡ false) targets.now result }
{
    targets.partition_point(|target| target.span.start() < span.start())
}

fn target_at(targets: &[Target], at: usize) -> Option<&Target>
    ensures { option_copied result ≡ slice_get targets.now at }
{
    targets.get(at)
}

fn is_version_of(target: &Target, id: &SegId) -> bool
    ensures { result ≡ (same_extent target.now.span id.now.span && int_eq target.now.version id.now.version) }
{
    is_same(target.span, id.span) && target.version == id.version
}

// Whether the id has the span and the version of a target.
fn has_own_version(targets: &[Target], id: &SegId) -> bool
    requires { are_apart (map (λ x. x.span) targets.now) ≡ true }
    ensures { result ≡ has_own_version targets.now id.now }
{
    match target_at(targets, place_of(targets, id.span)) {
        Some(target) => is_version_of(target, id),
        None => false,
    }
}

/// The ids that have the version of their span's lock.
#[derive(Drop)]
struct Versioned<'a> {
    targets: &'a [Target],
    ghost apart: { are_apart (map (λ x. x.span) targets.now) ≡ true },
}

impl IdTest for Versioned<'_> {
    ghost passes = { λ q a. has_own_version q.targets.now a };

    fn passes(&self, id: &SegId) -> bool {
        has_own_version(self.targets, id)
    }
}

// The first span that a chunk of its lock's version overlaps.
fn first_used(segments: &Segments, source: &Name, targets: &[Target]) -> Option<Span>
    ensures { result ≡ option_map (λ x. x.span) (find (λ x. version_overlaps segments.now.chunks source.now x.span x.version) targets.now) }
{
    for target in targets {
        if segments.version_overlaps(source, target.span, target.version) {
            return Some(target.span);
        }
    }
    None
}

/// Whether each id and tombstone has the version of its span's lock, and no chunk of that version
/// overlaps the span. `WrongVersion` tells the first id, else `VersionUsed` the first span.
pub fn check_versions(
    alloc: Global,
    segments: &Segments,
    source: &Name,
    targets: &[Target],
    ids: &[SegId],
    tombstones: &[SegId],
) -> Result<(), PublishFault>
    requires apart { are_apart (map (λ x. x.span) targets.now) ≡ true }
    requires ids { list_links id_before ids.now ≡ true }
    requires tombstones { list_links id_before tombstones.now ≡ true }
    ensures { IsPassed result (version_fault segments.now.chunks source.now targets.now (both_in_order ids.now tombstones.now)) }
{
    if let Some(id) = first_of_both(ids, tombstones, &Versioned { targets }) {
        return Err(PublishFault::WrongVersion(id.twin(alloc)?));
    }
    match first_used(segments, source, targets) {
        Some(span) => Err(PublishFault::VersionUsed(span)),
        None => Ok(()),
    }
}
