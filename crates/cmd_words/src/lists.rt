//! The lists of a command.
ghost use Rattle.std.specs.Prelude.{◌≡◌, ℕ, [], Option, Some, None, codes, map, IfOk};
ghost use Rattle.serde_json.specs.Data.{Data};
ghost use Rattle.serde_json.specs.Find.{get};
ghost use Rattle.serde_json.specs.View.{view, items_view};
ghost use Rattle.command_forms.specs.Sorted.{less_by, IsExact};
ghost use Rattle.cmd_words.specs.Reading.{Gives, GivesBy};
ghost use Rattle.cmd_words.specs.Values.{optional_of, some_in, id_in, span_in};
ghost use Rattle.cmd_words.specs.Lists.{each_of, list_in, sorted_in, want_of, pair_of, offset_from, offsets_at, part_of, range_from, parts_at, ranges_in, spans_at, ids_in, ids_at};

use crate::OutOfMemory;
use crate::fault::LineFault;
use crate::values::{has_only_keys, id_in, lock_kind, name, number, short_number, span, span_in};
use book_rows::{Items, Offset, Range, Ranges, Want};
use command_forms::put_in_order;
use iv_span::Span;
use seg_names::SegId;
use serde_json::Value;
use std::alloc::Global;

// A kind of value that stands in a list.
trait Item: Drop {
    ghost reads: { Data → Option Self };

    fn read(alloc: Global, value: &Value) -> Result<Self, LineFault>
        ensures { Gives result (reads (view value.now)) };
}

fn each<T: Item>(alloc: Global, list: &[Value]) -> Result<Vec<T>, LineFault>
    ensures { GivesBy (λ v. v.items) result (each_of T.reads (items_view list.now)) }
{
    let mut items = Vec::new(alloc);
    for value in list {
        items.push(T::read(alloc, value)?)?;
    }
    Ok(items)
}

#[tactic(auto, unfolding(crate::specs::Lists::list_in))]
fn list<T: Item>(alloc: Global, value: &Value) -> Result<Vec<T>, LineFault>
    ensures { GivesBy (λ v. v.items) result (list_in T.reads (view value.now)) }
{
    match value.as_array() {
        Some(list) => each(alloc, list),
        None => Err(LineFault::BadCommand),
    }
}

#[tactic(auto, unfolding(crate::specs::Lists::sorted_in))]
fn sorted<T: Item + Ord>(alloc: Global, value: &Value) -> Result<Vec<T>, LineFault>
    requires { IsExact (less_by T.cmp) }
    ensures { GivesBy (λ v. v.items) result (sorted_in T.reads T.cmp (view value.now)) }
{
    let mut items = list(alloc, value)?;
    put_in_order(&mut items)?;
    Ok(items)
}

#[tactic(auto, unfolding(crate::specs::Lists::want_of))]
fn want(value: &Value) -> Result<Want, LineFault>
    ensures { Gives result (want_of (view value.now)) }
{
    let lock_kind = lock_kind(value, "type")?;
    let span = span(value, "span")?;
    if !has_only_keys(value, &["type", "span"]) {
        return Err(LineFault::BadCommand);
    }
    Ok(Want { lock_kind, span })
}

#[tactic(auto, unfolding(crate::specs::Lists::pair_of))]
fn pair(value: &Value) -> Result<(u32, u64), LineFault>
    ensures { Gives result (pair_of (view value.now)) }
{
    let partition = short_number(value, "partition")?;
    let offset = number(value, "offset")?;
    if !has_only_keys(value, &["partition", "offset"]) {
        return Err(LineFault::BadCommand);
    }
    Ok((partition, offset))
}

#[tactic(auto, unfolding(crate::specs::Lists::part_of))]
fn part(value: &Value) -> Result<(u32, u64, u64), LineFault>
    ensures { Gives result (part_of (view value.now)) }
{
    let partition = short_number(value, "partition")?;
    let start = number(value, "start")?;
    let end = number(value, "end")?;
    if !has_only_keys(value, &["partition", "start", "end"]) {
        return Err(LineFault::BadCommand);
    }
    Ok((partition, start, end))
}

impl Item for Want {
    ghost reads = { want_of };

    fn read(_alloc: Global, value: &Value) -> Result<Want, LineFault> {
        want(value)
    }
}

impl Item for (u32, u64) {
    ghost reads = { pair_of };

    fn read(_alloc: Global, value: &Value) -> Result<(u32, u64), LineFault> {
        pair(value)
    }
}

impl Item for (u32, u64, u64) {
    ghost reads = { part_of };

    fn read(_alloc: Global, value: &Value) -> Result<(u32, u64, u64), LineFault> {
        part(value)
    }
}

impl Item for Span {
    ghost reads = { span_in };

    fn read(_alloc: Global, value: &Value) -> Result<Span, LineFault> {
        span_in(value)
    }
}

impl Item for SegId {
    ghost reads = { id_in };

    fn read(alloc: Global, value: &Value) -> Result<SegId, LineFault> {
        id_in(alloc, value)
    }
}

// The wanted locks, none where the key is left out.
pub fn wants(alloc: Global, value: &Value) -> Result<Items<Want>, LineFault>
    ensures { Gives result (optional_of [] (list_in want_of) (get (codes "locks") (view value.now))) }
{
    match value.get("locks") {
        Some(found) => Ok(Items::from_vec(list(alloc, found)?)),
        None => Ok(Items::new(alloc)),
    }
}

fn offsets_from(alloc: Global, pairs: &[(u32, u64)]) -> Result<Vec<Offset>, OutOfMemory>
    ensures { IfOk result (λ v. v.items ≡ map offset_from pairs.now) }
{
    pairs
        .iter()
        .map(|pair| Offset {
            partition: pair.0,
            offset: pair.1,
        })
        .collect(alloc)
}

#[tactic(auto, unfolding(crate::specs::Lists::offsets_at))]
pub fn offsets(alloc: Global, value: &Value, key: &str) -> Result<Items<Offset>, LineFault>
    ensures { Gives result (offsets_at key.now (view value.now)) }
{
    let found = value.get(key).ok_or(LineFault::BadCommand)?;
    let pairs = sorted(alloc, found)?;
    Ok(Items::from_vec(offsets_from(alloc, &pairs)?))
}

fn ranges_from(alloc: Global, parts: &[(u32, u64, u64)]) -> Result<Vec<Range>, OutOfMemory>
    ensures { IfOk result (λ v. v.items ≡ map range_from parts.now) }
{
    parts
        .iter()
        .map(|part| Range {
            partition: part.0,
            start: part.1,
            end: part.2,
        })
        .collect(alloc)
}

#[tactic(auto, unfolding(crate::specs::Lists::parts_at))]
fn parts(alloc: Global, value: &Value, key: &str) -> Result<Items<Range>, LineFault>
    ensures { Gives result (parts_at key.now (view value.now)) }
{
    let found = value.get(key).ok_or(LineFault::BadCommand)?;
    let parts = sorted(alloc, found)?;
    Ok(Items::from_vec(ranges_from(alloc, &parts)?))
}

#[tactic(auto, unfolding(crate::specs::Lists::ranges_in))]
fn ranges_in(alloc: Global, value: &Value) -> Result<Ranges, LineFault>
    ensures { Gives result (ranges_in (view value.now)) }
{
    let stream = name(alloc, value, "stream")?;
    let parts = parts(alloc, value, "parts")?;
    if !has_only_keys(value, &["parts", "stream"]) {
        return Err(LineFault::BadCommand);
    }
    Ok(Ranges { stream, parts })
}

// What was read of a stream, nothing where the key is left out.
#[tactic(auto, unfolding(crate::specs::Values::some_in))]
pub fn ranges(alloc: Global, value: &Value) -> Result<Option<Ranges>, LineFault>
    ensures { Gives result (optional_of None (some_in ranges_in) (get (codes "ranges") (view value.now))) }
{
    match value.get("ranges") {
        Some(found) => Ok(Some(ranges_in(alloc, found)?)),
        None => Ok(None),
    }
}

#[tactic(auto, unfolding(crate::specs::Lists::spans_at))]
pub fn spans(alloc: Global, value: &Value, key: &str) -> Result<Items<Span>, LineFault>
    ensures { Gives result (spans_at key.now (view value.now)) }
{
    let found = value.get(key).ok_or(LineFault::BadCommand)?;
    Ok(Items::from_vec(sorted(alloc, found)?))
}

fn ids_in(alloc: Global, value: &Value) -> Result<Items<SegId>, LineFault>
    ensures { Gives result (ids_in (view value.now)) }
{
    Ok(Items::from_vec(sorted(alloc, value)?))
}

#[tactic(auto, unfolding(crate::specs::Lists::ids_at))]
pub fn ids(alloc: Global, value: &Value, key: &str) -> Result<Items<SegId>, LineFault>
    ensures { Gives result (ids_at key.now (view value.now)) }
{
    let found = value.get(key).ok_or(LineFault::BadCommand)?;
    ids_in(alloc, found)
}

// The tombstones, none where the key is left out.
pub fn tombstones(alloc: Global, value: &Value) -> Result<Items<SegId>, LineFault>
    ensures { Gives result (optional_of [] ids_in (get (codes "tombstones") (view value.now))) }
{
    match value.get("tombstones") {
        Some(found) => ids_in(alloc, found),
        None => Ok(Items::new(alloc)),
    }
}
