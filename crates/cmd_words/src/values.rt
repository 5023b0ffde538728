//! The values of a command's keys.
ghost use Rattle.std.specs.Prelude.{◌≡◌, ◌-◌, ◌==◌, ◌<◌, ◌≤◌, codes, map, length, position, string_bytes, bytes_eq, IfOk, IfSome, None};
ghost use Rattle.std.specs.List.{list_all, list_any};
ghost use Rattle.std.specs.BTreeMap.{keys};
ghost use Rattle.iv_time.specs.Durations.{duration_of};
ghost use Rattle.iv_time.specs.Texts.{instant_of};
ghost use Rattle.serde_json.specs.Find.{get};
ghost use Rattle.serde_json.specs.View.{view};
ghost use Rattle.cmd_words.specs.Reading.{Gives, GivesBy};
ghost use Rattle.cmd_words.specs.Values.{has_only, optional_of, some_in, text_at, name_at, task_at, task_in, kind_at, lock_kind_at, granularity_at, id_in, instant_in, instant_at, span_from, span_of, span_in, span_at, end_status_at, whole_of, whole_at, duration_in};
ghost use Rattle.book_rows.specs.Kinds.{default_priority};
ghost use Rattle.book_rows.specs.Outcome.{number_limit};

use crate::fault::LineFault;
use book_rows::{LockKind, NUMBER_LIMIT, TaskKind, TaskStatus};
use iv_span::Span;
use iv_time::{Granularity, in_range, parse, parse_duration};
use seg_names::{Name, SegId, TaskId};
use serde_json::{Map, Value};
use std::alloc::Global;

fn is_known(known: &[&str], key: &str) -> bool
    ensures { result ≡ list_any (λ x. bytes_eq x.now key.now) known.now }
{
    known.iter().any(|x| *x == key)
}

fn are_known(known: &[&str], members: &Map<String, Value>) -> bool
    ensures { result ≡ list_all (λ k. list_any (λ x. bytes_eq x.now (string_bytes k)) known.now) (keys members.now) }
{
    members.keys().all(|k| is_known(known, k.as_str()))
}

// Whether the value is an object with no key but those.
pub fn has_only_keys(value: &Value, known: &[&str]) -> bool
    ensures { result ≡ has_only (map (λ k. k.now) known.now) (view value.now) }
{
    match value.as_object() {
        None => false,
        Some(members) => are_known(known, members),
    }
}

pub fn text<'a>(value: &'a Value, key: &str) -> Result<&'a str, LineFault>
    ensures { GivesBy (λ s. s.now) result (text_at key.now (view value.now)) }
{
    value
        .get(key)
        .and_then(Value::as_str)
        .ok_or(LineFault::BadCommand)
}

#[tactic(auto, unfolding(crate::specs::Values::name_at))]
pub fn name(alloc: Global, value: &Value, key: &str) -> Result<Name, LineFault>
    ensures { Gives result (name_at key.now (view value.now)) }
{
    let text = text(value, key)?;
    Ok(Name::new(alloc, text.as_bytes())?)
}

#[tactic(auto, unfolding(crate::specs::Values::task_at))]
pub fn task(alloc: Global, value: &Value, key: &str) -> Result<TaskId, LineFault>
    ensures { Gives result (task_at key.now (view value.now)) }
{
    let text = text(value, key)?;
    Ok(TaskId::new(alloc, text.as_bytes())?)
}

#[tactic(auto, unfolding(crate::specs::Values::task_in))]
fn task_in(alloc: Global, value: &Value) -> Result<TaskId, LineFault>
    ensures { Gives result (task_in (view value.now)) }
{
    match value.as_str() {
        Some(text) => Ok(TaskId::new(alloc, text.as_bytes())?),
        None => Err(LineFault::BadCommand),
    }
}

// The task's group, which is the task's own id where the key is left out.
pub fn group(alloc: Global, value: &Value, task: &TaskId) -> Result<TaskId, LineFault>
    ensures { Gives result (optional_of task.now task_in (get (codes "group") (view value.now))) }
{
    match value.get("group") {
        Some(found) => task_in(alloc, found),
        None => Ok(task.twin(alloc)?),
    }
}

#[tactic(auto, unfolding(crate::specs::Values::kind_at))]
pub fn kind(value: &Value, key: &str) -> Result<TaskKind, LineFault>
    ensures { Gives result (kind_at key.now (view value.now)) }
{
    match text(value, key)? {
        "realtime" => Ok(TaskKind::Realtime),
        "batch" => Ok(TaskKind::Batch),
        "compaction" => Ok(TaskKind::Compaction),
        "other" => Ok(TaskKind::Other),
        _ => Err(LineFault::BadCommand),
    }
}

fn default_priority(kind: TaskKind) -> u32
    ensures { result ≡ default_priority kind }
{
    match kind {
        TaskKind::Realtime => 75,
        TaskKind::Batch => 50,
        TaskKind::Compaction => 25,
        TaskKind::Other => 0,
    }
}

// The task's priority, which its kind gives where the key is left out.
pub fn priority(value: &Value, kind: TaskKind) -> Result<u32, LineFault>
    ensures { Gives result (optional_of (default_priority kind) (whole_of 4294967295) (get (codes "priority") (view value.now))) }
{
    match value.get("priority") {
        Some(found) => short_whole(found),
        None => Ok(default_priority(kind)),
    }
}

#[tactic(auto, unfolding(crate::specs::Values::lock_kind_at))]
pub fn lock_kind(value: &Value, key: &str) -> Result<LockKind, LineFault>
    ensures { Gives result (lock_kind_at key.now (view value.now)) }
{
    match text(value, key)? {
        "EXCLUSIVE" => Ok(LockKind::Exclusive),
        "SHARED" => Ok(LockKind::Shared),
        "APPEND" => Ok(LockKind::Append),
        "REPLACE" => Ok(LockKind::Replace),
        _ => Err(LineFault::BadCommand),
    }
}

#[tactic(auto, unfolding(crate::specs::Values::granularity_at))]
pub fn granularity(value: &Value, key: &str) -> Result<Granularity, LineFault>
    ensures { Gives result (granularity_at key.now (view value.now)) }
{
    match text(value, key)? {
        "MINUTE" => Ok(Granularity::Minute),
        "FIFTEEN_MINUTE" => Ok(Granularity::FifteenMinute),
        "HOUR" => Ok(Granularity::Hour),
        "DAY" => Ok(Granularity::Day),
        "WEEK" => Ok(Granularity::Week),
        "MONTH" => Ok(Granularity::Month),
        "YEAR" => Ok(Granularity::Year),
        _ => Err(LineFault::BadCommand),
    }
}

#[tactic(auto, unfolding(crate::specs::Values::id_in))]
pub fn id_in(alloc: Global, value: &Value) -> Result<SegId, LineFault>
    ensures { Gives result (id_in (view value.now)) }
{
    match value.as_str() {
        Some(text) => Ok(SegId::parse(alloc, text.as_bytes())?),
        None => Err(LineFault::BadCommand),
    }
}

// The id before in the sequence, none where the key is left out.
#[tactic(auto, unfolding(crate::specs::Values::some_in))]
pub fn previous(alloc: Global, value: &Value) -> Result<Option<SegId>, LineFault>
    ensures { Gives result (optional_of None (some_in id_in) (get (codes "previous") (view value.now))) }
{
    match value.get("previous") {
        Some(found) => Ok(Some(id_in(alloc, found)?)),
        None => Ok(None),
    }
}

fn slash(text: &[u8]) -> Option<usize>
    ensures value { result ≡ position (λ byte. byte == 47) text.now }
    ensures within { IfSome result (λ place. place < length text.now) }
{
    text.iter().position(|byte| *byte == b'/')
}

fn instant_of(text: &[u8]) -> Result<i64, LineFault>
    ensures { Gives result (instant_of text.now) }
{
    match parse(text) {
        Ok(ms) => Ok(ms),
        Err(_) => Err(LineFault::BadCommand),
    }
}

#[tactic(auto, unfolding(crate::specs::Values::milliseconds_of))]
fn instant_in(value: &Value) -> Result<i64, LineFault>
    ensures { Gives result (instant_in (view value.now)) }
{
    if let Some(text) = value.as_str() {
        return instant_of(text.as_bytes());
    }
    match value.as_i64() {
        Some(ms) if in_range(ms) => Ok(ms),
        _ => Err(LineFault::BadCommand),
    }
}

#[tactic(auto, unfolding(crate::specs::Values::instant_at))]
pub fn instant(value: &Value, key: &str) -> Result<i64, LineFault>
    ensures { Gives result (instant_at key.now (view value.now)) }
{
    match value.get(key) {
        Some(found) => instant_in(found),
        None => Err(LineFault::BadCommand),
    }
}

fn span_from(start: i64, end: i64) -> Result<Span, LineFault>
    ensures { Gives result (span_from start end) }
{
    match Span::new(start, end) {
        Ok(span) => Ok(span),
        Err(_) => Err(LineFault::BadCommand),
    }
}

#[tactic(auto, unfolding(crate::specs::Values::span_of))]
fn span_of(text: &[u8]) -> Result<Span, LineFault>
    ensures { Gives result (span_of text.now) }
{
    match slash(text) {
        Some(place) => {
            let start = instant_of(&text[..place])?;
            let end = instant_of(&text[place + 1..])?;
            span_from(start, end)
        }
        None => Err(LineFault::BadCommand),
    }
}

#[tactic(auto, unfolding(crate::specs::Values::span_in))]
pub fn span_in(value: &Value) -> Result<Span, LineFault>
    ensures { Gives result (span_in (view value.now)) }
{
    match value.as_str() {
        Some(text) => span_of(text.as_bytes()),
        None => Err(LineFault::BadCommand),
    }
}

#[tactic(auto, unfolding(crate::specs::Values::span_at))]
pub fn span(value: &Value, key: &str) -> Result<Span, LineFault>
    ensures { Gives result (span_at key.now (view value.now)) }
{
    let text = text(value, key)?;
    span_of(text.as_bytes())
}

#[tactic(auto, unfolding(crate::specs::Values::end_status_at))]
pub fn end_status(value: &Value, key: &str) -> Result<TaskStatus, LineFault>
    ensures { Gives result (end_status_at key.now (view value.now)) }
{
    match text(value, key)? {
        "SUCCESS" => Ok(TaskStatus::Success),
        "FAILED" => Ok(TaskStatus::Failed),
        _ => Err(LineFault::BadCommand),
    }
}

#[tactic(auto, unfolding(crate::specs::Values::whole_of))]
fn whole(value: &Value, most: u64) -> Result<u64, LineFault>
    ensures read { Gives result (whole_of most (view value.now)) }
    ensures within { IfOk result (λ n. n ≤ most) }
{
    match value.as_u64() {
        Some(number) if number <= most => Ok(number),
        _ => Err(LineFault::BadCommand),
    }
}

#[tactic(auto, unfolding(crate::specs::Values::whole_at))]
fn whole_under(value: &Value, key: &str, most: u64) -> Result<u64, LineFault>
    ensures read { Gives result (whole_at most key.now (view value.now)) }
    ensures within { IfOk result (λ n. n ≤ most) }
{
    match value.get(key) {
        Some(number) => whole(number, most),
        None => Err(LineFault::BadCommand),
    }
}

pub fn number(value: &Value, key: &str) -> Result<u64, LineFault>
    ensures { Gives result (whole_at 18446744073709551615 key.now (view value.now)) }
{
    whole_under(value, key, 18_446_744_073_709_551_615)
}

pub fn lock_number(value: &Value, key: &str) -> Result<u64, LineFault>
    ensures { Gives result (whole_at (number_limit - 1) key.now (view value.now)) }
{
    whole_under(value, key, NUMBER_LIMIT - 1)
}

fn short_whole(value: &Value) -> Result<u32, LineFault>
    ensures { Gives result (whole_of 4294967295 (view value.now)) }
{
    Ok(whole(value, 4_294_967_295)? as u32)
}

pub fn short_number(value: &Value, key: &str) -> Result<u32, LineFault>
    ensures { Gives result (whole_at 4294967295 key.now (view value.now)) }
{
    Ok(whole_under(value, key, 4_294_967_295)? as u32)
}

// A whole number, or the default where the key is left out.
pub fn count_or(value: &Value, key: &str, default: u32) -> Result<u32, LineFault>
    ensures { Gives result (optional_of default (whole_of 4294967295) (get key.now (view value.now))) }
{
    match value.get(key) {
        Some(found) => short_whole(found),
        None => Ok(default),
    }
}

fn duration_of(text: &[u8]) -> Result<i64, LineFault>
    ensures { Gives result (duration_of text.now) }
{
    match parse_duration(text) {
        Ok(ms) => Ok(ms),
        Err(_) => Err(LineFault::BadCommand),
    }
}

#[tactic(auto, unfolding(crate::specs::Values::duration_in))]
fn duration_in(value: &Value) -> Result<i64, LineFault>
    ensures { Gives result (duration_in (view value.now)) }
{
    match value.as_str() {
        Some(text) => duration_of(text.as_bytes()),
        None => Err(LineFault::BadCommand),
    }
}

// The milliseconds of a duration, or the default where the key is left out.
pub fn duration_or(value: &Value, key: &str, default: i64) -> Result<i64, LineFault>
    ensures { Gives result (optional_of default duration_in (get key.now (view value.now))) }
{
    match value.get(key) {
        Some(found) => duration_in(found),
        None => Ok(default),
    }
}
