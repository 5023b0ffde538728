//! The parts of a reply that are objects.
ghost use Rattle.std.specs.Prelude.{◌≡◌, codes, true, IfOk};
ghost use Rattle.serde_json.specs.Data.{string, put as with_member};
ghost use Rattle.serde_json.specs.View.{members_view};
ghost use Rattle.reply_text.specs.Spelling.{kind_word};
ghost use Rattle.reply_text.specs.Objects.{instant_data, span_data, offset_data, offset_line_data, task_data, lock_data, sequence_data, timeline_data, contents_data};
ghost use Rattle.book_rows.specs.Fits.{lock_fits, timeline_fits, contents_fits};

use crate::OutOfMemory;
use crate::object::Object;
use crate::shown::Shown;
use crate::words::{of_kind, of_state, of_status};
use book_rows::{ContentsPart, LockLine, Offset, OffsetLine, SequenceLine, TaskLine, TimelinePart};
use serde_json::Value;
use std::alloc::Global;

impl Shown for Offset {
    ghost data_of = { offset_data };

    ghost fits = { λ _. true };

    fn to_json(&self, alloc: Global) -> Result<Value, OutOfMemory> {
        Ok(
            Object::new(alloc)
                .count("offset", self.offset)?
                .count("partition", u64::from(self.partition))?
                .value(),
        )
    }
}

impl Shown for OffsetLine {
    ghost data_of = { offset_line_data };

    ghost fits = { λ _. true };

    fn to_json(&self, alloc: Global) -> Result<Value, OutOfMemory> {
        Ok(
            Object::new(alloc)
                .count("offset", self.offset)?
                .count("partition", u64::from(self.partition))?
                .text("stream", self.stream.as_str())?
                .value(),
        )
    }
}

impl Shown for TaskLine {
    ghost data_of = { task_data };

    ghost fits = { λ _. true };

    fn to_json(&self, alloc: Global) -> Result<Value, OutOfMemory> {
        Ok(
            Object::new(alloc)
                .text("group", self.group.as_str())?
                .count("priority", u64::from(self.priority))?
                .text("source", self.source.as_str())?
                .text("status", of_status(self.status))?
                .text("task", self.task.as_str())?
                .value(),
        )
    }
}

// With the span of a lock, its type and its version.
fn with_place(object: Object, line: &LockLine) -> Result<Object, OutOfMemory>
    requires { lock_fits line.now ≡ true }
    ensures { IfOk result (λ o. members_view o.members.entries
        ≡ with_member (codes "version") (instant_data line.now.version)
        (with_member (codes "type") (string (kind_word line.now.lock_kind))
        (with_member (codes "span") (span_data line.now.span) (members_view object.members.entries)))) }
{
    object
        .span("span", line.span)?
        .text("type", of_kind(line.lock_kind))?
        .instant("version", line.version)
}

impl Shown for LockLine {
    ghost data_of = { lock_data };

    ghost fits = { lock_fits };

    #[tactic(auto, using(crate::proofs::Fits::all_fit))]
    fn to_json(&self, alloc: Global) -> Result<Value, OutOfMemory> {
        let object = Object::new(alloc)
            .text("group", self.group.as_str())?
            .count("lock", self.lock)?
            .parts("members", self.members.as_slice())?
            .count("priority", u64::from(self.priority))?
            .flag("revoked", self.revoked)?
            .text("source", self.source.as_str())?;
        Ok(with_place(object, self)?.value())
    }
}

impl Shown for SequenceLine {
    ghost data_of = { sequence_data };

    ghost fits = { λ _. true };

    #[tactic(auto, using(crate::proofs::Fits::all_fit))]
    fn to_json(&self, alloc: Global) -> Result<Value, OutOfMemory> {
        Ok(
            Object::new(alloc)
                .parts("ends", self.ends.as_slice())?
                .text("name", self.name.as_str())?
                .parts("starts", self.starts.as_slice())?
                .text("state", of_state(self.state))?
                .value(),
        )
    }
}

impl Shown for TimelinePart {
    ghost data_of = { timeline_data };

    ghost fits = { timeline_fits };

    fn to_json(&self, alloc: Global) -> Result<Value, OutOfMemory> {
        Ok(
            Object::new(alloc)
                .parts("ids", self.ids.as_slice())?
                .span("span", self.span)?
                .instant("version", self.version)?
                .value(),
        )
    }
}

impl Shown for ContentsPart {
    ghost data_of = { contents_data };

    ghost fits = { contents_fits };

    fn to_json(&self, alloc: Global) -> Result<Value, OutOfMemory> {
        Ok(
            Object::new(alloc)
                .parts("roots", self.roots.as_slice())?
                .span("span", self.span)?
                .value(),
        )
    }
}
