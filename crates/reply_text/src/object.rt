//! Objects, made member by member.
ghost use Rattle.std.specs.Prelude.{◌≡◌, true, IfOk};
ghost use Rattle.std.specs.List.{list_all};
ghost use Rattle.serde_json.specs.Data.{boolean, object, string, no_members, put as with_member};
ghost use Rattle.serde_json.specs.View.{members_view, view};
ghost use Rattle.iv_time.specs.Range.{is_instant};
ghost use Rattle.reply_text.specs.Objects.{count_data, instant_data, list_data, span_data};
ghost use Rattle.book_rows.specs.Fits.{span_fits};

use crate::OutOfMemory;
use crate::shown::{Shown, list};
use crate::texts::{of_instant, of_span};
use iv_span::Span;
use serde_json::{Map, Value, put};
use std::alloc::Global;

/// An object that is being made. The keys of its members ascend.
#[derive(Drop)]
pub struct Object {
    alloc: Global,
    members: Map<String, Value>,
}

impl Object {
    /// An object that has no member yet.
    pub fn new(alloc: Global) -> Object
        ensures { members_view result.members.entries ≡ no_members }
    {
        Object {
            alloc,
            members: Map::new(alloc),
        }
    }

    /// The object with this member. Each call that adds one fails only for want of memory.
    pub fn with(mut self, key: &str, value: Value) -> Result<Object, OutOfMemory>
        ensures { IfOk result (λ object. members_view object.members.entries ≡ with_member key.now (view value) (members_view self.members.entries)) }
    {
        put(&mut self.members, self.alloc, key, value)?;
        Ok(self)
    }

    /// With a text.
    pub fn text(self, key: &str, text: &str) -> Result<Object, OutOfMemory>
        ensures { IfOk result (λ object. members_view object.members.entries ≡ with_member key.now (string text.now) (members_view self.members.entries)) }
    {
        let value = Value::try_from_str(self.alloc, text)?;
        self.with(key, value)
    }

    /// With a whole number.
    pub fn count(self, key: &str, count: u64) -> Result<Object, OutOfMemory>
        ensures { IfOk result (λ object. members_view object.members.entries ≡ with_member key.now (count_data count) (members_view self.members.entries)) }
    {
        self.with(key, Value::from(count))
    }

    /// With a yes or no.
    pub fn flag(self, key: &str, flag: bool) -> Result<Object, OutOfMemory>
        ensures { IfOk result (λ object. members_view object.members.entries ≡ with_member key.now (boolean flag) (members_view self.members.entries)) }
    {
        self.with(key, Value::Bool(flag))
    }

    /// With an instant in full.
    pub fn instant(self, key: &str, ms: i64) -> Result<Object, OutOfMemory>
        requires { is_instant ms ≡ true }
        ensures { IfOk result (λ object. members_view object.members.entries ≡ with_member key.now (instant_data ms) (members_view self.members.entries)) }
    {
        let value = of_instant(self.alloc, ms)?;
        self.with(key, value)
    }

    /// With a span in full.
    pub fn span(self, key: &str, span: Span) -> Result<Object, OutOfMemory>
        requires { span_fits span ≡ true }
        ensures { IfOk result (λ object. members_view object.members.entries ≡ with_member key.now (span_data span) (members_view self.members.entries)) }
    {
        let value = of_span(self.alloc, span)?;
        self.with(key, value)
    }

    /// With a part that has a JSON of its own.
    pub fn part<T: Shown>(self, key: &str, part: &T) -> Result<Object, OutOfMemory>
        requires { T.fits part.now ≡ true }
        ensures { IfOk result (λ object. members_view object.members.entries ≡ with_member key.now (T.data_of part.now) (members_view self.members.entries)) }
    {
        let value = part.to_json(self.alloc)?;
        self.with(key, value)
    }

    /// With a list of such parts.
    pub fn parts<T: Shown>(self, key: &str, parts: &[T]) -> Result<Object, OutOfMemory>
        requires { list_all T.fits parts.now ≡ true }
        ensures { IfOk result (λ object. members_view object.members.entries ≡ with_member key.now (list_data T.data_of parts.now) (members_view self.members.entries)) }
    {
        let value = list(self.alloc, parts)?;
        self.with(key, value)
    }

    /// The object as JSON.
    pub fn value(self) -> Value
        ensures { view result ≡ object (members_view self.members.entries) }
    {
        Value::Object(self.members)
    }
}
