//! Instants, spans, ids and numbers as JSON.
ghost use Rattle.std.specs.Prelude.{◌≡◌, true, IfOk};
ghost use Rattle.std.specs.Str.{IsUtf8};
ghost use Rattle.serde_json.specs.Data.{string};
ghost use Rattle.serde_json.specs.View.{view};
ghost use Rattle.iv_time.specs.Range.{is_instant};
ghost use Rattle.reply_text.specs.Objects.{instant_data, span_text, span_data};
ghost use Rattle.book_rows.specs.Fits.{span_fits};

use crate::OutOfMemory;
use crate::shown::Shown;
use iv_span::Span;
use iv_time::write;
use seg_names::{SegId, TaskId};
use serde_json::Value;
use std::alloc::Global;
use std::str;

fn text(alloc: Global, bytes: &[u8]) -> Result<Value, OutOfMemory>
    requires { IsUtf8 bytes.now }
    ensures { IfOk result (λ value. view value ≡ string bytes.now) }
{
    Value::try_from_str(alloc, str::from_utf8(bytes).unwrap())
}

/// An instant in full.
#[tactic(auto, using(crate::proofs::Ascii::instant_utf8, crate::proofs::Ascii::instant_in))]
pub fn of_instant(alloc: Global, ms: i64) -> Result<Value, OutOfMemory>
    requires { is_instant ms ≡ true }
    ensures { IfOk result (λ value. view value ≡ instant_data ms) }
{
    text(alloc, &write(ms))
}

#[tactic(auto, using(crate::proofs::Ascii::instant_in))]
fn span_bytes(alloc: Global, span: Span) -> Result<Vec<u8>, OutOfMemory>
    requires { span_fits span ≡ true }
    ensures { IfOk result (λ bytes. bytes.items ≡ span_text span) }
{
    let mut bytes = Vec::from_slice(alloc, &write(span.start()))?;
    bytes.push(b'/')?;
    bytes.extend_from_slice(&write(span.end()))?;
    Ok(bytes)
}

/// The two ends in full, with a slash between them.
#[tactic(auto, using(crate::proofs::Ascii::span_utf8))]
pub fn of_span(alloc: Global, span: Span) -> Result<Value, OutOfMemory>
    requires { span_fits span ≡ true }
    ensures { IfOk result (λ value. view value ≡ span_data span) }
{
    text(alloc, &span_bytes(alloc, span)?)
}

impl Shown for SegId {
    ghost use Rattle.reply_text.specs.Objects.{id_data};
    ghost use Rattle.book_rows.specs.Fits.{id_fits};

    ghost data_of = { id_data };

    ghost fits = { id_fits };

    #[tactic(auto, using(crate::proofs::Ascii::id_utf8))]
    fn to_json(&self, alloc: Global) -> Result<Value, OutOfMemory> {
        text(alloc, &self.write(alloc)?)
    }
}

impl Shown for TaskId {
    ghost use Rattle.std.specs.Prelude.{true};
    ghost use Rattle.serde_json.specs.Data.{string};

    ghost data_of = { string };

    ghost fits = { λ _. true };

    fn to_json(&self, alloc: Global) -> Result<Value, OutOfMemory> {
        Value::try_from_str(alloc, self.as_str())
    }
}

impl Shown for u64 {
    ghost use Rattle.std.specs.Prelude.{true};
    ghost use Rattle.reply_text.specs.Objects.{count_data};

    ghost data_of = { count_data };

    ghost fits = { λ _. true };

    fn to_json(&self, _alloc: Global) -> Result<Value, OutOfMemory> {
        Ok(Value::from(*self))
    }
}
