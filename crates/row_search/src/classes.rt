//! Classes of rows of a source, by number: each stands under its spans.
ghost use Rattle.std.specs.Prelude.{◌≡◌};
ghost use Rattle.span_keys.specs.Classes.{span_key};
ghost use Rattle.row_search.specs.Classes.{class_digest};

use iv_span::Span;
use row_index::{mix, mix_bytes};
use seg_names::Name;
use span_keys::span_key;

/// A digest of a class.
pub fn class_digest(source: &Name, number: u64) -> u64
    ensures { result ≡ class_digest source.now number }
{
    mix(mix_bytes(10, source.bytes()), number)
}

/// The key of a row of a class, by its span.
pub fn class_key(source: &Name, number: u64, span: Span) -> (u64, i64)
    ensures { result ≡ span_key (class_digest source.now number) span }
{
    span_key(class_digest(source, number), span)
}
