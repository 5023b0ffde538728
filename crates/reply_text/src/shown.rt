//! What has a JSON, and lists of it.
ghost use Rattle.std.specs.Prelude.{◌≡◌, Bool, true, map, IfOk};
ghost use Rattle.std.specs.List.{list_all};
ghost use Rattle.serde_json.specs.Data.{Data};
ghost use Rattle.serde_json.specs.View.{view};
ghost use Rattle.reply_text.specs.Objects.{list_data};

use crate::OutOfMemory;
use serde_json::Value;
use std::alloc::Global;

/// A part of a reply, which has a JSON where its instants have texts.
pub trait Shown {
    /// Its JSON.
    ghost data_of: { Self → Data };

    /// Whether its instants have texts.
    ghost fits: { Self → Bool };

    /// The JSON. The error is want of memory.
    fn to_json(&self, alloc: Global) -> Result<Value, OutOfMemory>
        requires { fits self.now ≡ true }
        ensures { IfOk result (λ value. view value ≡ data_of self.now) };
}

fn values<T: Shown>(alloc: Global, items: &[T]) -> Result<Vec<Value>, OutOfMemory>
    requires { list_all T.fits items.now ≡ true }
    ensures { IfOk result (λ values. map view values.items ≡ map T.data_of items.now) }
{
    let mut values = Vec::new(alloc);
    for item in items {
        values.push(item.to_json(alloc)?)?;
    }
    Ok(values)
}

/// The items as a JSON list, in their order.
pub fn list<T: Shown>(alloc: Global, items: &[T]) -> Result<Value, OutOfMemory>
    requires { list_all T.fits items.now ≡ true }
    ensures { IfOk result (λ value. view value ≡ list_data T.data_of items.now) }
{
    Ok(Value::Array(values(alloc, items)?))
}
