//! The line of a reply.
ghost use Rattle.std.specs.Prelude.{◌≡◌, ◌++◌, ◌∷◌, [], true, false, IfOk};
ghost use Rattle.serde_json.specs.View.{view};
ghost use Rattle.serde_json.specs.Written.{compact_text, has_float};
ghost use Rattle.reply_text.specs.Lines.{TextOf, IsOneLine};
ghost use Rattle.book_rows.specs.Fits.{reply_fits};

use crate::OutOfMemory;
use crate::shown::Shown;
use book_rows::Reply;
use serde_json::Value;
use std::alloc::Global;

fn line_of(alloc: Global, value: &Value) -> Result<Vec<u8>, OutOfMemory>
    requires { has_float (view value.now) ≡ false }
    ensures { IfOk result (λ line. line.items ≡ compact_text (view value.now) ++ 10 ∷ []) }
{
    let mut line = value.to_vec(alloc)?;
    line.push(b'\n')?;
    Ok(line)
}

/// The line of a reply, with its byte 10. The reply's instants are those of the years 0000 to
/// 9999, in milliseconds from the epoch. The error is want of memory.
#[tactic(auto, using(crate::proofs::Floats::no_float))]
pub fn reply_line(alloc: Global, reply: &Reply) -> Result<Vec<u8>, OutOfMemory>
    requires { reply_fits reply.now ≡ true }
    ensures text { IfOk result (λ line. line.items ≡ TextOf reply.now) }
    ensures one { IfOk result (λ line. IsOneLine line.items) }
{
    let value = reply.to_json(alloc)?;
    Ok(line_of(alloc, &value)?)
}
