//! Lists of numbers.
ghost use Rattle.std.specs.Prelude.{◌≡◌, ◌++◌, IfOk};
ghost use Rattle.book_rows.specs.Lists.{ascending, merged};

use crate::OutOfMemory;
use lock_posse::sorted;

pub fn joined(mut front: Vec<u64>, mut back: Vec<u64>) -> Result<Vec<u64>, OutOfMemory>
    ensures { IfOk result (λ v. v.items ≡ front.items ++ back.items) }
{
    front.append(&mut back)?;
    Ok(front)
}

pub fn merged(front: Vec<u64>, back: Vec<u64>) -> Result<Vec<u64>, OutOfMemory>
    ensures { IfOk result (λ v. v.items ≡ merged front.items (ascending back.items)) }
{
    sorted(joined(front, back)?)
}
