//! Lists put in order.
ghost use Rattle.std.specs.Prelude.{◌≡◌, length, OnOk, OnErr};
ghost use Rattle.command_forms.specs.Sorted.{ordered, less_by, IsExact};

use crate::OutOfMemory;

/// Puts the items in ascending order. The error is want of memory, and leaves them as they were.
pub fn put_in_order<T: Ord>(items: &mut Vec<T>) -> Result<(), OutOfMemory>
    requires { IsExact (less_by T.cmp) }
    ensures ok { OnOk result (items.new.items ≡ ordered (less_by T.cmp) items.old.items) }
    ensures len { length items.new.items ≡ length items.old.items }
    ensures err { OnErr result (items.new.items ≡ items.old.items) }
{
    items.sort()
}
