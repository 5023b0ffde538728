//! What is loaded.
ghost use Rattle.std.specs.Prelude.{◌∷◌, ◌≡◌, [], IfOk, List, None, Some};

use host_desk::OutOfMemory;
use std::alloc::Global;

/// The items of a load, one after another.
pub trait Items {
    type Item: Drop;

    /// Those that are left.
    ghost left: { Self → List Self.Item };

    /// Takes the first of them. The error is want of memory, after which nothing is known of those that are left.
    fn next(&mut self, alloc: Global) -> Result<Option<Self::Item>, OutOfMemory>
        ensures some { IfOk result (λ o. (item : Self.Item) → o ≡ Some item → left self.old ≡ item ∷ left self.new) }
        ensures none { IfOk result (λ o. o ≡ None → left self.old ≡ []) };
}
