//! What loads.
ghost use Rattle.std.specs.Prelude.{◌++◌, ◌≡◌, [], Bool, IfOk, List, OnOk, ℕ};
ghost use Rattle.machine_run.specs.Rules.{bytes_of};

use crate::tally::Tally;
use host_desk::OutOfMemory;
use machine_run::Machine;
use std::alloc::Global;

/// A machine that replies nothing to an item, and puts out one line about all of them.
pub trait Loader: Machine {
    ghost use Rattle.load_run.specs.declared.tally.Tally.{Tally};

    /// What holds of the items that it takes.
    ghost takes: { Self.Item → Type 0 };

    /// Whether an item is refused.
    ghost refuses: { Self → Self.Item → Bool };

    /// The line about these items, on the state behind them.
    ghost text: { Self → Tally → List ℕ };

    /// Decides an item and goes on to the next state. It adds what tells the change behind the changes, and answers
    /// whether the item is refused. After an error nothing is known of the state and the changes.
    fn take(
        &mut self,
        alloc: Global,
        item: &Self::Item,
        changes: &mut Vec<u8>,
    ) -> Result<bool, OutOfMemory>
        requires { takes item.now }
        ensures refused { IfOk result (λ r. r ≡ refuses self.old item.now) }
        ensures changes { OnOk result (changes.new.items ≡ changes.old.items ++ bytes_of (Self.rules.body self.old item.now)) }
        ensures next { OnOk result (self.new ≡ Self.rules.next self.old item.now) };

    /// The line about these items. Of the state nothing is known then.
    fn line(&mut self, alloc: Global, tally: Tally) -> Result<Vec<u8>, OutOfMemory>
        ensures { IfOk result (λ line. line.items ≡ text self.old tally) };

    /// It replies nothing.
    ghost silent: { (state : Self) (item : Self.Item) → Self.rules.reply state item ≡ [] };
}
