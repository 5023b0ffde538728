//! What is run.
ghost use Rattle.std.specs.Prelude.{◌≡◌, ◌++◌, ℕ, List, true, false, Some, None, IfOk, OnOk};
ghost use Rattle.machine_run.specs.Rules.{Rules, IsKeptByRecords, HasGoodStates, bytes_of};

use host_desk::OutOfMemory;
use std::alloc::Global;

/// A machine that answers one item after another. A clause sees its state.
pub trait Machine {
    /// What it answers.
    type Item;

    /// Its rules.
    ghost rules: { Rules Self Self.Item };

    /// Decides an item and goes on to the next state. It adds what tells the change behind the body, and the reply
    /// behind the replies. After an error nothing is known of the state, the body and the replies.
    fn decide(
        &mut self,
        alloc: Global,
        item: &Self::Item,
        body: &mut Vec<u8>,
        replies: &mut Vec<u8>,
    ) -> Result<(), OutOfMemory>
        ensures reply { OnOk result (replies.new.items ≡ replies.old.items ++ rules.reply self.old item.now) }
        ensures body { OnOk result (body.new.items ≡ body.old.items ++ bytes_of (rules.body self.old item.now)) }
        ensures next { OnOk result (self.new ≡ rules.next self.old item.now) };

    /// How much an item counts in a batch.
    fn weigh(&self, item: &Self::Item) -> u64
        ensures { result ≡ rules.weigh item.now };

    /// The most bytes of a snapshot. More that a file tells of are refused unread.
    fn longest(&self) -> u64
        ensures { result ≡ rules.longest };

    /// Goes on from the first state to that of a snapshot, and answers whether the bytes are one. No bytes are the
    /// snapshot of the first state. Where they aren't, and after an error, nothing is known of the state.
    fn load(&mut self, alloc: Global, snapshot: &[u8]) -> Result<bool, OutOfMemory>
        requires { self.old ≡ rules.first }
        ensures yes { IfOk result (λ good. good ≡ true → rules.load snapshot.now ≡ Some self.new) }
        ensures no { IfOk result (λ good. good ≡ false → rules.load snapshot.now ≡ None) };

    /// Goes on to the state after a record, and answers whether the bytes are one. Where they aren't, and after an
    /// error, nothing is known of the state.
    fn restore(&mut self, alloc: Global, body: &[u8]) -> Result<bool, OutOfMemory>
        ensures yes { IfOk result (λ good. good ≡ true → rules.restore self.old body.now ≡ Some self.new) }
        ensures no { IfOk result (λ good. good ≡ false → rules.restore self.old body.now ≡ None) };

    /// The records tell the changes.
    ghost kept: { IsKeptByRecords rules };

    /// Each state that a store stands for is good.
    ghost keeps_good: { HasGoodStates rules };
}
