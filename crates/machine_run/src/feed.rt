//! What a machine is run on.
ghost use Rattle.std.specs.Prelude.{◌≡◌, ◌∷◌, ◌++◌, [], ◌<◌, ℕ, List, Bool, true, false, IfOk, IfErr, OnOk, IsTrue};
ghost use Rattle.machine_run.specs.Fold.{EndedBy};
ghost use Rattle.machine_run.specs.Steps.{BreaksBehind, FeedStop, IsFeed};

use crate::stop::Stop;

/// Items, one after another, out of a source.
pub trait Feed<S> {
    ghost use Rattle.machine_run.specs.declared.stop.Stop.{Stop};

    type Item;

    /// Whether the items left are told. A feed of this type tells them always or never.
    ghost tells: { Bool };

    /// The items that are left.
    ghost left: { Self → S → List Self.Item };

    /// The item that was read last.
    ghost item: { Self → Self.Item };

    /// How much is still to be done, whatever it tells.
    ghost work: { Self → ℕ };

    /// The feed can be advanced on this source.
    ghost fits: { Self → S → Type 0 };

    /// What is known of some calls, by the feed and the source before and after.
    ghost goes: { Self → S → Self → S → Type 0 };

    /// Why no item came in the last of some calls.
    ghost fails: { Self → S → Self → S → Stop → Type 0 };

    /// Where the items break off: of this feed and source just these items were read, and the source is left so.
    ghost breaks: { Self → S → S → List Self.Item → Type 0 };

    /// What is known at the end of the items.
    ghost ends: { Self → S → Type 0 };

    /// Reads the next item. False at the end.
    fn advance(&mut self, source: &mut S) -> Result<bool, Stop>
        requires { fits self.old source.old }
        ensures fits { OnOk result (fits self.new source.new) }
        ensures goes { goes self.old source.old self.new source.new }
        ensures item { IsTrue tells → IfOk result (λ more. more ≡ true → left self.old source.old ≡ item self.new ∷ left self.new source.new) }
        ensures read { IsTrue tells → IfOk result (λ more. more ≡ true → BreaksBehind (breaks self.old source.old) (item self.new) (breaks self.new source.new)) }
        ensures nearer { IfOk result (λ more. more ≡ true → work self.new < work self.old) }
        ensures none { IsTrue tells → IfOk result (λ more. more ≡ false → left self.old source.old ≡ []) }
        ensures end { IfOk result (λ more. more ≡ false → ends self.new source.new) }
        ensures stop { IfErr result (FeedStop (fails self.old source.old self.new source.new)) }
        ensures broken { IsTrue tells → IfErr result (λ stop. EndedBy stop (breaks self.old source.old source.new [])) };

    /// The item that was read last.
    fn item(&self) -> &Self::Item
        ensures { result.now ≡ item self.now };

    /// What its calls say adds up.
    ghost adds_up: { IsFeed goes fails };
}
