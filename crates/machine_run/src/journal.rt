//! The store as a value.
ghost use Rattle.std.specs.Prelude.{◌≡◌, ◌≤◌, ℕ, List, [], Some, IfOk, IfErr, OnOk, IsErrOf, IsTrue};
ghost use Rattle.host_desk.specs.Desk.{Desk, IsOpen, KeepsCounts};
ghost use Rattle.machine_run.specs.Stores.{Content, with_body, HasRoom};
ghost use Rattle.machine_run.specs.Steps.{BetweenSince, Storing, LacksRoom, BatchStop, IsJournal};

use crate::stop::Stop;
use gate_log::Frame;
use host_desk::Host;

/// A store that is open in the files of pair 0. Which of them it writes is its own affair.
pub trait Journal<H: Host>: Drop {
    /// The store is open on this host, and holds this.
    ghost holds: { Self → Content → Desk → Type 0 };

    /// Which bytes its files have where it held the first and holds the second, by how they were and are.
    ghost kept: { Content → Content → (ℕ → List ℕ) → (ℕ → List ℕ) → Type 0 };

    /// The length in bytes above which no record is added.
    ghost limit: { Self → ℕ };

    /// Adds a record. It takes no memory.
    fn append(self, host: &mut H, frame: &Frame) -> Result<Self, Stop>
        requires file { IsOpen (H.desk host.old) 0 }
        requires store { IsTrue H.tells → (c : Content) × holds self c (H.desk host.old) }
        ensures opened { (H.desk host.new).opened ≡ (H.desk host.old).opened }
        ensures counts { KeepsCounts (H.desk host.old) (H.desk host.new) }
        ensures any_moment { IsTrue H.tells → BetweenSince (holds self) (Some frame.now) [] (H.desk host.old) (H.desk host.new) }
        ensures now { IsTrue H.tells → (c : Content) → holds self c (H.desk host.old) → Storing c (Some frame.now) (H.desk host.old) (H.desk host.new).said (H.desk host.new).seen }
        ensures said { IsTrue H.tells → (H.desk host.new).said ≡ (H.desk host.old).said }
        ensures others { IsTrue H.tells → (i : ℕ) (f : List ℕ) → 2 ≤ i → (H.desk host.new).left i f → (H.desk host.old).left i f }
        ensures limit { IfOk result (λ after. limit after ≡ limit self) }
        ensures store { IsTrue H.tells → IfOk result (λ after. (c : Content) → holds self c (H.desk host.old) → holds after (with_body c frame.now) (H.desk host.new)) }
        ensures keeps { IsTrue H.tells → OnOk result ((c : Content) → holds self c (H.desk host.old) → kept c (with_body c frame.now) (H.desk host.old).seen (H.desk host.new).seen) }
        ensures room { IsTrue H.tells → OnOk result ((c : Content) → holds self c (H.desk host.old) → HasRoom (limit self) c (Some frame.now)) }
        ensures stop { IfErr result (BatchStop (LacksRoom H.tells (holds self) (limit self) (Some frame.now) (H.desk host.old)) ⊥ (H.desk host.old) (H.desk host.new)) }
        ensures memory { IsErrOf result Stop.NoMemory → ⊥ }
        ensures full { (n : ℕ) → IsErrOf result (Stop.StoreFull n) → host.new ≡ host.old };

    /// The laws of what it holds.
    ghost laws: { IsTrue H.tells → IsJournal H.desk H.tells holds kept };
}
