//! A batch is stored, and answered.
ghost use Rattle.std.specs.Prelude.{◌≡◌, ◌⊎◌, ◌<◌, ◌≤◌, ◌++◌, List, [], ℕ, Option, length, IfOk, IfErr, OnOk, IsErr, IsErrOf, IsTrue};
ghost use Rattle.host_desk.specs.Desk.{IsOpen, KeepsCounts};
ghost use Rattle.machine_run.specs.Rules.{body_of};
ghost use Rattle.machine_run.specs.Stores.{Content, with_record, HasRoom};
ghost use Rattle.machine_run.specs.Steps.{Between, BetweenSince, Storing, LacksRoom, CutsShort, BatchStop};

use crate::journal::Journal;
use crate::saying::say_all;
use crate::stop::Stop;
use gate_log::{Frame, make_frame};
use host_desk::{Host, OutOfMemory};
use std::alloc::{AllocError, Global};

// Adds the record to the store, where there is one.
fn store_record<H: Host, J: Journal<H>>(
    host: &mut H,
    journal: J,
    entry: &Option<Frame>,
) -> Result<J, Stop>
    requires file { IsOpen (H.desk host.old) 0 }
    requires store { IsTrue H.tells → (c : Content) × J.holds journal c (H.desk host.old) }
    ensures opened { (H.desk host.new).opened ≡ (H.desk host.old).opened }
    ensures counts { KeepsCounts (H.desk host.old) (H.desk host.new) }
    ensures any_moment { IsTrue H.tells → BetweenSince (J.holds journal) entry.now [] (H.desk host.old) (H.desk host.new) }
    ensures now { IsTrue H.tells → (c : Content) → J.holds journal c (H.desk host.old) → Storing c entry.now (H.desk host.old) (H.desk host.new).said (H.desk host.new).seen }
    ensures said { IsTrue H.tells → (H.desk host.new).said ≡ (H.desk host.old).said }
    ensures others { IsTrue H.tells → (i : ℕ) (f : List ℕ) → 2 ≤ i → (H.desk host.new).left i f → (H.desk host.old).left i f }
    ensures limit { IfOk result (λ after. J.limit after ≡ J.limit journal) }
    ensures store { IsTrue H.tells → IfOk result (λ after. (c : Content) → J.holds journal c (H.desk host.old) → J.holds after (with_record c entry.now) (H.desk host.new)) }
    ensures keeps { IsTrue H.tells → OnOk result ((c : Content) → J.holds journal c (H.desk host.old) → J.kept c (with_record c entry.now) (H.desk host.old).seen (H.desk host.new).seen) }
    ensures room { IsTrue H.tells → OnOk result ((c : Content) → J.holds journal c (H.desk host.old) → HasRoom (J.limit journal) c entry.now) }
    ensures stop { IfErr result (BatchStop (LacksRoom H.tells (J.holds journal) (J.limit journal) entry.now (H.desk host.old)) ⊥ (H.desk host.old) (H.desk host.new)) }
    ensures memory { IsErrOf result Stop.NoMemory → ⊥ }
    ensures full { (n : ℕ) → IsErrOf result (Stop.StoreFull n) → host.new ≡ host.old }
{
    match entry {
        None => Ok(journal),
        Some(frame) => journal.append(host, frame),
    }
}

/// Stores the record of a batch, and puts out its replies then. It takes no memory.
pub fn carry_out<H: Host, J: Journal<H>>(
    host: &mut H,
    journal: J,
    entry: &Option<Frame>,
    replies: &[u8],
) -> Result<J, Stop>
    requires file { IsOpen (H.desk host.old) 0 }
    requires store { IsTrue H.tells → (c : Content) × J.holds journal c (H.desk host.old) }
    ensures opened { (H.desk host.new).opened ≡ (H.desk host.old).opened }
    ensures counts { KeepsCounts (H.desk host.old) (H.desk host.new) }

    // A stop at any moment of the call, and what it leaves itself.
    ensures any_moment { IsTrue H.tells → BetweenSince (J.holds journal) entry.now replies.now (H.desk host.old) (H.desk host.new) }
    ensures now { IsTrue H.tells → (c : Content) → J.holds journal c (H.desk host.old) → Between c entry.now replies.now (H.desk host.old) (H.desk host.new).said (H.desk host.new).seen }

    ensures said { IsTrue H.tells → OnOk result ((H.desk host.new).said ≡ (H.desk host.old).said ++ replies.now) }
    ensures limit { IfOk result (λ after. J.limit after ≡ J.limit journal) }
    ensures store { IsTrue H.tells → IfOk result (λ after. (c : Content) → J.holds journal c (H.desk host.old) → J.holds after (with_record c entry.now) (H.desk host.new)) }
    ensures keeps { IsTrue H.tells → OnOk result ((c : Content) → J.holds journal c (H.desk host.old) → J.kept c (with_record c entry.now) (H.desk host.old).seen (H.desk host.new).seen) }
    ensures room { IsTrue H.tells → OnOk result ((c : Content) → J.holds journal c (H.desk host.old) → HasRoom (J.limit journal) c entry.now) }
    ensures stop { let room = LacksRoom H.tells (J.holds journal) (J.limit journal) entry.now (H.desk host.old) in
        let cut = CutsShort H.tells (J.holds journal) J.kept (J.limit journal) entry.now replies.now (H.desk host.old) (H.desk host.new) in
        IfErr result (BatchStop room cut (H.desk host.old) (H.desk host.new)) }
    ensures memory { IsErrOf result Stop.NoMemory → ⊥ }
    ensures full { (n : ℕ) → IsErrOf result (Stop.StoreFull n) → host.new ≡ host.old }
{
    let after = store_record(host, journal, entry)?;
    match say_all(host, replies) {
        Ok(()) => Ok(after),
        Err(_) => Err(Stop::OutputFault),
    }
}

// The record of a batch's changes, if there are some. Above the bytes of a record, memory lacks.
fn entry_of(alloc: Global, changes: &[u8]) -> Result<Option<Frame>, OutOfMemory>
    ensures entry { IfOk result (λ entry. entry ≡ body_of changes.now) }
    ensures some { IsErr result → 0 < length changes.now }
{
    if changes.is_empty() {
        return Ok(None);
    }
    if changes.len() > 4294967295 {
        return Err(AllocError);
    }
    Ok(Some(make_frame(alloc, changes)?))
}

/// Stores what tells a batch's changes as one record, and puts out its replies then. All memory is taken before the
/// first write.
pub fn store_batch<H: Host, J: Journal<H>>(
    alloc: Global,
    host: &mut H,
    journal: J,
    changes: &[u8],
    replies: &[u8],
) -> Result<J, Stop>
    requires file { IsOpen (H.desk host.old) 0 }
    requires store { IsTrue H.tells → (c : Content) × J.holds journal c (H.desk host.old) }
    ensures opened { (H.desk host.new).opened ≡ (H.desk host.old).opened }
    ensures counts { KeepsCounts (H.desk host.old) (H.desk host.new) }
    ensures any_moment { IsTrue H.tells → BetweenSince (J.holds journal) (body_of changes.now) replies.now (H.desk host.old) (H.desk host.new) }
    ensures now { IsTrue H.tells → (c : Content) → J.holds journal c (H.desk host.old) → Between c (body_of changes.now) replies.now (H.desk host.old) (H.desk host.new).said (H.desk host.new).seen }
    ensures said { IsTrue H.tells → OnOk result ((H.desk host.new).said ≡ (H.desk host.old).said ++ replies.now) }
    ensures limit { IfOk result (λ after. J.limit after ≡ J.limit journal) }
    ensures store { IsTrue H.tells → IfOk result (λ after. (c : Content) → J.holds journal c (H.desk host.old) → J.holds after (with_record c (body_of changes.now)) (H.desk host.new)) }
    ensures keeps { IsTrue H.tells → OnOk result ((c : Content) → J.holds journal c (H.desk host.old) → J.kept c (with_record c (body_of changes.now)) (H.desk host.old).seen (H.desk host.new).seen) }
    ensures room { IsTrue H.tells → OnOk result ((c : Content) → J.holds journal c (H.desk host.old) → HasRoom (J.limit journal) c (body_of changes.now)) }
    ensures stop { let room = LacksRoom H.tells (J.holds journal) (J.limit journal) (body_of changes.now) (H.desk host.old) in
        let cut = CutsShort H.tells (J.holds journal) J.kept (J.limit journal) (body_of changes.now) replies.now (H.desk host.old) (H.desk host.new) in
        IfErr result (BatchStop room cut (H.desk host.old) (H.desk host.new)) }

    // Want of memory and a full log are found before anything is written or said. Without changes no memory is taken.
    ensures memory { IsErrOf result Stop.NoMemory → host.new ≡ host.old }
    ensures some { IsErrOf result Stop.NoMemory → 0 < length changes.now }
    ensures full { (n : ℕ) → IsErrOf result (Stop.StoreFull n) → host.new ≡ host.old }
{
    let entry = entry_of(alloc, changes)?;
    carry_out(host, journal, &entry, replies)
}
