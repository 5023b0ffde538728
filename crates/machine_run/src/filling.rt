//! A batch is filled with items.
ghost use Rattle.std.specs.Prelude.{◌≡◌, ◌<◌, ◌+◌, [], false, IfOk, IsErr, IsTrue};
ghost use Rattle.machine_run.specs.Steps.{FeedStop};
ghost use Rattle.machine_run.specs.Fold.{IsFilled, batch_bytes, is_full};

use crate::feed::Feed;
use crate::machine::Machine;
use crate::stop::Stop;
use host_desk::OutOfMemory;
use std::alloc::Global;

/// The bytes of items that fill a batch. The definitions cite it.
pub const BATCH_BYTES: u64 = 8_388_608;

/// Why a batch has no item more.
#[derive(Clone, Copy)]
pub enum End {
    /// It has as many as it may.
    Full,
    /// No item is left.
    Done,
    /// None came, for this cause.
    Failed(Stop),
}

// Whether a batch with so many items of so many bytes ends with one of this weight.
fn ends_batch(batch: u64, count: u64, bytes: u64, weight: u64) -> bool
    requires count { count < batch }
    requires bytes { bytes < batch_bytes }
    ensures full { result ≡ is_full batch (count + 1) (bytes + weight) }
    ensures more { result ≡ false → (count + 1 < batch) × (bytes + weight < batch_bytes) }
{
    count + 1 >= batch || weight >= BATCH_BYTES - bytes
}

/// Decides the items of the next batch: what tells their changes, and their replies.
pub fn fill<M: Machine, S, F: Feed<S, Item = M::Item>>(
    alloc: Global,
    feed: &mut F,
    source: &mut S,
    machine: &mut M,
    batch: u64,
    changes: &mut Vec<u8>,
    replies: &mut Vec<u8>,
) -> Result<End, OutOfMemory>
    requires batch { 0 < batch }
    requires fits { F.fits feed.old source.old }
    ensures fits { IfOk result (λ end. end ≡ End.Full → F.fits feed.new source.new) }
    ensures goes { F.goes feed.old source.old feed.new source.new }
    ensures ended { IfOk result (λ end. end ≡ End.Done → F.ends feed.new source.new) }
    ensures failed { IfOk result (λ end. (stop : Stop) → end ≡ End.Failed stop → FeedStop (F.fails feed.old source.old feed.new source.new) stop) }
    ensures filled { let before = F.left feed.old source.old in
        let after = F.left feed.new source.new in
        let was = F.breaks feed.old source.old in
        let now = F.breaks feed.new source.new in
        IfOk result (IsFilled M.rules batch machine.old F.tells before after was now source.new changes.new.items replies.new.items machine.new) }
    ensures nearer { IfOk result (λ end. end ≡ End.Full → F.work feed.new < F.work feed.old) }

    // Where memory lacks there is an item for which it does.
    ensures lacked { IsTrue F.tells → IsErr result → F.left feed.old source.old ≡ [] → ⊥ }
{
    changes.clear();
    replies.clear();
    let mut count = 0;
    let mut bytes = 0;
    loop {
        match feed.advance(source) {
            Ok(true) => {}
            Ok(false) => return Ok(End::Done),
            Err(stop) => return Ok(End::Failed(stop)),
        }
        let weight = machine.weigh(feed.item());
        machine.decide(alloc, feed.item(), changes, replies)?;
        if ends_batch(batch, count, bytes, weight) {
            return Ok(End::Full);
        }
        count += 1;
        bytes += weight;
    }
}
