//! The top call.
ghost use Rattle.std.specs.Prelude.{◌≡◌, ◌↔◌, ◌≤◌, ◌^◌, ℕ, None, Some, map, string_bytes};
ghost use Rattle.host_desk.specs.Desk.{KeepsCounts};
ghost use Rattle.program_words.specs.Forms.{form_of};
ghost use Rattle.overlord_run.specs.Ends.{call, outside};
ghost use Rattle.overlord_run.specs.FormPromise.{PromiseBy};
ghost use Rattle.overlord_run.specs.Promise.{Promise};

use crate::deciding::Overlord;
use crate::loading::load_in;
use crate::status::{Limits, Status, status_of};
use host_desk::{Host, Source};
use machine_run::{Bounds, run_lines};
use program_words::{Form, WordsFault, read_words};
use std::alloc::Global;

// Runs the store of this name from an empty machine.
fn run_in<H: Host, S: Source>(
    alloc: Global,
    store: &str,
    source: &mut S,
    host: &mut H,
    limits: Limits,
) -> Status
    requires { (H.desk host.old).opened 0 ≡ None }
    ensures counts { KeepsCounts (H.desk host.old) (H.desk host.new) }
    ensures source_counts { S.faults source.old ≤ S.faults source.new }
    ensures runs { result ≡ Status.Usage → ⊥ }
    ensures promise { let before = outside (H.desk host.old) (S.remaining source.old) (S.faults source.old) in
        let after = outside (H.desk host.new) (S.remaining source.new) (S.faults source.new) in
        Promise (call H.tells S.tells (Some store.now) limits.log limits.input before after) result }
{
    let Ok(mut machine) = Overlord::new(alloc) else {
        return Status::NoMemory;
    };
    let bounds = Bounds {
        log: limits.log,
        batch: 1,
    };
    let ended = run_lines(
        alloc,
        store,
        &mut machine,
        source,
        limits.input,
        host,
        bounds,
    );
    drop(machine);
    status_of(ended)
}

/// Runs the program on the words of its command line, without the program's name: opens the store that they name, and
/// answers the lines of the source, each of which is stored before its reply is put out; or stores the commands of a load,
/// and puts out one line about all of them.
///
/// The statuses say how it ended. `limits` are in bytes.
pub fn overlord_within<H: Host, S: Source>(
    alloc: Global,
    words: &[String],
    source: &mut S,
    host: &mut H,
    limits: Limits,
) -> Status
    requires { (pair : ℕ) → (H.desk host.old).opened pair ≡ None }
    ensures counts { KeepsCounts (H.desk host.old) (H.desk host.new) }
    ensures source_counts { S.faults source.old ≤ S.faults source.new }

    // The words are of no form, and then nothing is called.
    ensures usage { (result ≡ Status.Usage) ↔ (form_of (map string_bytes words.now) ≡ None) }
    ensures usage_leaves { result ≡ Status.Usage → (host.new ≡ host.old) × (source.new ≡ source.old) }

    // What a stop at any moment leaves, each status by its cause, and the rest: `Promise` says it field by field, and
    // `PromiseOfLoad` of a load.
    ensures promise { let before = outside (H.desk host.old) (S.remaining source.old) (S.faults source.old) in
        let after = outside (H.desk host.new) (S.remaining source.new) (S.faults source.new) in
        PromiseBy (form_of (map string_bytes words.now)) H.tells S.tells limits.log limits.input before after result }
{
    match read_words(alloc, words) {
        Ok(Form::Run(store)) => run_in(alloc, store, source, host, limits),
        Ok(
            Form::Load {
                number,
                blocks,
                store,
            },
        ) => load_in(alloc, store, number, blocks, host, limits),
        Err(WordsFault::Usage) => Status::Usage,
        Err(WordsFault::OutOfMemory) => Status::NoMemory,
    }
}

/// `overlord_within` with logs of at most 2^40 bytes and inputs of fewer.
pub fn overlord<H: Host, S: Source>(
    alloc: Global,
    words: &[String],
    source: &mut S,
    host: &mut H,
) -> Status
    requires { (pair : ℕ) → (H.desk host.old).opened pair ≡ None }
    ensures counts { KeepsCounts (H.desk host.old) (H.desk host.new) }
    ensures source_counts { S.faults source.old ≤ S.faults source.new }
    ensures usage { (result ≡ Status.Usage) ↔ (form_of (map string_bytes words.now) ≡ None) }
    ensures usage_leaves { result ≡ Status.Usage → (host.new ≡ host.old) × (source.new ≡ source.old) }
    ensures promise { let before = outside (H.desk host.old) (S.remaining source.old) (S.faults source.old) in
        let after = outside (H.desk host.new) (S.remaining source.new) (S.faults source.new) in
        PromiseBy (form_of (map string_bytes words.now)) H.tells S.tells (2 ^ 40) (2 ^ 40) before after result }
{
    let limits = Limits {
        log: 1 << 40,
        input: 1 << 40,
        turn: 16_777_216,
    };
    overlord_within(alloc, words, source, host, limits)
}
