//! A load into a store.
ghost use Rattle.std.specs.Prelude.{◌≡◌, ◌≤◌, List, None, ℕ};
ghost use Rattle.host_desk.specs.Desk.{KeepsCounts};
ghost use Rattle.load_gen.specs.Load.{load};
ghost use Rattle.machine_run.specs.Stores.{store_of};
ghost use Rattle.overlord_rules.specs.CommandRules.{command_rules};
ghost use Rattle.overlord_rules.specs.OverlordRules.{overlord_rules};
ghost use Rattle.overlord_run.specs.LoadPromise.{PromiseOfLoad, load_call};

use crate::commands::CommandMachine;
use crate::load_commands::LoadCommands;
use crate::status::{Limits, Status, status_of};
use host_desk::Host;
use load_run::run_load;
use std::alloc::Global;

/// What the bytes of a store stand for is the same for generated commands as for lines.
pub fn commands_make_stores_of_lines()
    ensures { (first second : List ℕ) → store_of command_rules first second ≡ store_of overlord_rules first second }
{}

/// Loads so many blocks, generated from this number, into the store of this name.
pub fn load_in<H: Host>(
    alloc: Global,
    store: &str,
    number: u64,
    blocks: u64,
    host: &mut H,
    limits: Limits,
) -> Status
    requires few { blocks ≤ 50000 }
    requires closed { (H.desk host.old).opened 0 ≡ None }
    ensures counts { KeepsCounts (H.desk host.old) (H.desk host.new) }
    ensures runs { result ≡ Status.Usage → ⊥ }
    ensures promise { PromiseOfLoad (load_call H.tells (load number blocks) store.now limits.log (H.desk host.old) (H.desk host.new)) result }
{
    let Ok(mut machine) = CommandMachine::new(alloc) else {
        return Status::NoMemory;
    };
    let Ok(mut commands) = LoadCommands::new(alloc, number, blocks) else {
        drop(machine);
        return Status::NoMemory;
    };
    let ended = run_load(alloc, store, &mut machine, &mut commands, host, limits.log);
    drop(machine);
    drop(commands);
    status_of(ended)
}
