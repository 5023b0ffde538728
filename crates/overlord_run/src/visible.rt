//! How many ids the timeline of a load gives.
ghost use Rattle.std.specs.Prelude.{◌≡◌, IfOk, OnOk, [], codes, flat_map, length};
ghost use Rattle.book_rows.specs.Ids.{in_order};
ghost use Rattle.book_rows.specs.Answer.{answer};
ghost use Rattle.book_rows.specs.declared.commands.Command.TheVariants.{Show};
ghost use Rattle.book_rows.specs.declared.commands.What.TheVariants.{Timeline};
ghost use Rattle.overlord_run.specs.Held.{book_in};
ghost use Rattle.overlord_run.specs.Visible.{ids_in, parts_in, put_all, visible_in};

use crate::deciding::act_on;
use book_rows::{Command, Reply, TimelinePart, What};
use host_desk::OutOfMemory;
use load_gen::source;
use overlord_core::Overlord as Core;
use seg_names::SegId;
use std::alloc::Global;
use std::collections::BTreeSet;

fn put_ids(seen: &mut BTreeSet<SegId>, mut ids: Vec<SegId>) -> Result<(), OutOfMemory>
    ensures { OnOk result (seen.new.keys ≡ put_all ids.items seen.old.keys) }
{
    while let Some(id) = ids.pop() {
        seen.insert(id)?;
    }
    Ok(())
}

// The ids of the parts, each once.
fn ids_in(alloc: Global, mut parts: Vec<TimelinePart>) -> Result<BTreeSet<SegId>, OutOfMemory>
    ensures { IfOk result (λ seen. seen.keys ≡ ids_in parts.items) }
{
    let mut seen = BTreeSet::new(alloc);
    while let Some(part) = parts.pop() {
        put_ids(&mut seen, part.ids.into_vec())?;
    }
    Ok(seen)
}

// The parts of a timeline. Other replies have none.
fn parts_in(alloc: Global, reply: Reply) -> Vec<TimelinePart>
    ensures { result.items ≡ parts_in reply }
{
    match reply {
        Reply::Timeline { parts, .. } => parts.into_vec(),
        _ => Vec::new(alloc),
    }
}

// The timeline of the load's source.
fn timeline(alloc: Global, core: &mut Core) -> Result<Vec<TimelinePart>, OutOfMemory>
    ensures parts { IfOk result (λ parts. parts.items ≡ parts_in (answer (book_in core.old) (Show (Timeline (codes "load"))))) }
    ensures held { OnOk result (core.new ≡ Some (book_in core.old)) }
{
    let command = Command::Show {
        what: What::Timeline(source(alloc)?),
    };
    let outcome = act_on(alloc, core, &command);
    drop(command);
    Ok(parts_in(alloc, outcome?.reply))
}

/// How many ids the timeline of the load's source gives, each counted once. The core holds its book
/// then.
pub fn count_visible(alloc: Global, core: &mut Core) -> Result<u64, OutOfMemory>
    ensures count { IfOk result (λ count. count ≡ visible_in (book_in core.old)) }
    ensures held { OnOk result (core.new ≡ Some (book_in core.old)) }
{
    let parts = timeline(alloc, core)?;
    let ids = ids_in(alloc, parts)?;
    Ok(ids.len() as u64)
}
