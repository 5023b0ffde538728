// Hosts that several tests begin with.
ghost use Rattle.std.specs.Prelude.{IfOk};
ghost use Rattle.host_desk.specs.Desk.{IsOpen};
ghost use Rattle.host_desk.specs.MemHost.{desk_now};
ghost use Rattle.twin_store.specs.Moments.{IsPairTrusted};

use host_desk::{Host, MemHost};
use std::alloc::Global;
use std::test::Fail;

// A host whose files 0 and 1 have these bytes and whose other files are empty. Its first pair is opened.
pub fn host_with_pair(alloc: Global, first: &[u8], second: &[u8]) -> Result<MemHost, Fail>
    ensures first { IfOk result (λ host. IsOpen (desk_now host) 0) }
    ensures second { IfOk result (λ host. IsOpen (desk_now host) 1) }
    ensures trusted { IfOk result (λ host. IsPairTrusted 0 (desk_now host)) }
{
    let first = first.to_vec(alloc)?;
    let second = second.to_vec(alloc)?;
    let files = vec![in alloc; first, second, Vec::new(alloc), Vec::new(alloc)]?;
    let mut host = MemHost::new(alloc, files)?;
    host.open_pair("store", 0)?;
    Ok(host)
}
