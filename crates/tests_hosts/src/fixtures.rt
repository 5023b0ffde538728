// Hosts that several tests begin with.
ghost use Rattle.std.specs.Prelude.{◌≡◌, IfOk};
ghost use Rattle.host_desk.specs.Desk.{IsOpen};
ghost use Rattle.host_desk.specs.MemHost.{desk_now};

use host_desk::{Host, MemHost};
use std::alloc::Global;
use std::test::Fail;

// A host whose file 0 has these bytes and whose other files are empty. Its first pair is opened, by call 0.
pub fn host_with(alloc: Global, bytes: &[u8]) -> Result<MemHost, Fail>
    ensures opened { IfOk result (λ host. IsOpen (desk_now host) 0) }
    ensures seen { IfOk result (λ host. (desk_now host).seen 0 ≡ bytes.now) }
{
    let first = bytes.to_vec(alloc)?;
    let files = vec![in alloc; first, Vec::new(alloc), Vec::new(alloc), Vec::new(alloc)]?;
    let mut host = MemHost::new(alloc, files)?;
    host.open_pair("log", 0)?;
    Ok(host)
}
