// Runs of a machine whose items aren't lines.
ghost use Rattle.std.specs.Prelude.{◌≡◌, ℕ, None};
ghost use Rattle.host_desk.specs.MemHost.{desk_now};

use crate::fixtures::host_with;
use host_desk::MemHost;
use machine_run::Bounds;
use std::alloc::Global;
use std::test::Fail;
use switch_run::{Orders, run_switch};

// The file of a switch that was turned on by a first batch, and off and on by a second.
const TURNED: &[u8; 40] =
    b"\x01OVERLORD\x01\0\0\0\0\0\0\0\x01\0\0\0\0\0\0\0\0\x01\0\0\0\x011\x01\0\0\0\x0201\0";

// Whether a run on these orders, two a batch, ends well.
fn run_orders(alloc: Global, host: &mut MemHost, orders: &[bool]) -> Result<bool, Fail>
    requires { (pair : ℕ) → (desk_now host.old).opened pair ≡ None }
{
    let mut orders = Orders::new(orders.to_vec(alloc)?);
    let bounds = Bounds {
        log: 1_000,
        batch: 2,
    };
    let is_done = run_switch(alloc, "S", &mut orders, host, bounds).is_ok();
    drop(orders);
    Ok(is_done)
}

// Whether a run on these orders over these files ends well, says this, and leaves this first file.
fn turns(
    alloc: Global,
    first: &[u8],
    orders: &[bool],
    said: &[u8],
    left: &[u8],
) -> Result<bool, Fail> {
    let mut host = host_with(alloc, first, b"")?;
    let is_done = run_orders(alloc, &mut host, orders);
    let is_left = host.said() == said && host.bytes(0) == left;
    drop(host);
    Ok(is_done? && is_left)
}

#[test]
fn a_switch_is_kept(rt: HostRuntime) -> Result<(), Fail> {
    let orders = [true, true, false, true];
    assert!(rt; turns(rt.alloc(), b"", &orders, b"1101", TURNED)?);
    // it is on, so that to turn it on changes nothing
    assert!(rt; turns(rt.alloc(), TURNED, &[true, true, true], b"111", TURNED)?);
    Ok(())
}
