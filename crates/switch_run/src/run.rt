//! The run.
ghost use Rattle.std.specs.Prelude.{◌≡◌, ◌<◌, Bool, None, OnOk, IsTrue};
ghost use Rattle.host_desk.specs.Since.{Since};
ghost use Rattle.machine_run.specs.Runs.{Opens, Left};
ghost use Rattle.machine_run.specs.Ends.{HasRun};
ghost use Rattle.switch_run.specs.OrdersLeft.{left_from};
ghost use Rattle.switch_run.specs.SwitchRules.{switch_rules};

use crate::orders::Orders;
use crate::switch::Switch;
use host_desk::Host;
use machine_run::{Bounds, Stop, run_store};
use std::alloc::Global;

/// Runs the switch of a store on orders: each batch of them is stored before any of its replies is put out.
pub fn run_switch<H: Host>(
    alloc: Global,
    name: &str,
    orders: &mut Orders,
    host: &mut H,
    bounds: Bounds,
) -> Result<(), Stop>
    requires batch { 0 < bounds.batch }
    requires closed { (H.desk host.old).opened 0 ≡ None }
    ensures any_moment { IsTrue H.tells → (is_on : Bool) → Opens switch_rules (H.desk host.old) is_on → Since (Left switch_rules is_on (left_from orders.old.orders.items orders.old.next) (H.desk host.old).said) (H.desk host.old) (H.desk host.new) }
    ensures done { IsTrue H.tells → OnOk result (HasRun switch_rules bounds.batch bounds.log (left_from orders.old.orders.items orders.old.next) (H.desk host.old) (H.desk host.new)) }
{
    let mut switch = Switch::new();
    run_store(alloc, name, &mut switch, orders, &mut (), host, bounds)
}
