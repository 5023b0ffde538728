//! The orders, one after another.
ghost use Rattle.std.specs.Prelude.{◌≡◌, ◌≤◌, length};
ghost use Rattle.switch_run.specs.OrdersLeft.{left_from};

use machine_run::{Feed, Stop};

/// Orders to a switch: on or off.
#[derive(Drop)]
pub struct Orders {
    orders: Vec<bool>,
    next: usize,
    current: bool,
    ghost within: { next ≤ length orders.items },
}

impl Orders {
    /// These orders.
    pub fn new(orders: Vec<bool>) -> Orders
        ensures { left_from result.orders.items result.next ≡ orders.items }
    {
        Orders {
            orders,
            next: 0,
            current: false,
        }
    }
}

impl Feed<()> for Orders {
    ghost use Rattle.std.specs.Prelude.{◌-◌, true, length};
    ghost use Rattle.switch_run.specs.OrdersLeft.{left_from, orders_laws};

    type Item = bool;

    ghost tells = { true };

    ghost left = { λ f s. left_from f.orders.items f.next };

    ghost item = { λ f. f.current };

    ghost work = { λ f. length f.orders.items - f.next };

    ghost fits = { λ f s. Unit {0} };

    ghost goes = { λ f s g t. Unit {0} };

    ghost fails = { λ f s g t stop. ⊥ };

    ghost breaks = { λ f s t items. ⊥ };

    ghost ends = { λ f s. Unit {0} };

    ghost adds_up = { orders_laws };

    fn advance(&mut self, _source: &mut ()) -> Result<bool, Stop> {
        if self.next == self.orders.len() {
            return Ok(false);
        }
        self.current = self.orders[self.next];
        self.next += 1;
        Ok(true)
    }

    fn item(&self) -> &bool {
        &self.current
    }
}
