//! The machine.
ghost use Rattle.std.specs.Prelude.{◌≡◌, ◌++◌, true, false, Some, None, IfOk, OnOk};
ghost use Rattle.machine_run.specs.Rules.{bytes_of};
ghost use Rattle.switch_run.specs.SwitchRules.{byte_of, switch_rules, restore_of};

use host_desk::OutOfMemory;
use machine_run::Machine;
use std::alloc::Global;
use std::marker::Model;

/// A switch.
#[derive(Drop)]
pub struct Switch {
    is_on: bool,
}

impl Model for Switch {
    ghost use Rattle.std.specs.Prelude.{Bool};

    ghost Value = { Bool };

    ghost view = { λ s. s.is_on };
}

impl Switch {
    /// A switch that is off.
    pub fn new() -> Switch
        ensures { result ≡ false }
    {
        Switch { is_on: false }
    }
}

// The byte of an order, in the store and as its reply.
fn byte_of(order: bool) -> u8
    ensures { result ≡ byte_of order }
{
    if order { 49 } else { 48 }
}

// Takes an order.
fn take(
    is_on: &mut bool,
    order: bool,
    body: &mut Vec<u8>,
    replies: &mut Vec<u8>,
) -> Result<(), OutOfMemory>
    ensures reply { OnOk result (replies.new.items ≡ replies.old.items ++ switch_rules.reply is_on.old order) }
    ensures body { OnOk result (body.new.items ≡ body.old.items ++ bytes_of (switch_rules.body is_on.old order)) }
    ensures next { OnOk result (is_on.new ≡ order) }
{
    if order != *is_on {
        body.push(byte_of(order))?;
    }
    replies.push(byte_of(order))?;
    *is_on = order;
    Ok(())
}

// Goes on by the bytes of a record, each of which is to turn the switch.
fn restore(is_on: &mut bool, body: &[u8]) -> bool
    ensures yes { result ≡ true → restore_of is_on.old body.now ≡ Some is_on.new }
    ensures no { result ≡ false → restore_of is_on.old body.now ≡ None }
{
    for byte in body {
        if *byte != byte_of(!*is_on) {
            return false;
        }
        *is_on = !*is_on;
    }
    true
}

impl Machine for Switch {
    ghost use Rattle.switch_run.specs.SwitchRules.{switch_rules};
    ghost use Rattle.switch_run.specs.SwitchLaws.{keeps_good, kept_by_records};

    type Item = bool;

    ghost rules = { switch_rules };

    ghost kept = { kept_by_records };

    ghost keeps_good = { keeps_good };

    fn decide(
        &mut self,
        _alloc: Global,
        item: &bool,
        body: &mut Vec<u8>,
        replies: &mut Vec<u8>,
    ) -> Result<(), OutOfMemory> {
        take(&mut self.is_on, *item, body, replies)
    }

    fn weigh(&self, _item: &bool) -> u64 {
        1
    }

    fn longest(&self) -> u64 {
        0
    }

    fn load(&mut self, _alloc: Global, snapshot: &[u8]) -> Result<bool, OutOfMemory> {
        Ok(snapshot.is_empty())
    }

    fn restore(&mut self, _alloc: Global, body: &[u8]) -> Result<bool, OutOfMemory> {
        Ok(restore(&mut self.is_on, body))
    }
}
