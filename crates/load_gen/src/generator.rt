//! The generator: block by block, each of five commands.
ghost use Rattle.std.specs.Prelude.{◌+◌, ◌≡◌, ◌<◌, IfOk, OnErr, OnOk, get_or, length, set, true};
ghost use Rattle.std.specs.List.{list_all};
ghost use Rattle.book_rows.specs.Form.{keeps_form};
ghost use Rattle.load_gen.specs.Blocks.{hour_after};
ghost use Rattle.load_gen.specs.Load.{after, begun, block_of, no_hour};

use crate::OutOfMemory;
use crate::commands::{commands_of, is_replacing};
use crate::drawing::{HOURS, draw, hour_of, now_of};
use book_rows::Command;
use std::alloc::Global;
use std::marker::Model;

/// The most blocks of a load.
pub const BLOCK_LIMIT: u64 = 50_000;

/// What is known of an hour: the version of its chunk, and the part that is next there.
#[derive(Clone, Copy, Debug, PartialEq, Eq)]
pub struct Hour {
    pub version: i64,
    pub next: u32,
}

/// A load that is being generated. The same number gives the same commands.
///
/// A contract sees the number that was drawn last, how many blocks were given, and what is known of
/// each hour.
#[derive(Drop)]
pub struct LoadGen {
    drawn: u64,
    blocks: u64,
    hours: Vec<Hour>,
}

impl Model for LoadGen {
    ghost use Rattle.load_gen.specs.Load.{IsOnTheWay, Load};

    ghost Value = { Load };

    ghost view = { λ g. record { drawn = g.drawn; blocks = g.blocks; hours = g.hours.items } };

    ghost invariant = { λ g. IsOnTheWay g.blocks g.hours.items };
}

// The hour once the block is done on it.
fn hour_after(block: u64, hour: Hour) -> Hour
    requires few { block < 50000 }
    requires next { hour.next < 4294967295 }
    ensures { result ≡ hour_after block hour }
{
    if is_replacing(block) {
        Hour {
            version: now_of(block),
            next: 1,
        }
    } else {
        Hour {
            version: hour.version,
            next: hour.next + 1,
        }
    }
}

fn hour_at(hours: &[Hour], number: usize) -> Hour
    requires { number < length hours.now }
    ensures { result ≡ get_or hours.now number no_hour }
{
    hours[number]
}

fn put_hour(hours: &mut Vec<Hour>, number: usize, hour: Hour)
    requires { number < length hours.old.items }
    ensures { hours.new.items ≡ set hours.old.items number hour }
{
    hours[number] = hour;
}

impl LoadGen {
    /// The load of a number, of which no block was given. The error is want of memory.
    pub fn new(alloc: Global, number: u64) -> Result<LoadGen, OutOfMemory>
        ensures { IfOk result (λ g. g ≡ begun number) }
    {
        Ok(LoadGen {
            drawn: number,
            blocks: 0,
            hours: vec![in alloc; Hour {
                version: 0,
                next: 0
            }; HOURS]?,
        })
    }

    /// The five commands of the next block; at most 50,000 are given. The error is want of memory, and
    /// leaves the load as it was.
    pub fn block(&mut self, alloc: Global) -> Result<Vec<Command>, OutOfMemory>
        requires { self.old.blocks < 50000 }
        ensures commands { IfOk result (λ v. v.items ≡ block_of self.old) }
        ensures form { IfOk result (λ v. list_all keeps_form v.items ≡ true) }
        ensures next { OnOk result (self.new ≡ after self.old) }
        ensures err { OnErr result (self.new ≡ self.old) }
    {
        let drawn = draw(self.drawn);
        let number = hour_of(drawn);
        let hour = hour_at(&self.hours, number);
        let commands = commands_of(alloc, self.blocks, number, hour)?;
        put_hour(&mut self.hours, number, hour_after(self.blocks, hour));
        self.drawn = drawn;
        self.blocks += 1;
        Ok(commands)
    }
}
