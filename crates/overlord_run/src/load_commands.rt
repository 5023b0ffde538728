//! The commands of a load, one after another.
ghost use Rattle.std.specs.Prelude.{◌≡◌, ◌≤◌, IfOk};
ghost use Rattle.load_gen.specs.Load.{load};

use book_rows::Command;
use host_desk::OutOfMemory;
use load_gen::LoadGen;
use load_run::Items;
use std::alloc::Global;
use std::marker::Model;

/// The commands of a load that are left.
#[derive(Drop)]
pub struct LoadCommands {
    generator: LoadGen,
    // how many blocks it is to give yet
    blocks: u64,
    // the commands of the block that it gave last, the first of them last
    ready: Vec<Command>,
}

impl Model for LoadCommands {
    ghost use Rattle.std.specs.Prelude.{◌+◌, ◌++◌, ◌≤◌, List, reverse};
    ghost use Rattle.book_rows.specs.declared.commands.Command.{Command};
    ghost use Rattle.load_gen.specs.Load.{commands_from};

    ghost Value = { List Command };

    ghost view = { λ c. reverse c.ready.items ++ commands_from c.blocks c.generator };

    ghost invariant = { λ c. c.generator.blocks + c.blocks ≤ 50000 };
}

impl LoadCommands {
    /// Those of so many blocks, generated from this number. The error is want of memory.
    pub fn new(alloc: Global, number: u64, blocks: u64) -> Result<LoadCommands, OutOfMemory>
        requires { blocks ≤ 50000 }
        ensures { IfOk result (λ c. c ≡ load number blocks) }
    {
        Ok(LoadCommands {
            generator: LoadGen::new(alloc, number)?,
            blocks,
            ready: Vec::new(alloc),
        })
    }
}

impl Items for LoadCommands {
    type Item = Command;

    ghost left = { λ c. c };

    fn next(&mut self, alloc: Global) -> Result<Option<Command>, OutOfMemory> {
        if let Some(command) = self.ready.pop() {
            return Ok(Some(command));
        }
        if self.blocks == 0 {
            return Ok(None);
        }
        let mut block = self.generator.block(alloc)?;
        block.reverse();
        self.blocks -= 1;
        self.ready = block;
        Ok(self.ready.pop())
    }
}
