//! The deciding core as a machine over commands, of which no reply is put out.
ghost use Rattle.std.specs.Prelude.{◌++◌, ◌≡◌, IfOk, OnOk, Some, true};
ghost use Rattle.book_rows.specs.Answer.{answer, empty_book, next};
ghost use Rattle.book_rows.specs.Form.{keeps_form as is_formed};
ghost use Rattle.machine_run.specs.Rules.{bytes_of};
ghost use Rattle.overlord_rules.specs.OverlordRules.{body_by};
ghost use Rattle.overlord_run.specs.CommandLoad.{is_refusal};
ghost use Rattle.overlord_run.specs.Held.{book_in};

use crate::deciding::{act_on, restore_in};
use crate::visible::count_visible;
use book_rows::{Command, Reply};
use cmd_codec::encode;
use command_forms::keeps_form;
use host_desk::OutOfMemory;
use load_gen::{Summary, summary_line};
use load_run::{Loader, Tally};
use machine_run::Machine;
use overlord_core::Overlord as Core;
use std::alloc::Global;
use std::marker::Model;

/// The deciding core as a machine over commands.
#[derive(Drop)]
pub struct CommandMachine {
    core: Core,
}

impl Model for CommandMachine {
    ghost use Rattle.book_rows.specs.declared.rows.Book.{Book};
    ghost use Rattle.overlord_run.specs.Held.{book_in};

    ghost Value = { Book };

    ghost view = { λ o. book_in o.core };
}

impl CommandMachine {
    /// The machine of an empty book. The error is want of memory.
    pub fn new(alloc: Global) -> Result<CommandMachine, OutOfMemory>
        ensures { IfOk result (λ o. o ≡ empty_book) }
    {
        Ok(CommandMachine {
            core: Core::new(alloc)?,
        })
    }
}

fn is_refusal(reply: &Reply) -> bool
    ensures { result ≡ is_refusal reply.now }
{
    matches!(reply, Reply::Refused(_))
}

// Does a command: adds its record behind the body, where it changes the book. Answers whether it is refused.
fn decide(
    alloc: Global,
    core: &mut Core,
    command: &Command,
    body: &mut Vec<u8>,
) -> Result<bool, OutOfMemory>
    requires form { is_formed command.now ≡ true }
    ensures refused { IfOk result (λ r. r ≡ is_refusal (answer (book_in core.old) command.now)) }
    ensures body { OnOk result (body.new.items ≡ body.old.items ++ bytes_of (body_by (book_in core.old) (Some command.now))) }
    ensures next { OnOk result (book_in core.new ≡ next (book_in core.old) command.now) }
{
    let outcome = act_on(alloc, core, command)?;
    let changes = outcome.changes;
    let refused = is_refusal(&outcome.reply);
    drop(outcome);
    if changes {
        encode(alloc, command, body)?;
    }
    Ok(refused)
}

impl Machine for CommandMachine {
    ghost use Rattle.overlord_rules.specs.CommandRules.{command_rules};
    ghost use Rattle.overlord_rules.proofs.RecordLaws.{commands_kept_by_records};
    ghost use Rattle.laws_runs.proofs.GoodBooks.{good_command_books};

    type Item = Command;

    ghost rules = { command_rules };

    ghost kept = { commands_kept_by_records };

    ghost keeps_good = { good_command_books };

    fn decide(
        &mut self,
        alloc: Global,
        item: &Command,
        body: &mut Vec<u8>,
        _replies: &mut Vec<u8>,
    ) -> Result<(), OutOfMemory> {
        if keeps_form(item) {
            let _refused = decide(alloc, &mut self.core, item, body)?;
        }
        Ok(())
    }

    fn weigh(&self, _item: &Command) -> u64 {
        0
    }

    fn longest(&self) -> u64 {
        0
    }

    fn load(&mut self, _alloc: Global, snapshot: &[u8]) -> Result<bool, OutOfMemory> {
        Ok(snapshot.is_empty())
    }

    fn restore(&mut self, alloc: Global, body: &[u8]) -> Result<bool, OutOfMemory> {
        restore_in(alloc, &mut self.core, body)
    }
}

impl Loader for CommandMachine {
    ghost use Rattle.std.specs.Prelude.{refl};
    ghost use Rattle.book_rows.specs.Answer.{answer};
    ghost use Rattle.book_rows.specs.Form.{keeps_form};
    ghost use Rattle.overlord_run.specs.CommandLoad.{is_refusal, text_of_load};

    ghost takes = { λ command. keeps_form command ≡ true };

    ghost refuses = { λ b command. is_refusal (answer b command) };

    ghost text = { text_of_load };

    ghost silent = { λ b command. refl };

    fn take(
        &mut self,
        alloc: Global,
        item: &Command,
        changes: &mut Vec<u8>,
    ) -> Result<bool, OutOfMemory> {
        decide(alloc, &mut self.core, item, changes)
    }

    fn line(&mut self, alloc: Global, tally: Tally) -> Result<Vec<u8>, OutOfMemory> {
        let visible = count_visible(alloc, &mut self.core)?;
        let summary = Summary {
            commits: self.core.commits(),
            done: tally.done,
            refused: tally.refused,
            visible,
        };
        summary_line(alloc, summary)
    }
}
