//! The machine that is run: lines are read as commands, decided by the core, and spelled as records and replies.
ghost use Rattle.std.specs.Prelude.{◌≡◌, ◌<◌, ◌^◌, ◌++◌, true, false, Some, None, IfOk, OnOk, length, [], ◌∷◌};
ghost use Rattle.book_rows.specs.Answer.{answer, changes, next, empty_book};
ghost use Rattle.book_rows.specs.Form.{keeps_form};
ghost use Rattle.cmd_codec.specs.Records.{AreSpelled};
ghost use Rattle.reply_text.specs.Lines.{TextOf};
ghost use Rattle.book_rows.specs.Fits.{reply_fits};
ghost use Rattle.overlord_run.specs.Held.{book_in};
ghost use Rattle.machine_run.specs.Rules.{bytes_of};
ghost use Rattle.overlord_rules.specs.OverlordRules.{reply_of, book_of, record_of, reply_by, book_by, body_by, apply, restore_of, reply_to_long, reply_to, book_after, record_in, overlord_rules};

use book_rows::{Command, Refusal, Reply};
use cmd_codec::{CodecFault, decode, encode};
use cmd_words::{LineFault, read_line};
use host_desk::OutOfMemory;
use machine_run::{Line, Machine};
use overlord_core::{Outcome, Overlord as Core};
use reply_text::reply_line;
use std::alloc::{AllocError, Global};
use std::marker::Model;

/// The deciding core as a machine over lines.
#[derive(Drop)]
pub struct Overlord {
    core: Core,
}

impl Model for Overlord {
    ghost use Rattle.book_rows.specs.declared.rows.Book.{Book};
    ghost use Rattle.overlord_run.specs.Held.{book_in};

    ghost Value = { Book };

    ghost view = { λ o. book_in o.core };
}

impl Overlord {
    /// The machine of an empty book. The error is want of memory.
    pub fn new(alloc: Global) -> Result<Overlord, OutOfMemory>
        ensures { IfOk result (λ o. o ≡ empty_book) }
    {
        Ok(Overlord {
            core: Core::new(alloc)?,
        })
    }
}

// What a command is answered, and whether it changed the book.
#[derive(Drop)]
struct Said {
    line: Vec<u8>,
    changes: bool,
}

// Does a command on the book that the core holds. A core that holds none answers want of memory.
pub fn act_on(alloc: Global, core: &mut Core, command: &Command) -> Result<Outcome, OutOfMemory>
    requires form { keeps_form command.now ≡ true }
    ensures reply { IfOk result (λ o. o.reply ≡ answer (book_in core.old) command.now) }
    ensures changes { IfOk result (λ o. o.changes ≡ changes (book_in core.old) command.now) }
    ensures next { IfOk result (λ _. book_in core.new ≡ next (book_in core.old) command.now) }
    ensures held { IfOk result (λ _. core.new ≡ Some (book_in core.new)) }
    ensures fits { IfOk result (λ o. reply_fits o.reply ≡ true) }
{
    core.act(alloc, command)
}

// Carries out a command.
fn carry_out(alloc: Global, core: &mut Core, command: &Command) -> Result<Said, OutOfMemory>
    requires form { keeps_form command.now ≡ true }
    ensures line { IfOk result (λ said. said.line.items ≡ TextOf (answer (book_in core.old) command.now)) }
    ensures changes { IfOk result (λ said. said.changes ≡ changes (book_in core.old) command.now) }
    ensures next { IfOk result (λ _. book_in core.new ≡ next (book_in core.old) command.now) }
{
    let outcome = act_on(alloc, core, command)?;
    let changes = outcome.changes;
    let line = reply_line(alloc, &outcome.reply);
    drop(outcome);
    Ok(Said {
        line: line?,
        changes,
    })
}

// Decides a command: adds its record behind the body, where it changes the book, and its reply behind the replies.
fn decide_command(
    alloc: Global,
    core: &mut Core,
    command: &Command,
    body: &mut Vec<u8>,
    replies: &mut Vec<u8>,
) -> Result<(), OutOfMemory>
    requires form { keeps_form command.now ≡ true }
    ensures reply { OnOk result (replies.new.items ≡ replies.old.items ++ TextOf (answer (book_in core.old) command.now)) }
    ensures body { OnOk result (body.new.items ≡ body.old.items ++ bytes_of (body_by (book_in core.old) (Some command.now))) }
    ensures next { OnOk result (book_in core.new ≡ next (book_in core.old) command.now) }
{
    let said = carry_out(alloc, core, command)?;
    if said.changes {
        encode(alloc, command, body)?;
    }
    replies.extend_from_slice(&said.line)
}

// Decides a line.
#[tactic(auto, unfolding(overlord_rules::specs::OverlordRules::reply_of, overlord_rules::specs::OverlordRules::record_of, overlord_rules::specs::OverlordRules::book_of))]
fn decide_line(
    alloc: Global,
    core: &mut Core,
    line: &[u8],
    body: &mut Vec<u8>,
    replies: &mut Vec<u8>,
) -> Result<(), OutOfMemory>
    ensures reply { OnOk result (replies.new.items ≡ replies.old.items ++ reply_of (book_in core.old) line.now) }
    ensures body { OnOk result (body.new.items ≡ body.old.items ++ bytes_of (record_of (book_in core.old) line.now)) }
    ensures next { OnOk result (book_in core.new ≡ book_of (book_in core.old) line.now) }
{
    match read_line(alloc, line) {
        Ok(command) => {
            let decided = decide_command(alloc, core, &command, body, replies);
            drop(command);
            decided
        }
        Err(LineFault::BadCommand) => {
            let reply = reply_line(alloc, &Reply::Refused(Refusal::BadCommand))?;
            replies.extend_from_slice(&reply)
        }
        Err(LineFault::OutOfMemory) => Err(AllocError),
    }
}

// Does a command, and answers whether it changed the book.
fn changes_by(alloc: Global, core: &mut Core, command: &Command) -> Result<bool, OutOfMemory>
    requires form { keeps_form command.now ≡ true }
    ensures changes { IfOk result (λ c. c ≡ changes (book_in core.old) command.now) }
    ensures next { IfOk result (λ _. book_in core.new ≡ next (book_in core.old) command.now) }
{
    let outcome = act_on(alloc, core, command)?;
    let changes = outcome.changes;
    drop(outcome);
    Ok(changes)
}

// Carries out the commands of a record, each of which is to change the book.
fn apply_all(alloc: Global, core: &mut Core, commands: &[Command]) -> Result<bool, OutOfMemory>
    requires { AreSpelled commands.now }
    ensures yes { IfOk result (λ good. good ≡ true → apply (book_in core.old) commands.now ≡ Some (book_in core.new)) }
    ensures no { IfOk result (λ good. good ≡ false → apply (book_in core.old) commands.now ≡ None) }
{
    for command in commands {
        if !changes_by(alloc, core, command)? {
            return Ok(false);
        }
    }
    Ok(true)
}

// Goes on to the book after a record.
#[tactic(auto, unfolding(overlord_rules::specs::OverlordRules::restore_of))]
pub fn restore_in(alloc: Global, core: &mut Core, body: &[u8]) -> Result<bool, OutOfMemory>
    ensures yes { IfOk result (λ good. good ≡ true → restore_of (book_in core.old) body.now ≡ Some (book_in core.new)) }
    ensures no { IfOk result (λ good. good ≡ false → restore_of (book_in core.old) body.now ≡ None) }
{
    match decode(alloc, body) {
        Ok(commands) => apply_all(alloc, core, &commands),
        Err(CodecFault::BadRecord { .. }) => Ok(false),
        Err(CodecFault::OutOfMemory) => Err(AllocError),
    }
}

// Refuses a line that is too long.
#[tactic(auto, unfolding(overlord_rules::specs::OverlordRules::reply_to_long))]
fn refuse_long(alloc: Global, replies: &mut Vec<u8>) -> Result<(), OutOfMemory>
    ensures { OnOk result (replies.new.items ≡ replies.old.items ++ reply_to_long) }
{
    let reply = reply_line(alloc, &Reply::Refused(Refusal::LineTooLong))?;
    replies.extend_from_slice(&reply)
}

// Decides a line, or that it is too long.
fn decide_item(
    alloc: Global,
    core: &mut Core,
    item: &Line,
    body: &mut Vec<u8>,
    replies: &mut Vec<u8>,
) -> Result<(), OutOfMemory>
    ensures reply { OnOk result (replies.new.items ≡ replies.old.items ++ reply_to (book_in core.old) item.now) }
    ensures body { OnOk result (body.new.items ≡ body.old.items ++ bytes_of (record_in (book_in core.old) item.now)) }
    ensures next { OnOk result (book_in core.new ≡ book_after (book_in core.old) item.now) }
{
    match item.text() {
        Some(line) => decide_line(alloc, core, line, body, replies),
        None => refuse_long(alloc, replies),
    }
}

impl Machine for Overlord {
    ghost use Rattle.overlord_rules.specs.OverlordRules.{overlord_rules};
    ghost use Rattle.overlord_rules.proofs.RecordLaws.{kept_by_records};
    ghost use Rattle.laws_runs.proofs.GoodBooks.{good_books};

    type Item = Line;

    ghost rules = { overlord_rules };

    ghost kept = { kept_by_records };

    ghost keeps_good = { good_books };

    fn decide(
        &mut self,
        alloc: Global,
        item: &Line,
        body: &mut Vec<u8>,
        replies: &mut Vec<u8>,
    ) -> Result<(), OutOfMemory> {
        decide_item(alloc, &mut self.core, item, body, replies)
    }

    fn weigh(&self, item: &Line) -> u64 {
        item.size()
    }

    fn longest(&self) -> u64 {
        0
    }

    fn load(&mut self, _alloc: Global, snapshot: &[u8]) -> Result<bool, OutOfMemory> {
        Ok(snapshot.is_empty())
    }

    fn restore(&mut self, alloc: Global, body: &[u8]) -> Result<bool, OutOfMemory> {
        restore_in(alloc, &mut self.core, body)
    }
}
