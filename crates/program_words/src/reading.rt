//! Reading the words.
ghost use Rattle.std.specs.Prelude.{◌≡◌, IfOk, false, is_some, map, option_map, string_bytes, true};
ghost use Rattle.clap.specs.Words.{app_of, found_of, rows_of, subcommand_rows_of};
ghost use Rattle.clap.specs.Built.{IsPlainArg};
ghost use Rattle.clap.specs.Walk.{rule_of};
ghost use Rattle.clap.specs.declared.builder.Command.TheViews.{out-Command as fields_of};
ghost use Rattle.program_words.specs.App.{load_app, overlord, run_app, word_rule};
ghost use Rattle.program_words.specs.Forms.{ReadsForm, form_of, form_view, given_by, is_store, load_in, load_of, load_with, run_in, run_of};

use crate::fault::WordsFault;
use crate::form::Form;
use crate::numbers::{read_blocks, read_number};
use clap::error::ErrorKind;
use clap::{Arg, ArgAction, ArgMatches, Command};
use std::alloc::{AllocError, Global};

// The most bytes of a store's name.
const STORE_LIMIT: usize = 4_096;

// A word that has to be there.
fn word<'a>(alloc: Global, id: &'a str) -> Arg<'a>
    ensures rule { rule_of result ≡ word_rule id.entry.now }
    ensures plain { IsPlainArg result }
    ensures local { result.global ≡ false }
{
    Arg::new(alloc, id).required(true).action(ArgAction::Set)
}

fn run_command<'a>(alloc: Global) -> Result<Command<'a>, AllocError>
    ensures app { IfOk result (λ c. app_of c ≡ run_app) }
    ensures local { IfOk result (λ c. (fields_of c).has_globals ≡ false) }
{
    Command::new(alloc, "run").arg(word(alloc, "store"))
}

fn load_command<'a>(alloc: Global) -> Result<Command<'a>, AllocError>
    ensures app { IfOk result (λ c. app_of c ≡ load_app) }
    ensures local { IfOk result (λ c. (fields_of c).has_globals ≡ false) }
{
    Command::new(alloc, "load")
        .arg(word(alloc, "number"))?
        .arg(word(alloc, "blocks"))?
        .arg(word(alloc, "store"))
}

fn command<'a>(alloc: Global) -> Result<Command<'a>, AllocError>
    ensures { IfOk result (λ c. app_of c ≡ overlord) }
{
    let run = run_command(alloc)?;
    let load = load_command(alloc)?;
    Command::new(alloc, "overlord")
        .no_binary_name(true)
        .disable_help_flag(true)
        .disable_help_subcommand(true)
        .subcommand(run)?
        .subcommand(load)
}

// The form `run` of what was found.
fn run_in<'a>(found: &ArgMatches<'a>) -> Option<Form<'a>>
    ensures { option_map form_view result ≡ run_in (rows_of (found_of found.now)) }
{
    let store = found.get_str("store")?;
    Some(Form::Run(store))
}

// A load of these words.
fn load_with<'a>(number: &str, blocks: &str, store: &'a str) -> Option<Form<'a>>
    ensures { option_map form_view result ≡ load_with number.now blocks.now store.entry.now }
{
    Some(Form::Load {
        number: read_number(number)?,
        blocks: read_blocks(blocks)?,
        store,
    })
}

// The form `load` of what was found.
fn load_in<'a>(found: &ArgMatches<'a>) -> Option<Form<'a>>
    ensures { option_map form_view result ≡ load_in (rows_of (found_of found.now)) }
{
    let number = found.get_str("number")?;
    let blocks = found.get_str("blocks")?;
    let store = found.get_str("store")?;
    load_with(number, blocks, store)
}

// The form of what was found, whether or not the words are spelled so.
fn form_in<'a>(matches: &ArgMatches<'a>) -> Option<Form<'a>>
    ensures { option_map form_view result ≡ given_by (subcommand_rows_of matches.now) }
{
    let (name, found) = matches.subcommand()?;
    match name {
        "run" => run_in(found),
        "load" => load_in(found),
        _ => None,
    }
}

fn is_store(word: &str) -> bool
    ensures { result ≡ is_store word.now }
{
    1 <= word.len() && word.len() <= STORE_LIMIT && !word.as_bytes().starts_with(b"-")
}

fn is_run(name: &str, store: &str) -> bool
    ensures { result ≡ is_some (run_of name.now store.now) }
{
    name == "run" && is_store(store)
}

fn is_load(name: &str, number: &str, blocks: &str, store: &str) -> bool
    ensures { result ≡ is_some (load_of name.now number.now blocks.now store.now) }
{
    name == "load" && is_store(store) && load_with(number, blocks, store).is_some()
}

// Whether the words are exactly those of a form.
#[tactic(auto, unfolding(crate::specs::Forms::form_of))]
fn has_form(words: &[String]) -> bool
    ensures { result ≡ is_some (form_of (map string_bytes words.now)) }
{
    match words {
        [name, store] => is_run(name.as_str(), store.as_str()),
        [name, number, blocks, store] => {
            is_load(
                name.as_str(),
                number.as_str(),
                blocks.as_str(),
                store.as_str(),
            )
        }
        _ => false,
    }
}

// What `clap` finds: on words of a form it is that form, unless memory was lacking.
fn find_form<'a>(alloc: Global, words: &'a [String]) -> Result<Form<'a>, WordsFault>
    ensures { let form = form_of (map string_bytes words.entry.now) in
        is_some form ≡ true → ReadsForm form result }
{
    let command = command(alloc)?;
    match command.try_get_matches_from(words) {
        Ok(matches) => match form_in(&matches) {
            Some(form) => Ok(form),
            None => Err(WordsFault::Usage),
        },
        Err(error) => match error.kind() {
            ErrorKind::OutOfMemory => Err(WordsFault::OutOfMemory),
            _ => Err(WordsFault::Usage),
        },
    }
}

/// The form of the words. `Usage` comes exactly where they are of none, also where memory was lacking;
/// on words of a form memory alone may be lacking.
///
/// `clap` finds the form, and is trusted with no other words than those that spell one: what else it
/// may take, as `--` before the store, is refused here.
pub fn read_words<'a>(alloc: Global, words: &'a [String]) -> Result<Form<'a>, WordsFault>
    ensures { ReadsForm (form_of (map string_bytes words.entry.now)) result }
{
    let found = find_form(alloc, words);
    if has_form(words) {
        found
    } else {
        Err(WordsFault::Usage)
    }
}
