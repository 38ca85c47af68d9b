//! The grammar as `clap` is told it, and the parse.
ghost use Rattle.std.specs.Prelude.{◌≡◌, [], IfErr, IfOk, false, fold, map};
ghost use Rattle.std.specs.Rc.{rc_str_bytes};
ghost use Rattle.clap.specs.Words.{app_of, fault_of, found_of, kind_of, matches_of, rows_of, rule_of, with_rule};
ghost use Rattle.clap.specs.declared.error.kind.ErrorKind.TheVariants.{OutOfMemory};
ghost use Rattle.command_words.specs.inner.Parsing.{bare, flag_rule, grundbuch, option_rule, rule_by};

use crate::table::{CommandOption, all_options};
use clap::{Arg, ArgAction, ArgMatches, Command, Error};
use gb_base::NoMemory;
use std::alloc::Global;
use std::rc::RcStr;

/// What `clap` finds in the words by the grammar.
pub(crate) fn parse<'a>(grammar: Command<'a>, words: &'a [RcStr]) -> Result<ArgMatches<'a>, Error>
    ensures found { app_of grammar.entry ≡ grundbuch → IfOk result (λ matches. (fault_of grundbuch (map rc_str_bytes words.now) ≡ [])
        × (rows_of (found_of matches) ≡ matches_of grundbuch (map rc_str_bytes words.now))) }
    ensures refused { app_of grammar.entry ≡ grundbuch
        → IfErr result (λ error. fault_of grundbuch (map rc_str_bytes words.now) ≡ [] → kind_of error ≡ OutOfMemory) }
{
    grammar.try_get_matches_from(words)
}

/// One word that says the command, and the options of all commands.
pub(crate) fn grammar<'a>(alloc: Global) -> Result<Command<'a>, NoMemory>
    ensures { IfOk result (λ command. app_of command ≡ grundbuch) }
{
    let word = start(alloc).arg(Arg::new(alloc, "command"))?;
    with_options(alloc, word, all_options())
}

/// These options besides.
fn with_options<'a>(
    alloc: Global,
    start: Command<'a>,
    options: &[CommandOption],
) -> Result<Command<'a>, NoMemory>
    ensures { IfOk result (λ command. app_of command ≡ fold with_rule (app_of start.entry) (map rule_by options.now)) }
{
    let mut grammar = start;
    for option in options {
        grammar = grammar.arg(argument(alloc, option))?;
    }
    Ok(grammar)
}

/// No word is the program's name, and none asks for help.
fn start<'a>(alloc: Global) -> Command<'a>
    ensures { app_of result ≡ bare }
{
    Command::new(alloc, "grundbuch")
        .no_binary_name(true)
        .disable_help_flag(true)
}

/// `--name`, with a value or without.
fn argument<'a>(alloc: Global, option: &CommandOption) -> Arg<'a>
    ensures rule { rule_of result ≡ rule_by option.now }
    ensures local { result.global ≡ false }
{
    match option.range() {
        Some(_) => valued(alloc, option.name()),
        None => flag(alloc, option.name()),
    }
}

/// `--name`, with a value.
fn valued<'a>(alloc: Global, name: &'a str) -> Arg<'a>
    ensures rule { rule_of result ≡ option_rule name.entry.now }
    ensures local { result.global ≡ false }
{
    Arg::new(alloc, name).long(name)
}

/// `--name`, without a value.
fn flag<'a>(alloc: Global, name: &'a str) -> Arg<'a>
    ensures rule { rule_of result ≡ flag_rule name.entry.now }
    ensures local { result.global ≡ false }
{
    Arg::new(alloc, name).long(name).action(ArgAction::SetTrue)
}
