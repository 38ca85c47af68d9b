//! The words of a run, read.
ghost use Rattle.std.specs.Prelude.{◌≡◌, IfErr, IfOk, IfSome, None, Some};
ghost use Rattle.std.specs.Rc.{rc_str_bytes};
ghost use Rattle.clap.specs.Words.{first_value, found_of};
ghost use Rattle.command_words.specs.Words.{HasDesks, HasRequests, HasSize, command_with, commanded};

use crate::commands::Command;
use crate::forms::are_formed;
use crate::grammar::{grammar, parse};
use crate::options::command_right;
use crate::table::word_of;
use clap::ArgMatches;
use clap::error::ErrorKind;
use std::alloc::Global;
use std::rc::RcStr;

/// Why words gave no command.
#[derive(Clone, Copy, Debug, PartialEq, Eq)]
pub enum WordsFault {
    /// They are no command.
    Usage,
    /// No memory was found to read them.
    Memory,
}

/// The command of these words.
///
/// One word says the command. Its options stand in any order, before that word or after it, each
/// once, as `--name value` or `--name=value`.
pub fn read_words(alloc: Global, words: &[RcStr]) -> Result<Command, WordsFault>
    ensures command { IfOk result (λ command. commanded rc_str_bytes words.now ≡ Some command) }
    ensures usage { IfErr result (λ fault. fault ≡ WordsFault.Usage → commanded rc_str_bytes words.now ≡ None) }
    ensures desks { IfOk result HasDesks }
    ensures size { IfOk result HasSize }
    ensures requests { IfOk result HasRequests }
{
    if !are_formed(words) {
        return Err(WordsFault::Usage);
    }
    let Ok(grammar) = grammar(alloc) else {
        return Err(WordsFault::Memory);
    };
    match parse(grammar, words) {
        Ok(matches) => command_in(&matches),
        Err(error) => Err(fault_from(error.kind())),
    }
}

/// Why words that `clap` refuses are no command: memory ran out, or they are not in the grammar.
fn fault_from(kind: ErrorKind) -> WordsFault
    ensures { result ≡ WordsFault.Usage → kind ≡ ErrorKind.OutOfMemory → ⊥ }
{
    match kind {
        ErrorKind::OutOfMemory => WordsFault::Memory,
        _ => WordsFault::Usage,
    }
}

/// The command that the matches are, where its options are there and no other.
fn command_in(matches: &ArgMatches<'_>) -> Result<Command, WordsFault>
    ensures command { IfOk result (λ command. command_with (first_value (found_of matches.now)) ≡ Some command) }
    ensures usage { IfErr result (λ fault. command_with (first_value (found_of matches.now)) ≡ None) }
    ensures desks { IfOk result HasDesks }
    ensures size { IfOk result HasSize }
    ensures requests { IfOk result HasRequests }
{
    match command_found(matches) {
        Some(command) => Ok(command),
        None => Err(WordsFault::Usage),
    }
}

/// The command of the word that the matches have, if there is one.
fn command_found(matches: &ArgMatches<'_>) -> Option<Command>
    ensures command { result ≡ command_with (first_value (found_of matches.now)) }
    ensures desks { IfSome result HasDesks }
    ensures size { IfSome result HasSize }
    ensures requests { IfSome result HasRequests }
{
    let word = word_of(matches.get_str("command")?)?;
    command_right(&word, matches)
}
