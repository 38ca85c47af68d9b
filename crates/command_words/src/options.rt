//! Which options stand, their numbers, and the command that a word and they are.
ghost use Rattle.std.specs.Prelude.{◌≡◌, ◌≤◌, IfSome};
ghost use Rattle.act_model.specs.Limits.{most_receipts};
ghost use Rattle.clap.specs.Words.{first_value, found_of};
ghost use Rattle.command_words.specs.CommandTable.{range_of};
ghost use Rattle.command_words.specs.Words.{HasDesks, HasRequests, HasSize, command_by, command_right, has_no_other, has_numbers, has_required, is_among, is_in_range, is_true, number, stands};
ghost use Rattle.command_words.specs.inner.Parsing.{text_of};

use crate::commands::Command;
use crate::table::{CommandOption, CommandWord, all_options};
use clap::ArgMatches;
use gb_base::number_in;
use intake::Intake;

/// The command of this word, where the options that stand are right.
pub(crate) fn command_right(word: &CommandWord, matches: &ArgMatches<'_>) -> Option<Command>
    ensures command { result ≡ command_right word.now (stands (first_value (found_of matches.now))) (number (first_value (found_of matches.now))) }
    ensures desks { IfSome result HasDesks }
    ensures size { IfSome result HasSize }
    ensures requests { IfSome result HasRequests }
{
    if has_required(word, matches) && has_no_other(word, matches) && has_numbers(matches) {
        command_by(word, matches)
    } else {
        None
    }
}

/// Whether each option that the command asks for stands.
fn has_required(word: &CommandWord, matches: &ArgMatches<'_>) -> bool
    ensures { result ≡ has_required word.now (stands (first_value (found_of matches.now))) }
{
    word.required().iter().all(|option| stands(matches, option))
}

/// Whether each option that stands is one of the command's own.
fn has_no_other(word: &CommandWord, matches: &ArgMatches<'_>) -> bool
    ensures { result ≡ has_no_other word.now (stands (first_value (found_of matches.now))) }
{
    all_options().iter().all(|option| {
        !stands(matches, option)
            || is_among(word.required(), option)
            || is_among(word.optional(), option)
    })
}

/// Whether the option is one of these.
fn is_among(own: &[CommandOption], option: &CommandOption) -> bool
    ensures { result ≡ is_among own.now option.now }
{
    own.iter().any(|one| one.name() == option.name())
}

/// Whether each option that stands and has a value has a number in its range.
fn has_numbers(matches: &ArgMatches<'_>) -> bool
    ensures { result ≡ has_numbers (stands (first_value (found_of matches.now))) (number (first_value (found_of matches.now))) }
{
    all_options()
        .iter()
        .all(|option| is_in_range(matches, option))
}

/// Whether the option has a number in its range, where it stands and has a value.
fn is_in_range(matches: &ArgMatches<'_>, option: &CommandOption) -> bool
    ensures { result ≡ is_in_range (stands (first_value (found_of matches.now))) (number (first_value (found_of matches.now))) option.now }
{
    !(stands(matches, option) && option.takes_value()) || number(matches, option).is_some()
}

/// The command of this word, by which options stand and which numbers they have.
fn command_by(word: &CommandWord, matches: &ArgMatches<'_>) -> Option<Command>
    ensures command { result ≡ command_by word.now (stands (first_value (found_of matches.now))) (number (first_value (found_of matches.now))) }
    ensures desks { IfSome result HasDesks }
    ensures size { IfSome result HasSize }
    ensures requests { IfSome result HasRequests }
{
    match word {
        CommandWord::Take => Some(Command::Receive {
            intake: Intake::Lines,
        }),
        CommandWord::Settle => settle(matches),
        CommandWord::Serve => serve(matches),
        CommandWord::Sample => sample(matches),
        CommandWord::Opening => opening(matches),
    }
}

/// `settle`: over the input where `--lines` stands, else over the disk.
fn settle(matches: &ArgMatches<'_>) -> Option<Command>
    ensures command { result ≡ command_by CommandWord.Settle (stands (first_value (found_of matches.now))) (number (first_value (found_of matches.now))) }
    ensures desks { IfSome result HasDesks }
    ensures size { IfSome result HasSize }
    ensures requests { IfSome result HasRequests }
{
    let desks = number_of_desks(matches)?;
    if stands(matches, &CommandOption::Lines) {
        Some(Command::SettleLines { desks })
    } else {
        Some(Command::Settle { desks })
    }
}

/// `serve`.
fn serve(matches: &ArgMatches<'_>) -> Option<Command>
    ensures command { result ≡ command_by CommandWord.Serve (stands (first_value (found_of matches.now))) (number (first_value (found_of matches.now))) }
    ensures desks { IfSome result HasDesks }
    ensures size { IfSome result HasSize }
    ensures requests { IfSome result HasRequests }
{
    Some(Command::Serve {
        desks: number_of_desks(matches)?,
        requests: number_of_requests(matches)?,
    })
}

/// `sample`.
fn sample(matches: &ArgMatches<'_>) -> Option<Command>
    ensures command { result ≡ command_by CommandWord.Sample (stands (first_value (found_of matches.now))) (number (first_value (found_of matches.now))) }
    ensures desks { IfSome result HasDesks }
    ensures size { IfSome result HasSize }
    ensures requests { IfSome result HasRequests }
{
    Some(Command::Sample {
        seed: number(matches, &CommandOption::Seed)?,
        size: number_of_receipts(matches)?,
        desks: number_of_desks(matches)?,
    })
}

/// `opening`.
fn opening(matches: &ArgMatches<'_>) -> Option<Command>
    ensures command { result ≡ command_by CommandWord.Opening (stands (first_value (found_of matches.now))) (number (first_value (found_of matches.now))) }
    ensures desks { IfSome result HasDesks }
    ensures size { IfSome result HasSize }
    ensures requests { IfSome result HasRequests }
{
    let sender = number(matches, &CommandOption::Sender)?;
    Some(Command::Receive {
        intake: Intake::OpeningList {
            sender: sender as u32,
        },
    })
}

/// The number of desks: 1 to 64.
fn number_of_desks(matches: &ArgMatches<'_>) -> Option<u16>
    ensures value { result ≡ number (first_value (found_of matches.now)) CommandOption.Desks }
    ensures bounds { IfSome result (λ desks. (1 ≤ desks) × (desks ≤ 64)) }
{
    let desks = number(matches, &CommandOption::Desks)?;
    Some(desks as u16)
}

/// The number of requests: 1 to 1,000,000.
fn number_of_requests(matches: &ArgMatches<'_>) -> Option<u32>
    ensures value { result ≡ number (first_value (found_of matches.now)) CommandOption.Requests }
    ensures bounds { IfSome result (λ requests. (1 ≤ requests) × (requests ≤ 1000000)) }
{
    let requests = number(matches, &CommandOption::Requests)?;
    Some(requests as u32)
}

/// The number of receipts: 1 to 200,000.
fn number_of_receipts(matches: &ArgMatches<'_>) -> Option<u32>
    ensures value { result ≡ number (first_value (found_of matches.now)) CommandOption.Size }
    ensures bounds { IfSome result (λ size. (1 ≤ size) × (size ≤ most_receipts)) }
{
    let size = number(matches, &CommandOption::Size)?;
    Some(size as u32)
}

/// The number of the option, where it stands and the number is in its range.
fn number(matches: &ArgMatches<'_>, option: &CommandOption) -> Option<u64>
    ensures value { result ≡ number (first_value (found_of matches.now)) option.now }
    ensures range { IfSome result (λ n. IfSome (range_of option.now) (λ range. (range.low ≤ n) × (n ≤ range.high))) }
{
    let text = matches.get_str(option.name())?;
    let range = option.range()?;
    number_in(text.as_bytes(), range.low, range.high)
}

/// Whether the option stands. One without a value is `false` where it is not given.
fn stands(matches: &ArgMatches<'_>, option: &CommandOption) -> bool
    ensures { result ≡ stands (first_value (found_of matches.now)) option.now }
{
    let value = matches.get_str(option.name());
    match option.range() {
        Some(_) => value.is_some(),
        None => is_true(value),
    }
}

/// Whether the value is `true`.
fn is_true(value: Option<&str>) -> bool
    ensures { result ≡ is_true (text_of value.entry) }
{
    match value {
        Some(value) => value == "true",
        None => false,
    }
}
