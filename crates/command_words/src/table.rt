//! The commands, the options of each, and the range of each option's value.
ghost use Rattle.std.specs.Prelude.{◌≡◌};
ghost use Rattle.command_words.specs.CommandTable.{all_options, name_of, optional_of, range_of, required_of, word_of};
ghost use Rattle.command_words.specs.Words.{takes_value};

/// The word that says a command.
#[derive(Clone, Copy)]
pub(crate) enum CommandWord {
    Take,
    Settle,
    Serve,
    Sample,
    Opening,
}

/// An option of some command, `--name`.
#[derive(Clone, Copy)]
pub(crate) enum CommandOption {
    Desks,
    Requests,
    Seed,
    Size,
    Sender,
    Lines,
}

/// The lowest and the highest value of an option.
#[derive(Clone, Copy)]
pub(crate) struct ValueRange {
    pub(crate) low: u64,
    pub(crate) high: u64,
}

/// The command that this word says.
pub(crate) fn word_of(text: &str) -> Option<CommandWord>
    ensures { result ≡ word_of text.now }
{
    match text {
        "take" => Some(CommandWord::Take),
        "settle" => Some(CommandWord::Settle),
        "serve" => Some(CommandWord::Serve),
        "sample" => Some(CommandWord::Sample),
        "opening" => Some(CommandWord::Opening),
        _ => None,
    }
}

/// All options. Those without a value stand last.
pub(crate) fn all_options() -> &'static [CommandOption]
    ensures { result.now ≡ all_options }
{
    &[
        CommandOption::Desks,
        CommandOption::Requests,
        CommandOption::Seed,
        CommandOption::Size,
        CommandOption::Sender,
        CommandOption::Lines,
    ]
}

impl CommandWord {
    /// The options that the command asks for.
    pub(crate) fn required(&self) -> &'static [CommandOption]
        ensures { result.now ≡ required_of self.now }
    {
        match self {
            CommandWord::Take => &[],
            CommandWord::Settle => &[CommandOption::Desks],
            CommandWord::Serve => &[CommandOption::Desks, CommandOption::Requests],
            CommandWord::Sample => &[
                CommandOption::Seed,
                CommandOption::Size,
                CommandOption::Desks,
            ],
            CommandWord::Opening => &[CommandOption::Sender],
        }
    }

    /// The options that may stand besides.
    pub(crate) fn optional(&self) -> &'static [CommandOption]
        ensures { result.now ≡ optional_of self.now }
    {
        match self {
            CommandWord::Settle => &[CommandOption::Lines],
            _ => &[],
        }
    }
}

impl CommandOption {
    /// The name, as it stands after two hyphens.
    ///
    /// `clap` keeps names for as long as it borrows the words, so the caller says for how long.
    pub(crate) fn name<'a>(&self) -> &'a str
        ensures { result.now ≡ name_of self.now }
    {
        match self {
            CommandOption::Desks => "desks",
            CommandOption::Requests => "requests",
            CommandOption::Seed => "seed",
            CommandOption::Size => "size",
            CommandOption::Sender => "sender",
            CommandOption::Lines => "lines",
        }
    }

    /// Whether the option has a value.
    pub(crate) fn takes_value(&self) -> bool
        ensures { result ≡ takes_value self.now }
    {
        self.range().is_some()
    }

    /// The range of the option's value. None where it has no value.
    pub(crate) fn range(&self) -> Option<ValueRange>
        ensures { result ≡ range_of self.now }
    {
        match self {
            CommandOption::Desks => range(1, 64),
            CommandOption::Requests => range(1, 1_000_000),
            CommandOption::Seed => range(0, 9_999_999_999),
            CommandOption::Size => range(1, 200_000),
            CommandOption::Sender => range(0, 4_294_967_295),
            CommandOption::Lines => None,
        }
    }
}

/// Values from `low` to `high`.
fn range(low: u64, high: u64) -> Option<ValueRange>
    ensures { result ≡ Some (record { low = low; high = high }) }
{
    Some(ValueRange { low, high })
}
