//! The forms that a word may have.
ghost use Rattle.std.specs.Prelude.{◌≡◌};
ghost use Rattle.std.specs.Rc.{rc_str_bytes};
ghost use Rattle.std.specs.List.{list_all};
ghost use Rattle.command_words.specs.inner.Parsing.{is_formed};

use std::rc::RcStr;

/// Whether each word has a form that the grammar knows.
///
/// `clap` takes a bare hyphen for a value and `--` for the end of the options. Neither is a word
/// here, and no option has a short name.
pub(crate) fn are_formed(words: &[RcStr]) -> bool
    ensures { result ≡ list_all (λ word. is_formed (rc_str_bytes word)) words.now }
{
    words.iter().all(|word| is_formed(word.as_bytes()))
}

/// Whether the word begins with no hyphen, or with two hyphens and more behind them.
fn is_formed(word: &[u8]) -> bool
    ensures { result ≡ is_formed word.now }
{
    match word {
        [b'-', b'-', _, ..] => true,
        [b'-', ..] => false,
        _ => true,
    }
}
