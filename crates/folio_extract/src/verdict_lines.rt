//! What becomes of a receipt, as a line.
ghost use Rattle.std.specs.Prelude.{◌≡◌, ◌++◌, IfOk, OnOk, codes, option_map};
ghost use Rattle.std.specs.String.{string_bytes};
ghost use Rattle.gb_base.specs.Texts.{date_text, euro};
ghost use Rattle.registrar.specs.RegisterState.{verdict_among};
ghost use Rattle.folio_extract.specs.VerdictLines.{defect_text, defects_text, verdict_line, verdict_lines, verdict_text};

use consent_rules::Defect;
use gb_base::{Day, Euros, NoMemory, ReceiptNo};
use registrar::{Register, Verdict};
use std::alloc::Global;

/// What became of receipt n, as a line; None beyond the journal.
pub fn verdict_line(
    alloc: Global,
    register: &Register,
    n: ReceiptNo,
) -> Result<Option<Vec<u8>>, NoMemory>
    ensures text { IfOk result (λ text. option_map (λ t. t.items) text ≡ option_map (verdict_line n) (verdict_among register.now.verdicts n)) }
{
    match register.verdict(n) {
        Some(verdict) => {
            let mut text = String::new(alloc);
            add_verdict_line(&mut text, n.get() as usize, verdict)?;
            Ok(Some(text.into_bytes()))
        }
        None => Ok(None),
    }
}

/// Adds a line for each receipt.
pub(crate) fn add_verdict_lines(text: &mut String, register: &Register) -> Result<(), NoMemory>
    ensures { OnOk result (string_bytes text.new ≡ string_bytes text.old ++ verdict_lines register.now.verdicts) }
{
    let verdicts = register.verdicts();
    for (index, verdict) in verdicts.iter().enumerate() {
        add_verdict_line(text, index + 1, verdict)?;
    }
    Ok(())
}

/// Adds the line of what becomes of receipt n. Where memory runs out, a part of the line may stand
/// in the text.
fn add_verdict_line(text: &mut String, n: usize, verdict: &Verdict) -> Result<(), NoMemory>
    ensures { OnOk result (string_bytes text.new ≡ string_bytes text.old ++ verdict_line n verdict.now) }
{
    write!(text, "receipt {n} ")?;
    add_verdict(text, verdict)?;
    text.push_str("\n")?;
    Ok(())
}

/// Adds the words of a verdict, as `rejected GBO 19`.
fn add_verdict(text: &mut String, verdict: &Verdict) -> Result<(), NoMemory>
    ensures { OnOk result (string_bytes text.new ≡ string_bytes text.old ++ verdict_text verdict.now) }
{
    match verdict {
        Verdict::Entered => text.push_str("entered")?,
        Verdict::Rejected(section) => write!(text, "rejected {section}")?,
        Verdict::Interim { until, defects } => add_interim(text, *until, defects.list())?,
        Verdict::Cured => text.push_str("cured")?,
        Verdict::CureRejected(section) => write!(text, "filing rejected {section}")?,
        Verdict::StillOpen(defects) => add_still_open(text, defects.list())?,
        Verdict::Lapsed => text.push_str("lapsed GBO 18")?,
        Verdict::TooEarly(until) => write!(text, "too early {until}")?,
        Verdict::Extended { until } => write!(text, "extended until {until}")?,
        Verdict::TooLate(until) => write!(text, "too late {until}")?,
        Verdict::NotPending => text.push_str("not pending")?,
        Verdict::Seized => text.push_str("seized")?,
        Verdict::Registered => text.push_str("registered")?,
        Verdict::Lowest { total, cash } => add_amounts(text, "lowest ", *total, *cash)?,
        Verdict::Awarded => text.push_str("awarded")?,
        Verdict::BidTooLow { bid, cash } => {
            add_amounts(text, "rejected ZVG 44 bid ", *bid, *cash)?
        }
        Verdict::Distributed { money } => add_distributed(text, *money)?,
    }
    Ok(())
}

/// Adds these words with an amount, and the part in cash, both in cents.
fn add_amounts(text: &mut String, words: &str, amount: u64, cash: u64) -> Result<(), NoMemory>
    ensures { OnOk result (string_bytes text.new ≡ string_bytes text.old
        ++ (words.now ++ (euro amount ++ (codes " cash " ++ euro cash)))) }
{
    text.push_str(words)?;
    add_euro(text, amount)?;
    text.push_str(" cash ")?;
    add_euro(text, cash)
}

/// Adds the words of a distribution of so much money, in cents.
fn add_distributed(text: &mut String, money: u64) -> Result<(), NoMemory>
    ensures { OnOk result (string_bytes text.new ≡ string_bytes text.old ++ (codes "distributed " ++ euro money)) }
{
    text.push_str("distributed ")?;
    add_euro(text, money)
}

/// Adds an amount of cents as whole euros, a point and two digits. Sums of a sale may be above what a
/// single amount may be.
pub(crate) fn add_euro(text: &mut String, cents: u64) -> Result<(), NoMemory>
    ensures { OnOk result (string_bytes text.new ≡ string_bytes text.old ++ euro cents) }
{
    let cents = u128::from(cents);
    write!(text, "{}", Euros { cents })?;
    Ok(())
}

/// Adds the words of an interim order.
fn add_interim(text: &mut String, until: Day, defects: &[Defect]) -> Result<(), NoMemory>
    ensures { OnOk result (string_bytes text.new ≡ string_bytes text.old
        ++ (codes "interim until " ++ (date_text until ++ (codes " for " ++ defects_text defects.now)))) }
{
    write!(text, "interim until {until} for ")?;
    add_defects(text, defects)
}

/// Adds the words of a cure that leaves these defects.
fn add_still_open(text: &mut String, defects: &[Defect]) -> Result<(), NoMemory>
    ensures { OnOk result (string_bytes text.new ≡ string_bytes text.old ++ (codes "still open for " ++ defects_text defects.now)) }
{
    text.push_str("still open for ")?;
    add_defects(text, defects)
}

/// Adds these defects, with a comma and a space between.
fn add_defects(text: &mut String, defects: &[Defect]) -> Result<(), NoMemory>
    ensures { OnOk result (string_bytes text.new ≡ string_bytes text.old ++ defects_text defects.now) }
{
    let Some((first, others)) = defects.split_first() else {
        return Ok(());
    };
    add_defect(text, first)?;
    for defect in others {
        text.push_str(", ")?;
        add_defect(text, defect)?;
    }
    Ok(())
}

/// Adds a defect, as `GBO 19 act 1`.
fn add_defect(text: &mut String, defect: &Defect) -> Result<(), NoMemory>
    ensures { OnOk result (string_bytes text.new ≡ string_bytes text.old ++ defect_text defect.now) }
{
    write!(text, "{} act {}", defect.section, defect.act)?;
    Ok(())
}
