//! The summary: how many receipts became what, and what stands in the register at the end.
ghost use Rattle.std.specs.Prelude.{◌≡◌, ◌≤◌, ◌*◌, ◌++◌, IfOk, OnOk, cond, count_by, length, map, sum_by};
ghost use Rattle.std.specs.String.{string_bytes};
ghost use Rattle.gb_base.specs.Limits.{most_cents};
ghost use Rattle.rank_slots.specs.Limits.{most_places};
ghost use Rattle.folio_sections.specs.Held.{entries_at};
ghost use Rattle.kept_registers.specs.Kept.{Kept};
ghost use Rattle.folio_line.specs.FolioSlots.{capital_at};
ghost use Rattle.registrar.specs.Settling.{Settlement};
ghost use Rattle.folio_extract.specs.Reports.{Tells};
ghost use Rattle.folio_extract.specs.Summaries.{amount_line, capital_in, decided_lines, is_cured, is_entered, is_interim, is_other, is_rejected, money_of, other_lines, rights_in, standing_lines, summary, summary_text};
ghost use Rattle.folio_extract.specs.inner.Tallies.{counts_as};

use crate::folio_reads::line_of;
use act_model::{Journal, is_a_journal};
use folio_line::CreatedRight;
use folio_sections::Parts;
use gb_base::{Euros, FolioId, NoMemory, RightId};
use registrar::{Register, Verdict};
use std::alloc::Global;

/// The summary of a register, ten lines: how many receipts it has, and how many of them were
/// entered, rejected, wait by an interim order, were cured, or became anything else; how many folios
/// are open, how many rights are live in them, and their capitals; and the money of all
/// distributions. Amounts are whole euros, a point and two digits. May run out of memory
/// (NoMemory).
pub fn summary(alloc: Global, register: &Register, journal: &Journal) -> Result<Vec<u8>, NoMemory>
    requires kept { Kept journal.now.receipts (entries_at register.now.parts) }
    ensures text { IfOk result (λ text. text.items ≡ summary_text (map (λ v. v.1) register.now.verdicts) (entries_at register.now.parts) register.now.folios) }
    ensures summary { (settled : Settlement) → Tells register.now settled → IfOk result (λ text. text.items ≡ summary settled) }
{
    whole_summary(alloc, register, journal)
}

/// The text of the summary.
fn whole_summary(alloc: Global, register: &Register, journal: &Journal) -> Result<Vec<u8>, NoMemory>
    requires { Kept journal.now.receipts (entries_at register.now.parts) }
    ensures { IfOk result (λ text. text.items ≡ summary_text (map (λ v. v.1) register.now.verdicts) (entries_at register.now.parts) register.now.folios) }
{
    let verdicts = register.verdicts();
    let mut text = String::new(alloc);
    add_decided(&mut text, verdicts)?;
    add_others(&mut text, verdicts)?;
    add_standing(alloc, &mut text, register, journal)?;
    add_amount(&mut text, "paid ", paid(verdicts))?;
    Ok(text.into_bytes())
}

// ---- what the receipts became

/// Adds how many receipts there are, are entered, and are rejected.
fn add_decided(text: &mut String, verdicts: &[Verdict]) -> Result<(), NoMemory>
    ensures { OnOk result (string_bytes text.new ≡ string_bytes text.old ++ decided_lines verdicts.now) }
{
    writeln!(text, "receipts {}", verdicts.len())?;
    writeln!(text, "entered {}", count(verdicts, Tally::Entered))?;
    writeln!(text, "rejected {}", count(verdicts, Tally::Rejected))?;
    Ok(())
}

/// Adds how many wait, are cured, and became anything else.
fn add_others(text: &mut String, verdicts: &[Verdict]) -> Result<(), NoMemory>
    ensures { OnOk result (string_bytes text.new ≡ string_bytes text.old ++ other_lines verdicts.now) }
{
    writeln!(text, "interim {}", count(verdicts, Tally::Interim))?;
    writeln!(text, "cured {}", count(verdicts, Tally::Cured))?;
    writeln!(text, "other {}", count(verdicts, Tally::Other))?;
    Ok(())
}

/// What verdicts count as.
#[derive(Clone, Copy, Debug)]
pub(crate) enum Tally {
    Entered,
    Rejected,
    Interim,
    Cured,
    Other,
}

/// How many of these verdicts count as this.
fn count(verdicts: &[Verdict], tally: Tally) -> usize
    ensures { result ≡ count_by (counts_as tally) verdicts.now }
{
    let mut count = 0;
    for verdict in verdicts {
        count += one_if(counts_as(verdict, tally));
    }
    count
}

fn one_if(holds: bool) -> usize
    ensures value { result ≡ cond holds 1 0 }
    ensures bound { result ≤ 1 }
{
    if holds { 1 } else { 0 }
}

/// Whether the verdict counts as this.
fn counts_as(verdict: &Verdict, tally: Tally) -> bool
    ensures { result ≡ counts_as tally verdict.now }
{
    match tally {
        Tally::Entered => is_entered(verdict),
        Tally::Rejected => is_rejected(verdict),
        Tally::Interim => is_interim(verdict),
        Tally::Cured => is_cured(verdict),
        Tally::Other => is_other(verdict),
    }
}

/// The filing is entered at once.
fn is_entered(verdict: &Verdict) -> bool
    ensures { result ≡ is_entered verdict.now }
{
    matches!(verdict, Verdict::Entered)
}

/// The filing, the filing that a cure names, the item of a forced sale or the bid is rejected.
fn is_rejected(verdict: &Verdict) -> bool
    ensures { result ≡ is_rejected verdict.now }
{
    match verdict {
        Verdict::Rejected(_) | Verdict::CureRejected(_) | Verdict::BidTooLow { .. } => true,
        _ => false,
    }
}

/// The filing waits by an interim order.
fn is_interim(verdict: &Verdict) -> bool
    ensures { result ≡ is_interim verdict.now }
{
    matches!(verdict, Verdict::Interim { .. })
}

/// The filing that the cure names is entered.
fn is_cured(verdict: &Verdict) -> bool
    ensures { result ≡ is_cured verdict.now }
{
    matches!(verdict, Verdict::Cured)
}

/// It is neither entered, rejected, interim nor cured.
fn is_other(verdict: &Verdict) -> bool
    ensures { result ≡ is_other verdict.now }
{
    !(is_entered(verdict) || is_rejected(verdict) || is_interim(verdict) || is_cured(verdict))
}

/// The money of all distributions, in cents.
fn paid(verdicts: &[Verdict]) -> u128
    ensures { result ≡ sum_by money_of verdicts.now }
{
    let mut cents = 0;
    for verdict in verdicts {
        cents += u128::from(money_of(verdict));
    }
    cents
}

/// The money that is distributed, in cents; 0 of every other verdict.
fn money_of(verdict: &Verdict) -> u64
    ensures { result ≡ money_of verdict.now }
{
    match verdict {
        Verdict::Distributed { money } => *money,
        _ => 0,
    }
}

// ---- what stands in the open folios

/// How many rights are live, and their capitals together, in cents.
#[derive(Clone, Copy, Debug)]
struct Standing {
    rights: u128,
    capital: u128,
}

/// Adds how many folios are open, how many rights are live in them, and the capitals of these.
fn add_standing(
    alloc: Global,
    text: &mut String,
    register: &Register,
    journal: &Journal,
) -> Result<(), NoMemory>
    requires { Kept journal.now.receipts (entries_at register.now.parts) }
    ensures { OnOk result (string_bytes text.new ≡ string_bytes text.old ++ standing_lines (entries_at register.now.parts) register.now.folios) }
{
    let standing = standing_in_all(alloc, register, journal)?;
    writeln!(text, "folios {}", register.folios().len())?;
    writeln!(text, "rights {}", standing.rights)?;
    add_amount(text, "capital ", standing.capital)
}

/// What stands in all open folios.
fn standing_in_all(
    alloc: Global,
    register: &Register,
    journal: &Journal,
) -> Result<Standing, NoMemory>
    requires { Kept journal.now.receipts (entries_at register.now.parts) }
    ensures rights { IfOk result (λ s. s.rights ≡ sum_by (rights_in (entries_at register.now.parts)) register.now.folios) }
    ensures capital { IfOk result (λ s. s.capital ≡ sum_by (capital_in (entries_at register.now.parts)) register.now.folios) }
{
    let mut rights = 0;
    let mut capital = 0;
    for folio in register.folios() {
        let standing = standing_in(alloc, register, journal, *folio)?;
        rights += standing.rights;
        capital += standing.capital;
    }
    Ok(Standing { rights, capital })
}

/// What stands in an open folio.
fn standing_in(
    alloc: Global,
    register: &Register,
    journal: &Journal,
    folio: FolioId,
) -> Result<Standing, NoMemory>
    requires { Kept journal.now.receipts (entries_at register.now.parts) }
    ensures rights { IfOk result (λ s. s.rights ≡ rights_in (entries_at register.now.parts) folio) }
    ensures capital { IfOk result (λ s. s.capital ≡ capital_in (entries_at register.now.parts) folio) }
    ensures few { IfOk result (λ s. s.rights ≤ most_places) }
    ensures bound { IfOk result (λ s. s.capital ≤ most_places * most_cents) }
{
    is_a_journal(journal);
    let line = line_of(alloc, register, folio)?;
    let live = line.live();
    let capital = capital_of_all(register, folio, live);
    Ok(Standing {
        rights: live.len() as u128,
        capital,
    })
}

/// The capitals of these rights of the folio together, in cents.
fn capital_of_all(register: &Register, folio: FolioId, rights: &[CreatedRight]) -> u128
    ensures value { result ≡ sum_by (λ x. capital_at (entries_at register.now.parts) folio x.id) rights.now }
    ensures bound { result ≤ length rights.now * most_cents }
{
    let mut cents = 0;
    for right in rights {
        cents += u128::from(capital_of(register, folio, right.id));
    }
    cents
}

/// The capital of a right of the folio, in cents; 0 where it has none.
#[tactic(auto, using(folio_line::specs::inner::NotHeld::not_held))]
fn capital_of(register: &Register, folio: FolioId, id: RightId) -> u64
    ensures value { result ≡ capital_at (entries_at register.now.parts) folio id }
    ensures bound { result ≤ most_cents }
{
    match register.right(folio, id) {
        Some(part) => match part.capital() {
            Some(capital) => capital.get(),
            None => 0,
        },
        None => 0,
    }
}

// ---- how amounts are written

/// Adds an amount of cents after a word, as whole euros, a point and two digits.
fn add_amount(text: &mut String, word: &str, cents: u128) -> Result<(), NoMemory>
    ensures { OnOk result (string_bytes text.new ≡ string_bytes text.old ++ amount_line word.now cents) }
{
    text.push_str(word)?;
    writeln!(text, "{}", Euros { cents })?;
    Ok(())
}
