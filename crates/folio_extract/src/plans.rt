//! The plans of a register's distributions, as texts and as lists (ZVG §§ 105, 113, 114).
ghost use Rattle.std.specs.Prelude.{◌≡◌, ◌≤◌, ◌++◌, All, IfOk, IsSomeAnd, IsTrue, OnOk, [], flat_map, is_some, option_and_then, option_map};
ghost use Rattle.std.specs.Option.{option_map_or};
ghost use Rattle.std.specs.String.{string_bytes};
ghost use Rattle.act_model.specs.Receiving.{item_at};
ghost use Rattle.folio_sections.specs.Cases.{is_distribution};
ghost use Rattle.folio_sections.specs.Held.{entries_at};
ghost use Rattle.auction_classes.specs.LowestBid.{lowest_bid};
ghost use Rattle.auction_classes.specs.SaleClaims.{claimed_in};
ghost use Rattle.auction_classes.specs.Sales.{sale_at};
ghost use Rattle.sale_rules.specs.SaleMoney.{money};
ghost use Rattle.proceeds_split.specs.Plan.{plan_of};
ghost use Rattle.registrar.specs.HasSettled.{IsRegisterOf};
ghost use Rattle.registrar.specs.KeptDistributions.{IsDistributionKept};
ghost use Rattle.folio_extract.specs.Plans.{distributed_by, folio_distributed, folio_named, plan_by, plan_in_csv, plan_in_words, plan_lines, plans_of_folio, sale_distributed};
ghost use Rattle.folio_extract.specs.inner.TellsPlans.{LinesFit, TellsPlans};

use crate::folio_reads::case_entries;
use crate::plan_lines::add_plan_lines;
use crate::plan_lists::csv_of_lines;
use act_model::{Item, Journal, is_a_journal};
use auction_classes::Claims;
use folio_line::{FolioReading, count_exchanges, rights_filed};
use folio_sections::{Entry, What};
use gb_base::{FolioId, NoMemory, ReceiptNo};
use proceeds_split::{Plan, split};
use rank_slots::Slots;
use registrar::laws::{distributions_are_covered, registers_are_kept};
use registrar::{Register, Verdict};
use sale_rules::money_distributed;
use std::alloc::Global;

/// The plan by which receipt n distributes the proceeds of a sale, in words; None where it has no
/// verdict that says so.
pub fn plan_text(
    alloc: Global,
    register: &Register,
    journal: &Journal,
    n: ReceiptNo,
) -> Result<Option<Vec<u8>>, NoMemory>
    requires register { IsRegisterOf journal.now.receipts register.now }
    ensures text { IfOk result (λ text. option_map (λ t. t.items) text
        ≡ option_map plan_in_words (sale_distributed journal.now.receipts register.now.verdicts (entries_at register.now.parts) n)) }
    ensures there { IfOk result (λ text. is_some text ≡ is_some (distributed_by register.now.verdicts n)) }
{
    tells_plans(register, journal);
    match folio_distributed(register, journal, n) {
        Some(folio) => {
            let text = text_of_plan(alloc, register, journal, n, folio)?;
            Ok(Some(text))
        }
        None => Ok(None),
    }
}

/// The plan by which receipt n distributes the proceeds of a sale, as a list in CSV with amounts in cents.
pub fn plan_csv(
    alloc: Global,
    register: &Register,
    journal: &Journal,
    n: ReceiptNo,
) -> Result<Option<Vec<u8>>, NoMemory>
    requires register { IsRegisterOf journal.now.receipts register.now }
    ensures text { IfOk result (λ text. option_map (λ t. t.items) text
        ≡ option_map plan_in_csv (sale_distributed journal.now.receipts register.now.verdicts (entries_at register.now.parts) n)) }
    ensures there { IfOk result (λ text. is_some text ≡ is_some (distributed_by register.now.verdicts n)) }
{
    tells_plans(register, journal);
    match folio_distributed(register, journal, n) {
        Some(folio) => {
            let list = list_of_plan(alloc, register, journal, n, folio)?;
            Ok(Some(list))
        }
        None => Ok(None),
    }
}

/// Takes nothing and does nothing. After it is known what the register of the one registrar tells of
/// distributions.
pub(crate) fn tells_plans(register: &Register, journal: &Journal)
    requires { IsRegisterOf journal.now.receipts register.now }
    ensures { TellsPlans journal.now.receipts register.now }
{
    register.verdicts();
    is_a_journal(journal);
    registers_are_kept();
    distributions_are_covered();
}

/// The plan of a distribution in words.
fn text_of_plan(
    alloc: Global,
    register: &Register,
    journal: &Journal,
    n: ReceiptNo,
    folio: FolioId,
) -> Result<Vec<u8>, NoMemory>
    requires told { TellsPlans journal.now.receipts register.now }
    requires kept { IsDistributionKept journal.now.receipts (entries_at register.now.parts) folio n }
    ensures { IfOk result (λ text. text.items ≡ plan_in_words (sale_at journal.now.receipts (entries_at register.now.parts) folio n)) }
{
    let mut text = String::new(alloc);
    add_plan(alloc, &mut text, register, journal, n, folio)?;
    Ok(text.into_bytes())
}

/// The plan of a distribution as a list in CSV.
fn list_of_plan(
    alloc: Global,
    register: &Register,
    journal: &Journal,
    n: ReceiptNo,
    folio: FolioId,
) -> Result<Vec<u8>, NoMemory>
    requires told { TellsPlans journal.now.receipts register.now }
    requires kept { IsDistributionKept journal.now.receipts (entries_at register.now.parts) folio n }
    ensures { IfOk result (λ list. list.items ≡ plan_in_csv (sale_at journal.now.receipts (entries_at register.now.parts) folio n)) }
{
    let money = money_of(register, journal, n, folio);
    let plan = plan_of(alloc, register, journal, n, folio, money)?;
    csv_of_lines(alloc, plan.lines())
}

/// The folio whose proceeds receipt n distributes; None where it has no verdict that says so.
fn folio_distributed(register: &Register, journal: &Journal, n: ReceiptNo) -> Option<FolioId>
    ensures { result ≡ folio_distributed journal.now.receipts register.now.verdicts n }
{
    if is_distributed(register, n) {
        folio_named(journal, n)
    } else {
        None
    }
}

/// Whether receipt n has a verdict that says that it distributes proceeds.
fn is_distributed(register: &Register, n: ReceiptNo) -> bool
    ensures { result ≡ is_some (distributed_by register.now.verdicts n) }
{
    matches!(register.verdict(n), Some(Verdict::Distributed { .. }))
}

/// The folio of receipt n, where it is a distribution.
fn folio_named(journal: &Journal, n: ReceiptNo) -> Option<FolioId>
    ensures { result ≡ option_and_then folio_named (item_at journal.now.receipts n) }
{
    match &journal.get(n)?.item {
        Item::Distribute { folio } => Some(*folio),
        _ => None,
    }
}

/// Adds the plans of a folio's distributions, in the order of their receipts.
pub(crate) fn add_plans(
    alloc: Global,
    text: &mut String,
    register: &Register,
    journal: &Journal,
    folio: FolioId,
) -> Result<(), NoMemory>
    requires told { TellsPlans journal.now.receipts register.now }
    ensures { OnOk result (string_bytes text.new ≡ string_bytes text.old ++ plans_of_folio journal.now.receipts (entries_at register.now.parts) folio) }
{
    let entries = case_entries(register, folio);
    add_plans_by(alloc, text, register, journal, folio, entries)
}

/// Adds the plans that these entries at the forced sale of a folio bring.
fn add_plans_by(
    alloc: Global,
    text: &mut String,
    register: &Register,
    journal: &Journal,
    folio: FolioId,
    entries: &[Entry],
) -> Result<(), NoMemory>
    requires told { TellsPlans journal.now.receipts register.now }
    requires kept { All (λ e. IsTrue (is_distribution e.what) → IsDistributionKept journal.now.receipts (entries_at register.now.parts) folio e.receipt) entries.now }
    ensures { OnOk result (string_bytes text.new ≡ string_bytes text.old ++ flat_map (plan_by journal.now.receipts (entries_at register.now.parts) folio) entries.now) }
{
    for entry in entries {
        add_plan_by(alloc, text, register, journal, folio, entry)?;
    }
    Ok(())
}

/// Adds the plan that an entry at the forced sale of a folio brings, where it is a distribution.
fn add_plan_by(
    alloc: Global,
    text: &mut String,
    register: &Register,
    journal: &Journal,
    folio: FolioId,
    entry: &Entry,
) -> Result<(), NoMemory>
    requires told { TellsPlans journal.now.receipts register.now }
    requires kept { IsTrue (is_distribution entry.now.what) → IsDistributionKept journal.now.receipts (entries_at register.now.parts) folio entry.now.receipt }
    ensures { OnOk result (string_bytes text.new ≡ string_bytes text.old ++ plan_by journal.now.receipts (entries_at register.now.parts) folio entry.now) }
{
    if is_distribution(&entry.what) {
        add_plan(alloc, text, register, journal, entry.receipt, folio)
    } else {
        Ok(())
    }
}

/// Whether the proceeds are distributed.
fn is_distribution(what: &What) -> bool
    ensures { result ≡ is_distribution what.now }
{
    matches!(what, What::Distributed)
}

/// Adds the plan of the distribution by receipt n in a folio.
fn add_plan(
    alloc: Global,
    text: &mut String,
    register: &Register,
    journal: &Journal,
    n: ReceiptNo,
    folio: FolioId,
) -> Result<(), NoMemory>
    requires told { TellsPlans journal.now.receipts register.now }
    requires kept { IsDistributionKept journal.now.receipts (entries_at register.now.parts) folio n }
    ensures { OnOk result (string_bytes text.new ≡ string_bytes text.old ++ plan_in_words (sale_at journal.now.receipts (entries_at register.now.parts) folio n)) }
{
    let money = money_of(register, journal, n, folio);
    let plan = plan_of(alloc, register, journal, n, folio, money)?;
    add_plan_lines(text, n, folio, money, plan.lines())
}

/// The money of the distribution by receipt n in a folio, in cents.
fn money_of(register: &Register, journal: &Journal, n: ReceiptNo, folio: FolioId) -> u64
    requires told { TellsPlans journal.now.receipts register.now }
    requires kept { IsDistributionKept journal.now.receipts (entries_at register.now.parts) folio n }
    ensures { result ≡ money (sale_at journal.now.receipts (entries_at register.now.parts) folio n) }
{
    money_distributed(register, journal, n, folio)
}

/// The plan of the distribution by receipt n in a folio, whose money is so many cents.
fn plan_of(
    alloc: Global,
    register: &Register,
    journal: &Journal,
    n: ReceiptNo,
    folio: FolioId,
    cents: u64,
) -> Result<Plan, NoMemory>
    requires told { TellsPlans journal.now.receipts register.now }
    requires kept { IsDistributionKept journal.now.receipts (entries_at register.now.parts) folio n }
    requires money { cents ≡ money (sale_at journal.now.receipts (entries_at register.now.parts) folio n) }
    ensures { IfOk result (λ plan. plan ≡ plan_lines (sale_at journal.now.receipts (entries_at register.now.parts) folio n)) }
{
    let claims = claims_of(alloc, register, journal, n, folio)?;
    plan_for(alloc, &claims, cents)
}

/// What is claimed in the sale as receipt n, which distributes its proceeds, finds it.
fn claims_of(
    alloc: Global,
    register: &Register,
    journal: &Journal,
    n: ReceiptNo,
    folio: FolioId,
) -> Result<Claims, NoMemory>
    requires told { TellsPlans journal.now.receipts register.now }
    requires kept { IsDistributionKept journal.now.receipts (entries_at register.now.parts) folio n }
    ensures claimed { IfOk result (λ claims. claims.claimed ≡ claimed_in (sale_at journal.now.receipts (entries_at register.now.parts) folio n)) }
    ensures fit { IfOk result LinesFit }
{
    let rights = rights_filed(journal, Some(n), folio);
    let reading = FolioReading {
        parts: register,
        folio,
        before: None,
    };
    let exchanges = count_exchanges(&reading, rights)?;
    let mut claims = Claims::with_room(alloc, rights.len(), exchanges)?;
    claims.fill(register, journal, folio, n);
    Ok(claims)
}

/// The plan for so much money among these claims; the money covers the part in cash of their lowest bid.
fn plan_for(alloc: Global, claims: &Claims, money: u64) -> Result<Plan, NoMemory>
    requires fit { LinesFit claims.now }
    requires covered { IsSomeAnd (lowest_bid claims.now.claimed) (λ least. least.cash ≤ money) }
    ensures { IfOk result (λ plan. plan ≡ option_map_or (λ least. plan_of claims.now.claimed least money) (lowest_bid claims.now.claimed) []) }
{
    let mut slots = Slots::with_room(alloc, claims.right_room(), claims.exchange_room())?;
    match claims.lowest_bid(&mut slots) {
        Ok(lowest) => split(alloc, claims, &mut slots, lowest, money),
        Err(_) => unreachable!(),
    }
}
