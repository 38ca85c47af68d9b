//! Distributions of the proceeds.
ghost use Rattle.std.specs.Prelude.{◌≡◌, ◌≤◌, if◌then◌else◌, IsTrue, Some, None, is_none, length, option_and_then};
ghost use Rattle.std.specs.Option.{option_map_or};
ghost use Rattle.std.specs.Result.{result_err, result_ok};
ghost use Rattle.gb_base.specs.declared.keys.Key.TheVariants.{Case};
ghost use Rattle.act_model.specs.Receiving.{day_of, item_at};
ghost use Rattle.act_model.specs.SaleKeys.{keys_of_sale};
ghost use Rattle.folio_sections.specs.Adding.{AddsList};
ghost use Rattle.kept_registers.specs.Standing.{StandsForKept};
ghost use Rattle.auction_classes.specs.Sales.{sale_at};
ghost use Rattle.sale_rules.specs.SaleEntries.{distribution_brought};
ghost use Rattle.sale_rules.specs.SaleGrounds.{refusal_of_distribution};
ghost use Rattle.sale_rules.specs.SaleMoney.{bid_named, bid_with_interest, money};
ghost use Rattle.sale_rules.specs.SaleParts.{CanSettle, OfEachKept};
ghost use Rattle.sale_rules.specs.inner.SaleViews.{SeesSale, sale_seen};

use crate::sale_views::SaleView;
use act_model::{Item, Journal};
use folio_sections::{Parts, What, add, entry_by};
use gb_base::{Cents, Day, FolioId, Key, ReceiptNo, Section, days360, interest};

/// The legal rate of interest, in hundredths of a percent a year (BGB § 246).
const LEGAL_RATE: u16 = 400;

/// Settles a distribution (ZVG § 105), and says the money that is distributed, in cents: the bid of
/// the award with 4 percent interest from the day of the award up to that of the distribution (ZVG
/// § 49(2), BGB § 246). It stands at the case, which ends by it; or it is refused under a section:
/// ZVG § 15 where no case runs, ZVG § 113 where the land was not awarded in the case. Takes no
/// memory.
pub fn distribute<P: Parts>(
    parts: &mut P,
    journal: &Journal,
    item: ReceiptNo,
    folio: FolioId,
) -> Result<u64, Section>
    requires received { item ≤ length journal.now.receipts }
    requires parts { CanSettle journal.now.receipts item (keys_of_sale journal.now.receipts item folio) (P.holds parts.old) (P.at parts.old) (P.room parts.old) }
    ensures answer { OfEachKept journal.now.receipts (P.holds parts.old) (P.at parts.old)
        (λ register. result_err result ≡ refusal_of_distribution (sale_at journal.now.receipts register folio item)) }
    ensures money { OfEachKept journal.now.receipts (P.holds parts.old) (P.at parts.old)
        (λ register. result_ok result ≡ (if is_none (refusal_of_distribution (sale_at journal.now.receipts register folio item)) then Some (money (sale_at journal.now.receipts register folio item)) else None)) }
    ensures added { OfEachKept journal.now.receipts (P.holds parts.old) (P.at parts.old)
        (λ register. AddsList (P.at parts.old) (P.at parts.new) (P.room parts.old) (P.room parts.new)
        (distribution_brought (sale_at journal.now.receipts register folio item))) }
    ensures held { P.holds parts.new ≡ P.holds parts.old }
{
    let sale = SaleView::new(parts, journal, item, folio);
    match refusal(&sale) {
        Some(section) => Err(section),
        None => {
            let cents = money_found(&sale);
            add(
                parts,
                entry_by(journal, item, Key::Case(folio), What::Distributed),
            );
            Ok(cents)
        }
    }
}

/// The money that a distribution pays in the case as the item finds it, in cents: the bid of the
/// award with 4 percent interest up to the day of the item; 0 where the land was not awarded in it.
/// Takes no memory.
pub fn money_distributed<P: Parts>(
    parts: &P,
    journal: &Journal,
    item: ReceiptNo,
    folio: FolioId,
) -> u64
    requires received { item ≤ length journal.now.receipts }
    requires held { IsTrue (P.holds parts.now (Case folio)) }
    requires kept { StandsForKept journal.now.receipts (P.holds parts.now) (P.at parts.now) }
    ensures { OfEachKept journal.now.receipts (P.holds parts.now) (P.at parts.now)
        (λ register. result ≡ money (sale_at journal.now.receipts register folio item)) }
{
    money_found(&SaleView::new(parts, journal, item, folio))
}

/// Why a distribution is refused; None where the proceeds are distributed.
fn refusal<P: Parts>(sale: &SaleView<P>) -> Option<Section>
    requires { SeesSale P.holds P.at sale.now }
    ensures { result ≡ refusal_of_distribution (sale_seen P.holds P.at sale.now) }
{
    if sale.lacks_case() {
        Some(Section::Zvg15)
    } else if !sale.is_awarded() {
        Some(Section::Zvg113)
    } else {
        None
    }
}

/// The money of the case, in cents; 0 where the land was not awarded in it.
fn money_found<P: Parts>(sale: &SaleView<P>) -> u64
    requires { SeesSale P.holds P.at sale.now }
    ensures { result ≡ money (sale_seen P.holds P.at sale.now) }
{
    match sale.award() {
        Some(award) => money_awarded(sale.journal, award, sale.journal.day_of(sale.item)),
        None => 0,
    }
}

/// The bid of an award with its interest up to this day, in cents; 0 where the receipt is no award.
fn money_awarded(journal: &Journal, award: ReceiptNo, until: Day) -> u64
    ensures { result ≡ option_map_or (bid_with_interest (day_of journal.now.receipts award) until) (option_and_then bid_named (item_at journal.now.receipts award)) 0 }
{
    match journal.get(award) {
        Some(receipt) => match &receipt.item {
            Item::Award { bid, .. } => bid_with_interest(*bid, receipt.stamp.day(), until),
            _ => 0,
        },
        None => 0,
    }
}

/// A bid with its interest from one day up to another, in cents (ZVG § 49(2)).
fn bid_with_interest(bid: Cents, from: Day, until: Day) -> u64
    ensures { result ≡ bid_with_interest from until bid }
{
    bid.get() + interest(bid, LEGAL_RATE, days360(from, until))
}
