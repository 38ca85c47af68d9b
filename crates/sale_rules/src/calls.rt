//! Calls to bid.
ghost use Rattle.std.specs.Prelude.{◌≡◌, ◌≤◌, if◌then◌else◌, IfOk, Some, None, is_none, length};
ghost use Rattle.std.specs.Result.{result_err, result_ok};
ghost use Rattle.act_model.specs.Receiving.{item_at};
ghost use Rattle.act_model.specs.SaleKeys.{earlier_rights, keys_of_sale};
ghost use Rattle.act_model.specs.declared.items.Item.TheVariants.{OpenBids};
ghost use Rattle.folio_line.specs.FolioLine.{all_rises};
ghost use Rattle.folio_sections.specs.Adding.{AddsList};
ghost use Rattle.auction_classes.specs.Sales.{sale_at};
ghost use Rattle.sale_rules.specs.SaleEntries.{call_brought};
ghost use Rattle.sale_rules.specs.SaleGrounds.{lowest, refusal_of_call};
ghost use Rattle.sale_rules.specs.SaleParts.{CanSettle, OfEachKept};
ghost use Rattle.sale_rules.specs.inner.LowestFound.{HaveRoom, IsCall, KeepRoom};
ghost use Rattle.sale_rules.specs.inner.SaleViews.{HoldsSale, OfSale, SeesSale, sale_seen};

use crate::Scratch;
use crate::sale_views::SaleView;
use act_model::Journal;
use auction_classes::{Claims, Lowest};
use folio_sections::{Parts, What, add, entry_by};
use gb_base::{Cents, FolioId, Key, ReceiptNo, Section};
use rank_slots::Slots;

/// Settles a call to bid (ZVG § 66), and says the lowest bid: it stands at the case, or is refused
/// under a section: ZVG § 15 where no case runs, ZVG § 81 where the land was awarded in the case,
/// ZVG § 43 where no seizure is served. Takes no memory.
pub fn open_bids<P: Parts>(
    parts: &mut P,
    scratch: &mut Scratch,
    journal: &Journal,
    item: ReceiptNo,
    folio: FolioId,
    costs: Cents,
) -> Result<Lowest, Section>
    requires received { item ≤ length journal.now.receipts }
    requires call { item_at journal.now.receipts item ≡ Some (OpenBids folio costs) }
    requires parts { CanSettle journal.now.receipts item (keys_of_sale journal.now.receipts item folio) (P.holds parts.old) (P.at parts.old) (P.room parts.old) }
    requires rights { length (earlier_rights journal.now.receipts item folio) ≤ scratch.old.rights }
    requires exchanges { length (all_rises (P.at parts.old) folio (earlier_rights journal.now.receipts item folio)) ≤ scratch.old.exchanges }
    ensures answer { OfEachKept journal.now.receipts (P.holds parts.old) (P.at parts.old)
        (λ register. result_err result ≡ refusal_of_call (sale_at journal.now.receipts register folio item)) }
    ensures lowest { OfEachKept journal.now.receipts (P.holds parts.old) (P.at parts.old)
        (λ register. result_ok result ≡ (if is_none (refusal_of_call (sale_at journal.now.receipts register folio item)) then lowest (sale_at journal.now.receipts register folio item) else None)) }
    ensures added { OfEachKept journal.now.receipts (P.holds parts.old) (P.at parts.old)
        (λ register. AddsList (P.at parts.old) (P.at parts.new) (P.room parts.old) (P.room parts.new)
        (call_brought (sale_at journal.now.receipts register folio item) costs)) }
    ensures held { P.holds parts.new ≡ P.holds parts.old }
    ensures scratch { scratch.new ≡ scratch.old }
{
    let sale = SaleView::new(parts, journal, item, folio);
    match lowest_called(&sale, &mut scratch.claims, &mut scratch.slots) {
        Ok(lowest) => {
            add(
                parts,
                entry_by(journal, item, Key::Case(folio), What::Bids { costs }),
            );
            Ok(lowest)
        }
        Err(section) => Err(section),
    }
}

/// The lowest bid, or why the call is refused.
fn lowest_called<P: Parts>(
    sale: &SaleView<P>,
    claims: &mut Claims,
    slots: &mut Slots,
) -> Result<Lowest, Section>
    requires sees { SeesSale P.holds P.at sale.now }
    requires call { IsCall (sale_seen P.holds P.at sale.now) }
    requires held { HoldsSale P.holds P.at sale.now }
    requires room { HaveRoom P.at sale.now claims.old slots.old }
    ensures answer { OfSale P.holds P.at sale.now (λ s. result_err result ≡ refusal_of_call s) }
    ensures lowest { OfSale P.holds P.at sale.now (λ s. IfOk result (λ least. lowest s ≡ Some least)) }
    ensures room { KeepRoom claims.old claims.new slots.old slots.new }
{
    if sale.lacks_case() {
        return Err(Section::Zvg15);
    }
    if sale.is_awarded() {
        return Err(Section::Zvg81);
    }
    match claims.compute_lowest(slots, sale.parts, sale.journal, sale.item, sale.folio) {
        Ok(lowest) => Ok(lowest),
        Err(_) => Err(Section::Zvg43),
    }
}
