//! Awards.
ghost use Rattle.std.specs.Prelude.{◌≡◌, ◌≤◌, ◌∷◌, Contains, IfOk, IsTrue, Some, flat_map, length};
ghost use Rattle.std.specs.List.{AllByRecursion};
ghost use Rattle.std.specs.Result.{result_err};
ghost use Rattle.gb_base.specs.declared.keys.Key.{Key};
ghost use Rattle.gb_base.specs.declared.keys.Key.TheVariants.{Case, Title};
ghost use Rattle.act_model.specs.Receiving.{item_at};
ghost use Rattle.act_model.specs.SaleKeys.{earlier_rights, keys_of_sale};
ghost use Rattle.act_model.specs.declared.items.Item.TheVariants.{Award};
ghost use Rattle.folio_line.specs.AllRights.{AscendByNumber};
ghost use Rattle.folio_line.specs.FolioLine.{all_rises};
ghost use Rattle.folio_sections.specs.Adding.{AddsList};
ghost use Rattle.folio_sections.specs.declared.entries.What.TheVariants as what;
ghost use Rattle.auction_classes.specs.SaleClaims.{claimed_in};
ghost use Rattle.auction_classes.specs.Sales.{sale_at};
ghost use Rattle.sale_rules.specs.SaleEntries.{award_brought};
ghost use Rattle.sale_rules.specs.SaleGrounds.{lowest, refusal_of_award, short_of_cash};
ghost use Rattle.sale_rules.specs.SaleParts.{CanSettle, OfEachKept};
ghost use Rattle.sale_rules.specs.inner.LowestFound.{HaveRoom, IsAward, KeepRoom};
ghost use Rattle.sale_rules.specs.inner.RightsLeft.{CanBeEntered, entry_of_award, keys_of_award, left_by, rights_before};
ghost use Rattle.sale_rules.specs.inner.SaleViews.{HoldsSale, OfSale, SeesSale, sale_seen};

use crate::Scratch;
use crate::lowest_found::lowest_found;
use crate::rights_left::{RightsLeft, enter_rights_left};
use crate::sale_views::SaleView;
use act_model::{Journal, is_a_journal};
use auction_classes::{Claims, Lowest};
use folio_line::rights_filed;
use folio_sections::{Parts, What, add, entry_by};
use gb_base::{Cents, FolioId, Key, Person, ReceiptNo, Section};
use rank_slots::Slots;

/// Why an award is refused.
#[derive(Clone, Copy, Debug, PartialEq, Eq)]
pub enum AwardRefusal {
    /// The section whose ground holds.
    Ground(Section),
    /// The bid is below the part of the lowest bid that is paid in cash (ZVG §§ 44, 49), in cents.
    BidTooLow { cash: u64 },
}

/// Settles an award (ZVG § 81): it stands at the case, its buyer at the title (ZVG § 90), and what is
/// left at each live right (ZVG §§ 52, 91); or it is refused: under ZVG § 15 where no case runs,
/// ZVG § 81 where the land was awarded in the case, ZVG § 66 where nobody was called to bid, ZVG
/// § 43 where no seizure is served, else BidTooLow where the bid is below the part that is paid in
/// cash. Takes no memory.
pub fn award<P: Parts>(
    parts: &mut P,
    scratch: &mut Scratch,
    journal: &Journal,
    item: ReceiptNo,
    folio: FolioId,
    buyer: Person,
    bid: Cents,
) -> Result<(), AwardRefusal>
    requires received { item ≤ length journal.now.receipts }
    requires award { item_at journal.now.receipts item ≡ Some (Award folio buyer bid) }
    requires parts { CanSettle journal.now.receipts item (keys_of_sale journal.now.receipts item folio) (P.holds parts.old) (P.at parts.old) (P.room parts.old) }
    requires rights { length (earlier_rights journal.now.receipts item folio) ≤ scratch.old.rights }
    requires exchanges { length (all_rises (P.at parts.old) folio (earlier_rights journal.now.receipts item folio)) ≤ scratch.old.exchanges }
    ensures answer { OfEachKept journal.now.receipts (P.holds parts.old) (P.at parts.old)
        (λ register. result_err result ≡ refusal_of_award (sale_at journal.now.receipts register folio item) bid) }
    ensures added { OfEachKept journal.now.receipts (P.holds parts.old) (P.at parts.old)
        (λ register. AddsList (P.at parts.old) (P.at parts.new) (P.room parts.old) (P.room parts.new)
        (award_brought (sale_at journal.now.receipts register folio item) buyer bid)) }
    ensures held { P.holds parts.new ≡ P.holds parts.old }
    ensures scratch { scratch.new ≡ scratch.old }
{
    is_a_journal(journal);
    let sale = SaleView::new(parts, journal, item, folio);
    match lowest_for_award(&sale, &mut scratch.claims, &mut scratch.slots, bid) {
        Ok(lowest) => {
            let left = RightsLeft {
                journal,
                item,
                folio,
                claims: &scratch.claims,
                slots: &scratch.slots,
                cover: lowest.cover,
            };
            enter_award(parts, &left, buyer, bid);
            Ok(())
        }
        Err(refusal) => Err(refusal),
    }
}

/// The lowest bid, or why an award at this bid is refused. Where there is one the slots are filled
/// with the line of class 4.
fn lowest_for_award<P: Parts>(
    sale: &SaleView<P>,
    claims: &mut Claims,
    slots: &mut Slots,
    bid: Cents,
) -> Result<Lowest, AwardRefusal>
    requires sees { SeesSale P.holds P.at sale.now }
    requires award { IsAward (sale_seen P.holds P.at sale.now) }
    requires held { HoldsSale P.holds P.at sale.now }
    requires room { HaveRoom P.at sale.now claims.old slots.old }
    ensures answer { OfSale P.holds P.at sale.now (λ s. result_err result ≡ refusal_of_award s bid) }
    ensures lowest { OfSale P.holds P.at sale.now (λ s. IfOk result (λ least. lowest s ≡ Some least)) }
    ensures claimed { OfSale P.holds P.at sale.now (λ s. IfOk result (λ _. claims.new.claimed ≡ claimed_in s)) }
    ensures filled { IfOk result (λ _. slots.new.filled ≡ claims.new.claimed.line_four) }
    ensures room { KeepRoom claims.old claims.new slots.old slots.new }
{
    if sale.lacks_case() {
        return Err(AwardRefusal::Ground(Section::Zvg15));
    }
    if sale.is_awarded() {
        return Err(AwardRefusal::Ground(Section::Zvg81));
    }
    if sale.lacks_call() {
        return Err(AwardRefusal::Ground(Section::Zvg66));
    }
    match lowest_found(sale, claims, slots) {
        Some(lowest) => enough(bid, lowest),
        None => Err(AwardRefusal::Ground(Section::Zvg43)),
    }
}

/// This lowest bid, where the bid is not below the part that is paid in cash (ZVG §§ 44, 49).
fn enough(bid: Cents, lowest: Lowest) -> Result<Lowest, AwardRefusal>
    ensures answer { result_err result ≡ short_of_cash bid lowest }
    ensures same { IfOk result (λ least. least ≡ lowest) }
{
    if bid.get() < lowest.cash {
        Err(AwardRefusal::BidTooLow { cash: lowest.cash })
    } else {
        Ok(lowest)
    }
}

/// Enters an award: at the case, at the title, and at each live right what is left of it.
fn enter_award<P: Parts>(parts: &mut P, left: &RightsLeft, buyer: Person, bid: Cents)
    requires received { left.now.item ≤ length left.now.journal.now.receipts }
    requires filled { left.now.slots.now.filled ≡ left.now.claims.now.claimed.line_four }
    requires held { (k : Key) → Contains (keys_of_award left.now) k → IsTrue (P.holds parts.old k) }
    requires room { (k : Key) → Contains (keys_of_award left.now) k → 1 ≤ P.room parts.old k }
    requires ascend { AscendByNumber (rights_before left.now) }
    requires rights { AllByRecursion (CanBeEntered left.now (P.holds parts.old) (P.room parts.old)) (rights_before left.now) }
    ensures added { AddsList (P.at parts.old) (P.at parts.new) (P.room parts.old) (P.room parts.new)
        (entry_of_award left.now (Case left.now.folio) (what.Awarded buyer bid) ∷ entry_of_award left.now (Title left.now.folio) (what.AwardOwner buyer)
        ∷ flat_map (left_by left.now (P.at parts.old)) (rights_before left.now)) }
    ensures held { P.holds parts.new ≡ P.holds parts.old }
{
    add(
        parts,
        entry_by(
            left.journal,
            left.item,
            Key::Case(left.folio),
            What::Awarded { buyer, bid },
        ),
    );
    add(
        parts,
        entry_by(
            left.journal,
            left.item,
            Key::Title(left.folio),
            What::AwardOwner { buyer },
        ),
    );
    let ids = rights_filed(left.journal, Some(left.item), left.folio);
    enter_rights_left(parts, left, ids);
}
