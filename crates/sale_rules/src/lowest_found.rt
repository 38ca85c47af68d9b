//! The lowest bid of a sale as an item finds it.
ghost use Rattle.std.specs.Prelude.{◌≡◌, IfSome};
ghost use Rattle.auction_classes.specs.SaleClaims.{claimed_in};
ghost use Rattle.auction_classes.specs.Sales.{IsFound, sale_at};
ghost use Rattle.sale_rules.specs.SaleGrounds.{lowest};
ghost use Rattle.sale_rules.specs.inner.LowestFound.{HaveRoom, KeepRoom};
ghost use Rattle.sale_rules.specs.inner.SaleViews.{HoldsSale, OfSale};

use crate::sale_views::SaleView;
use auction_classes::{Claims, Lowest};
use folio_sections::Parts;
use rank_slots::Slots;

/// The lowest bid as the item finds it; None where no seizure is served (ZVG §§ 43, 44). The claims
/// are then those of the sale, and where there is a bid the slots are filled with the line of class
/// 4.
pub(crate) fn lowest_found<P: Parts>(
    sale: &SaleView<P>,
    claims: &mut Claims,
    slots: &mut Slots,
) -> Option<Lowest>
    requires held { HoldsSale P.holds P.at sale.now }
    requires found { IsFound (sale_at sale.now.journal.now.receipts (P.at sale.now.parts.now) sale.now.folio sale.now.item) }
    requires room { HaveRoom P.at sale.now claims.old slots.old }
    ensures value { OfSale P.holds P.at sale.now (λ s. result ≡ lowest s) }
    ensures claimed { OfSale P.holds P.at sale.now (λ s. claims.new.claimed ≡ claimed_in s) }
    ensures filled { IfSome result (λ _. slots.new.filled ≡ claims.new.claimed.line_four) }
    ensures room { KeepRoom claims.old claims.new slots.old slots.new }
{
    claims.fill(sale.parts, sale.journal, sale.folio, sale.item);
    match claims.lowest_bid(slots) {
        Ok(lowest) => Some(lowest),
        Err(_) => None,
    }
}
