//! A forced sale as an item of it finds it, in the parts of a register and the journal.
ghost use Rattle.std.specs.Prelude.{◌≡◌, is_some, IfSome};
ghost use Rattle.gb_base.specs.declared.keys.Key.TheVariants.{Case, Right, Title};
ghost use Rattle.sale_rules.specs.inner.SaleViews.{IsViewOf, SeesSale, sale_seen};
ghost use Rattle.sale_rules.specs.inner.SalesRead.{CanBeFound, entries_found, found_at, sale_read};

use act_model::Journal;
use folio_sections::{CaseFront, Parts, RightFront, TitleFront};
use gb_base::{FolioId, ReceiptNo, RightId};

/// The forced sale of a folio as an item finds it. Nothing is found at a key that the parts do not
/// hold.
#[derive(Drop)]
pub(crate) struct SaleView<'a, P> {
    pub(crate) parts: &'a P,
    pub(crate) journal: &'a Journal,
    pub(crate) item: ReceiptNo,
    pub(crate) folio: FolioId,
    /// The case, which each step looks for once.
    pub(crate) case: Option<CaseFront<'a>>,
}

impl<'a, P: Parts> SaleView<'a, P> {
    /// The forced sale of the folio as the item finds it.
    pub(crate) fn new(
        parts: &'a P,
        journal: &'a Journal,
        item: ReceiptNo,
        folio: FolioId,
    ) -> SaleView<'a, P>
        requires { CanBeFound (P.holds parts.now) (P.at parts.now) }
        ensures sees { SeesSale P.holds P.at result }
        ensures sale { sale_seen P.holds P.at result ≡ sale_read journal.now.receipts (P.holds parts.now) (P.at parts.now) folio item }
        ensures made { IsViewOf result parts.now journal.now item folio }
    {
        SaleView {
            parts,
            journal,
            item,
            folio,
            case: case_found(parts, item, folio),
        }
    }

    /// The title of the folio.
    pub(crate) fn title_found(&self) -> Option<TitleFront<'a>>
        requires { SeesSale P.holds P.at self.now }
        ensures some { is_some result ≡ P.holds self.now.parts.now (Title self.now.folio) }
        ensures value { IfSome result (λ front. front ≡ (sale_seen P.holds P.at self.now).at (Title self.now.folio)) }
    {
        let part = self.parts.title(self.folio)?;
        Some(part.below(self.item))
    }

    /// A right of the folio.
    pub(crate) fn right_found(&self, right: RightId) -> Option<RightFront<'a>>
        requires { SeesSale P.holds P.at self.now }
        ensures some { is_some result ≡ P.holds self.now.parts.now (Right self.now.folio right) }
        ensures value { IfSome result (λ front. front ≡ (sale_seen P.holds P.at self.now).at (Right self.now.folio right)) }
    {
        let part = self.parts.right(self.folio, right)?;
        Some(part.below(self.item))
    }
}

/// The case of the folio as the item finds it.
fn case_found<'a, P: Parts>(parts: &'a P, item: ReceiptNo, folio: FolioId) -> Option<CaseFront<'a>>
    requires { CanBeFound (P.holds parts.now) (P.at parts.now) }
    ensures { entries_found result ≡ found_at (P.holds parts.now) (P.at parts.now) item (Case folio) }
{
    match parts.case(folio) {
        Some(part) => Some(part.below(item)),
        None => None,
    }
}
