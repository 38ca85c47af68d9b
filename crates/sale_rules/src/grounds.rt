//! Grounds on which several items of a forced sale are refused, as the case has them.
ghost use Rattle.std.specs.Prelude.{◌≡◌};
ghost use Rattle.folio_sections.specs.Cases.{award};
ghost use Rattle.auction_classes.specs.Sales.{at_case};
ghost use Rattle.sale_rules.specs.SaleGrounds.{is_awarded, lacks_call, lacks_case};
ghost use Rattle.sale_rules.specs.inner.SaleViews.{SeesSale, sale_seen};

use crate::sale_views::SaleView;
use folio_sections::Parts;
use gb_base::ReceiptNo;

impl<'a, P: Parts> SaleView<'a, P> {
    /// Whether no case runs (ZVG § 15).
    pub(crate) fn lacks_case(&self) -> bool
        requires { SeesSale P.holds P.at self.now }
        ensures { result ≡ lacks_case (sale_seen P.holds P.at self.now) }
    {
        match &self.case {
            Some(case) => !case.running(),
            None => true,
        }
    }

    /// The receipt of the case's award (ZVG § 81); None where the land was not awarded in it.
    pub(crate) fn award(&self) -> Option<ReceiptNo>
        requires { SeesSale P.holds P.at self.now }
        ensures { result ≡ award (at_case (sale_seen P.holds P.at self.now)) }
    {
        match &self.case {
            Some(case) => case.award(),
            None => None,
        }
    }

    /// Whether the land was awarded in the case (ZVG §§ 81, 113).
    pub(crate) fn is_awarded(&self) -> bool
        requires { SeesSale P.holds P.at self.now }
        ensures { result ≡ is_awarded (sale_seen P.holds P.at self.now) }
    {
        self.award().is_some()
    }

    /// Whether nobody was called to bid in the case (ZVG § 66).
    pub(crate) fn lacks_call(&self) -> bool
        requires { SeesSale P.holds P.at self.now }
        ensures { result ≡ lacks_call (sale_seen P.holds P.at self.now) }
    {
        match &self.case {
            Some(case) => case.called().is_none(),
            None => true,
        }
    }
}
