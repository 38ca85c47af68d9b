//! How a filing is judged on the register as it stands (GBO § 18).
//! Why so: docs/DECISIONS.md, "`judge` asks for no more than it needs".
ghost use Rattle.std.specs.Prelude.{◌≡◌, Some, IsSome, IsTrue, All, Contains};
ghost use Rattle.gb_base.specs.declared.keys.Key.{Key};
ghost use Rattle.act_model.specs.Touches.{filing_at, keys_of_filing};
ghost use Rattle.act_model.specs.Documents.{docs_of};
ghost use Rattle.consent_rules.specs.Judging.{defects, interim_or_enter, judged, judgement_by, rejection, KnowsExchanges};
ghost use Rattle.consent_rules.specs.inner.Held.{HasParts};

use crate::defects::defects;
use crate::grounds::rejection;
use crate::{Defect, Defects, Judgement};
use act_model::{Journal, Matter, filing_at};
use arrayvec::ArrayVec;
use folio_sections::Parts;
use gb_base::ReceiptNo;

/// Filing `filing`, judged on the register as it stands, with its documents and those of its cures
/// up to receipt `upto` (GBO § 18). It needs the parts of the filing's keys, and that each live
/// right that recedes is as an earlier filing creates it. It takes no memory and cannot fail.
///
/// ```
/// // As it was filed, without a cure.
/// match judge(&parts, &journal, filing, filing) {
///     Judgement::Enter => {}
///     Judgement::Reject(section) => assert!(section != Section::Gbo29),
///     Judgement::Interim(defects) => assert!(!defects.list().is_empty()),
/// }
/// ```
pub fn judge<P: Parts>(
    parts: &P,
    journal: &Journal,
    filing: ReceiptNo,
    upto: ReceiptNo,
) -> Judgement
    requires filing { IsSome (filing_at journal.now.receipts filing) }
    requires held { (k : Key) → Contains (keys_of_filing journal.now.receipts filing) k → IsTrue (P.holds parts.now k) }
    requires exchanges { KnowsExchanges journal.now.receipts filing (P.at parts.now) }
    ensures { judged journal.now.receipts filing upto (P.at parts.now) ≡ Some result }
{
    let found = filing_at(journal, filing).unwrap();
    let matter = Matter {
        journal,
        item: upto,
        number: filing,
        filing: found,
    };
    judge_acts(parts, &matter)
}

/// The judgement, by the first ground for rejection, else by the defects.
fn judge_acts<P: Parts>(parts: &P, matter: &Matter) -> Judgement
    requires held { All (HasParts (P.holds parts.now) (P.at parts.now)) matter.now.filing.now.acts }
    ensures { result ≡ judgement_by (rejection matter.now.journal.now.receipts matter.now.number matter.now.filing.now (docs_of matter.now) (P.at parts.now)) (defects matter.now.journal.now.receipts matter.now.number matter.now.filing.now (docs_of matter.now) (P.at parts.now)) }
{
    match rejection(parts, matter) {
        Some(section) => Judgement::Reject(section),
        None => interim_or_enter(defects(parts, matter)),
    }
}

/// A filing waits for cures where it has defects.
fn interim_or_enter(list: ArrayVec<Defect, 48>) -> Judgement
    ensures { result ≡ interim_or_enter list.items }
{
    if list.is_empty() {
        Judgement::Enter
    } else {
        Judgement::Interim(Defects::new(list))
    }
}
