//! In which divisions of a folio a filing creates rights.
ghost use Rattle.std.specs.Prelude.{◌≡◌, false};
ghost use Rattle.std.specs.Option.{option_map_or};
ghost use Rattle.act_model.specs.Divisions.{create_in_division, creates_in_division, is_of_division};
ghost use Rattle.act_model.specs.Touches.{acts_of};

use crate::filings::acts_of;
use crate::{Act, Journal, RightSpec};
use gb_base::{FolioId, ReceiptNo};

/// Whether filing n creates a right of division III, or else of division II, in the folio.
pub fn filing_creates_in_division(
    journal: &Journal,
    n: ReceiptNo,
    folio: FolioId,
    third: bool,
) -> bool
    ensures { result ≡ create_in_division third folio (acts_of journal.now.receipts n) }
{
    acts_of(journal, n)
        .iter()
        .any(|act| creates_in_division(third, folio, act))
}

/// Whether the act creates a right of division III, or else of division II, in the folio.
fn creates_in_division(third: bool, folio: FolioId, act: &Act) -> bool
    ensures { result ≡ creates_in_division third folio act.now }
{
    act.folio() == folio && has_division(third, act.right_created())
}

/// Whether there is a right, and it is of division III, or else of division II.
fn has_division(third: bool, right: Option<RightSpec>) -> bool
    ensures { result ≡ option_map_or (is_of_division third) right false }
{
    match right {
        Some(spec) => is_of_division(third, spec),
        None => false,
    }
}

/// Whether the right is of division III, or else of division II.
fn is_of_division(third: bool, right: RightSpec) -> bool
    ensures { result ≡ is_of_division third right }
{
    if third {
        right.kind.is_in_division_three()
    } else {
        !right.kind.is_in_division_three()
    }
}
