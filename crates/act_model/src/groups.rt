//! Rights of equal rank: creating acts of one filing, folio and group (GBO § 45(1), (3)).
ghost use Rattle.std.specs.Prelude.{◌≡◌};
ghost use Rattle.act_model.specs.Groups.{has_equal, shares_its_group};

use crate::filing_rules::share_group;
use crate::filings::act_at;
use crate::{Act, Journal, filing_at};
use gb_base::RightId;

/// Whether another act of the right's filing creates a right of the same group in the folio.
pub fn shares_its_group(journal: &Journal, right: RightId) -> bool
    ensures { result ≡ shares_its_group journal.now.receipts right }
{
    match filing_at(journal, right.receipt()) {
        Some(filing) => match act_at(filing, right.act()) {
            Some(act) => has_equal(filing.acts.list(), right.act(), act),
            None => false,
        },
        None => false,
    }
}

/// Whether another act than act a creates a right of the same group in the folio.
pub fn has_equal(acts: &[Act], a: u8, act: &Act) -> bool
    ensures { result ≡ has_equal acts.now a act.now }
{
    for (index, other) in acts.iter().enumerate() {
        if index + 1 != a as usize && share_group(act, other) {
            return true;
        }
    }
    false
}
