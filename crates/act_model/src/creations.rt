//! The creating acts of a folio that count: its first ones, and those of receipts before one.
ghost use Rattle.std.specs.Prelude.{◌≡◌};
ghost use Rattle.act_model.specs.SaleKeys.{earlier_rights, first_rights};

use crate::{Journal, MOST_CREATIONS};
use gb_base::{FolioId, ReceiptNo, RightId};

/// The rights of the first creating acts of the folio, as many as it has at most, by receipt and
/// act, whatever became of them. Takes no memory.
pub fn first_rights(journal: &Journal, folio: FolioId) -> &[RightId]
    ensures { result.now ≡ first_rights journal.now.receipts folio }
{
    let rights = journal.creations_in(folio);
    &rights[..MOST_CREATIONS.min(rights.len())]
}

/// Those of them that receipts before item n create. Takes no memory.
///
/// Filings 2 and 5 create 2.1, 2.2 and 5.1 in the folio: before receipt 5 these are 2.1 and 2.2.
pub fn earlier_rights(journal: &Journal, n: ReceiptNo, folio: FolioId) -> &[RightId]
    ensures { result.now ≡ earlier_rights journal.now.receipts n folio }
{
    let first = first_rights(journal, folio);
    let earlier = first.partition_point(|right| right.receipt() < n);
    &first[..earlier]
}
