//! The entry of a filing.
//! Why so: docs/DECISIONS.md, "`enter` asks for just the room that its entry takes".
ghost use Rattle.std.specs.Prelude.{◌≡◌, ◌≤◌, length, Contains, IsSome, IsTrue};
ghost use Rattle.gb_base.specs.declared.keys.Key.{Key};
ghost use Rattle.act_model.specs.Touches.{filing_at, keys_of_filing};
ghost use Rattle.folio_sections.specs.Adding.{AddsList, HasRoom};
ghost use Rattle.entry_rules.specs.Entering.{entered};

use crate::contents::add_contents;
use crate::placing::add_places;
use act_model::{Journal, Matter, filing_at};
use folio_sections::Parts;
use gb_base::ReceiptNo;

/// Enters a filing by this item: its places, and then the contents of its acts in their order (GBO
/// §§ 16(2), 45). Official notices of other filings are entered before
/// (`interim_orders::enter_notices`). It takes no memory and cannot fail.
pub fn enter<P: Parts>(parts: &mut P, journal: &Journal, item: ReceiptNo, filing: ReceiptNo)
    requires filing { IsSome (filing_at journal.now.receipts filing) }
    requires received { item ≤ length journal.now.receipts }
    requires held { (k : Key) → Contains (keys_of_filing journal.now.receipts filing) k → IsTrue (P.holds parts.old k) }
    requires room { HasRoom (P.room parts.old) (entered journal.now.receipts filing item (P.at parts.old)) }
    ensures added { AddsList (P.at parts.old) (P.at parts.new) (P.room parts.old) (P.room parts.new) (entered journal.now.receipts filing item (P.at parts.old)) }
    ensures held { P.holds parts.new ≡ P.holds parts.old }
{
    let matter = Matter {
        journal,
        item,
        number: filing,
        filing: filing_at(journal, filing).unwrap(),
    };
    add_places(parts, &matter);
    add_contents(parts, &matter);
}
