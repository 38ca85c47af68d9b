//! The lowest bid of a sale as an item of it finds it, computed at once (ZVG §§ 44, 49).
//! Why so: docs/DECISIONS.md, "A call to bid of personal creditors reads no exchange".
ghost use Rattle.std.specs.Prelude.{◌≡◌, ◌≤◌, true, Contains, IsTrue, List, length};
ghost use Rattle.std.specs.Result.{result_ok};
ghost use Rattle.gb_base.specs.declared.keys.Key.{Key};
ghost use Rattle.act_model.specs.SaleKeys.{earlier_rights, keys_of_sale};
ghost use Rattle.folio_sections.specs.declared.entries.Entry.{Entry};
ghost use Rattle.kept_registers.specs.Kept.{Kept};
ghost use Rattle.kept_registers.specs.Standing.{StandsFor, StandsForKept};
ghost use Rattle.folio_line.specs.FolioLine.{all_rises};
ghost use Rattle.auction_classes.specs.LowestBid.{lowest_bid};
ghost use Rattle.auction_classes.specs.SaleClaims.{claimed_in};
ghost use Rattle.auction_classes.specs.Sales.{IsFound, sale_at};
ghost use Rattle.auction_classes.specs.inner.WholeBids.{are_personal};

use crate::findings::{find_sale, read_before, seizures_found};
use crate::sale_readings::{case_below, title_below};
use crate::seizures_found::are_personal;
use crate::{Claims, Lowest, NoServedCreditor};
use act_model::{Journal, is_a_journal};
use folio_line::{FolioReading, rights_filed};
use folio_sections::Parts;
use gb_base::{FolioId, ReceiptNo};
use rank_slots::{Slots, laws};

impl Claims {
    /// The lowest bid of the forced sale of a folio as an item of it finds it, as `fill` and then
    /// `lowest_bid` give it; NoServedCreditor where no seizure is served. Takes no memory.
    ///
    /// Where each served seizure is a personal creditor's, the cover reaches the end of the line of
    /// class 4, so each right gets its whole claim, and no exchange is read. After it nothing is said
    /// of what is claimed.
    pub fn compute_lowest<P: Parts>(
        &mut self,
        slots: &mut Slots,
        parts: &P,
        journal: &Journal,
        as_of: ReceiptNo,
        folio: FolioId,
    ) -> Result<Lowest, NoServedCreditor>
        requires held { (k : Key) → Contains (keys_of_sale journal.now.receipts as_of folio) k → IsTrue (P.holds parts.now k) }
        requires kept { StandsForKept journal.now.receipts (P.holds parts.now) (P.at parts.now) }
        requires found { IsFound (sale_at journal.now.receipts (P.at parts.now) folio as_of) }
        requires rights { length (earlier_rights journal.now.receipts as_of folio) ≤ self.old.right_room }
        requires exchanges { length (all_rises (P.at parts.now) folio (earlier_rights journal.now.receipts as_of folio)) ≤ self.old.exchange_room }
        requires places { self.old.right_room ≤ slots.old.place_room }
        requires swaps { self.old.exchange_room ≤ slots.old.swap_room }
        ensures value { (register : Key → List Entry) → StandsFor (P.holds parts.now) (P.at parts.now) register → Kept journal.now.receipts register
            → result_ok result ≡ lowest_bid (claimed_in (sale_at journal.now.receipts register folio as_of)) }
        ensures right_room { self.new.right_room ≡ self.old.right_room }
        ensures exchange_room { self.new.exchange_room ≡ self.old.exchange_room }
        ensures memory { self.new.capacity ≡ self.old.capacity }
        ensures place_room { slots.new.place_room ≡ slots.old.place_room }
        ensures swap_room { slots.new.swap_room ≡ slots.old.swap_room }
        ensures slots_memory { slots.new.capacity ≡ slots.old.capacity }
    {
        if is_of_persons(parts, journal, as_of, folio) {
            self.compute_whole(parts, journal, as_of, folio)
        } else {
            self.fill(parts, journal, folio, as_of);
            self.lowest_bid(slots)
        }
    }

    /// The lowest bid of the forced sale of a folio as an item of it finds it, where each served
    /// seizure is a personal creditor's.
    fn compute_whole<P: Parts>(
        &mut self,
        parts: &P,
        journal: &Journal,
        as_of: ReceiptNo,
        folio: FolioId,
    ) -> Result<Lowest, NoServedCreditor>
        requires held { (k : Key) → Contains (keys_of_sale journal.now.receipts as_of folio) k → IsTrue (P.holds parts.now k) }
        requires kept { StandsForKept journal.now.receipts (P.holds parts.now) (P.at parts.now) }
        requires found { IsFound (sale_at journal.now.receipts (P.at parts.now) folio as_of) }
        requires rights { length (earlier_rights journal.now.receipts as_of folio) ≤ self.old.right_room }
        requires personal { (register : Key → List Entry) → StandsFor (P.holds parts.now) (P.at parts.now) register → Kept journal.now.receipts register
            → are_personal (claimed_in (sale_at journal.now.receipts register folio as_of)).seizures ≡ true }
        ensures value { (register : Key → List Entry) → StandsFor (P.holds parts.now) (P.at parts.now) register → Kept journal.now.receipts register
            → result_ok result ≡ lowest_bid (claimed_in (sale_at journal.now.receipts register folio as_of)) }
        ensures right_room { self.new.right_room ≡ self.old.right_room }
        ensures exchange_room { self.new.exchange_room ≡ self.old.exchange_room }
        ensures memory { self.new.capacity ≡ self.old.capacity }
    {
        is_a_journal(journal);
        let case = case_below(parts, as_of, folio);
        let before = read_before(&case, as_of);
        let title = title_below(parts, before, folio);
        let reading = FolioReading {
            parts,
            folio,
            before: Some(before),
        };
        let rights = rights_filed(journal, Some(before), folio);
        self.line.read_live(&reading, rights);
        let live = self.line.live();
        let finding = self
            .lists
            .fill(journal, &case, &title, &reading, live, as_of);
        laws::whole_line();
        let lowest = self.lists.whole_bid(finding.costs.get());
        self.lists.clear();
        lowest
    }
}

/// Whether each seizure that is served is a personal creditor's, as an item finds the sale of a
/// folio. Of the folio only the rights from which is seized are read.
fn is_of_persons<P: Parts>(parts: &P, journal: &Journal, as_of: ReceiptNo, folio: FolioId) -> bool
    requires held { (k : Key) → Contains (keys_of_sale journal.now.receipts as_of folio) k → IsTrue (P.holds parts.now k) }
    requires kept { StandsForKept journal.now.receipts (P.holds parts.now) (P.at parts.now) }
    requires found { IsFound (sale_at journal.now.receipts (P.at parts.now) folio as_of) }
    ensures { (register : Key → List Entry) → StandsFor (P.holds parts.now) (P.at parts.now) register → Kept journal.now.receipts register
        → result ≡ are_personal (claimed_in (sale_at journal.now.receipts register folio as_of)).seizures }
{
    is_a_journal(journal);
    let case = case_below(parts, as_of, folio);
    let reading = FolioReading {
        parts,
        folio,
        before: Some(read_before(&case, as_of)),
    };
    let sale = find_sale(journal, &case, as_of).sale;
    are_personal(&reading, sale, &seizures_found(journal, &case, as_of))
}
