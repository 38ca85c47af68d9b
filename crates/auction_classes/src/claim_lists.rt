//! What is claimed in a forced sale, in lists that keep their room (ZVG §§ 10 to 13).
ghost use Rattle.std.specs.Prelude.{◌≡◌, ◌+◌, ◌*◌, ◌≤◌, All, IfOk, IfSome, IsSome, length};
ghost use Rattle.folio_sections.specs.Titles.{owners};
ghost use Rattle.folio_line.specs.FolioReading.{CanBeRead};
ghost use Rattle.auction_classes.specs.inner.CaseSales.{CanFind, sale_of_case};
ghost use Rattle.auction_classes.specs.inner.ClaimLists.{AreClaimedIn, HaveRoomFor, KeepRoom};
ghost use Rattle.auction_classes.specs.inner.ClaimsRoom.{AreEmpty};
ghost use Rattle.auction_classes.specs.inner.Findings.{finding_of};
ghost use Rattle.auction_classes.specs.inner.LinesRead.{HasLowInterest};
ghost use Rattle.auction_classes.specs.inner.Readings.{IsReadAs, rights_read};

use crate::claim_items::Claim;
use crate::claim_rows::{write_in_order, write_row};
use crate::claims_found::write_claims;
use crate::findings::{Finding, find_sale, registrations_found, seizures_found};
use crate::owners_found::write_owners;
use crate::right_claims::write_right_claims;
use crate::rights_found::{RightFound, write_rights};
use crate::seizures_found::write_seizures;
use crate::{ClaimItem, RightClaimed, SeizedFor};
use act_model::Journal;
use folio_line::{CreatedRight, FolioReading};
use folio_sections::{CaseFront, Parts, TitleFront};
use gb_base::{NoMemory, Person, ReceiptNo};
use std::alloc::{AllocError, Global};

/// What is claimed, all but the lines of classes 4 and 6.
#[derive(Drop)]
pub(crate) struct ClaimLists {
    pub items: Vec<ClaimItem>,
    pub owners: Vec<Person>,
    pub seizures: Vec<SeizedFor>,
    /// The live rights of class 4.
    pub rights: Vec<RightClaimed>,
    /// The live rights of both classes, with what is claimed of them.
    pub found: Vec<RightFound>,
    /// All claims, before they stand by class.
    claims: Vec<Claim>,
    /// All claims, class by class.
    ordered: Vec<Claim>,
}

impl ClaimLists {
    /// Empty lists, with room for the claims of so many rights. May run out of memory (`NoMemory`).
    pub fn with_room(alloc: Global, rights: usize) -> Result<ClaimLists, NoMemory>
        ensures room { IfOk result (HaveRoomFor rights) }
        ensures empty { IfOk result AreEmpty }
    {
        let claims = room_for(rights).ok_or(AllocError)?;
        Ok(ClaimLists {
            items: Vec::with_capacity(alloc, claims)?,
            owners: Vec::with_capacity(alloc, 4)?,
            seizures: Vec::with_capacity(alloc, 8)?,
            rights: Vec::with_capacity(alloc, rights)?,
            found: Vec::with_capacity(alloc, rights)?,
            claims: Vec::with_capacity(alloc, claims)?,
            ordered: Vec::with_capacity(alloc, claims)?,
        })
    }

    /// Writes what is claimed in the sale of this case, as the item finds it, in place of what stood
    /// there. The title, the rights and the live ones among them are as they are read. Takes no memory.
    pub fn fill<P: Parts>(
        &mut self,
        journal: &Journal,
        case: &CaseFront,
        title: &TitleFront,
        reading: &FolioReading<P>,
        live: &[CreatedRight],
        item: ReceiptNo,
    ) -> Finding
        requires find { CanFind (sale_of_case journal.now.receipts case.now item) }
        requires read { CanBeRead P.holds P.at reading.now }
        requires live { All (IsReadAs (rights_read P.holds P.at reading.now)) live.now }
        requires room { HaveRoomFor (length live.now) self.old }
        ensures finding { result ≡ finding_of (sale_of_case journal.now.receipts case.now item) }
        ensures claimed { AreClaimedIn (sale_of_case journal.now.receipts case.now item) (rights_read P.holds P.at reading.now) title.now live.now self.new }
        ensures interest { All HasLowInterest self.new.found.items }
        ensures owned { IsSome (owners title.now) → 1 ≤ length self.new.owners.items }
        ensures few { length self.new.items.items ≤ 4 * length live.now + 40 }
        ensures room { KeepRoom self.old self.new }
    {
        let finding = find_sale(journal, case, item);
        let seizures = seizures_found(journal, case, item);
        let registrations = registrations_found(journal, case, item);
        write_rights(&mut self.found, reading, &finding, &registrations, live);
        write_claims(
            &mut self.claims,
            finding.year,
            &registrations,
            &seizures,
            &self.found,
        );
        write_in_order(&mut self.ordered, &self.claims);
        write_row(&mut self.items, &self.ordered);
        write_right_claims(&mut self.rights, &self.found);
        write_seizures(&mut self.seizures, reading, finding.sale, &seizures);
        write_owners(&mut self.owners, title);
        finding
    }

    /// Empties the lists that claims are read from, which keep their room. Takes no memory.
    pub fn clear(&mut self)
        ensures empty { AreEmpty self.new }
        ensures room { KeepRoom self.old self.new }
    {
        self.items.clear();
        self.owners.clear();
        self.seizures.clear();
        self.rights.clear();
    }
}

/// How many claims there may be with so many rights: 4 of each, 32 registrations and 8 seizures.
fn room_for(rights: usize) -> Option<usize>
    ensures { IfSome result (λ room. room ≡ 4 * rights + 40) }
{
    rights.checked_mul(4)?.checked_add(40)
}
