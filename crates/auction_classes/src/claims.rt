//! The claims in a forced sale, in lists that keep their room.
ghost use Rattle.std.specs.Prelude.{◌≡◌, ◌≤◌, ◌⊎◌, List, Contains, IfOk, IsTrue, length};
ghost use Rattle.gb_base.specs.declared.keys.Key.{Key};
ghost use Rattle.act_model.specs.SaleKeys.{earlier_rights, keys_of_sale};
ghost use Rattle.folio_sections.specs.declared.entries.Entry.{Entry};
ghost use Rattle.kept_registers.specs.Kept.{Kept};
ghost use Rattle.kept_registers.specs.Standing.{StandsFor, StandsForKept};
ghost use Rattle.folio_line.specs.FolioLine.{all_rises};
ghost use Rattle.auction_classes.specs.PayableClaims.{IsPayable};
ghost use Rattle.auction_classes.specs.SaleClaims.{claimed_in, line_of, no_claims};
ghost use Rattle.auction_classes.specs.Sales.{IsFound, sale_at};
ghost use Rattle.auction_classes.specs.Computable.{IsComputable};

use crate::ClaimItem;
use crate::claim_lists::ClaimLists;
use crate::class_lines::ClassLine;
use crate::findings::read_before;
use crate::right_classes::RightClass;
use crate::sale_readings::{case_below, title_below};
use act_model::{Journal, is_a_journal};
use folio_line::{FolioLine, FolioReading, rights_filed};
use folio_sections::Parts;
use gb_base::{FolioId, NoMemory, Person, ReceiptNo};
use rank_slots::Slots;
use std::alloc::Global;
use std::marker::Model;

/// What is claimed in a forced sale (ZVG §§ 10 to 13), with room for the rights of a folio and the
/// exchanges among them, so that it is filled without memory. In contracts it is what is claimed,
/// how much it has room for, and how much memory its lists have.
#[derive(Drop)]
pub struct Claims {
    right_room: usize,
    exchange_room: usize,
    /// The costs of the proceedings, in cents (ZVG § 109).
    pub(crate) costs: u64,
    pub(crate) lists: ClaimLists,
    pub(crate) line_four: ClassLine,
    pub(crate) line_six: ClassLine,
    /// The line of the folio, from which those of the classes are made.
    pub(crate) line: FolioLine,
}

impl Model for Claims {
    ghost use Rattle.std.specs.Prelude.{◌+◌};
    ghost use Rattle.auction_classes.specs.SaleClaims.{ClaimsState};
    ghost use Rattle.auction_classes.specs.inner.ClaimLists.{lists_capacity};
    ghost use Rattle.auction_classes.specs.inner.LinesRead.{line_capacity};
    ghost use Rattle.auction_classes.specs.inner.ClaimsRoom.{HaveRoom};
    ghost use Rattle.auction_classes.specs.PayableClaims.{IsPayable};
    ghost use Rattle.auction_classes.specs.Computable.{IsComputable, filled_of};

    ghost Value = { ClaimsState };

    ghost view = { λ a. record {
      right_room = a.right_room;
      exchange_room = a.exchange_room;
      claimed = record {
        items = a.lists.items.items;
        costs = a.costs;
        owners = a.lists.owners.items;
        seizures = a.lists.seizures.items;
        rights = a.lists.rights.items;
        line_four = filled_of a.line_four;
        line_six = filled_of a.line_six;
      };
      capacity = lists_capacity a.lists + (line_capacity a.line_four + (line_capacity a.line_six + a.line.capacity));
    } };

    ghost invariant = { λ a. HaveRoom a.right_room a.exchange_room a.lists a.line a.line_four a.line_six × IsComputable (record {
      items = a.lists.items.items;
      costs = a.costs;
      owners = a.lists.owners.items;
      seizures = a.lists.seizures.items;
      rights = a.lists.rights.items;
      line_four = filled_of a.line_four;
      line_six = filled_of a.line_six;
    }) × IsPayable (record {
      items = a.lists.items.items;
      costs = a.costs;
      owners = a.lists.owners.items;
      seizures = a.lists.seizures.items;
      rights = a.lists.rights.items;
      line_four = filled_of a.line_four;
      line_six = filled_of a.line_six;
    }) };
}

impl Claims {
    /// No claims, with room for those of so many rights of a folio and so many exchanges among
    /// them. May run out of memory (`NoMemory`); no other call takes any.
    pub fn with_room(alloc: Global, rights: usize, exchanges: usize) -> Result<Claims, NoMemory>
        ensures rights { IfOk result (λ claims. claims.right_room ≡ rights) }
        ensures exchanges { IfOk result (λ claims. claims.exchange_room ≡ exchanges) }
        ensures claimed { IfOk result (λ claims. claims.claimed ≡ no_claims) }
    {
        Ok(Claims {
            right_room: rights,
            exchange_room: exchanges,
            costs: 0,
            lists: ClaimLists::with_room(alloc, rights)?,
            line_four: ClassLine::with_room(alloc, rights, exchanges)?,
            line_six: ClassLine::with_room(alloc, rights, exchanges)?,
            line: FolioLine::with_room(alloc, rights, exchanges)?,
        })
    }

    /// For how many rights of a folio the lists have room. Takes no memory.
    pub fn right_room(&self) -> usize
        ensures { result ≡ self.now.right_room }
    {
        self.right_room
    }

    /// For how many exchanges of ranks among them the lists have room. Takes no memory.
    pub fn exchange_room(&self) -> usize
        ensures { result ≡ self.now.exchange_room }
    {
        self.exchange_room
    }

    /// Fills the claims with what is claimed in the forced sale of a folio, in place of what they had:
    /// as an item of it, or the end of the journal, finds it, by the entries of items below that
    /// number. Takes no memory.
    ///
    /// Receipt 7 calls to bid, receipt 9 awards, and receipt 10 cancels a right. As of receipt 9 the
    /// rights are those that stand before it. They are the same as of receipt 11, since the folio is
    /// read as it stood before the award: the right that was cancelled is among them.
    ///
    /// There must be room for all exchanges that stand in the parts at rights filed before that item,
    /// also for those entered by it or after it, though none of these is read. `count_exchanges` counts
    /// all that stand there, each at both of its rights, which is enough.
    pub fn fill<P: Parts>(&mut self, parts: &P, journal: &Journal, folio: FolioId, as_of: ReceiptNo)
        requires held { (k : Key) → Contains (keys_of_sale journal.now.receipts as_of folio) k → IsTrue (P.holds parts.now k) }
        requires kept { StandsForKept journal.now.receipts (P.holds parts.now) (P.at parts.now) }
        requires found { IsFound (sale_at journal.now.receipts (P.at parts.now) folio as_of) }
        requires rights { length (earlier_rights journal.now.receipts as_of folio) ≤ self.old.right_room }
        requires exchanges { length (all_rises (P.at parts.now) folio (earlier_rights journal.now.receipts as_of folio)) ≤ self.old.exchange_room }
        ensures claimed { (register : Key → List Entry) → StandsFor (P.holds parts.now) (P.at parts.now) register → Kept journal.now.receipts register
            → self.new.claimed ≡ claimed_in (sale_at journal.now.receipts register folio as_of) }
        ensures right_room { self.new.right_room ≡ self.old.right_room }
        ensures exchange_room { self.new.exchange_room ≡ self.old.exchange_room }
        ensures places_four { length self.new.claimed.line_four.places ≤ self.new.right_room }
        ensures swaps_four { length self.new.claimed.line_four.swaps ≤ self.new.exchange_room }
        ensures places_six { length self.new.claimed.line_six.places ≤ self.new.right_room }
        ensures swaps_six { length self.new.claimed.line_six.swaps ≤ self.new.exchange_room }
        ensures memory { self.new.capacity ≡ self.old.capacity }
    {
        is_a_journal(journal);
        let case = case_below(parts, as_of, folio);
        let before = read_before(&case, as_of);
        let title = title_below(parts, before, folio);
        let reading = FolioReading {
            parts,
            folio,
            before: Some(before),
        };
        let rights = rights_filed(journal, Some(before), folio);
        self.line.read(&reading, rights);
        let live = self.line.live();
        let finding = self
            .lists
            .fill(journal, &case, &title, &reading, live, as_of);
        self.costs = finding.costs.get();
        let seized = finding.seized;
        let four = RightClass { seized, number: 4 };
        let six = RightClass { seized, number: 6 };
        let found = &self.lists.found;
        self.line_four.fill(&reading, &four, &self.line, found);
        self.line_six.fill(&reading, &six, &self.line, found);
    }

    /// The claims of at least one cent, in the order in which a plan prints them: the timely ones
    /// class by class, and then the late ones (ZVG §§ 10, 109, 110). Takes no memory.
    pub fn items(&self) -> &[ClaimItem]
        ensures value { result.now ≡ self.now.claimed.items }
        ensures payable { IsPayable self.now.claimed }
        ensures computable { IsComputable self.now.claimed }
    {
        &self.lists.items
    }

    /// The costs of the proceedings, in cents (ZVG § 109). Takes no memory.
    pub fn costs(&self) -> u64
        ensures { result ≡ self.now.claimed.costs }
    {
        self.costs
    }

    /// The former owners, who get what is left, in the order in which they were named. Takes no
    /// memory.
    pub fn owners(&self) -> &[Person]
        ensures { result.now ≡ self.now.claimed.owners }
    {
        &self.lists.owners
    }

    /// Fills the line of class 4 or 6: its rights in order with their claims, and the exchanges and
    /// exercised reservations among them (BGB §§ 879 to 881, ZVG § 11). No other class has a line.
    /// Takes no memory.
    pub fn fill_line(&self, slots: &mut Slots, class: u8)
        requires class { (class ≡ 4) ⊎ (class ≡ 6) }
        requires places { length (line_of class self.now.claimed).places ≤ slots.old.place_room }
        requires swaps { length (line_of class self.now.claimed).swaps ≤ slots.old.swap_room }
        ensures filled { slots.new.filled ≡ line_of class self.now.claimed }
        ensures place_room { slots.new.place_room ≡ slots.old.place_room }
        ensures swap_room { slots.new.swap_room ≡ slots.old.swap_room }
        ensures memory { slots.new.capacity ≡ slots.old.capacity }
    {
        let line = if class == 4 {
            &self.line_four
        } else {
            &self.line_six
        };
        slots.fill(&line.places, &line.swaps, &line.knots);
    }
}
