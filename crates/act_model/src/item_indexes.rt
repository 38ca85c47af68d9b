//! The indexes of a journal by what its items say.
//! Why so: docs/DECISIONS.md, "The journal's index may lag by its last receipt".
ghost use Rattle.std.specs.Prelude.{◌≡◌, ◌≤◌, ◌+◌, ℕ, [], length, OnOk};
ghost use Rattle.std.specs.Ordering.{nat_cmp};
ghost use Rattle.gb_base.specs.Limits.{most_acts};
ghost use Rattle.act_model.specs.inner.CureDocuments.{firsts_with, found_by, AgreeTo, ArePlain, Finds};
ghost use Rattle.act_model.specs.inner.ItemIndexes.{cures_by, creations_by, creations_by_acts, filings_by, AreIndexesOf, HaveRoomFor, Widen};
ghost use Rattle.act_model.specs.inner.Lists.{listed, Adds, HasRoom, Widens};

use crate::cure_documents::CureDocuments;
use crate::filings::new_right;
use crate::lists::{listed, push, reserve};
use crate::{Act, Item};
use gb_base::{FolioId, NoMemory, Person, ReceiptNo, RightId};
use std::alloc::Global;
use std::collections::BTreeMap;

/// The later cures of each filing with what they bring, the creating acts of each folio, and the
/// filings of each applicant.
#[derive(Drop)]
pub struct ItemIndexes {
    alloc: Global,
    /// The cures, by the number of the filing.
    cures: BTreeMap<u32, Vec<ReceiptNo>>,
    /// The creating acts, by the number of the folio.
    creations: BTreeMap<u32, Vec<RightId>>,
    /// The filings, by the number of the applicant.
    filings: BTreeMap<u32, Vec<ReceiptNo>>,
    documents: CureDocuments,
}

impl ItemIndexes {
    /// The indexes of the empty journal.
    pub fn new(alloc: Global) -> ItemIndexes
        ensures { AreIndexesOf result [] }
    {
        ItemIndexes {
            alloc,
            cures: BTreeMap::new(alloc),
            creations: BTreeMap::new(alloc),
            filings: BTreeMap::new(alloc),
            documents: CureDocuments::new(alloc),
        }
    }

    /// The cures of filing n.
    pub fn cures_of(&self, n: ReceiptNo) -> &[ReceiptNo]
        ensures { result.now ≡ listed nat_cmp self.now.cures n }
    {
        listed(&self.cures, n.get())
    }

    /// The creating acts of the folio.
    pub fn creations_in(&self, folio: FolioId) -> &[RightId]
        ensures { result.now ≡ listed nat_cmp self.now.creations folio }
    {
        listed(&self.creations, folio.get())
    }

    /// The filings of the applicant.
    pub fn filings_of(&self, applicant: Person) -> &[ReceiptNo]
        ensures { result.now ≡ listed nat_cmp self.now.filings applicant }
    {
        listed(&self.filings, applicant.get())
    }

    /// What the cures bring.
    pub fn documents(&self) -> &CureDocuments
        ensures { result.now ≡ self.now.documents }
    {
        &self.documents
    }

    /// Keeps room for item n.
    pub fn reserve(&mut self, n: ReceiptNo, item: &Item) -> Result<(), NoMemory>
        ensures widens { Widen self.old self.new }
        ensures room { OnOk result (HaveRoomFor self.new n item.now) }
    {
        match item {
            Item::Cure { filing, docs } if *filing < n => {
                reserve(&mut self.cures, filing.get(), 1, self.alloc)?;
                self.documents.reserve(*filing, docs.list())
            }
            Item::Filing(filing) => {
                reserve(&mut self.filings, filing.applicant.get(), 1, self.alloc)?;
                reserve_creations(&mut self.creations, filing.acts.list(), self.alloc)
            }
            _ => Ok(()),
        }
    }

    /// Takes item n, for which there is room.
    pub fn add(&mut self, n: ReceiptNo, item: &Item)
        requires room { HaveRoomFor self.old n item.now }
        requires agree { AgreeTo n self.old.documents }
        requires plain { ArePlain self.old.documents (firsts_with self.old.documents (found_by n item.now)) }
        ensures cures { Adds nat_cmp self.old.cures self.new.cures (cures_by n item.now) }
        ensures creations { Adds nat_cmp self.old.creations self.new.creations (creations_by n item.now) }
        ensures filings { Adds nat_cmp self.old.filings self.new.filings (filings_by n item.now) }
        ensures finds { Finds self.old.documents self.new.documents (found_by n item.now) }
        ensures agree { AgreeTo n self.new.documents }
        ensures plain { ArePlain self.new.documents (firsts_with self.old.documents (found_by n item.now)) }
    {
        match item {
            Item::Cure { filing, docs } if *filing < n => {
                push(&mut self.cures, filing.get(), n);
                self.documents.add(n, *filing, docs.list());
            }
            Item::Filing(filing) => {
                push(&mut self.filings, filing.applicant.get(), n);
                push_creations(&mut self.creations, n, 1, filing.acts.list())
            }
            _ => {}
        }
    }
}

/// Keeps room for what these acts create.
fn reserve_creations(
    creations: &mut BTreeMap<u32, Vec<RightId>>,
    acts: &[Act],
    alloc: Global,
) -> Result<(), NoMemory>
    ensures widens { Widens nat_cmp creations.old creations.new }
    ensures room { OnOk result ((n a : ℕ) → HasRoom nat_cmp creations.new (creations_by_acts n a acts.now)) }
{
    match acts {
        [] => Ok(()),
        [act, rest @ ..] => {
            reserve_creations(creations, rest, alloc)?;
            if act.right_created().is_some() {
                reserve(creations, act.folio().get(), acts.len(), alloc)?;
            }
            Ok(())
        }
    }
}

/// Takes what acts a, a + 1, .. of filing n create.
fn push_creations(creations: &mut BTreeMap<u32, Vec<RightId>>, n: ReceiptNo, a: u8, acts: &[Act])
    requires from_one { 1 ≤ a }
    requires to_eight { a + length acts.now ≤ most_acts + 1 }
    requires room { HasRoom nat_cmp creations.old (creations_by_acts n a acts.now) }
    ensures { Adds nat_cmp creations.old creations.new (creations_by_acts n a acts.now) }
{
    if let [act, rest @ ..] = acts {
        if act.right_created().is_some() {
            push(creations, act.folio().get(), new_right(n, a));
        }
        push_creations(creations, n, a + 1, rest);
    }
}
