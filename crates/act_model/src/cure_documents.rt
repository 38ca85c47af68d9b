//! The documents that cures bring, as they are found when a filing is judged (GBO §§ 18, 19, 29).
//! Why so: docs/DECISIONS.md, "First cures are kept by what they bring".
ghost use Rattle.std.specs.Prelude.{◌≡◌, ◌≤◌, ◌+◌, ◌++◌, ◌∷◌, ◌&&◌, ℕ, [], List, Vec, if◌then◌else◌, not, IsTrue, OnOk};
ghost use Rattle.act_model.specs.Sought.{is_sought};
ghost use Rattle.act_model.specs.declared.documents.Doc.{Doc};
ghost use Rattle.act_model.specs.declared.firsts.DocumentOf.{DocumentOf};
ghost use Rattle.act_model.specs.declared.sought.Sought.{Sought};
ghost use Rattle.act_model.specs.inner.CureDocuments.{consenter_of, consenters_to, firsts_with, found_in, is_certified_among, is_consent_to, is_first_consent, key_of, new_consenters, plain_consenters_to, AgreeTo, AreDocumentsOf, ArePlain, Finds, HasRoomForDocs, KeepsDocuments};
ghost use Rattle.act_model.specs.inner.Firsts.{first, is_held};
ghost use Rattle.act_model.specs.inner.Index.{pair_cmp};
ghost use Rattle.act_model.specs.inner.Lists.{listed, room};

use crate::firsts::{DocumentOf, first, make_room, set_first};
use crate::lists::{listed, push, reserve};
use crate::sought::{are_among, certified_as, sought_as};
use crate::{Doc, Sought};
use gb_base::{NoMemory, Person, ReceiptNo};
use std::alloc::Global;
use std::collections::BTreeMap;

/// Somebody who consents in a cure.
#[derive(Clone, Copy)]
pub struct Consenter {
    pub person: Person,
    /// The first cure in which the person consents.
    pub first: ReceiptNo,
}

/// What cures bring for earlier filings.
#[derive(Drop)]
pub struct CureDocuments {
    alloc: Global,
    /// The first cure that brings what may be looked for; None where a place was made for a cure that
    /// has not come.
    firsts: BTreeMap<DocumentOf, Option<ReceiptNo>>,
    /// Who consents, by the number of the filing and its act, in the order of receipt.
    consenters: BTreeMap<(u32, u8), Vec<Consenter>>,
    /// Those of them who have no certified consent in the cure of their first consent or an earlier
    /// one, in the order of receipt: nobody else can have consented in plain form alone (GBO § 29).
    plain_consenters: BTreeMap<(u32, u8), Vec<Consenter>>,
}

impl CureDocuments {
    /// The documents of no cures.
    #[tactic(auto, unfolding(crate::specs::inner::Firsts::document_cmp))]
    pub fn new(alloc: Global) -> CureDocuments
        ensures { AreDocumentsOf result [] }
    {
        CureDocuments {
            alloc,
            firsts: BTreeMap::new(alloc),
            consenters: BTreeMap::new(alloc),
            plain_consenters: BTreeMap::new(alloc),
        }
    }

    /// The first cure of the filing that brings what is looked for.
    pub fn first(&self, filing: ReceiptNo, sought: Sought) -> Option<ReceiptNo>
        ensures { result ≡ first self.now.firsts (key_of filing sought) }
    {
        first(&self.firsts, DocumentOf { filing, sought })
    }

    /// Who consents to the act of the filing, each with the first cure.
    pub fn consenters(&self, filing: ReceiptNo, act: u8) -> &[Consenter]
        ensures { result.now ≡ consenters_to self.now filing act }
    {
        listed(&self.consenters, (filing.get(), act))
    }

    /// Who consents to the act of the filing without a certified consent in the first cure or an
    /// earlier one.
    pub fn plain_consenters(&self, filing: ReceiptNo, act: u8) -> &[Consenter]
        ensures { result.now ≡ plain_consenters_to self.now filing act }
    {
        listed(&self.plain_consenters, (filing.get(), act))
    }

    /// Keeps room for documents of a cure of this filing.
    pub fn reserve(&mut self, filing: ReceiptNo, docs: &[Doc]) -> Result<(), NoMemory>
        ensures keeps { KeepsDocuments self.old self.new }
        ensures room { OnOk result (HasRoomForDocs self.new filing docs.now) }
    {
        match docs {
            [] => Ok(()),
            [doc, rest @ ..] => {
                self.reserve(filing, rest)?;
                self.reserve_places(filing, doc)?;
                self.reserve_consenters(filing, doc, docs.len())
            }
        }
    }

    /// Takes documents of receipt n, a cure of this filing, for which there is room. Who is plain
    /// follows from all of them together: a certified consent further on in `docs` counts too.
    pub fn add(&mut self, n: ReceiptNo, filing: ReceiptNo, docs: &[Doc])
        requires room { HasRoomForDocs self.old filing docs.now }
        requires agree { AgreeTo n self.old }
        requires plain { ArePlain self.old (firsts_with self.old (found_in n filing docs.now)) }
        ensures finds { Finds self.old self.new (found_in n filing docs.now) }
        ensures agree { AgreeTo n self.new }
        ensures plain { ArePlain self.new (firsts_with self.old (found_in n filing docs.now)) }
    {
        if let [doc, rest @ ..] = docs {
            self.add_doc(n, filing, doc, docs);
            self.add(n, filing, rest);
        }
    }

    /// Makes places for the document: one under what it is looked for as, and one more where it is a
    /// certified consent.
    fn reserve_places(&mut self, filing: ReceiptNo, doc: &Doc) -> Result<(), NoMemory>
        ensures keeps { KeepsDocuments self.old self.new }
        ensures held { OnOk result ((s : Sought) → IsTrue (is_sought s doc.now) → IsTrue (is_held self.new.firsts (key_of filing s))) }
    {
        let sought = sought_as(doc);
        make_room(&mut self.firsts, filing, sought)?;
        match certified_as(doc) {
            Some(sought) => make_room(&mut self.firsts, filing, sought),
            None => Ok(()),
        }
    }

    /// Keeps room under the document's act for so many who consent: each document of the cure may name
    /// another person.
    fn reserve_consenters(
        &mut self,
        filing: ReceiptNo,
        doc: &Doc,
        count: usize,
    ) -> Result<(), NoMemory>
        ensures keeps { KeepsDocuments self.old self.new }
        ensures room { OnOk result ((a : ℕ) → IsTrue (is_consent_to a doc.now) → count ≤ room pair_cmp self.new.consenters (filing, a)) }
        ensures plain_room { OnOk result ((a : ℕ) → IsTrue (is_consent_to a doc.now) → count ≤ room pair_cmp self.new.plain_consenters (filing, a)) }
    {
        match doc {
            Doc::Consent { act, .. } => {
                let key = (filing.get(), *act);
                reserve(&mut self.consenters, key, count, self.alloc)?;
                reserve(&mut self.plain_consenters, key, count, self.alloc)
            }
            Doc::Agreement { .. } | Doc::TaxClearance { .. } | Doc::ExpiryProof { .. } => Ok(()),
        }
    }

    /// Takes a document of receipt n, a cure of this filing. It is the first of `docs`, which are
    /// the documents that are left of the cure.
    fn add_doc(&mut self, n: ReceiptNo, filing: ReceiptNo, doc: &Doc, docs: &[Doc])
        requires room { HasRoomForDocs self.old filing (doc.now ∷ []) }
        requires agree { AgreeTo n self.old }
        requires plain { ArePlain self.old (firsts_with self.old (found_in n filing docs.now)) }
        ensures finds { Finds self.old self.new (found_in n filing (doc.now ∷ [])) }
        ensures agree { AgreeTo n self.new }
        ensures plain { ArePlain self.new (firsts_with self.old (found_in n filing docs.now)) }
        ensures room { (rest : List Doc) → HasRoomForDocs self.old filing (doc.now ∷ rest) → HasRoomForDocs self.new filing rest }
    {
        self.add_consenter(n, filing, doc, docs);
        self.set_firsts(n, filing, doc);
    }

    /// Lists who consents, where this consent is the person's first. The person is listed as plain
    /// too, where none of these documents of the same cure is a certified consent of the person. No
    /// document taken before can be one, or this consent would not be the first.
    fn add_consenter(&mut self, n: ReceiptNo, filing: ReceiptNo, doc: &Doc, docs: &[Doc])
        requires room { (a : ℕ) → IsTrue (is_consent_to a doc.now) → 1 ≤ room pair_cmp self.old.consenters (filing, a) }
        requires plain_room { (a : ℕ) → IsTrue (is_consent_to a doc.now) → 1 ≤ room pair_cmp self.old.plain_consenters (filing, a) }
        ensures firsts { self.new.firsts ≡ self.old.firsts }
        ensures listed { (m a : ℕ) → consenters_to self.new m a ≡ consenters_to self.old m a ++ new_consenters n self.old filing doc.now m a }
        ensures plain { (m a : ℕ) → plain_consenters_to self.new m a ≡ plain_consenters_to self.old m a ++ consenter_of n filing doc.now (is_first_consent self.old filing doc.now && not (is_certified_among docs.now doc.now)) m a }
        ensures room { (a : ℕ) → room pair_cmp self.old.consenters (filing, a) ≤ room pair_cmp self.new.consenters (filing, a) + (if is_consent_to a doc.now then 1 else 0) }
        ensures plain_room { (a : ℕ) → room pair_cmp self.old.plain_consenters (filing, a) ≤ room pair_cmp self.new.plain_consenters (filing, a) + (if is_consent_to a doc.now then 1 else 0) }
    {
        let comes = self.is_first_consent(filing, doc);
        let is_plain = comes && !is_certified_among(docs, doc);
        list_consenter(&mut self.consenters, n, filing, doc, comes);
        list_consenter(&mut self.plain_consenters, n, filing, doc, is_plain);
    }

    /// Whether the document is a consent, and none that was taken is one of the same person to the
    /// same act.
    fn is_first_consent(&self, filing: ReceiptNo, doc: &Doc) -> bool
        ensures { result ≡ is_first_consent self.now filing doc.now }
    {
        match doc {
            Doc::Consent { act, person, .. } => {
                let (act, person) = (*act, *person);
                self.first(filing, Sought::Consent { act, person })
                    .is_none()
            }
            Doc::Agreement { .. } | Doc::TaxClearance { .. } | Doc::ExpiryProof { .. } => false,
        }
    }

    /// Puts receipt n into the places of the document, where they are empty.
    fn set_firsts(&mut self, n: ReceiptNo, filing: ReceiptNo, doc: &Doc)
        requires { (s : Sought) → IsTrue (is_sought s doc.now) → IsTrue (is_held self.old.firsts (key_of filing s)) }
        ensures finds { Finds self.old self.new (found_in n filing (doc.now ∷ [])) }
        ensures held { (k : DocumentOf) → IsTrue (is_held self.old.firsts k) → IsTrue (is_held self.new.firsts k) }
        ensures consenters { self.new.consenters ≡ self.old.consenters }
        ensures plain_consenters { self.new.plain_consenters ≡ self.old.plain_consenters }
    {
        let sought = sought_as(doc);
        set_first(&mut self.firsts, DocumentOf { filing, sought }, n);
        if let Some(sought) = certified_as(doc) {
            set_first(&mut self.firsts, DocumentOf { filing, sought }, n);
        }
    }
}

/// Lists who consents in a document of receipt n, if that is wanted.
fn list_consenter(
    lists: &mut BTreeMap<(u32, u8), Vec<Consenter>>,
    n: ReceiptNo,
    filing: ReceiptNo,
    doc: &Doc,
    is_wanted: bool,
)
    requires { (a : ℕ) → IsTrue (is_consent_to a doc.now) → 1 ≤ room pair_cmp lists.old (filing, a) }
    ensures listed { (m a : ℕ) → listed pair_cmp lists.new (m, a) ≡ listed pair_cmp lists.old (m, a) ++ consenter_of n filing doc.now is_wanted m a }
    ensures room { (a : ℕ) → room pair_cmp lists.old (filing, a) ≤ room pair_cmp lists.new (filing, a) + (if is_consent_to a doc.now then 1 else 0) }
{
    if let Doc::Consent { act, person, .. } = doc {
        if is_wanted {
            let consenter = Consenter {
                person: *person,
                first: n,
            };
            push(lists, (filing.get(), *act), consenter);
        }
    }
}

/// Whether one of these documents is a certified consent of the person who consents in this one, to
/// the same act (GBO § 29).
fn is_certified_among(docs: &[Doc], doc: &Doc) -> bool
    ensures { result ≡ is_certified_among docs.now doc.now }
{
    match doc {
        Doc::Consent { act, person, .. } => {
            let (act, person) = (*act, *person);
            are_among(&Sought::Certified { act, person }, docs)
        }
        Doc::Agreement { .. } | Doc::TaxClearance { .. } | Doc::ExpiryProof { .. } => false,
    }
}
