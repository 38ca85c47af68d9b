//! The documents that count for a filing (GBO §§ 18, 19, 29).
ghost use Rattle.std.specs.Prelude.{◌≡◌, ◌&&◌, ℕ, length, false, nat_le};
ghost use Rattle.std.specs.List.{list_any};
ghost use Rattle.std.specs.Option.{option_map_or};
ghost use Rattle.gb_base.specs.Limits.{is_between};
ghost use Rattle.act_model.specs.Documents.{is_consent_by};
ghost use Rattle.act_model.specs.Sought.{is_sought};
ghost use Rattle.act_model.specs.inner.CureDocuments.{Rises};
ghost use Rattle.act_model.specs.inner.FiledConsents.{consents_with};
ghost use Rattle.act_model.specs.inner.Firsts.{first_cure};

use crate::cure_documents::Consenter;
use crate::sought::are_among;
use crate::{Doc, Filing, Form, Matter, PersonTest, Sought};
use gb_base::{Person, ReceiptNo};

/// The documents that count for a filing: its own, and those of its cures up to the item with which
/// it is judged. A document for an act that the filing does not have counts for nothing. The
/// filing's own documents are walked; what cures bring is found in the journal's index.
impl<'a> Matter<'a> {
    ghost use Rattle.act_model.specs.Documents.{docs_of, given, has_proof, is_plain};

    /// Whether a document that is looked for so counts for the filing.
    pub fn has(&self, sought: &Sought) -> bool
        ensures { result ≡ list_any (is_sought sought.now) (docs_of self.now) }
    {
        has_act(self.filing, sought.act())
            && (are_among(sought, self.filing.docs.list()) || cures_bring(self, sought))
    }

    /// Whether somebody who passes the test consents to the act, in either form.
    pub fn some_consenter<T: PersonTest>(&self, act: u8, test: &T) -> bool
        ensures { result ≡ list_any (is_consent_by act (T.test test.now)) (docs_of self.now) }
    {
        let in_cures = self.journal.cure_documents().consenters(self.number, act);
        self.some_consents(act, in_cures, test)
    }

    /// Whether somebody who passes the test has consented to the act in plain form alone (GBO § 29).
    pub fn some_plain_consenter<T: PersonTest>(&self, act: u8, test: &T) -> bool
        ensures { result ≡ list_any (is_consent_by act (λ p. is_plain (given (docs_of self.now) act p) && T.test test.now p)) (docs_of self.now) }
    {
        let in_cures = self
            .journal
            .cure_documents()
            .plain_consenters(self.number, act);
        let plain = PlainConsent {
            matter: self,
            act,
            test,
        };
        self.some_consents(act, in_cures, &plain)
    }

    /// Whether somebody who passes the test consents to the act: in a document of the filing's own,
    /// or as one of `in_cures`, who consent in cures.
    fn some_consents<T: PersonTest>(&self, act: u8, in_cures: &[Consenter], test: &T) -> bool
        requires { (last : ℕ) × Rises 0 last in_cures.now }
        ensures { result ≡ consents_with self.now act (T.test test.now) in_cures.now }
    {
        has_act(self.filing, act)
            && (some_consent(self.filing.docs.list(), act, test)
                || some_passes(in_cures, self.item, test))
    }

    /// The form in which the person has consented to the act: certified where some consent is;
    /// None where there is none (GBO § 29).
    pub fn given(&self, act: u8, person: Person) -> Option<Form>
        ensures { result ≡ given (docs_of self.now) act person }
    {
        if self.has(&Sought::Certified { act, person }) {
            Some(Form::Certified)
        } else if self.has(&Sought::Consent { act, person }) {
            Some(Form::Plain)
        } else {
            None
        }
    }

    /// Whether the act has an expiry proof (GBO § 22).
    pub fn has_proof(&self, act: u8) -> bool
        ensures { result ≡ has_proof (docs_of self.now) act }
    {
        self.has(&Sought::Proof { act })
    }
}

/// A person who has consented to the act in plain form alone, and passes a test.
#[derive(Drop)]
struct PlainConsent<'a, T> {
    matter: &'a Matter<'a>,
    act: u8,
    test: &'a T,
}

impl<'a, T: PersonTest> PersonTest for PlainConsent<'a, T> {
    ghost use Rattle.std.specs.Prelude.{◌&&◌};
    ghost use Rattle.act_model.specs.Documents.{docs_of, given, is_plain};

    ghost test = { λ c p. is_plain (given (docs_of c.matter.now) c.act p) && T.test c.test.now p };

    fn passes(&self, person: Person) -> bool {
        self.matter.given(self.act, person) == Some(Form::Plain) && self.test.passes(person)
    }
}

/// Whether the filing has an act of this number.
fn has_act(filing: &Filing, act: u8) -> bool
    ensures { result ≡ is_between 1 (length filing.now.acts) act }
{
    1 <= act && act as usize <= filing.acts.list().len()
}

/// Whether a cure of the filing, up to the item with which it is judged, brings what is looked for.
fn cures_bring(matter: &Matter, sought: &Sought) -> bool
    ensures { result ≡ option_map_or (λ n. nat_le n matter.now.item) (first_cure matter.now.journal.now.receipts matter.now.number sought.now) false }
{
    match matter
        .journal
        .cure_documents()
        .first(matter.number, *sought)
    {
        Some(first) => first <= matter.item,
        None => false,
    }
}

/// Whether one of these documents is a consent to the act by a person who passes.
fn some_consent<T: PersonTest>(docs: &[Doc], act: u8, test: &T) -> bool
    ensures { result ≡ list_any (is_consent_by act (T.test test.now)) docs.now }
{
    docs.iter().any(|doc| is_consent_by(doc, act, test))
}

/// Whether the document is a consent to the act by a person who passes.
fn is_consent_by<T: PersonTest>(doc: &Doc, number: u8, test: &T) -> bool
    ensures { result ≡ is_consent_by number (T.test test.now) doc.now }
{
    match doc {
        Doc::Consent { act, person, .. } => *act == number && test.passes(*person),
        Doc::Agreement { .. } | Doc::TaxClearance { .. } | Doc::ExpiryProof { .. } => false,
    }
}

/// Whether one of these, who stand in the order of their first consents, consents up to receipt
/// `item` and passes.
fn some_passes<T: PersonTest>(consenters: &[Consenter], item: ReceiptNo, test: &T) -> bool
    requires { (last : ℕ) × Rises 0 last consenters.now }
    ensures { result ≡ list_any (λ c. nat_le c.first item && T.test test.now c.person) consenters.now }
{
    for consenter in consenters {
        if consenter.first > item {
            return false;
        }
        if test.passes(consenter.person) {
            return true;
        }
    }
    false
}
