//! What is looked for among documents.
ghost use Rattle.std.specs.Prelude.{◌≡◌};
ghost use Rattle.std.specs.List.{list_any};
ghost use Rattle.act_model.specs.Documents.{is_agreement, is_certified_consent_of, is_clearance, is_consent_of, is_proof};
ghost use Rattle.act_model.specs.Sought.{is_sought};
ghost use Rattle.act_model.specs.inner.CureDocuments.{certified_as, sought_as};

use crate::{Doc, Form};
use gb_base::Person;

/// A test of a person.
pub trait PersonTest {
    ghost use Rattle.std.specs.Prelude.{Bool, ℕ};

    /// Whether the person passes.
    ghost test: { Self → ℕ → Bool };

    /// Whether the person passes.
    fn passes(&self, person: Person) -> bool
        ensures { result ≡ test self.now person };
}

/// What is looked for, for the act of this number.
#[derive(Clone, Copy, Debug, PartialEq, Eq, PartialOrd, Ord)]
pub enum Sought {
    /// A consent of the person, in either form.
    Consent { act: u8, person: Person },
    /// A certified consent of the person.
    Certified { act: u8, person: Person },
    /// The agreement on a transfer (GBO § 20).
    Agreement { act: u8 },
    /// The tax office's clearance of a transfer (GrEStG § 22).
    Clearance { act: u8 },
    /// The proof that a right has expired by law (GBO § 22).
    Proof { act: u8 },
}

impl Sought {
    ghost use Rattle.act_model.specs.Sought.{act_sought, is_sought};

    /// The act for which it is looked for.
    pub fn act(&self) -> u8
        ensures { result ≡ act_sought self.now }
    {
        match self {
            Sought::Consent { act, .. } => *act,
            Sought::Certified { act, .. } => *act,
            Sought::Agreement { act } => *act,
            Sought::Clearance { act } => *act,
            Sought::Proof { act } => *act,
        }
    }

    /// Whether the document is what is looked for.
    pub fn is_met_by(&self, doc: &Doc) -> bool
        ensures { result ≡ is_sought self.now doc.now }
    {
        match self {
            Sought::Consent { act, person } => is_consent_of(doc, *act, *person),
            Sought::Certified { act, person } => is_certified_consent_of(doc, *act, *person),
            Sought::Agreement { act } => is_agreement(doc, *act),
            Sought::Clearance { act } => is_clearance(doc, *act),
            Sought::Proof { act } => is_proof(doc, *act),
        }
    }
}

/// Whether one of these documents is looked for so.
pub fn are_among(sought: &Sought, docs: &[Doc]) -> bool
    ensures { result ≡ list_any (is_sought sought.now) docs.now }
{
    docs.iter().any(|doc| sought.is_met_by(doc))
}

/// What the document is looked for as: a consent, whatever its form.
pub fn sought_as(doc: &Doc) -> Sought
    ensures { result ≡ sought_as doc.now }
{
    match doc {
        Doc::Consent { act, person, .. } => Sought::Consent {
            act: *act,
            person: *person,
        },
        Doc::Agreement { act } => Sought::Agreement { act: *act },
        Doc::TaxClearance { act } => Sought::Clearance { act: *act },
        Doc::ExpiryProof { act } => Sought::Proof { act: *act },
    }
}

/// What a document is looked for as besides, where it is a certified consent (GBO § 29).
pub fn certified_as(doc: &Doc) -> Option<Sought>
    ensures { result ≡ certified_as doc.now }
{
    match doc {
        Doc::Consent {
            act,
            person,
            form: Form::Certified,
        } => Some(Sought::Certified {
            act: *act,
            person: *person,
        }),
        _ => None,
    }
}

/// Whether the document is a consent of the person for the act.
fn is_consent_of(doc: &Doc, number: u8, consenting: Person) -> bool
    ensures { result ≡ is_consent_of number consenting doc.now }
{
    match doc {
        Doc::Consent { act, person, .. } => *act == number && *person == consenting,
        Doc::Agreement { .. } | Doc::TaxClearance { .. } | Doc::ExpiryProof { .. } => false,
    }
}

/// Whether the document is a certified consent of the person for the act (GBO § 29).
fn is_certified_consent_of(doc: &Doc, number: u8, consenting: Person) -> bool
    ensures { result ≡ is_certified_consent_of number consenting doc.now }
{
    match doc {
        Doc::Consent { act, person, form } => {
            *form == Form::Certified && *act == number && *person == consenting
        }
        Doc::Agreement { .. } | Doc::TaxClearance { .. } | Doc::ExpiryProof { .. } => false,
    }
}

fn is_agreement(doc: &Doc, number: u8) -> bool
    ensures { result ≡ is_agreement number doc.now }
{
    match doc {
        Doc::Agreement { act } => *act == number,
        Doc::Consent { .. } | Doc::TaxClearance { .. } | Doc::ExpiryProof { .. } => false,
    }
}

fn is_clearance(doc: &Doc, number: u8) -> bool
    ensures { result ≡ is_clearance number doc.now }
{
    match doc {
        Doc::TaxClearance { act } => *act == number,
        Doc::Consent { .. } | Doc::Agreement { .. } | Doc::ExpiryProof { .. } => false,
    }
}

fn is_proof(doc: &Doc, number: u8) -> bool
    ensures { result ≡ is_proof number doc.now }
{
    match doc {
        Doc::ExpiryProof { act } => *act == number,
        Doc::Consent { .. } | Doc::Agreement { .. } | Doc::TaxClearance { .. } => false,
    }
}
