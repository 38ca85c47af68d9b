//! Documents, and lists of them.
ghost use Rattle.std.specs.Prelude.{◌≡◌, ◌≤◌, length};

use arrayvec::ArrayVec;
use gb_base::Person;
use std::marker::Model;

/// The form of a consent (GBO § 29).
#[derive(Clone, Copy, Debug, PartialEq, Eq)]
pub enum Form {
    /// Recorded or certified by a notary.
    Certified,
    /// In plain form, which does not suffice.
    Plain,
}

/// A document, for the act of this number, from 1 to 8.
#[derive(Clone, Copy, Debug, PartialEq, Eq)]
pub enum Doc {
    /// A person's consent to the entry (GBO § 19).
    Consent { act: u8, person: Person, form: Form },
    /// The agreement on a transfer (GBO § 20).
    Agreement { act: u8 },
    /// The tax office's clearance of a transfer (GrEStG § 22).
    TaxClearance { act: u8 },
    /// The proof that a right has expired by law (GBO § 22).
    ExpiryProof { act: u8 },
}

/// An agreement for act 1, which fills the unused places of a bounded list.
impl Default for Doc {
    fn default() -> Doc {
        Doc::Agreement { act: 1 }
    }
}

/// The documents of a filing or a cure, at most 32.
#[derive(Clone, Debug, Drop)]
pub struct Docs {
    list: ArrayVec<Doc, 32>,
}

impl Model for Docs {
    ghost use Rattle.std.specs.Prelude.{List, ◌≤◌, length};
    ghost use Rattle.act_model.specs.declared.documents.Doc.{Doc};
    ghost use Rattle.act_model.specs.Limits.{most_docs};

    ghost Value = { List Doc };

    ghost view = { λ a. a.list.items };

    ghost invariant = { λ a. length a.list.items ≤ most_docs };
}

/// Lists of the same documents in the same order are equal.
impl PartialEq for Docs {
    ghost use Rattle.std.specs.Cmp.Lexicographic.{pointwise, lists_per};
    ghost use Rattle.act_model.specs.contracts.documents.DocPartialEq.TheImpl.Laws.{laws-law};

    ghost eq = { pointwise ⟦<Doc as PartialEq>⟧.eq };

    ghost laws = { lists_per laws-law };

    fn eq(&self, other: &Docs) -> bool {
        self.list() == other.list()
    }
}

impl Docs {
    ghost use Rattle.act_model.specs.Limits.{most_docs};

    /// These documents.
    pub fn new(list: ArrayVec<Doc, 32>) -> Docs
        ensures { result ≡ list.items }
    {
        Docs { list }
    }

    /// The documents in their order.
    pub fn list(&self) -> &[Doc]
        ensures value { result.now ≡ self.now }
        ensures at_most_32 { length self.now ≤ most_docs }
    {
        self.list.as_slice()
    }
}
