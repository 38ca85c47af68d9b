//! Owners.
ghost use Rattle.std.specs.Prelude.{◌≡◌, ◌↔◌, ◌≤◌, length, IsSome, IfSome};
ghost use Rattle.act_model.specs.Persons.{AreOwners, is_distinct};

use arrayvec::ArrayVec;
use gb_base::Person;
use std::marker::Model;

/// The owners of a folio in equal shares, one to four different persons in the order of naming.
#[derive(Clone, Debug, Drop)]
pub struct Owners {
    list: ArrayVec<Person, 4>,
}

impl Model for Owners {
    ghost use Rattle.std.specs.Prelude.{List, ℕ, ◌≤◌, length};
    ghost use Rattle.act_model.specs.Limits.{most_owners};
    ghost use Rattle.act_model.specs.Persons.{AreOwners};

    ghost Value = { List ℕ };

    ghost view = { λ a. a.list.items };

    ghost invariant = { λ a. AreOwners a.list.items × (length a.list.items ≤ most_owners) };
}

/// Lists of the same owners in the same order are equal.
impl PartialEq for Owners {
    ghost use Rattle.std.specs.Prelude.{◌==◌};
    ghost use Rattle.std.specs.Cmp.Lexicographic.{pointwise, lists_per};
    ghost use Rattle.std.specs.Cmp.Rules.{comparing};

    ghost eq = { pointwise ◌==◌ };

    ghost laws = { lists_per (Prim.search comparing) };

    fn eq(&self, other: &Owners) -> bool {
        self.list() == other.list()
    }
}

impl Owners {
    ghost use Rattle.act_model.specs.Limits.{most_owners};

    /// These owners; None where the list is empty or names a person twice.
    pub fn new(list: ArrayVec<Person, 4>) -> Option<Owners>
        ensures some { IsSome result ↔ AreOwners list.items }
        ensures value { IfSome result (λ owners. owners ≡ list.items) }
    {
        if !list.is_empty() && distinct(list.as_slice()) {
            Some(Owners { list })
        } else {
            None
        }
    }

    /// The owners in the order of naming.
    pub fn list(&self) -> &[Person]
        ensures value { result.now ≡ self.now }
        ensures owners { AreOwners self.now }
        ensures at_most_four { length self.now ≤ most_owners }
    {
        self.list.as_slice()
    }

    /// A copy. Unlike `clone` of most types it takes no memory, and cannot fail.
    pub fn copy(&self) -> Owners
        ensures { result ≡ self.now }
    {
        self.clone().unwrap()
    }
}

/// Whether no person is named twice.
fn distinct(list: &[Person]) -> bool
    ensures { result ≡ is_distinct list.now }
{
    match list {
        [] => true,
        [first, rest @ ..] => !rest.contains(first) && distinct(rest),
    }
}
