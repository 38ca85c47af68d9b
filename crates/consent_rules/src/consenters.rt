//! Whose consent an act needs (GBO §§ 19, 22, 27; BGB §§ 876, 880(2)).
ghost use Rattle.std.specs.Prelude.{◌≡◌, ◌==◌};
ghost use Rattle.std.specs.List.{list_any};
ghost use Rattle.consent_rules.specs.Persons.{persons};
ghost use Rattle.consent_rules.specs.inner.Lacks.{is_lacking};
ghost use Rattle.consent_rules.specs.inner.Needed.{everyone};

use crate::lacks::{Lack, some_are_lacking};
use crate::waiting::Waiting;
use act_model::PersonTest;
use arrayvec::ArrayVec;
use gb_base::Person;

/// All whose consent an act needs.
#[derive(Drop)]
pub struct Consenters<'a> {
    /// Whose right the act affects (GBO § 19).
    pub affected: ArrayVec<Person, 4>,
    /// The owners who consent beside those who are affected (GBO § 27, BGB § 880(2)).
    pub owner_side: ArrayVec<Person, 4>,
    /// The applicants who wait at the right (BGB § 876); None where the act needs none of them.
    pub others: Option<Waiting<'a>>,
}

impl<'a> Consenters<'a> {
    /// Whether the person is one of them.
    pub fn has(&self, person: Person) -> bool
        ensures { result ≡ list_any (λ q. q == person) (everyone self.now) }
    {
        self.affected.as_slice().contains(&person)
            || self.owner_side.as_slice().contains(&person)
            || self.is_other(person)
    }

    /// Whether this is lacking from one of them.
    pub fn some(&self, lack: &Lack) -> bool
        ensures { result ≡ list_any (is_lacking lack.now) (everyone self.now) }
    {
        self.some_affected(lack) || self.some_owner(lack) || self.some_other(lack)
    }

    /// Whether this is lacking from one whose right the act affects.
    pub fn some_affected(&self, lack: &Lack) -> bool
        ensures { result ≡ list_any (is_lacking lack.now) self.now.affected.items }
    {
        some_are_lacking(lack, self.affected.as_slice())
    }

    /// Whether this is lacking from one of the owners who consent beside those who are affected.
    pub fn some_owner(&self, lack: &Lack) -> bool
        ensures { result ≡ list_any (is_lacking lack.now) self.now.owner_side.items }
    {
        some_are_lacking(lack, self.owner_side.as_slice())
    }

    /// Whether the person is one of the applicants who wait.
    fn is_other(&self, person: Person) -> bool
        ensures { result ≡ list_any (λ q. q == person) (persons self.now.others) }
    {
        match &self.others {
            Some(waiting) => waiting.has(person),
            None => false,
        }
    }

    /// Whether this is lacking from one of the applicants who wait.
    pub fn some_other(&self, lack: &Lack) -> bool
        ensures { result ≡ list_any (is_lacking lack.now) (persons self.now.others) }
    {
        match &self.others {
            Some(waiting) => waiting.some(lack),
            None => false,
        }
    }
}

/// Somebody whose consent the act does not need.
#[derive(Drop)]
pub struct Stranger<'a> {
    pub needed: &'a Consenters<'a>,
}

impl<'a> PersonTest for Stranger<'a> {
    ghost use Rattle.std.specs.Prelude.{not, ◌==◌};
    ghost use Rattle.std.specs.List.{list_any};
    ghost use Rattle.consent_rules.specs.inner.Needed.{everyone};

    ghost test = { λ s p. not (list_any (λ q. q == p) (everyone s.needed.now)) };

    fn passes(&self, person: Person) -> bool {
        !self.needed.has(person)
    }
}
