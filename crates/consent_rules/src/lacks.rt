//! What the consents of several persons to an act may lack.
ghost use Rattle.std.specs.Prelude.{◌≡◌};
ghost use Rattle.std.specs.List.{list_any};
ghost use Rattle.consent_rules.specs.inner.Lacks.{is_lacking};

use act_model::{Form, Matter};
use gb_base::Person;

/// What somebody's consent to an act may lack.
#[derive(Drop)]
pub enum Lack<'a> {
    /// The consent itself: there is none of the person for this act.
    Consent(&'a Matter<'a>, u8),
    /// The form: there is a consent of the person for this act, but none that is certified
    /// (GBO § 29).
    Form(&'a Matter<'a>, u8),
}

/// Whether this is lacking from the person.
pub fn is_lacking(lack: &Lack, person: Person) -> bool
    ensures { result ≡ is_lacking lack.now person }
{
    match lack {
        Lack::Consent(matter, act) => matter.given(*act, person).is_none(),
        Lack::Form(matter, act) => matter.given(*act, person) == Some(Form::Plain),
    }
}

/// Whether this is lacking from one of these persons.
pub fn some_are_lacking(lack: &Lack, people: &[Person]) -> bool
    ensures { result ≡ list_any (is_lacking lack.now) people.now }
{
    people.iter().any(|person| is_lacking(lack, *person))
}
