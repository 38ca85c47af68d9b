//! What a seizure rests on, and what is registered.
ghost use Rattle.std.specs.Prelude.{◌≡◌, ◌++◌, OnOk};
ghost use Rattle.act_codec.specs.Spelling.{basis_bytes, registration_bytes};
ghost use Rattle.act_codec.specs.Values.{IsBasis, IsRegistration};
ghost use Rattle.act_codec.specs.inner.Reading.{Gives, Found, FoundTagged, read_personal, read_from_right, read_basis, read_advance, read_charge, read_arrears, read_registration};

use crate::reader::Reader;
use crate::rights::{put_right, read_right};
use crate::writer::Writer;
use act_model::{Basis, Registration};
use gb_base::NoMemory;

#[tactic(auto, unfolding(crate::specs::inner::Reading::read_personal))]
fn read_personal(from: &mut Reader) -> Option<Basis>
    ensures read { Gives result from.new (read_personal from.old) }
    ensures found { FoundTagged 1 result from.old from.new basis_bytes IsBasis }
{
    Some(Basis::Personal {
        creditor: from.person()?,
        claim: from.cents()?,
    })
}

#[tactic(auto, unfolding(crate::specs::inner::Reading::read_from_right))]
fn read_from_right(from: &mut Reader) -> Option<Basis>
    ensures read { Gives result from.new (read_from_right from.old) }
    ensures found { FoundTagged 2 result from.old from.new basis_bytes IsBasis }
{
    Some(Basis::FromRight {
        right: read_right(from)?,
    })
}

/// What a seizure rests on; None where none begins here.
#[tactic(auto, unfolding(crate::specs::inner::Reading::read_basis))]
pub fn read_basis(from: &mut Reader) -> Option<Basis>
    ensures read { Gives result from.new (read_basis from.old) }
    ensures found { Found result from.old from.new basis_bytes IsBasis }
{
    match from.u8()? {
        1 => read_personal(from),
        2 => read_from_right(from),
        _ => None,
    }
}

#[tactic(auto, unfolding(crate::specs::inner::Reading::read_advance))]
fn read_advance(from: &mut Reader) -> Option<Registration>
    ensures read { Gives result from.new (read_advance from.old) }
    ensures found { FoundTagged 1 result from.old from.new registration_bytes IsRegistration }
{
    Some(Registration::Advance {
        person: from.person()?,
        amount: from.cents()?,
    })
}

#[tactic(auto, unfolding(crate::specs::inner::Reading::read_charge))]
fn read_charge(from: &mut Reader) -> Option<Registration>
    ensures read { Gives result from.new (read_charge from.old) }
    ensures found { FoundTagged 2 result from.old from.new registration_bytes IsRegistration }
{
    Some(Registration::PublicCharge {
        person: from.person()?,
        amount: from.cents()?,
        due: from.day()?,
    })
}

#[tactic(auto, unfolding(crate::specs::inner::Reading::read_arrears))]
fn read_arrears(from: &mut Reader) -> Option<Registration>
    ensures read { Gives result from.new (read_arrears from.old) }
    ensures found { FoundTagged 3 result from.old from.new registration_bytes IsRegistration }
{
    Some(Registration::Arrears {
        right: read_right(from)?,
        from: from.day()?,
        until: from.day()?,
    })
}

/// What is registered; None where none begins here.
#[tactic(auto, unfolding(crate::specs::inner::Reading::read_registration))]
pub fn read_registration(from: &mut Reader) -> Option<Registration>
    ensures read { Gives result from.new (read_registration from.old) }
    ensures found { Found result from.old from.new registration_bytes IsRegistration }
{
    match from.u8()? {
        1 => read_advance(from),
        2 => read_charge(from),
        3 => read_arrears(from),
        _ => None,
    }
}

/// Writes what a seizure rests on.
pub fn put_basis(to: &mut Writer, basis: Basis) -> Result<(), NoMemory>
    ensures wrote { OnOk result (to.new ≡ to.old ++ basis_bytes basis) }
    ensures held { OnOk result (IsBasis basis) }
{
    match basis {
        Basis::Personal { creditor, claim } => {
            to.u8(1)?;
            to.person(creditor)?;
            to.cents(claim)?;
            Ok(())
        }
        Basis::FromRight { right } => {
            to.u8(2)?;
            put_right(to, right)?;
            Ok(())
        }
    }
}

/// Writes what is registered.
pub fn put_registration(to: &mut Writer, registration: Registration) -> Result<(), NoMemory>
    ensures wrote { OnOk result (to.new ≡ to.old ++ registration_bytes registration) }
    ensures held { OnOk result (IsRegistration registration) }
{
    match registration {
        Registration::Advance { person, amount } => {
            to.u8(1)?;
            to.person(person)?;
            to.cents(amount)?;
            Ok(())
        }
        Registration::PublicCharge {
            person,
            amount,
            due,
        } => {
            to.u8(2)?;
            to.person(person)?;
            to.cents(amount)?;
            to.day(due)?;
            Ok(())
        }
        Registration::Arrears { right, from, until } => {
            to.u8(3)?;
            put_right(to, right)?;
            to.day(from)?;
            to.day(until)?;
            Ok(())
        }
    }
}
