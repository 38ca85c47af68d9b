//! What a seizure rests on, and what is registered for a forced sale.
ghost use Rattle.std.specs.Prelude.{◌≡◌, ◌≤◌, length, IfErr, IfOk, IsTrue};
ghost use Rattle.act_model.specs.WellFormed.{is_basis, is_registration};
ghost use Rattle.act_json.specs.Grammar.{read_personal, read_from_right, read_advance, read_charge, read_arrears};
ghost use Rattle.act_json.specs.inner.Helpers.{widest};
ghost use Rattle.act_json.specs.inner.Values.{view};

use crate::Path;
use crate::reading::{FromJson, kind_word, member, only};
use crate::values::string;
use crate::words::{BasisWord, RegistrationWord, basis_word, registration_word};
use act_model::{Basis, Registration};
use json::Value;

impl FromJson for BasisWord {
    ghost use Rattle.act_json.specs.Reading.{word_of};
    ghost use Rattle.act_json.specs.Grammar.{basis_words};

    ghost reads = { word_of basis_words };

    ghost longest = { 0 };

    fn read(value: &Value<'_>) -> Result<BasisWord, Path> {
        string(value).and_then(basis_word).ok_or(Path::here())
    }
}

impl FromJson for Basis {
    ghost use Rattle.act_json.specs.Grammar.{read_basis};
    ghost use Rattle.act_model.specs.WellFormed.{is_basis};

    ghost reads = { read_basis };

    ghost longest = { 14 };

    ghost keeps = { is_basis };

    #[tactic(auto, unfolding(crate::specs::Grammar::read_basis))]
    fn read(value: &Value<'_>) -> Result<Basis, Path> {
        match kind_word(value, "type")? {
            BasisWord::Personal => personal(value),
            BasisWord::Right => from_right(value),
        }
    }
}

#[tactic(auto, unfolding(crate::specs::Grammar::read_personal))]
fn personal(value: &Value<'_>) -> Result<Basis, Path>
    requires { widest (view value.now) ≤ 99999 }
    ensures exact { result ≡ read_personal (view value.now) }
    ensures short { IfErr result (λ path. length path ≤ 14) }
    ensures good { IfOk result (λ basis. IsTrue (is_basis basis)) }
{
    let creditor = member(value, "creditor")?;
    let claim = member(value, "claim")?;
    only(value, &["type", "creditor", "claim"])?;
    Ok(Basis::Personal { creditor, claim })
}

#[tactic(auto, unfolding(crate::specs::Grammar::read_from_right))]
fn from_right(value: &Value<'_>) -> Result<Basis, Path>
    requires { widest (view value.now) ≤ 99999 }
    ensures exact { result ≡ read_from_right (view value.now) }
    ensures short { IfErr result (λ path. length path ≤ 14) }
    ensures good { IfOk result (λ basis. IsTrue (is_basis basis)) }
{
    let right = member(value, "right")?;
    only(value, &["type", "right"])?;
    Ok(Basis::FromRight { right })
}

impl FromJson for RegistrationWord {
    ghost use Rattle.act_json.specs.Reading.{word_of};
    ghost use Rattle.act_json.specs.Grammar.{registration_words};

    ghost reads = { word_of registration_words };

    ghost longest = { 0 };

    fn read(value: &Value<'_>) -> Result<RegistrationWord, Path> {
        string(value)
            .and_then(registration_word)
            .ok_or(Path::here())
    }
}

impl FromJson for Registration {
    ghost use Rattle.act_json.specs.Grammar.{read_registration};
    ghost use Rattle.act_model.specs.WellFormed.{is_registration};

    ghost reads = { read_registration };

    ghost longest = { 14 };

    ghost keeps = { is_registration };

    #[tactic(auto, unfolding(crate::specs::Grammar::read_registration))]
    fn read(value: &Value<'_>) -> Result<Registration, Path> {
        match kind_word(value, "type")? {
            RegistrationWord::Advance => advance(value),
            RegistrationWord::Charge => charge(value),
            RegistrationWord::Arrears => arrears(value),
        }
    }
}

#[tactic(auto, unfolding(crate::specs::Grammar::read_advance))]
fn advance(value: &Value<'_>) -> Result<Registration, Path>
    requires { widest (view value.now) ≤ 99999 }
    ensures exact { result ≡ read_advance (view value.now) }
    ensures short { IfErr result (λ path. length path ≤ 14) }
    ensures good { IfOk result (λ registration. IsTrue (is_registration registration)) }
{
    let person = member(value, "person")?;
    let amount = member(value, "amount")?;
    only(value, &["type", "person", "amount"])?;
    Ok(Registration::Advance { person, amount })
}

#[tactic(auto, unfolding(crate::specs::Grammar::read_charge))]
fn charge(value: &Value<'_>) -> Result<Registration, Path>
    requires { widest (view value.now) ≤ 99999 }
    ensures exact { result ≡ read_charge (view value.now) }
    ensures short { IfErr result (λ path. length path ≤ 14) }
    ensures good { IfOk result (λ registration. IsTrue (is_registration registration)) }
{
    let person = member(value, "person")?;
    let amount = member(value, "amount")?;
    let due = member(value, "due")?;
    only(value, &["type", "person", "amount", "due"])?;
    Ok(Registration::PublicCharge {
        person,
        amount,
        due,
    })
}

#[tactic(auto, unfolding(crate::specs::Grammar::read_arrears))]
fn arrears(value: &Value<'_>) -> Result<Registration, Path>
    requires { widest (view value.now) ≤ 99999 }
    ensures exact { result ≡ read_arrears (view value.now) }
    ensures short { IfErr result (λ path. length path ≤ 14) }
    ensures good { IfOk result (λ registration. IsTrue (is_registration registration)) }
{
    let right = member(value, "right")?;
    let from = member(value, "from")?;
    let until = member(value, "until")?;
    only(value, &["type", "right", "from", "until"])?;
    Ok(Registration::Arrears { right, from, until })
}
