//! Rights and owners.
ghost use Rattle.std.specs.Prelude.{◌≡◌, ◌≤◌, ◌∷◌, [], length, map, IfErr, IfOk, IsTrue};
ghost use Rattle.act_model.specs.Acts.{is_in_division_three};
ghost use Rattle.act_model.specs.WellFormed.{is_right_spec, is_right_kind};
ghost use Rattle.act_json.specs.Grammar.{rate, read_kind, read_spec, spec_names, is_charge};
ghost use Rattle.act_json.specs.inner.Helpers.{widest};
ghost use Rattle.act_json.specs.inner.Values.{view};

use crate::Path;
use crate::arrays::array;
use crate::reading::{FromJson, an_object, member, number, only};
use crate::values::string;
use crate::words::{RightWord, right_word};
use act_model::{Owners, RightKind, RightSpec};
use gb_base::RightId;
use json::Value;

impl FromJson for RightId {
    ghost use Rattle.act_json.specs.Grammar.{read_right};

    ghost reads = { read_right };

    ghost longest = { 8 };

    #[tactic(auto, unfolding(crate::specs::Grammar::read_right))]
    fn read(value: &Value<'_>) -> Result<RightId, Path> {
        an_object(value)?;
        let receipt = member(value, "receipt")?;
        let act = number(value, "act", 1, 8)?;
        only(value, &["receipt", "act"])?;
        Ok(RightId::new(receipt, act as u8).unwrap())
    }
}

impl FromJson for Owners {
    ghost use Rattle.act_json.specs.Grammar.{read_owners};

    ghost reads = { read_owners };

    ghost longest = { 6 };

    #[tactic(auto, unfolding(crate::specs::Grammar::read_owners))]
    fn read(value: &Value<'_>) -> Result<Owners, Path> {
        let persons = array(value, 1)?;
        Owners::new(persons).ok_or(Path::here())
    }
}

impl FromJson for RightWord {
    ghost use Rattle.act_json.specs.Reading.{word_of};
    ghost use Rattle.act_json.specs.Grammar.{right_words};

    ghost reads = { word_of right_words };

    ghost longest = { 0 };

    fn read(value: &Value<'_>) -> Result<RightWord, Path> {
        string(value).and_then(right_word).ok_or(Path::here())
    }
}

/// Whether rights of this kind stand in division III.
pub(crate) fn is_charge(word: RightWord) -> bool
    ensures { result ≡ is_charge word }
{
    match word {
        RightWord::PersonalEasement | RightWord::Usufruct => false,
        RightWord::Mortgage | RightWord::LandCharge => true,
    }
}

/// The right that an act describes, of the kind that is called so.
#[tactic(auto, unfolding(crate::specs::Grammar::read_spec))]
pub(crate) fn spec(value: &Value<'_>, word: RightWord) -> Result<RightSpec, Path>
    requires { widest (view value.now) ≤ 99999 }
    ensures exact { result ≡ read_spec word (view value.now) }
    ensures short { IfErr result (λ path. length path ≤ 9) }
    ensures good { IfOk result (λ spec. IsTrue (is_right_spec spec)) }
    ensures division { IfOk result (λ spec. is_in_division_three spec.kind ≡ is_charge word) }
{
    let kind = kind(value, word)?;
    let capital = member(value, "capital")?;
    let holder = member(value, "holder")?;
    let group = number(value, "group", 1, 8)?;
    Ok(RightSpec {
        kind,
        capital,
        holder,
        group: group as u8,
    })
}

#[tactic(auto, unfolding(crate::specs::Grammar::read_kind))]
fn kind(value: &Value<'_>, word: RightWord) -> Result<RightKind, Path>
    ensures exact { result ≡ read_kind word (view value.now) }
    ensures short { IfErr result (λ path. length path ≤ 4) }
    ensures good { IfOk result (λ kind. IsTrue (is_right_kind kind)) }
    ensures division { IfOk result (λ kind. is_in_division_three kind ≡ is_charge word) }
{
    match word {
        RightWord::PersonalEasement => Ok(RightKind::PersonalEasement),
        RightWord::Usufruct => Ok(RightKind::Usufruct),
        RightWord::Mortgage => {
            let rate_bp = rate(value)?;
            Ok(RightKind::Mortgage { rate_bp })
        }
        RightWord::LandCharge => {
            let rate_bp = rate(value)?;
            Ok(RightKind::LandCharge { rate_bp })
        }
    }
}

/// The interest, in hundredths of a percent a year.
fn rate(value: &Value<'_>) -> Result<u16, Path>
    ensures exact { result ≡ rate (view value.now) }
    ensures short { IfErr result (λ path. length path ≤ 4) }
    ensures in_range { IfOk result (λ bp. bp ≤ 2000) }
{
    let bp = number(value, "rate", 0, 2_000)?;
    Ok(bp as u16)
}

/// The names of the members that `spec` reads, and of the kind.
pub(crate) fn spec_names(word: RightWord) -> &'static [&'static str]
    ensures { map (λ name. name.now) result.now ≡ spec_names word }
{
    match word {
        RightWord::PersonalEasement | RightWord::Usufruct => &[
            "kind", "capital", "holder", "group",
        ],
        RightWord::Mortgage | RightWord::LandCharge => {
            &["kind", "rate", "capital", "holder", "group"]
        }
    }
}
