//! The acts of a filing. A reader of an act takes the whole object, and its folio, which was read
//! before.
ghost use Rattle.std.specs.Prelude.{◌≡◌, ◌≤◌, length, IfErr, IfOk, IsTrue};
ghost use Rattle.act_model.specs.WellFormed.{is_act, is_inventory};
ghost use Rattle.act_json.specs.Grammar.{act_called, read_inventory, read_open, read_transfer, read_create, read_notice, read_convert, read_assign, read_cancel, read_exchange, read_exercise};
ghost use Rattle.act_json.specs.inner.Helpers.{widest};
ghost use Rattle.act_json.specs.inner.Values.{view};

use crate::Path;
use crate::reading::{FromJson, kind_word, member, number, only, only_of_both, optional};
use crate::rights::{is_charge, spec, spec_names};
use crate::values::string;
use crate::words::{ActWord, RightWord, act_word};
use act_model::{Act, Inventory};
use gb_base::FolioId;
use json::Value;

impl FromJson for ActWord {
    ghost use Rattle.act_json.specs.Reading.{word_of};
    ghost use Rattle.act_json.specs.Grammar.{act_words};

    ghost reads = { word_of act_words };

    ghost longest = { 0 };

    fn read(value: &Value<'_>) -> Result<ActWord, Path> {
        string(value).and_then(act_word).ok_or(Path::here())
    }
}

impl FromJson for Act {
    ghost use Rattle.act_json.specs.Grammar.{read_act};
    ghost use Rattle.act_model.specs.WellFormed.{is_act};

    ghost reads = { read_act };

    ghost longest = { 15 };

    ghost keeps = { is_act };

    #[tactic(auto, unfolding(crate::specs::Grammar::read_act))]
    fn read(value: &Value<'_>) -> Result<Act, Path> {
        let word = kind_word(value, "act")?;
        let folio = member(value, "folio")?;
        act(value, word, folio)
    }
}

/// The act of this folio that is called so.
fn act(value: &Value<'_>, word: ActWord, folio: FolioId) -> Result<Act, Path>
    requires { widest (view value.now) ≤ 99999 }
    ensures exact { result ≡ act_called word folio (view value.now) }
    ensures short { IfErr result (λ path. length path ≤ 15) }
    ensures good { IfOk result (λ act. IsTrue (is_act act)) }
{
    match word {
        ActWord::Open => open(value, folio),
        ActWord::Transfer => transfer(value, folio),
        ActWord::Create => create(value, folio),
        ActWord::Notice => notice(value, folio),
        ActWord::Convert => convert(value, folio),
        ActWord::Assign => assign(value, folio),
        ActWord::Cancel => cancel(value, folio),
        ActWord::Exchange => exchange(value, folio),
        ActWord::Exercise => exercise(value, folio),
    }
}

#[tactic(auto, unfolding(crate::specs::Grammar::read_open))]
fn open(value: &Value<'_>, folio: FolioId) -> Result<Act, Path>
    requires { widest (view value.now) ≤ 99999 }
    ensures exact { result ≡ read_open folio (view value.now) }
    ensures short { IfErr result (λ path. length path ≤ 15) }
    ensures good { IfOk result (λ act. IsTrue (is_act act)) }
{
    let inventory = inventory(value)?;
    let owners = member(value, "owners")?;
    only(
        value,
        &[
            "act", "folio", "district", "parcel", "sub", "area", "owners",
        ],
    )?;
    Ok(Act::Open {
        folio,
        inventory,
        owners,
    })
}

fn inventory(value: &Value<'_>) -> Result<Inventory, Path>
    ensures exact { result ≡ read_inventory (view value.now) }
    ensures short { IfErr result (λ path. length path ≤ 8) }
    ensures good { IfOk result (λ inventory. IsTrue (is_inventory inventory)) }
{
    let district = number(value, "district", 1, 65_535)?;
    let parcel = number(value, "parcel", 1, 4_294_967_295)?;
    let sub = number(value, "sub", 0, 65_535)?;
    let area = number(value, "area", 1, 1_000_000_000)?;
    Ok(Inventory {
        district: district as u16,
        parcel: parcel as u32,
        sub: sub as u16,
        area: area as u32,
    })
}

#[tactic(auto, unfolding(crate::specs::Grammar::read_transfer))]
fn transfer(value: &Value<'_>, folio: FolioId) -> Result<Act, Path>
    requires { widest (view value.now) ≤ 99999 }
    ensures exact { result ≡ read_transfer folio (view value.now) }
    ensures short { IfErr result (λ path. length path ≤ 15) }
    ensures good { IfOk result (λ act. IsTrue (is_act act)) }
{
    let owners = member(value, "owners")?;
    only(value, &["act", "folio", "owners"])?;
    Ok(Act::Transfer { folio, owners })
}

#[tactic(auto, unfolding(crate::specs::Grammar::read_create))]
fn create(value: &Value<'_>, folio: FolioId) -> Result<Act, Path>
    requires { widest (view value.now) ≤ 99999 }
    ensures exact { result ≡ read_create folio (view value.now) }
    ensures short { IfErr result (λ path. length path ≤ 15) }
    ensures good { IfOk result (λ act. IsTrue (is_act act)) }
{
    let word = member(value, "kind")?;
    let spec = spec(value, word)?;
    let reserve = optional(value, "reserve")?;
    only_of_both(value, &["act", "folio", "reserve"], spec_names(word))?;
    Ok(Act::Create {
        folio,
        spec,
        reserve,
    })
}

#[tactic(auto, unfolding(crate::specs::Grammar::read_notice))]
fn notice(value: &Value<'_>, folio: FolioId) -> Result<Act, Path>
    requires { widest (view value.now) ≤ 99999 }
    ensures exact { result ≡ read_notice folio (view value.now) }
    ensures short { IfErr result (λ path. length path ≤ 15) }
    ensures good { IfOk result (λ act. IsTrue (is_act act)) }
{
    let word = member(value, "kind")?;
    let spec = spec(value, word)?;
    only_of_both(value, &["act", "folio"], spec_names(word))?;
    Ok(Act::NoticeFor { folio, spec })
}

#[tactic(auto, unfolding(crate::specs::Grammar::read_convert))]
fn convert(value: &Value<'_>, folio: FolioId) -> Result<Act, Path>
    requires { widest (view value.now) ≤ 99999 }
    ensures exact { result ≡ read_convert folio (view value.now) }
    ensures short { IfErr result (λ path. length path ≤ 15) }
    ensures good { IfOk result (λ act. IsTrue (is_act act)) }
{
    let right = member(value, "right")?;
    only(value, &["act", "folio", "right"])?;
    Ok(Act::Convert { folio, right })
}

#[tactic(auto, unfolding(crate::specs::Grammar::read_assign))]
fn assign(value: &Value<'_>, folio: FolioId) -> Result<Act, Path>
    requires { widest (view value.now) ≤ 99999 }
    ensures exact { result ≡ read_assign folio (view value.now) }
    ensures short { IfErr result (λ path. length path ≤ 15) }
    ensures good { IfOk result (λ act. IsTrue (is_act act)) }
{
    let right = member(value, "right")?;
    let holder = member(value, "holder")?;
    only(value, &["act", "folio", "right", "holder"])?;
    Ok(Act::Assign {
        folio,
        right,
        holder,
    })
}

#[tactic(auto, unfolding(crate::specs::Grammar::read_cancel))]
fn cancel(value: &Value<'_>, folio: FolioId) -> Result<Act, Path>
    requires { widest (view value.now) ≤ 99999 }
    ensures exact { result ≡ read_cancel folio (view value.now) }
    ensures short { IfErr result (λ path. length path ≤ 15) }
    ensures good { IfOk result (λ act. IsTrue (is_act act)) }
{
    let right = member(value, "right")?;
    only(value, &["act", "folio", "right"])?;
    Ok(Act::Cancel { folio, right })
}

#[tactic(auto, unfolding(crate::specs::Grammar::read_exchange))]
fn exchange(value: &Value<'_>, folio: FolioId) -> Result<Act, Path>
    requires { widest (view value.now) ≤ 99999 }
    ensures exact { result ≡ read_exchange folio (view value.now) }
    ensures short { IfErr result (λ path. length path ≤ 15) }
    ensures good { IfOk result (λ act. IsTrue (is_act act)) }
{
    let recede = member(value, "recede")?;
    let rise = member(value, "rise")?;
    only(value, &["act", "folio", "recede", "rise"])?;
    Ok(Act::Exchange {
        folio,
        recede,
        rise,
    })
}

#[tactic(auto, unfolding(crate::specs::Grammar::read_exercise))]
fn exercise(value: &Value<'_>, folio: FolioId) -> Result<Act, Path>
    requires { widest (view value.now) ≤ 99999 }
    ensures exact { result ≡ read_exercise folio (view value.now) }
    ensures short { IfErr result (λ path. length path ≤ 15) }
    ensures good { IfOk result (λ act. IsTrue (is_act act)) }
{
    let behind = member(value, "behind")?;
    let word: RightWord = member(value, "kind")?;
    if !is_charge(word) {
        return Err(Path::of("kind"));
    }
    let spec = spec(value, word)?;
    only_of_both(value, &["act", "folio", "behind"], spec_names(word))?;
    Ok(Act::Exercise {
        folio,
        behind,
        spec,
    })
}
