//! The items. A reader of an item takes the whole object.
ghost use Rattle.std.specs.Prelude.{◌≡◌, ◌≤◌, length, IfErr, IfOk, IsTrue};
ghost use Rattle.act_model.specs.WellFormed.{well_formed, keeps_rules, is_doc, is_act};
ghost use Rattle.act_json.specs.Grammar.{read_filing, read_cure, read_lapse, read_seize, read_register, read_open_bids, read_award, read_distribute, read_extend};
ghost use Rattle.act_json.specs.inner.Helpers.{widest};
ghost use Rattle.act_json.specs.inner.Values.{view};

use crate::Path;
use crate::arrays::array;
use crate::reading::{FromJson, kind_word, member, number, only};
use crate::values::string;
use crate::words::{ItemWord, item_word};
use act_model::{Acts, Docs, Filing, Item, keeps_rules};
use json::Value;

impl FromJson for ItemWord {
    ghost use Rattle.act_json.specs.Reading.{word_of};
    ghost use Rattle.act_json.specs.Grammar.{item_words};

    ghost reads = { word_of item_words };

    ghost longest = { 0 };

    fn read(value: &Value<'_>) -> Result<ItemWord, Path> {
        string(value).and_then(item_word).ok_or(Path::here())
    }
}

impl FromJson for Docs {
    ghost use Rattle.std.specs.List.{list_all};
    ghost use Rattle.act_json.specs.Grammar.{read_docs};
    ghost use Rattle.act_model.specs.WellFormed.{is_doc};

    ghost reads = { read_docs };

    ghost longest = { 13 };

    ghost keeps = { list_all is_doc };

    fn read(value: &Value<'_>) -> Result<Docs, Path> {
        let list = array(value, 0)?;
        Ok(Docs::new(list))
    }
}

impl FromJson for Acts {
    ghost use Rattle.std.specs.Prelude.{◌&&◌, length};
    ghost use Rattle.std.specs.List.{list_all};
    ghost use Rattle.act_json.specs.Grammar.{read_acts};
    ghost use Rattle.gb_base.specs.Limits.{is_between};
    ghost use Rattle.act_model.specs.WellFormed.{is_act};

    ghost reads = { read_acts };

    ghost longest = { 21 };

    ghost keeps = { λ acts. is_between 1 8 (length acts) && list_all is_act acts };

    fn read(value: &Value<'_>) -> Result<Acts, Path> {
        let list = array(value, 1)?;
        Ok(Acts::new(list))
    }
}

impl FromJson for Item {
    ghost use Rattle.act_json.specs.Grammar.{any_item};
    ghost use Rattle.act_model.specs.WellFormed.{well_formed};

    ghost reads = { any_item };

    ghost longest = { 26 };

    ghost keeps = { well_formed };

    #[tactic(auto, unfolding(crate::specs::Grammar::any_item))]
    fn read(value: &Value<'_>) -> Result<Item, Path> {
        match kind_word(value, "kind")? {
            ItemWord::Filing => filing(value),
            ItemWord::Cure => cure(value),
            ItemWord::Lapse => lapse(value),
            ItemWord::Seize => seize(value),
            ItemWord::Register => register(value),
            ItemWord::OpenBids => open_bids(value),
            ItemWord::Award => award(value),
            ItemWord::Distribute => distribute(value),
            ItemWord::Extend => extend(value),
        }
    }
}

#[tactic(auto, unfolding(crate::specs::Grammar::read_filing))]
fn filing(value: &Value<'_>) -> Result<Item, Path>
    requires { widest (view value.now) ≤ 99999 }
    ensures exact { result ≡ read_filing (view value.now) }
    ensures short { IfErr result (λ path. length path ≤ 26) }
    ensures good { IfOk result (λ item. IsTrue (well_formed item)) }
{
    let applicant = member(value, "applicant")?;
    let conditional = member(value, "conditional")?;
    let acts: Acts = member(value, "acts")?;
    let docs = member(value, "docs")?;
    only(value, &["kind", "applicant", "conditional", "acts", "docs"])?;
    if !keeps_rules(acts.list()) {
        return Err(Path::of("acts"));
    }
    Ok(Item::Filing(Filing {
        applicant,
        conditional,
        acts,
        docs,
    }))
}

#[tactic(auto, unfolding(crate::specs::Grammar::read_cure))]
fn cure(value: &Value<'_>) -> Result<Item, Path>
    requires { widest (view value.now) ≤ 99999 }
    ensures exact { result ≡ read_cure (view value.now) }
    ensures short { IfErr result (λ path. length path ≤ 26) }
    ensures good { IfOk result (λ item. IsTrue (well_formed item)) }
{
    let filing = member(value, "filing")?;
    let docs = member(value, "docs")?;
    only(value, &["kind", "filing", "docs"])?;
    Ok(Item::Cure { filing, docs })
}

#[tactic(auto, unfolding(crate::specs::Grammar::read_lapse))]
fn lapse(value: &Value<'_>) -> Result<Item, Path>
    requires { widest (view value.now) ≤ 99999 }
    ensures exact { result ≡ read_lapse (view value.now) }
    ensures short { IfErr result (λ path. length path ≤ 26) }
    ensures good { IfOk result (λ item. IsTrue (well_formed item)) }
{
    let filing = member(value, "filing")?;
    only(value, &["kind", "filing"])?;
    Ok(Item::Lapse { filing })
}

#[tactic(auto, unfolding(crate::specs::Grammar::read_seize))]
fn seize(value: &Value<'_>) -> Result<Item, Path>
    requires { widest (view value.now) ≤ 99999 }
    ensures exact { result ≡ read_seize (view value.now) }
    ensures short { IfErr result (λ path. length path ≤ 26) }
    ensures good { IfOk result (λ item. IsTrue (well_formed item)) }
{
    let folio = member(value, "folio")?;
    let basis = member(value, "basis")?;
    let served = member(value, "served")?;
    only(value, &["kind", "folio", "basis", "served"])?;
    Ok(Item::Seize {
        folio,
        basis,
        served,
    })
}

#[tactic(auto, unfolding(crate::specs::Grammar::read_register))]
fn register(value: &Value<'_>) -> Result<Item, Path>
    requires { widest (view value.now) ≤ 99999 }
    ensures exact { result ≡ read_register (view value.now) }
    ensures short { IfErr result (λ path. length path ≤ 26) }
    ensures good { IfOk result (λ item. IsTrue (well_formed item)) }
{
    let folio = member(value, "folio")?;
    let registration = member(value, "what")?;
    only(value, &["kind", "folio", "what"])?;
    Ok(Item::Register {
        folio,
        what: registration,
    })
}

#[tactic(auto, unfolding(crate::specs::Grammar::read_open_bids))]
fn open_bids(value: &Value<'_>) -> Result<Item, Path>
    requires { widest (view value.now) ≤ 99999 }
    ensures exact { result ≡ read_open_bids (view value.now) }
    ensures short { IfErr result (λ path. length path ≤ 26) }
    ensures good { IfOk result (λ item. IsTrue (well_formed item)) }
{
    let folio = member(value, "folio")?;
    let costs = member(value, "costs")?;
    only(value, &["kind", "folio", "costs"])?;
    Ok(Item::OpenBids { folio, costs })
}

#[tactic(auto, unfolding(crate::specs::Grammar::read_award))]
fn award(value: &Value<'_>) -> Result<Item, Path>
    requires { widest (view value.now) ≤ 99999 }
    ensures exact { result ≡ read_award (view value.now) }
    ensures short { IfErr result (λ path. length path ≤ 26) }
    ensures good { IfOk result (λ item. IsTrue (well_formed item)) }
{
    let folio = member(value, "folio")?;
    let buyer = member(value, "buyer")?;
    let bid = member(value, "bid")?;
    only(value, &["kind", "folio", "buyer", "bid"])?;
    Ok(Item::Award { folio, buyer, bid })
}

#[tactic(auto, unfolding(crate::specs::Grammar::read_distribute))]
fn distribute(value: &Value<'_>) -> Result<Item, Path>
    requires { widest (view value.now) ≤ 99999 }
    ensures exact { result ≡ read_distribute (view value.now) }
    ensures short { IfErr result (λ path. length path ≤ 26) }
    ensures good { IfOk result (λ item. IsTrue (well_formed item)) }
{
    let folio = member(value, "folio")?;
    only(value, &["kind", "folio"])?;
    Ok(Item::Distribute { folio })
}

#[tactic(auto, unfolding(crate::specs::Grammar::read_extend))]
fn extend(value: &Value<'_>) -> Result<Item, Path>
    requires { widest (view value.now) ≤ 99999 }
    ensures exact { result ≡ read_extend (view value.now) }
    ensures short { IfErr result (λ path. length path ≤ 26) }
    ensures good { IfOk result (λ item. IsTrue (well_formed item)) }
{
    let filing = member(value, "filing")?;
    let days = number(value, "days", 1, 90)?;
    only(value, &["kind", "filing", "days"])?;
    Ok(Item::Extend {
        filing,
        days: days as u16,
    })
}
