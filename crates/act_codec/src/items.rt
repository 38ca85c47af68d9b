//! Items.
//! Why so: docs/DECISIONS.md, "A format's table is one long match".
ghost use Rattle.std.specs.Prelude.{◌≡◌, ◌++◌, OnOk};
ghost use Rattle.act_codec.specs.Spelling.{condition_bytes, filing_bytes, item_bytes};
ghost use Rattle.act_codec.specs.Values.{IsFiling, IsItem};
ghost use Rattle.act_codec.specs.inner.Reading.{Gives, Found, FoundTagged, IsAny, read_condition, read_filing, read_filing_item, read_cure, read_lapse, read_seize, read_register, read_open_bids, read_award, read_distribute, read_extend, read_item};

use crate::acts::{put_acts, read_acts};
use crate::documents::{put_docs, read_docs};
use crate::reader::Reader;
use crate::sales::{put_basis, put_registration, read_basis, read_registration};
use crate::writer::Writer;
use act_model::{Filing, Item};
use gb_base::NoMemory;

#[tactic(auto, unfolding(crate::specs::inner::Reading::read_condition))]
fn read_condition(from: &mut Reader) -> Option<bool>
    ensures read { Gives result from.new (read_condition from.old) }
    ensures found { Found result from.old from.new condition_bytes IsAny }
{
    match from.u8()? {
        0 => Some(false),
        1 => Some(true),
        _ => None,
    }
}

#[tactic(auto, unfolding(crate::specs::inner::Reading::read_filing))]
fn read_filing(from: &mut Reader) -> Option<Filing>
    ensures read { Gives result from.new (read_filing from.old) }
    ensures found { Found result from.old from.new filing_bytes IsFiling }
{
    Some(Filing {
        applicant: from.person()?,
        conditional: read_condition(from)?,
        acts: read_acts(from)?,
        docs: read_docs(from)?,
    })
}

#[tactic(auto, unfolding(crate::specs::inner::Reading::read_filing_item))]
fn read_filing_item(from: &mut Reader) -> Option<Item>
    ensures read { Gives result from.new (read_filing_item from.old) }
    ensures found { FoundTagged 1 result from.old from.new item_bytes IsItem }
{
    Some(Item::Filing(read_filing(from)?))
}

#[tactic(auto, unfolding(crate::specs::inner::Reading::read_cure))]
fn read_cure(from: &mut Reader) -> Option<Item>
    ensures read { Gives result from.new (read_cure from.old) }
    ensures found { FoundTagged 2 result from.old from.new item_bytes IsItem }
{
    Some(Item::Cure {
        filing: from.receipt()?,
        docs: read_docs(from)?,
    })
}

#[tactic(auto, unfolding(crate::specs::inner::Reading::read_lapse))]
fn read_lapse(from: &mut Reader) -> Option<Item>
    ensures read { Gives result from.new (read_lapse from.old) }
    ensures found { FoundTagged 3 result from.old from.new item_bytes IsItem }
{
    Some(Item::Lapse {
        filing: from.receipt()?,
    })
}

#[tactic(auto, unfolding(crate::specs::inner::Reading::read_seize))]
fn read_seize(from: &mut Reader) -> Option<Item>
    ensures read { Gives result from.new (read_seize from.old) }
    ensures found { FoundTagged 4 result from.old from.new item_bytes IsItem }
{
    Some(Item::Seize {
        folio: from.folio()?,
        basis: read_basis(from)?,
        served: from.day()?,
    })
}

#[tactic(auto, unfolding(crate::specs::inner::Reading::read_register))]
fn read_register(from: &mut Reader) -> Option<Item>
    ensures read { Gives result from.new (read_register from.old) }
    ensures found { FoundTagged 5 result from.old from.new item_bytes IsItem }
{
    Some(Item::Register {
        folio: from.folio()?,
        what: read_registration(from)?,
    })
}

#[tactic(auto, unfolding(crate::specs::inner::Reading::read_open_bids))]
fn read_open_bids(from: &mut Reader) -> Option<Item>
    ensures read { Gives result from.new (read_open_bids from.old) }
    ensures found { FoundTagged 6 result from.old from.new item_bytes IsItem }
{
    Some(Item::OpenBids {
        folio: from.folio()?,
        costs: from.cents()?,
    })
}

#[tactic(auto, unfolding(crate::specs::inner::Reading::read_award))]
fn read_award(from: &mut Reader) -> Option<Item>
    ensures read { Gives result from.new (read_award from.old) }
    ensures found { FoundTagged 7 result from.old from.new item_bytes IsItem }
{
    Some(Item::Award {
        folio: from.folio()?,
        buyer: from.person()?,
        bid: from.cents()?,
    })
}

#[tactic(auto, unfolding(crate::specs::inner::Reading::read_distribute))]
fn read_distribute(from: &mut Reader) -> Option<Item>
    ensures read { Gives result from.new (read_distribute from.old) }
    ensures found { FoundTagged 8 result from.old from.new item_bytes IsItem }
{
    Some(Item::Distribute {
        folio: from.folio()?,
    })
}

#[tactic(auto, unfolding(crate::specs::inner::Reading::read_extend))]
fn read_extend(from: &mut Reader) -> Option<Item>
    ensures read { Gives result from.new (read_extend from.old) }
    ensures found { FoundTagged 9 result from.old from.new item_bytes IsItem }
{
    Some(Item::Extend {
        filing: from.receipt()?,
        days: from.u16()?,
    })
}

/// An item; None where none begins here.
#[tactic(auto, unfolding(crate::specs::inner::Reading::read_item))]
pub fn read_item(from: &mut Reader) -> Option<Item>
    ensures read { Gives result from.new (read_item from.old) }
    ensures found { Found result from.old from.new item_bytes IsItem }
{
    match from.u8()? {
        1 => read_filing_item(from),
        2 => read_cure(from),
        3 => read_lapse(from),
        4 => read_seize(from),
        5 => read_register(from),
        6 => read_open_bids(from),
        7 => read_award(from),
        8 => read_distribute(from),
        9 => read_extend(from),
        _ => None,
    }
}

fn put_condition(to: &mut Writer, conditional: bool) -> Result<(), NoMemory>
    ensures wrote { OnOk result (to.new ≡ to.old ++ condition_bytes conditional) }
{
    if conditional { to.u8(1) } else { to.u8(0) }
}

fn put_filing(to: &mut Writer, filing: &Filing) -> Result<(), NoMemory>
    ensures wrote { OnOk result (to.new ≡ to.old ++ filing_bytes filing.now) }
    ensures held { OnOk result (IsFiling filing.now) }
{
    to.person(filing.applicant)?;
    put_condition(to, filing.conditional)?;
    put_acts(to, &filing.acts)?;
    put_docs(to, &filing.docs)?;
    Ok(())
}

/// Writes an item.
pub fn put_item(to: &mut Writer, item: &Item) -> Result<(), NoMemory>
    ensures wrote { OnOk result (to.new ≡ to.old ++ item_bytes item.now) }
    ensures held { OnOk result (IsItem item.now) }
{
    match item {
        Item::Filing(filing) => {
            to.u8(1)?;
            put_filing(to, filing)?;
            Ok(())
        }
        Item::Cure { filing, docs } => {
            to.u8(2)?;
            to.receipt(*filing)?;
            put_docs(to, docs)?;
            Ok(())
        }
        Item::Lapse { filing } => {
            to.u8(3)?;
            to.receipt(*filing)?;
            Ok(())
        }
        Item::Seize {
            folio,
            basis,
            served,
        } => {
            to.u8(4)?;
            to.folio(*folio)?;
            put_basis(to, *basis)?;
            to.day(*served)?;
            Ok(())
        }
        Item::Register { folio, what } => {
            to.u8(5)?;
            to.folio(*folio)?;
            put_registration(to, *what)?;
            Ok(())
        }
        Item::OpenBids { folio, costs } => {
            to.u8(6)?;
            to.folio(*folio)?;
            to.cents(*costs)?;
            Ok(())
        }
        Item::Award { folio, buyer, bid } => {
            to.u8(7)?;
            to.folio(*folio)?;
            to.person(*buyer)?;
            to.cents(*bid)?;
            Ok(())
        }
        Item::Distribute { folio } => {
            to.u8(8)?;
            to.folio(*folio)?;
            Ok(())
        }
        Item::Extend { filing, days } => {
            to.u8(9)?;
            to.receipt(*filing)?;
            to.u16(*days)?;
            Ok(())
        }
    }
}
