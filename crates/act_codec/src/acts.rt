//! Acts, with what an opening says of the land.
//! Why so: docs/DECISIONS.md, "Two readers of one grammar name its parts alike".
ghost use Rattle.std.specs.Prelude.{◌≡◌, ◌≤◌, length, ◌++◌, OnOk};
ghost use Rattle.std.specs.List.{AllByRecursion, flat_map};
ghost use Rattle.std.specs.Option.{option_map};
ghost use Rattle.gb_base.specs.Limits.{most_acts};
ghost use Rattle.act_model.specs.Limits.{most_owners};
ghost use Rattle.act_codec.specs.Spelling.{counted, u32_bytes, inventory_bytes, owners_bytes, act_bytes};
ghost use Rattle.act_codec.specs.Values.{IsNumber, IsInventory, IsOwners, IsAct, AreActs};
ghost use Rattle.act_codec.specs.inner.Reading.{Gives, Found, FoundAct, read_times, read_counted, read_id, read_inventory, read_owners, read_open, read_transfer, read_create, read_notice, read_convert, read_assign, read_cancel, read_exchange, read_exercise, read_act};

use crate::reader::Reader;
use crate::rights::{put_reserve, put_right, put_spec, read_reserve, read_right, read_spec};
use crate::writer::Writer;
use act_model::{Act, Acts, Inventory, Owners};
use arrayvec::ArrayVec;
use gb_base::{FolioId, NoMemory, Person};

#[tactic(auto, unfolding(crate::specs::inner::Reading::read_inventory))]
fn read_inventory(from: &mut Reader) -> Option<Inventory>
    ensures read { Gives result from.new (read_inventory from.old) }
    ensures found { Found result from.old from.new inventory_bytes IsInventory }
{
    Some(Inventory {
        district: from.u16()?,
        parcel: from.u32()?,
        sub: from.u16()?,
        area: from.u32()?,
    })
}

/// `count` persons, one after another.
fn read_persons(count: u8, from: &mut Reader) -> Option<ArrayVec<Person, 4>>
    requires { count ≤ most_owners }
    ensures read { Gives (option_map (λ v. v.items) result) from.new (read_times read_id count from.old) }
    ensures found { Found (option_map (λ v. v.items) result) from.old from.new (flat_map u32_bytes)
        (λ ps. (length ps ≡ count) × AllByRecursion IsNumber ps) }
{
    let mut persons = ArrayVec::new();
    for _ in 0..count {
        persons.push(from.person()?);
    }
    Some(persons)
}

#[tactic(auto, unfolding(crate::specs::inner::Reading::read_owners))]
fn read_owners(from: &mut Reader) -> Option<Owners>
    ensures read { Gives result from.new (read_owners from.old) }
    ensures found { Found result from.old from.new owners_bytes IsOwners }
{
    let count = from.u8()?;
    if count > 4 {
        return None;
    }
    Owners::new(read_persons(count, from)?)
}

#[tactic(auto, unfolding(crate::specs::inner::Reading::read_open))]
fn read_open(folio: FolioId, from: &mut Reader) -> Option<Act>
    ensures read { Gives result from.new (read_open folio from.old) }
    ensures found { FoundAct 1 folio result from.old from.new }
{
    Some(Act::Open {
        folio,
        inventory: read_inventory(from)?,
        owners: read_owners(from)?,
    })
}

#[tactic(auto, unfolding(crate::specs::inner::Reading::read_transfer))]
fn read_transfer(folio: FolioId, from: &mut Reader) -> Option<Act>
    ensures read { Gives result from.new (read_transfer folio from.old) }
    ensures found { FoundAct 2 folio result from.old from.new }
{
    Some(Act::Transfer {
        folio,
        owners: read_owners(from)?,
    })
}

#[tactic(auto, unfolding(crate::specs::inner::Reading::read_create))]
fn read_create(folio: FolioId, from: &mut Reader) -> Option<Act>
    ensures read { Gives result from.new (read_create folio from.old) }
    ensures found { FoundAct 3 folio result from.old from.new }
{
    Some(Act::Create {
        folio,
        spec: read_spec(from)?,
        reserve: read_reserve(from)?,
    })
}

#[tactic(auto, unfolding(crate::specs::inner::Reading::read_notice))]
fn read_notice(folio: FolioId, from: &mut Reader) -> Option<Act>
    ensures read { Gives result from.new (read_notice folio from.old) }
    ensures found { FoundAct 4 folio result from.old from.new }
{
    Some(Act::NoticeFor {
        folio,
        spec: read_spec(from)?,
    })
}

#[tactic(auto, unfolding(crate::specs::inner::Reading::read_convert))]
fn read_convert(folio: FolioId, from: &mut Reader) -> Option<Act>
    ensures read { Gives result from.new (read_convert folio from.old) }
    ensures found { FoundAct 5 folio result from.old from.new }
{
    Some(Act::Convert {
        folio,
        right: read_right(from)?,
    })
}

#[tactic(auto, unfolding(crate::specs::inner::Reading::read_assign))]
fn read_assign(folio: FolioId, from: &mut Reader) -> Option<Act>
    ensures read { Gives result from.new (read_assign folio from.old) }
    ensures found { FoundAct 6 folio result from.old from.new }
{
    Some(Act::Assign {
        folio,
        right: read_right(from)?,
        holder: from.person()?,
    })
}

#[tactic(auto, unfolding(crate::specs::inner::Reading::read_cancel))]
fn read_cancel(folio: FolioId, from: &mut Reader) -> Option<Act>
    ensures read { Gives result from.new (read_cancel folio from.old) }
    ensures found { FoundAct 7 folio result from.old from.new }
{
    Some(Act::Cancel {
        folio,
        right: read_right(from)?,
    })
}

#[tactic(auto, unfolding(crate::specs::inner::Reading::read_exchange))]
fn read_exchange(folio: FolioId, from: &mut Reader) -> Option<Act>
    ensures read { Gives result from.new (read_exchange folio from.old) }
    ensures found { FoundAct 8 folio result from.old from.new }
{
    Some(Act::Exchange {
        folio,
        recede: read_right(from)?,
        rise: read_right(from)?,
    })
}

#[tactic(auto, unfolding(crate::specs::inner::Reading::read_exercise))]
fn read_exercise(folio: FolioId, from: &mut Reader) -> Option<Act>
    ensures read { Gives result from.new (read_exercise folio from.old) }
    ensures found { FoundAct 9 folio result from.old from.new }
{
    Some(Act::Exercise {
        folio,
        behind: read_right(from)?,
        spec: read_spec(from)?,
    })
}

#[tactic(auto, unfolding(crate::specs::inner::Reading::read_act))]
fn read_act(from: &mut Reader) -> Option<Act>
    ensures read { Gives result from.new (read_act from.old) }
    ensures found { Found result from.old from.new act_bytes IsAct }
{
    let tag = from.u8()?;
    let folio = from.folio()?;
    match tag {
        1 => read_open(folio, from),
        2 => read_transfer(folio, from),
        3 => read_create(folio, from),
        4 => read_notice(folio, from),
        5 => read_convert(folio, from),
        6 => read_assign(folio, from),
        7 => read_cancel(folio, from),
        8 => read_exchange(folio, from),
        9 => read_exercise(folio, from),
        _ => None,
    }
}

/// `count` acts, one after another.
fn read_list(count: u8, from: &mut Reader) -> Option<ArrayVec<Act, 8>>
    requires { count ≤ most_acts }
    ensures read { Gives (option_map (λ v. v.items) result) from.new (read_times read_act count from.old) }
    ensures found { Found (option_map (λ v. v.items) result) from.old from.new (flat_map act_bytes)
        (λ acts. (length acts ≡ count) × AllByRecursion IsAct acts) }
{
    let mut acts = ArrayVec::new();
    for _ in 0..count {
        acts.push(read_act(from)?);
    }
    Some(acts)
}

/// A count of at most eight, and then that many acts.
pub fn read_acts(from: &mut Reader) -> Option<Acts>
    ensures read { Gives result from.new (read_counted most_acts read_act from.old) }
    ensures found { Found result from.old from.new (counted act_bytes) AreActs }
{
    let count = from.u8()?;
    if count > 8 {
        return None;
    }
    Some(Acts::new(read_list(count, from)?))
}

fn put_inventory(to: &mut Writer, inventory: Inventory) -> Result<(), NoMemory>
    ensures wrote { OnOk result (to.new ≡ to.old ++ inventory_bytes inventory) }
    ensures held { OnOk result (IsInventory inventory) }
{
    to.u16(inventory.district)?;
    to.u32(inventory.parcel)?;
    to.u16(inventory.sub)?;
    to.u32(inventory.area)?;
    Ok(())
}

fn put_persons(to: &mut Writer, persons: &[Person]) -> Result<(), NoMemory>
    ensures wrote { OnOk result (to.new ≡ to.old ++ flat_map u32_bytes persons.now) }
    ensures held { OnOk result (AllByRecursion IsNumber persons.now) }
{
    for person in persons {
        to.person(*person)?;
    }
    Ok(())
}

fn put_owners(to: &mut Writer, owners: &Owners) -> Result<(), NoMemory>
    ensures wrote { OnOk result (to.new ≡ to.old ++ owners_bytes owners.now) }
    ensures held { OnOk result (IsOwners owners.now) }
{
    let persons = owners.list();
    to.u8(persons.len() as u8)?;
    put_persons(to, persons)?;
    Ok(())
}

fn put_act(to: &mut Writer, act: &Act) -> Result<(), NoMemory>
    ensures wrote { OnOk result (to.new ≡ to.old ++ act_bytes act.now) }
    ensures held { OnOk result (IsAct act.now) }
{
    match act {
        Act::Open {
            folio,
            inventory,
            owners,
        } => {
            to.u8(1)?;
            to.folio(*folio)?;
            put_inventory(to, *inventory)?;
            put_owners(to, owners)?;
            Ok(())
        }
        Act::Transfer { folio, owners } => {
            to.u8(2)?;
            to.folio(*folio)?;
            put_owners(to, owners)?;
            Ok(())
        }
        Act::Create {
            folio,
            spec,
            reserve,
        } => {
            to.u8(3)?;
            to.folio(*folio)?;
            put_spec(to, *spec)?;
            put_reserve(to, *reserve)?;
            Ok(())
        }
        Act::NoticeFor { folio, spec } => {
            to.u8(4)?;
            to.folio(*folio)?;
            put_spec(to, *spec)?;
            Ok(())
        }
        Act::Convert { folio, right } => {
            to.u8(5)?;
            to.folio(*folio)?;
            put_right(to, *right)?;
            Ok(())
        }
        Act::Assign {
            folio,
            right,
            holder,
        } => {
            to.u8(6)?;
            to.folio(*folio)?;
            put_right(to, *right)?;
            to.person(*holder)?;
            Ok(())
        }
        Act::Cancel { folio, right } => {
            to.u8(7)?;
            to.folio(*folio)?;
            put_right(to, *right)?;
            Ok(())
        }
        Act::Exchange {
            folio,
            recede,
            rise,
        } => {
            to.u8(8)?;
            to.folio(*folio)?;
            put_right(to, *recede)?;
            put_right(to, *rise)?;
            Ok(())
        }
        Act::Exercise {
            folio,
            behind,
            spec,
        } => {
            to.u8(9)?;
            to.folio(*folio)?;
            put_right(to, *behind)?;
            put_spec(to, *spec)?;
            Ok(())
        }
    }
}

fn put_list(to: &mut Writer, acts: &[Act]) -> Result<(), NoMemory>
    ensures wrote { OnOk result (to.new ≡ to.old ++ flat_map act_bytes acts.now) }
    ensures held { OnOk result (AllByRecursion IsAct acts.now) }
{
    for act in acts {
        put_act(to, act)?;
    }
    Ok(())
}

/// Writes the count of the acts, and then each act.
pub fn put_acts(to: &mut Writer, acts: &Acts) -> Result<(), NoMemory>
    ensures wrote { OnOk result (to.new ≡ to.old ++ counted act_bytes acts.now) }
    ensures held { OnOk result (AreActs acts.now) }
{
    let list = acts.list();
    to.u8(list.len() as u8)?;
    put_list(to, list)?;
    Ok(())
}
