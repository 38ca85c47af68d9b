//! Rights, and what a right is to be.
ghost use Rattle.std.specs.Prelude.{◌≡◌, ◌++◌, OnOk};
ghost use Rattle.act_codec.specs.Spelling.{right_bytes, kind_bytes, spec_bytes, reserve_bytes};
ghost use Rattle.act_codec.specs.Values.{IsRight, IsKind, IsSpec, IsReserve};
ghost use Rattle.act_codec.specs.inner.Reading.{Gives, Found, read_right, read_kind, read_spec, read_reserve};

use crate::reader::Reader;
use crate::writer::Writer;
use act_model::{RightKind, RightSpec};
use gb_base::{Cents, NoMemory, RightId};

/// A right's number; None where none begins here.
#[tactic(auto, unfolding(crate::specs::inner::Reading::read_right))]
pub fn read_right(from: &mut Reader) -> Option<RightId>
    ensures read { Gives result from.new (read_right from.old) }
    ensures found { Found result from.old from.new right_bytes IsRight }
{
    let receipt = from.receipt()?;
    RightId::new(receipt, from.u8()?)
}

#[tactic(auto, unfolding(crate::specs::inner::Reading::read_kind))]
fn read_kind(from: &mut Reader) -> Option<RightKind>
    ensures read { Gives result from.new (read_kind from.old) }
    ensures found { Found result from.old from.new kind_bytes IsKind }
{
    match from.u8()? {
        1 => Some(RightKind::PersonalEasement),
        2 => Some(RightKind::Usufruct),
        3 => Some(RightKind::Mortgage {
            rate_bp: from.u16()?,
        }),
        4 => Some(RightKind::LandCharge {
            rate_bp: from.u16()?,
        }),
        _ => None,
    }
}

/// A right as an act describes it; None where none begins here.
#[tactic(auto, unfolding(crate::specs::inner::Reading::read_spec))]
pub fn read_spec(from: &mut Reader) -> Option<RightSpec>
    ensures read { Gives result from.new (read_spec from.old) }
    ensures found { Found result from.old from.new spec_bytes IsSpec }
{
    Some(RightSpec {
        kind: read_kind(from)?,
        capital: from.cents()?,
        holder: from.person()?,
        group: from.u8()?,
    })
}

/// A reservation, or that there is none; None where neither begins here.
#[tactic(auto, unfolding(crate::specs::inner::Reading::read_reserve))]
pub fn read_reserve(from: &mut Reader) -> Option<Option<Cents>>
    ensures read { Gives result from.new (read_reserve from.old) }
    ensures found { Found result from.old from.new reserve_bytes IsReserve }
{
    match from.u8()? {
        0 => Some(None),
        1 => Some(Some(from.cents()?)),
        _ => None,
    }
}

/// Writes a right's number.
pub fn put_right(to: &mut Writer, right: RightId) -> Result<(), NoMemory>
    ensures wrote { OnOk result (to.new ≡ to.old ++ right_bytes right) }
    ensures held { OnOk result (IsRight right) }
{
    to.receipt(right.receipt())?;
    to.u8(right.act())?;
    Ok(())
}

fn put_kind(to: &mut Writer, kind: RightKind) -> Result<(), NoMemory>
    ensures wrote { OnOk result (to.new ≡ to.old ++ kind_bytes kind) }
    ensures held { OnOk result (IsKind kind) }
{
    match kind {
        RightKind::PersonalEasement => to.u8(1),
        RightKind::Usufruct => to.u8(2),
        RightKind::Mortgage { rate_bp } => {
            to.u8(3)?;
            to.u16(rate_bp)?;
            Ok(())
        }
        RightKind::LandCharge { rate_bp } => {
            to.u8(4)?;
            to.u16(rate_bp)?;
            Ok(())
        }
    }
}

/// Writes a right as an act describes it.
pub fn put_spec(to: &mut Writer, spec: RightSpec) -> Result<(), NoMemory>
    ensures wrote { OnOk result (to.new ≡ to.old ++ spec_bytes spec) }
    ensures held { OnOk result (IsSpec spec) }
{
    put_kind(to, spec.kind)?;
    to.cents(spec.capital)?;
    to.person(spec.holder)?;
    to.u8(spec.group)?;
    Ok(())
}

/// Writes a reservation, or that there is none.
pub fn put_reserve(to: &mut Writer, reserve: Option<Cents>) -> Result<(), NoMemory>
    ensures wrote { OnOk result (to.new ≡ to.old ++ reserve_bytes reserve) }
    ensures held { OnOk result (IsReserve reserve) }
{
    match reserve {
        None => to.u8(0),
        Some(cents) => {
            to.u8(1)?;
            to.cents(cents)?;
            Ok(())
        }
    }
}
