//! Acts, what they are made of, and lists of them.
ghost use Rattle.std.specs.Prelude.{◌≡◌, ◌≤◌, [], ◌∷◌};
ghost use Rattle.gb_base.specs.Limits.{most_cents};

use crate::{cents, folio, person};
use act_model::{Act, Acts, Inventory, Owners, RightKind, RightSpec};
use arrayvec::ArrayVec;
use gb_base::RightId;

// ---- land and owners

/// Parcel 345/6 of district 12, of 800 square metres.
pub fn parcel() -> Inventory {
    Inventory {
        district: 12,
        parcel: 345,
        sub: 6,
        area: 800,
    }
}

/// One owner.
pub fn owner(n: u32) -> Owners
    requires { 1 ≤ n }
    ensures { result ≡ n ∷ [] }
{
    let mut list = ArrayVec::new();
    list.push(person(n));
    Owners::new(list).unwrap()
}

// ---- rights

/// A right of so many cents.
pub fn spec(kind: RightKind, capital: u64, holder: u32, group: u8) -> RightSpec
    requires capital { capital ≤ most_cents }
    requires holder { 1 ≤ holder }
{
    RightSpec {
        kind,
        capital: cents(capital),
        holder: person(holder),
        group,
    }
}

/// A land charge with interest of 5 percent.
pub fn land_charge(capital: u64, holder: u32, group: u8) -> RightSpec
    requires capital { capital ≤ most_cents }
    requires holder { 1 ≤ holder }
{
    spec(
        RightKind::LandCharge { rate_bp: 500 },
        capital,
        holder,
        group,
    )
}

// ---- acts

/// The opening of a folio for one owner.
pub fn opening(of: u32, by: u32) -> Act
    requires folio { 1 ≤ of }
    requires owner { 1 ≤ by }
{
    opening_for(of, owner(by))
}

/// The opening of a folio for these owners.
pub fn opening_for(of: u32, owners: Owners) -> Act
    requires { 1 ≤ of }
{
    Act::Open {
        folio: folio(of),
        inventory: parcel(),
        owners,
    }
}

/// The creation of a right in a folio, without a reservation.
pub fn creation(of: u32, spec: RightSpec) -> Act
    requires { 1 ≤ of }
{
    Act::Create {
        folio: folio(of),
        spec,
        reserve: None,
    }
}

/// The creation of a land charge in group 1.
pub fn charge(of: u32, capital: u64, holder: u32) -> Act
    requires folio { 1 ≤ of }
    requires capital { capital ≤ most_cents }
    requires holder { 1 ≤ holder }
{
    creation(of, land_charge(capital, holder, 1))
}

/// A right goes to this person.
pub fn assignment(of: u32, right: RightId, to: u32) -> Act
    requires folio { 1 ≤ of }
    requires holder { 1 ≤ to }
{
    Act::Assign {
        folio: folio(of),
        right,
        holder: person(to),
    }
}

/// One right recedes in rank behind another.
pub fn exchange(of: u32, recede: RightId, rise: RightId) -> Act
    requires { 1 ≤ of }
{
    Act::Exchange {
        folio: folio(of),
        recede,
        rise,
    }
}

// ---- lists

/// One act.
pub fn one(act: Act) -> Acts {
    let mut list = ArrayVec::new();
    list.push(act);
    Acts::new(list)
}

/// Two acts.
pub fn two(first: Act, second: Act) -> Acts {
    let mut list = ArrayVec::new();
    list.push(first);
    list.push(second);
    Acts::new(list)
}

/// Three acts.
pub fn three(first: Act, second: Act, third: Act) -> Acts {
    let mut list = ArrayVec::new();
    list.push(first);
    list.push(second);
    list.push(third);
    Acts::new(list)
}
