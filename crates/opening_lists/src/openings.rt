//! What a row of an opening list opens.
ghost use Rattle.std.specs.Prelude.{◌≡◌, ◌≤◌, IfSome, IsTrue, option_and_then};
ghost use Rattle.csv.specs.Records.{field_at, fields_of};
ghost use Rattle.gb_base.specs.Numerals.{number_in};
ghost use Rattle.act_model.specs.WellFormed.{is_inventory, well_formed};
ghost use Rattle.opening_lists.specs.OpeningLists.{filing_for, is_header, opening_of};
ghost use Rattle.opening_lists.specs.inner.Rows.{names_columns, opening_at, says};

use act_model::{Act, Acts, Doc, Docs, Filing, Form, Inventory, Item, Owners};
use arrayvec::ArrayVec;
use csv::ByteRecord;
use gb_base::{FolioId, Person, number_in};

/// The greatest number of a folio, a parcel or a person.
const LAST_SERIAL: u64 = 4_294_967_295;

/// A folio to be opened for one owner.
#[derive(Clone, Copy, Debug, PartialEq, Eq)]
pub struct Opening {
    pub folio: FolioId,
    pub inventory: Inventory,
    pub owner: Person,
}

/// Whether a record is the header of an opening list.
#[tactic(auto, using(crate::proofs::OpeningRows::header_of_six, crate::proofs::OpeningRows::header_of_others))]
pub fn is_header(first: &ByteRecord) -> bool
    ensures { result ≡ is_header (fields_of first.now) }
{
    first.len() == 6 && names_columns(first)
}

/// Whether the first six fields name the columns of an opening list.
fn names_columns(first: &ByteRecord) -> bool
    ensures { result ≡ names_columns (fields_of first.now) }
{
    field_is(first, 0, b"folio")
        && field_is(first, 1, b"district")
        && field_is(first, 2, b"parcel")
        && field_is(first, 3, b"sub")
        && field_is(first, 4, b"area")
        && field_is(first, 5, b"owner")
}

/// Whether the field at this index is there and says this.
fn field_is(row: &ByteRecord, index: usize, text: &[u8]) -> bool
    ensures { result ≡ says (field_at (fields_of row.now) index) text.now }
{
    match row.get(index) {
        Some(field) => field == text,
        None => false,
    }
}

/// What a row opens; None where it is malformed.
#[tactic(auto, using(crate::proofs::OpeningRows::opening_of_six, crate::proofs::OpeningRows::opening_of_others))]
pub fn read_opening(row: &ByteRecord) -> Option<Opening>
    ensures value { result ≡ opening_of (fields_of row.now) }
    ensures inventory { IfSome result (λ opening. IsTrue (is_inventory opening.inventory)) }
{
    if row.len() == 6 {
        opening_of_six(row)
    } else {
        None
    }
}

/// What a row of six fields opens.
fn opening_of_six(row: &ByteRecord) -> Option<Opening>
    ensures value { result ≡ opening_at (fields_of row.now) }
    ensures inventory { IfSome result (λ opening. IsTrue (is_inventory opening.inventory)) }
{
    let folio = number_at(row, 0, 1, LAST_SERIAL)?;
    let district = number_at(row, 1, 1, 65_535)?;
    let parcel = number_at(row, 2, 1, LAST_SERIAL)?;
    let sub = number_at(row, 3, 0, 65_535)?;
    let area = number_at(row, 4, 1, 1_000_000_000)?;
    let owner = number_at(row, 5, 1, LAST_SERIAL)?;
    Some(Opening {
        folio: FolioId::new(folio as u32).unwrap(),
        inventory: Inventory {
            district: district as u16,
            parcel: parcel as u32,
            sub: sub as u16,
            area: area as u32,
        },
        owner: Person::new(owner as u32).unwrap(),
    })
}

/// The number in the field at this index, where it is there and in the range.
fn number_at(row: &ByteRecord, index: usize, low: u64, high: u64) -> Option<u64>
    ensures value { result ≡ option_and_then (number_in low high) (field_at (fields_of row.now) index) }
    ensures range { IfSome result (λ value. (low ≤ value) × (value ≤ high)) }
{
    number_in(row.get(index)?, low, high)
}

/// The filing of an opening: the owner applies for it and consents to it.
pub fn filing_for(opening: &Opening) -> Item
    requires { IsTrue (is_inventory opening.now.inventory) }
    ensures value { result ≡ filing_for opening.now }
    ensures well_formed { IsTrue (well_formed result) }
{
    let owner = opening.owner;
    let mut owners = ArrayVec::new();
    owners.push(owner);
    let mut acts = ArrayVec::new();
    acts.push(Act::Open {
        folio: opening.folio,
        inventory: opening.inventory,
        owners: Owners::new(owners).unwrap(),
    });
    let mut docs = ArrayVec::new();
    docs.push(Doc::Consent {
        act: 1,
        person: owner,
        form: Form::Certified,
    });
    Item::Filing(Filing {
        applicant: owner,
        conditional: false,
        acts: Acts::new(acts),
        docs: Docs::new(docs),
    })
}
