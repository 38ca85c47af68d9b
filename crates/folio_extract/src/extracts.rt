//! The extract of a folio: its parcel, its owners, the filings that wait, and its rights.
ghost use Rattle.std.specs.Prelude.{◌≡◌, ◌++◌, All, IfOk, IsTrue, OnOk, codes, flat_map, option_map};
ghost use Rattle.std.specs.Fmt.{decimal};
ghost use Rattle.std.specs.String.{string_bytes};
ghost use Rattle.gb_base.specs.declared.keys.Key.TheVariants.{Case, Right, Title};
ghost use Rattle.folio_sections.specs.Held.{entries_at, is_held};
ghost use Rattle.folio_sections.specs.Titles.{inventory, owners};
ghost use Rattle.folio_line.specs.FolioRights.{live_rights};
ghost use Rattle.folio_extract.specs.Extracts.{extract, extract_text, heading_line, inventory_line, owners_line, right_lines, sale_line, waiting_lines};

use crate::folio_reads::{has_sale_note, inventory_of, line_of, owners_of, title_entries};
use crate::right_lines::add_right_line;
use crate::waiting::waiting_filings;
use crate::waiting_lines::{WaitsAt, add_waiting_lines};
use act_model::{Inventory, Owners};
use folio_line::CreatedRight;
use folio_sections::{Parts, RightPart};
use gb_base::{FolioId, NoMemory, Person};
use registrar::Register;
use std::alloc::Global;

/// The extract of a folio; None where it is not open.
pub fn extract(
    alloc: Global,
    register: &Register,
    folio: FolioId,
) -> Result<Option<Vec<u8>>, NoMemory>
    ensures text { IfOk result (λ text. option_map (λ t. t.items) text ≡ extract (entries_at register.now.parts) folio) }
{
    if !register.is_open(folio) {
        return Ok(None);
    }
    let line = line_of(alloc, register, folio)?;
    let mut text = String::new(alloc);
    add_extract(alloc, &mut text, register, folio, line.live())?;
    Ok(Some(text.into_bytes()))
}

/// Adds the extract of an open folio, with these rights, which are its live ones.
pub(crate) fn add_extract(
    alloc: Global,
    text: &mut String,
    register: &Register,
    folio: FolioId,
    rights: &[CreatedRight],
) -> Result<(), NoMemory>
    requires { rights.now ≡ live_rights (entries_at register.now.parts) folio }
    ensures { OnOk result (string_bytes text.new ≡ string_bytes text.old ++ extract_text (entries_at register.now.parts) folio) }
{
    add_folio(text, register, folio)?;
    add_title_filings(alloc, text, register, folio)?;
    add_rights(alloc, text, register, folio, rights)
}

/// Adds what the extract says of the folio itself.
fn add_folio(text: &mut String, register: &Register, folio: FolioId) -> Result<(), NoMemory>
    ensures { OnOk result (string_bytes text.new ≡ string_bytes text.old
        ++ (heading_line folio ++ (inventory_line (inventory (entries_at register.now.parts (Title folio)))
        ++ (owners_line (owners (entries_at register.now.parts (Title folio))) ++ sale_line (entries_at register.now.parts (Case folio)))))) }
{
    writeln!(text, "folio {folio}")?;
    add_inventory(text, &inventory_of(register, folio))?;
    add_owners(text, &owners_of(register, folio))?;
    add_sale_note(text, register, folio)
}

/// Adds the parcel, where there is one.
fn add_inventory(text: &mut String, inventory: &Option<Inventory>) -> Result<(), NoMemory>
    ensures { OnOk result (string_bytes text.new ≡ string_bytes text.old ++ inventory_line inventory.now) }
{
    match inventory {
        Some(parcel) => writeln!(
            text,
            "inventory district {} parcel {}/{} area {}",
            parcel.district, parcel.parcel, parcel.sub, parcel.area
        ),
        None => Ok(()),
    }
}

/// Adds the owners in the order of naming, where there are some.
fn add_owners(text: &mut String, owners: &Option<Owners>) -> Result<(), NoMemory>
    ensures { OnOk result (string_bytes text.new ≡ string_bytes text.old ++ owners_line owners.now) }
{
    match owners {
        Some(owners) => {
            text.push_str("owners")?;
            add_persons(text, owners.list())?;
            text.push_str("\n")
        }
        None => Ok(()),
    }
}

/// Adds persons, each behind a space.
fn add_persons(text: &mut String, persons: &[Person]) -> Result<(), NoMemory>
    ensures { OnOk result (string_bytes text.new ≡ string_bytes text.old ++ flat_map (λ p. codes " " ++ decimal p) persons.now) }
{
    for person in persons {
        write!(text, " {person}")?;
    }
    Ok(())
}

/// Adds the sale note, while a forced sale runs and no award stands in it (ZVG § 19).
fn add_sale_note(text: &mut String, register: &Register, folio: FolioId) -> Result<(), NoMemory>
    ensures { OnOk result (string_bytes text.new ≡ string_bytes text.old ++ sale_line (entries_at register.now.parts (Case folio))) }
{
    if has_sale_note(register, folio) {
        text.push_str("sale note\n")
    } else {
        Ok(())
    }
}

/// Adds the filings that wait at the title of the folio.
fn add_title_filings(
    alloc: Global,
    text: &mut String,
    register: &Register,
    folio: FolioId,
) -> Result<(), NoMemory>
    ensures { OnOk result (string_bytes text.new ≡ string_bytes text.old
        ++ waiting_lines (codes "title") (entries_at register.now.parts (Title folio))) }
{
    let filings = waiting_filings(alloc, title_entries(register, folio))?;
    add_waiting_lines(text, &WaitsAt::Title, &filings)
}

/// Adds these rights of the folio, and the filings that wait at them.
fn add_rights(
    alloc: Global,
    text: &mut String,
    register: &Register,
    folio: FolioId,
    rights: &[CreatedRight],
) -> Result<(), NoMemory>
    requires { All (λ x. IsTrue (is_held register.now.parts (Right folio x.id))) rights.now }
    ensures { OnOk result (string_bytes text.new ≡ string_bytes text.old
        ++ flat_map (λ x. right_lines (entries_at register.now.parts (Right folio x.id)) x) rights.now) }
{
    for right in rights {
        let part = register.right(folio, right.id).unwrap();
        add_right(alloc, text, part, right)?;
    }
    Ok(())
}

/// Adds a right, and the filings that wait at it.
fn add_right(
    alloc: Global,
    text: &mut String,
    part: &RightPart,
    right: &CreatedRight,
) -> Result<(), NoMemory>
    ensures { OnOk result (string_bytes text.new ≡ string_bytes text.old ++ right_lines part.now.entries right.now) }
{
    add_right_line(text, part, right)?;
    let filings = waiting_filings(alloc, part.entries())?;
    add_waiting_lines(text, &WaitsAt::Right(right.id), &filings)
}
