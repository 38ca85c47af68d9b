//! The lines of a plan as a list in CSV.
ghost use Rattle.std.specs.Prelude.{◌≡◌, ◌<◌, ◌^◌, ◌++◌, [], IfOk, OnOk, map, sum_by};
ghost use Rattle.std.specs.Fmt.{decimal};
ghost use Rattle.std.specs.Option.{option_map_or};
ghost use Rattle.std.specs.String.{string_bytes};
ghost use Rattle.gb_base.specs.Texts.{right_text};
ghost use Rattle.csv.specs.Writing.{default_writer, row_text};
ghost use Rattle.proceeds_split.specs.Plan.{paid};
ghost use Rattle.folio_extract.specs.PlanCsv.{columns, csv_of_lines, fields_of_line};
ghost use Rattle.folio_extract.specs.PlanTexts.{part_text};

use crate::plan_lines::add_part;
use csv::WriterBuilder;
use gb_base::{NoMemory, Person, RightId};
use proceeds_split::PlanLine;
use std::alloc::{AllocError, Global};

/// The lines of a plan, a row each after a header, with amounts in cents.
pub(crate) fn csv_of_lines(alloc: Global, lines: &[PlanLine]) -> Result<Vec<u8>, NoMemory>
    requires { sum_by paid lines.now < 2 ^ 64 }
    ensures { IfOk result (λ text. text.items ≡ csv_of_lines lines.now) }
{
    let mut text = column_names(alloc)?;
    for line in lines {
        add_row(alloc, &mut text, line)?;
    }
    Ok(text)
}

/// The names of the columns.
fn column_names(alloc: Global) -> Result<Vec<u8>, NoMemory>
    ensures { IfOk result (λ text. text.items ≡ row_text default_writer columns) }
{
    row_of(
        alloc,
        &[b"part", b"right", b"person", b"claim", b"paid", b"remains"],
    )
}

/// Adds the row of a line; its right and its person are empty where there is none.
fn add_row(alloc: Global, text: &mut Vec<u8>, line: &PlanLine) -> Result<(), NoMemory>
    requires { paid line.now < 2 ^ 64 }
    ensures { OnOk result (text.new.items ≡ text.old.items ++ row_text default_writer (fields_of_line line.now)) }
{
    let part = part_field(alloc, line)?;
    let right = right_field(alloc, line.right)?;
    let person = person_field(alloc, line.person)?;
    let claim = cents_field(alloc, line.claim)?;
    let paid = cents_field(alloc, line.paid())?;
    let remains = cents_field(alloc, line.remains)?;
    let row = row_of(
        alloc,
        &[
            part.as_bytes(),
            right.as_bytes(),
            person.as_bytes(),
            claim.as_bytes(),
            paid.as_bytes(),
            remains.as_bytes(),
        ],
    )?;
    text.extend_from_slice(&row)
}

/// A row of these fields. The writer fails only where memory runs out: it writes into memory, and only
/// one row.
fn row_of(alloc: Global, fields: &[&[u8]]) -> Result<Vec<u8>, NoMemory>
    ensures { IfOk result (λ row. row.items ≡ row_text default_writer (map (λ f. f.now) fields.now)) }
{
    let mut writer = WriterBuilder::new().from_writer(Vec::new(alloc));
    match writer.write_fields(fields) {
        Ok(()) => match writer.into_inner() {
            Ok(row) => Ok(row),
            Err(_) => Err(AllocError),
        },
        Err(_) => Err(AllocError),
    }
}

/// The part of a plan that a line is of.
fn part_field(alloc: Global, line: &PlanLine) -> Result<String, NoMemory>
    ensures { IfOk result (λ field. string_bytes field ≡ part_text line.now.part) }
{
    let mut field = String::new(alloc);
    add_part(&mut field, line.part)?;
    Ok(field)
}

/// A right by its number, or nothing.
fn right_field(alloc: Global, right: Option<RightId>) -> Result<String, NoMemory>
    ensures { IfOk result (λ field. string_bytes field ≡ option_map_or right_text right []) }
{
    match right {
        Some(right) => format!(in alloc; "{right}"),
        None => Ok(String::new(alloc)),
    }
}

/// A person by its number, or nothing.
fn person_field(alloc: Global, person: Option<Person>) -> Result<String, NoMemory>
    ensures { IfOk result (λ field. string_bytes field ≡ option_map_or decimal person []) }
{
    match person {
        Some(person) => format!(in alloc; "{person}"),
        None => Ok(String::new(alloc)),
    }
}

/// An amount in cents.
fn cents_field(alloc: Global, cents: u64) -> Result<String, NoMemory>
    ensures { IfOk result (λ field. string_bytes field ≡ decimal cents) }
{
    format!(in alloc; "{cents}")
}
