//! The lines of a plan in words (ZVG §§ 113, 114).
ghost use Rattle.std.specs.Prelude.{◌≡◌, ◌<◌, ◌^◌, ◌++◌, OnOk, codes, flat_map, sum_by};
ghost use Rattle.std.specs.Fmt.{decimal};
ghost use Rattle.std.specs.String.{string_bytes};
ghost use Rattle.gb_base.specs.Texts.{euro, right_text};
ghost use Rattle.proceeds_split.specs.Plan.{paid};
ghost use Rattle.folio_extract.specs.Extracts.{word_part};
ghost use Rattle.folio_extract.specs.PlanTexts.{claim_text, claimant_text, class_text, heading, line_end, part_text, plan_line, plan_with, right_paid_text};

use crate::verdict_lines::add_euro;
use gb_base::{FolioId, NoMemory, Person, ReceiptNo, RightId};
use proceeds_split::{PlanLine, PlanPart};

/// Adds the plan with these lines, of the distribution by receipt n in a folio, of so much money in
/// cents.
pub(crate) fn add_plan_lines(
    text: &mut String,
    n: ReceiptNo,
    folio: FolioId,
    money: u64,
    lines: &[PlanLine],
) -> Result<(), NoMemory>
    requires { sum_by paid lines.now < 2 ^ 64 }
    ensures { OnOk result (string_bytes text.new ≡ string_bytes text.old ++ plan_with folio n money lines.now) }
{
    add_heading(text, n, folio, money)?;
    add_lines(text, lines)?;
    text.push_str("end plan\n")?;
    Ok(())
}

/// Adds the lines of a plan.
fn add_lines(text: &mut String, lines: &[PlanLine]) -> Result<(), NoMemory>
    requires { sum_by paid lines.now < 2 ^ 64 }
    ensures { OnOk result (string_bytes text.new ≡ string_bytes text.old ++ flat_map plan_line lines.now) }
{
    for line in lines {
        add_plan_line(text, line)?;
    }
    Ok(())
}

/// Adds the folio, the receipt and the money.
fn add_heading(text: &mut String, n: ReceiptNo, folio: FolioId, money: u64) -> Result<(), NoMemory>
    ensures { OnOk result (string_bytes text.new ≡ string_bytes text.old ++ heading folio n money) }
{
    writeln!(text, "plan {folio} receipt {n}")?;
    add_word_euro(text, "money ", money)?;
    text.push_str("\n")?;
    Ok(())
}

/// Adds a line of a plan, as `class 1 person 51 claim 300.00 paid 300.00`.
fn add_plan_line(text: &mut String, line: &PlanLine) -> Result<(), NoMemory>
    requires { paid line.now < 2 ^ 64 }
    ensures { OnOk result (string_bytes text.new ≡ string_bytes text.old ++ plan_line line.now) }
{
    add_part(text, line.part)?;
    add_line_end(text, line)?;
    text.push_str("\n")?;
    Ok(())
}

/// Adds the part of a plan that a line is of.
pub(crate) fn add_part(text: &mut String, part: PlanPart) -> Result<(), NoMemory>
    ensures { OnOk result (string_bytes text.new ≡ string_bytes text.old ++ part_text part) }
{
    match part {
        PlanPart::Costs => text.push_str("costs")?,
        PlanPart::Class(class) => write!(text, "class {class}")?,
        PlanPart::Late(class) => write!(text, "late class {class}")?,
        PlanPart::Owner => text.push_str("owner")?,
    }
    Ok(())
}

/// Adds what stands on a line after its part.
fn add_line_end(text: &mut String, line: &PlanLine) -> Result<(), NoMemory>
    requires { paid line.now < 2 ^ 64 }
    ensures { OnOk result (string_bytes text.new ≡ string_bytes text.old ++ line_end line.now.part line.now) }
{
    match line.part {
        PlanPart::Costs => add_word_euro(text, " ", line.paid()),
        PlanPart::Class(class) => add_class(text, class, line),
        PlanPart::Late(_) => add_late(text, line),
        PlanPart::Owner => add_owner(text, line),
    }
}

/// Adds whose claim of a class it is, and its amounts.
fn add_class(text: &mut String, class: u8, line: &PlanLine) -> Result<(), NoMemory>
    requires { paid line.now < 2 ^ 64 }
    ensures { OnOk result (string_bytes text.new ≡ string_bytes text.old ++ (claimant_text line.now ++ class_text class line.now)) }
{
    add_claimant(text, line)?;
    if class == 4 || class == 6 {
        add_right_paid(text, line)
    } else {
        add_claim(text, line)
    }
}

/// Adds whose late claim it is, and its amounts.
fn add_late(text: &mut String, line: &PlanLine) -> Result<(), NoMemory>
    requires { paid line.now < 2 ^ 64 }
    ensures { OnOk result (string_bytes text.new ≡ string_bytes text.old ++ (claimant_text line.now ++ claim_text line.now)) }
{
    add_claimant(text, line)?;
    add_claim(text, line)
}

/// Adds the owner, and what the owner is paid.
fn add_owner(text: &mut String, line: &PlanLine) -> Result<(), NoMemory>
    requires { paid line.now < 2 ^ 64 }
    ensures { OnOk result (string_bytes text.new ≡ string_bytes text.old ++ (word_part (codes " ") decimal line.now.person ++ (codes " paid " ++ euro (paid line.now)))) }
{
    add_person(text, " ", line.person)?;
    add_word_euro(text, " paid ", line.paid())
}

/// Adds the right that a claim is of, where it is of one, and the person.
fn add_claimant(text: &mut String, line: &PlanLine) -> Result<(), NoMemory>
    ensures { OnOk result (string_bytes text.new ≡ string_bytes text.old ++ claimant_text line.now) }
{
    add_right(text, line.right)?;
    add_person(text, " person ", line.person)
}

/// Adds a right behind its word, where there is one.
fn add_right(text: &mut String, right: Option<RightId>) -> Result<(), NoMemory>
    ensures { OnOk result (string_bytes text.new ≡ string_bytes text.old ++ word_part (codes " right ") right_text right) }
{
    if let Some(right) = right {
        write!(text, " right {right}")?;
    }
    Ok(())
}

/// Adds a person behind this word, where there is one.
fn add_person(text: &mut String, word: &str, person: Option<Person>) -> Result<(), NoMemory>
    ensures { OnOk result (string_bytes text.new ≡ string_bytes text.old ++ word_part word.now decimal person) }
{
    if let Some(person) = person {
        write!(text, "{word}{person}")?;
    }
    Ok(())
}

/// Adds what is claimed, and what is paid of it.
fn add_claim(text: &mut String, line: &PlanLine) -> Result<(), NoMemory>
    requires { paid line.now < 2 ^ 64 }
    ensures { OnOk result (string_bytes text.new ≡ string_bytes text.old ++ claim_text line.now) }
{
    add_word_euro(text, " claim ", line.claim)?;
    add_word_euro(text, " paid ", line.paid())
}

/// Adds what a right of class 4 or 6 is paid, its interest and its capital, and what remains of it.
fn add_right_paid(text: &mut String, line: &PlanLine) -> Result<(), NoMemory>
    ensures { OnOk result (string_bytes text.new ≡ string_bytes text.old ++ right_paid_text line.now) }
{
    add_word_euro(text, " interest ", line.interest)?;
    add_word_euro(text, " capital ", line.capital)?;
    add_word_euro(text, " remains ", line.remains)
}

/// Adds an amount of cents after this word.
fn add_word_euro(text: &mut String, word: &str, cents: u64) -> Result<(), NoMemory>
    ensures { OnOk result (string_bytes text.new ≡ string_bytes text.old ++ (word.now ++ euro cents)) }
{
    text.push_str(word)?;
    add_euro(text, cents)
}
