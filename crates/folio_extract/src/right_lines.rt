//! The line of a right.
ghost use Rattle.std.specs.Prelude.{◌≡◌, ◌++◌, OnOk, codes};
ghost use Rattle.std.specs.Fmt.{decimal};
ghost use Rattle.std.specs.String.{string_bytes};
ghost use Rattle.gb_base.specs.Texts.{euro, right_text};
ghost use Rattle.folio_sections.specs.Rights.{capital, holder, is_full};
ghost use Rattle.folio_extract.specs.Extracts.{division_text, form_text, kind_text, notes, rate_part, right_line, word_if, word_part};

use act_model::RightKind;
use folio_line::CreatedRight;
use folio_sections::{Created, RightPart};
use gb_base::{Cents, NoMemory, Person, ReceiptNo, RightId};

/// Adds the line of a right, as it stands by the entries at it. Where memory runs out, a part of
/// the line may stand in the text.
pub(crate) fn add_right_line(
    text: &mut String,
    part: &RightPart,
    right: &CreatedRight,
) -> Result<(), NoMemory>
    ensures { OnOk result (string_bytes text.new ≡ string_bytes text.old ++ right_line part.now.entries right.now) }
{
    add_kind(text, part, right)?;
    add_terms(text, part, &right.made.spec.kind)?;
    write!(text, " placed {}", right.made.placed)?;
    add_notes(text, part, &right.made)?;
    text.push_str("\n")
}

/// Adds which right it is, its division, its form and its kind.
fn add_kind(text: &mut String, part: &RightPart, right: &CreatedRight) -> Result<(), NoMemory>
    ensures { OnOk result (string_bytes text.new ≡ string_bytes text.old
        ++ (codes "right " ++ (right_text right.now.id ++ (codes " " ++ (division_text right.now.made.spec.kind ++ (codes " " ++ (form_text (is_full part.now.entries)
        ++ (codes " " ++ kind_text right.now.made.spec.kind)))))))) }
{
    let division = division_name(&right.made.spec.kind);
    let form = form_name(part.full());
    let kind = kind_name(&right.made.spec.kind);
    write!(text, "right {} {division} {form} {kind}", right.id)
}

/// The division of a folio in which rights of this kind stand.
fn division_name(kind: &RightKind) -> &'static str
    ensures { result.now ≡ division_text kind.now }
{
    if kind.is_in_division_three() {
        "III"
    } else {
        "II"
    }
}

/// A right as such, or a priority notice for one (BGB § 883).
fn form_name(full: bool) -> &'static str
    ensures { result.now ≡ form_text full }
{
    if full { "right" } else { "notice" }
}

/// The word for a kind of right.
fn kind_name(kind: &RightKind) -> &'static str
    ensures { result.now ≡ kind_text kind.now }
{
    match kind {
        RightKind::PersonalEasement => "personal-easement",
        RightKind::Usufruct => "usufruct",
        RightKind::Mortgage { .. } => "mortgage",
        RightKind::LandCharge { .. } => "land-charge",
    }
}

/// Adds what a right of this kind is worth, and whose it is.
fn add_terms(text: &mut String, part: &RightPart, kind: &RightKind) -> Result<(), NoMemory>
    ensures { OnOk result (string_bytes text.new ≡ string_bytes text.old
        ++ (word_part (codes " ") euro (capital part.now.entries) ++ (rate_part kind.now ++ word_part (codes " holder ") decimal (holder part.now.entries)))) }
{
    add_capital(text, part.capital())?;
    add_rate(text, kind)?;
    add_holder(text, part.holder())
}

/// Adds a capital.
fn add_capital(text: &mut String, capital: Option<Cents>) -> Result<(), NoMemory>
    ensures { OnOk result (string_bytes text.new ≡ string_bytes text.old ++ word_part (codes " ") euro capital) }
{
    match capital {
        Some(cents) => write!(text, " {cents}"),
        None => Ok(()),
    }
}

/// Adds the interest of a mortgage or a land charge.
fn add_rate(text: &mut String, kind: &RightKind) -> Result<(), NoMemory>
    ensures { OnOk result (string_bytes text.new ≡ string_bytes text.old ++ rate_part kind.now) }
{
    match kind {
        RightKind::PersonalEasement => Ok(()),
        RightKind::Usufruct => Ok(()),
        RightKind::Mortgage { rate_bp } => write!(text, " rate {rate_bp}"),
        RightKind::LandCharge { rate_bp } => write!(text, " rate {rate_bp}"),
    }
}

/// Adds a holder.
fn add_holder(text: &mut String, holder: Option<Person>) -> Result<(), NoMemory>
    ensures { OnOk result (string_bytes text.new ≡ string_bytes text.old ++ word_part (codes " holder ") decimal holder) }
{
    match holder {
        Some(person) => write!(text, " holder {person}"),
        None => Ok(()),
    }
}

/// Adds what holds of some rights only.
fn add_notes(text: &mut String, part: &RightPart, made: &Created) -> Result<(), NoMemory>
    ensures { OnOk result (string_bytes text.new ≡ string_bytes text.old ++ notes part.now.entries made.now) }
{
    add_behind(text, &made.behind)?;
    add_mark(text, " equal", made.equal)?;
    add_reserve(text, &made.reserve)?;
    add_mark(text, " spent", part.spent())?;
    add_ahead_of(text, &made.ahead_of)
}

/// Adds the filing that a right stands behind on its day (GBO § 45).
fn add_behind(text: &mut String, behind: &Option<ReceiptNo>) -> Result<(), NoMemory>
    ensures { OnOk result (string_bytes text.new ≡ string_bytes text.old ++ word_part (codes " behind ") decimal behind.now) }
{
    match behind {
        Some(filing) => write!(text, " behind {filing}"),
        None => Ok(()),
    }
}

/// Adds a word where something holds.
fn add_mark(text: &mut String, word: &str, holds: bool) -> Result<(), NoMemory>
    ensures { OnOk result (string_bytes text.new ≡ string_bytes text.old ++ word_if word.now holds) }
{
    if holds { text.push_str(word) } else { Ok(()) }
}

/// Adds what a right reserves (BGB § 881).
fn add_reserve(text: &mut String, reserve: &Option<Cents>) -> Result<(), NoMemory>
    ensures { OnOk result (string_bytes text.new ≡ string_bytes text.old ++ word_part (codes " reserve ") euro reserve.now) }
{
    match reserve {
        Some(cents) => write!(text, " reserve {cents}"),
        None => Ok(()),
    }
}

/// Adds the right that a right stands ahead of (BGB § 881).
fn add_ahead_of(text: &mut String, ahead_of: &Option<RightId>) -> Result<(), NoMemory>
    ensures { OnOk result (string_bytes text.new ≡ string_bytes text.old ++ word_part (codes " ahead-of ") right_text ahead_of.now) }
{
    match ahead_of {
        Some(id) => write!(text, " ahead-of {id}"),
        None => Ok(()),
    }
}
