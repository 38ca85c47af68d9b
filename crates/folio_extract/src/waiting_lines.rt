//! The lines of the filings that wait at a title or at a right.
ghost use Rattle.std.specs.Prelude.{◌≡◌, ◌++◌, OnOk, Some, flat_map};
ghost use Rattle.std.specs.String.{string_bytes};
ghost use Rattle.folio_extract.specs.Extracts.{notice_part, waiting_line};
ghost use Rattle.folio_extract.specs.inner.WaitsAt.{waits_at_text};

use crate::waiting::WaitingFiling;
use gb_base::{Day, NoMemory, RightId};
use std::fmt;

/// Where a filing waits.
#[derive(Clone, Copy, Debug)]
pub(crate) enum WaitsAt {
    Title,
    Right(RightId),
}

/// `title`, or the number of the right.
impl fmt::Display for WaitsAt {
    ghost output = { λ place. Some (waits_at_text place) };

    fn fmt<W: fmt::Write>(&self, f: &mut fmt::Formatter<W>) -> fmt::Result {
        match self {
            WaitsAt::Title => f.write_str("title"),
            WaitsAt::Right(id) => write!(f, "{id}"),
        }
    }
}

/// Adds a line for each filing that waits at this place.
pub(crate) fn add_waiting_lines(
    text: &mut String,
    place: &WaitsAt,
    filings: &[WaitingFiling],
) -> Result<(), NoMemory>
    ensures { OnOk result (string_bytes text.new ≡ string_bytes text.old ++ flat_map (waiting_line (waits_at_text place.now)) filings.now) }
{
    for waiting in filings {
        add_waiting_line(text, place, waiting)?;
    }
    Ok(())
}

/// Adds a filing that waits at this place.
fn add_waiting_line(
    text: &mut String,
    place: &WaitsAt,
    waiting: &WaitingFiling,
) -> Result<(), NoMemory>
    ensures { OnOk result (string_bytes text.new ≡ string_bytes text.old ++ waiting_line (waits_at_text place.now) waiting.now) }
{
    write!(
        text,
        "pending {} {place} until {}",
        waiting.filing, waiting.until
    )?;
    add_notice(text, &waiting.notice)?;
    text.push_str("\n")
}

/// Adds the day of an official notice, if there is one.
fn add_notice(text: &mut String, notice: &Option<Day>) -> Result<(), NoMemory>
    ensures { OnOk result (string_bytes text.new ≡ string_bytes text.old ++ notice_part notice.now) }
{
    match notice {
        Some(day) => write!(text, " notice {day}"),
        None => Ok(()),
    }
}
