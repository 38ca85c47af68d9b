//! The rank table of a folio: the ranks of its rights, the exchanges and exercised reservations that
//! count, and the cents after the exchanges.
ghost use Rattle.std.specs.Prelude.{◌≡◌, ◌++◌, IfOk, None, OnOk, codes, option_map};
ghost use Rattle.std.specs.Fmt.{decimal};
ghost use Rattle.std.specs.String.{string_bytes};
ghost use Rattle.folio_sections.specs.Held.{entries_at};
ghost use Rattle.kept_registers.specs.Kept.{Kept};
ghost use Rattle.folio_extract.specs.CentTexts.{line_text};
ghost use Rattle.folio_line.specs.FolioLine.{IsLineOf};
ghost use Rattle.folio_line.specs.FolioSlots.{folio_filled};
ghost use Rattle.folio_extract.specs.RankTables.{rank_table, rank_table_text};
ghost use Rattle.folio_extract.specs.inner.RankWalk.{ranked_lines};

use crate::cent_lines::add_cent_lines;
use crate::exchange_lines::{add_exchange_lines, add_exercise_lines};
use crate::folio_reads::line_of;
use crate::rank_lines::add_rank_lines;
use act_model::{Journal, is_a_journal};
use folio_line::{CreatedRight, FolioLine, FolioReading, folio_slots};
use gb_base::{FolioId, NoMemory};
use registrar::Register;
use std::alloc::Global;

/// The rank table of a folio; None where it is not open.
pub fn rank_table(
    alloc: Global,
    register: &Register,
    journal: &Journal,
    folio: FolioId,
) -> Result<Option<Vec<u8>>, NoMemory>
    requires kept { Kept journal.now.receipts (entries_at register.now.parts) }
    ensures text { IfOk result (λ text. option_map (λ t. t.items) text ≡ rank_table journal.now.receipts (entries_at register.now.parts) folio) }
{
    if !register.is_open(folio) {
        return Ok(None);
    }
    let line = line_of(alloc, register, folio)?;
    let mut text = String::new(alloc);
    add_rank_table(alloc, &mut text, register, journal, folio, &line)?;
    Ok(Some(text.into_bytes()))
}

/// Adds the rank table of an open folio, whose line this is.
pub(crate) fn add_rank_table(
    alloc: Global,
    text: &mut String,
    register: &Register,
    journal: &Journal,
    folio: FolioId,
    line: &FolioLine,
) -> Result<(), NoMemory>
    requires kept { Kept journal.now.receipts (entries_at register.now.parts) }
    requires line { IsLineOf (entries_at register.now.parts) folio line.now }
    ensures { OnOk result (string_bytes text.new ≡ string_bytes text.old ++ rank_table_text journal.now.receipts (entries_at register.now.parts) folio) }
{
    is_a_journal(journal);
    add_ranks(text, folio, line.live())?;
    add_exchange_lines(text, line.exchanges())?;
    add_exercise_lines(text, line.exercises())?;
    add_cents(alloc, text, register, journal, folio, line)
}

/// Adds the ranks of these rights, which stand in order.
fn add_ranks(text: &mut String, folio: FolioId, rights: &[CreatedRight]) -> Result<(), NoMemory>
    ensures { OnOk result (string_bytes text.new ≡ string_bytes text.old
        ++ (codes "ranks " ++ (decimal folio ++ (codes "\n" ++ ranked_lines 0 None rights.now)))) }
{
    writeln!(text, "ranks {folio}")?;
    add_rank_lines(text, rights)
}

/// Adds the cents of the folio's line after the exchanges that count.
fn add_cents(
    alloc: Global,
    text: &mut String,
    register: &Register,
    journal: &Journal,
    folio: FolioId,
    line: &FolioLine,
) -> Result<(), NoMemory>
    requires kept { Kept journal.now.receipts (entries_at register.now.parts) }
    requires line { IsLineOf (entries_at register.now.parts) folio line.now }
    ensures { OnOk result (string_bytes text.new ≡ string_bytes text.old
        ++ line_text (folio_filled (entries_at register.now.parts) folio)) }
{
    let reading = FolioReading {
        parts: register,
        folio,
        before: None,
    };
    let slots = folio_slots(alloc, &reading, journal, line)?;
    add_cent_lines(text, &slots)
}
