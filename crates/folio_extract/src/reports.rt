//! The report: what becomes of each receipt, the texts of each open folio, and a line that ends it.
//! Why so: docs/DECISIONS.md, "The report is made whole before its first byte is written".
ghost use Rattle.std.specs.Prelude.{◌≡◌, ◌++◌, IfOk, OnOk, length};
ghost use Rattle.std.specs.String.{string_bytes};
ghost use Rattle.folio_sections.specs.Held.{entries_at};
ghost use Rattle.folio_extract.specs.Extracts.{extract_text};
ghost use Rattle.folio_extract.specs.Plans.{plans_of_folio};
ghost use Rattle.folio_extract.specs.RankTables.{rank_table_text};
ghost use Rattle.folio_extract.specs.Reports.{Tells, end_line, folio_texts, report, report_text};
ghost use Rattle.folio_extract.specs.inner.TellsPlans.{TellsPlans};
ghost use Rattle.registrar.specs.HasSettled.{IsRegisterOf};
ghost use Rattle.registrar.specs.Settling.{Settlement};

use crate::extracts::add_extract;
use crate::folio_reads::line_of;
use crate::plans::{add_plans, tells_plans};
use crate::rank_tables::add_rank_table;
use crate::verdict_lines::add_verdict_lines;
use act_model::Journal;
use gb_base::{FolioId, NoMemory};
use registrar::Register;
use std::alloc::Global;

/// The report of a register: what became of each receipt, the extract, the rank table and the plans
/// of the distributions of each open folio, ascending, and a line that ends it.
pub fn report(alloc: Global, register: &Register, journal: &Journal) -> Result<Vec<u8>, NoMemory>
    requires register { IsRegisterOf journal.now.receipts register.now }
    ensures text { IfOk result (λ text. text.items ≡ report_text journal.now.receipts register.now.verdicts (entries_at register.now.parts) register.now.folios) }
    ensures report { (settled : Settlement) → Tells register.now settled → IfOk result (λ text. text.items ≡ report journal.now.receipts settled) }
{
    tells_plans(register, journal);
    whole_text(alloc, register, journal)
}

/// The text of the report.
fn whole_text(alloc: Global, register: &Register, journal: &Journal) -> Result<Vec<u8>, NoMemory>
    requires told { TellsPlans journal.now.receipts register.now }
    ensures { IfOk result (λ text. text.items ≡ report_text journal.now.receipts register.now.verdicts (entries_at register.now.parts) register.now.folios) }
{
    let mut text = String::new(alloc);
    add_verdict_lines(&mut text, register)?;
    add_folios(alloc, &mut text, register, journal, register.folios())?;
    add_end_line(&mut text, register)?;
    Ok(text.into_bytes())
}

/// Adds the extract, the rank table and the plans of each of these open folios.
pub(crate) fn add_folios(
    alloc: Global,
    text: &mut String,
    register: &Register,
    journal: &Journal,
    folios: &[FolioId],
) -> Result<(), NoMemory>
    requires told { TellsPlans journal.now.receipts register.now }
    ensures { OnOk result (string_bytes text.new ≡ string_bytes text.old ++ folio_texts journal.now.receipts (entries_at register.now.parts) folios.now) }
{
    for folio in folios {
        add_folio(alloc, text, register, journal, *folio)?;
    }
    Ok(())
}

/// Adds the extract, the rank table and the plans of an open folio, whose line is read once for the
/// first two.
fn add_folio(
    alloc: Global,
    text: &mut String,
    register: &Register,
    journal: &Journal,
    folio: FolioId,
) -> Result<(), NoMemory>
    requires told { TellsPlans journal.now.receipts register.now }
    ensures { OnOk result (string_bytes text.new ≡ string_bytes text.old
        ++ (extract_text (entries_at register.now.parts) folio ++ (rank_table_text journal.now.receipts (entries_at register.now.parts) folio
        ++ plans_of_folio journal.now.receipts (entries_at register.now.parts) folio))) }
{
    let line = line_of(alloc, register, folio)?;
    add_extract(alloc, text, register, folio, line.live())?;
    add_rank_table(alloc, text, register, journal, folio, &line)?;
    add_plans(alloc, text, register, journal, folio)
}

/// Adds the line that ends the report.
pub(crate) fn add_end_line(text: &mut String, register: &Register) -> Result<(), NoMemory>
    ensures { OnOk result (string_bytes text.new ≡ string_bytes text.old ++ end_line (length register.now.verdicts) (length register.now.folios)) }
{
    let receipts = register.verdicts().len();
    let folios = register.folios().len();
    writeln!(text, "end receipts {receipts} folios {folios}")?;
    Ok(())
}
