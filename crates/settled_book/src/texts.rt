//! The texts that routes read of a register.
ghost use Rattle.std.specs.Prelude.{◌≡◌, IfOk, Some, option_map};
ghost use Rattle.registrar.specs.HasSettled.{IsRegisterOf};
ghost use Rattle.folio_sections.specs.Held.{entries_at};
ghost use Rattle.folio_extract.specs.Reports.{report_text};
ghost use Rattle.settled_book.specs.Texts.{text_of};
ghost use Rattle.settled_book.specs.inner.TextsRead.{CanBeRead, text_read};

use act_model::Journal;
use folio_extract::{extract, plan_csv, plan_text, rank_table, report, verdict_line};
use gb_base::NoMemory;
use registrar::Register;
use registrar::laws::registers_are_kept;
use registry_http::Route;
use std::alloc::Global;

/// The text that a route reads of a journal, of which this is the register; None where there is
/// nothing of that name.
pub(crate) fn text_of(
    alloc: Global,
    register: &Register,
    journal: &Journal,
    route: Route,
) -> Result<Option<Vec<u8>>, NoMemory>
    requires { IsRegisterOf journal.now.receipts register.now }
    ensures { IfOk result (λ text. option_map (λ t. t.items) text ≡ text_of journal.now.receipts route) }
{
    can_be_read(register, journal);
    text_read(alloc, register, journal, route)
}

/// Takes nothing and does nothing. After it is known what readers of the one registrar's register
/// rely on.
fn can_be_read(register: &Register, journal: &Journal)
    requires { IsRegisterOf journal.now.receipts register.now }
    ensures { CanBeRead journal.now.receipts register.now }
{
    register.verdicts();
    journal.len();
    registers_are_kept();
}

/// The text that a route reads of this register.
fn text_read(
    alloc: Global,
    register: &Register,
    journal: &Journal,
    route: Route,
) -> Result<Option<Vec<u8>>, NoMemory>
    requires { CanBeRead journal.now.receipts register.now }
    ensures { IfOk result (λ text. option_map (λ t. t.items) text ≡ text_read journal.now.receipts register.now route) }
{
    match route {
        Route::Post => Ok(None),
        Route::Receipt(n) => verdict_line(alloc, register, n),
        Route::Folio(folio) => extract(alloc, register, folio),
        Route::Ranks(folio) => rank_table(alloc, register, journal, folio),
        Route::Plan(n) => plan_text(alloc, register, journal, n),
        Route::PlanCsv(n) => plan_csv(alloc, register, journal, n),
        Route::Report => whole_report(alloc, register, journal),
    }
}

/// The report, which is there for each register.
fn whole_report(
    alloc: Global,
    register: &Register,
    journal: &Journal,
) -> Result<Option<Vec<u8>>, NoMemory>
    requires { IsRegisterOf journal.now.receipts register.now }
    ensures { IfOk result (λ text. option_map (λ t. t.items) text
        ≡ Some (report_text journal.now.receipts register.now.verdicts (entries_at register.now.parts) register.now.folios)) }
{
    let text = report(alloc, register, journal)?;
    Ok(Some(text))
}
