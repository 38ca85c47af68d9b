//! The report, where several desks write the texts of its folios at once.
//! Why so: docs/DECISIONS.md, "Desks write the report too".
ghost use Rattle.std.specs.Prelude.{◌≡◌, ◌*◌, ◌++◌, ◌≤◌, ℕ, IfOk, OnOk};
ghost use Rattle.std.specs.String.{string_bytes};
ghost use Rattle.folio_sections.specs.Held.{entries_at};
ghost use Rattle.folio_extract.specs.Reports.{Tells, folio_texts, report, report_text};
ghost use Rattle.folio_extract.specs.inner.TellsPlans.{TellsPlans};
ghost use Rattle.folio_extract.specs.inner.TextsInTurn.{AreTextsOf, folios_each};
ghost use Rattle.registrar.specs.HasSettled.{IsRegisterOf};
ghost use Rattle.registrar.specs.Settling.{Settlement};

use crate::plans::tells_plans;
use crate::reports::{add_end_line, add_folios};
use crate::verdict_lines::add_verdict_lines;
use act_model::Journal;
use gb_base::{FolioId, NoMemory};
use registrar::Register;
use std::alloc::{AllocError, Global};
use std::thread;
use std::thread::Threads;

/// The report of a register, as `report` gives it. So many desks, 1 to 64, share its open folios
/// out among them, each in a thread of its own where one can be had.
pub fn report_at_desks<R: AllocGlobal + Threads + Sync>(
    rt: &R,
    register: &Register,
    journal: &Journal,
    desks: u16,
) -> Result<Vec<u8>, NoMemory>
    requires register { IsRegisterOf journal.now.receipts register.now }
    requires desks { 1 ≤ desks }
    ensures text { IfOk result (λ text. text.items ≡ report_text journal.now.receipts register.now.verdicts (entries_at register.now.parts) register.now.folios) }
    ensures report { (settled : Settlement) → Tells register.now settled → IfOk result (λ text. text.items ≡ report journal.now.receipts settled) }
{
    tells_plans(register, journal);
    let texts = texts_at_desks(rt, register, journal, desks)?;
    joined_report(rt.alloc(), register, journal, texts.as_slice(), desks)
}

/// The texts of the open folios, as so many desks write them, each of the next folios in turn.
fn texts_at_desks<R: AllocGlobal + Threads + Sync>(
    rt: &R,
    register: &Register,
    journal: &Journal,
    desks: u16,
) -> Result<Vec<Result<String, NoMemory>>, NoMemory>
    requires told { TellsPlans journal.now.receipts register.now }
    requires desks { 1 ≤ desks }
    ensures { IfOk result (λ texts. AreTextsOf (λ s. string_bytes s) journal.now.receipts (entries_at register.now.parts) register.now.folios desks texts.items) }
{
    let alloc = rt.alloc();
    let folios = register.folios();
    let each = folios_each(folios.len(), desks as usize);
    let texts = thread::map_chunks(
        rt,
        alloc,
        folios,
        each,
        &|_, some| { texts_of(alloc, register, journal, some) },
    )?;
    Ok(texts)
}

/// How many folios each desk writes the texts of: as few as are enough for all, and at least one.
fn folios_each(folios: usize, desks: usize) -> usize
    requires desks { 1 ≤ desks }
    ensures value { result ≡ folios_each folios desks }
    ensures some { 1 ≤ result }
    ensures enough { folios ≤ result * desks }
    ensures fewest { (fewer : ℕ) → 1 ≤ fewer → folios ≤ fewer * desks → result ≤ fewer }
{
    folios.div_ceil(desks).max(1)
}

/// The texts of these open folios.
fn texts_of(
    alloc: Global,
    register: &Register,
    journal: &Journal,
    folios: &[FolioId],
) -> Result<String, NoMemory>
    requires told { TellsPlans journal.now.receipts register.now }
    ensures { IfOk result (λ text. string_bytes text ≡ folio_texts journal.now.receipts (entries_at register.now.parts) folios.now) }
{
    let mut text = String::new(alloc);
    add_folios(alloc, &mut text, register, journal, folios)?;
    Ok(text)
}

/// The report, made of these texts, which so many desks wrote.
fn joined_report(
    alloc: Global,
    register: &Register,
    journal: &Journal,
    texts: &[Result<String, NoMemory>],
    desks: u16,
) -> Result<Vec<u8>, NoMemory>
    requires texts { AreTextsOf (λ s. string_bytes s) journal.now.receipts (entries_at register.now.parts) register.now.folios desks texts.now }
    ensures { IfOk result (λ text. text.items ≡ report_text journal.now.receipts register.now.verdicts (entries_at register.now.parts) register.now.folios) }
{
    let mut text = String::new(alloc);
    add_verdict_lines(&mut text, register)?;
    add_texts(&mut text, texts, register, journal, desks)?;
    add_end_line(&mut text, register)?;
    Ok(text.into_bytes())
}

/// Adds these texts, which so many desks wrote of the open folios.
fn add_texts(
    text: &mut String,
    texts: &[Result<String, NoMemory>],
    register: &Register,
    journal: &Journal,
    desks: u16,
) -> Result<(), NoMemory>
    requires texts { AreTextsOf (λ s. string_bytes s) journal.now.receipts (entries_at register.now.parts) register.now.folios desks texts.now }
    ensures { OnOk result (string_bytes text.new ≡ string_bytes text.old ++ folio_texts journal.now.receipts (entries_at register.now.parts) register.now.folios) }
{
    for some in texts {
        match some {
            Ok(some) => text.push_str(some.as_str())?,
            Err(_) => return Err(AllocError),
        }
    }
    Ok(())
}
