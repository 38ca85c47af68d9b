//! A journal is settled at so many desks, and its report written.
ghost use Rattle.std.specs.Prelude.{◌≡◌, ◌≤◌, Err, IfOk, OnOk, OnErr};
ghost use Rattle.std.specs.Io.KnownBytes.{Appends};
ghost use Rattle.gb_outside.specs.Bytes.{AppendsFront};
ghost use Rattle.gb_outside.specs.Faults.{Counts};
ghost use Rattle.intake.specs.Faults.{output_failed};
ghost use Rattle.registry_office.specs.Outcomes.{report_of};

use act_model::Journal;
use desk_pool::settle_at_desks;
use folio_extract::report_at_desks;
use gb_base::NoMemory;
use gb_outside::{DeskGate, Sink};
use intake::{OutputFault, write_all};
use std::sync::Wait;
use std::thread::Threads;

/// Settles the journal at so many desks, 1 to 64, and writes the report.
pub(crate) fn write_report<R: AllocGlobal + Threads + Wait + Sync, K: Sink, G: DeskGate>(
    rt: &R,
    journal: &Journal,
    sink: &mut K,
    desks: u16,
    gate: &G,
) -> Result<(), OutputFault>
    requires desks { (1 ≤ desks) × (desks ≤ 64) }
    ensures whole { OnOk result (Appends (K.written sink.old) (K.written sink.new) (report_of journal.now.receipts)) }
    ensures part { OnErr result (AppendsFront (K.written sink.old) (K.written sink.new) (report_of journal.now.receipts)) }
    ensures unwritten { result ≡ Err OutputFault.Memory → K.written sink.new ≡ K.written sink.old }
    ensures cause { Counts (K.faults sink.old) (K.faults sink.new) (output_failed result) }
{
    let text = report_text(rt, journal, desks, gate)?;
    write_all(sink, text.as_slice())
}

/// The report of the journal, settled and written at so many desks.
fn report_text<R: AllocGlobal + Threads + Wait + Sync, G: DeskGate>(
    rt: &R,
    journal: &Journal,
    desks: u16,
    gate: &G,
) -> Result<Vec<u8>, NoMemory>
    requires desks { (1 ≤ desks) × (desks ≤ 64) }
    ensures { IfOk result (λ text. text.items ≡ report_of journal.now.receipts) }
{
    let register = settle_at_desks(rt, journal, desks, gate)?;
    report_at_desks(rt, &register, journal, desks)
}
