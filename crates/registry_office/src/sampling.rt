//! The command that settles a generated journal.
ghost use Rattle.std.specs.Prelude.{◌≡◌, ◌≤◌, Err, IfOk, OnErr, OnOk, false};
ghost use Rattle.std.specs.Io.KnownBytes.{Appends};
ghost use Rattle.gb_outside.specs.Bytes.{AppendsFront};
ghost use Rattle.gb_outside.specs.Faults.{Counts};
ghost use Rattle.act_model.specs.Limits.{most_receipts};
ghost use Rattle.intake.specs.Faults.{output_failed};
ghost use Rattle.registry_office.specs.Outcomes.{sample_output};
ghost use Rattle.registry_office.specs.Statuses.{read_fault, write_fault, disk_fault, door_fault, is_no_journal};

use crate::statuses::{Status, status_of_writing};
use desk_pool::settle_at_desks;
use folio_extract::summary;
use gb_base::NoMemory;
use gb_outside::{DeskGate, Sink};
use intake::{OutputFault, write_all};
use sample_journals::sample_journal;
use std::sync::Wait;
use std::thread::Threads;

/// Makes the generated journal of this seed, with so many receipts, 1 to 200,000, settles it at so
/// many desks, 1 to 64, and writes its summary. It answers `Ok`, `WriteFault` or `Memory`. The number
/// of desks never changes what is written.
pub(crate) fn settle_sample<R: AllocGlobal + Threads + Wait + Sync, K: Sink, G: DeskGate>(
    rt: &R,
    seed: u64,
    size: u32,
    sink: &mut K,
    desks: u16,
    gate: &G,
) -> Status
    requires size { (1 ≤ size) × (size ≤ most_receipts) }
    requires desks { (1 ≤ desks) × (desks ≤ 64) }
    ensures written { result ≡ Status.Ok → Appends (K.written sink.old) (K.written sink.new) (sample_output seed size) }
    ensures part { AppendsFront (K.written sink.old) (K.written sink.new) (sample_output seed size) }
    ensures unwritten { (result ≡ Status.Ok → ⊥) → write_fault result ≡ false → K.written sink.new ≡ K.written sink.old }
    ensures write { Counts (K.faults sink.old) (K.faults sink.new) (write_fault result) }
    ensures no_usage { result ≡ Status.Usage → ⊥ }
    ensures no_disk { (disk_fault result ≡ false) × (is_no_journal result ≡ false) }
    ensures no_input { (read_fault result ≡ false) × (result ≡ Status.InputTooLong → ⊥) }
    ensures no_door { door_fault result ≡ false }
{
    status_of_writing(write_summary(rt, seed, size, sink, desks, gate))
}

/// Settles the generated journal and writes its summary.
fn write_summary<R: AllocGlobal + Threads + Wait + Sync, K: Sink, G: DeskGate>(
    rt: &R,
    seed: u64,
    size: u32,
    sink: &mut K,
    desks: u16,
    gate: &G,
) -> Result<(), OutputFault>
    requires size { (1 ≤ size) × (size ≤ most_receipts) }
    requires desks { (1 ≤ desks) × (desks ≤ 64) }
    ensures whole { OnOk result (Appends (K.written sink.old) (K.written sink.new) (sample_output seed size)) }
    ensures part { OnErr result (AppendsFront (K.written sink.old) (K.written sink.new) (sample_output seed size)) }
    ensures unwritten { result ≡ Err OutputFault.Memory → K.written sink.new ≡ K.written sink.old }
    ensures cause { Counts (K.faults sink.old) (K.faults sink.new) (output_failed result) }
{
    let text = summary_text(rt, seed, size, desks, gate)?;
    write_all(sink, text.as_slice())
}

/// The summary of the generated journal, settled at so many desks.
fn summary_text<R: AllocGlobal + Threads + Wait + Sync, G: DeskGate>(
    rt: &R,
    seed: u64,
    size: u32,
    desks: u16,
    gate: &G,
) -> Result<Vec<u8>, NoMemory>
    requires size { (1 ≤ size) × (size ≤ most_receipts) }
    requires desks { (1 ≤ desks) × (desks ≤ 64) }
    ensures { IfOk result (λ text. text.items ≡ sample_output seed size) }
{
    let journal = sample_journal(rt.alloc(), seed, size)?;
    let register = settle_at_desks(rt, &journal, desks, gate)?;
    summary(rt.alloc(), &register, &journal)
}
