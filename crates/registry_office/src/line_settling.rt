//! The command that settles stamped lines in memory.
ghost use Rattle.std.specs.Prelude.{◌≡◌, ◌⊎◌, ◌≤◌, ◌+◌, [], Some, Err, OnOk, OnErr, IfSome, length, take, false};
ghost use Rattle.std.specs.Io.KnownBytes.{Appends, IsAtEnd};
ghost use Rattle.gb_outside.specs.Bytes.{AppendsFront};
ghost use Rattle.gb_outside.specs.Faults.{Counts};
ghost use Rattle.intake.specs.Faults.{session_input_failed, session_output_failed, session_disk_failed};
ghost use Rattle.registry_office.specs.Outcomes.{settle_lines_output};
ghost use Rattle.intake.specs.Requests.{InMemory, holding, replies};
ghost use Rattle.intake.specs.Sessions.{ended_requests, line_requests, Took, most_input};
ghost use Rattle.intake.specs.declared.lines.LineKind.TheVariants.{Stamped};

use crate::reporting::write_report;
use act_model::Journal;
use gb_outside::{DeskGate, Sink, Source};
use intake::{LineKind, SessionFault, answer_lines};
use std::sync::Wait;
use std::thread::Threads;

/// Receives the stamped lines of the input into a journal in memory, with a reply line for each,
/// settles that journal at so many desks, 1 to 64, and writes the report.
pub(crate) fn settle_lines<R: AllocGlobal + Threads + Wait + Sync, S: Source, K: Sink, G: DeskGate>(
    rt: &R,
    source: &mut S,
    sink: &mut K,
    desks: u16,
    gate: &G,
) -> Result<(), SessionFault>
    requires desks { (1 ≤ desks) × (desks ≤ 64) }
    ensures output { OnOk result (IfSome (S.left source.old) (λ input.
        Appends (K.written sink.old) (K.written sink.new) (settle_lines_output input))) }
    ensures at_end { OnOk result (IfSome (S.left source.old) (λ _. S.left source.new ≡ Some [])) }
    ensures short { (result ≡ Err SessionFault.TooLong → ⊥) → Took (S.left source.old) (S.left source.new) (λ read. length read ≤ most_input) }
    ensures long { result ≡ Err SessionFault.TooLong → Took (S.left source.old) (S.left source.new) (λ read. length read ≡ most_input + 1) }
    ensures cut { (result ≡ Err SessionFault.Read) ⊎ (result ≡ Err SessionFault.TooLong)
        → Took (S.left source.old) (S.left source.new) (λ read.
        Appends (K.written sink.old) (K.written sink.new) (replies InMemory (holding [] []) (ended_requests Stamped [] (take most_input read)))) }
    ensures part { OnErr result (IfSome (S.left source.old) (λ input.
        AppendsFront (K.written sink.old) (K.written sink.new) (settle_lines_output input))) }
    ensures read_part { OnErr result ((IsAtEnd (S.left source.new) → ⊥) → Took (S.left source.old) (S.left source.new) (λ read.
        AppendsFront (K.written sink.old) (K.written sink.new) (replies InMemory (holding [] []) (ended_requests Stamped [] (take most_input read))))) }
    ensures replies_alone { OnErr result (session_output_failed result ≡ false → IfSome (S.left source.old) (λ input.
        AppendsFront (K.written sink.old) (K.written sink.new) (replies InMemory (holding [] []) (line_requests Stamped input)))) }
    ensures no_disk { session_disk_failed result ≡ false }
    ensures read_cause { Counts (S.faults source.old) (S.faults source.new) (session_input_failed result) }
    ensures write_cause { Counts (K.faults sink.old) (K.faults sink.new) (session_output_failed result) }
{
    let mut journal = Journal::new(rt.alloc());
    answer_lines(rt.alloc(), LineKind::Stamped, &mut journal, source, sink)?;
    write_report(rt, &journal, sink, desks, gate)?;
    Ok(())
}
