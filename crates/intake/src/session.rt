//! The session of an input of lines: each is answered as it comes.
ghost use Rattle.std.specs.Prelude.{◌≡◌, ◌⊎◌, ◌≤◌, ◌+◌, ◌++◌, ◌∷◌, [], ◌==◌, true, false, List, length, take, Some, OnOk, OnErr, IfSome, IfNone, Err};
ghost use Rattle.std.specs.List.{list_any};
ghost use Rattle.std.specs.Io.KnownBytes.{IsAtEnd};
ghost use Rattle.gb_outside.specs.Faults.{Counts};
ghost use Rattle.intake.specs.Answered.{Answered};
ghost use Rattle.intake.specs.EarlyEnds.{AreOf, EndsEarly};
ghost use Rattle.intake.specs.Faults.{answer_output_failed, answer_disk_failed, session_input_failed, session_output_failed, session_disk_failed};
ghost use Rattle.intake.specs.Grown.{DiskGrows};
ghost use Rattle.intake.specs.Lines.{request_of_line, is_stamped_by_clock};
ghost use Rattle.intake.specs.Requests.{Held, held_after};
ghost use Rattle.intake.specs.Sessions.{behind, ended_requests, line_requests, most_input, Took};
ghost use Rattle.intake_requests.specs.declared.requests.Request.{Request};

use crate::answering::answer_request;
use crate::faults::{AnswerFault, SessionFault};
use crate::inputs::{MAX_INPUT, empty_block, read_block, room_for};
use crate::lines::{LineKind, request_of_line};
use crate::receivers::Receiver;
use gb_outside::{Got, Sink, Source};
use std::alloc::Global;

/// Answers one line.
fn answer_line<J: Receiver, K: Sink>(
    alloc: Global,
    kind: LineKind,
    receiver: &mut J,
    line: &[u8],
    sink: &mut K,
) -> Result<(), AnswerFault>
    requires stamped { J.has_clock ≡ false → is_stamped_by_clock kind ≡ false }
    requires ready { J.ready receiver.old }
    ensures answered { (held : Held) → J.holds receiver.old ≡ Some held
        → OnOk result (Answered J.medium held (J.holds receiver.new) (K.written sink.old) (K.written sink.new) (request_of_line kind line.now ∷ [])) }
    ensures broken { (held : Held) → J.holds receiver.old ≡ Some held
        → OnErr result (EndsEarly J.medium held (J.ticks receiver.new) (K.written sink.old) (K.written sink.new) (J.images receiver.new) (request_of_line kind line.now ∷ [])) }
    ensures grows { (held : Held) → J.holds receiver.old ≡ Some held
        → DiskGrows J.reads J.moment J.since receiver.old receiver.new held.journal (held_after J.medium held (request_of_line kind line.now ∷ [])).journal }
    ensures ready { answer_disk_failed result ≡ false → J.ready receiver.new }
    ensures works { answer_disk_failed result ≡ true → J.failed receiver.new ≡ true }
    ensures lent { J.lent receiver.new ≡ J.lent receiver.old }
    ensures write_cause { Counts (K.faults sink.old) (K.faults sink.new) (answer_output_failed result) }
    ensures disk_cause { Counts (J.faults receiver.old) (J.faults receiver.new) (answer_disk_failed result) }
{
    let request = request_of_line(alloc, kind, line)?;
    answer_request(alloc, receiver, &request, sink)
}

/// Answers the line that these bytes end; an LF stands after them, and none among them.
fn answer_ended<J: Receiver, K: Sink>(
    alloc: Global,
    kind: LineKind,
    receiver: &mut J,
    line: &mut Vec<u8>,
    end: &[u8],
    sink: &mut K,
) -> Result<(), AnswerFault>
    requires within_line { list_any (λ b. b == 10) end.now ≡ false }
    requires stamped { J.has_clock ≡ false → is_stamped_by_clock kind ≡ false }
    requires ready { J.ready receiver.old }
    ensures answered { (held : Held) → J.holds receiver.old ≡ Some held
        → OnOk result (Answered J.medium held (J.holds receiver.new) (K.written sink.old) (K.written sink.new) (ended_requests kind line.old.items (end.now ++ 10 ∷ []))) }
    ensures broken { (held : Held) → J.holds receiver.old ≡ Some held
        → OnErr result (EndsEarly J.medium held (J.ticks receiver.new) (K.written sink.old) (K.written sink.new) (J.images receiver.new) (ended_requests kind line.old.items (end.now ++ 10 ∷ []))) }
    ensures grows { (held : Held) → J.holds receiver.old ≡ Some held
        → DiskGrows J.reads J.moment J.since receiver.old receiver.new held.journal (held_after J.medium held (ended_requests kind line.old.items (end.now ++ 10 ∷ []))).journal }
    ensures ready { answer_disk_failed result ≡ false → J.ready receiver.new }
    ensures works { answer_disk_failed result ≡ true → J.failed receiver.new ≡ true }
    ensures lent { J.lent receiver.new ≡ J.lent receiver.old }
    ensures write_cause { Counts (K.faults sink.old) (K.faults sink.new) (answer_output_failed result) }
    ensures disk_cause { Counts (J.faults receiver.old) (J.faults receiver.new) (answer_disk_failed result) }
    ensures line { OnOk result (line.new.items ≡ behind line.old.items (end.now ++ 10 ∷ [])) }
{
    line.extend_from_slice(end)?;
    answer_line(alloc, kind, receiver, line.as_slice(), sink)?;
    line.clear();
    Ok(())
}

/// The bytes before the first LF, and those after it; None where there is no LF.
fn first_line(bytes: &[u8]) -> Option<(&[u8], &[u8])>
    ensures whole { IfSome result (λ split. bytes.now ≡ split.0.now ++ 10 ∷ split.1.now) }
    ensures first { IfSome result (λ split. list_any (λ b. b == 10) split.0.now ≡ false) }
    ensures none { IfNone result (list_any (λ b. b == 10) bytes.now ≡ false) }
{
    for (index, byte) in bytes.iter().enumerate() {
        if *byte == b'\n' {
            return Some((&bytes[..index], &bytes[index + 1..]));
        }
    }
    None
}

/// Answers the lines that this piece of the input ends, and keeps what stands after the last LF.
fn answer_piece<J: Receiver, K: Sink>(
    alloc: Global,
    kind: LineKind,
    receiver: &mut J,
    line: &mut Vec<u8>,
    piece: &[u8],
    sink: &mut K,
) -> Result<(), AnswerFault>
    requires stamped { J.has_clock ≡ false → is_stamped_by_clock kind ≡ false }
    requires ready { J.ready receiver.old }
    ensures answered { (held : Held) → J.holds receiver.old ≡ Some held
        → OnOk result (Answered J.medium held (J.holds receiver.new) (K.written sink.old) (K.written sink.new) (ended_requests kind line.old.items piece.now)) }
    ensures broken { (held : Held) → J.holds receiver.old ≡ Some held
        → OnErr result (EndsEarly J.medium held (J.ticks receiver.new) (K.written sink.old) (K.written sink.new) (J.images receiver.new) (ended_requests kind line.old.items piece.now)) }
    ensures grows { (held : Held) → J.holds receiver.old ≡ Some held
        → DiskGrows J.reads J.moment J.since receiver.old receiver.new held.journal (held_after J.medium held (ended_requests kind line.old.items piece.now)).journal }
    ensures ready { answer_disk_failed result ≡ false → J.ready receiver.new }
    ensures works { answer_disk_failed result ≡ true → J.failed receiver.new ≡ true }
    ensures lent { J.lent receiver.new ≡ J.lent receiver.old }
    ensures write_cause { Counts (K.faults sink.old) (K.faults sink.new) (answer_output_failed result) }
    ensures disk_cause { Counts (J.faults receiver.old) (J.faults receiver.new) (answer_disk_failed result) }
    ensures line { OnOk result (line.new.items ≡ behind line.old.items piece.now) }
{
    let mut rest = piece;
    while let Some((end, behind)) = first_line(rest) {
        answer_ended(alloc, kind, receiver, line, end, sink)?;
        rest = behind;
    }
    line.extend_from_slice(rest)?;
    Ok(())
}

/// Answers all lines of the input. Besides what answers a line it may run out of memory (Memory) for
/// a block of the input and for a line.
pub fn answer_lines<J: Receiver, S: Source, K: Sink>(
    alloc: Global,
    kind: LineKind,
    receiver: &mut J,
    source: &mut S,
    sink: &mut K,
) -> Result<(), SessionFault>
    requires stamped { J.has_clock ≡ false → is_stamped_by_clock kind ≡ false }
    requires ready { J.ready receiver.old }

    // All lines are answered; or where the source fails or gives too much, just those that an LF ends
    // in the bytes read, of which the first 64 MiB count; else some of those.
    ensures all { (held : Held) → J.holds receiver.old ≡ Some held
        → OnOk result (Took (S.left source.old) (S.left source.new) (λ read. IsAtEnd (S.left source.new) × (length read ≤ most_input)
        × Answered J.medium held (J.holds receiver.new) (K.written sink.old) (K.written sink.new) (line_requests kind read)
        × DiskGrows J.reads J.moment J.since receiver.old receiver.new held.journal (held_after J.medium held (line_requests kind read)).journal)) }
    ensures cut { (held : Held) → J.holds receiver.old ≡ Some held → (result ≡ Err SessionFault.Read) ⊎ (result ≡ Err SessionFault.TooLong)
        → Took (S.left source.old) (S.left source.new) (λ read. Answered J.medium held (J.holds receiver.new) (K.written sink.old) (K.written sink.new) (ended_requests kind [] (take most_input read))) }
    ensures part { (held : Held) → J.holds receiver.old ≡ Some held
        → OnErr result (Took (S.left source.old) (S.left source.new) (λ read. (requests : List Request) × AreOf (line_requests kind) (ended_requests kind []) (S.left source.new) read requests
        × EndsEarly J.medium held (J.ticks receiver.new) (K.written sink.old) (K.written sink.new) (J.images receiver.new) requests
        × DiskGrows J.reads J.moment J.since receiver.old receiver.new held.journal (held_after J.medium held requests).journal)) }
    ensures at_end { OnOk result (Took (S.left source.old) (S.left source.new) (λ read. IsAtEnd (S.left source.new))) }
    ensures short { (result ≡ Err SessionFault.TooLong → ⊥) → Took (S.left source.old) (S.left source.new) (λ read. length read ≤ most_input) }
    ensures long { result ≡ Err SessionFault.TooLong → Took (S.left source.old) (S.left source.new) (λ read. length read ≡ most_input + 1) }
    ensures ready { session_disk_failed result ≡ false → J.ready receiver.new }
    ensures works { session_disk_failed result ≡ true → J.failed receiver.new ≡ true }
    ensures lent { J.lent receiver.new ≡ J.lent receiver.old }
    ensures read_cause { Counts (S.faults source.old) (S.faults source.new) (session_input_failed result) }
    ensures write_cause { Counts (K.faults sink.old) (K.faults sink.new) (session_output_failed result) }
    ensures disk_cause { Counts (J.faults receiver.old) (J.faults receiver.new) (session_disk_failed result) }
{
    let mut line = Vec::new(alloc);
    let mut block = empty_block(alloc)?;
    let mut count = 0;
    for _ in 0..MAX_INPUT + 1 {
        match read_block(source, block.as_mut_slice(), room_for(count)) {
            Got::Bytes(read) => {
                if read > MAX_INPUT - count {
                    return Err(SessionFault::TooLong);
                }
                answer_piece(alloc, kind, receiver, &mut line, &block[..read], sink)?;
                count += read;
            }
            Got::End => {
                answer_line(alloc, kind, receiver, line.as_slice(), sink)?;
                return Ok(());
            }
            Got::Failed => return Err(SessionFault::Read),
        }
    }
    unreachable!()
}
