//! The session of an opening list: it is read whole, and then each of its rows is answered.
ghost use Rattle.std.specs.Prelude.{◌≡◌, ◌⊎◌, ◌≤◌, ◌+◌, List, Some, true, false, length, take, OnOk, OnErr, Err};
ghost use Rattle.std.specs.Io.KnownBytes.{IsAtEnd};
ghost use Rattle.gb_outside.specs.Faults.{Counts};
ghost use Rattle.opening_lists.specs.OpeningLists.{row_requests};
ghost use Rattle.intake.specs.Answered.{Answered};
ghost use Rattle.intake.specs.EarlyEnds.{AreOf, EndsEarly};
ghost use Rattle.intake.specs.Faults.{answer_output_failed, answer_disk_failed, session_input_failed, session_output_failed, session_disk_failed};
ghost use Rattle.intake.specs.Grown.{DiskGrows};
ghost use Rattle.intake.specs.Intakes.{whole_of, cut_of};
ghost use Rattle.intake.specs.Requests.{Held, held_after};
ghost use Rattle.intake.specs.Sessions.{most_input, Took};
ghost use Rattle.intake.specs.declared.intakes.Intake.TheVariants.{OpeningList as ListFrom};
ghost use Rattle.intake_requests.specs.declared.requests.Request.{Request};

use crate::answering::answer_request;
use crate::faults::{AnswerFault, SessionFault};
use crate::inputs::{MAX_INPUT, read_whole};
use crate::receivers::Receiver;
use gb_outside::{Sink, Source};
use opening_lists::OpeningList;
use std::alloc::Global;

/// Answers what the rest of a list asks.
fn answer_rows<'a, J: Receiver, K: Sink>(
    alloc: Global,
    list: &mut OpeningList<'a>,
    receiver: &mut J,
    sink: &mut K,
) -> Result<(), AnswerFault>
    requires clock { J.has_clock ≡ true }
    requires ready { J.ready receiver.old }
    ensures answered { (held : Held) → J.holds receiver.old ≡ Some held
        → OnOk result (Answered J.medium held (J.holds receiver.new) (K.written sink.old) (K.written sink.new) list.old) }
    ensures broken { (held : Held) → J.holds receiver.old ≡ Some held
        → OnErr result (EndsEarly J.medium held (J.ticks receiver.new) (K.written sink.old) (K.written sink.new) (J.images receiver.new) list.old) }
    ensures grows { (held : Held) → J.holds receiver.old ≡ Some held
        → DiskGrows J.reads J.moment J.since receiver.old receiver.new held.journal (held_after J.medium held list.old).journal }
    ensures ready { answer_disk_failed result ≡ false → J.ready receiver.new }
    ensures works { answer_disk_failed result ≡ true → J.failed receiver.new ≡ true }
    ensures lent { J.lent receiver.new ≡ J.lent receiver.old }
    ensures write_cause { Counts (K.faults sink.old) (K.faults sink.new) (answer_output_failed result) }
    ensures disk_cause { Counts (J.faults receiver.old) (J.faults receiver.new) (answer_disk_failed result) }
{
    while let Some(request) = list.next(alloc)? {
        answer_request(alloc, receiver, &request, sink)?;
    }
    Ok(())
}

/// Answers what a list of these bytes asks.
fn answer_bytes<J: Receiver, K: Sink>(
    alloc: Global,
    sender: u32,
    bytes: &[u8],
    receiver: &mut J,
    sink: &mut K,
) -> Result<(), AnswerFault>
    requires clock { J.has_clock ≡ true }
    requires ready { J.ready receiver.old }
    ensures answered { (held : Held) → J.holds receiver.old ≡ Some held
        → OnOk result (Answered J.medium held (J.holds receiver.new) (K.written sink.old) (K.written sink.new) (row_requests sender bytes.now)) }
    ensures broken { (held : Held) → J.holds receiver.old ≡ Some held
        → OnErr result (EndsEarly J.medium held (J.ticks receiver.new) (K.written sink.old) (K.written sink.new) (J.images receiver.new) (row_requests sender bytes.now)) }
    ensures grows { (held : Held) → J.holds receiver.old ≡ Some held
        → DiskGrows J.reads J.moment J.since receiver.old receiver.new held.journal (held_after J.medium held (row_requests sender bytes.now)).journal }
    ensures ready { answer_disk_failed result ≡ false → J.ready receiver.new }
    ensures works { answer_disk_failed result ≡ true → J.failed receiver.new ≡ true }
    ensures lent { J.lent receiver.new ≡ J.lent receiver.old }
    ensures write_cause { Counts (K.faults sink.old) (K.faults sink.new) (answer_output_failed result) }
    ensures disk_cause { Counts (J.faults receiver.old) (J.faults receiver.new) (answer_disk_failed result) }
{
    let mut list = OpeningList::new(alloc, sender, bytes)?;
    answer_rows(alloc, &mut list, receiver, sink)
}

/// Answers all rows of the list that the input is, which the clock stamps. It is read to its end
/// first: where the source fails or gives too much, nothing is received and nothing written. Besides
/// what answers a row it may run out of memory (Memory) for the whole input.
pub fn answer_list<J: Receiver, S: Source, K: Sink>(
    alloc: Global,
    sender: u32,
    receiver: &mut J,
    source: &mut S,
    sink: &mut K,
) -> Result<(), SessionFault>
    requires clock { J.has_clock ≡ true }
    requires ready { J.ready receiver.old }
    ensures all { (held : Held) → J.holds receiver.old ≡ Some held
        → OnOk result (Took (S.left source.old) (S.left source.new) (λ read. IsAtEnd (S.left source.new) × (length read ≤ most_input)
        × Answered J.medium held (J.holds receiver.new) (K.written sink.old) (K.written sink.new) (whole_of (ListFrom sender) read)
        × DiskGrows J.reads J.moment J.since receiver.old receiver.new held.journal (held_after J.medium held (whole_of (ListFrom sender) read)).journal)) }
    ensures cut { (held : Held) → J.holds receiver.old ≡ Some held → (result ≡ Err SessionFault.Read) ⊎ (result ≡ Err SessionFault.TooLong)
        → Took (S.left source.old) (S.left source.new) (λ read. Answered J.medium held (J.holds receiver.new) (K.written sink.old) (K.written sink.new) (cut_of (ListFrom sender) (take most_input read))) }
    ensures part { (held : Held) → J.holds receiver.old ≡ Some held
        → OnErr result (Took (S.left source.old) (S.left source.new) (λ read. (requests : List Request) × AreOf (whole_of (ListFrom sender)) (cut_of (ListFrom sender)) (S.left source.new) read requests
        × EndsEarly J.medium held (J.ticks receiver.new) (K.written sink.old) (K.written sink.new) (J.images receiver.new) requests
        × DiskGrows J.reads J.moment J.since receiver.old receiver.new held.journal (held_after J.medium held requests).journal)) }
    ensures at_end { OnOk result (Took (S.left source.old) (S.left source.new) (λ read. IsAtEnd (S.left source.new))) }
    ensures short { (result ≡ Err SessionFault.TooLong → ⊥) → Took (S.left source.old) (S.left source.new) (λ read. length read ≤ most_input) }
    ensures long { result ≡ Err SessionFault.TooLong → Took (S.left source.old) (S.left source.new) (λ read. length read ≡ most_input + 1) }
    ensures ready { session_disk_failed result ≡ false → J.ready receiver.new }
    ensures works { session_disk_failed result ≡ true → J.failed receiver.new ≡ true }
    ensures lent { J.lent receiver.new ≡ J.lent receiver.old }
    ensures read_cause { Counts (S.faults source.old) (S.faults source.new) (session_input_failed result) }
    ensures write_cause { Counts (K.faults sink.old) (K.faults sink.new) (session_output_failed result) }
    ensures disk_cause { Counts (J.faults receiver.old) (J.faults receiver.new) (session_disk_failed result) }
{
    let input = read_whole(alloc, source)?;
    answer_bytes(alloc, sender, input.as_slice(), receiver, sink)?;
    Ok(())
}
