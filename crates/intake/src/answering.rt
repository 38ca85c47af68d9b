//! One request is answered: an item is received before its reply is written.
ghost use Rattle.std.specs.Prelude.{◌≡◌, ◌++◌, ◌∷◌, [], false, true, codes, Some, IfOk, OnOk, OnErr, IsTrue};
ghost use Rattle.gb_outside.specs.Faults.{Counts};
ghost use Rattle.act_model.specs.WellFormed.{well_formed};
ghost use Rattle.receipt_journal.specs.Receiving.{receiving_disk_failed};
ghost use Rattle.intake.specs.Answered.{Answered};
ghost use Rattle.intake.specs.EarlyEnds.{EndsEarly};
ghost use Rattle.intake.specs.Faults.{answer_output_failed, answer_disk_failed};
ghost use Rattle.intake.specs.Grown.{DiskGrows};
ghost use Rattle.intake.specs.Requests.{Held, received_text, is_fault, held_after};
ghost use Rattle.intake_requests.specs.Asking.{asks_well, asks_clock, has_no_stamp};
ghost use Rattle.intake_requests.specs.declared.requests.Request.TheVariants.{Receive};

use crate::faults::AnswerFault;
use crate::receivers::Receiver;
use crate::words::received_line;
use crate::writing::write_all;
use act_model::Item;
use gb_base::Stamp;
use gb_outside::Sink;
use intake_requests::{Request, SenderReference};
use receipt_journal::Received;
use std::alloc::Global;

/// Answers a request. The clock is asked only for an item without a stamp. Only a request that an
/// item be received may run out of memory (Memory), also for its reply line.
pub(crate) fn answer_request<J: Receiver, K: Sink>(
    alloc: Global,
    receiver: &mut J,
    request: &Request,
    sink: &mut K,
) -> Result<(), AnswerFault>
    requires well_formed { IsTrue (asks_well request.now) }
    requires stamped { J.has_clock ≡ false → asks_clock request.now ≡ false }
    requires ready { J.ready receiver.old }
    ensures answered { (held : Held) → J.holds receiver.old ≡ Some held
        → OnOk result (Answered J.medium held (J.holds receiver.new) (K.written sink.old) (K.written sink.new) (request.now ∷ [])) }
    ensures broken { (held : Held) → J.holds receiver.old ≡ Some held
        → OnErr result (EndsEarly J.medium held (J.ticks receiver.new) (K.written sink.old) (K.written sink.new) (J.images receiver.new) (request.now ∷ [])) }
    ensures grows { (held : Held) → J.holds receiver.old ≡ Some held
        → DiskGrows J.reads J.moment J.since receiver.old receiver.new held.journal (held_after J.medium held (request.now ∷ [])).journal }
    ensures ready { answer_disk_failed result ≡ false → J.ready receiver.new }
    ensures works { answer_disk_failed result ≡ true → J.failed receiver.new ≡ true }
    ensures lent { J.lent receiver.new ≡ J.lent receiver.old }
    ensures write_cause { Counts (K.faults sink.old) (K.faults sink.new) (answer_output_failed result) }
    ensures disk_cause { Counts (J.faults receiver.old) (J.faults receiver.new) (answer_disk_failed result) }
{
    match request {
        Request::Nothing => Ok(()),
        Request::Refused(reply) => Ok(write_all(sink, reply.text())?),
        Request::Receive { stamp, from, item } => {
            answer_item(alloc, receiver, *stamp, *from, item, sink)
        }
    }
}

/// Receives an item, and then writes its reply.
fn answer_item<J: Receiver, K: Sink>(
    alloc: Global,
    receiver: &mut J,
    stamp: Option<Stamp>,
    from: SenderReference,
    item: &Item,
    sink: &mut K,
) -> Result<(), AnswerFault>
    requires well_formed { IsTrue (well_formed item.now) }
    requires stamped { J.has_clock ≡ false → has_no_stamp stamp ≡ false }
    requires ready { J.ready receiver.old }
    ensures answered { (held : Held) → J.holds receiver.old ≡ Some held
        → OnOk result (Answered J.medium held (J.holds receiver.new) (K.written sink.old) (K.written sink.new) (Receive stamp from item.now ∷ [])) }
    ensures broken { (held : Held) → J.holds receiver.old ≡ Some held
        → OnErr result (EndsEarly J.medium held (J.ticks receiver.new) (K.written sink.old) (K.written sink.new) (J.images receiver.new) (Receive stamp from item.now ∷ [])) }
    ensures grows { (held : Held) → J.holds receiver.old ≡ Some held
        → DiskGrows J.reads J.moment J.since receiver.old receiver.new held.journal (held_after J.medium held (Receive stamp from item.now ∷ [])).journal }
    ensures ready { answer_disk_failed result ≡ false → J.ready receiver.new }
    ensures works { answer_disk_failed result ≡ true → J.failed receiver.new ≡ true }
    ensures lent { J.lent receiver.new ≡ J.lent receiver.old }
    ensures write_cause { Counts (K.faults sink.old) (K.faults sink.new) (answer_output_failed result) }
    ensures disk_cause { Counts (J.faults receiver.old) (J.faults receiver.new) (answer_disk_failed result) }
{
    let answer = receiver.receive(alloc, stamp, from, item);
    let text = reply_line(alloc, answer)?;
    write_all(sink, text.as_slice())?;
    Ok(())
}

/// The reply line of an answer that is no fault. It may run out of memory (Memory).
fn reply_line(alloc: Global, answer: Received) -> Result<Vec<u8>, AnswerFault>
    requires { answer ≡ Received.MustReopen → ⊥ }
    ensures text { IfOk result (λ text. text.items ≡ received_text answer ++ codes "\n") }
    ensures answered { OnOk result (is_fault answer ≡ false) }
    ensures no_output { answer_output_failed result ≡ false }
    ensures disk { answer_disk_failed result ≡ receiving_disk_failed answer }
{
    match answer {
        Received::Accepted(_) => Ok(received_line(alloc, answer)?),
        Received::Repeated(_) => Ok(received_line(alloc, answer)?),
        Received::Differs(_) => Ok(received_line(alloc, answer)?),
        Received::Full => Ok(received_line(alloc, answer)?),
        Received::Disk => Err(AnswerFault::Disk),
        Received::MustReopen => unreachable!(),
        Received::Memory => Err(AnswerFault::Memory),
    }
}
