//! What the desks have settled is put together, or all is settled again.
//! Why so: docs/DECISIONS.md, "Folios carry marks behind their locks".
ghost use Rattle.std.specs.Prelude.{◌≡◌, IfSome, IsTrue};
ghost use Rattle.act_model.specs.Receiving.{IsJournal};
ghost use Rattle.conflict_queue.specs.Schedules.{IsPermitted, in_receipt_order};
ghost use Rattle.desk_pool.specs.Preparing.{HasFrame, HasPlaces};
ghost use Rattle.desk_pool.specs.inner.Boards.{AreVerdicts};
ghost use Rattle.desk_pool.specs.inner.PreparedRuns.{HasTaken};
ghost use Rattle.desk_pool.specs.inner.TheRegister.{IsTheRegister};

use crate::folio_row::FolioRow;
use crate::ready_desks::Worked;
use crate::register_frames::RegisterFrame;
use act_model::{Journal, JournalName, is_a_journal};
use conflict_queue::laws::receipts_in_turn;
use gb_base::ReceiptNo;
use kept_registers::laws::empty_register_is_kept;
use registrar::Register;

/// The register of the journal: of what desks have settled where all of it is there, else of the
/// whole journal, settled again in the order of the receipts. It takes no memory.
pub(crate) fn finish<N: JournalName>(
    journal: &Journal,
    mut frame: RegisterFrame,
    worked: Worked<N>,
    receipts: &[ReceiptNo],
) -> Register
    requires named { journal.now.receipts ≡ N.receipts }
    requires frame { HasFrame N.receipts frame }
    requires verdicts { IfSome worked.verdicts (λ verdicts. AreVerdicts N.receipts verdicts.items) }
    requires receipts { receipts.now ≡ in_receipt_order N.receipts }
    ensures { IsTheRegister N.receipts result }
{
    is_a_journal(journal);
    receipts_in_turn();
    if is_complete(&mut frame, worked) {
        return frame.into_register(journal, receipts);
    }
    frame.reset();
    frame.settle_in(journal, receipts)
}

/// Puts the verdicts and what stands in the folios into the frame, and says whether all is there. If not,
/// some of it may stand in the frame, which has the room of all folios either way.
fn is_complete<N: JournalName>(frame: &mut RegisterFrame, worked: Worked<N>) -> bool
    requires numbered { IsJournal N.receipts }
    requires frame { HasFrame N.receipts frame.old }
    requires verdicts { IfSome worked.verdicts (λ verdicts. AreVerdicts N.receipts verdicts.items) }
    ensures places { HasPlaces N.receipts frame.new }
    ensures taken { IsTrue result → HasTaken N.receipts (in_receipt_order N.receipts) frame.new }
{
    empty_register_is_kept();
    let Worked { verdicts, row } = worked;
    let settled = row.put_into(frame);
    let Some(verdicts) = verdicts else {
        return false;
    };
    if !settled || verdicts.len() != frame.verdicts.len() {
        return false;
    }
    frame.verdicts = verdicts;
    true
}

/// The register of the journal, settled in this order by one registrar, in the parts of its folios. It
/// takes no memory.
pub(crate) fn settle_in_row<N: JournalName>(
    journal: &Journal,
    mut frame: RegisterFrame,
    row: FolioRow<N>,
    order: &[ReceiptNo],
) -> Register
    requires named { journal.now.receipts ≡ N.receipts }
    requires frame { HasFrame N.receipts frame }
    requires permitted { IsPermitted N.receipts order.now }
    ensures { IsTheRegister N.receipts result }
{
    row.put_into(&mut frame);
    frame.reset();
    frame.settle_in(journal, order)
}
