//! The records of a journal's file.
ghost use Rattle.std.specs.Prelude.{◌≡◌, [], ℕ, List, false, IfErr, OnOk};
ghost use Rattle.journal_disk.specs.Layout.{the_heading, first_gate, frames_from};
ghost use Rattle.receipt_journal.specs.Standing.{records, IsKeepable};
ghost use Rattle.receipt_journal.specs.Opening.{book_opening_disk_failed};
ghost use Rattle.receipt_journal.specs.inner.Taking.{Takes, RefusesFrame, RefusesFrames};

use crate::BookFault;
use act_codec::decode;
use act_model::{Added, Journal};
use journal_disk::Frame;

/// Takes the receipts that the frames spell into the journal, in their order. `BadRecord` names
/// the first frame that is no record of the journal before it.
pub(crate) fn take_records(journal: &mut Journal, frames: &[Frame]) -> Result<(), BookFault>
    requires empty { journal.old.receipts ≡ [] }
    ensures keepable { OnOk result (IsKeepable journal.new.receipts) }
    ensures taken { (bodies : List (List ℕ)) → frames.now ≡ frames_from (first_gate the_heading) bodies → OnOk result (bodies ≡ records journal.new.receipts) }
    ensures refused { (bodies : List (List ℕ)) → frames.now ≡ frames_from (first_gate the_heading) bodies → IfErr result (RefusesFrames bodies) }
    ensures no_disk { book_opening_disk_failed result ≡ false }
{
    for frame in frames {
        take_record(journal, frame)?;
    }
    Ok(())
}

/// Takes the receipt that a frame spells. `BadRecord` means that it is no record of the journal.
fn take_record(journal: &mut Journal, frame: &Frame) -> Result<(), BookFault>
    requires { IsKeepable journal.old.receipts }
    ensures taken { OnOk result (Takes journal.old.receipts frame.now.body journal.new.receipts) }
    ensures refused { IfErr result (RefusesFrame journal.old.receipts frame.now) }
{
    let bad = BookFault::BadRecord { at: frame.at };
    let Some(receipt) = decode(&frame.body) else {
        return Err(bad);
    };
    if journal.next_stamp(receipt.stamp) != receipt.stamp {
        return Err(bad);
    }
    match journal.add(
        receipt.stamp,
        receipt.sender,
        receipt.reference,
        &receipt.item,
    ) {
        Added::Accepted(_) => Ok(()),
        Added::Repeated(_) | Added::Differs(_) | Added::Full => Err(bad),
        Added::Memory => Err(BookFault::Memory),
    }
}
