//! Journals, receipt by receipt.
ghost use Rattle.gb_base.specs.DayMinute.{IsStampDay};

use crate::stamp;
use act_model::{Added, Item, Journal, well_formed};
use gb_base::{Day, ReceiptNo};

/// The receipt that an item becomes at nine o'clock of a day; none where the item is not well
/// formed, or the journal does not accept it. Sender 1 calls it by the number that its receipt is to
/// have.
pub fn received(journal: &mut Journal, on: Day, item: &Item) -> Option<ReceiptNo>
    requires { IsStampDay on }
{
    if !well_formed(item) {
        return None;
    }
    let reference = u64::from(journal.len()) + 1;
    match journal.add(stamp(on, 540), 1, reference, item) {
        Added::Accepted(number) => Some(number),
        _ => None,
    }
}
