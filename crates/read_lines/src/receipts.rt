//! The receipt of a stamped line.
ghost use Rattle.std.specs.Prelude.{◌≤◌, IfOk, IsTrue, length};
ghost use Rattle.act_model.specs.WellFormed.{well_formed};

use act_json::{LineFault, read_stamped};
use act_model::Receipt;
use std::alloc::Global;

/// A longer line is no line of the office.
pub(crate) const MAX_LINE: usize = 65_536;

/// The receipt that a stamped line tells.
pub(crate) fn receipt_of(alloc: Global, line: &[u8]) -> Result<Receipt, LineFault>
    requires { length line.now ≤ MAX_LINE }
    ensures well_formed { IfOk result (λ receipt. IsTrue (well_formed receipt.item)) }
{
    let (stamp, sender, reference, item) = read_stamped(alloc, line)?;
    Ok(Receipt {
        stamp,
        sender,
        reference,
        item,
    })
}
