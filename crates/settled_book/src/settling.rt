//! Settling what a journal received since its register was settled last.
ghost use Rattle.std.specs.Prelude.{◌≡◌, OnOk, length};
ghost use Rattle.registrar.specs.HasSettled.{IsRegisterOf};
ghost use Rattle.settled_book.specs.SettledBookState.{HasSettledFirst};

use act_model::Journal;
use gb_base::NoMemory;
use registrar::{Register, Scratch};

/// Goes on with the register of the first receipts of a journal until all are settled. Where
/// memory runs out it may hold keys of an item that is not settled, and is to be rebuilt.
pub(crate) fn settle_rest(
    register: &mut Register,
    scratch: &mut Scratch,
    journal: &Journal,
) -> Result<(), NoMemory>
    requires { HasSettledFirst journal.now.receipts register.old }
    ensures { OnOk result (IsRegisterOf journal.now.receipts register.new) }
{
    while settled_count(register) < journal.len() as usize {
        register.settle_next(scratch, journal)?;
    }
    Ok(())
}

/// The number of receipts that are settled.
fn settled_count(register: &Register) -> usize
    ensures { result ≡ length register.now.verdicts }
{
    register.verdicts().len()
}
