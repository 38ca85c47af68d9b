//! The line of a folio whose parts know which rights they hold.
ghost use Rattle.std.specs.Prelude.{IfOk};
ghost use Rattle.folio_line.specs.FolioLine.{IsLineOf};
ghost use Rattle.folio_line.specs.FolioReading.{CanBeRead, read_at};

use crate::exchanges::count_exchanges;
use crate::{FolioLine, FolioReading, HeldRights};
use gb_base::NoMemory;
use std::alloc::Global;

/// The line of a folio, in lists made for it. May run out of memory for them (`NoMemory`).
pub fn held_line<P: HeldRights>(
    alloc: Global,
    reading: &FolioReading<P>,
) -> Result<FolioLine, NoMemory>
    requires read { CanBeRead P.holds P.at reading.now }
    ensures line { IfOk result (λ line. IsLineOf (read_at reading.now.before (P.at reading.now.parts.now)) reading.now.folio line) }
{
    let held = reading.parts.rights_in(alloc, reading.folio)?;
    let exchanges = count_exchanges(reading, &held)?;
    let mut line = FolioLine::with_room(alloc, held.len(), exchanges)?;
    line.read(reading, &held);
    Ok(line)
}
