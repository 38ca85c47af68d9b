//! What stands in the parts of the folios is taken over, key by key.
ghost use Rattle.std.specs.Prelude.{◌≡◌, ◌<◌, AllPairs, IsTrue, length};
ghost use Rattle.gb_base.specs.Keys.{folio_of_key};
ghost use Rattle.gb_base.specs.declared.keys.Key.{Key};
ghost use Rattle.desk_pool.specs.FolioStates.{HasAllRoom};
ghost use Rattle.desk_pool.specs.inner.AllQueues.{AreAllQueues, is_queued};
ghost use Rattle.desk_pool.specs.inner.FoliosBack.{AllBack, AreAllKeys, AreSettled, StandsSettled};
ghost use Rattle.desk_pool.specs.inner.TakenOver.{IsHeldInFolio, IsTakenOver};
ghost use Rattle.folio_sections.specs.Held.{entries_at, is_given, is_held, room_at};
ghost use Rattle.registrar.specs.HeldKeys.{keys_of_first};

use crate::folio_parts::KeyRoom;
use crate::folio_queues::{FolioQueue, place_of};
use act_model::JournalName;
use folio_sections::MapParts;
use gb_base::Key;

/// Takes what stands at each of these keys from the parts of its folio, and its room: `keys` are all
/// that the items of the named journal touch, and `back` are the parts of the folios in the order of
/// their queues.
pub(crate) fn take_all_over<N: JournalName>(
    parts: &mut MapParts,
    back: &mut [MapParts],
    queues: &[FolioQueue],
    keys: &[KeyRoom],
)
    requires held { (k : Key) → is_held parts.old k ≡ is_given (keys_of_first N.receipts (length N.receipts)) k }
    requires queues { AreAllQueues N.receipts queues.now }
    requires keys { AreAllKeys N.receipts keys.now }
    requires back { AllBack N.receipts queues.now back.old }
    ensures held { is_held parts.new ≡ is_held parts.old }
    ensures room { HasAllRoom N.receipts (is_held parts.new) (entries_at parts.new) (room_at parts.new) }
    ensures settled { AreSettled N.receipts back.old → StandsSettled N.receipts parts.new }
{
    for wanted in keys {
        take_over(parts, back, queues, &wanted.key);
    }
}

/// Takes what stands at a key from the parts of its folio, which is among those of the queues.
fn take_over(parts: &mut MapParts, back: &mut [MapParts], queues: &[FolioQueue], key: &Key)
    requires here { IsTrue (is_held parts.old key.now) }
    requires ascending { AllPairs (λ q later. q.folio < later.folio) queues.now }
    requires among { IsTrue (is_queued queues.now (folio_of_key key.now)) }
    requires there { IsHeldInFolio queues.now back.old key.now }
    ensures { IsTakenOver queues.now parts.old parts.new back.old back.new key.now }
{
    if let Some(place) = place_of(queues, key.folio()) {
        parts.swap_at(&mut back[place], key);
    }
}
