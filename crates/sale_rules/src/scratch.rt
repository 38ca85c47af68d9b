//! What the lowest bid of a sale is computed in.
ghost use Rattle.std.specs.Prelude.{◌≡◌, ◌*◌, ◌≤◌, IfOk, OnErr, OnOk, max};
ghost use Rattle.std.specs.Thread.{IsSend, IsSync};
ghost use Rattle.sale_rules.specs.contracts.scratch.Scratch.{the_row};

use auction_classes::Claims;
use gb_base::NoMemory;
use rank_slots::Slots;
use std::alloc::Global;
use std::marker::Model;

/// What the lowest bid of a sale is computed in, so that settling takes no memory: the claims, and
/// the line of a class. In contracts it is how much it is for, and how much memory it has.
#[derive(Drop)]
pub struct Scratch {
    pub(crate) claims: Claims,
    pub(crate) slots: Slots,
}

impl Model for Scratch {
    ghost use Rattle.std.specs.Prelude.{◌≤◌, ◌+◌};
    ghost use Rattle.sale_rules.specs.ScratchRoom.{ScratchRoom};

    ghost Value = { ScratchRoom };

    ghost view = { λ a. record {
      rights = a.claims.right_room;
      exchanges = a.claims.exchange_room;
      capacity = a.claims.capacity + a.slots.capacity;
    } };

    ghost invariant = { λ a. (a.claims.right_room ≤ a.slots.place_room) × (a.claims.exchange_room ≤ a.slots.swap_room) };
}

impl Scratch {
    /// A scratch for so many rights of a folio, and for so many exchanges of ranks among them.
    /// May run out of memory (NoMemory).
    pub fn with_room(alloc: Global, rights: usize, exchanges: usize) -> Result<Scratch, NoMemory>
        ensures rights { IfOk result (λ scratch. scratch.rights ≡ rights) }
        ensures exchanges { IfOk result (λ scratch. scratch.exchanges ≡ exchanges) }
    {
        Ok(Scratch {
            claims: Claims::with_room(alloc, rights, exchanges)?,
            slots: Slots::with_room(alloc, rights, exchanges)?,
        })
    }

    /// Makes the scratch one for at least so many rights and exchanges. It keeps the room that it has,
    /// and where that is too little it makes at most twice what is asked for. May run out of memory
    /// (NoMemory), and is then unchanged.
    pub fn reserve(
        &mut self,
        alloc: Global,
        rights: usize,
        exchanges: usize,
    ) -> Result<(), NoMemory>
        ensures rights { OnOk result (rights ≤ self.new.rights) }
        ensures exchanges { OnOk result (exchanges ≤ self.new.exchanges) }
        ensures kept_rights { OnOk result (self.old.rights ≤ self.new.rights) }
        ensures kept_exchanges { OnOk result (self.old.exchanges ≤ self.new.exchanges) }
        ensures few_rights { OnOk result (self.new.rights ≤ max self.old.rights (2 * rights)) }
        ensures few_exchanges { OnOk result (self.new.exchanges ≤ max self.old.exchanges (2 * exchanges)) }
        ensures unchanged { OnErr result (self.new ≡ self.old) }
    {
        let right_room = self.claims.right_room();
        let exchange_room = self.claims.exchange_room();
        if rights <= right_room && exchanges <= exchange_room {
            return Ok(());
        }
        *self = Scratch::with_room(
            alloc,
            room_for(rights, right_room),
            room_for(exchanges, exchange_room),
        )?;
        Ok(())
    }
}

/// The room to make for so many, where there is some already. Rights and exchanges come one at a
/// time, so room that is too little is doubled at least.
fn room_for(wanted: usize, room: usize) -> usize
    ensures enough { wanted ≤ result }
    ensures kept { room ≤ result }
    ensures few { result ≤ max room (2 * wanted) }
{
    if wanted <= room {
        room
    } else {
        wanted.max(room.saturating_mul(2))
    }
}

/// Takes any type whose values threads may hand on and share.
fn is_shared<T: Send + Sync>()
    ensures { IsSend T.row × IsSync T.row }
{}

/// Threads may hand a scratch on and share it.
fn scratches_are_shared()
    ensures { IsSend the_row × IsSync the_row }
{
    is_shared::<Scratch>();
}
