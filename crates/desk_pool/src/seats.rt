//! What a desk works with.
ghost use Rattle.std.specs.Prelude.{◌≡◌, []};

use crate::pairs::FolioPair;
use folio_sections::MapParts;
use gb_base::NoMemory;
use registrar::Scratch;
use std::alloc::Global;

/// What one desk alone works with.
#[derive(Drop)]
pub(crate) struct Seat {
    /// Parts that hold nothing, for an item that touches no key.
    pub nothing: MapParts,
    /// A scratch without room, for such an item, and for one of a folio that has no scratch.
    pub scratch: Scratch,
    /// Where the parts of two folios are moved, for an item that touches both.
    pub pair: FolioPair,
    pub ghost empty: { nothing ≡ [] },
}

impl Seat {
    /// What a desk works with. May run out of memory (NoMemory).
    pub fn new(alloc: Global) -> Result<Seat, NoMemory> {
        Ok(Seat {
            nothing: MapParts::new(alloc, &[])?,
            scratch: Scratch::with_room(alloc, 0, 0)?,
            pair: FolioPair::new(alloc)?,
        })
    }
}
