//! Folios with their marks, and the places where they stand.
//! Why so: docs/DECISIONS.md, "Folios carry marks behind their locks".
ghost use Rattle.std.specs.Prelude.{◌≡◌, Some, slice_get};
ghost use Rattle.desk_pool.specs.inner.FolioMarks.{FolioMark};

use crate::locked_folios::LockedFolio;
use crate::marks::Mark;
use act_model::JournalName;
use std::marker::{Brand, PhantomData};

/// A folio of the named journal, and its mark.
#[derive(Drop)]
pub(crate) struct MarkedFolio<N: JournalName> {
    pub folio: LockedFolio<N>,
    pub mark: Mark,
}

/// A row of marked folios, as a type. What stands behind several locks is of one row where its type
/// has the row's name.
pub(crate) trait RowName {
    ghost use Rattle.std.specs.Prelude.{List};
    ghost use Rattle.desk_pool.specs.inner.FolioMarks.{FolioMark};

    /// The folios of the row and the names of their marks.
    ghost row: { List FolioMark };
}

/// The name that a caller picks for the row that it has at hand.
impl RowName for Brand {
    ghost use Rattle.std.specs.Prelude.{[]};

    ghost row = { [] };
}

/// A folio that is known to be that of its place in the named row: so whoever takes it from behind a
/// lock knows where it belongs, and that it is there once. A `LockedFolio` with its mark is a
/// `MarkedFolio`; one that knows its place is a `PlacedFolio`, and that lies behind the lock.
#[derive(Drop)]
pub(crate) struct PlacedFolio<N: JournalName, W: RowName> {
    pub marked: MarkedFolio<N>,
    pub place: usize,
    of: PhantomData<W>,
    pub ghost there: { slice_get W.RowName.row place ≡ Some (record { folio = marked.folio.folio; mark = marked.mark.token.name }) },
}

impl<N: JournalName, W: RowName> PlacedFolio<N, W> {
    /// The folio at this place of the row.
    pub fn new(marked: MarkedFolio<N>, place: usize) -> PlacedFolio<N, W>
        requires { slice_get W.RowName.row place ≡ Some (record { folio = marked.folio.folio; mark = marked.mark.token.name }) }
    {
        PlacedFolio {
            marked,
            place,
            of: PhantomData,
        }
    }
}
